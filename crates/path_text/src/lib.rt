//! Absolute paths as text: the form of a path, the order of paths, and the printed form of a path.
//!
//! A [`Path`] is `/`, or one or more names, each after a `/`, with at most 4,095 bytes. A contract sees it as the list of
//! its bytes. [`Path::parse`] says why a text is not a path, and [`Path::join`] makes the path of a child. [`Path::parent`],
//! [`Path::base`] and [`Path::level`] give its parent, its last name and its number of names. Each path but `/` is under its
//! parent ([`parent_is_over`]). [`Path::is_under`] and [`Path::is_within`] say whether a path is under a top. Of two tops of
//! one path, one is within the other ([`tops_are_nested`]). [`Path::below`] moves a path from a top to `/`, and
//! [`Path::graft`] moves it to another top. Each undoes the other ([`graft_undoes_below`], [`below_undoes_graft`]). Paths
//! keep their order ([`below_keeps_order`]), and a parent moves with its child ([`parent_moves_too`]).
//!
//! Paths are in *path order*: `/` comes before every other byte, and the other bytes keep their order. Path order is preorder
//! with siblings in byte order ([`path_order_is_preorder`]). So a list of the paths of a tree in path order is a walk of that
//! tree from the top down. In it, all paths under a path come right after that path ([`under_is_contiguous`]). [`compare`]
//! compares any bytes in path order, even if they are not a path. [`common_len`] counts the first bytes that two texts share.
//!
//! [`escape`] writes a path on one line of printable text, whatever bytes its names hold. [`unescape`] reads that text, and
//! no other, as the path ([`reading_undoes_writing`]). Other texts, for example those of links, use the parts of these two.
//! [`put_escaped_bytes`] writes bytes in printable text, and [`good_len`] says whether a text has that form. [`told_len`]
//! counts the bytes that such a text means, and [`tells_zero`] says whether one of them is 0; neither takes memory.
//! [`unescaped`] reads the text ([`unescaping_undoes_escaping`]).
//!
//! ```text
//! let top = Path::parse(alloc, "/t")?;
//! let child = top.join("a\n")?;             // the path `/t/a` and a line feed
//! assert!(top < child);
//! let line = escape(alloc, &child)?;        // the bytes of `/t/a\x0A`
//! assert!(unescape(alloc, "/t/a\\x0A")? == child);
//! let there = Path::graft(&Path::parse(alloc, "/d")?, &child.below(&top)?)?;     // `/d/a` and a line feed
//! ```
//!
//! [`NoMemory`] is the trait of the errors that say only that memory ran out, as [`OutOfMemory`] does.
//!
//! Proved: each call meets its clauses for every text, ends, and reads nothing out of bounds. The clauses name every failure
//! but a lack of memory. The definitions are in `specs/`. `Path` has the form of a path, `Order` path order and its laws, and
//! `Total` that path order is a total order. `Graft` moves a path, and `Escape` writes and reads it. `Written` has the
//! definitions that only private clauses cite.
#![tactic(auto)]

mod errors;
mod escaping;
mod faults;
mod laws;
mod names;
mod ordering;
mod paths;
mod prefixes;
mod reading;
mod written;

pub use errors::{EscapeError, JoinError, NoMemory, OutOfMemory, PathError};
pub use escaping::{escape, put_escaped, put_escaped_bytes};
pub use laws::{
    below_keeps_order, below_undoes_graft, graft_undoes_below, parent_is_over, parent_moves_too,
    path_order_is_preorder, path_order_reads_slash_as_zero, reading_undoes_writing,
    tops_are_nested, under_is_contiguous, unescaping_undoes_escaping,
};
pub use ordering::compare;
pub use paths::{MAX_PATH, Path, valid_name};
pub use prefixes::common_len;
pub use reading::{good_len, unescape, unescaped};
pub use written::{tells_zero, told_len};
