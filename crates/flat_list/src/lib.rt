//! Lists of entries in path order, as a walk makes them.
//!
//! - A [`FlatList`] is seen as the list of its entries. It keeps them packed, as the pages of `entry_pages`, which says what an
//!   [`Entry`] is, its [`Mark`] and a [`Summary`]. No slice of entries leaves the crate: it makes them again, one by one.
//! - [`FlatList::from_logs`] joins the packed logs of several ranks, and puts their entries in path order. It reads each log
//!   once, in several threads if there are more. Each log becomes runs: short lists in order. It joins runs that come in
//!   falling order, as those of one rank do, page by page as they are kept. It merges others.
//! - [`FlatList::from_jobs`] does so with logs that are not packed. [`FlatList::from_lists`] does so with lists that are in
//!   path order already: they are the runs.
//! - A [`Cursor`] goes over the entries. It makes each path from the one before in one place, so it takes the memory of one
//!   entry. [`FlatList::retain`] drops some of the entries.
//! - [`FlatList::sort_by`] sorts by a [`Field`], upwards or downwards, and always by path if the field ties.
//! - [`FlatList::levels`] gives the places of each level, and [`FlatList::spread`] deals copies of the entries to pieces.
//! - [`FlatList::encode`] writes a list as a list file of version 2, a text that other tools read. [`FlatList::decode`] reads a
//!   list file of version 1 or 2, or names the first bad line in a [`CacheError`].
//!
//! ```text
//! let list = FlatList::from_logs(rt, alloc, logs, hosts)?;
//! let mut cursor = list.cursor()?;
//! while cursor.advance()? {
//!     let entry = cursor.entry();
//!     // ...
//! }
//! let bytes = list.encode()?;                  // "mfu list 2\nd 0 86400 ok 0 0 /t\nend 1\n"
//! let again = FlatList::decode(alloc, &bytes)?;
//! ```
//!
//! Proved:
//! - A joined list has all entries of the logs and no other, and ascends by path.
//! - A sort only moves entries, and keeps the order of those that tie.
//! - Levels and pieces are those of the definitions.
//! - A cursor passes each entry once, in order.
//! - A call that runs out of memory leaves the list as it was.
//!
//! Proved of list files, over relations between bytes and lists:
//! - `SpellsAs` says how a list is written in a version, and `Spells` that bytes are its list file in some version. Version 2
//!   has the targets of links, each in a line of its own; version 1 has none.
//! - `encode` writes the list's file of version 2. `decode` reads the list that the bytes spell.
//! - Each refusal has its cause: the first line through which no list file begins, or too many entries.
//! - A list has one list file of a version, a list file has one list, and none is a proper prefix of another
//!   ([`spelling_is_unique`]).
//! - Of two answers about a text only one is true ([`refusals_are_exact`]).
//!
//! Definitions are in `specs/`:
//! - `Orders`: fields, places, levels, pieces.
//! - `Spelling`: list files.
//! - `Private`: the definitions that only private clauses cite.
//!
//! `whole_lines` has the words of lines and the argument on whole lines. Its items are pieces of one line each: an entry's own,
//! or a target's (`proofs/Pieces`).
//!
//! Limits: `decode` refuses a list file of more than 4,194,304 entries. Two things are not claimed: that a call runs out of
//! memory only if memory was refused, and how soon a list is in order.
#![tactic(auto)]

mod cursors;
mod dealing;
mod decoding;
mod encoding;
mod errors;
mod following;
mod halving;
mod laws;
mod lists;
mod merging;
mod ordering;
mod piles;
mod reading;
mod runs;
mod sources;
mod versions;

pub use cursors::Cursor;
pub use entry_pages::{Entry, Mark, Summary};
pub use errors::CacheError;
pub use laws::{refusals_are_exact, spelling_is_unique};
pub use lists::FlatList;
pub use ordering::Field;
pub use versions::Version;
