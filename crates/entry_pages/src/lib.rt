//! Entries, and lists of them packed in pages.
//!
//! - An [`Entry`] has a path, the kind, size and time of the file there, and the target of a link. Its [`Mark`] says how the
//!   file system answered.
//! - A [`Pages`] is seen as the list of its entries. It keeps them packed, in pages of 256. Of each entry it keeps a head, and
//!   the part of the path that the path before does not share. The first path of a page is whole. [`Pages::page`] shows a
//!   page's bytes. The targets of links are in one text beside the pages, so an entry without one takes no room there. No slice
//!   of entries leaves the crate: it makes them again, one by one.
//! - [`Pages::append`] puts the pages of another list after these, as they are kept.
//! - A [`Reader`] goes over the entries. It makes each path from the one before in one place, so it takes the memory of one
//!   entry.
//! - [`Pages::summary`] counts the entries that have a stat, by kind, the bytes of the files, and the failures that the entries
//!   name. Its answer is a [`Summary`]. It looks at the heads alone.
//!
//! ```text
//! let mut pages = Pages::make(alloc);
//! pages.add(&entry)?;
//! let mut reader = pages.reader()?;
//! while !reader.is_over() {
//!     reader.pass()?;
//!     let entry = reader.entry();
//!     // ...
//! }
//! ```
//!
//! Proved:
//! - The bytes of a page are those of the definition. These bytes and the heads give the entries.
//! - A reader passes each entry once, in order.
//! - The first place of a path and the counts are those of the definitions.
//! - A call that runs out of memory leaves the pages, or the reader, as they were.
//!
//! Definitions are in `specs/`:
//! - `Entries`: the shape of an entry, its notes, the summary.
//! - `Pack`: how entries are packed, and where a path is among them.
//! - `Private`: the definitions that only private clauses cite.
//!
//! Limits: `place_of` looks at the entries one by one. It is not claimed that a call runs out of memory only if memory was
//! refused.
#![tactic(auto)]

mod appending;
mod entries;
mod heads;
mod packing;
mod pages;
mod passing;
mod seeking;
mod slims;
mod summaries;

pub use entries::{Entry, Mark};
pub use pages::Pages;
pub use passing::Reader;
pub use summaries::Summary;
