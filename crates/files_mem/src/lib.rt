//! Trees of files in memory: for tests of programs that work on files, and for made-up trees.
//!
//! [`MemGround`] begins with `/` alone. [`MemGround::put_dir`], [`MemGround::put_file`], [`MemGround::put_link`] and
//! [`MemGround::put_other`] put one node each, in a directory that is there. It is an [`outside::Ground`], so it can be
//! written. Its readers, each a [`MemReader`], are [`outside::Tree`]s. They show the files as they were when the ground made the
//! reader. Ground and readers share the nodes, and a change copies them first while a reader is out.
//!
//! [`MemGround::plan`] plans a [`Call`] to fail at a path. Such a call fails every time, before it looks at anything else,
//! and counts as a fault; no other call fails. So a test can try the answers of a program to faults. They are the same whatever
//! the schedule.
//!
//! ```text
//! let mut files = MemGround::empty(alloc)?;
//! files.put_dir(&Path::parse(alloc, "/t")?, 0, None)?;
//! files.put_file(&Path::parse(alloc, "/t/a")?, b"hello", Some(86400))?;
//! files.plan(Call::List, &Path::parse(alloc, "/t")?)?;
//! let mut reader = files.reader(alloc)?;
//! reader.list(alloc, &t)                    // `Failed`, and the count of the reader is 1
//! ```
//!
//! [`Blind`] is a ground round a [`MemGround`] that tells no tree, as that of a real disk tells none. So all that holds over it
//! holds of files that may change under their reader. It passes every call on, but its readers may lie, swell and meet:
//!
//! - After [`Blind::lie`] they answer that a directory is at a path.
//! - After [`Blind::swell`] they answer that a file has a byte more than it has.
//! - After [`Blind::meet`] a look at one of two paths waits for a look at the other, and fails if none comes.
//!
//! So tests can try contradicting answers, files that shrink before a reader reads them, and whether two readers look at the same
//! time. Proved of it: it keeps the contract of every ground, its counts rise, and its areas change as those of the ground inside.
//! The answers of its readers are tested.
//!
//! A [`MemGround`] and its readers are seen as a `Memory`: the nodes by their paths, the calls planned to fail, and the count
//! of faults. A [`Blind`] and its readers are seen as their counts and areas alone. Proved: each call answers exactly as the
//! `Memory` says, changes exactly the fields that its clauses name, and leaves a tree. Only out of memory may take the place of an
//! answer.
//!
//! Listing a directory costs its children and not the nodes under them, which is measured and not proved. A write costs the bytes
//! that it writes and not those of the file, unless a reader is out. A part takes its nodes out of the ground. So a lease costs the
//! nodes that it lends and not all, unless a reader is out. The bytes of files are copied with their nodes. A part that comes back
//! waits, without memory, in a place that its lease made. The next call that may run out of memory joins it, and answers never
//! wait for that. Proved too: a part's nodes are those at and under its tops. With any parts and files out, in any order of coming
//! back, the ground stays a tree.
//!
//! One file can be lent in spans ([`outside::Wide`]). Each [`MemSpan`] has bytes of its own. The ground keeps the empty file
//! with room for all of them, so neither a write nor the return takes memory. A planned [`Call::Write`] of the file fails each
//! write of its spans, and a planned [`Call::Spans`] the lease. The spans of a [`Blind`] tell no bytes.
//!
//! Definitions are in `specs/`: `Memory`, `Planned` (the calls that are planned to fail), `Steady` (files in which none is),
//! `Stored` (the tree of a map in memory) and `Spanned` (spans). `Blinded` is for files that tell no tree. `PrivateHeld` (the
//! state of a ground while parts are out) is for private clauses.
#![tactic(auto)]

mod blind;
mod blind_readers;
mod child_names;
mod cuttings;
mod errors;
mod grounds;
mod held;
mod meetings;
mod nodes;
mod parts;
mod plans;
mod readers;
mod spans;
mod stores;
mod tricks;
mod untold;

pub use blind::{Blind, BlindPart};
pub use blind_readers::BlindReader;
pub use errors::PutError;
pub use grounds::MemGround;
pub use parts::MemPart;
pub use plans::Call;
pub use readers::MemReader;
pub use spans::MemSpan;
pub use untold::{Looks, Untold};
