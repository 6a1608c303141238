//! The traits of the outside: trees of files that can be read and written, and sinks that take text.
//!
//! - [`Tree`] reads files. [`Tree::stat`] gives the kind, size and time of a path. [`Tree::list`] gives the names in a
//!   directory, as a [`Listing`]. [`Tree::read`] gives bytes of a file, and [`Tree::read_link`] the text of a link, as a
//!   [`LinkText`].
//! - [`Plot`] is written, by six calls that each name one path: [`Plot::make_dir`], [`Plot::make_file`], [`Plot::make_link`],
//!   [`Plot::write_at`], [`Plot::remove_file`] and [`Plot::remove_dir`]. [`WriteError`] says why a call is refused.
//! - [`Ground`] is a set of files that can be written and of which readers can be made. Each [`Ground::Reader`] is a [`Tree`].
//!   It lends parts ([`Ground::lease`], [`Ground::give_back`]): each [`Ground::Part`] is a [`Plot`] of the nodes at and under
//!   some paths, its tops. [`Lent`] keeps the [`Tops`] of the parts that are out, for an implementation of `Ground`.
//! - [`Wide`] is a ground that can lend one file in spans ([`Wide::lease_spans`], [`Wide::give_back_spans`]), so that several
//!   threads write it at once. Each [`Span`] is a range of its bytes. [`SpanError`] says why a call is refused.
//! - [`LinkText`] is the text of a link, 1 to 4,095 bytes without a 0. [`LinkText::escape`] writes it as printable text, and
//!   [`LinkText::unescape`] reads that. [`LinkTextError`] says why a text is not one of a link.
//! - [`load`] reads a whole file, and [`save`] writes one, in place of a file that is there.
//! - [`Sink`] takes bytes, and [`put_all`] puts all bytes of a text into it. [`MemSink`] is a sink in memory.
//!
//! An object may *tell its tree*. Then the ghost member `tree` is the finite map from paths to nodes that its answers are
//! about. The clauses tie each answer, and the state after each call, to that map. An object over a real disk tells no tree.
//! Its contract still says which answers it has and when each may come. The ghost member `area` says where an object may be
//! written. A part may be written at and under its tops. A ground may not be written at, under and over the tops of parts and
//! the files in spans that are out. It may be written everywhere else. A span always shows its path, its start and its length.
//! It tells its bytes if the ground tells its tree.
//!
//! Each reader, and all files, have a relation `gives` too: which answer a call may have, and which state it leaves. An
//! implementation may choose any relation. Code for all implementations knows nothing of it, so its contract can name an answer
//! only if a call gave it. In this way [`load`] and [`save`] tell the cause of each answer also over files that tell no tree.
//!
//! Everything outside may fail. Each object counts its *faults* in a number that never falls and stops at 2^64 - 1. An answer
//! that blames the outside comes only if that count rose, or is at its end.
//!
//! Proved: [`put_all`], [`load`] and [`save`] end, over every object. [`put_all`] appends exactly its bytes, or a front of them
//! if the sink failed. If the files tell their tree, [`load`] gives exactly the bytes of the file, and `NoFile` if no file is
//! there. [`save`] then leaves a file with exactly the bytes and all else as before, or answers `NoPlace` exactly if no file
//! can be there. Over all files, [`load`] gives as many bytes as `stat` answered, or all bytes before a read gave none. It
//! answers `NoFile` only if `stat` or a read answered that. [`save`] wrote all its bytes, one piece after another, or answers
//! `NoPlace` only if a `stat` or a write answered that. [`load`] takes the memory for a whole file before it reads any of it.
//! [`MemSink`] and [`Listing`] meet their clauses. Each implementation of a trait is proved to meet the clauses of the trait.
//!
//! Laws give the form of the names in every tree ([`children_have_names`]), and say that the path of a node is valid
//! ([`nodes_have_paths`]). A path is under its parent ([`children_have_parents`]), and each path over a node is a directory
//! ([`nodes_are_under_directories`]). A lease leaves a tree and makes a part, and a return makes a tree again
//! ([`leases_keep_trees`]). Two parts that are out at once give the same tree as one after the other ([`leases_overlap`]).
//! Reading undoes writing of a link's text ([`link_reading_undoes_writing`]).
//!
//! Not claimed: the node at the path of a [`save`] that failed or ran out of memory.
//!
//! The definitions are in `specs/`:
//!
//! - `Tree`: files, nodes, listings, bytes that are read
//! - `Links`: the texts of links
//! - `Writes`: areas, refusals, the answer of a call and the state that it leaves
//! - `Lease`: dividing and joining files, and the areas meanwhile
//! - `Laid`: the joined map
//! - `Parts`: the nodes of a part, and the laws of leases
//! - `Spans`: files cut in spans, and the areas meanwhile
//! - `Whole`: whole files
//! - `Asked`: calls with their answers
//! - `Answered`: whole files by the answers of the calls
//! - `Count`: counts of faults
//! - `Sinks`: sinks
//! - `Codes`: only for proofs
#![tactic(auto)]

mod failures;
mod grounds;
mod laws;
mod leases;
mod links;
mod listings;
mod loading;
mod plots;
mod saving;
mod sinks;
mod spans;
mod trees;

pub use failures::Failed;
pub use grounds::Ground;
pub use laws::{
    children_have_names, children_have_parents, leases_keep_trees, leases_overlap,
    link_reading_undoes_writing, nodes_are_under_directories, nodes_have_paths,
};
pub use leases::{Lent, Tops};
pub use links::{LinkText, LinkTextError, MAX_LINK};
pub use listings::Listing;
pub use loading::{LoadError, load};
pub use plots::{Plot, WriteError};
pub use saving::{SaveError, save};
pub use sinks::{MemSink, Sink, put_all};
pub use spans::{Span, SpanError, Wide};
pub use trees::{Kind, LinkError, ListError, ReadError, Stat, Tree};
