//! The entries of a run: how they are found, chosen, reported and saved.
//!
//! - [`find`] looks at the paths of `--newer`. It then walks the trees below the roots of the given paths, by as many ranks
//!   as asked, or reads the given list file. It chooses the entries that pass the tests.
//! - [`walk_side`] walks alone, for a run with several walks. [`walk_sides`] walks a source and then a destination
//!   ([`Sides`]), and [`walk_roots`] walks roots as they are.
//! - [`name_entries`] makes the notes of a walk, also of that of a destination. [`name_copies`] and [`name_removals`] make
//!   those of paths that were copied or removed, and [`name_paths`] those of paths that share a reason.
//!   [`look_failed`] is that of a failed look.
//! - [`read_list`] reads a list file, [`save_list`] writes one, and [`save_lists`] several, one after the other.
//! - [`in_asked_order`] sorts a list as asked, and [`Account::put`] writes the reports on a walk. [`report_with`] makes a report
//!   that ends with notes.
//!
//! Its parts:
//!
//! - `finding` finds the entries, `starting` begins the walk, and `reading` reads a list file.
//! - `choosing` chooses entries, `naming` makes the notes, and `saving` writes list files.
//! - `both` has the walks of two sides, and `accounts` the reports on a walk.
//! - `printing` has the text of these reports and of the notes, `ordering` the order of the list, and `laws` the laws of any
//!   run.
//!
//! Proved, over any files: the entries are those of a walk of the roots, or of the list file. They are chosen by the tests. Each
//! failed answer has a note, also if its entry is not chosen, and the files counted it. If the files tell their tree, the walk is the
//! recursive one, and a list file that is read or written spells its entries. If nothing is found, or a list is not saved, the
//! cause is given, and the lists that were saved before.
//!
//! Laws: a walk of a fine side has no notes ([`fine_finds_name_nothing`], [`fine_walks_name_nothing`]) and is whole
//! ([`fine_walks_are_whole`]). It stops only if it is out of memory ([`fine_finds_stop_for_memory`],
//! [`fine_walks_stop_for_memory`], [`fine_places_stop_for_memory`]). Work that is done has no notes
//! ([`done_names_nothing`]). If a count did not rise, nothing failed ([`still_counts`]).
//!
//! The directory `specs/` has the definitions:
//!
//! - `Entries`: the entries found;
//! - `Both`: the walks of two sides;
//! - `Choosing`: the choice of entries;
//! - `Naming`: the notes;
//! - `Tells`: the reports on a walk;
//! - `Saving`: the lists that are saved;
//! - `Stopping`: the reasons to stop, step by step;
//! - `Fine`: a fine side, in which nothing is in the way.
//!
//! Only tested: that the paths of `--newer` are looked at before a list is read.
#![tactic(auto)]

mod accounts;
mod both;
mod choosing;
mod finding;
mod findings;
mod laws;
mod naming;
mod ordering;
mod printing;
mod reading;
mod saving;
mod starting;

pub use accounts::{Account, Entries};
pub use both::{Sides, walk_sides};
pub use finding::find;
pub use findings::Findings;
pub use laws::{
    done_names_nothing, fine_finds_name_nothing, fine_finds_stop_for_memory,
    fine_places_stop_for_memory, fine_walks_are_whole, fine_walks_name_nothing,
    fine_walks_stop_for_memory, still_counts,
};
pub use naming::{look_failed, name_copies, name_entries, name_paths, name_removals};
pub use ordering::in_asked_order;
pub use printing::{notes_text, report_with};
pub use reading::read_list;
pub use saving::{Output, save_list, save_lists};
pub use starting::{stop_of_walk, walk_roots, walk_side};
