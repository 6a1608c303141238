//! The calls to the files of the system, on one path each, below the traits of the crate `outside`.
//!
//! - [`Disk`] makes each call in the directory above its path: `parents` has the rules about directories that were looked at, over `dirs`
//!   and `known`, and `working` those about the working directory. Its answers are those of the system.
//! - `answers` has the meaning of the system's errors, as [`made`], [`changed`] and others. A failure is reported to the [`Watch`].
//! - [`FoundNames`] are the names of a directory, as the system gives them, and their listing.
//! - [`Handle`] is an open file with its path.
//! - [`Watched`] is a system that counts its calls for a [`Live`] line on a terminal, and writes each failure to a file.
//!
//! The crate `real_disk` has readers and writers over these, as the traits want them, and counts the faults.
//!
//! # What is proved
//!
//! The calls are proved safe. The answers are those that the traits allow. The names of a listing are valid, short enough and in
//! ascending order, whatever the system wrote. The crate `disk_tests` tests the rest.
#![tactic(auto)]

mod above;
mod answers;
mod causes;
mod dirs;
mod disks;
mod handles;
mod here;
mod known;
mod live;
mod names;
mod parents;
mod stats;
mod watch;
mod watched;
mod ways;
mod working;

pub use answers::{changed, emptied, is_absent, made, opened, text_of, was_read, wrote};
pub use disks::Disk;
pub use handles::Handle;
pub use live::{AfterLive, Live};
pub use names::FoundNames;
pub use watch::{Call, Watch};
pub use watched::Watched;
