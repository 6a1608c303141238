//! The edge to the system: its files, its streams and its time, behind the traits of the crate `outside`.
//!
//! - [`RealGround`] has the files of the system as an [`outside::Ground`].
//! - [`RealReader`] looks at them, as an [`outside::Tree`], and lists the names of a directory.
//! - [`RealSink`] is a stream of the system, as an [`outside::Sink`].
//! - [`seconds`] is the time.
//! - [`Watched`] is a system that counts its calls for a [`Live`] line on a terminal, and writes each failure to a file.
//!
//! The crate `disk_calls` makes the calls, one path each, and has the meaning of the system's errors.
//!
//! ```text
//! let mut files = RealGround::make(rt.alloc(), rt);
//! let mut reader = files.reader(rt.alloc())?;
//! let stat = reader.stat(&path)?;                    // None if nothing is at the path
//! files.take_reader(reader);                         // adds the faults that it counted to those of the ground
//! ```
//!
//! A run with one thread, whose process names no file by a relative path, asks in less time after [`RealGround::work_alone`].
//!
//! # What is proved
//!
//! They are proved safe and within the traits that they implement. They count each error of the system, and each name that is not
//! UTF-8. No contract speaks of the contents of the disk or of a stream, so they tell no tree and no text. The crate `disk_tests` tests
//! how they use the system's answers, the live line, and the lines about failed calls.
#![tactic(auto)]

mod clocks;
mod disk;
mod grounds;
mod spans;
mod streams;
mod writers;

pub use clocks::seconds;
pub use disk::RealReader;
pub use disk_calls::{AfterLive, Call, Live, Watch, Watched};
pub use grounds::{RealGround, RealPart};
pub use spans::RealSpan;
pub use streams::RealSink;
