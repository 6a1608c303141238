//! Looks at paths: the time of the last modification of each.
//!
//! [`look_at_each`] calls `stat` at each of some paths: once, also if a path is given several times. A [`Look`] is a path with
//! the answer, a [`Seen`]: a node and the time of its last modification, which may be unknown; no node; or a failed call, which
//! the files have counted.
//!
//! ```text
//! let looks = look_at_each(alloc, &mut files, paths)?;
//! for look in looks {
//!     match look.seen {
//!         Seen::At(mtime) => ...
//!         Seen::Absent => ...
//!         Seen::Failed => ...
//!     }
//! }
//! ```
//!
//! Proved, over any files: the looks are at the given paths and at no other, in path order, each path once. The files have
//! counted each look that failed, also if they do not tell their tree. If they tell it, every other look answers as the tree
//! says. With no path the files are as before, and the call takes no memory. A law: if all paths are there and no fault was
//! counted, each look found a node ([`looks_without_faults_are_told`]). The definitions are in `specs/Looks`. Only tested: the
//! crate calls `stat` once at each path, so that it counts a failure once.
#![tactic(auto)]

mod laws;
mod looking;
mod looks;

pub use laws::looks_without_faults_are_told;
pub use looking::look_at_each;
pub use looks::{Look, Seen};
