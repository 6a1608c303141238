//! The room of a dwalk in stages: a walk that may stop and leave a checkpoint, or that continues from one.
//!
//! [`report_of_stage`] does a [`StageTask`]. A stage begins at roots, or at the done entries and left paths of a checkpoint in
//! a directory. It walks. If some rank has handled as many paths as it may, and paths are left, it writes a checkpoint and
//! stops. Otherwise the list is whole: the entries of earlier stages and of this one together. It makes the texts of dwalk
//! from this list.
//!
//! - `stages` has the call, `beginning` the beginning of a stage, and `walking` its walk.
//! - `joining` has the list of two stages together, and `keeping` the checkpoint that a stage leaves.
//! - `task` has the task that the call is given.
//! - `laws` has the laws of several stages, and says when a stage succeeds.
//!
//! Proved: a stage answers as its four definitions in `specs/Stages` say. They are its report, the reasons to stop, the paths
//! that it may have changed, and the case in which nothing is in its way. The laws are in `specs/Laws`:
//!
//! - A checkpoint is a cut of the recursive walk ([`checkpoints_are_cuts`]).
//! - A stage that continues from a cut and ends prints the text of one walk without a stop ([`stages_print_the_walk`]).
//! - A stage that reports a stop wrote its checkpoint, and left every other path as before ([`stopped_stages_are_kept`]).
//! - If nothing is in the way of a stage, it has no notes. It stops only if it is out of memory, or because it was asked to
//!   ([`fine_stages_succeed`]).
#![tactic(auto)]

mod beginning;
mod joining;
mod keeping;
mod laws;
mod stages;
mod task;
mod walking;

pub use laws::{
    checkpoints_are_cuts, fine_stages_succeed, stages_print_the_walk, stopped_stages_are_kept,
};
pub use stages::report_of_stage;
pub use task::StageTask;
