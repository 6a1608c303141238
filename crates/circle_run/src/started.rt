//! A host that was started.
ghost use Rattle.std.specs.Prelude.{◌≡◌};

use crate::backs::{Back, RanFrom, Ranks};
use crate::jobs::Job;
use post_board::Post;
use std::snapshot::Snapshot;
use std::thread::PromisedHandle;
use sum_tree::Sums;

/// A host that was started, with its ranks as they were before.
#[derive(Drop)]
pub struct Started<J: Job, S, T, P: Post<Seat = S>, Q: Sums<Seat = T>> {
    pub(crate) child: PromisedHandle<Back<J, S, T>, RanFrom<J, S, T, P, Q>>,
    pub(crate) before: Snapshot<Ranks<J, S, T>>,
    ghost same: { child.promise.0.value ≡ before.value },
}
