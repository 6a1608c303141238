//! The fates of all items.
ghost use Rattle.std.specs.Prelude.{◌≡◌, ◌<◌, length, Some, slice_get};

use crate::items::Fate;
use std::marker::Model;

/// The fates of the items of a call, seen as their list: one for each item, in the order of the items.
#[derive(Debug, Drop)]
pub struct Outcome {
    pub(crate) fates: Vec<Fate>,
}

impl Model for Outcome {
    ghost use Rattle.std.specs.Prelude.{List};
    ghost use Rattle.level_work.specs.declared.items.Fate.{Fate};

    ghost Value = { List Fate };

    ghost view = { λ o. o.fates.items };
}

impl Outcome {
    /// The fate of the item at a place.
    pub fn fate(&self, k: usize) -> Fate
        requires { k < length self.now }
        ensures { slice_get self.now k ≡ Some result }
    {
        self.fates[k]
    }
}
