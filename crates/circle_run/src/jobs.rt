//! The job of a rank.
ghost use Rattle.std.specs.Prelude.{◌≡◌, ◌++◌, ◌∷◌, ℕ, List, Option, [], OnOk, OnErr};
ghost use Rattle.std.specs.Option.{option_map};

use path_text::{OutOfMemory, Path};
use rank_queue::Batch;

/// Handles the strings of a rank.
pub trait Job {
    ghost use Rattle.circle_run.specs.Balance.{Log};

    // The strings that it handled, in order, each with the strings pushed for it.
    ghost log: { Self → Log };

    // How many others waited at each string that it handled, in order, if the job keeps these numbers.
    ghost heard: { Self → Option (List ℕ) };

    // The data that no handling changes, even if it runs out of memory.
    ghost Plain: { Type 0 };

    ghost plain: { Self → Plain };

    /// Handles a string while `waiting` others wait at the rank, and pushes the strings that follow from it to `fresh`. If it runs
    /// out of memory, its log does not have the string.
    fn handle(&mut self, item: &Path, waiting: u64, fresh: &mut Batch) -> Result<(), OutOfMemory>
        requires { fresh.old ≡ [] }
        ensures handled { OnOk result (log self.new ≡ log self.old ++ (item.now, fresh.new) ∷ []) }
        ensures heard { OnOk result (heard self.new ≡ option_map (λ numbers. numbers ++ waiting ∷ []) (heard self.old)) }
        ensures refused { OnErr result (log self.new ≡ log self.old) }
        ensures unheard { OnErr result (heard self.new ≡ heard self.old) }
        ensures emptied { OnErr result (fresh.new ≡ []) }
        ensures plain { plain self.new ≡ plain self.old };
}
