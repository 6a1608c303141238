//! The choice of entries to remove.
ghost use Rattle.std.specs.Prelude.{◌≡◌};
ghost use Rattle.remove_report.specs.Prelude.{All, IfOk, IfErr, IfSome, Some, RoseBy, CommonWithin, side_of, roots, choice_in, Lower, Finds, StopsFinding};
ghost use Rattle.remove_report.specs.PrivateActs.{CanBeRemoved};

use outside::Ground;
use path_text::Path;
use run_entries::{Findings, find};
use run_report::Stop;
use std::alloc::Global;
use std::sync::Wait;
use std::thread::Threads;
use tool_words::{Common, Start, Tests};
use tree_walk::entries_are_told;

/// Walks trees below `/`, and chooses entries by the tests: entries that can be removed.
pub(crate) fn find_lower<T: Threads + Wait + Sync, G: Ground<Reader: Send>>(
    rt: &T,
    alloc: Global,
    common: &Common,
    paths: Vec<Path>,
    tests: Tests,
    now: u64,
    files: &mut G,
) -> Result<Findings, Stop>
    requires within { CommonWithin common.now }
    requires lower { All Lower paths.items }
    ensures finds { IfOk result (λ found. Finds common.now (roots paths.items) (Some (choice_in tests)) now
        (side_of G.Plot files.old) (side_of G.Plot files.new) found.chosen found.notes.items found.account) }
    ensures can { IfOk result (λ found. CanBeRemoved found.chosen (G.tree files.old)) }
    ensures stopped { IfErr result (StopsFinding (roots paths.items) (Some (choice_in tests)) (side_of G.Plot files.old)
        (side_of G.Plot files.new)) }
    ensures same { G.tree files.new ≡ G.tree files.old }
    ensures area { G.area files.new ≡ G.area files.old }
    ensures count { RoseBy 0 (G.count files.old) (G.count files.new) }
{
    entries_are_told();
    let start = Start::Roots(paths);
    let found = find(rt, alloc, common, start, Some(tests), now, files)?;
    Ok(found)
}
