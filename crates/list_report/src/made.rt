//! The work of dtest.
ghost use Rattle.std.specs.Prelude.{◌≡◌, ◌≤◌, ◌∷◌};
ghost use Rattle.list_report.specs.Prelude.{[], IfOk, IfErr, CommonWithin};
ghost use Rattle.list_report.specs.Tests.{test_asked, made_root, ReportsTest, StopsTest};

use crate::laws::made_walk_is_fine;
use crate::printing::test_report;
use path_text::{OutOfMemory, Path};
use run_entries::{find, fine_finds_stop_for_memory};
use run_report::{Report, Stop};
use std::alloc::Global;
use std::sync::Wait;
use std::thread::Threads;
use test_tree::TestGround;
use tool_words::{Common, Start, Tests};

/// The task of dtest.
#[derive(Debug, Drop)]
pub struct TestTask {
    /// The settings of the walk.
    pub common: Common,
    /// The number of nodes of the tree.
    pub nodes: u64,
    /// The tests that choose entries.
    pub tests: Tests,
}

/// Finds the entries of a made-up tree, and makes the texts. `now` is in seconds since 1970.
pub fn report_of_test<T: Threads + Wait + Sync>(
    rt: &T,
    alloc: Global,
    task: TestTask,
    now: u64,
) -> Result<Report, Stop>
    requires within { CommonWithin task.common }
    requires nodes { (1 ≤ task.nodes) × (task.nodes ≤ 1000000) }
    ensures reports { IfOk result (ReportsTest (test_asked task) now) }
    ensures stops { IfErr result StopsTest }
{
    made_walk_is_fine();
    fine_finds_stop_for_memory();
    let TestTask {
        common,
        nodes,
        tests,
    } = task;
    let mut files = TestGround::make(alloc, nodes)?;
    let start = Start::Roots(made_roots(alloc)?);
    let found = find(rt, alloc, &common, start, Some(tests), now, &mut files)?;
    Ok(test_report(alloc, found, &common)?)
}

// The path that a made-up tree is walked from.
fn made_roots(alloc: Global) -> Result<Vec<Path>, OutOfMemory>
    ensures { IfOk result (λ roots. roots.items ≡ made_root ∷ []) }
{
    let Ok(root) = Path::parse(alloc, "/n0") else {
        return Err(OutOfMemory);
    };
    let mut roots = Vec::new(alloc);
    roots.push(root)?;
    Ok(roots)
}
