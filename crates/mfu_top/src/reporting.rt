//! The work of each tool, up to the texts, a line a tool.
ghost use Rattle.std.specs.Prelude.{◌≡◌};
ghost use Rattle.mfu_top.specs.Prelude.{[], IfOk, IfErr, true, RoseBy, nothing_lent, side_of, asked_by, Within};
ghost use Rattle.mfu_top.specs.Run.{Reports, Stops, Leaves, is_apart};

use crate::walks::{report_of_walk, walk_task};
use compare_report::{CompareTask, report_of_compare};
use copy_report::{CopyTask, report_of_copy};
use dup_report::{DupTask, report_of_dup};
use list_report::{ListTask, TestTask, report_of_list, report_of_test};
use outside::Wide;
use remove_report::{RemoveTask, report_of_remove};
use run_report::{Report, Stop};
use std::alloc::Global;
use std::sync::Wait;
use std::thread::Threads;
use sync_report::{SyncTask, report_of_sync};
use tool_words::Command;

/// Does the command, and makes the texts.
pub(crate) fn report_of<T: Threads + Wait + Sync, G: Wide>(
    rt: &T,
    alloc: Global,
    command: Command,
    files: &mut G,
    now: u64,
) -> Result<Report, Stop>
where
    G::Reader: Send,
    G::Part: Send,
    G::Span: Send,
    requires lent { G.area files.old ≡ nothing_lent }
    requires within { Within (asked_by command) }
    ensures reports { IfOk result (Reports (asked_by command) now (side_of G.Plot files.old)
        (side_of G.Plot files.new)) }
    ensures stops { IfErr result (Stops (asked_by command) (side_of G.Plot files.old) (side_of G.Plot files.new)) }
    ensures leaves { Leaves (asked_by command) now (side_of G.Plot files.old) (side_of G.Plot files.new) }
    ensures apart { is_apart (asked_by command) ≡ true → files.new ≡ files.old }
    ensures lent { G.area files.new ≡ nothing_lent }
    ensures count { RoseBy 0 (G.count files.old) (G.count files.new) }
{
    // The count of faults is a number of 64 bits.
    let _faults = files.faults();
    match command {
        Command::Walk {
            common,
            start,
            sort,
            output,
            stop_after,
            lists,
        } => {
            let task = walk_task(common, start, sort, output, stop_after, lists);
            report_of_walk(rt, alloc, task, files, now)
        }
        Command::Find {
            common,
            start,
            tests,
            sort,
            output,
        } => {
            let task = ListTask {
                common,
                start,
                tests: Some(tests),
                sort,
                output,
            };
            report_of_list(rt, alloc, task, files, now)
        }
        Command::Cmp {
            common,
            left,
            right,
            wants,
        } => {
            let task = CompareTask {
                common,
                left,
                right,
                wants,
            };
            report_of_compare(rt, alloc, task, files)
        }
        Command::Copy {
            common,
            sources,
            dest,
            range,
        } => {
            let task = CopyTask {
                common,
                sources,
                dest,
                range,
            };
            report_of_copy(rt, alloc, task, files)
        }
        Command::Sync {
            common,
            source,
            dest,
            delete,
        } => {
            let task = SyncTask {
                common,
                source,
                dest,
                delete,
            };
            report_of_sync(rt, alloc, task, files)
        }
        Command::Dup { common, roots } => {
            report_of_dup(rt, alloc, DupTask { common, roots }, files)
        }
        Command::Remove {
            common,
            roots,
            tests,
            dryrun,
        } => {
            let task = RemoveTask {
                common,
                roots,
                tests,
                dryrun,
            };
            report_of_remove(rt, alloc, task, files, now)
        }
        Command::Test {
            common,
            nodes,
            tests,
        } => {
            let task = TestTask {
                common,
                nodes,
                tests,
            };
            report_of_test(rt, alloc, task, now)
        }
    }
}
