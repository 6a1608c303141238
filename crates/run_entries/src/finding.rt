//! The entries that a run finds.
ghost use Rattle.std.specs.Prelude.{◌≡◌};
ghost use Rattle.run_entries.specs.Prelude.{All, IfOk, IfErr, Some, None, true, IsStrictlySortedBy, option_map, path_cmp, RoseBy, is_shaped, paths};
ghost use Rattle.run_entries.specs.Prelude.{CommonWithin, side_of, start_in, choice_in};
ghost use Rattle.run_entries.specs.Entries.{Finds};
ghost use Rattle.run_entries.specs.Stopping.{StopsFinding};

use crate::accounts::Entries;
use crate::choosing::choose;
use crate::findings::Findings;
use crate::naming::failures;
use crate::starting::list_from;
use outside::Ground;
use path_looks::look_at_each;
use run_report::Stop;
use std::alloc::Global;
use std::sync::Wait;
use std::thread::Threads;
use tool_words::{Common, Start, Tests};

/// Lists the start and everything below it, or reads the list, and chooses entries by the tests, or all.
pub fn find<T: Threads + Wait + Sync, G: Ground<Reader: Send>>(
    rt: &T,
    alloc: Global,
    common: &Common,
    start: Start,
    choice: Option<Tests>,
    now: u64,
    files: &mut G,
) -> Result<Findings, Stop>
    requires within { CommonWithin common.now }
    ensures finds { IfOk result (λ found. Finds common.now (start_in start) (option_map choice_in choice) now
        (side_of G.Plot files.old) (side_of G.Plot files.new) found.chosen found.notes.items found.account) }
    ensures ascend { IfOk result (λ found. IsStrictlySortedBy path_cmp (paths found.chosen)) }
    ensures shaped { IfOk result (λ found. All (λ e. is_shaped e ≡ true) found.chosen) }
    ensures stopped { IfErr result (StopsFinding (start_in start) (option_map choice_in choice) (side_of G.Plot files.old) (side_of G.Plot files.new)) }
    ensures same { G.tree files.new ≡ G.tree files.old }
    ensures area { G.area files.new ≡ G.area files.old }
    ensures count { RoseBy 0 (G.count files.old) (G.count files.new) }
{
    match choice {
        Some(tests) => find_chosen(rt, alloc, common, start, tests, now, files),
        None => find_all(rt, alloc, common, start, now, files),
    }
}

// All that is listed.
fn find_all<T: Threads + Wait + Sync, G: Ground<Reader: Send>>(
    rt: &T,
    alloc: Global,
    common: &Common,
    start: Start,
    now: u64,
    files: &mut G,
) -> Result<Findings, Stop>
    requires within { CommonWithin common.now }
    ensures finds { IfOk result (λ found. Finds common.now (start_in start) None now
        (side_of G.Plot files.old) (side_of G.Plot files.new) found.chosen found.notes.items found.account) }
    ensures ascend { IfOk result (λ found. IsStrictlySortedBy path_cmp (paths found.chosen)) }
    ensures shaped { IfOk result (λ found. All (λ e. is_shaped e ≡ true) found.chosen) }
    ensures stopped { IfErr result (StopsFinding (start_in start) None (side_of G.Plot files.old) (side_of G.Plot files.new)) }
    ensures same { G.tree files.new ≡ G.tree files.old }
    ensures area { G.area files.new ≡ G.area files.old }
    ensures count { RoseBy 0 (G.count files.old) (G.count files.new) }
{
    // The count of faults is a number of 64 bits.
    let _faults = files.faults();
    let Entries { list, account } = list_from(rt, alloc, common, start, files)?;
    Ok(Findings::of_all(alloc, list, account)?)
}

// The entries that pass the tests. The call looks at the paths of `--newer` first.
fn find_chosen<T: Threads + Wait + Sync, G: Ground<Reader: Send>>(
    rt: &T,
    alloc: Global,
    common: &Common,
    start: Start,
    choice: Tests,
    now: u64,
    files: &mut G,
) -> Result<Findings, Stop>
    requires within { CommonWithin common.now }
    ensures finds { IfOk result (λ found. Finds common.now (start_in start) (Some (choice_in choice)) now
        (side_of G.Plot files.old) (side_of G.Plot files.new) found.chosen found.notes.items found.account) }
    ensures ascend { IfOk result (λ found. IsStrictlySortedBy path_cmp (paths found.chosen)) }
    ensures shaped { IfOk result (λ found. All (λ e. is_shaped e ≡ true) found.chosen) }
    ensures stopped { IfErr result (StopsFinding (start_in start) (Some (choice_in choice)) (side_of G.Plot files.old) (side_of G.Plot files.new)) }
    ensures same { G.tree files.new ≡ G.tree files.old }
    ensures area { G.area files.new ≡ G.area files.old }
    ensures count { RoseBy 0 (G.count files.old) (G.count files.new) }
{
    let Tests { tests, newer } = choice;
    let looks = look_at_each(alloc, files, newer)?;
    let Entries { list, account } = list_from(rt, alloc, common, start, files)?;
    let notes = failures(alloc, &looks, &list)?;
    let chosen = choose(list, tests, &looks, now)?;
    let summary = chosen.summary();
    Ok(Findings {
        chosen,
        summary,
        notes,
        account,
    })
}
