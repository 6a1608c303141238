//! The walk by ranks.
ghost use Rattle.std.specs.Prelude.{◌≡◌, ◌≤◌, ◌<◌, ◌-◌, ◌^◌, [], true, false, length, map, min, sum_by, None, OnOk, IfOk, IfErr, IfSome};
ghost use Rattle.std.specs.Prelude.{All, Any};
ghost use Rattle.std.specs.List.{flat_map, range_with_len, AllByRecursion};
ghost use Rattle.std.specs.List.Sorted.{IsPermutation, IsSortedByKey};
ghost use Rattle.flat_list.specs.Prelude.{path_cmp, RoseBy, max_entries};
ghost use denote.Param.Send.{IsSync};
ghost use Rattle.circle_run.specs.Left.{all_left};
ghost use Rattle.circle_run.specs.Traced.{share_in};
ghost use Rattle.tree_walk.specs.Walk.{weight_of};
ghost use Rattle.tree_walk.specs.Roots.{Apart};
ghost use Rattle.tree_walk.specs.Answered.{IsAnswered};
ghost use Rattle.tree_walk.specs.Held.{Holds, entries_of};
ghost use Rattle.tree_walk.specs.Traced.{IsTracedWalk, WasWalked, IsProgressTo};
ghost use Rattle.tree_walk.specs.Found.{IsFound, IfTooMany};
ghost use Rattle.tree_walk.specs.Cut.{IsCutFound, IsTooMany, IfCut, found_in};

use crate::errors::WalkError;
use crate::jobs::WalkJob;
use crate::reports::{Cut, WalkReport, Walked};
use circle_run::{Options, begin};
use flat_list::FlatList;
use outside::{Ground, Listing};
use path_text::{OutOfMemory, Path};
use std::alloc::Global;
use std::sync::Wait;
use std::thread;
use std::thread::Threads;

/// The most entries that a list may have.
pub const MAX_ENTRIES: usize = 4_194_304;

/// Walks the trees at the starts, of which none is equal to or under another. The walk gives all readers back, but after
/// `OutOfMemory` it may have dropped some. Each entry has its mark by an answer that a reader gave, and each fine link has the
/// text that was read.
pub fn walk<W: Threads + Wait + Sync, G: Ground>(
    rt: &W,
    alloc: Global,
    ground: &mut G,
    starts: Vec<Path>,
    options: &Options,
) -> Result<WalkReport, WalkError>
where
    G::Reader: Send,
    requires ranks { (1 ≤ options.now.ranks) × (options.now.ranks ≤ 64) }
    requires hosts { (1 ≤ options.now.hosts) × (options.now.hosts ≤ 64) }
    requires trace { options.now.trace ≡ true → (options.now.hosts ≡ 1) × (options.now.stop_after ≡ None) }
    requires width { (2 ≤ options.now.width) × (options.now.width ≤ 64) }
    requires apart { Apart starts.items }
    ensures found { IfOk result (λ report. report.walked ≡ Walked.Whole
        → IsFound (G.tree ground.old) starts.items (G.count ground.old) (G.count ground.new) report.list) }
    ensures answered { IfOk result (λ report. All (IsAnswered G.Reader.gives) (found_in report.walked report.list)) }
    ensures few { IfOk result (λ report. length (found_in report.walked report.list) ≤ max_entries) }
    ensures too_many { IfErr result (λ e. IfTooMany e
        (IsTooMany options.now.stop_after (G.tree ground.old) starts.items (G.count ground.old) (G.count ground.new))) }
    ensures whole { IfOk result (λ report. options.now.stop_after ≡ None → report.walked ≡ Walked.Whole) }

    // A cut has the entries that are done and the strings that are left, by rank, and a string is left. Then some rank
    // handled as many as the stop says, and with a stop none handles more.
    ensures cut { IfOk result (λ report. IfCut report.walked
        (λ cut. IsCutFound (G.tree ground.old) starts.items (G.count ground.old) (G.count ground.new) cut.done (all_left cut.left.items))) }
    ensures empty { IfOk result (λ report. IfCut report.walked (λ cut. report.list ≡ [])) }
    ensures lists { IfOk result (λ report. IfCut report.walked (λ cut. length cut.left.items ≡ options.now.ranks)) }
    ensures some_left { IfOk result (λ report. IfCut report.walked (λ cut. 0 < length (all_left cut.left.items))) }
    ensures reached { IfOk result (λ report. IfCut report.walked (λ cut. IfSome options.now.stop_after (λ k. Any (λ s. s.handled ≡ k) report.shares.items))) }
    ensures bound { IfOk result (λ report. IfSome options.now.stop_after (λ k. All (λ s. s.handled ≤ k) report.shares.items)) }

    // The shares: the ranks handled as many paths as entries were found, and all gave as many as all took. Counts stop at
    // their greatest.
    ensures shares { IfOk result (λ report. sum_by (λ s. s.handled) report.shares.items ≡ length (found_in report.walked report.list)) }
    ensures by_rank { IfOk result (λ report. length report.shares.items ≡ options.now.ranks) }
    ensures moved { IfOk result (λ report. min (sum_by (λ s. s.given) report.shares.items) (2 ^ 128 - 1)
        ≡ min (sum_by (λ s. s.taken) report.shares.items) (2 ^ 128 - 1)) }

    // On one host and without a stop the ranks made some whole run that gives the list. The shares are its counts, and with a
    // trace the events are its own. If the files tell their tree, a trace is a run of the recursive walk.
    ensures ran { IfOk result (λ report. options.now.hosts ≡ 1 → options.now.stop_after ≡ None
        → WasWalked (G.tree ground.old) options.now starts.items report.list report.shares.items report.events.items) }
    ensures traced { IfOk result (λ report. options.now.trace ≡ true
        → IfSome (G.tree ground.old) (λ files. IsTracedWalk files options.now starts.items report.list report.events.items)) }
    ensures counts { IfOk result (λ report. options.now.trace ≡ true
        → report.shares.items ≡ map (share_in report.events.items) (range_with_len 0 options.now.ranks)) }
    ensures untraced { IfOk result (λ report. options.now.trace ≡ false → report.events.items ≡ []) }

    ensures progress { IfOk result (λ report. IsProgressTo (length (found_in report.walked report.list)) options.now.ranks report.sums.items) }
    ensures same { G.tree ground.new ≡ G.tree ground.old }
    ensures area { G.area ground.new ≡ G.area ground.old }
    ensures count { RoseBy 0 (G.count ground.old) (G.count ground.new) }
{
    // The number of a stop has 64 bits.
    let _most = options.stop_after.unwrap_or(u64::MAX);
    let jobs = made(alloc, ground, options.ranks)?;
    let finished = begin(rt, alloc, options, starts, jobs)?;
    let mut names = Vec::new(alloc);
    let logs = opened(alloc, ground, finished.jobs, &mut names)?;
    let found = listed(rt, alloc, logs, names, options.hosts)?;
    if found.len() > MAX_ENTRIES {
        return Err(WalkError::TooMany(found.len() as u64));
    }
    let (list, walked) = split(alloc, found, finished.left);
    Ok(WalkReport {
        list,
        walked,
        shares: finished.shares,
        events: finished.events,
        sums: finished.sums,
    })
}

// The found entries are the list of a whole walk or, if any string is left, the done entries of a cut.
fn split(alloc: Global, found: FlatList, left: Vec<Vec<Path>>) -> (FlatList, Walked)
    ensures found { found_in result.1 result.0 ≡ found }
    ensures whole { result.1 ≡ Walked.Whole → all_left left.items ≡ [] }
    ensures ends { all_left left.items ≡ [] → result.1 ≡ Walked.Whole }
    ensures cut { IfCut result.1 (λ cut. cut.left ≡ left × (0 < length (all_left left.items))) }
    ensures empty { IfCut result.1 (λ cut. result.0 ≡ []) }
{
    if is_nothing(&left) {
        return (found, Walked::Whole);
    }
    let cut = Cut { done: found, left };
    (FlatList::make(alloc), Walked::Cut(cut))
}

// Whether no rank has any string left.
fn is_nothing(left: &[Vec<Path>]) -> bool
    ensures yes { result ≡ true → all_left left.now ≡ [] }
    ensures no { result ≡ false → 0 < length (all_left left.now) }
{
    left.iter().all(|paths| paths.is_empty())
}

// A job for each rank, each with a reader of its own.
fn made<G: Ground>(
    alloc: Global,
    ground: &mut G,
    ranks: u32,
) -> Result<Vec<WalkJob<G::Reader>>, OutOfMemory>
    ensures number { IfOk result (λ jobs. length jobs.items ≡ ranks) }
    ensures unused { IfOk result (λ jobs. AllByRecursion (λ job. job.1 ≡ []) jobs.items) }
    ensures told { IfOk result (λ jobs. AllByRecursion (λ job. G.Reader.tree job.0 ≡ G.tree ground.old) jobs.items) }
    ensures same { G.tree ground.new ≡ G.tree ground.old }
    ensures area { G.area ground.new ≡ G.area ground.old }
    ensures count { G.count ground.new ≡ G.count ground.old }
{
    let mut jobs = Vec::new(alloc);
    for _ in 0..ranks {
        let reader = ground.reader(alloc)?;
        jobs.push(WalkJob::make(alloc, reader))?;
    }
    Ok(jobs)
}

// The list of all logs. The names that the jobs kept are dropped before or, if there are several hosts, meanwhile.
fn listed<W: Threads + Sync>(
    rt: &W,
    alloc: Global,
    logs: Vec<FlatList>,
    names: Vec<Vec<Listing>>,
    hosts: u32,
) -> Result<FlatList, OutOfMemory>
    requires { 1 ≤ hosts }
    ensures all { IfOk result (λ list. IsPermutation (flat_map (λ log. log) logs.items) list) }
    ensures sorted { IfOk result (λ list. IsSortedByKey (λ e. e.path) path_cmp list) }
{
    if hosts == 1 {
        drop(names);
        return FlatList::from_logs(rt, alloc, logs, 1);
    }
    let sort = move || -> Result<FlatList, OutOfMemory>
        requires { IsSync W.row × (1 ≤ hosts) }
        ensures all { IfOk result (λ list. IsPermutation (flat_map (λ log. log) logs.items) list) }
        ensures sorted { IfOk result (λ list. IsSortedByKey (λ e. e.path) path_cmp list) }
    { FlatList::from_logs(rt, alloc, logs, hosts) };
    let (_, list) = thread::join(rt, move || drop(names), sort);
    list
}

// The entries of each job and the names that it kept. The readers go back to the files.
fn opened<G: Ground>(
    alloc: Global,
    ground: &mut G,
    jobs: Vec<WalkJob<G::Reader>>,
    names: &mut Vec<Vec<Listing>>,
) -> Result<Vec<FlatList>, OutOfMemory>
    ensures logs { IfOk result (λ logs. flat_map (λ log. log) logs.items ≡ entries_of (flat_map (λ job. job.1) jobs.items)) }
    ensures holds { OnOk result (AllByRecursion (λ job. Holds (G.Reader.tree job.0) (G.Reader.count job.0) job.1) jobs.items) }
    ensures answered { IfOk result (λ logs. AllByRecursion (IsAnswered G.Reader.gives) (flat_map (λ log. log) logs.items)) }
    ensures counted { OnOk result (RoseBy (sum_by weight_of (entries_of (flat_map (λ job. job.1) jobs.items))) (G.count ground.old) (G.count ground.new)) }
    ensures same { G.tree ground.new ≡ G.tree ground.old }
    ensures area { G.area ground.new ≡ G.area ground.old }
    ensures count { RoseBy 0 (G.count ground.old) (G.count ground.new) }
{
    // The count of faults is a number of 64 bits, and adding to it keeps it so.
    let _faults = ground.faults();
    let mut logs = Vec::new(alloc);
    for job in jobs {
        let (reader, entries, kept) = job.open();
        ground.take_reader(reader);
        logs.push(entries)?;
        names.push(kept)?;
    }
    Ok(logs)
}
