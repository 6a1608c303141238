//! The entries of a run, before the choice.
ghost use Rattle.std.specs.Prelude.{◌≡◌, ◌<◌, ◌≤◌};
ghost use Rattle.run_entries.specs.Prelude.{List, All, length, IfOk, IfErr, true, IsStrictlySortedBy, path_cmp, RoseBy, is_shaped, paths, max_entries};
ghost use Rattle.run_entries.specs.Prelude.{CommonWithin, side_of, roots, start_in, IsFound, IfTooMany, FoundTooMany, Apart};
ghost use Rattle.run_entries.specs.Entries.{Walked, Listed, Tells};
ghost use Rattle.run_entries.specs.Stopping.{IsTooLongWalk, StopsListing, stop_of_walk};
ghost use Rattle.run_entries.specs.Tells.{keeps_events, IsAccount};

use crate::accounts::{Account, Entries};
use crate::reading::read_list;
use circle_run::Options;
use outside::Ground;
use path_text::Path;
use run_report::Stop;
use std::alloc::Global;
use std::sync::Wait;
use std::thread::Threads;
use tool_words::{Common, Start};
use tree_walk::{WalkError, roots_of, walk};

/// The entries of a walk of the roots, or of the list file, and the reports on the walk.
pub(crate) fn list_from<T: Threads + Wait + Sync, G: Ground<Reader: Send>>(
    rt: &T,
    alloc: Global,
    common: &Common,
    start: Start,
    files: &mut G,
) -> Result<Entries, Stop>
    requires within { CommonWithin common.now }
    ensures listed { IfOk result (λ entries. Listed (start_in start) entries.list (side_of G.Plot files.old) (side_of G.Plot files.new)) }
    ensures told { IfOk result (λ entries. (listed : Listed (start_in start) entries.list (side_of G.Plot files.old) (side_of G.Plot files.new))
        × Tells common.now (start_in start) entries.list (side_of G.Plot files.old) (side_of G.Plot files.new) listed entries.account) }
    ensures few { IfOk result (λ entries. length entries.list ≤ max_entries) }
    ensures ascend { IfOk result (λ entries. IsStrictlySortedBy path_cmp (paths entries.list)) }
    ensures shaped { IfOk result (λ entries. All (λ e. is_shaped e ≡ true) entries.list) }
    ensures stopped { IfErr result (StopsListing (start_in start) (side_of G.Plot files.old) (side_of G.Plot files.new)) }
    ensures same { G.tree files.new ≡ G.tree files.old }
    ensures area { G.area files.new ≡ G.area files.old }
    ensures count { RoseBy 0 (G.count files.old) (G.count files.new) }
{
    match start {
        Start::Roots(paths) => walk_side(rt, alloc, common, paths, files),
        Start::Restart => walk_side(rt, alloc, common, Vec::new(alloc), files),
        Start::Input(path) => Ok(Entries {
            list: read_list(alloc, files, path)?,
            account: Account::of_nothing(alloc),
        }),
    }
}

/// Walks the given paths by themselves: nothing is looked at before, and all entries are listed.
pub fn walk_side<T: Threads + Wait + Sync, G: Ground<Reader: Send>>(
    rt: &T,
    alloc: Global,
    common: &Common,
    given: Vec<Path>,
    files: &mut G,
) -> Result<Entries, Stop>
    requires within { CommonWithin common.now }
    ensures walked { IfOk result (λ entries. Walked given.items entries.list (side_of G.Plot files.old) (side_of G.Plot files.new)) }
    ensures told { IfOk result (λ entries. (walked : Walked given.items entries.list (side_of G.Plot files.old) (side_of G.Plot files.new))
        × IsAccount common.now (G.tree files.old) walked.roots entries.list entries.account) }
    ensures few { IfOk result (λ entries. length entries.list ≤ max_entries) }
    ensures ascend { IfOk result (λ entries. IsStrictlySortedBy path_cmp (paths entries.list)) }
    ensures shaped { IfOk result (λ entries. All (λ e. is_shaped e ≡ true) entries.list) }
    ensures stopped { IfErr result (StopsListing (roots given.items) (side_of G.Plot files.old) (side_of G.Plot files.new)) }
    ensures same { G.tree files.new ≡ G.tree files.old }
    ensures area { G.area files.new ≡ G.area files.old }
    ensures count { RoseBy 0 (G.count files.old) (G.count files.new) }
{
    let roots = roots_of(given)?;
    match walk_roots(rt, alloc, common, roots, files) {
        Ok(entries) => Ok(entries),
        Err(why) => Err(stop_of_walk(why)),
    }
}

/// Why a walk gave no list.
pub fn stop_of_walk(why: WalkError) -> Stop
    ensures { result ≡ stop_of_walk why }
{
    match why {
        WalkError::OutOfMemory => Stop::OutOfMemory,
        WalkError::TooMany(_) => Stop::TooMany,
    }
}

// Whether the events of a walk are kept: for `--trace`, and on one host for `--shares` too. The shares are then the counts of
// the events.
fn keeps_events(common: &Common) -> bool
    ensures { result ≡ keeps_events common.now }
{
    common.trace || (common.shares && common.hosts == 1)
}

/// Walks these roots, with as many ranks as asked.
#[tactic(auto, using(crate::proofs::Told::kept_on_one_host))]
pub fn walk_roots<T: Threads + Wait + Sync, G: Ground<Reader: Send>>(
    rt: &T,
    alloc: Global,
    common: &Common,
    roots: Vec<Path>,
    files: &mut G,
) -> Result<Entries, WalkError>
    requires within { CommonWithin common.now }
    requires apart { Apart roots.items }
    ensures found { IfOk result (λ entries. IsFound (G.tree files.old) roots.items (G.count files.old) (G.count files.new) entries.list) }
    ensures account { IfOk result (λ entries. IsAccount common.now (G.tree files.old) roots.items entries.list entries.account) }
    ensures few { IfOk result (λ entries. length entries.list ≤ max_entries) }
    ensures too_many { IfErr result (λ e. IfTooMany e (FoundTooMany (G.tree files.old) roots.items (G.count files.old) (G.count files.new))) }
    ensures same { G.tree files.new ≡ G.tree files.old }
    ensures area { G.area files.new ≡ G.area files.old }
    ensures count { RoseBy 0 (G.count files.old) (G.count files.new) }
{
    // The count of faults is a number of 64 bits.
    let _faults = files.faults();
    let options = Options {
        ranks: common.ranks,
        hosts: common.hosts,
        split: common.split,
        seed: common.seed,
        width: common.width,
        trace: keeps_events(common),
        stop_after: None,
    };
    let report = walk(rt, alloc, files, roots, &options)?;
    Ok(Entries {
        list: report.list,
        account: Account {
            events: report.events,
            shares: report.shares,
            sums: report.sums,
        },
    })
}
