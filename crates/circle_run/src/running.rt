//! A run from its starts to its end.
ghost use Rattle.std.specs.Prelude.{◌≡◌, ℕ, ◌-◌, ◌^◌, ◌<◌, ◌≤◌, ◌⊎◌, [], map, min, length, sum_by, All, Any, OnOk, IfOk, IfSome, Some, None, true};
ghost use Rattle.std.specs.Prelude.{false, slice_index_or};
ghost use Rattle.std.specs.List.{flat_map, range_with_len};
ghost use Rattle.post_board.specs.Fresh.{fresh_told, AllFresh};
ghost use Rattle.sum_tree.specs.Plain.{fresh};
ghost use Rattle.circle_run.specs.Balance.{Balanced};
ghost use Rattle.circle_run.specs.Left.{all_left};
ghost use Rattle.circle_run.specs.Traced.{IsTraced, WasRun, share_in, IsProgress};
ghost use Rattle.circle_run.specs.ByRank.{Played, PlayedApart};
ghost use Rattle.circle_run.specs.Private.Outcomes.{IsOutcome, IsRun};

use crate::errors::CircleError;
use crate::hosts::Host;
use crate::jobs::Job;
use crate::laws::{nothing_waits_at_end, rounds_are_fair};
use crate::many_hosts::run_spread;
use crate::outcomes::Finished;
use crate::parts::{Parts, deal, new_ranks};
use crate::settings::Options;
use path_text::{OutOfMemory, Path};
use post_board::{PlainBoard, Post, deeds_keep_sound, late_keeps_sound};
use std::alloc::Global;
use std::sync::Wait;
use std::thread::Threads;
use sum_tree::{PlainSums, Sums};

/// Deals the starts to the ranks, whose jobs handle them and all strings that are pushed, and gives the jobs back.
pub fn begin<R: Threads + Wait + Sync, J: Job + Send + Drop>(
    rt: &R,
    alloc: Global,
    options: &Options,
    starts: Vec<Path>,
    jobs: Vec<J>,
) -> Result<Finished<J>, CircleError>
    requires ranks { (1 ≤ options.now.ranks) × (options.now.ranks ≤ 64) }
    requires hosts { (1 ≤ options.now.hosts) × (options.now.hosts ≤ 64) }
    requires trace { options.now.trace ≡ true → (options.now.hosts ≡ 1) × (options.now.stop_after ≡ None) }
    requires width { (2 ≤ options.now.width) × (options.now.width ≤ 64) }
    requires jobs { length jobs.items ≡ options.now.ranks }
    requires unused { All (λ job. J.log job ≡ []) jobs.items }

    // All jobs together: each string was handled or is left as often as it was a start or was pushed.
    ensures balance { IfOk result (λ f. Balanced (flat_map J.log f.jobs.items) (all_left f.left.items) starts.items) }
    ensures whole { IfOk result (λ f. options.now.stop_after ≡ None → all_left f.left.items ≡ []) }

    // With a stop no rank handles more, and only a rank that handles as many leaves strings.
    ensures stop { IfOk result (λ f. IfSome options.now.stop_after (λ k. All (λ job. length (J.log job) ≤ k) f.jobs.items)) }
    ensures left { IfOk result (λ f. IfSome options.now.stop_after (λ k. (all_left f.left.items ≡ []) ⊎ Any (λ job. length (J.log job) ≡ k) f.jobs.items)) }

    // By rank: the jobs in their order, the strings left and the counts. All took as many as all gave; counts stop at their greatest.
    ensures jobs { IfOk result (λ f. length f.jobs.items ≡ length jobs.items) }
    ensures plain { IfOk result (λ f. map J.plain f.jobs.items ≡ map J.plain jobs.items) }
    ensures lists { IfOk result (λ f. length f.left.items ≡ length jobs.items) }
    ensures shares { IfOk result (λ f. map (λ s. s.handled) f.shares.items ≡ map (λ job. min (length (J.log job)) (2 ^ 64 - 1)) f.jobs.items) }
    ensures moved { IfOk result (λ f. min (sum_by (λ s. s.given) f.shares.items) (2 ^ 128 - 1) ≡ min (sum_by (λ s. s.taken) f.shares.items) (2 ^ 128 - 1)) }

    // On one host moves of all were played, on several each rank made moves of its own. They leave these logs and strings, and the
    // shares count them.
    ensures played { IfOk result (λ f. options.now.hosts ≡ 1
        → Played options.now starts.items (map J.log f.jobs.items) (map (λ l. l.items) f.left.items) f.shares.items) }
    ensures apart { IfOk result (λ f. 1 < options.now.hosts
        → PlayedApart options.now starts.items (map J.log f.jobs.items) (map (λ l. l.items) f.left.items) f.shares.items) }

    // With a trace: the events are those of a whole run, and the shares count them. Without one none is kept.
    ensures traced { IfOk result (λ f. options.now.trace ≡ true → IsTraced options.now starts.items (map J.log f.jobs.items) f.events.items) }
    ensures untraced { IfOk result (λ f. options.now.trace ≡ false → f.events.items ≡ []) }
    ensures counts { IfOk result (λ f. options.now.trace ≡ true → f.shares.items ≡ map (share_in f.events.items) (range_with_len 0 options.now.ranks)) }
    ensures ran { IfOk result (λ f. options.now.hosts ≡ 1 → options.now.stop_after ≡ None
        → WasRun options.now starts.items (map J.log f.jobs.items) f.shares.items f.events.items) }
    ensures progress { IfOk result (λ f. IsProgress (map (λ job. length (J.log job)) f.jobs.items) f.sums.items) }
{
    if options.hosts > 1 {
        return Ok(run_spread(rt, alloc, options, starts, jobs)?);
    }
    let (mut post, seats) = PlainBoard::make(alloc, options.ranks)?;
    let (mut sums, sums_seats) = PlainSums::make(alloc, options.ranks, options.width)?;
    Ok(run_whole(
        rt, alloc, options, starts, jobs, &mut post, seats, &mut sums, sums_seats,
    )?)
}

// A whole run over this board and these sums, which are unused.
fn run_whole<R: Wait, J: Job + Drop, S: Drop, T: Drop, P: Post<Seat = S>, Q: Sums<Seat = T>>(
    rt: &R,
    alloc: Global,
    options: &Options,
    starts: Vec<Path>,
    jobs: Vec<J>,
    post: &mut P,
    seats: Vec<S>,
    sums: &mut Q,
    sums_seats: Vec<T>,
) -> Result<Finished<J>, OutOfMemory>
    requires ranks { (1 ≤ options.now.ranks) × (options.now.ranks ≤ 64) }
    requires width { options.now.width ≤ 64 }
    requires jobs { length jobs.items ≡ options.now.ranks }
    requires unused { All (λ job. J.log job ≡ []) jobs.items }
    requires told { P.tells post.old ≡ Some (fresh_told options.now.ranks) }
    requires seats { AllFresh P.shows (P.seats post.old) options.now.ranks None seats.items }
    requires sums_shown { map Q.shows sums_seats.items ≡ map (fresh options.now.ranks options.now.width) (range_with_len 0 options.now.ranks) }
    requires sums_seats { (k : ℕ) (d : T) → k < options.now.ranks → Q.seats sums.old (slice_index_or sums_seats.items k d) }
    ensures outcome { IfOk result (λ f. IsOutcome J.log J.plain options.now starts.items jobs.items f) }
    ensures played { IfOk result (λ f. Played options.now starts.items (map J.log f.jobs.items) (map (λ l. l.items) f.left.items) f.shares.items) }
    ensures run { IfOk result (λ f. options.now.stop_after ≡ None → IsRun J.log options.now starts.items f) }
{
    nothing_waits_at_end();
    rounds_are_fair();
    deeds_keep_sound();
    late_keeps_sound();
    let queues = deal(alloc, options.ranks, starts)?;
    let ranks = new_ranks(alloc, options, jobs, seats, sums_seats, queues)?;
    let mut events = Vec::new(alloc);
    let ranks = Host::make(ranks).run_traced(rt, post, sums, &mut events)?;
    let parts = Parts::of(alloc, ranks)?;
    post.gather(parts.seats);
    sums.gather(parts.sums_seats);
    let mut finished = parts.finished;
    finished.events = events;
    Ok(finished)
}
