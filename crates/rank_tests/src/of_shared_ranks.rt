//! Ranks over a board of atomic words have the same results as over a plain one.
ghost use Rattle.std.specs.Prelude.{◌≡◌, ◌<◌, ◌≤◌, [], length, false, IfOk};
ghost use Rattle.post_board.specs.Fresh.{fresh};
ghost use Rattle.sum_tree.specs.Plain.{fresh as fresh_sums};
ghost use Rattle.circle_run.specs.Hosts.{Placed};

use crate::boards::{board_of_words, two_of};
use crate::of_circle_run::Family;
use circle_run::{Host, Job, Options, Rank, Share, Split};
use path_text::{OutOfMemory, Path};
use post_board::Post;
use rank_queue::{Batch, RankQueue};
use ring_core::{Event, put_event};
use std::alloc::Global;
use std::process::Abort;
use std::sync::Wait;
use std::test::Fail;
use sum_tree::{PlainSums, Sums};

// The events of the two ranks, of which rank 0 begins with `/u`.
const ZERO: &str = "\
handle 0 2 /u
give 0 1 1
handle 0 0 /u/b
ask 0 1
none 0 1
refuse 0 1
restart 0
ask 0 1
none 0 1
refuse 0 1
conclude 0
";

const ONE: &str = "\
ask 1 0
take 1 0 1
refuse 1 0
handle 1 0 /u/a
ask 1 0
none 1 0
refuse 1 0
pass 1 white
ask 1 0
over 1
";

// A rank that has had no turn.
fn new_rank<J: Job, P: Post, Q: Sums>(
    alloc: Global,
    job: J,
    seat: P::Seat,
    sums_seat: Q::Seat,
    queue: RankQueue,
    options: &Options,
    me: u32,
    post: &P,
    sums: &Q,
) -> Rank<J, P::Seat, Q::Seat>
    requires unused { J.log job ≡ [] }
    requires seat { P.seats post.now seat × (P.shows seat ≡ fresh options.now.ranks me (P.shows seat).batches) }
    requires sums { Q.seats sums.now sums_seat × (Q.shows sums_seat ≡ fresh_sums options.now.ranks options.now.width me) }
    requires inside { (me < options.now.ranks) × (options.now.ranks ≤ 64) × (options.now.width ≤ 64) }
    ensures placed { Placed J.log P.shows P.seats Q.shows Q.seats false result post.now sums.now }
    ensures me { result.me ≡ me }
{
    let _posts = post;
    let _sums = sums;
    Rank::make(alloc, job, seat, sums_seat, queue, options, me)
}

// Turns in rounds, until both ranks are done.
fn run_both<R: Wait, J: Job + Drop, P: Post, Q: Sums>(
    rt: &R,
    alloc: Global,
    zero: Rank<J, P::Seat, Q::Seat>,
    one: Rank<J, P::Seat, Q::Seat>,
    post: &mut P,
    sums: &mut Q,
) -> Result<Vec<Rank<J, P::Seat, Q::Seat>>, OutOfMemory>
where
    P::Seat: Drop,
    Q::Seat: Drop,
    requires zero { Placed J.log P.shows P.seats Q.shows Q.seats false zero post.old sums.old × (zero.me ≡ 0) }
    requires one { Placed J.log P.shows P.seats Q.shows Q.seats false one post.old sums.old × (one.me ≡ 1) }
    ensures { IfOk result (λ ranks. length ranks.items ≡ 2) }
{
    let mut ranks = Vec::with_capacity(alloc, 2)?;
    ranks.push(zero)?;
    ranks.push(one)?;
    Ok(Host::make(ranks).run(rt, post, sums))
}

fn lines_of(alloc: Global, events: &[Event]) -> Result<Vec<u8>, OutOfMemory> {
    let mut text = Vec::new(alloc);
    for event in events {
        put_event(&mut text, event)?;
    }
    Ok(text)
}

fn job(alloc: Global) -> Family
    ensures { result.steps.items ≡ [] }
{
    let steps = Vec::new(alloc);
    Family { alloc, steps }
}

fn numbers(share: Share) -> (u64, u128, u128) {
    (share.handled, share.given, share.taken)
}

#[test]
fn two_ranks_share_one_start_over_words(rt: HostRuntime) -> Result<(), Fail> {
    let alloc = rt.alloc();
    let options = Options {
        ranks: 2,
        hosts: 1,
        split: Split::Equal,
        seed: 0,
        width: 2,
        trace: true,
        stop_after: None,
    };
    let (board, zero, one) = board_of_words(alloc)?;
    let (mut sums, sum_seats) = PlainSums::make(alloc, 2, 2)?;
    let (zero_sum, one_sum) = two_of(sum_seats).ok_or("two seats of sums")?;
    let mut starts = Batch::make(alloc);
    starts.push(Path::parse(alloc, "/u")?)?;
    let mut queue = RankQueue::make(alloc);
    queue.push_all(&mut starts)?;
    let mut post = &board;
    let zero = new_rank(
        alloc,
        job(alloc),
        zero,
        zero_sum,
        queue,
        &options,
        0,
        &post,
        &sums,
    );
    let none = RankQueue::make(alloc);
    let one = new_rank(
        alloc,
        job(alloc),
        one,
        one_sum,
        none,
        &options,
        1,
        &post,
        &sums,
    );
    let ranks = run_both(&rt, alloc, zero, one, &mut post, &mut sums)?;
    let (zero, one) = (&ranks[0], &ranks[1]);
    assert_eq!(rt; lines_of(alloc, zero.events())?.as_slice(), ZERO.as_bytes());
    assert_eq!(rt; lines_of(alloc, one.events())?.as_slice(), ONE.as_bytes());
    assert_eq!(rt; numbers(zero.share()), (2, 1, 0));
    assert_eq!(rt; numbers(one.share()), (1, 0, 1));
    Ok(())
}
