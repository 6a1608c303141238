//! Two ranks share strings over a board and come to the end, by its trait alone.
ghost use Rattle.std.specs.Prelude.{◌≡◌, ◌<◌, ℕ, true, false, length, IfSome, IfOk};
ghost use Rattle.ring_core.specs.declared.states.Colour.TheVariants.{Black};
ghost use Rattle.post_board.specs.Fresh.{fresh};
ghost use Rattle.post_board.specs.Shown.{is_served};

use crate::boards::plain_board;
use path_text::{OutOfMemory, Path};
use post_board::{Answer, Post, Ring};
use rank_queue::{Batch, RankQueue};
use ring_core::Colour;
use std::alloc::Global;
use std::process::Abort;
use std::test::Fail;

/// The paths `/a` and `/b`.
pub(crate) fn two_paths(alloc: Global) -> Result<Batch, Fail>
    ensures { IfOk result (λ batch. 0 < length batch) }
{
    let mut batch = Batch::make(alloc);
    batch.push(Path::parse(alloc, "/a")?)?;
    batch.push(Path::parse(alloc, "/b")?)?;
    Ok(batch)
}

// Rank 1 asks, rank 0 gives, and rank 1 takes the strings given.
fn shares<P: Post>(
    post: &mut P,
    zero: &mut P::Seat,
    one: &mut P::Seat,
    batch: Batch,
) -> Option<Batch>
    requires seats { P.seats post.old zero.old × P.seats post.old one.old }
    requires zero { P.shows zero.old ≡ fresh 2 0 (P.shows zero.old).batches }
    requires one { P.shows one.old ≡ fresh 2 1 (P.shows one.old).batches }
    requires some { 0 < length batch }
    ensures seats { P.seats post.new zero.new × P.seats post.new one.new }
    ensures zero { IfSome result (λ _. P.shows zero.new ≡ record (fresh 2 0 (P.shows zero.new).batches) { colour = Black }) }
    ensures one { IfSome result (λ _. P.shows one.new ≡ fresh 2 1 (P.shows one.new).batches) }
{
    post.ask(one, 0);
    let Answer::Pending = post.answer(one) else {
        return None;
    };
    if post.next_request(zero) != Some(1) {
        return None;
    }
    post.give(zero, 1, batch);
    let Answer::Work(given) = post.answer(one) else {
        return None;
    };
    Some(given)
}

// Rank 1 asks and is refused, and then rank 0.
fn refuse<P: Post>(post: &mut P, zero: &mut P::Seat, one: &mut P::Seat) -> bool
    requires seats { P.seats post.old zero.old × P.seats post.old one.old }
    requires zero { P.shows zero.old ≡ record (fresh 2 0 (P.shows zero.old).batches) { colour = Black } }
    requires one { P.shows one.old ≡ fresh 2 1 (P.shows one.old).batches }
    ensures seats { P.seats post.new zero.new × P.seats post.new one.new }
    ensures zero { result ≡ true → P.shows zero.new ≡ record (fresh 2 0 (P.shows zero.new).batches) { busy = false; colour = Black; tried = true } }
    ensures one { result ≡ true → P.shows one.new ≡ record (fresh 2 1 (P.shows one.new).batches) { busy = false; tried = true } }
{
    post.ask(one, 0);
    if post.next_request(zero) != Some(1) {
        return false;
    }
    post.refuse(zero, 1);
    let Answer::Nothing = post.answer(one) else {
        return false;
    };
    post.ask(zero, 1);
    if post.next_request(one) != Some(0) {
        return false;
    }
    post.refuse(one, 0);
    let Answer::Nothing = post.answer(zero) else {
        return false;
    };
    true
}

// The token goes round once, and rank 0 concludes.
fn end<P: Post>(post: &mut P, zero: &mut P::Seat, one: &mut P::Seat) -> bool
    requires seats { P.seats post.old zero.old × P.seats post.old one.old }
    requires zero { P.shows zero.old ≡ record (fresh 2 0 (P.shows zero.old).batches) { busy = false; colour = Black; tried = true } }
    requires one { P.shows one.old ≡ record (fresh 2 1 (P.shows one.old).batches) { busy = false; tried = true } }
    ensures seats { P.seats post.new zero.new × P.seats post.new one.new }
    ensures zero { result ≡ true → P.shows zero.new ≡ record (fresh 2 0 (P.shows zero.new).batches) { busy = false; tried = true; ended = true } }
    ensures one { result ≡ true → P.shows one.new ≡ record (fresh 2 1 (P.shows one.new).batches) { busy = false; tried = true; ended = true } }
{
    if post.ring(one) != Ring::Elsewhere {
        return false;
    }
    let Ring::Here(Colour::Black) = post.ring(zero) else {
        return false;
    };
    post.restart(zero);
    let Ring::Here(Colour::White) = post.ring(one) else {
        return false;
    };
    post.pass(one);
    let Ring::Here(Colour::White) = post.ring(zero) else {
        return false;
    };
    post.conclude(zero);
    let Ring::Over = post.ring(one) else {
        return false;
    };
    true
}

/// The strings that rank 1 got, once both ranks have ended and their seats were gathered.
pub(crate) fn share_and_end<P: Post>(
    post: &mut P,
    alloc: Global,
    mut zero: P::Seat,
    mut one: P::Seat,
    batch: Batch,
) -> Result<Option<Batch>, OutOfMemory>
where
    P::Seat: Drop,
    requires seats { P.seats post.old zero × P.seats post.old one }
    requires zero { P.shows zero ≡ fresh 2 0 (P.shows zero).batches }
    requires one { P.shows one ≡ fresh 2 1 (P.shows one).batches }
    requires some { 0 < length batch }
{
    let Some(given) = shares(post, &mut zero, &mut one, batch) else {
        return Ok(None);
    };
    if !refuse(post, &mut zero, &mut one) || !end(post, &mut zero, &mut one) {
        return Ok(None);
    }
    if gather_both(post, alloc, zero, one)? {
        Ok(Some(given))
    } else {
        Ok(None)
    }
}

// Gathers both ranks, whose seats come in descending order, and answers whether the run is over.
fn gather_both<P: Post>(
    post: &mut P,
    alloc: Global,
    zero: P::Seat,
    one: P::Seat,
) -> Result<bool, OutOfMemory>
where
    P::Seat: Drop,
    requires zero { P.seats post.old zero × ((P.shows zero).number ≡ 0) × ((P.shows zero).n ≡ 2) × ((P.shows zero).ended ≡ true)
        × ((r : ℕ) → is_served (P.shows zero) r ≡ false) }
    requires one { P.seats post.old one × ((P.shows one).number ≡ 1) × ((P.shows one).n ≡ 2) × ((P.shows one).ended ≡ true)
        × ((r : ℕ) → is_served (P.shows one) r ≡ false) }
{
    let mut all = Vec::with_capacity(alloc, 2)?;
    all.push(one)?;
    all.push(zero)?;
    Ok(post.gather(all).over)
}

// Both strings came, in their order.
pub(crate) fn newest_of(alloc: Global, mut given: Batch) -> Result<Option<Path>, OutOfMemory> {
    let mut queue = RankQueue::make(alloc);
    queue.push_all(&mut given)?;
    if queue.len() == 2 {
        Ok(queue.take())
    } else {
        Ok(None)
    }
}

#[test]
fn two_ranks_share_strings_and_end(rt: HostRuntime) -> Result<(), Fail> {
    let (mut board, zero, one) = plain_board(rt.alloc())?;
    let batch = two_paths(rt.alloc())?;
    let given = share_and_end(&mut board, rt.alloc(), zero, one, batch)?;
    let newest = newest_of(rt.alloc(), given.ok_or("a batch")?)?;
    assert_eq!(rt; newest.ok_or("two paths")?.text(), "/b");
    Ok(())
}
