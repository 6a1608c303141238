//! Sums of few ranks, with known results.
ghost use Rattle.std.specs.Prelude.{◌≡◌, IsSome};
ghost use Rattle.sum_tree.specs.Plain.{fresh};

use crate::boards::two_of;
use path_text::OutOfMemory;
use std::alloc::Global;
use std::process::Abort;
use std::test::Fail;
use sum_tree::{PlainSums, SumTree, Sums};

// The sums of rank 1 and then rank 0, and of both together, if rank 0 counts 3 and rank 1 counts 4.
fn three_and_four<Q: Sums>(
    sums: &mut Q,
    alloc: Global,
    mut zero: Q::Seat,
    mut one: Q::Seat,
) -> Result<Option<(u64, u64, u64)>, OutOfMemory>
where
    Q::Seat: Drop,
    requires seats { Q.seats sums.old zero × Q.seats sums.old one }
    requires zero { Q.shows zero ≡ fresh 2 2 0 }
    requires one { Q.shows one ≡ fresh 2 2 1 }
{
    sums.raise(&mut zero, 3);
    sums.raise(&mut one, 4);
    let None = sums.finish(&mut zero) else {
        return Ok(None);
    };
    let Some(below) = sums.finish(&mut one) else {
        return Ok(None);
    };
    let Some(sum) = sums.finish(&mut zero) else {
        return Ok(None);
    };
    Ok(Some((below, sum, gather_both(sums, alloc, zero, one)?)))
}

// Gathers both ranks, whose seats come in descending order.
fn gather_both<Q: Sums>(
    sums: &mut Q,
    alloc: Global,
    zero: Q::Seat,
    one: Q::Seat,
) -> Result<u64, OutOfMemory>
where
    Q::Seat: Drop,
    requires zero { Q.seats sums.old zero × ((Q.shows zero).number ≡ 0) × ((Q.shows zero).n ≡ 2) × IsSome (Q.shows zero).answer }
    requires one { Q.seats sums.old one × ((Q.shows one).number ≡ 1) × ((Q.shows one).n ≡ 2) × IsSome (Q.shows one).answer }
{
    let mut all = Vec::with_capacity(alloc, 2)?;
    all.push(one)?;
    all.push(zero)?;
    Ok(sums.gather(all))
}

#[test]
fn two_ranks_come_to_seven(rt: HostRuntime) -> Result<(), Fail> {
    let (mut sums, seats) = PlainSums::make(rt.alloc(), 2, 2)?;
    let (zero, one) = two_of(seats).ok_or("two seats")?;
    let came = three_and_four(&mut sums, rt.alloc(), zero, one)?;
    assert_eq!(rt; came, Some((4, 7, 7)));
    Ok(())
}

#[test]
fn two_ranks_over_words_come_to_seven(rt: HostRuntime) -> Result<(), Fail> {
    let (tree, seats) = SumTree::make(rt.alloc(), 2, 2)?;
    let (zero, one) = two_of(seats).ok_or("two seats")?;
    let mut sums = &tree;
    let came = three_and_four(&mut sums, rt.alloc(), zero, one)?;
    assert_eq!(rt; came, Some((4, 7, 7)));
    Ok(())
}

// Of four ranks, rank 3 is the child of rank 1, and that of rank 0.
#[test]
fn a_count_climbs_one_level_at_a_refresh(rt: HostRuntime) -> Result<(), Fail> {
    let (mut sums, mut seats) = PlainSums::make(rt.alloc(), 4, 2)?;
    sums.raise(&mut seats[3], 5);
    sums.refresh(&mut seats[3]);
    sums.refresh(&mut seats[0]);
    assert_eq!(rt; sums.shown(&mut seats[0]), 0);
    sums.refresh(&mut seats[1]);
    sums.refresh(&mut seats[0]);
    assert_eq!(rt; sums.shown(&mut seats[0]), 5);
    Ok(())
}

#[test]
fn a_count_stops(rt: HostRuntime) -> Result<(), Fail> {
    let (mut sums, mut seats) = PlainSums::make(rt.alloc(), 1, 64)?;
    sums.raise(&mut seats[0], u64::MAX);
    sums.raise(&mut seats[0], 1);
    assert_eq!(rt; sums.finish(&mut seats[0]), Some(0x00ff_ffff_ffff_ffff));
    Ok(())
}
