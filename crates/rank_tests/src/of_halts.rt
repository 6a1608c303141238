//! Ranks of a board hear that all must halt, and take back a request to a rank that has stopped.
ghost use Rattle.std.specs.Prelude.{◌≡◌};
ghost use Rattle.post_board.specs.Fresh.{fresh};

use crate::boards::{board_of_words, plain_board};
use crate::of_post_board::{newest_of, two_paths};
use post_board::{Answer, Post, Ring};
use ring_core::Colour;
use std::alloc::Global;
use std::process::Abort;
use std::test::Fail;

// Whether rank 0 has the token and rank 1 has not, and both hear of the halt once rank 0 told all to.
fn both_hear_a_halt<P: Post>(post: &mut P, zero: &mut P::Seat, one: &mut P::Seat) -> bool
    requires seats { P.seats post.old zero.old × P.seats post.old one.old }
    requires zero { P.shows zero.old ≡ fresh 2 0 (P.shows zero.old).batches }
    requires one { P.shows one.old ≡ fresh 2 1 (P.shows one.old).batches }
{
    if post.ring(zero) != Ring::Here(Colour::Black) || post.ring(one) != Ring::Elsewhere {
        return false;
    }
    post.halt(zero);
    post.ring(zero) == Ring::Halted && post.ring(one) == Ring::Halted
}

// Whether rank 0 waits for rank 1 until that one stops, and hears then that there is nothing for it.
fn waits_until_the_stop<P: Post>(post: &mut P, zero: &mut P::Seat, one: &mut P::Seat) -> bool
    requires seats { P.seats post.old zero.old × P.seats post.old one.old }
    requires zero { P.shows zero.old ≡ fresh 2 0 (P.shows zero.old).batches }
    requires one { P.shows one.old ≡ fresh 2 1 (P.shows one.old).batches }
{
    post.ask(zero, 1);
    let Answer::Pending = post.answer(zero) else {
        return false;
    };
    post.stop(one);
    let Answer::Nothing = post.answer(zero) else {
        return false;
    };
    true
}

// Whether rank 1 gets the strings of rank 0, which gave them and then stopped.
fn gets_what_came_before_the_stop<P: Post>(
    post: &mut P,
    zero: &mut P::Seat,
    one: &mut P::Seat,
    alloc: Global,
) -> Result<bool, Fail>
    requires seats { P.seats post.old zero.old × P.seats post.old one.old }
    requires zero { P.shows zero.old ≡ fresh 2 0 (P.shows zero.old).batches }
    requires one { P.shows one.old ≡ fresh 2 1 (P.shows one.old).batches }
{
    let batch = two_paths(alloc)?;
    post.ask(one, 0);
    if post.next_request(zero) != Some(1) {
        return Ok(false);
    }
    post.give(zero, 1, batch);
    post.stop(zero);
    let Answer::Work(given) = post.answer(one) else {
        return Ok(false);
    };
    match newest_of(alloc, given)? {
        Some(newest) => Ok(newest.text() == "/b"),
        None => Ok(false),
    }
}

// How a run ends before all strings are handled.
#[derive(Clone, Copy, Debug, Drop)]
enum Scene {
    Halt,
    StopAfterRequest,
    StopAfterAnswer,
}

const SCENES: [Scene; 3] = [Scene::Halt, Scene::StopAfterRequest, Scene::StopAfterAnswer];

// Whether both ranks of a board before any call see what they must.
fn plays<P: Post>(
    post: &mut P,
    zero: &mut P::Seat,
    one: &mut P::Seat,
    alloc: Global,
    scene: Scene,
) -> Result<bool, Fail>
    requires seats { P.seats post.old zero.old × P.seats post.old one.old }
    requires zero { P.shows zero.old ≡ fresh 2 0 (P.shows zero.old).batches }
    requires one { P.shows one.old ≡ fresh 2 1 (P.shows one.old).batches }
{
    match scene {
        Scene::Halt => Ok(both_hear_a_halt(post, zero, one)),
        Scene::StopAfterRequest => Ok(waits_until_the_stop(post, zero, one)),
        Scene::StopAfterAnswer => gets_what_came_before_the_stop(post, zero, one, alloc),
    }
}

#[test]
fn ranks_of_a_plain_board_hear_of_an_end(rt: HostRuntime) -> Result<(), Fail> {
    for scene in SCENES {
        let (mut board, mut zero, mut one) = plain_board(rt.alloc())?;
        let seen = plays(&mut board, &mut zero, &mut one, rt.alloc(), scene)?;
        assert!(rt; seen, "{scene:?}");
    }
    Ok(())
}

#[test]
fn ranks_of_a_board_of_words_hear_of_an_end(rt: HostRuntime) -> Result<(), Fail> {
    for scene in SCENES {
        let (board, mut zero, mut one) = board_of_words(rt.alloc())?;
        let seen = plays(&mut &board, &mut zero, &mut one, rt.alloc(), scene)?;
        assert!(rt; seen, "{scene:?}");
    }
    Ok(())
}
