//! Actors become lots, and lots become actors again.
ghost use Rattle.std.specs.Prelude.{◌≡◌, ◌≤◌, [], None, length, map, IfOk, OnOk, OnErr};
ghost use Rattle.std.specs.Vec.{vec_len, vec_capacity};
ghost use Rattle.level_work.specs.Private.Crews.{AtHome};

use crate::lots::Lot;
use path_text::OutOfMemory;
use std::alloc::Global;
use std::mem;

// A lot without a share for each actor. The actors' list keeps room for all of them.
pub(crate) fn hired<A: Drop, P: Drop>(
    alloc: Global,
    actors: &mut Vec<A>,
) -> Result<Vec<Lot<A, P>>, OutOfMemory>
    ensures actors { IfOk result (λ lots. map (λ lot. lot.actor) lots.items ≡ actors.old.items) }
    ensures home { IfOk result (λ lots. AtHome lots.items) }
    ensures gone { OnOk result (actors.new.items ≡ []) }
    ensures room { IfOk result (λ lots. length lots.items ≤ vec_capacity actors.new) }
    ensures refused { OnErr result (actors.new.items ≡ actors.old.items) }
{
    let mut lots = Vec::with_capacity(alloc, actors.len())?;
    let room = Vec::with_capacity(alloc, actors.len())?;
    let taken = mem::replace(actors, room);
    for actor in taken {
        let Ok(()) = lots.push(idle(alloc, actor)) else {
            unreachable!()
        };
    }
    Ok(lots)
}

fn idle<A: Drop, P: Drop>(alloc: Global, actor: A) -> Lot<A, P>
    ensures actor { result.actor ≡ actor }
    ensures part { result.part ≡ None }
{
    Lot {
        actor,
        part: None,
        places: Vec::new(alloc),
        fates: Vec::new(alloc),
        lost: false,
    }
}

// The actors go back to where they were.
pub(crate) fn dismissed<A: Drop, P: Drop>(lots: Vec<Lot<A, P>>, actors: &mut Vec<A>)
    requires gone { actors.old.items ≡ [] }
    requires room { length lots.items ≤ vec_capacity actors.old }
    ensures { actors.new.items ≡ map (λ lot. lot.actor) lots.items }
{
    for lot in lots {
        let Ok(()) = actors.push(lot.actor) else {
            unreachable!()
        };
    }
}
