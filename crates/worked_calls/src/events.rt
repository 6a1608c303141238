//! Events of ranks.
ghost use Rattle.std.specs.Prelude.{◌≤◌, IfOk};

use crate::telling::{tell_debug, tell_text, tell_value};
use path_text::{Path, unescape};
use ring_core::{Colour, Event, World, check_run, step};
use script_lines::{Trouble, number_of, small_of};
use std::alloc::Global;
use tool_text::{Text, put_trace};

/// The lines about events.
#[derive(Clone, Copy, Drop, PartialEq, Eq)]
pub enum Asked {
    Trace,
    Check,
    Steps,
}

/// Answers a line about the events in a text.
pub fn tell(
    alloc: Global,
    asked: Asked,
    text: &str,
    words: &[String],
    told: &mut String,
) -> Result<(), Trouble> {
    let events = events_of(alloc, text)?;
    match (asked, words) {
        (Asked::Trace, []) => {
            let mut lines = Text::make(alloc);
            put_trace(&mut lines, &events)?;
            tell_text(alloc, &lines, told)
        }
        (Asked::Check, [ranks, starts]) => {
            let ranks = ranks_of(ranks)?;
            match check_run(alloc, &events, ranks, number_of(starts)?) {
                Ok(verdict) => tell_debug(alloc, &verdict, told),
                Err(error) => tell_debug(alloc, &error, told),
            }
        }
        (Asked::Steps, [ranks, starts]) => {
            let ranks = ranks_of(ranks)?;
            let mut world = World::start(alloc, ranks, number_of(starts)?)?;
            tell_steps(alloc, &mut world, &events, told)?;
            tell_counts(alloc, &mut world, ranks, told)
        }
        _ => Err(Trouble::Line),
    }
}

fn events_of(alloc: Global, text: &str) -> Result<Vec<Event>, Trouble> {
    let mut events = Vec::new(alloc);
    for line in text.lines() {
        let mut words = line.splitn(2, ' ');
        let (Some(name), Some(rest)) = (words.next(), words.next()) else {
            return Err(Trouble::Line);
        };
        events.push(event_of(alloc, name, rest)?)?;
    }
    Ok(events)
}

fn event_of(alloc: Global, name: &str, rest: &str) -> Result<Event, Trouble> {
    if name == "handle" {
        return handled(alloc, rest);
    }
    if name == "pass" {
        return passed(rest);
    }
    let mut numbers = Vec::new(alloc);
    for word in rest.split(' ') {
        numbers.push(number_of(word)?)?;
    }
    event_by(name, &numbers)
}

fn handled(alloc: Global, rest: &str) -> Result<Event, Trouble> {
    let mut words = rest.splitn(3, ' ');
    let (Some(rank), Some(kids), Some(path)) = (words.next(), words.next(), words.next()) else {
        return Err(Trouble::Line);
    };
    Ok(Event::Handle {
        rank: small_of(rank)?,
        path: path_of(alloc, path)?,
        kids: number_of(kids)?,
    })
}

fn path_of(alloc: Global, text: &str) -> Result<Path, Trouble> {
    unescape(alloc, text).map_err(|_| Trouble::Path)
}

fn passed(rest: &str) -> Result<Event, Trouble> {
    let Some((rank, colour)) = rest.split_once(' ') else {
        return Err(Trouble::Line);
    };
    let colour = if colour == "white" {
        Colour::White
    } else if colour == "black" {
        Colour::Black
    } else {
        return Err(Trouble::Line);
    };
    Ok(Event::Pass {
        rank: small_of(rank)?,
        colour,
    })
}

// The number of a rank.
fn rank(number: u64) -> Result<u32, Trouble> {
    u32::try_from(number).map_err(|_| Trouble::Number)
}

fn event_by(name: &str, numbers: &[u64]) -> Result<Event, Trouble> {
    match *numbers {
        [one] => event_of_one(name, rank(one)?),
        [one, other] => event_of_two(name, rank(one)?, rank(other)?),
        [one, other, count] => event_of_three(name, rank(one)?, rank(other)?, count),
        _ => Err(Trouble::Line),
    }
}

fn event_of_one(name: &str, rank: u32) -> Result<Event, Trouble> {
    if name == "restart" {
        return Ok(Event::Restart { rank });
    }
    if name == "conclude" {
        return Ok(Event::Conclude { rank });
    }
    if name == "over" {
        return Ok(Event::SeeOver { rank });
    }
    Err(Trouble::Line)
}

fn event_of_two(name: &str, rank: u32, other: u32) -> Result<Event, Trouble> {
    if name == "ask" {
        return Ok(Event::Ask {
            rank,
            victim: other,
        });
    }
    if name == "refuse" {
        return Ok(Event::Refuse { rank, to: other });
    }
    if name == "none" {
        return Ok(Event::TakeNone { rank, from: other });
    }
    Err(Trouble::Line)
}

fn event_of_three(name: &str, rank: u32, other: u32, count: u64) -> Result<Event, Trouble> {
    if name == "give" {
        return Ok(Event::Give {
            rank,
            to: other,
            count,
        });
    }
    if name == "take" {
        return Ok(Event::Take {
            rank,
            from: other,
            count,
        });
    }
    Err(Trouble::Line)
}

// The number of ranks of a run.
fn ranks_of(word: &str) -> Result<u32, Trouble>
    ensures { IfOk result (λ ranks. (1 ≤ ranks) × (ranks ≤ 64)) }
{
    let ranks = small_of(word)?;
    if ranks == 0 || ranks > 64 {
        return Err(Trouble::Number);
    }
    Ok(ranks)
}

// Answers each event.
fn tell_steps(
    alloc: Global,
    world: &mut World,
    events: &[Event],
    told: &mut String,
) -> Result<(), Trouble> {
    for event in events {
        match step(world, event) {
            Ok(()) => tell_value("done", told)?,
            Err(reason) => tell_debug(alloc, &reason, told)?,
        }
    }
    Ok(())
}

// Answers how many strings each rank has.
fn tell_counts(
    alloc: Global,
    world: &mut World,
    ranks: u32,
    told: &mut String,
) -> Result<(), Trouble> {
    for rank in 0..ranks {
        let count = handled_by(alloc, world, rank)?;
        tell_value(&format!(in alloc; "rank {rank} has {count}")?, told)?;
    }
    Ok(())
}

// How many strings the rank can handle, of at most ten.
fn handled_by(alloc: Global, world: &mut World, rank: u32) -> Result<u64, Trouble> {
    let event = Event::Handle {
        rank,
        path: Path::parse(alloc, "/a")?,
        kids: 0,
    };
    for count in 0..10 {
        if step(world, &event).is_err() {
            return Ok(count);
        }
    }
    Ok(10)
}
