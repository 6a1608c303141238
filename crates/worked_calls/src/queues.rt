//! Queues of ranks, and their random draws.
use crate::held::Held;
use crate::telling::{tell_number, tell_paths, tell_value};
use path_text::Path;
use rand_core::utils::NextWord;
use rand_pcg::Pcg32;
use rank_queue::{Batch, RankQueue, equal_share, generator, random_share, victim};
use script_lines::{Trouble, number_of, small_of};
use std::alloc::Global;
use std::mem;

/// The lines about queues.
#[derive(Clone, Copy, Drop, PartialEq, Eq)]
pub enum Asked {
    Push,
    Give,
    Back,
    Clear,
    Take,
    Waiting,
    Queued,
    Share,
    Lots,
}

/// Does a line, and answers it.
pub fn tell(alloc: Global, asked: Asked, held: &mut Held, words: &[String]) -> Result<(), Trouble> {
    match (asked, words) {
        (Asked::Push, _) => {
            let mut batch = Batch::make(alloc);
            for word in words {
                batch.push(Path::parse(alloc, word)?)?;
            }
            held.queue.push_all(&mut batch)?;
            Ok(())
        }
        (Asked::Give, [count]) => give(alloc, held, number_of(count)?),
        (Asked::Back, []) => {
            held.queue.push_all(&mut held.given)?;
            Ok(())
        }
        (Asked::Clear, []) => {
            held.given.clear();
            Ok(())
        }
        (Asked::Take, []) => take(&mut held.queue, &mut held.told),
        (Asked::Waiting, []) => tell_number(alloc, held.queue.len() as u64, &mut held.told),
        (Asked::Queued, []) => {
            let queue = mem::replace(&mut held.queue, RankQueue::make(alloc));
            tell_paths(&queue.into_list(), &mut held.told)
        }
        (Asked::Share, [queued, asked]) => {
            let (queued, asked) = (number_of(queued)?, number_of(asked)?);
            if asked == u64::MAX {
                return Err(Trouble::Number);
            }
            tell_number(alloc, equal_share(queued, asked), &mut held.told)
        }
        (Asked::Lots, [seed, rank, draws @ ..]) => {
            let mut from = generator(number_of(seed)?, small_of(rank)?);
            for draw in draws {
                tell_number(alloc, drawn(&mut from, draw)?, &mut held.told)?;
            }
            Ok(())
        }
        _ => Err(Trouble::Line),
    }
}

// Gives so many of the oldest strings away, and answers how many are left.
fn give(alloc: Global, held: &mut Held, count: u64) -> Result<(), Trouble> {
    let Ok(count) = usize::try_from(count) else {
        return Err(Trouble::Number);
    };
    if count == 0 || count >= held.queue.len() {
        return Err(Trouble::Number);
    }
    held.given = held.queue.give(count)?;
    tell_number(alloc, held.given.len() as u64, &mut held.told)?;
    tell_number(alloc, held.queue.len() as u64, &mut held.told)
}

// Takes the newest string.
fn take(queue: &mut RankQueue, told: &mut String) -> Result<(), Trouble> {
    match queue.take() {
        Some(path) => tell_value(path.text(), told),
        None => tell_value("nothing", told),
    }
}

// The result of one draw: a word, a share of so many, or the rank that a rank of so many asks.
fn drawn(from: &mut Pcg32, draw: &str) -> Result<u64, Trouble> {
    if draw == "word" {
        return Ok(from.next_word() as u64);
    }
    if let Some(left) = draw.strip_prefix("share=") {
        let left = number_of(left)?;
        if left > 0xffff_ffff {
            return Err(Trouble::Number);
        }
        return Ok(random_share(from, left));
    }
    let Some(ranks) = draw.strip_prefix("victim=") else {
        return Err(Trouble::Line);
    };
    let Some((me, n)) = ranks.split_once('/') else {
        return Err(Trouble::Line);
    };
    let (me, n) = (small_of(me)?, small_of(n)?);
    if n < 2 || me >= n {
        return Err(Trouble::Number);
    }
    Ok(victim(from, me, n) as u64)
}
