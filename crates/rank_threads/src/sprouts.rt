//! A made-up job over a tree of numbers.
ghost use Rattle.std.specs.Prelude.{◌≡◌, [], IfOk};

use circle_run::Job;
use path_text::{OutOfMemory, Path};
use rank_queue::Batch;
use std::alloc::Global;
use std::sync::atomic::{AtomicU64, Ordering};

/// Handles the strings `/0`, `/1` and so on: the string of the number k pushes those of 2k + 1 and 2k + 2, if there are so many. It
/// counts how often each was handled, by any rank, and does some rounds of made-up work with each.
#[derive(Drop)]
pub struct Sprout<'a> {
    pub(crate) alloc: Global,
    pub(crate) seen: &'a [AtomicU64],
    pub(crate) rounds: u64,
    pub(crate) spent: u64,
    pub(crate) steps: Vec<Step>,
}

/// A string that was handled, and those that it pushed.
#[derive(Drop)]
pub(crate) struct Step {
    pub(crate) item: Path,
    pub(crate) pushed: Vec<Path>,
}

impl<'a> Sprout<'a> {
    /// A job that has handled nothing.
    pub fn make(alloc: Global, seen: &'a [AtomicU64], rounds: u64) -> Sprout<'a>
        ensures { result.steps.items ≡ [] }
    {
        Sprout {
            alloc,
            seen,
            rounds,
            spent: 0,
            steps: Vec::new(alloc),
        }
    }
}

impl Job for Sprout<'_> {
    ghost use Rattle.std.specs.Prelude.{map, ⊤, None};

    ghost log = { λ s. map (λ step. (step.item, step.pushed.items)) s.steps.items };

    ghost heard = { λ _. None };

    ghost Plain = { ⊤ };

    ghost plain = { λ _. tt };

    fn handle(&mut self, item: &Path, _waiting: u64, fresh: &mut Batch) -> Result<(), OutOfMemory> {
        let number = number_of(item);
        let Ok(step) = grown(self.alloc, item, number, self.seen.len() as u64, fresh) else {
            fresh.clear();
            return Err(OutOfMemory);
        };
        if self.steps.push(step).is_err() {
            fresh.clear();
            return Err(OutOfMemory);
        }
        if let Some(count) = self.seen.get(number as usize) {
            count.fetch_add(1, Ordering::SeqCst);
        }
        self.spent = spin(self.spent, self.rounds);
        Ok(())
    }
}

/// Counts of so many strings, none of which was handled.
pub fn counts(alloc: Global, strings: u32) -> Result<Vec<AtomicU64>, OutOfMemory> {
    let mut seen = Vec::with_capacity(alloc, strings as usize)?;
    for _ in 0..strings {
        seen.push(AtomicU64::new(0))?;
    }
    Ok(seen)
}

/// Does `rounds` rounds of made-up work, each of which depends on the one before.
pub fn spin(start: u64, rounds: u64) -> u64 {
    let mut x = start;
    for k in 0..rounds {
        x = (x ^ k)
            .wrapping_mul(6_364_136_223_846_793_005)
            .rotate_left(17);
    }
    x
}

// The number of a string, and the greatest number for any other text.
fn number_of(item: &Path) -> u32 {
    item.base().parse().unwrap_or(u32::MAX)
}

fn grown(
    alloc: Global,
    item: &Path,
    number: u32,
    strings: u64,
    fresh: &mut Batch,
) -> Result<Step, OutOfMemory>
    requires { fresh.old ≡ [] }
    ensures item { IfOk result (λ step. step.item ≡ item.now) }
    ensures pushed { IfOk result (λ step. step.pushed.items ≡ fresh.new) }
{
    let pushed = put_children(alloc, number as u64, strings, fresh)?;
    let item = item.copy()?;
    Ok(Step { item, pushed })
}

fn put_children(
    alloc: Global,
    number: u64,
    strings: u64,
    fresh: &mut Batch,
) -> Result<Vec<Path>, OutOfMemory>
    requires { fresh.old ≡ [] }
    ensures { IfOk result (λ pushed. pushed.items ≡ fresh.new) }
{
    let mut pushed = Vec::new(alloc);
    for side in 1..3u64 {
        let child = number.saturating_mul(2).saturating_add(side);
        if child < strings {
            let path = path_of(alloc, child)?;
            pushed.push(path.copy()?)?;
            fresh.push(path)?;
        }
    }
    Ok(pushed)
}

/// The string of a number.
pub(crate) fn path_of(alloc: Global, number: u64) -> Result<Path, OutOfMemory> {
    let text = format!(in alloc; "/{number}")?;
    Path::parse(alloc, text.as_str()).map_err(|_| OutOfMemory)
}
