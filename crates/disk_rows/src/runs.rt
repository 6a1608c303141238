//! Runs of the program over the files of a system.
ghost use Rattle.std.specs.Prelude.{◌≡◌};
ghost use Rattle.outside.specs.Writes.{nothing_lent};

use crate::systems::Stage;
use mfu_top::{Status, run};
use outside::{MemSink, Wide};
use path_text::OutOfMemory;
use real_disk::{RealGround, seconds};
use std::rt::Clock;
use std::sync::Wait;
use std::thread::Threads;

const AMPLE: u64 = 10_000_000;

/// The status of a run, and its two texts.
#[derive(Drop)]
pub struct Run {
    pub status: Status,
    pub out: MemSink,
    pub notes: MemSink,
}

/// Runs the words over the files of the system. A run on one thread may change the working directory of the process.
pub fn ran<T>(rt: &T, system: Stage<'_>, words: &[String]) -> Result<Run, OutOfMemory>
where
    T: AllocGlobal + Clock + Threads + Wait + Sync,
{
    let mut files = RealGround::make(rt.alloc(), system);
    files.work_alone(!words.iter().any(|word| word.as_str() == "--hosts"));
    ran_over(rt, files, words)
}

// Runs the words over any files. It promises nothing, so that the check of a call reads no clause of `run`.
fn ran_over<T, G>(rt: &T, mut files: G, words: &[String]) -> Result<Run, OutOfMemory>
where
    T: AllocGlobal + Clock + Threads + Wait + Sync,
    G: Wide + Send + Drop,
    G::Reader: Send,
    G::Part: Send,
    G::Span: Send,
    requires lent { G.area files ≡ nothing_lent }
{
    let alloc = rt.alloc();
    let mut out = MemSink::limited(alloc, AMPLE)?;
    let mut notes = MemSink::limited(alloc, AMPLE)?;
    let now = seconds(rt);
    let status = run(rt, alloc, words, &mut files, &mut out, &mut notes, now);
    Ok(Run { status, out, notes })
}
