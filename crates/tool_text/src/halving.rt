//! The lines of a list, made in several threads.
//!
//! The list is halved, and the threads with it, until there is one thread or the piece is short. The texts of the pieces are joined, and
//! not copied.
ghost use Rattle.std.specs.Prelude.{◌≡◌, ◌-◌, ◌<◌, ◌≤◌, ◌++◌, [], length, IfOk};
ghost use Rattle.tool_text.specs.Lines.{lines_of, lines_between};
ghost use denote.Param.Send.{IsSync};

use crate::drafts::Draft;
use crate::listing::{add_between, expected_len};
use flat_list::FlatList;
use path_text::OutOfMemory;
use std::alloc::Global;
use std::thread;
use std::thread::Threads;

// Below this number one thread makes the lines.
const FEW: usize = 4096;

/// The lines of a list as a finished text, by up to `hosts` threads.
pub(crate) fn list_by<R: Threads + Sync>(
    rt: &R,
    alloc: Global,
    list: &FlatList,
    hosts: u32,
) -> Result<Draft, OutOfMemory>
    ensures { IfOk result (λ draft. draft ≡ (lines_of list.now, [])) }
{
    let room = expected_len(list);
    lines_by(rt, alloc, list, 0, list.len(), room, hosts)
}

// The lines between two places as a finished text, with this room.
#[cycle(halves)]
fn lines_by<R: Threads + Sync>(
    rt: &R,
    alloc: Global,
    list: &FlatList,
    from: usize,
    to: usize,
    room: usize,
    hosts: u32,
) -> Result<Draft, OutOfMemory>
    requires order { from ≤ to }
    requires inside { to ≤ length list.now }
    ensures { IfOk result (λ draft. draft ≡ (lines_between from to list.now, [])) }
{
    if hosts <= 1 || to - from < FEW {
        let mut draft = Draft::make(alloc);
        draft.reserve(room)?;
        add_between(&mut draft, list, from, to)?;
        draft.end(Ok(()))?;
        return Ok(draft);
    }
    let middle = from + (to - from) / 2;
    let few = hosts / 2;
    let front = move || -> Result<Draft, OutOfMemory>
        requires { IsSync R.row × (few < hosts) × (from ≤ middle) × (middle ≤ length list.now) }
        ensures { IfOk result (λ draft. draft ≡ (lines_between from middle list.entry.now, [])) }
    { lines_by(rt, alloc, list, from, middle, room / 2, hosts - few) };
    let back = move || -> Result<Draft, OutOfMemory>
        requires { IsSync R.row × (middle ≤ to) × (to ≤ length list.now) }
        ensures { IfOk result (λ draft. draft ≡ (lines_between middle to list.entry.now, [])) }
    { lines_by(rt, alloc, list, middle, to, room / 2, few) };
    let (front, back) = thread::join(rt, front, back);
    let front = front?;
    let back = back?;
    Draft::append(front, back)
}
