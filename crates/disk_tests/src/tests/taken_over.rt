//! A rank that took over paths did not look at the directories above them. Its reader looks at them, once, to know whether the paths are
//! in private directories.
use crate::tests::counting::{Counting, Counts, counting};
use crate::tests::private_dirs::is_kept;
use crate::tests::rooms::{Node, Room};
use crate::tests::shared::{same, so};
use crate::tests::swaps::{are_listed, is_as_before, room_with_modes, swap};
use outside::{Tree, WriteError};
use real_disk::RealReader;
use std::process::Abort;
use whole_disk::{Act, DiskOver, WholeDisk};

// How often a reader asks by a whole path for one look at a directory.
fn asked_for(
    rt: &impl Abort,
    counts: &Counts,
    reader: &mut RealReader<Counting<'_>>,
    room: &Room,
    names: &str,
) -> u64 {
    let before = counts.paths();
    let path = room.at(names).expect(rt, "a path");
    let found = reader.stat(&path).expect(rt, "no fault");
    so(rt, found.is_some(), names);
    counts.paths().wrapping_sub(before)
}

// The reader looks at two directories of the room, and not at the room.
#[test]
fn the_directories_above_are_looked_at_once(rt: HostRuntime) {
    let room = room_with_modes(&rt, rt, 0o755, 0o755);
    let counts = Counts::none();
    let mut disk = DiskOver::over(rt.alloc(), counting(rt, &counts, false));
    let mut reader = disk.reader(rt.alloc()).expect(&rt, "memory");
    let first = asked_for(&rt, &counts, &mut reader, &room, "top");
    let below = asked_for(&rt, &counts, &mut reader, &room, "top/a");
    let second = asked_for(&rt, &counts, &mut reader, &room, "out");
    disk.take_reader(reader);
    if is_kept(rt, &room).expect(&rt, "an answer") {
        so(&rt, first > 2, "looks at all above");
        same(&rt, &below, &1);
        same(&rt, &second, &1);
    }
    room.remove().expect(&rt, "an empty room");
}

// The first look finds the room safe. Others may write in `top`, which is in the room.
#[test]
fn a_safe_directory_hides_no_exposed_one_in_it(rt: HostRuntime) {
    let room = room_with_modes(&rt, rt, 0o777, 0o755);
    let mut disk = WholeDisk::make(rt);
    let mut reader = disk.reader(rt.alloc()).expect(&rt, "memory");
    let listed = are_listed(rt, &mut reader, &room, &["out", "top/a"]);
    so(&rt, listed, "looks");
    disk.take_reader(reader);
    swap(rt, &room).expect(&rt, "a link");
    let new = room.at("top/a/new").expect(&rt, "a path");
    let told = disk.act(rt.alloc(), Act::MakeFile, &new);
    same(&rt, &told, &Err(WriteError::Failed));
    let stands = is_as_before(rt, &room).expect(&rt, "names");
    so(&rt, stands, "the other directory");
    room.remove().expect(&rt, "an empty room");
}

// Others may write in `top`, at which nobody looked. So `top/b` is exposed, and known when `top/b/c` is looked at.
#[test]
fn an_exposed_directory_hides_no_other_one_beside_it(rt: HostRuntime) {
    let room = room_with_modes(&rt, rt, 0o777, 0o755);
    for names in ["top/b", "top/b/c"] {
        room.put(names, Node::Dir).expect(&rt, "a directory");
        room.set_mode(names, 0o755).expect(&rt, "a mode");
    }
    let mut disk = WholeDisk::make(rt);
    let mut reader = disk.reader(rt.alloc()).expect(&rt, "memory");
    let listed = are_listed(rt, &mut reader, &room, &["top/b", "top/b/c", "top/a"]);
    so(&rt, listed, "looks");
    disk.take_reader(reader);
    swap(rt, &room).expect(&rt, "a link");
    let new = room.at("top/a/new").expect(&rt, "a path");
    let told = disk.act(rt.alloc(), Act::MakeFile, &new);
    same(&rt, &told, &Err(WriteError::Failed));
    room.remove().expect(&rt, "an empty room");
}
