//! A run on one thread asks by names alone in its working directory. Each test compares the answers with those by whole paths, and counts
//! the names alone.
use crate::tests::counting::{Counting, Counts, counting};
use crate::tests::private_dirs::is_kept;
use crate::tests::rooms::Room;
use crate::tests::shared::{same, so};
use crate::tests::swaps::{are_listed_by, room_with_modes};
use outside::{Kind, Tree};
use real_disk::RealReader;
use std::alloc::Global;
use std::fs;
use std::process::Abort;
use whole_disk::{Act, DiskOver};

// A room whose directories only the user and root can write to.
fn private_room(rt: &impl Abort, host: HostRuntime) -> Room {
    room_with_modes(rt, host, 0o755, 0o755)
}

// The files of a system that a run has for itself, on one thread.
fn alone<'a>(system: Counting<'a>) -> DiskOver<Counting<'a>> {
    files_of(system, true)
}

// The files of a system that a run has for itself, if it is alone.
fn files_of<'a>(system: Counting<'a>, is_alone: bool) -> DiskOver<Counting<'a>> {
    let mut disk = DiskOver::over(system.host.alloc(), system);
    if is_alone {
        disk.work_alone();
    }
    disk
}

// A reader that looked at these.
fn looked<'a>(
    rt: &impl Abort,
    alloc: Global,
    disk: &mut DiskOver<Counting<'a>>,
    room: &Room,
    looks: &[&str],
) -> RealReader<Counting<'a>> {
    let mut reader = disk.reader(alloc).expect(rt, "memory");
    let listed = are_listed_by(alloc, &mut reader, room, looks);
    so(rt, listed, "looks");
    reader
}

// Looks at the directory and the one over it, by a reader that is taken back.
fn look_at(rt: &impl Abort, alloc: Global, disk: &mut DiskOver<Counting<'_>>, room: &Room) {
    let reader = looked(rt, alloc, disk, room, &["top", "top/a"]);
    disk.take_reader(reader);
}

// The size of a file, if there is one.
fn size_at(
    rt: &impl Abort,
    reader: &mut RealReader<Counting<'_>>,
    room: &Room,
    names: &str,
) -> Option<u64> {
    let path = room.at(names).expect(rt, "a path");
    let stat = reader.stat(&path).expect(rt, "no fault")?;
    if stat.kind == Kind::File {
        Some(stat.size)
    } else {
        None
    }
}

// The first value where nobody else can replace the room, and the second one elsewhere.
fn if_kept<T: Copy + Drop>(
    rt: &impl Abort,
    host: HostRuntime,
    room: &Room,
    kept: T,
    other: T,
) -> T {
    if is_kept(host, room).expect(rt, "an answer") {
        kept
    } else {
        other
    }
}

// Does a call that writes, and that does not fail.
fn act(
    rt: &(impl Abort + AllocGlobal),
    disk: &mut DiskOver<Counting<'_>>,
    room: &Room,
    act: Act<'_>,
    names: &str,
) {
    let path = room.at(names).expect(rt, "a path");
    let told = disk.act(rt.alloc(), act, &path);
    assert!(rt; told == Ok(()), "{names}: {told:?}");
}

// Looks at these in turn. Only files have sizes.
fn look_in_turn(rt: &impl Abort, reader: &mut RealReader<Counting<'_>>, room: &Room) {
    for (names, want) in [
        ("top/a/file", Some(3)),
        ("top/a/nothing", None),
        ("top/a/link", None),
        ("top/a/file", Some(3)),
        ("out/file", Some(5)),
        ("top/a/file", Some(3)),
    ] {
        same(rt, &size_at(rt, reader, room, names), &want);
    }
    same(rt, &reader.faults(), &0);
}

#[test]
fn looks_in_turn_name_the_last_name_alone(rt: HostRuntime) {
    let room = private_room(&rt, rt);
    let counts = Counts::none();
    let mut disk = alone(counting(rt, &counts, true));
    let mut reader = looked(&rt, rt.alloc(), &mut disk, &room, &["top", "top/a"]);
    same(&rt, &counts.names(), &0);
    look_in_turn(&rt, &mut reader, &room);
    disk.take_reader(reader);
    let due = if_kept(&rt, rt, &room, (4, 1), (0, 0));
    same(&rt, &(counts.names(), counts.changes()), &due);
    room.remove().expect(&rt, "an empty room");
}

// Looks so often at a file of three bytes.
fn look_often(rt: &impl Abort, reader: &mut RealReader<Counting<'_>>, room: &Room, times: u32) {
    for _ in 0..times {
        let told = size_at(rt, reader, room, "top/a/file");
        same(rt, &told, &Some(3));
    }
}

// A list, two reads, and the text of a link.
fn list_and_read(
    rt: &(impl Abort + AllocGlobal),
    reader: &mut RealReader<Counting<'_>>,
    room: &Room,
) {
    let listed = are_listed_by(rt.alloc(), reader, room, &["top/a/empty"]);
    so(rt, listed, "a list");
    let file = room.at("top/a/file").expect(rt, "a path");
    let mut bytes = [0; 3];
    same(rt, &reader.read(&file, 0, &mut bytes), &Ok(3));
    same(rt, &bytes, b"own");
    let link = room.at("top/a/link").expect(rt, "a path");
    let text = reader.read_link(rt.alloc(), &link).expect(rt, "a text");
    same(rt, &text.text(), &"file");
}

#[test]
fn other_calls_name_the_last_name_alone_too(rt: HostRuntime) {
    let room = private_room(&rt, rt);
    let counts = Counts::none();
    let mut disk = alone(counting(rt, &counts, true));
    let mut reader = looked(&rt, rt.alloc(), &mut disk, &room, &["top", "top/a"]);
    look_often(&rt, &mut reader, &room, 2);
    let before = counts.names();
    list_and_read(&rt, &mut reader, &room);
    disk.take_reader(reader);
    let due = if_kept(&rt, rt, &room, 5, 0);
    same(&rt, &counts.names(), &before.saturating_add(due));
    room.remove().expect(&rt, "an empty room");
}

// Makes, writes and removes in the directory that was looked at.
fn act_in_turn(rt: &(impl Abort + AllocGlobal), disk: &mut DiskOver<Counting<'_>>, room: &Room) {
    for (deed, names) in [
        (Act::MakeFile, "top/a/new"),
        (Act::MakeLink("new"), "top/a/to_new"),
        (Act::Write(0, b"new"), "top/a/new"),
        (Act::MakeDir, "top/a/more"),
        (Act::MakeFile, "top/a/more/file"),
        (Act::RemoveFile, "top/a/link"),
        (Act::RemoveDir, "top/a/empty"),
    ] {
        act(rt, disk, room, deed, names);
    }
}

// Stops the test where these acts made or left something else.
fn has_acted(rt: &impl Abort, host: HostRuntime, room: &Room) {
    so(rt, room.holds("top/a/to_new", b"new"), "the link");
    so(rt, room.holds("top/a/more/file", b""), "the file");
    let gone = room.at("top/a/empty").expect(rt, "a path");
    so(rt, fs::metadata(&host, gone.text()).is_err(), "removed");
}

#[test]
fn acts_in_turn_name_the_last_name_alone(rt: HostRuntime) {
    let room = private_room(&rt, rt);
    let counts = Counts::none();
    let mut disk = alone(counting(rt, &counts, true));
    look_at(&rt, rt.alloc(), &mut disk, &room);
    act_in_turn(&rt, &mut disk, &room);
    has_acted(&rt, rt, &room);
    let due = if_kept(&rt, rt, &room, 1, 0);
    same(&rt, &counts.changes(), &due);
    same(&rt, &(counts.names() != 0), &(due == 1));
    room.remove().expect(&rt, "an empty room");
}

// Makes a file in the directory that was looked at, and removes it, so often.
fn make_and_remove(
    rt: &(impl Abort + AllocGlobal),
    disk: &mut DiskOver<Counting<'_>>,
    room: &Room,
    times: u32,
) {
    for _ in 0..times {
        act(rt, disk, room, Act::MakeFile, "top/a/new");
        act(rt, disk, room, Act::RemoveFile, "top/a/new");
    }
}

// Stops the test where a call names the last name alone below these modes, after these looks.
fn names_whole_paths(
    rt: &(impl Abort + AllocGlobal),
    host: HostRuntime,
    modes: (u32, u32),
    looks: &[&str],
) {
    let room = room_with_modes(rt, host, modes.0, modes.1);
    let counts = Counts::none();
    let mut disk = alone(counting(host, &counts, true));
    let mut reader = looked(rt, host.alloc(), &mut disk, &room, looks);
    look_often(rt, &mut reader, &room, 4);
    disk.take_reader(reader);
    act(rt, &mut disk, &room, Act::MakeFile, "top/a/new");
    act(rt, &mut disk, &room, Act::RemoveFile, "top/a/file");
    act(rt, &mut disk, &room, Act::RemoveDir, "top/a/empty");
    same(rt, &(counts.names(), counts.changes()), &(0, 0));
    room.remove().expect(rt, "an empty room");
}

// In an exposed directory, below one, and in one at which nobody looked.
#[test]
fn only_private_directories_become_the_working_directory(rt: HostRuntime) {
    for (modes, looks) in [
        ((0o777, 0o755), ["top", "top/a"].as_slice()),
        ((0o777, 0o755), ["top/a", "top"].as_slice()),
        ((0o755, 0o777), ["top", "top/a"].as_slice()),
        ((0o755, 0o775), ["top", "top/a"].as_slice()),
        ((0o755, 0o755), ["top"].as_slice()),
    ] {
        names_whole_paths(&rt, rt, modes, looks);
    }
}

#[test]
fn a_directory_that_becomes_exposed_is_left(rt: HostRuntime) {
    let room = private_room(&rt, rt);
    let counts = Counts::none();
    let mut disk = alone(counting(rt, &counts, true));
    let mut reader = looked(&rt, rt.alloc(), &mut disk, &room, &["top", "top/a"]);
    make_and_remove(&rt, &mut disk, &room, 1);
    look_often(&rt, &mut reader, &room, 4);
    room.set_mode("top", 0o777).expect(&rt, "a mode");
    let listed = are_listed_by(rt.alloc(), &mut reader, &room, &["top"]);
    so(&rt, listed, "a look");
    let before = counts.names();
    look_often(&rt, &mut reader, &room, 4);
    disk.take_reader(reader);
    make_and_remove(&rt, &mut disk, &room, 1);
    same(&rt, &counts.names(), &before);
    room.remove().expect(&rt, "an empty room");
}

// A reader sees that the directory is exposed. The files name whole paths from the moment at which they take it.
fn leave_with_reader(
    rt: &(impl Abort + AllocGlobal),
    disk: &mut DiskOver<Counting<'_>>,
    room: &Room,
    counts: &Counts,
) {
    room.set_mode("top", 0o777).expect(rt, "a mode");
    let reader = looked(rt, rt.alloc(), disk, room, &["top"]);
    make_and_remove(rt, disk, room, 3);
    let before = counts.names();
    disk.take_reader(reader);
    make_and_remove(rt, disk, room, 3);
    same(rt, &counts.names(), &before);
}

// The files are in the directory, and a reader learns that it is exposed. They know it from the moment at which they take the reader.
#[test]
fn the_files_leave_a_directory_that_a_reader_saw_exposed(rt: HostRuntime) {
    let room = private_room(&rt, rt);
    let counts = Counts::none();
    let mut disk = alone(counting(rt, &counts, true));
    look_at(&rt, rt.alloc(), &mut disk, &room);
    leave_with_reader(&rt, &mut disk, &room, &counts);
    room.remove().expect(&rt, "an empty room");
}

// The calls of two readers alternate, and only one of them gets the working directory.
#[test]
fn calls_that_alternate_do_not_change_it_each_time(rt: HostRuntime) {
    let room = private_room(&rt, rt);
    let counts = Counts::none();
    let mut disk = alone(counting(rt, &counts, true));
    alternate(&rt, rt.alloc(), &mut disk, &room);
    let due = if_kept(&rt, rt, &room, 1, 0);
    same(&rt, &counts.changes(), &due);
    same(&rt, &(counts.names() > 15), &(due == 1));
    room.remove().expect(&rt, "an empty room");
}

fn alternate(rt: &impl Abort, alloc: Global, disk: &mut DiskOver<Counting<'_>>, room: &Room) {
    let mut first = looked(rt, alloc, disk, room, &["top", "top/a"]);
    let mut second = looked(rt, alloc, disk, room, &["out"]);
    for _ in 0..20 {
        look_at_two(rt, &mut first, &mut second, room);
    }
    disk.take_reader(first);
    disk.take_reader(second);
}

// Looks at a file by each of two readers.
fn look_at_two(
    rt: &impl Abort,
    first: &mut RealReader<Counting<'_>>,
    second: &mut RealReader<Counting<'_>>,
    room: &Room,
) {
    let told = size_at(rt, first, room, "top/a/file");
    same(rt, &told, &Some(3));
    let told = size_at(rt, second, room, "out/file");
    same(rt, &told, &Some(5));
}

// Stops the test where a call names the last name alone, or where a run that is alone does not ask for the change.
fn asks_in_vain(rt: &(impl Abort + AllocGlobal), host: HostRuntime, is_alone: bool) {
    let room = private_room(rt, host);
    let counts = Counts::none();
    let system = counting(host, &counts, !is_alone);
    let mut disk = files_of(system, is_alone);
    let mut reader = looked(rt, host.alloc(), &mut disk, &room, &["top", "top/a"]);
    look_often(rt, &mut reader, &room, 4);
    let due = if_kept(rt, host, &room, u64::from(is_alone), 0);
    same(rt, &(counts.names(), counts.changes()), &(0, due));
    same(rt, &reader.faults(), &0);
    disk.take_reader(reader);
    room.remove().expect(rt, "an empty room");
}

// If the system refuses the change, and if the run does not have the thread for itself.
#[test]
fn whole_paths_serve_where_the_working_directory_stays(rt: HostRuntime) {
    for is_alone in [true, false] {
        asks_in_vain(&rt, rt, is_alone);
    }
}
