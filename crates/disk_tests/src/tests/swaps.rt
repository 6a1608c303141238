//! A directory stays the one that was looked at: each test puts a link in the place of a directory between two calls. Every user may
//! write in the directories.
use crate::tests::listed_dirs::lists;
use crate::tests::rooms::{Node, Room};
use crate::tests::shared::{same, so};
use outside::{LinkError, ListError, ReadError, Tree, WriteError};
use real_disk::RealReader;
use std::alloc::Global;
use std::os::unix::fs::symlink;
use std::process::Abort;
use std::{fs, io};
use whole_disk::{Act, WholeDisk};

/// A directory that is looked at, and another one with the same names.
const NODES: [(&str, Node<'static>); 9] = [
    ("top", Node::Dir),
    ("top/a", Node::Dir),
    ("top/a/empty", Node::Dir),
    ("top/a/file", Node::File(b"own")),
    ("top/a/link", Node::Link("file")),
    ("out", Node::Dir),
    ("out/empty", Node::Dir),
    ("out/file", Node::File(b"other")),
    ("out/link", Node::Link("other")),
];

/// A room with these, in which the directory over the one that is looked at, and that one, have these modes.
pub fn room_with_modes(rt: &impl Abort, host: HostRuntime, top: u32, own: u32) -> Room {
    let room = Room::with(host, &NODES).expect(rt, "a room");
    for (names, mode) in [("top", top), ("top/a", own), ("top/a/empty", 0o755)] {
        room.set_mode(names, mode).expect(rt, "a mode");
    }
    room
}

/// A room with these, where every user may write in the directory that is looked at, and in the one over it.
pub fn exposed_room(rt: &impl Abort, host: HostRuntime) -> Room {
    room_with_modes(rt, host, 0o777, 0o777)
}

/// Puts a link to the other directory in the place of the one that was looked at.
pub fn swap(host: HostRuntime, room: &Room) -> io::Result<()> {
    let own = room.at("top/a")?;
    fs::rename(&host, own.text(), room.at("top/aside")?.text())?;
    symlink(&host, room.at("out")?.text(), own.text())
}

// How many names a directory has.
fn names_in(host: HostRuntime, room: &Room, names: &str) -> io::Result<u32> {
    let mut count = 0u32;
    for entry in fs::read_dir(&host, room.at(names)?.text())? {
        let _ = entry?;
        count = count.saturating_add(1);
    }
    Ok(count)
}

/// Whether nothing was made, written or removed in the other directory.
pub fn is_as_before(host: HostRuntime, room: &Room) -> io::Result<bool> {
    let same_names = names_in(host, room, "out")? == 3 && names_in(host, room, "out/empty")? == 0;
    Ok(same_names && room.holds("out/file", b"other"))
}

/// Looks at these as a walk does; whether each is a directory.
pub fn are_listed(
    host: HostRuntime,
    reader: &mut RealReader<HostRuntime>,
    room: &Room,
    all: &[&str],
) -> bool {
    are_listed_by(host.alloc(), reader, room, all)
}

/// The same, by a reader of any files.
pub fn are_listed_by<R: Tree>(alloc: Global, reader: &mut R, room: &Room, all: &[&str]) -> bool {
    for names in all {
        let Ok(path) = room.at(names) else {
            return false;
        };
        if reader.stat(&path).is_err() || reader.list(alloc, &path).is_err() {
            return false;
        }
    }
    true
}

/// The files of the system, which were looked at before the swap, and these names after it.
pub fn looked_at(rt: &impl Abort, host: HostRuntime, room: &Room, after: &str) -> WholeDisk {
    let mut disk = WholeDisk::make(host);
    let mut reader = disk.reader(host.alloc()).expect(rt, "memory");
    let listed = are_listed(host, &mut reader, room, &["top", "top/a"]);
    so(rt, listed, "looks");
    swap(host, room).expect(rt, "a link");
    let path = room.at(after).expect(rt, "a path");
    let _ = reader.stat(&path);
    disk.take_reader(reader);
    disk
}

// Stops the test where a call writes in the other directory.
fn is_refused(rt: &impl Abort, host: HostRuntime, act: Act<'_>, names: &str) {
    let room = exposed_room(rt, host);
    let mut disk = looked_at(rt, host, &room, "top/a/empty");
    let path = room.at(names).expect(rt, "a path");
    let told = disk.act(host.alloc(), act, &path);
    same(rt, &told, &Err(WriteError::Failed));
    same(rt, &disk.faults(), &1);
    let stands = is_as_before(host, &room).expect(rt, "names");
    so(rt, stands, names);
    room.remove().expect(rt, "an empty room");
}

#[test]
fn nothing_is_written_in_another_directory(rt: HostRuntime) {
    for (act, names) in [
        (Act::RemoveFile, "top/a/file"),
        (Act::RemoveDir, "top/a/empty"),
        (Act::MakeFile, "top/a/new"),
        (Act::MakeDir, "top/a/new"),
        (Act::MakeLink("file"), "top/a/new"),
        (Act::Write(0, b"new"), "top/a/file"),
        // What is looked at by way of the link is not the child of the one above it.
        (Act::MakeFile, "top/a/empty/new"),
    ] {
        is_refused(&rt, rt, act, names);
    }
}

#[test]
fn nothing_is_read_in_another_directory(rt: HostRuntime) {
    let room = exposed_room(&rt, rt);
    let mut disk = looked_at(&rt, rt, &room, "top/a/empty");
    let mut reader = disk.reader(rt.alloc()).expect(&rt, "memory");
    reads_nothing(&rt, &mut reader, &room);
    for names in ["top/a/empty", "top/a"] {
        lists(&rt, &mut reader, &room, names, Err(ListError::Failed));
    }
    same(&rt, &reader.faults(), &4);
    disk.take_reader(reader);
    room.remove().expect(&rt, "an empty room");
}

// A file and a link, whose bytes and text are refused.
fn reads_nothing(
    rt: &(impl Abort + AllocGlobal),
    reader: &mut RealReader<HostRuntime>,
    room: &Room,
) {
    let file = room.at("top/a/file").expect(rt, "a path");
    let told = reader.read(&file, 0, &mut [0; 5]);
    same(rt, &told, &Err(ReadError::Failed));
    let link = room.at("top/a/link").expect(rt, "a path");
    let told = reader.read_link(rt.alloc(), &link).err();
    same(rt, &told, &Some(LinkError::Failed));
}

// All is done as before in a directory that was looked at and has moved, where its path still leads to it.
#[test]
fn the_same_directory_is_written(rt: HostRuntime) {
    let room = exposed_room(&rt, rt);
    let mut disk = looked_at(&rt, rt, &room, "top");
    let own = room.at("top/a").expect(&rt, "a path");
    fs::remove_file(&rt, own.text()).expect(&rt, "no link");
    symlink(&rt, "aside", own.text()).expect(&rt, "a link");
    are_done(&rt, &mut disk, &room);
    so(&rt, room.holds("top/aside/new/file", b"new"), "the file");
    so(&rt, room.holds("top/aside/to_new/file", b"new"), "the link");
    room.remove().expect(&rt, "an empty room");
}

// Stops the test where one of these calls fails.
fn are_done(rt: &(impl Abort + AllocGlobal), disk: &mut WholeDisk, room: &Room) {
    for (act, names) in [
        (Act::MakeDir, "top/a/new"),
        (Act::MakeFile, "top/a/new/file"),
        (Act::Write(0, b"new"), "top/a/new/file"),
        (Act::RemoveFile, "top/a/file"),
        (Act::RemoveDir, "top/a/empty"),
        (Act::MakeLink("new"), "top/a/to_new"),
    ] {
        let path = room.at(names).expect(rt, "a path");
        let told = disk.act(rt.alloc(), act, &path);
        so(rt, told == Ok(()), names);
    }
    same(rt, &disk.faults(), &0);
}
