//! A directory that is made, or found where one should be made, stays that one, also if a link takes its place before it is looked at.
//! Every user may write in the directory over it.
use crate::tests::rooms::{Node, Room};
use crate::tests::shared::{same, so};
use crate::tests::swapping::{Moment, Swapping, Swaps};
use crate::tests::swaps::{are_listed_by, exposed_room, is_as_before};
use outside::WriteError;
use path_text::Path;
use std::fs;
use std::process::Abort;
use whole_disk::{Act, DiskOver, Hooked};

// The files of a system in which these two directories were looked at.
fn looked_over<'a>(
    rt: &(impl Abort + AllocGlobal),
    room: &Room,
    system: Swapping<'a>,
) -> DiskOver<Swapping<'a>> {
    let mut disk = DiskOver::over(rt.alloc(), system);
    let mut reader = disk.reader(rt.alloc()).expect(rt, "memory");
    let listed = are_listed_by(rt.alloc(), &mut reader, room, &["top", "top/a"]);
    so(rt, listed, "looks");
    disk.take_reader(reader);
    disk
}

// Makes a directory in one that was looked at, and then works below it: the answer of the first call must be this one, and each later one
// must fail.
fn is_made_and_used(
    rt: &(impl Abort + AllocGlobal),
    disk: &mut DiskOver<Swapping<'_>>,
    room: &Room,
    names: &str,
    want: Result<(), WriteError>,
) {
    let path = room.at(names).expect(rt, "a path");
    same(rt, &disk.act(rt.alloc(), Act::MakeDir, &path), &want);
    for (act, name) in [
        (Act::MakeFile, "new"),
        (Act::MakeLink("file"), "to_new"),
        (Act::Write(0, b"new"), "file"),
        (Act::RemoveFile, "file"),
        (Act::RemoveDir, "empty"),
    ] {
        let below = path_below(rt, room, names, name);
        let told = disk.act(rt.alloc(), act, &below);
        same(rt, &told, &Err(WriteError::Failed));
    }
}

// The path of a name in a directory of the room.
fn path_below(rt: &(impl Abort + AllocGlobal), room: &Room, names: &str, name: &str) -> Path {
    let text = format!(in rt.alloc(); "{names}/{name}").expect(rt, "memory");
    room.at(text.as_str()).expect(rt, "a path")
}

// Stops the test where something is made, written or removed by way of the link, or the first call has another answer.
fn place_is_not_entered(
    rt: &(impl Abort + AllocGlobal),
    host: HostRuntime,
    names: &str,
    has_names: bool,
    want: Result<(), WriteError>,
) {
    let room = exposed_room(rt, host);
    let aside = room.at("top/aside").expect(rt, "a path");
    let out = room.at("out").expect(rt, "a path");
    let system = made_in(host, aside.text(), out.text(), has_names);
    let mut disk = looked_over(rt, &room, system);
    is_made_and_used(rt, &mut disk, &room, names, want);
    let stands = is_as_before(host, &room).expect(rt, "names");
    so(rt, stands, names);
    room.remove().expect(rt, "an empty room");
}

// A system in which a link takes the place of each directory that is made.
fn made_in<'a>(host: HostRuntime, aside: &'a str, out: &'a str, has_names: bool) -> Swapping<'a> {
    let hook = Swaps {
        moment: Moment::Made,
        own: "",
        aside,
        out,
        has_names,
    };
    Hooked { host, hook }
}

#[test]
fn what_takes_the_place_of_a_directory_is_not_entered(rt: HostRuntime) {
    for (names, has_names, want) in [
        ("top/a/new", true, Err(WriteError::Failed)),
        ("top/a/new", false, Err(WriteError::Failed)),
        ("top/a/empty", true, Err(WriteError::Exists)),
        ("top/a/empty", false, Err(WriteError::Exists)),
    ] {
        place_is_not_entered(&rt, rt, names, has_names, want);
    }
}

// Makes a directory in one that was looked at, puts it back in its place, and stops the test where a file below it is removed.
fn is_not_entered<'a>(
    rt: &(impl Abort + AllocGlobal),
    host: HostRuntime,
    room: &Room,
    aside: &'a str,
    out: &'a str,
) {
    let mut disk = looked_over(rt, room, made_in(host, aside, out, true));
    let new = room.at("top/a/new").expect(rt, "a path");
    let told = disk.act(rt.alloc(), Act::MakeDir, &new);
    same(rt, &told, &Err(WriteError::Failed));
    put_back(rt, host, room, aside, new.text());
    let file = room.at("top/a/new/file").expect(rt, "a path");
    let told = disk.act(rt.alloc(), Act::RemoveFile, &file);
    same(rt, &told, &Err(WriteError::Failed));
    same(rt, &disk.faults(), &2);
}

// Takes the link away, and puts the directory in its place, with a file.
fn put_back(rt: &impl Abort, host: HostRuntime, room: &Room, aside: &str, new: &str) {
    room.take("top/a/new").expect(rt, "no link");
    fs::rename(&host, aside, new).expect(rt, "the directory");
    let file = Node::File(b"own");
    room.put("top/a/new/file", file).expect(rt, "a file");
}

// The same, where the directory is back in its place before anything is done below it.
#[test]
fn a_directory_that_is_back_is_not_entered(rt: HostRuntime) {
    let room = exposed_room(&rt, rt);
    let aside = room.at("top/aside").expect(&rt, "a path");
    let out = room.at("out").expect(&rt, "a path");
    is_not_entered(&rt, rt, &room, aside.text(), out.text());
    so(&rt, room.holds("top/a/new/file", b"own"), "the file");
    room.remove().expect(&rt, "an empty room");
}
