//! The names of a directory are those of the one that was looked at: each test puts something else in its place between a look and the
//! reading of names, or while a directory is opened for that. Every user may write in the directories.
use crate::tests::rooms::{Node, Room};
use crate::tests::shared::{joined, same, so};
use crate::tests::swapping::{Moment, Swapping, Swaps};
use crate::tests::swaps::{are_listed, exposed_room, room_with_modes};
use outside::{ListError, Tree};
use real_disk::RealReader;
use std::process::Abort;
use std::{fs, io};
use whole_disk::{DiskOver, Hooked, WholeDisk};

/// The names in the directory that is looked at.
const OWN: &str = "empty file link ";

// Looks at these, and answers whether each is there.
fn are_seen<R: Tree>(reader: &mut R, room: &Room, all: &[&str]) -> bool {
    for names in all {
        let Ok(path) = room.at(names) else {
            return false;
        };
        if !matches!(reader.stat(&path), Ok(Some(_))) {
            return false;
        }
    }
    true
}

// Moves a directory, and puts something in its place.
fn replace(
    host: HostRuntime,
    room: &Room,
    names: (&str, &str),
    node: Option<Node<'_>>,
) -> io::Result<()> {
    let (own, to) = names;
    fs::rename(&host, room.at(own)?.text(), room.at(to)?.text())?;
    match node {
        Some(node) => room.put(own, node),
        None => Ok(()),
    }
}

/// Stops the test where the names in a directory are not these, or the answer is not this one.
pub fn lists<R: Tree>(
    rt: &(impl Abort + AllocGlobal),
    reader: &mut R,
    room: &Room,
    names: &str,
    want: Result<&str, ListError>,
) {
    let path = room.at(names).expect(rt, "a path");
    let told = reader.list(rt.alloc(), &path);
    match (told, want) {
        (Ok(listing), Ok(names)) => same(rt, &joined(rt, &listing).as_str(), &names),
        (Err(told), Err(want)) => same(rt, &told, &want),
        (told, _) => assert!(rt; false, "{names}: {:?}", told.err()),
    }
}

// Looks at a directory and the one over it, puts something in its place, and lists it: the answer must be this one.
fn lists_after(
    rt: &(impl Abort + AllocGlobal),
    host: HostRuntime,
    names: (&str, &str),
    node: Option<Node<'_>>,
    has_names: bool,
    want: Result<&str, ListError>,
) {
    let room = exposed_room(rt, host);
    let mut disk = DiskOver::over(host.alloc(), still(host, has_names));
    let mut reader = disk.reader(host.alloc()).expect(rt, "memory");
    so(rt, are_seen(&mut reader, &room, &["top", "top/a"]), "looks");
    replace(host, &room, names, node).expect(rt, "another");
    lists(rt, &mut reader, &room, "top/a", want);
    same(rt, &reader.faults(), &faults_of(want));
    disk.take_reader(reader);
    room.remove().expect(rt, "an empty room");
}

// A system in which nothing takes the place of a directory.
fn still(host: HostRuntime, has_names: bool) -> Swapping<'static> {
    let hook = Swaps {
        moment: Moment::Never,
        own: "",
        aside: "",
        out: "",
        has_names,
    };
    Hooked { host, hook }
}

// How many faults a list with this answer counts.
fn faults_of(told: Result<&str, ListError>) -> u64 {
    match told {
        Err(ListError::Failed) => 1,
        _ => 0,
    }
}

#[test]
fn another_directory_or_a_link_is_not_listed(rt: HostRuntime) {
    for node in [
        Node::Link("../out"),
        Node::Link("../out/file"),
        Node::Link("nothing"),
        Node::Link("a"),
        Node::Dir,
    ] {
        for has_names in [true, false] {
            let names = ("top/a", "top/aside");
            let want = Err(ListError::Failed);
            lists_after(&rt, rt, names, Some(node), has_names, want);
        }
    }
}

#[test]
fn a_directory_that_is_gone_is_no_fault(rt: HostRuntime) {
    for node in [None, Some(Node::File(b"text"))] {
        for has_names in [true, false] {
            let names = ("top/a", "top/aside");
            let want = Err(ListError::NotDir);
            lists_after(&rt, rt, names, node, has_names, want);
        }
    }
}

// The directory over it is gone, too. Then the path leads nowhere, and no link is at its end.
#[test]
fn a_directory_below_one_that_is_gone_is_no_fault(rt: HostRuntime) {
    for node in [None, Some(Node::File(b"text")), Some(Node::Link("nothing"))] {
        for has_names in [true, false] {
            let want = Err(ListError::NotDir);
            lists_after(&rt, rt, ("top", "aside"), node, has_names, want);
        }
    }
}

// The path leads to the directory by a link, and the directory is still below the same one. A system that has no names for what is
// open follows no link.
#[test]
fn the_same_directory_is_listed(rt: HostRuntime) {
    for (has_names, want) in [(true, Ok(OWN)), (false, Err(ListError::Failed))] {
        let node = Some(Node::Link("aside"));
        let names = ("top/a", "top/aside");
        lists_after(&rt, rt, names, node, has_names, want);
    }
}

#[test]
fn the_same_directory_below_another_one_is_not_listed(rt: HostRuntime) {
    for has_names in [true, false] {
        let node = Some(Node::Link("../out/moved"));
        let want = Err(ListError::Failed);
        lists_after(&rt, rt, ("top/a", "out/moved"), node, has_names, want);
    }
}

// Also if it was listed before in its place.
#[test]
fn a_listed_directory_below_another_one_is_not_listed(rt: HostRuntime) {
    let room = exposed_room(&rt, rt);
    let mut reader = listed_before(&rt, rt, &room);
    let node = Some(Node::Link("../out/moved"));
    replace(rt, &room, ("top/a", "out/moved"), node).expect(&rt, "a link");
    lists(&rt, &mut reader, &room, "top/a", Err(ListError::Failed));
    same(&rt, &reader.faults(), &1);
    room.remove().expect(&rt, "an empty room");
}

// Moves the directory away, and puts another one or a link to it in its place.
fn put_another(rt: &impl Abort, host: HostRuntime, room: &Room, by_link: bool) {
    let names = ("top/a", "top/aside");
    if by_link {
        let node = Some(Node::Link("../out"));
        replace(host, room, names, node).expect(rt, "a link");
    } else {
        replace(host, room, names, None).expect(rt, "aside");
        replace(host, room, ("out", "top/a"), None).expect(rt, "another");
    }
}

// Stops the test where the child of another directory is listed.
fn child_is_not_listed(rt: &(impl Abort + AllocGlobal), host: HostRuntime, by_link: bool) {
    let room = exposed_room(rt, host);
    let mut reader = listed_before(rt, host, &room);
    put_another(rt, host, &room, by_link);
    let seen = are_seen(&mut reader, &room, &["top/a/empty"]);
    so(rt, seen, "a look");
    let want = Err(ListError::Failed);
    lists(rt, &mut reader, &room, "top/a/empty", want);
    same(rt, &reader.faults(), &1);
    room.remove().expect(rt, "an empty room");
}

// The child is the one that was looked at, and its path leads by way of another directory.
#[test]
fn a_child_of_another_directory_is_not_listed(rt: HostRuntime) {
    for by_link in [true, false] {
        child_is_not_listed(&rt, rt, by_link);
    }
}

// A reader that looked at two directories and listed them.
fn listed_before(rt: &impl Abort, host: HostRuntime, room: &Room) -> RealReader<HostRuntime> {
    let mut disk = WholeDisk::make(host);
    let mut reader = disk.reader(host.alloc()).expect(rt, "memory");
    let listed = are_listed(host, &mut reader, room, &["top", "top/a"]);
    so(rt, listed, "looks");
    reader
}

// After a list the files of the directory are read in that very directory, whatever takes its place.
#[test]
fn a_listed_directory_is_read(rt: HostRuntime) {
    let room = exposed_room(&rt, rt);
    let mut reader = listed_before(&rt, rt, &room);
    let node = Some(Node::Link("../out"));
    replace(rt, &room, ("top/a", "top/aside"), node).expect(&rt, "a link");
    let file = room.at("top/a/file").expect(&rt, "a path");
    let mut bytes = [0; 3];
    same(&rt, &reader.read(&file, 0, &mut bytes), &Ok(3));
    same(&rt, &bytes, b"own");
    let link = room.at("top/a/link").expect(&rt, "a path");
    let text = reader.read_link(rt.alloc(), &link).expect(&rt, "a text");
    same(&rt, &text.text(), &"file");
    same(&rt, &reader.faults(), &0);
    room.remove().expect(&rt, "an empty room");
}

// Stops the test where a system that swaps this directory as it is opened tells other names.
fn lists_open(
    rt: &(impl Abort + AllocGlobal),
    room: &Room,
    system: Swapping<'_>,
    want: Result<&str, ListError>,
) {
    let mut disk = DiskOver::over(rt.alloc(), system);
    let mut reader = disk.reader(rt.alloc()).expect(rt, "memory");
    let seen = are_seen(&mut reader, room, &["top", "top/a"]);
    so(rt, seen, "looks");
    lists(rt, &mut reader, room, "top/a", want);
    disk.take_reader(reader);
}

// Swaps the directory as it is opened to read its names, and stops the test where it is listed otherwise.
fn lists_swapped(
    rt: &(impl Abort + AllocGlobal),
    host: HostRuntime,
    has_names: bool,
    want: Result<&str, ListError>,
) {
    let room = exposed_room(rt, host);
    room.put("out/canary", Node::Dir).expect(rt, "a canary");
    let own = room.at("top/a").expect(rt, "a path");
    let aside = room.at("top/aside").expect(rt, "a path");
    let out = room.at("out").expect(rt, "a path");
    let hook = Swaps {
        moment: Moment::Listed,
        own: own.text(),
        aside: aside.text(),
        out: out.text(),
        has_names,
    };
    lists_open(rt, &room, Hooked { host, hook }, want);
    room.remove().expect(rt, "an empty room");
}

// If the system has names for what is open, the names are still its own.
#[test]
fn the_open_directory_is_listed(rt: HostRuntime) {
    lists_swapped(&rt, rt, true, Ok(OWN));
    lists_swapped(&rt, rt, false, Err(ListError::Failed));
}

// Its owner may read its names and not enter it, so the system does not tell the directory over it.
#[test]
fn a_directory_that_may_not_be_entered_is_listed(rt: HostRuntime) {
    let room = room_with_modes(&rt, rt, 0o777, 0o777);
    room.set_mode("top/a", 0o466).expect(&rt, "a mode");
    let mut disk = WholeDisk::make(rt);
    let mut reader = disk.reader(rt.alloc()).expect(&rt, "memory");
    so(
        &rt,
        are_seen(&mut reader, &room, &["top", "top/a"]),
        "looks",
    );
    lists(&rt, &mut reader, &room, "top/a", Ok(OWN));
    same(&rt, &reader.faults(), &0);
    disk.take_reader(reader);
    room.set_mode("top/a", 0o777).expect(&rt, "a mode");
    room.remove().expect(&rt, "an empty room");
}
