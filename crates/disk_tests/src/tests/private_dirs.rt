//! Private directories are asked by their whole paths, and others are guarded: each test puts a link in the place of a directory
//! between two calls, as only the user and root can in a private one.
use crate::tests::listed_dirs::lists;
use crate::tests::rooms::{Node, Room};
use crate::tests::shared::{same, so};
use crate::tests::swaps::{are_listed, is_as_before, looked_at, room_with_modes, swap};
use outside::{LinkError, ListError, ReadError, Tree, WriteError};
use path_text::MAX_PATH;
use std::os::unix::fs::{MetadataExt, chown};
use std::process::Abort;
use std::{fs, io};
use whole_disk::{Act, WholeDisk};

// A user other than the one who runs the tests.
fn another_than(user: u32) -> u32 {
    if user == 65533 { 65532 } else { 65533 }
}

/// Whether nobody but the user who runs the tests and root can put something else in the place of the room: each directory above it is
/// no link and belongs to the two, and nobody else can write in it, or it is sticky.
pub fn is_kept(host: HostRuntime, room: &Room) -> io::Result<bool> {
    let user = fs::metadata(&host, "/proc/self")?.uid();
    let mut rest = room.top().text();
    for _ in 0..MAX_PATH {
        let Some((above, _)) = rest.rsplit_once('/') else {
            return Ok(true);
        };
        let at = if above.is_empty() { "/" } else { above };
        let data = fs::symlink_metadata(&host, at)?;
        let has_owner = data.uid() == user || data.uid() == 0;
        let keeps_names = data.mode() & 0o022 == 0 || data.mode() & 0o1000 != 0;
        if !data.is_dir() || !has_owner || !keeps_names {
            return Ok(false);
        }
        rest = above;
    }
    Ok(false)
}

// The files of the system, where these were looked at before the swap.
fn swapped(rt: &impl Abort, host: HostRuntime, room: &Room, looks: &[&str]) -> WholeDisk {
    let mut disk = WholeDisk::make(host);
    look_at(rt, host, &mut disk, room, looks);
    swap(host, room).expect(rt, "a link");
    disk
}

// Whether a file that is made in the directory that was looked at is refused, and nothing is made in the other one.
fn is_guarded(host: HostRuntime, room: &Room, disk: &mut WholeDisk) -> io::Result<bool> {
    let before = disk.faults();
    let new = room.at("top/a/new")?;
    let told = disk.act(host.alloc(), Act::MakeFile, &new);
    let refused = told == Err(WriteError::Failed) && disk.faults() == before.saturating_add(1);
    Ok(refused && is_as_before(host, room)?)
}

// Whether a file that is made in the directory that was looked at is made in the one to which the whole path leads.
fn is_by_path(host: HostRuntime, room: &Room, disk: &mut WholeDisk) -> io::Result<bool> {
    let new = room.at("top/a/new")?;
    let told = disk.act(host.alloc(), Act::MakeFile, &new);
    Ok(told == Ok(()) && disk.faults() == 0 && room.holds("out/new", b""))
}

// Whether the directory that was looked at is asked by its whole path, or is guarded if the room is not kept.
fn is_private(host: HostRuntime, room: &Room, disk: &mut WholeDisk) -> io::Result<bool> {
    if is_kept(host, room)? {
        is_by_path(host, room, disk)
    } else {
        is_guarded(host, room, disk)
    }
}

#[test]
fn a_private_directory_is_asked_by_its_whole_path(rt: HostRuntime) {
    let room = room_with_modes(&rt, rt, 0o755, 0o755);
    let mut disk = looked_at(&rt, rt, &room, "top/a/empty");
    if is_kept(rt, &room).expect(&rt, "an answer") {
        reads_the_other(&rt, rt, &room, &mut disk);
    }
    let made = is_private(rt, &room, &mut disk).expect(&rt, "an answer");
    so(&rt, made, "the file");
    room.remove().expect(&rt, "an empty room");
}

// Nothing is compared: two files in a row, a link and a list are those of the other directory.
fn reads_the_other(rt: &impl Abort, host: HostRuntime, room: &Room, disk: &mut WholeDisk) {
    let mut reader = disk.reader(host.alloc()).expect(rt, "memory");
    let mut bytes = [0; 5];
    for names in ["top/a/file", "top/a/link", "top/a/file"] {
        let path = room.at(names).expect(rt, "a path");
        let told = reader.read(&path, 0, &mut bytes);
        let link = reader.read_link(host.alloc(), &path);
        if names == "top/a/link" {
            same(rt, &told, &Err(ReadError::NotFile));
            let text = link.expect(rt, "a text");
            same(rt, &text.text(), &"other");
        } else {
            same(rt, &told, &Ok(5));
            same(rt, &link.err(), &Some(LinkError::NotLink));
        }
    }
    same(rt, &bytes, b"other");
    let listed = are_listed(host, &mut reader, room, &["top/a/empty"]);
    so(rt, listed, "the list");
    same(rt, &reader.faults(), &0);
    disk.take_reader(reader);
}

// Stops the test where something that took the place of a private directory is listed otherwise.
fn lists_what_is_there(
    rt: &(impl Abort + AllocGlobal),
    host: HostRuntime,
    room: &Room,
    node: Node<'_>,
    listed: Result<&str, ListError>,
) {
    let mut disk = WholeDisk::make(host);
    let mut reader = disk.reader(rt.alloc()).expect(rt, "memory");
    let looks = are_listed(host, &mut reader, room, &["top", "top/a"]);
    so(rt, looks, "looks");
    move_away(rt, host, room);
    room.put("top/a", node).expect(rt, "another");
    let kept = is_kept(host, room).expect(rt, "an answer");
    let want = if kept { listed } else { Err(ListError::Failed) };
    lists(rt, &mut reader, room, "top/a", want);
    same(rt, &reader.faults(), &u64::from(!kept));
    disk.take_reader(reader);
}

// Moves the directory that was looked at away.
fn move_away(rt: &impl Abort, host: HostRuntime, room: &Room) {
    let own = room.at("top/a").expect(rt, "a path");
    let aside = room.at("top/aside").expect(rt, "a path");
    fs::rename(&host, own.text(), aside.text()).expect(rt, "aside");
}

// Another directory that took its place is listed, and a link is not followed.
#[test]
fn a_private_directory_is_listed_by_its_whole_path(rt: HostRuntime) {
    for (node, listed) in [
        (Node::Dir, Ok("")),
        (Node::Link("../out"), Err(ListError::NotDir)),
    ] {
        let room = room_with_modes(&rt, rt, 0o755, 0o755);
        lists_what_is_there(&rt, rt, &room, node, listed);
        room.remove().expect(&rt, "an empty room");
    }
}

#[test]
fn a_directory_below_an_exposed_one_is_guarded(rt: HostRuntime) {
    for (top, own) in [
        (0o777, 0o755),
        (0o775, 0o755),
        (0o757, 0o700),
        (0o1777, 0o755),
        (0o755, 0o777),
        (0o755, 0o775),
    ] {
        let room = room_with_modes(&rt, rt, top, own);
        let mut disk = looked_at(&rt, rt, &room, "top");
        let guarded = is_guarded(rt, &room, &mut disk).expect(&rt, "an answer");
        assert!(rt; guarded, "{top:o} {own:o}");
        room.remove().expect(&rt, "an empty room");
    }
}

// The order in which the two are looked at is of no weight.
#[test]
fn a_directory_that_was_looked_at_before_an_exposed_one_is_guarded(rt: HostRuntime) {
    let room = room_with_modes(&rt, rt, 0o777, 0o755);
    let mut disk = swapped(&rt, rt, &room, &["top/a", "top"]);
    let guarded = is_guarded(rt, &room, &mut disk).expect(&rt, "an answer");
    so(&rt, guarded, "guarded");
    room.remove().expect(&rt, "an empty room");
}

// The one above the directory that is looked at is not looked at itself, as that of a path word.
#[test]
fn a_directory_in_one_that_others_may_write_is_guarded(rt: HostRuntime) {
    for (top, keeps) in [
        (0o777, false),
        (0o775, false),
        (0o757, false),
        (0o1777, true),
        (0o755, true),
    ] {
        let room = room_with_modes(&rt, rt, top, 0o755);
        let mut disk = swapped(&rt, rt, &room, &["top/a"]);
        let told = guarded_or_private(rt, &room, &mut disk, !keeps);
        let holds = told.expect(&rt, "an answer");
        assert!(rt; holds, "{top:o}");
        room.remove().expect(&rt, "an empty room");
    }
}

// A link stands in the middle of the path, so nothing is known of where it stands.
#[test]
fn a_directory_by_way_of_a_link_is_guarded(rt: HostRuntime) {
    let room = room_with_modes(&rt, rt, 0o755, 0o755);
    room.put("way", Node::Link("top")).expect(&rt, "a link");
    let mut disk = swapped(&rt, rt, &room, &["way/a"]);
    let new = room.at("way/a/new").expect(&rt, "a path");
    let told = disk.act(rt.alloc(), Act::MakeFile, &new);
    same(&rt, &told, &Err(WriteError::Failed));
    same(&rt, &disk.faults(), &1);
    let stands = is_as_before(rt, &room).expect(&rt, "names");
    so(&rt, stands, "the other directory");
    room.remove().expect(&rt, "an empty room");
}

// Gives these to another user, as only root can.
fn give_away(rt: &impl Abort, host: HostRuntime, room: &Room, user: u32, all: &[&str]) {
    let other = Some(another_than(user));
    for names in all {
        let path = room.at(names).expect(rt, "a path");
        let told = chown(&host, path.text(), other, other);
        so(rt, told.is_ok() == (user == 0), names);
    }
}

// Stops the test where a directory is not guarded if these belong to another user.
fn guards_those_of_another(
    rt: &impl Abort,
    host: HostRuntime,
    user: u32,
    others: &[&str],
    looks: &[&str],
) {
    let room = room_with_modes(rt, host, 0o755, 0o755);
    give_away(rt, host, &room, user, others);
    let mut disk = swapped(rt, host, &room, looks);
    let told = guarded_or_private(host, &room, &mut disk, user == 0);
    so(rt, told.expect(rt, "an answer"), "the directory");
    room.remove().expect(rt, "an empty room");
}

// Whether the directory that was looked at is guarded, or is asked as a private one is.
fn guarded_or_private(
    host: HostRuntime,
    room: &Room,
    disk: &mut WholeDisk,
    guarded: bool,
) -> io::Result<bool> {
    if guarded {
        is_guarded(host, room, disk)
    } else {
        is_private(host, room, disk)
    }
}

// Also where the other user has only the directory above the one that is looked at, which is not looked at itself.
#[test]
fn a_directory_of_another_user_is_guarded(rt: HostRuntime) {
    let user = fs::metadata(&rt, "/proc/self").expect(&rt, "a user").uid();
    let both = ["top", "top/a"];
    guards_those_of_another(&rt, rt, user, &both, &both);
    guards_those_of_another(&rt, rt, user, &["top"], &["top/a"]);
}

// The directory over the one that is looked at is exposed between two looks. It is private again after them, which changes nothing.
#[test]
fn a_directory_that_was_exposed_stays_guarded(rt: HostRuntime) {
    for again in [0o777, 0o755] {
        stays_guarded(&rt, rt, again);
    }
}

fn stays_guarded(rt: &impl Abort, host: HostRuntime, again: u32) {
    let room = room_with_modes(rt, host, 0o755, 0o755);
    let mut disk = WholeDisk::make(host);
    look_at(rt, host, &mut disk, &room, &["top", "top/a", "top/a/empty"]);
    let aside = room.at("top/a/empty/file").expect(rt, "a path");
    let told = disk.act(host.alloc(), Act::MakeFile, &aside);
    same(rt, &told, &Ok(()));
    look_at_modes(rt, host, &mut disk, &room, [0o777, again]);
    let told = disk.act(host.alloc(), Act::RemoveFile, &aside);
    same(rt, &told, &Ok(()));
    swap(host, &room).expect(rt, "a link");
    let guarded = is_guarded(host, &room, &mut disk).expect(rt, "an answer");
    so(rt, guarded, "guarded");
    room.remove().expect(rt, "an empty room");
}

// Looks at these by a reader, which is taken back.
fn look_at(rt: &impl Abort, host: HostRuntime, disk: &mut WholeDisk, room: &Room, looks: &[&str]) {
    let mut reader = disk.reader(host.alloc()).expect(rt, "memory");
    let listed = are_listed(host, &mut reader, room, looks);
    so(rt, listed, "looks");
    disk.take_reader(reader);
}

// The same, by one reader under each of these modes.
fn look_at_modes(
    rt: &impl Abort,
    host: HostRuntime,
    disk: &mut WholeDisk,
    room: &Room,
    modes: [u32; 2],
) {
    let mut reader = disk.reader(host.alloc()).expect(rt, "memory");
    for mode in modes {
        room.set_mode("top", mode).expect(rt, "a mode");
        let listed = are_listed(host, &mut reader, room, &["top"]);
        so(rt, listed, "a look");
    }
    disk.take_reader(reader);
}

// Of two readers one looked before the directory was exposed, and is taken back last.
#[test]
fn a_look_before_hides_no_later_one(rt: HostRuntime) {
    let room = room_with_modes(&rt, rt, 0o755, 0o755);
    let mut disk = WholeDisk::make(rt);
    let mut early = disk.reader(rt.alloc()).expect(&rt, "memory");
    let mut late = disk.reader(rt.alloc()).expect(&rt, "memory");
    let looks = ["top", "top/a"];
    so(&rt, are_listed(rt, &mut early, &room, &looks), "early");
    room.set_mode("top", 0o777).expect(&rt, "a mode");
    so(&rt, are_listed(rt, &mut late, &room, &looks), "late");
    disk.take_reader(late);
    // One that is made meanwhile keeps for good what is known by now.
    let between = disk.reader(rt.alloc()).expect(&rt, "memory");
    disk.take_reader(early);
    disk.take_reader(between);
    swap(rt, &room).expect(&rt, "a link");
    let guarded = is_guarded(rt, &room, &mut disk).expect(&rt, "an answer");
    so(&rt, guarded, "guarded");
    room.remove().expect(&rt, "an empty room");
}
