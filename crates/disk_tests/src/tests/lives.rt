//! The line that shows on a terminal how far a run is.
use crate::tests::rooms::{Node, Room};
use crate::tests::screens::{Hand, Screen};
use crate::tests::shared::{bytes, same, so};
use outside::{Ground, Tree};
use real_disk::{AfterLive, Call, Live, RealGround, Watch, Watched};
use std::fs::Files;
use std::io::{Write, writer};
use std::os::fd::AsRawFd;
use std::os::unix::fs::FileExt;
use std::process::Abort;
use std::random::RandomSource;
use whole_disk::{Act, DiskOver};

// So many bytes are written at a time.
const PIECE: &[u8] = &[7; 65536];

/// The line that these tests show.
type Line<'a> = Live<&'a Hand, &'a Screen>;

// The screen of a room.
fn screen_in(rt: &impl Abort, room: &Room) -> Screen {
    Screen(room.appended("screen").expect(rt, "a screen"))
}

// Looks at the room so often.
fn look<R: Tree>(rt: &impl Abort, reader: &mut R, room: &Room, times: u32) {
    for _ in 0..times {
        so(rt, reader.stat(room.top()).is_ok(), "a look");
    }
}

// Looks at the room at some times, and stops the test where the screen has another text.
fn shows_in_turn<R: Tree>(rt: &impl Abort, reader: &mut R, room: &Room, hand: &Hand) {
    for (time, looks, text) in [
        (499, 1024u32, ""),
        (500, 64, "\rmfu: looked at 1,088 paths"),
        (999, 64, "\rmfu: looked at 1,088 paths"),
        (
            1000,
            64,
            "\rmfu: looked at 1,088 paths\rmfu: looked at 1,216 paths",
        ),
    ] {
        hand.put(time);
        look(rt, reader, room, looks);
        so(rt, room.holds("screen", text.as_bytes()), text);
    }
}

// Does so, and then ends the line. Later looks show nothing.
fn shows_and_ends(
    rt: &(impl Abort + AllocGlobal),
    host: HostRuntime,
    room: &Room,
    hand: &Hand,
    live: &Line<'_>,
) {
    let system = Watched::make(rt.alloc(), host, Some(live), None);
    let mut files = RealGround::make(rt.alloc(), system);
    let mut reader = files.reader(rt.alloc()).expect(rt, "memory");
    shows_in_turn(rt, &mut reader, room, hand);
    hand.put(9000);
    live.end();
    live.end();
    look(rt, &mut reader, room, 256);
    files.take_reader(reader);
}

#[test]
fn a_line_comes_each_half_second_and_is_erased(rt: HostRuntime) {
    let room = Room::with(rt, &[]).expect(&rt, "a room");
    let (hand, screen) = (Hand::with(0), screen_in(&rt, &room));
    let live = Live::make(rt.alloc(), &hand, &screen, "dwalk").expect(&rt, "a line");
    shows_and_ends(&rt, rt, &room, &hand, &live);
    let erased =
        "\rmfu: looked at 1,088 paths\rmfu: looked at 1,216 paths\r                          \r";
    so(&rt, room.holds("screen", erased.as_bytes()), "erased once");
    room.remove().expect(&rt, "an empty room");
}

// Tells a system of calls to the disk.
fn tell_calls<R: Watch>(system: &R) {
    for (call, count) in [
        (Call::Stat, 3),
        (Call::MakeFile, 2),
        (Call::Write, 6_000_000),
        (Call::RemoveFile, 4),
        (Call::RemoveDir, 1_000_001),
        (Call::Open, 7),
        (Call::Read, 4_000_000),
    ] {
        system.did(call, count);
    }
}

// Stops the test where the line of a tool has another text.
fn shows(rt: &impl Abort, host: HostRuntime, tool: &str, text: &str) {
    let room = Room::with(host, &[]).expect(rt, "a room");
    let (hand, screen) = (Hand::with(0), screen_in(rt, &room));
    let live = Live::make(host.alloc(), &hand, &screen, tool).expect(rt, "a line");
    let system = Watched::make(host.alloc(), host, Some(&live), None);
    tell_calls(&system);
    hand.put(500);
    system.did(Call::List, 64);
    so(rt, room.holds("screen", text.as_bytes()), tool);
    room.remove().expect(rt, "an empty room");
}

#[test]
fn a_tool_shows_its_own_numbers(rt: HostRuntime) {
    for (tool, text) in [
        ("dwalk", "\rmfu: looked at 3 paths"),
        ("dcp", "\rmfu: looked at 3 paths, copied 2 files (5 MB)"),
        ("drm", "\rmfu: looked at 3 paths, removed 1,000,005"),
        ("dcmp", "\rmfu: looked at 3 paths, compared 3 files (3 MB)"),
        (
            "dsync",
            "\rmfu: looked at 3 paths, copied 2 files (5 MB), removed 1,000,005",
        ),
        ("ddup", "\rmfu: looked at 3 paths, read 3 MB"),
    ] {
        shows(&rt, rt, tool, text);
    }
}

#[test]
fn readers_beside_each_other_add_up(rt: HostRuntime) {
    let room = Room::with(rt, &[]).expect(&rt, "a room");
    let (hand, screen) = (Hand::with(0), screen_in(&rt, &room));
    let live = Live::make(rt.alloc(), &hand, &screen, "dwalk").expect(&rt, "a line");
    let system = Watched::make(rt.alloc(), rt, Some(&live), None);
    for _ in 0..200u32 {
        system.apart().did(Call::Stat, 1);
    }
    hand.put(700);
    system.did(Call::List, 64);
    let text = b"\rmfu: looked at 200 paths".as_slice();
    so(&rt, room.holds("screen", text), "the sum");
    room.remove().expect(&rt, "an empty room");
}

// Looks at both files of the room, and reads them.
fn read_both<R: Files + RandomSource + Watch + Copy>(
    rt: &(impl Abort + AllocGlobal),
    disk: &mut DiskOver<R>,
    room: &Room,
)
where
    R::File: FileExt + AsRawFd,
{
    let mut reader = disk.reader(rt.alloc()).expect(rt, "memory");
    let mut buffer = bytes(rt, 2_200_000);
    for names in ["big", "file"] {
        let path = room.at(names).expect(rt, "a path");
        so(rt, reader.stat(&path).is_ok(), names);
        let told = reader.read(&path, 0, buffer.as_mut_slice());
        so(rt, told.is_ok(), names);
    }
    disk.take_reader(reader);
}

// Makes, writes and removes. Some of the calls answer no.
fn act_in_turn<R: Files + RandomSource + Watch + Copy>(
    rt: &(impl Abort + AllocGlobal),
    disk: &mut DiskOver<R>,
    room: &Room,
)
where
    R::File: FileExt + AsRawFd,
{
    for (act, names) in [
        (Act::MakeDir, "new"),
        (Act::MakeDir, "new"),
        (Act::MakeFile, "new/file"),
        (Act::MakeFile, "new/file"),
        (Act::Write(0, PIECE), "new/file"),
        (Act::Write(65_536, PIECE), "new/file"),
        (Act::RemoveDir, "new"),
        (Act::RemoveFile, "new/file"),
        (Act::RemoveFile, "new/file"),
        (Act::RemoveDir, "new"),
    ] {
        let path = room.at(names).expect(rt, "a path");
        let _ = disk.act(rt.alloc(), act, &path);
    }
}

// The calls that answer no are not counted.
#[test]
fn calls_to_the_disk_are_counted(rt: HostRuntime) {
    let big = bytes(&rt, 2_200_000);
    let nodes = [("big", Node::File(&big)), ("file", Node::File(b"text"))];
    let room = Room::with(rt, &nodes).expect(&rt, "a room");
    let (hand, screen) = (Hand::with(0), screen_in(&rt, &room));
    let live = Live::make(rt.alloc(), &hand, &screen, "dsync").expect(&rt, "a line");
    let system = Watched::make(rt.alloc(), rt, Some(&live), None);
    let mut disk = DiskOver::over(rt.alloc(), system);
    read_both(&rt, &mut disk, &room);
    act_in_turn(&rt, &mut disk, &room);
    for _ in 0..15u32 {
        system.did(Call::Write, 65_536);
    }
    hand.put(500);
    system.did(Call::List, 64);
    let text = "\rmfu: looked at 2 paths, copied 1 files (1 MB), removed 2";
    so(&rt, room.holds("screen", text.as_bytes()), "the numbers");
    room.remove().expect(&rt, "an empty room");
}

#[test]
fn the_output_follows_the_erased_line(rt: HostRuntime) {
    let room = Room::with(rt, &[]).expect(&rt, "a room");
    let (hand, screen) = (Hand::with(0), screen_in(&rt, &room));
    let live = Live::make(rt.alloc(), &hand, &screen, "dwalk").expect(&rt, "a line");
    let system = Watched::make(rt.alloc(), rt, Some(&live), None);
    hand.put(500);
    system.did(Call::Stat, 64);
    let mut stream = AfterLive::make(Some(&live), writer(&screen));
    for text in [b"one\n".as_slice(), b"two\n".as_slice()] {
        same(&rt, &stream.write(text).ok(), &Some(text.len()));
    }
    let text = "\rmfu: looked at 64 paths\r                       \rone\ntwo\n";
    so(&rt, room.holds("screen", text.as_bytes()), "the text");
    room.remove().expect(&rt, "an empty room");
}
