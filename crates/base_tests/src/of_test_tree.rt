//! The made-up tree, as it is made, read and written.
use crate::shared::{filled, parsed, same, so};
use crate::whole::{Whole, holds, listed, lists, told};
use files_mem::Call;
use outside::{Ground, Kind, ListError, ReadError, Stat, Tree, WriteError};
use test_tree::TestGround;

const DIR: Option<Stat> = Some(Stat {
    kind: Kind::Dir,
    size: 0,
    mtime: None,
});

fn file(size: u64) -> Option<Stat> {
    Some(Stat {
        kind: Kind::File,
        size,
        mtime: None,
    })
}

#[test]
fn ten_nodes_are_two_directories_and_eight_files(rt: HostRuntime) {
    let mut reader = Whole::of_nodes(&rt, 10).reader(&rt);
    for (at, want) in [
        ("/", DIR),
        ("/n0", DIR),
        ("/n0/n1", DIR),
        ("/n0/n2", file(74)),
        ("/n0/n3", file(10)),
        ("/n0/n4", file(47)),
        ("/n0/n5", file(84)),
        ("/n0/n6", file(20)),
        ("/n0/n7", file(57)),
        ("/n0/n8", file(94)),
        ("/n0/n1/n9", file(30)),
        ("/n0/n1/n10", None),
        ("/n0/n9", None),
        ("/n1", None),
    ] {
        same(&rt, &told(&rt, &mut reader, at), &Ok(want));
    }
}

#[test]
fn bytes_of_files_tell_their_nodes(rt: HostRuntime) {
    let mut files = Whole::of_nodes(&rt, 10);
    for (at, size, byte) in [("/n0/n2", 74, 2), ("/n0/n1/n9", 30, 9)] {
        let bytes = filled(&rt, byte, size);
        so(&rt, holds(&rt, &mut files, at, Some(bytes.as_slice())), at);
    }
}

#[test]
fn names_are_in_byte_order(rt: HostRuntime) {
    let mut reader = Whole::of_nodes(&rt, 90).reader(&rt);
    for (at, names) in [
        ("/", "n0 "),
        ("/n0", "n1 n2 n3 n4 n5 n6 n7 n8 "),
        ("/n0/n1", "n10 n11 n12 n13 n14 n15 n16 n9 "),
        ("/n0/n1/n11", "n89 "),
    ] {
        so(&rt, lists(&rt, &mut reader, at, (names, 0, 0)), at);
    }
}

#[test]
fn the_smallest_trees(rt: HostRuntime) {
    for (nodes, at, want) in [
        (1, "/n0", file(0)),
        (2, "/n0", DIR),
        (2, "/n0/n1", file(37)),
    ] {
        let mut reader = Whole::of_nodes(&rt, nodes).reader(&rt);
        same(&rt, &told(&rt, &mut reader, at), &Ok(want));
    }
}

#[test]
fn a_reader_refuses_what_is_of_another_kind(rt: HostRuntime) {
    let mut reader = Whole::of_nodes(&rt, 2).reader(&rt);
    let mut four = [0; 4];
    let listing = listed(&rt, &mut reader, "/n0/n1").err();
    same(&rt, &listing, &Some(ListError::NotDir));
    for (at, from, want) in [("/n0", 0, Err(ReadError::NotFile)), ("/n0/n1", 35, Ok(2))] {
        let read = reader.read(&parsed(&rt, at), from, &mut four);
        same(&rt, &read, &want);
    }
    same(&rt, &four, &[1, 1, 0, 0]);
    same(&rt, &reader.faults(), &0);
}

#[test]
fn what_is_written_is_read(rt: HostRuntime) {
    let mut files = Whole::of_nodes(&rt, 2);
    for (call, bytes, held) in [
        (Call::MakeFile, b"".as_slice(), b"".as_slice()),
        (Call::Write, b"abc", b"abc"),
        (Call::Write, b"-", b"-bc"),
    ] {
        let done = files.write(rt.alloc(), call, &parsed(&rt, "/n0/f"), bytes);
        same(&rt, &done, &Ok(()));
        so(&rt, holds(&rt, &mut files, "/n0/f", Some(held)), "/n0/f");
    }
}

#[test]
fn a_reader_keeps_what_it_was_made_of(rt: HostRuntime) {
    let mut files = Whole::of_nodes(&rt, 2);
    let mut reader = files.reader(&rt);
    let done = files.write(rt.alloc(), Call::MakeDir, &parsed(&rt, "/n0/d"), b"");
    same(&rt, &done, &Ok(()));
    same(&rt, &told(&rt, &mut reader, "/n0/d"), &Ok(None));
    files.take_reader(reader);
    same(&rt, &files.faults(), &0);
}

#[test]
fn what_is_removed_is_gone(rt: HostRuntime) {
    let mut files = Whole::of_nodes(&rt, 2);
    for (call, at, want) in [
        (Call::RemoveDir, "/n0", Err(WriteError::NotEmpty)),
        (Call::RemoveFile, "/n0", Err(WriteError::WrongKind)),
        (Call::RemoveFile, "/n0/n1", Ok(())),
        (Call::RemoveDir, "/n0", Ok(())),
        (Call::RemoveDir, "/n0", Err(WriteError::Absent)),
        (Call::MakeFile, "/n0/n1", Err(WriteError::NoParent)),
    ] {
        let done = files.write(rt.alloc(), call, &parsed(&rt, at), b"");
        same(&rt, &done, &want);
    }
}

fn may_move<G: Ground + Send>()
where
    G::Reader: Send,
{}

#[test]
fn grounds_and_readers_may_move_to_another_thread() {
    may_move::<TestGround>();
}
