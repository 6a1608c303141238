//! Files that tell no tree, whose readers lie, swell files and meet.
use crate::of_files_mem::tree_t;
use crate::shared::{parsed, same, so};
use crate::whole::{holds, listed, lists, told};
use files_mem::{Blind, Call};
use outside::{Failed, Kind, ListError, ReadError, SaveError, Stat, Tree, Wide};

const HELLO: Stat = Stat {
    kind: Kind::File,
    size: 5,
    mtime: Some(86400),
};

const SIX: Stat = Stat {
    kind: Kind::File,
    size: 6,
    mtime: Some(86400),
};

const ONE: Stat = Stat {
    kind: Kind::File,
    size: 1,
    mtime: Some(86400),
};

const LIE: Stat = Stat {
    kind: Kind::Dir,
    size: 0,
    mtime: None,
};

#[test]
fn later_readers_lie_about_one_path(rt: HostRuntime) {
    let mut files = tree_t(&rt).blind();
    let mut before = files.reader(&rt);
    for at in ["/t/a", "/none"] {
        files.lie(&parsed(&rt, at)).expect(&rt, "room");
    }
    let mut after = files.reader(&rt);
    for (at, want) in [("/t/a", LIE), ("/none", LIE), ("/t/b-x", ONE)] {
        same(&rt, &told(&rt, &mut after, at), &Ok(Some(want)));
    }
    same(&rt, &told(&rt, &mut before, "/t/a"), &Ok(Some(HELLO)));
    let refused = listed(&rt, &mut after, "/t/a").err();
    same(&rt, &refused, &Some(ListError::NotDir));
    so(&rt, lists(&rt, &mut after, "/t", ("a b b-x ", 0, 0)), "/t");
    same(&rt, &after.faults(), &0);
}

#[test]
fn later_readers_tell_one_byte_more_of_a_file(rt: HostRuntime) {
    let mut files = tree_t(&rt).blind();
    let mut before = files.reader(&rt);
    for at in ["/t/a", "/t/b", "/none"] {
        files.swell(&parsed(&rt, at)).expect(&rt, "room");
    }
    let mut after = files.reader(&rt);
    same(&rt, &told(&rt, &mut after, "/t/a"), &Ok(Some(SIX)));
    same(&rt, &told(&rt, &mut after, "/t/b-x"), &Ok(Some(ONE)));
    let dir = told(&rt, &mut before, "/t/b");
    same(&rt, &told(&rt, &mut after, "/t/b"), &dir);
    same(&rt, &told(&rt, &mut after, "/none"), &Ok(None));
    same(&rt, &told(&rt, &mut before, "/t/a"), &Ok(Some(HELLO)));
    let mut into = [0; 8];
    let read = after.read(&parsed(&rt, "/t/a"), 0, &mut into);
    same(&rt, &read, &Ok(5));
    same(&rt, &into, b"hello\0\0\0");
    files.lie(&parsed(&rt, "/t/a")).expect(&rt, "room");
    let mut last = files.reader(&rt);
    same(&rt, &told(&rt, &mut last, "/t/a"), &Ok(Some(LIE)));
}

#[test]
fn two_looks_meet_once_both_came(rt: HostRuntime) {
    let mut files = tree_t(&rt).blind();
    let (a, x) = (parsed(&rt, "/t/a"), parsed(&rt, "/t/b-x"));
    files.meet(&a, &x).expect(&rt, "room");
    let mut one = files.reader(&rt);
    let mut other = files.reader(&rt);
    same(&rt, &told(&rt, &mut one, "/t/a"), &Err(Failed));
    same(&rt, &one.faults(), &1);
    same(&rt, &told(&rt, &mut other, "/t/b-x"), &Ok(Some(ONE)));
    same(&rt, &told(&rt, &mut one, "/t/a"), &Ok(Some(HELLO)));
    same(&rt, &(one.faults(), other.faults()), &(1, 0));
    files.take_reader(one);
    same(&rt, &files.faults(), &1);
    files.meet(&a, &x).expect(&rt, "room");
    let mut later = files.reader(&rt);
    same(&rt, &told(&rt, &mut later, "/t/b-x"), &Err(Failed));
    same(&rt, &told(&rt, &mut other, "/t/b-x"), &Ok(Some(ONE)));
}

#[test]
fn every_call_is_passed_on(rt: HostRuntime) {
    let mut files = tree_t(&rt);
    for (call, at) in [
        (Call::Stat, "/t/b"),
        (Call::List, "/t/b"),
        (Call::Read, "/t/b-x"),
        (Call::Write, "/t/b-x"),
    ] {
        files.plan(call, &parsed(&rt, at)).expect(&rt, "room");
    }
    let mut files = files.blind();
    let saved = files.save(rt.alloc(), &parsed(&rt, "/t/a"), b"hi");
    same(&rt, &saved, &Ok(()));
    let held = Some(b"hi".as_slice());
    so(&rt, holds(&rt, &mut files, "/t/a", held), "/t/a");
    let failed = files.save(rt.alloc(), &parsed(&rt, "/t/b-x"), b"y");
    same(&rt, &failed, &Err(SaveError::Failed));
    let mut reader = files.reader(&rt);
    same(&rt, &told(&rt, &mut reader, "/t/b"), &Err(Failed));
    let refused = listed(&rt, &mut reader, "/t/b").err();
    same(&rt, &refused, &Some(ListError::Failed));
    let unread = reader.read(&parsed(&rt, "/t/b-x"), 0, &mut [0; 3]);
    same(&rt, &unread, &Err(ReadError::Failed));
    files.take_reader(reader);
    same(&rt, &files.faults(), &4);
}

fn may_move<G: Wide + Send>()
where
    G::Reader: Send,
    G::Part: Send,
    G::Span: Send,
{}

#[test]
fn all_of_them_may_move_to_another_thread() {
    may_move::<Blind>();
}
