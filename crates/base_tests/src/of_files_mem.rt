//! Trees that are put, read, written and planned to fail.
use crate::shared::{filled, parsed, same, so};
use crate::whole::{Whole, holds, linked, listed, lists, told};
use files_mem::{Call, MemGround, PutError};
use outside::{
    Failed, Ground, Kind, LinkError, LinkText, ListError, LoadError, SaveError, Stat, Tree, Wide,
    WriteError, load,
};
use std::process::Abort;

const TIME: Option<u64> = Some(86400);

// `/t` with the file `a`, the directory `b`, the file `b-x`, and the empty file `c` in `b`.
pub fn tree_t(rt: &(impl Abort + AllocGlobal)) -> Whole<MemGround> {
    let mut files = Whole::empty(rt);
    for (kind, at, bytes) in [
        (Kind::Dir, "/t", ""),
        (Kind::File, "/t/a", "hello"),
        (Kind::Dir, "/t/b", ""),
        (Kind::File, "/t/b/c", ""),
        (Kind::File, "/t/b-x", "x"),
    ] {
        files
            .put(rt.alloc(), kind, &parsed(rt, at), 0, bytes)
            .expect(rt, "a free place");
    }
    files
}

// The same tree, in which calls at paths are planned to fail.
fn planned(rt: &(impl Abort + AllocGlobal), calls: &[(Call, &str)]) -> Whole<MemGround> {
    let mut files = tree_t(rt);
    for (call, at) in calls {
        files.plan(*call, &parsed(rt, at)).expect(rt, "room");
    }
    files
}

#[test]
fn tells_what_was_put(rt: HostRuntime) {
    let mut files = tree_t(&rt);
    for (kind, at) in [(Kind::Link, "/l"), (Kind::Other, "/o")] {
        let put = files.put(rt.alloc(), kind, &parsed(&rt, at), 0, "t");
        same(&rt, &put, &Ok(()));
    }
    let mut reader = files.reader(&rt);
    for (at, kind, size, mtime) in [
        ("/", Kind::Dir, 0, None),
        ("/t", Kind::Dir, 0, TIME),
        ("/t/a", Kind::File, 5, TIME),
        ("/t/b", Kind::Dir, 0, TIME),
        ("/t/b/c", Kind::File, 0, TIME),
        ("/t/b-x", Kind::File, 1, TIME),
        ("/l", Kind::Link, 0, TIME),
        ("/o", Kind::Other, 0, TIME),
    ] {
        let want = Ok(Some(Stat { kind, size, mtime }));
        same(&rt, &told(&rt, &mut reader, at), &want);
    }
    same(&rt, &told(&rt, &mut reader, "/none"), &Ok(None));
}

#[test]
fn lists_the_children_alone(rt: HostRuntime) {
    let mut files = tree_t(&rt);
    let put = files.put(rt.alloc(), Kind::Dir, &parsed(&rt, "/w"), 3, "");
    same(&rt, &put, &Ok(()));
    let mut reader = files.reader(&rt);
    for (at, names, far) in [
        ("/", "t w ", 0),
        ("/t", "a b b-x ", 0),
        ("/t/b", "c ", 0),
        ("/w", "", 3),
    ] {
        so(&rt, lists(&rt, &mut reader, at, (names, 0, far)), at);
    }
}

#[test]
fn puts_each_node_once_and_in_a_directory(rt: HostRuntime) {
    let mut files = tree_t(&rt);
    for (kind, at, refused) in [
        (Kind::Dir, "/x/y", PutError::NoParent),
        (Kind::File, "/t/a/z", PutError::NoParent),
        (Kind::Dir, "/", PutError::Exists),
        (Kind::File, "/t/a", PutError::Exists),
        (Kind::Link, "/t", PutError::Exists),
        (Kind::Other, "/t/b/c", PutError::Exists),
    ] {
        let put = files.put(rt.alloc(), kind, &parsed(&rt, at), 0, "t");
        same(&rt, &put, &Err(refused));
    }
}

#[test]
fn fails_each_time_where_that_is_planned(rt: HostRuntime) {
    let mut files = planned(&rt, &[(Call::Stat, "/t"), (Call::List, "/t/a")]);
    let mut reader = files.reader(&rt);
    for faults in [1, 2] {
        same(&rt, &told(&rt, &mut reader, "/t"), &Err(Failed));
        same(&rt, &reader.faults(), &faults);
    }
    let refused = listed(&rt, &mut reader, "/t/a").err();
    same(&rt, &refused, &Some(ListError::Failed));
    same(&rt, &reader.faults(), &3);
    files.take_reader(reader);
    same(&rt, &files.faults(), &3);
}

#[test]
fn tells_of_a_name_that_is_no_text_where_that_is_planned(rt: HostRuntime) {
    let mut files = planned(&rt, &[(Call::Name, "/t/b")]);
    let mut reader = files.reader(&rt);
    so(&rt, lists(&rt, &mut reader, "/t/b", ("c ", 1, 0)), "/t/b");
    same(&rt, &reader.faults(), &1);
    let refused = listed(&rt, &mut reader, "/t/a").err();
    same(&rt, &refused, &Some(ListError::NotDir));
    same(&rt, &reader.faults(), &1);
}

#[test]
fn a_reader_keeps_what_it_was_made_of(rt: HostRuntime) {
    let mut files = tree_t(&rt);
    let mut before = files.reader(&rt);
    let dir = parsed(&rt, "/t/d");
    same(&rt, &files.put(rt.alloc(), Kind::Dir, &dir, 0, ""), &Ok(()));
    files.plan(Call::Stat, &dir).expect(&rt, "room");
    let mut after = files.reader(&rt);
    same(&rt, &told(&rt, &mut before, "/t/d"), &Ok(None));
    same(&rt, &told(&rt, &mut after, "/t/d"), &Err(Failed));
}

#[test]
fn writes_are_refused_by_what_is_there(rt: HostRuntime) {
    let mut files = tree_t(&rt);
    let put = files.put(rt.alloc(), Kind::Dir, &parsed(&rt, "/w"), 1, "");
    same(&rt, &put, &Ok(()));
    for (call, at, refused) in [
        (Call::MakeDir, "/t", WriteError::Exists),
        (Call::MakeFile, "/t/a/z", WriteError::NoParent),
        (Call::Write, "/t/b", WriteError::WrongKind),
        (Call::RemoveFile, "/zz", WriteError::Absent),
        (Call::RemoveDir, "/t", WriteError::NotEmpty),
        (Call::RemoveDir, "/w", WriteError::NotEmpty),
    ] {
        let told = files.write(rt.alloc(), call, &parsed(&rt, at), b"b");
        same(&rt, &told, &Err(refused));
    }
    same(&rt, &files.faults(), &0);
}

#[test]
fn writes_do_what_they_say_and_readers_keep_theirs(rt: HostRuntime) {
    let mut files = tree_t(&rt);
    let mut before = files.reader(&rt);
    for (call, at, bytes, held) in [
        (Call::MakeDir, "/t/d", b"".as_slice(), None),
        (Call::MakeFile, "/t/d/f", b"", Some(b"".as_slice())),
        (Call::Write, "/t/d/f", b"abc", Some(b"abc")),
        (Call::Write, "/t/d/f", b"vwxyz", Some(b"vwxyz")),
        (Call::Write, "/t/d/f", b"-", Some(b"-wxyz")),
        (Call::RemoveFile, "/t/d/f", b"", None),
        (Call::RemoveDir, "/t/d", b"", None),
    ] {
        let done = files.write(rt.alloc(), call, &parsed(&rt, at), bytes);
        same(&rt, &done, &Ok(()));
        so(&rt, holds(&rt, &mut files, "/t/d/f", held), at);
    }
    let mut after = files.reader(&rt);
    same(&rt, &told(&rt, &mut after, "/t/d"), &Ok(None));
    same(&rt, &told(&rt, &mut before, "/t/d"), &Ok(None));
    let mut three = [0; 3];
    let n = before.read(&parsed(&rt, "/t/a"), 3, &mut three);
    same(&rt, &(n, three), &(Ok(2), *b"lo\0"));
}

#[test]
fn files_are_loaded_and_saved_whole(rt: HostRuntime) {
    let mut files = tree_t(&rt);
    let folder = files.load(rt.alloc(), &parsed(&rt, "/t"));
    same(&rt, &folder.err(), &Some(LoadError::NoFile));
    for at in ["/", "/t/a/z", "/t/b", "/none/x"] {
        let saved = files.save(rt.alloc(), &parsed(&rt, at), b"b");
        same(&rt, &saved, &Err(SaveError::NoPlace));
    }
    let long = filled(&rt, 7, 140_000);
    for (at, bytes) in [("/t/a", b"hi".as_slice()), ("/new", long.as_slice())] {
        let saved = files.save(rt.alloc(), &parsed(&rt, at), bytes);
        same(&rt, &saved, &Ok(()));
        so(&rt, holds(&rt, &mut files, at, Some(bytes)), at);
    }
    same(&rt, &files.faults(), &0);
}

#[test]
fn a_fault_at_each_call_changes_nothing_and_is_counted(rt: HostRuntime) {
    let mut files = tree_t(&rt);
    let a = parsed(&rt, "/t/a");
    for (call, faults) in [
        (Call::MakeDir, 1),
        (Call::MakeFile, 2),
        (Call::Write, 3),
        (Call::RemoveFile, 4),
        (Call::RemoveDir, 5),
    ] {
        files.plan(call, &a).expect(&rt, "room");
        let told = files.write(rt.alloc(), call, &a, b"x");
        same(&rt, &told, &Err(WriteError::Failed));
        same(&rt, &files.faults(), &faults);
    }
    let held = Some(b"hello".as_slice());
    so(&rt, holds(&rt, &mut files, "/t/a", held), "/t/a");
}

#[test]
fn a_fault_within_a_save_is_told(rt: HostRuntime) {
    for call in [Call::Stat, Call::RemoveFile, Call::MakeFile, Call::Write] {
        let mut files = planned(&rt, &[(call, "/t/a")]);
        let saved = files.save(rt.alloc(), &parsed(&rt, "/t/a"), b"bytes");
        same(&rt, &saved, &Err(SaveError::Failed));
        same(&rt, &files.faults(), &1);
    }
}

#[test]
fn a_fault_within_a_load_is_told(rt: HostRuntime) {
    for call in [Call::Stat, Call::Read] {
        let mut reader = planned(&rt, &[(call, "/t/a")]).reader(&rt);
        let loaded = load(rt.alloc(), &mut reader, &parsed(&rt, "/t/a"));
        same(&rt, &loaded.err(), &Some(LoadError::Failed));
        same(&rt, &reader.faults(), &1);
    }
}

// Makes a link, and reads it.
fn link<G: Ground>(rt: &(impl Abort + AllocGlobal), files: &mut Whole<G>) {
    let text = LinkText::parse(rt.alloc(), "a b").expect(rt, "a link's text");
    for (at, want) in [
        ("/t/l", Ok(())),
        ("/t/l", Err(WriteError::Exists)),
        ("/t/a/l", Err(WriteError::NoParent)),
    ] {
        let made = files.make_link(rt.alloc(), &parsed(rt, at), &text);
        same(rt, &made, &want);
    }
    let mut reader = files.reader(rt);
    for (at, want) in [
        ("/t/l", None),
        ("/t/a", Some(LinkError::NotLink)),
        ("/none", Some(LinkError::NotLink)),
    ] {
        same(rt, &linked(rt, &mut reader, at).err(), &want);
    }
    let read = linked(rt, &mut reader, "/t/l").expect(rt, "a link");
    same(rt, &read.text(), &"a b");
}

#[test]
fn links_are_made_and_read(rt: HostRuntime) {
    link(&rt, &mut tree_t(&rt));
    link(&rt, &mut tree_t(&rt).blind());
}

#[test]
fn a_fault_of_a_link_is_counted_where_it_is_planned(rt: HostRuntime) {
    let mut files = planned(&rt, &[(Call::MakeLink, "/t/l"), (Call::ReadLink, "/t/a")]);
    let text = LinkText::parse(rt.alloc(), "a").expect(&rt, "a link's text");
    let made = files.make_link(rt.alloc(), &parsed(&rt, "/t/l"), &text);
    same(&rt, &made, &Err(WriteError::Failed));
    let mut reader = files.reader(&rt);
    let failed = linked(&rt, &mut reader, "/t/a").err();
    same(&rt, &failed, &Some(LinkError::Failed));
    same(&rt, &(files.faults(), reader.faults()), &(1, 1));
}

fn may_move<G: Wide + Send>()
where
    G::Reader: Send,
    G::Span: Send,
{}

#[test]
fn grounds_and_readers_may_move_to_another_thread() {
    may_move::<MemGround>();
}
