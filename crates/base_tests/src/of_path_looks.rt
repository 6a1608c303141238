//! Looks at a small tree, and at files that change.
use crate::shared::{all_parsed, parsed, same, so};
use files_mem::{Call, MemGround};
use outside::{Ground, LinkText};
use path_looks::{Seen, look_at_each, looks_without_faults_are_told};
use shifting_files::{Closed, Shifting};
use std::process::Abort;

// `/t` without a time, with the file `a` of 86400, the link `b` of 0 and the file `b-x` of the last second.
fn tree_t(rt: &(impl Abort + AllocGlobal)) -> MemGround {
    let mut files = MemGround::empty(rt.alloc()).expect(rt, "room");
    let top = files.put_dir(&parsed(rt, "/t"), 0, None);
    let a = files.put_file(&parsed(rt, "/t/a"), b"hello", Some(86400));
    let text = LinkText::parse(rt.alloc(), "a").expect(rt, "a link's text");
    let b = files.put_link(&parsed(rt, "/t/b"), &text, Some(0));
    let b_x = files.put_file(&parsed(rt, "/t/b-x"), b"", Some(u64::MAX));
    for put in [top, a, b, b_x] {
        same(rt, &put, &Ok(()));
    }
    files
}

// Looks at the paths, and compares the answers with `told`. It answers how many faults there are then.
fn do_look<G: Ground>(
    rt: &(impl Abort + AllocGlobal),
    files: &mut G,
    texts: &[&str],
    told: &[(&str, Seen)],
) -> u64 {
    let looks = look_at_each(rt.alloc(), files, all_parsed(rt, texts)).expect(rt, "room");
    same(rt, &looks.len(), &told.len());
    for (look, (path, seen)) in looks.iter().zip(told) {
        so(rt, look.path.text() == *path && look.seen == *seen, path);
    }
    files.faults()
}

#[test]
fn looks_tell_times_in_path_order(rt: HostRuntime) {
    let told = [
        ("/", Seen::At(None)),
        ("/t", Seen::At(None)),
        ("/t/a", Seen::At(Some(86400))),
        ("/t/b", Seen::At(Some(0))),
        ("/t/b-x", Seen::At(Some(u64::MAX))),
    ];
    let paths = ["/t/b-x", "/t/b", "/", "/t/a", "/t"];
    same(&rt, &do_look(&rt, &mut tree_t(&rt), &paths, &told), &0);
    looks_without_faults_are_told();
}

// Nothing is under a link, a file or a path that is not there.
#[test]
fn nothing_is_at_a_path_that_is_not_there(rt: HostRuntime) {
    let told = [
        ("/t/a", Seen::At(Some(86400))),
        ("/t/a/c", Seen::Absent),
        ("/t/b/c", Seen::Absent),
        ("/u", Seen::Absent),
        ("/u/c", Seen::Absent),
    ];
    let paths = ["/u", "/t/b/c", "/t/a/c", "/t/a", "/u/c"];
    same(&rt, &do_look(&rt, &mut tree_t(&rt), &paths, &told), &0);
}

// Plans that looks at the path fail.
fn plan(rt: &(impl Abort + AllocGlobal), files: &mut MemGround, path: &str) {
    files.plan(Call::Stat, &parsed(rt, path)).expect(rt, "room");
}

#[test]
fn a_look_that_fails_is_counted_once(rt: HostRuntime) {
    let mut files = tree_t(&rt);
    plan(&rt, &mut files, "/t/a");
    let paths = ["/t/a", "/t", "/t/a", "/t/a", "/t"];
    let told = [("/t", Seen::At(None)), ("/t/a", Seen::Failed)];
    same(&rt, &do_look(&rt, &mut files, &paths, &told), &1);
    // It fails also where nothing is, and adds to the count.
    plan(&rt, &mut files, "/u");
    let told = [("/t/a", Seen::Failed), ("/u", Seen::Failed)];
    same(&rt, &do_look(&rt, &mut files, &["/u", "/t/a"], &told), &3);
}

#[test]
fn no_path_is_no_look(rt: HostRuntime) {
    let mut files = tree_t(&rt);
    plan(&rt, &mut files, "/");
    same(&rt, &do_look(&rt, &mut files, &[], &[]), &0);
}

// Files at `/a`, `/b` and `/c` whose nth stat answers n as the time of last change.
fn restless(rt: &(impl Abort + AllocGlobal)) -> Closed<Shifting> {
    let mut seen = MemGround::empty(rt.alloc()).expect(rt, "room");
    for path in all_parsed(rt, &["/a", "/b", "/c"]) {
        same(rt, &seen.put_file(&path, b"", None), &Ok(()));
    }
    let found = MemGround::empty(rt.alloc()).expect(rt, "room");
    Closed::make(rt.alloc(), seen, found)
}

// A second stat of a path would answer a later time, for it or for the paths after it.
#[test]
fn each_path_is_asked_once(rt: HostRuntime) {
    let mut files = restless(&rt);
    let told = [
        ("/a", Seen::At(Some(1))),
        ("/b", Seen::At(Some(2))),
        ("/c", Seen::At(Some(3))),
    ];
    do_look(&rt, &mut files, &["/b", "/a", "/c", "/a", "/b"], &told);
    same(&rt, &files.calls().stats, &3);
}
