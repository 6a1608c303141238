//! Checkpoints that no row can have: a directory with a very long path, and no rank at all.
use crate::tests::rows::parsed;
use checkpoints::{first_misplaced, read_checkpoint, write_checkpoint};
use files_mem::MemGround;
use flat_list::FlatList;
use path_text::Path;
use run_report::Stop;
use std::alloc::Global;
use std::process::Abort;

// The entries done: a directory.
const DONE: &str = "mfu list 2\nd 0 - ok 0 0 /t\nend 1\n";

// A directory with a path of so many bytes.
fn long_folder(rt: &impl Abort, alloc: Global, len: usize) -> Path {
    let mut text = String::from_str(alloc, "/").expect(rt, "memory");
    for _ in 1..len {
        text.push('a').expect(rt, "memory");
    }
    parsed(rt, alloc, &text)
}

fn reason(rt: &impl Abort, alloc: Global, stop: &Stop) -> String {
    let text = match stop {
        Stop::ListFile(trouble, path) => format!(in alloc; "{trouble:?} {}", path.text()),
        _ => format!(in alloc; "another reason"),
    };
    text.expect(rt, "memory")
}

// Why no checkpoint is read from this directory.
fn reading(rt: &impl Abort, alloc: Global, dir: &Path) -> String {
    let mut files = MemGround::empty(alloc).expect(rt, "memory");
    match read_checkpoint(alloc, &mut files, dir) {
        Ok(_) => String::new(alloc),
        Err(stop) => reason(rt, alloc, &stop),
    }
}

// Why no checkpoint of one rank without strings is written there.
fn writing(rt: &impl Abort, alloc: Global, dir: &Path) -> String {
    let mut files = MemGround::empty(alloc).expect(rt, "memory");
    let done = FlatList::decode(alloc, DONE.as_bytes()).expect(rt, "a list");
    let mut left = Vec::new(alloc);
    left.push(Vec::new(alloc)).expect(rt, "memory");
    match write_checkpoint(alloc, &mut files, dir, &done, &left) {
        Ok(()) => String::new(alloc),
        Err(stop) => reason(rt, alloc, &stop),
    }
}

// Where the path of the list would be too long, the directory is named.
#[test]
fn a_path_that_would_be_too_long_is_told_by_its_folder(rt: HostRuntime) {
    let alloc = rt.alloc();
    let dir = long_folder(&rt, alloc, 4084);
    let want = format!(in alloc; "Absent {}", dir.text()).expect(&rt, "memory");
    assert_eq!(rt; reading(&rt, alloc, &dir).as_str(), want.as_str());
    let want = format!(in alloc; "NoPlace {}", dir.text()).expect(&rt, "memory");
    assert_eq!(rt; writing(&rt, alloc, &dir).as_str(), want.as_str());
    let dir = long_folder(&rt, alloc, 4083);
    let want = format!(in alloc; "Absent {}/circle.list", dir.text()).expect(&rt, "memory");
    assert_eq!(rt; reading(&rt, alloc, &dir).as_str(), want.as_str());
}

// Left strings that cannot be beside done entries, or beside each other, have rows in `worked_rows`.
#[test]
fn no_string_is_misplaced_where_no_rank_has_one(rt: HostRuntime) {
    let alloc = rt.alloc();
    let done = FlatList::decode(alloc, DONE.as_bytes()).expect(&rt, "a list");
    assert!(rt;
        first_misplaced(alloc, &done, &[])
            .expect(&rt, "memory")
            .is_none()
    );
}
