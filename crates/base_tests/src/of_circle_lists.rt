//! The files of a checkpoint, written and read. The answers for damaged ones are rows of `worked_rows`.
use crate::shared::{all_parsed, filled, parsed, same, so};
use crate::whole::{Whole, holds};
use circle_lists::ListsError;
use files_mem::{Call, MemGround};
use outside::Kind;
use path_text::Path;
use std::process::Abort;

// Empty files with the folder `/c`.
fn with_folder(rt: &(impl Abort + AllocGlobal)) -> Whole<MemGround> {
    let mut files = Whole::empty(rt);
    files
        .put(rt.alloc(), Kind::Dir, &parsed(rt, "/c"), 0, "")
        .expect(rt, "a folder");
    files
}

// The paths of each list, with a blank after each path and `;` after each list; or why there are none, and at which path.
fn outcome(rt: &(impl Abort + AllocGlobal), answer: Result<Vec<Vec<Path>>, ListsError>) -> String {
    let mut text = String::new(rt.alloc());
    match answer {
        Ok(lists) => put_lists(rt, &mut text, lists.as_slice()),
        Err(error) => text
            .push_str(reason(rt, &error).as_str())
            .expect(rt, "room"),
    }
    text
}

fn put_lists(rt: &(impl Abort + AllocGlobal), text: &mut String, lists: &[Vec<Path>]) {
    for list in lists {
        for path in list.as_slice() {
            text.push_str(path.text()).expect(rt, "room");
            text.push(' ').expect(rt, "room");
        }
        text.push(';').expect(rt, "room");
    }
}

fn reason(rt: &(impl Abort + AllocGlobal), error: &ListsError) -> String {
    let told = match error {
        ListsError::Failed(path) => format!(in rt.alloc(); "failed {}", path.text()),
        ListsError::OutOfMemory => format!(in rt.alloc(); "memory"),
        ListsError::Damaged(path, line) => format!(in rt.alloc(); "damaged {} {line}", path.text()),
        ListsError::NoFile(path) => format!(in rt.alloc(); "no file {}", path.text()),
        ListsError::NoPlace(path) => format!(in rt.alloc(); "no place {}", path.text()),
    };
    told.expect(rt, "room")
}

#[test]
fn what_is_written_is_read(rt: HostRuntime) {
    let mut files = with_folder(&rt);
    let dir = parsed(&rt, "/c");
    let mut left = Vec::new(rt.alloc());
    left.push(all_parsed(&rt, &["/t/b", "/t/a\\b"]))
        .expect(&rt, "room");
    so(
        &rt,
        files.write_lists(rt.alloc(), &dir, left.as_slice()).is_ok(),
        "one rank",
    );
    so(
        &rt,
        holds(
            &rt,
            &mut files,
            "/c/circle0.txt",
            Some(b"circle 1 0 1\n/t/b\n/t/a\\x5Cb\nend 2\n"),
        ),
        "a file",
    );
    let answer = files.read_lists(rt.alloc(), &dir);
    same(&rt, &outcome(&rt, answer).as_str(), &"/t/b /t/a\\b ;");
    left.push(Vec::new(rt.alloc())).expect(&rt, "room");
    so(
        &rt,
        files.write_lists(rt.alloc(), &dir, left.as_slice()).is_ok(),
        "two ranks",
    );
    so(
        &rt,
        holds(
            &rt,
            &mut files,
            "/c/circle0.txt",
            Some(b"circle 1 0 2\n/t/b\n/t/a\\x5Cb\nend 2\n"),
        ),
        "the old file goes",
    );
    so(
        &rt,
        holds(
            &rt,
            &mut files,
            "/c/circle1.txt",
            Some(b"circle 1 1 2\nend 0\n"),
        ),
        "an empty list",
    );
    let answer = files.read_lists(rt.alloc(), &dir);
    same(&rt, &outcome(&rt, answer).as_str(), &"/t/b /t/a\\b ;;");
}

// Why these lists are not written into the folder, if they are not.
fn refusal(
    rt: &(impl Abort + AllocGlobal),
    files: &mut Whole<MemGround>,
    dir: &Path,
    ranks: usize,
) -> String {
    let mut left = Vec::new(rt.alloc());
    for _ in 0..ranks {
        left.push(all_parsed(rt, &["/t"])).expect(rt, "room");
    }
    match files.write_lists(rt.alloc(), dir, left.as_slice()) {
        Ok(()) => String::new(rt.alloc()),
        Err(error) => reason(rt, &error),
    }
}

#[test]
fn a_folder_that_is_absent_is_told(rt: HostRuntime) {
    let mut files = with_folder(&rt);
    let dir = parsed(&rt, "/nodir");
    let answer = files.read_lists(rt.alloc(), &dir);
    same(
        &rt,
        &outcome(&rt, answer).as_str(),
        &"no file /nodir/circle0.txt",
    );
    let told = refusal(&rt, &mut files, &dir, 1);
    same(&rt, &told.as_str(), &"no place /nodir/circle0.txt");
}

#[test]
fn faults_are_told_with_their_file(rt: HostRuntime) {
    let mut files = with_folder(&rt);
    let dir = parsed(&rt, "/c");
    files
        .plan(Call::Write, &parsed(&rt, "/c/circle1.txt"))
        .expect(&rt, "room");
    let told = refusal(&rt, &mut files, &dir, 2);
    same(&rt, &told.as_str(), &"failed /c/circle1.txt");
    files
        .plan(Call::Read, &parsed(&rt, "/c/circle0.txt"))
        .expect(&rt, "room");
    let answer = files.read_lists(rt.alloc(), &dir);
    same(
        &rt,
        &outcome(&rt, answer).as_str(),
        &"failed /c/circle0.txt",
    );
}

// The path of a folder, of `len` bytes.
fn long_path(rt: &(impl Abort + AllocGlobal), len: usize) -> Path {
    let mut bytes = filled(rt, b'a', len);
    if let Some(first) = bytes.first_mut() {
        *first = b'/';
    }
    parsed(rt, str::from_utf8(bytes.as_slice()).expect(rt, "text"))
}

#[test]
fn a_folder_whose_path_is_too_long_is_told(rt: HostRuntime) {
    for (len, ranks, fits) in [(4083, 10, true), (4083, 11, false), (4084, 1, false)] {
        let mut files = with_folder(&rt);
        let dir = long_path(&rt, len);
        files
            .put(rt.alloc(), Kind::Dir, &dir, 0, "")
            .expect(&rt, "a folder");
        let told = refusal(&rt, &mut files, &dir, ranks);
        same(&rt, &told.is_empty(), &fits);
        so(
            &rt,
            fits || told.as_str().strip_prefix("no place ") == Some(dir.text()),
            "the folder has no place",
        );
    }
    let mut files = with_folder(&rt);
    let dir = long_path(&rt, 4084);
    let answer = files.read_lists(rt.alloc(), &dir);
    so(
        &rt,
        outcome(&rt, answer).as_str().strip_prefix("no file ") == Some(dir.text()),
        "the folder has no file",
    );
}
