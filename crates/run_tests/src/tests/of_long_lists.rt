//! Lists of 10,000 entries, in many pages and runs: saved, read, and put into another order.
use crate::tests::rows::{AMPLE, parsed, run_with};
use memory_runs::WholeFiles;
use mfu_top::Status;
use std::alloc::Global;
use std::process::Abort;

const SUMMARY: &str = "items 10001 dirs 1 files 10000 links 0 others 0 bytes 29994 failed 0\n";

// 10,000 files in a directory, each of fewer than seven bytes.
fn many_files(rt: &impl Abort, alloc: Global) -> WholeFiles {
    let mut files = WholeFiles::empty(alloc).expect(rt, "memory");
    files
        .put_dir(&parsed(rt, alloc, "/t"), 0, None)
        .expect(rt, "memory");
    for k in 0..10_000usize {
        let path = format!(in alloc; "/t/f{k:04}").expect(rt, "memory");
        files
            .put_file(&parsed(rt, alloc, &path), &b"sixsix"[..k % 7], None)
            .expect(rt, "memory");
    }
    files
}

// Adds the lines of the files of this size, in path order.
fn put_lines(rt: &impl Abort, alloc: Global, text: &mut String, size: usize) {
    for k in 0..10_000usize {
        if k % 7 == size {
            text.push_str(&format!(in alloc; "f            {size} /t/f{k:04}\n").expect(
                rt, "memory",
            )).expect(rt, "memory");
        }
    }
}

// The lines printed of them from the greatest size to the least, those of one size in path order.
fn by_size(rt: &impl Abort, alloc: Global) -> String {
    let mut text = String::new(alloc);
    for size in (1..7).rev() {
        put_lines(rt, alloc, &mut text, size);
    }
    text.push_str("d            0 /t\n").expect(rt, "memory");
    put_lines(rt, alloc, &mut text, 0);
    text.push_str(SUMMARY).expect(rt, "memory");
    text
}

#[test]
fn ten_thousand_entries_are_saved_and_read_by_size(rt: HostRuntime) {
    let alloc = rt.alloc();
    let mut files = many_files(&rt, alloc);
    let save = [
        "dwalk", "--ranks", "8", "--hosts", "4", "--output", "/l", "/t",
    ];
    let saved = run_with(&rt, alloc, &mut files, &save, (AMPLE, AMPLE));
    assert_eq!(rt; saved.0, Status::Done);
    assert!(rt; saved.1.text().ends_with(SUMMARY.as_bytes()));
    let words = ["dwalk", "--input", "/l", "--sort", "-size"];
    let read = run_with(&rt, alloc, &mut files, &words, (AMPLE, AMPLE));
    assert_eq!(rt; read.0, Status::Done);
    assert!(rt; read.1.text() == by_size(&rt, alloc).as_bytes());
    let words = ["dwalk", "--input", "/l"];
    let again = run_with(&rt, alloc, &mut files, &words, (AMPLE, AMPLE));
    assert!(rt; again.1.text() == saved.1.text());
}
