//! Runs at every size: 10,000 nodes, also by ranks in threads, a sink full at any byte, and a list cut at any byte.
use crate::tests::rows::{AMPLE, TIME, parsed, run_with};
use flat_list::FlatList;
use memory_runs::WholeFiles;
use mfu_top::Status;
use std::alloc::Global;
use std::process::Abort;

// 100 directories with 99 files each.
fn ten_thousand(rt: &impl Abort, alloc: Global) -> WholeFiles {
    let mut files = WholeFiles::empty(alloc).expect(rt, "memory");
    for d in 0..100 {
        let dir = format!(in alloc; "/d{d}").expect(rt, "memory");
        files
            .put_dir(&parsed(rt, alloc, &dir), 0, TIME)
            .expect(rt, "memory");
        for k in 0..99 {
            let file = format!(in alloc; "/d{d}/f{k}").expect(rt, "memory");
            files
                .put_file(&parsed(rt, alloc, &file), b"ab", TIME)
                .expect(rt, "memory");
        }
    }
    files
}

#[test]
fn walks_ten_thousand_nodes(rt: HostRuntime) {
    let alloc = rt.alloc();
    let mut files = ten_thousand(&rt, alloc);
    let told = run_with(&rt, alloc, &mut files, &["dwalk", "/"], (AMPLE, AMPLE));
    let summary = b"items 10001 dirs 101 files 9900 links 0 others 0 bytes 19800 failed 0\n";
    assert_eq!(rt; told.0, Status::Done);
    assert!(rt; told.1.text().ends_with(summary));
}

// The number after a word of a line.
fn number_after(line: &str, word: &str) -> Option<u64> {
    let (_, rest) = line.split_once(word)?;
    rest.split(' ').next()?.parse::<u64>().ok()
}

// How many strings were handled, given and taken by the lines of shares, one for each rank.
fn sums_of_shares(text: &str) -> Option<(u64, u64, u64)> {
    let mut sums = (0u64, 0u64, 0u64);
    for line in text.lines() {
        sums.0 = sums.0.saturating_add(number_after(line, " handled ")?);
        sums.1 = sums.1.saturating_add(number_after(line, " given ")?);
        sums.2 = sums.2.saturating_add(number_after(line, " taken ")?);
    }
    Some(sums)
}

// The shares of a single rank in a thread are not known. But together the ranks handle all, and take as many as they give.
#[test]
fn shares_of_threads_come_to_all(rt: HostRuntime) {
    let alloc = rt.alloc();
    let mut files = ten_thousand(&rt, alloc);
    let words = ["dwalk", "--shares", "--ranks", "8", "--hosts", "4", "/"];
    let told = run_with(&rt, alloc, &mut files, &words, (AMPLE, AMPLE));
    assert_eq!(rt; told.0, Status::Done);
    let text = String::from_utf8_lossy(alloc, told.2.text()).expect(&rt, "memory");
    assert_eq!(rt; text.lines().count(), 8);
    let (handled, given, taken) = sums_of_shares(&text).expect(&rt, "a line of shares");
    assert_eq!(rt; handled, 10_001);
    assert_eq!(rt; given, taken);
}

const TREE_T: &str = "d            0 /t
f            5 /t/a
d            0 /t/b
f            0 /t/b/c
f            1 /t/b-x
items 5 dirs 2 files 3 links 0 others 0 bytes 6 failed 0
";

#[test]
fn a_sink_that_is_full_holds_what_it_took(rt: HostRuntime) {
    let alloc = rt.alloc();
    let mut files = WholeFiles::empty(alloc).expect(&rt, "memory");
    for (at, bytes) in [
        ("/t", None),
        ("/t/a", Some(b"hello".as_slice())),
        ("/t/b", None),
        ("/t/b/c", Some(b"")),
        ("/t/b-x", Some(b"x")),
    ] {
        let path = parsed(&rt, alloc, at);
        match bytes {
            Some(bytes) => files.put_file(&path, bytes, TIME).expect(&rt, "memory"),
            None => files.put_dir(&path, 0, TIME).expect(&rt, "memory"),
        }
    }
    let whole = TREE_T.as_bytes();
    for takes in 0..whole.len() {
        let limits = (takes as u64, AMPLE);
        let told = run_with(&rt, alloc, &mut files, &["dwalk", "/t"], limits);
        assert_eq!(rt; told.0, Status::Sink, "{takes}");
        assert_eq!(rt; told.1.text(), &whole[..takes], "{takes}");
        assert_eq!(rt; told.2.text(), b"".as_slice(), "{takes}");
    }
    let limits = (whole.len() as u64, AMPLE);
    let told = run_with(&rt, alloc, &mut files, &["dwalk", "/t"], limits);
    assert_eq!(rt; told.0, Status::Done);
    assert_eq!(rt; told.1.text(), whole);
}

const LIST_T: &str = "mfu list 2
d 0 86400 ok 0 0 /t
f 5 86400 ok 0 0 /t/a
d 0 86400 ok 0 0 /t/b
f 0 86400 ok 0 0 /t/b/c
f 1 86400 ok 0 0 /t/b-x
end 5
";

#[test]
fn names_the_line_at_which_a_list_is_cut(rt: HostRuntime) {
    let alloc = rt.alloc();
    let whole = LIST_T.as_bytes();
    assert_eq!(rt; whole.len(), 129);
    for len in 0..whole.len() {
        let part = &whole[..len];
        assert!(rt; FlatList::decode(alloc, part).is_err(), "{len}");
        let line = part.iter().filter(|byte| **byte == b'\n').count() as u64 + 1;
        let notes = format!(in alloc; "damaged /l line {line}\n").expect(&rt, "memory");
        let mut files = WholeFiles::empty(alloc).expect(&rt, "memory");
        files
            .put_file(&parsed(&rt, alloc, "/l"), part, None)
            .expect(&rt, "memory");
        let words = ["dwalk", "--input", "/l"];
        let told = run_with(&rt, alloc, &mut files, &words, (AMPLE, AMPLE));
        assert_eq!(rt; told.0, Status::Damaged, "{len}");
        assert_eq!(rt; told.1.text(), b"".as_slice(), "{len}");
        assert_eq!(rt; told.2.text(), notes.as_bytes(), "{len}");
    }
}
