//! dcp over a wide level: in threads, with calls that fail, and with looks that wait for each other.
use crate::tests::rows::{AMPLE, NOW, Want, do_as_wanted, parsed, run_with};
use files_mem::Call;
use memory_runs::{WholeBlind, WholeFiles};
use mfu_top::Status;
use outside::MemSink;
use std::alloc::Global;
use std::process::Abort;
use std::sync::Wait;
use std::thread::Threads;

// So many files are in a directory that several threads work on their level.
fn wide_tree(rt: &impl Abort, alloc: Global) -> WholeFiles {
    let mut files = WholeFiles::empty(alloc).expect(rt, "memory");
    files
        .put_dir(&parsed(rt, alloc, "/d"), 0, None)
        .expect(rt, "memory");
    files
        .put_dir(&parsed(rt, alloc, "/s"), 0, None)
        .expect(rt, "memory");
    for k in 100..400 {
        let path = format!(in alloc; "/s/f{k}").expect(rt, "memory");
        let text = format!(in alloc; "{k}").expect(rt, "memory");
        files
            .put_file(&parsed(rt, alloc, &path), text.as_bytes(), None)
            .expect(rt, "memory");
    }
    files
}

// One thread does all, or four share the ranks. The work of a level goes to as many actors, each over a part of its own.
const SHARES: [[&str; 4]; 3] = [
    ["--ranks", "1", "--hosts", "1"],
    ["--ranks", "4", "--hosts", "4"],
    ["--ranks", "7", "--hosts", "3"],
];

#[test]
fn each_part_of_a_wide_copy_meets_what_is_planned(rt: HostRuntime) {
    let alloc = rt.alloc();
    let notes = "failed copy /s/f100\nfailed copy /s/f200\nfailed copy /s/f300\n";
    let left = "items 298 dirs 1 files 297 links 0 others 0 bytes 891 failed 0\n";
    let rows =
        "rows 301 only_src 3 only_dest 0 common 298 differ_type 0 differ_size 0 differ_content 0 failed 0\n";
    for shares in &SHARES {
        let mut files = wide_tree(&rt, alloc);
        for at in ["/d/s/f100", "/d/s/f200", "/d/s/f300"] {
            files
                .plan(Call::MakeFile, &parsed(&rt, alloc, at))
                .expect(&rt, "memory");
        }
        let [ranks, so_many, hosts, of_them] = *shares;
        let words = ["dcp", ranks, so_many, hosts, of_them, "/s", "/d"];
        let out = "copied 298 items 301 bytes 891 failed 3\n";
        let wants: [Want; 1] = [(&words, Status::Named, out, notes)];
        do_as_wanted(&rt, alloc, &mut files, &wants);
        assert_eq!(rt; files.faults(), 3);
        for (words, end) in [
            (["dwalk", "/d/s"].as_slice(), left),
            (&["dcmp", "/s", "/d/s"], rows),
        ] {
            let told = run_with(&rt, alloc, &mut files, words, (AMPLE, AMPLE));
            assert_eq!(rt; told.0, Status::Done);
            assert!(rt; told.1.text().ends_with(end.as_bytes()), "{words:?}");
        }
    }
}

// Copies the tree, while the looks at two old files, the first two of their level, wait for each other.
fn copy_that_meets<T: Abort + Threads + Wait + Sync>(
    rt: &T,
    alloc: Global,
    hosts: &str,
) -> (Status, MemSink, MemSink) {
    let (one, other) = (
        parsed(rt, alloc, "/d/s/f100"),
        parsed(rt, alloc, "/d/s/f101"),
    );
    let mut files = wide_tree(rt, alloc);
    files
        .put_dir(&parsed(rt, alloc, "/d/s"), 0, None)
        .expect(rt, "memory");
    files.put_file(&one, b"old", None).expect(rt, "memory");
    files.put_file(&other, b"old", None).expect(rt, "memory");
    let mut files = WholeBlind::make(files);
    files.meet(&one, &other).expect(rt, "memory");
    let mut words = Vec::new(alloc);
    for word in ["dcp", "--ranks", "2", "--hosts", hosts, "/s", "/d"] {
        words
            .push(String::from_str(alloc, word).expect(rt, "memory"))
            .expect(rt, "memory");
    }
    let mut out = MemSink::limited(alloc, AMPLE).expect(rt, "memory");
    let mut notes = MemSink::limited(alloc, AMPLE).expect(rt, "memory");
    let status = files.run(rt, alloc, &words, &mut out, &mut notes, NOW);
    (status, out, notes)
}

// Two hosts copy at the same time, so that a look that waits for another is answered; one host cannot.
#[test]
fn two_hosts_copy_at_the_same_time(rt: HostRuntime) {
    let alloc = rt.alloc();
    let (status, out, notes) = copy_that_meets(&rt, alloc, "2");
    assert_eq!(rt; status, Status::Done);
    assert_eq!(rt;
        out.text(),
        b"copied 301 items 301 bytes 900 failed 0\n".as_slice()
    );
    assert_eq!(rt; notes.text(), b"".as_slice());
    let (status, out, notes) = copy_that_meets(&rt, alloc, "1");
    assert_eq!(rt; status, Status::Named);
    assert_eq!(rt;
        out.text(),
        b"copied 300 items 301 bytes 897 failed 1\n".as_slice()
    );
    assert_eq!(rt; notes.text(), b"failed copy /s/f100\n".as_slice());
}
