//! A walk stops at every number of paths, on one host and on several, and goes on to the whole.
use crate::tests::rows::{AMPLE, do_as_wanted, parsed, run_with};
use memory_runs::WholeFiles;
use mfu_top::Status;
use std::alloc::Global;
use std::process::Abort;
use std::sync::Wait;
use std::thread::Threads;

const EMPTY_C: &str =
    "d            0 /c\nitems 1 dirs 1 files 0 links 0 others 0 bytes 0 failed 0\n";

// A tree of 100 nodes and an empty folder. The name of node k is n and k. Its parent is node (k - 1) / 8, which is a directory.
fn hundred(rt: &impl Abort, alloc: Global) -> WholeFiles {
    let mut files = WholeFiles::empty(alloc).expect(rt, "memory");
    files
        .put_dir(&parsed(rt, alloc, "/c"), 0, None)
        .expect(rt, "memory");
    let root = String::from_str(alloc, "/n0").expect(rt, "memory");
    let mut paths = Vec::new(alloc);
    paths.push(root).expect(rt, "memory");
    for k in 1..100usize {
        let above = paths.get((k - 1) / 8).expect(rt, "a node above");
        let path = format!(in alloc; "{above}/n{k}").expect(rt, "memory");
        paths.push(path).expect(rt, "memory");
    }
    for (k, text) in paths.iter().enumerate() {
        let path = parsed(rt, alloc, text);
        if 8 * k + 1 < 100 {
            files.put_dir(&path, 0, None).expect(rt, "memory");
        } else {
            let mut bytes = Vec::new(alloc);
            for _ in 0..37 * k % 101 {
                bytes.push((k % 256) as u8).expect(rt, "memory");
            }
            files.put_file(&path, &bytes, None).expect(rt, "memory");
        }
    }
    files
}

// Stops the walk, goes on with three ranks if it was cut, and answers whether it was.
fn stop_and_go_on<T: Abort + Threads + Wait + Sync>(
    rt: &T,
    alloc: Global,
    words: &[&str],
    text: &[u8],
) -> bool {
    let mut files = hundred(rt, alloc);
    let told = run_with(rt, alloc, &mut files, words, (AMPLE, AMPLE));
    if told.0 == Status::Stopped {
        assert_eq!(rt; told.1.text(), b"".as_slice(), "{words:?}");
        let again = ["dwalk", "--restart", "--lists", "/c", "--ranks", "3"];
        let whole = run_with(rt, alloc, &mut files, &again, (AMPLE, AMPLE));
        assert_eq!(rt; whole.0, Status::Done, "{words:?}");
        assert_eq!(rt; whole.1.text(), text, "{words:?}");
        return true;
    }
    assert_eq!(rt; told.0, Status::Done, "{words:?}");
    assert_eq!(rt; told.1.text(), text, "{words:?}");
    let empty = (["dwalk", "/c"].as_slice(), Status::Done, EMPTY_C, "");
    do_as_wanted(rt, alloc, &mut files, &[empty]);
    false
}

// The text of the walk without a stop.
fn whole_text<T: Abort + Threads + Wait + Sync>(rt: &T, alloc: Global) -> Vec<u8> {
    let mut files = hundred(rt, alloc);
    let told = run_with(rt, alloc, &mut files, &["dwalk", "/n0"], (AMPLE, AMPLE));
    assert_eq!(rt; told.0, Status::Done);
    let mut text = Vec::new(alloc);
    for byte in told.1.text() {
        text.push(*byte).expect(rt, "memory");
    }
    text
}

// Whether a stop after so many paths cuts the walk by these ranks.
fn is_cut_at<T: Abort + Threads + Wait + Sync>(
    rt: &T,
    alloc: Global,
    most: u64,
    ranks: &str,
    text: &[u8],
) -> bool {
    let number = format!(in alloc; "{most}").expect(rt, "memory");
    let words = [
        "dwalk",
        "--stop-after",
        &number,
        "--lists",
        "/c",
        "--ranks",
        ranks,
        "/n0",
    ];
    stop_and_go_on(rt, alloc, &words, text)
}

#[test]
fn every_stop_goes_on_to_the_whole(rt: HostRuntime) {
    let alloc = rt.alloc();
    let text = whole_text(&rt, alloc);
    for most in 1..=100u64 {
        let was_cut = is_cut_at(&rt, alloc, most, "1", &text);
        assert!(rt; was_cut == (most < 100), "{most}");
        is_cut_at(&rt, alloc, most, "4", &text);
    }
}

#[test]
fn every_stop_on_four_hosts_goes_on_to_the_whole(rt: HostRuntime) {
    let alloc = rt.alloc();
    let text = whole_text(&rt, alloc);
    for seed in 0..20u64 {
        let lot = format!(in alloc; "{seed}").expect(&rt, "memory");
        for step in 0..20u64 {
            let number = format!(in alloc; "{}", 5 * step + seed % 5 + 1).expect(&rt, "memory");
            let words = [
                "dwalk",
                "--stop-after",
                &number,
                "--lists",
                "/c",
                "--ranks",
                "4",
                "--hosts",
                "4",
                "--split",
                "random",
                "--seed",
                &lot,
                "/n0",
            ];
            stop_and_go_on(&rt, alloc, &words, &text);
        }
    }
}

// A walk in many stages, each with another number of ranks and hosts.
#[test]
fn many_stages_come_to_the_whole(rt: HostRuntime) {
    let alloc = rt.alloc();
    let text = whole_text(&rt, alloc);
    let mut files = hundred(&rt, alloc);
    let first = [
        "dwalk",
        "--stop-after",
        "3",
        "--lists",
        "/c",
        "--ranks",
        "2",
        "/n0",
    ];
    let mut told = run_with(&rt, alloc, &mut files, &first, (AMPLE, AMPLE));
    let mut stages = 1u64;
    for stage in 1..100u64 {
        if told.0 != Status::Stopped {
            break;
        }
        let ranks = format!(in alloc; "{}", stage % 5 + 1).expect(&rt, "memory");
        let hosts = format!(in alloc; "{}", stage % 3 + 1).expect(&rt, "memory");
        let next = [
            "dwalk",
            "--restart",
            "--lists",
            "/c",
            "--stop-after",
            "3",
            "--ranks",
            &ranks,
            "--hosts",
            &hosts,
        ];
        told = run_with(&rt, alloc, &mut files, &next, (AMPLE, AMPLE));
        stages = stage + 1;
    }
    assert_eq!(rt; told.0, Status::Done);
    assert_eq!(rt; told.1.text(), text.as_slice());
    assert!(rt; stages > 7);
}

// How many nodes are in the folder of the checkpoint: itself, the list, and a file for each rank.
fn nodes_of_checkpoint<T: Abort + Threads + Wait + Sync>(
    rt: &T,
    alloc: Global,
    files: &mut WholeFiles,
    nodes: u64,
) -> bool {
    let told = run_with(rt, alloc, files, &["dwalk", "/c"], (AMPLE, AMPLE));
    let items = format!(in alloc; "\nitems {nodes} dirs 1 files ").expect(rt, "memory");
    let text = String::from_utf8_lossy(alloc, told.1.text()).expect(rt, "memory");
    told.0 == Status::Done && text.contains(items.as_str())
}

// Each rank leaves a file, up to 64 ranks, and any other number of ranks takes up its strings.
#[test]
fn a_stop_of_many_ranks_goes_on_to_the_whole(rt: HostRuntime) {
    let alloc = rt.alloc();
    let text = whole_text(&rt, alloc);
    for (ranks, nodes, next) in [
        ("8", 10, "64"),
        ("33", 35, "1"),
        ("64", 66, "9"),
        ("64", 66, "64"),
    ] {
        let mut files = hundred(&rt, alloc);
        let stop = [
            "dwalk",
            "--stop-after",
            "1",
            "--lists",
            "/c",
            "--ranks",
            ranks,
            "/n0",
        ];
        let told = run_with(&rt, alloc, &mut files, &stop, (AMPLE, AMPLE));
        assert_eq!(rt; told.0, Status::Stopped, "{ranks}");
        assert!(rt;
            nodes_of_checkpoint(&rt, alloc, &mut files, nodes),
            "{ranks}"
        );
        let go_on = [
            "dwalk",
            "--restart",
            "--lists",
            "/c",
            "--ranks",
            next,
            "--hosts",
            "4",
        ];
        let told = run_with(&rt, alloc, &mut files, &go_on, (AMPLE, AMPLE));
        assert_eq!(rt; told.0, Status::Done, "{ranks}");
        assert_eq!(rt; told.1.text(), text.as_slice(), "{ranks}");
    }
}
