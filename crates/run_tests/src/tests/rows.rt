//! The helpers of the tests of runs: runs with some words, and their expectations.
use memory_runs::WholeFiles;
use mfu_top::Status;
use outside::MemSink;
use path_text::Path;
use std::alloc::Global;
use std::process::Abort;
use std::sync::Wait;
use std::thread::Threads;

pub const TIME: Option<u64> = Some(86400);

pub const NOW: u64 = 259_200;

pub const AMPLE: u64 = 1_000_000;

/// The path that a text is.
pub fn parsed(rt: &impl Abort, alloc: Global, text: &str) -> Path {
    Path::parse(alloc, text).expect(rt, "a path")
}

/// The answer of a run with these words, and the texts in two sinks that take so many bytes.
pub fn run_with<T: Abort + Threads + Wait + Sync>(
    rt: &T,
    alloc: Global,
    files: &mut WholeFiles,
    words: &[&str],
    takes: (u64, u64),
) -> (Status, MemSink, MemSink) {
    let mut given = Vec::new(alloc);
    for word in words {
        given
            .push(String::from_str(alloc, word).expect(rt, "memory"))
            .expect(rt, "memory");
    }
    let mut out = MemSink::limited(alloc, takes.0).expect(rt, "memory");
    let mut notes = MemSink::limited(alloc, takes.1).expect(rt, "memory");
    let status = files.run(rt, alloc, &given, &mut out, &mut notes, NOW);
    (status, out, notes)
}

/// The expectation of a run: its words, its status, and the texts that it writes.
pub type Want<'w> = (&'w [&'w str], Status, &'w str, &'w str);

/// Whether each run meets its expectation, one after the other over the same files.
pub fn do_as_wanted<T: Abort + Threads + Wait + Sync>(
    rt: &T,
    alloc: Global,
    files: &mut WholeFiles,
    wants: &[Want],
) {
    for (words, status, out, notes) in wants {
        let told = run_with(rt, alloc, files, words, (AMPLE, AMPLE));
        assert_eq!(rt; told.0, *status, "{words:?}");
        assert_eq!(rt; told.1.text(), out.as_bytes(), "{words:?}");
        assert_eq!(rt; told.2.text(), notes.as_bytes(), "{words:?}");
    }
}
