//! A program for measurements: `memory_walk N [WORD ...]` makes a tree in memory and runs these words over it (default
//! `dwalk /`). The tree has one root with N directories (default 1), and 999 files in each.
//!
//! Standard output has the number of nodes of the tree, the status of the run and the number of bytes that it printed.
//! Standard error has the time to make the tree and the time of the run.
#![tactic(auto)]

use memory_runs::WholeFiles;
use outside::MemSink;
use path_text::Path;
use std::alloc::Global;
use std::rt::Clock;
use std::sync::Wait;
use std::thread::Threads;
use std::time::{Duration, Instant};
use std::{env, io};

const FILES: u32 = 999;

/// A run over a tree in memory.
#[derive(Drop)]
struct Measured {
    nodes: u64,
    status: u8,
    // How many bytes it printed.
    printed: usize,
    made_in: Duration,
    run_in: Duration,
}

fn main(rt: HostRuntime) -> io::Result<()> {
    let alloc = rt.alloc();
    let directories = env::args(&rt)?
        .nth(1)
        .and_then(|word| word.parse::<u32>().ok())
        .unwrap_or(1);
    let mut words = Vec::new(alloc);
    for word in env::args(&rt)?.skip(2) {
        words.push(word)?;
    }
    if words.is_empty() {
        words.push(String::from_str(alloc, "dwalk")?)?;
        words.push(String::from_str(alloc, "/")?)?;
    }
    let Some(run) = measure(&rt, alloc, directories, &words) else {
        return eprintln!(rt; "no memory");
    };
    eprintln!(rt; "made in {:?}", run.made_in)?;
    eprintln!(rt; "run in {:?}", run.run_in)?;
    println!(rt;
        "{} nodes, status {}, {} bytes",
        run.nodes, run.status, run.printed
    )
}

// Makes a tree and runs the words over it; `None` if out of memory. Only the files have to be dropped here, and only at its end.
fn measure<R: Threads + Wait + Sync + Clock>(
    rt: &R,
    alloc: Global,
    directories: u32,
    words: &[String],
) -> Option<Measured> {
    let mut files = WholeFiles::empty(alloc).ok()?;
    run_over(rt, alloc, &mut files, directories, words)
}

fn run_over<R: Threads + Wait + Sync + Clock>(
    rt: &R,
    alloc: Global,
    files: &mut WholeFiles,
    directories: u32,
    words: &[String],
) -> Option<Measured> {
    let start = Instant::now(rt).ok()?;
    let nodes = make_tree(alloc, files, directories)?;
    let made_in = start.elapsed(rt).ok()?;
    let mut out = MemSink::limited(alloc, 1_000_000_000).ok()?;
    let mut notes = MemSink::limited(alloc, 1_000).ok()?;
    let start = Instant::now(rt).ok()?;
    let status = files.run(rt, alloc, words, &mut out, &mut notes, 0);
    let run_in = start.elapsed(rt).ok()?;
    Some(Measured {
        nodes,
        status: status.number(),
        printed: out.text().len(),
        made_in,
        run_in,
    })
}

// Puts the directories and their files, and answers how many nodes the tree then has; `None` if out of memory.
fn make_tree(alloc: Global, files: &mut WholeFiles, directories: u32) -> Option<u64> {
    let mut nodes = 1u64;
    for directory in 0..directories {
        let top = format!(in alloc; "/directory_{directory}").ok()?;
        put_dir(alloc, files, &top)?;
        for file in 0..FILES {
            let name = format!(in alloc; "{top}/a_file_with_some_name_{file}").ok()?;
            put_file(alloc, files, &name)?;
        }
        nodes = nodes.saturating_add(1 + u64::from(FILES));
    }
    Some(nodes)
}

fn put_dir(alloc: Global, files: &mut WholeFiles, path: &str) -> Option<()> {
    let path = Path::parse(alloc, path).ok()?;
    files.put_dir(&path, 0, None).ok()
}

fn put_file(alloc: Global, files: &mut WholeFiles, path: &str) -> Option<()> {
    let path = Path::parse(alloc, path).ok()?;
    files.put_file(&path, b"", None).ok()
}
