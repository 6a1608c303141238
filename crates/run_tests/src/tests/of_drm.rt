//! drm over a wide level, and over each choice of a small tree.
ghost use Rattle.std.specs.Prelude.{◌<◌};

use crate::tests::rows::{AMPLE, TIME, Want, do_as_wanted, parsed, run_with};
use files_mem::Call;
use memory_runs::WholeFiles;
use mfu_top::Status;
use outside::LinkText;
use std::alloc::Global;
use std::process::Abort;
use std::sync::Wait;
use std::thread::Threads;

// One thread does all, or four share the ranks. The work of a level goes to as many actors, each over a part of its own.
const SHARES: [[&str; 4]; 3] = [
    ["--ranks", "1", "--hosts", "1"],
    ["--ranks", "4", "--hosts", "4"],
    ["--ranks", "8", "--hosts", "4"],
];

// So many files are in a directory that several threads work on their level. Each of the four parts has one that can't be removed.
const WIDE: [u32; 4] = [100, 201, 302, 503];

fn wide_tree(rt: &impl Abort, alloc: Global) -> WholeFiles {
    let mut files = WholeFiles::empty(alloc).expect(rt, "memory");
    files
        .put_dir(&parsed(rt, alloc, "/wide"), 0, TIME)
        .expect(rt, "memory");
    for k in 100..700 {
        let path = format!(in alloc; "/wide/f{k}").expect(rt, "memory");
        files
            .put_file(&parsed(rt, alloc, &path), b"", TIME)
            .expect(rt, "memory");
    }
    for k in WIDE {
        let path = format!(in alloc; "/wide/f{k}").expect(rt, "memory");
        files
            .plan(Call::RemoveFile, &parsed(rt, alloc, &path))
            .expect(rt, "memory");
    }
    files
}

// The text that drm must print for it.
fn wide_text(rt: &impl Abort, alloc: Global) -> String {
    let mut text = String::new(alloc);
    text.push_str("d            0 /wide\n").expect(rt, "memory");
    for k in 100..700 {
        text.push_str(&format!(in alloc; "f            0 /wide/f{k}\n").expect(rt, "memory"))
            .expect(rt, "memory");
    }
    text.push_str("removed 596 of 601 failed 5\n")
        .expect(rt, "memory");
    text
}

#[test]
fn each_part_of_a_wide_level_meets_what_is_planned(rt: HostRuntime) {
    let alloc = rt.alloc();
    let out = wide_text(&rt, alloc);
    let notes = "not empty /wide
failed remove /wide/f100
failed remove /wide/f201
failed remove /wide/f302
failed remove /wide/f503
";
    let left = "d            0 /wide
f            0 /wide/f100
f            0 /wide/f201
f            0 /wide/f302
f            0 /wide/f503
items 5 dirs 1 files 4 links 0 others 0 bytes 0 failed 0
";
    for shares in &SHARES {
        let mut files = wide_tree(&rt, alloc);
        let words = ["drm", shares[0], shares[1], shares[2], shares[3], "/wide"];
        let wants: [Want; 2] = [
            (&words, Status::Named, &out, notes),
            (&["dwalk", "/wide"], Status::Done, left, ""),
        ];
        do_as_wanted(&rt, alloc, &mut files, &wants);
        assert_eq!(rt; files.faults(), 4);
    }
}

// The nodes of a small tree in path order: each with its letter and the place of its parent.
const NODES: [(&str, char, usize); 11] = [
    ("/s", 'd', 0),
    ("/s/a", 'f', 0),
    ("/s/b", 'd', 0),
    ("/s/b/c", 'd', 2),
    ("/s/b/c/d", 'f', 3),
    ("/s/b/c/g", 'l', 3),
    ("/s/b/e", 'l', 2),
    ("/s/b-x", 'o', 0),
    ("/s/f", 'd', 0),
    ("/s/f/h", 'f', 8),
    ("/s/f/i", 'd', 8),
];

// The tree in which the nodes whose bits are set have a time: a test of time chooses them.
fn small_tree(rt: &impl Abort, alloc: Global, chosen: u32) -> WholeFiles {
    let mut files = WholeFiles::empty(alloc).expect(rt, "memory");
    let mut bits = chosen;
    for (path, letter, _) in NODES {
        let time = if bits % 2 == 1 { TIME } else { None };
        let path = parsed(rt, alloc, path);
        match letter {
            'd' => files.put_dir(&path, 0, time).expect(rt, "memory"),
            'f' => files.put_file(&path, b"", time).expect(rt, "memory"),
            'l' => files
                .put_link(
                    &path,
                    &LinkText::parse(alloc, "x").expect(rt, "memory"),
                    time,
                )
                .expect(rt, "memory"),
            _ => files.put_other(&path, time).expect(rt, "memory"),
        }
        bits /= 2;
    }
    files
}

// The nodes that are held, since something stays under them. A node stays if it is held or not chosen.
fn held_by(chosen: u32) -> [bool; 11] {
    let mut held = [false; 11];
    for k in (0..11).rev() {
        let stays = held[k] || (chosen >> k) % 2 == 0;
        if stays && k > 0 {
            if let Some(parent) = held.get_mut(NODES[k].2) {
                *parent = true;
            }
        }
    }
    held
}

// The line of a node; a link has the text `x`.
fn line_of(rt: &impl Abort, alloc: Global, k: usize) -> String
    requires { k < 11 }
{
    let (path, letter, _) = NODES[k];
    let target = if letter == 'l' { " -> x" } else { "" };
    format!(in alloc; "{letter}            0 {path}{target}\n").expect(rt, "memory")
}

// The text that drm must print for such a choice, and its notes.
fn wanted_of(rt: &impl Abort, alloc: Global, chosen: u32) -> (String, String) {
    let held = held_by(chosen);
    let mut out = String::new(alloc);
    let mut notes = String::new(alloc);
    let mut all = 0u32;
    let mut stay = 0u32;
    for k in 0..11 {
        if (chosen >> k) % 2 == 1 {
            out.push_str(&line_of(rt, alloc, k)).expect(rt, "memory");
            all = all.saturating_add(1);
            if held[k] {
                notes
                    .push_str(&format!(in alloc; "not empty {}\n", NODES[k].0).expect(rt, "memory"))
                    .expect(rt, "memory");
                stay = stay.saturating_add(1);
            }
        }
    }
    let gone = all.saturating_sub(stay);
    out.push_str(&format!(in alloc; "removed {gone} of {all} failed {stay}\n").expect(rt, "memory"))
        .expect(rt, "memory");
    (out, notes)
}

// Whether the files have just the entries that must be left.
fn is_left(rt: &impl Abort, alloc: Global, listing: &[u8], chosen: u32) -> bool {
    let held = held_by(chosen);
    let mut want = String::new(alloc);
    for k in 0..11 {
        if held[k] || (chosen >> k) % 2 == 0 {
            want.push_str(&line_of(rt, alloc, k)).expect(rt, "memory");
        }
    }
    listing.starts_with(want.as_bytes())
        && listing
            .get(want.len()..)
            .is_some_and(|rest| rest.starts_with(b"items "))
}

#[test]
fn each_choice_of_a_small_tree_goes_as_far_as_it_can(rt: HostRuntime) {
    let alloc = rt.alloc();
    for chosen in 0..2048 {
        let mut files = small_tree(&rt, alloc, chosen);
        let (out, notes) = wanted_of(&rt, alloc, chosen);
        let words = ["drm", "--ranks", "3", "--mtime", "2", "/s"];
        let told = run_with(&rt, alloc, &mut files, &words, (AMPLE, AMPLE));
        assert_eq!(rt; told.1.text(), out.as_bytes(), "{chosen}");
        assert_eq!(rt; told.2.text(), notes.as_bytes(), "{chosen}");
        let left = run_with(&rt, alloc, &mut files, &["dwalk", "/s"], (AMPLE, AMPLE));
        assert!(rt; is_left(&rt, alloc, left.1.text(), chosen), "{chosen}");
    }
}
