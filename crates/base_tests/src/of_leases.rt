//! Parts of files in memory that are out at the same time, and come back in another order than they went.
use crate::leasing::{Lender, Loan};
use crate::shared::{parsed, same, so};
use crate::whole::{Whole, told};
use files_mem::{Call, MemGround};
use outside::{Kind, Tree, WriteError, load};
use std::process::Abort;

// The parts, by their numbers: several tops, a top that is not there yet, a directory that is removed whole, no top, and a file.
const SEVERAL: usize = 0;

const MADE: usize = 1;

const REMOVED: usize = 2;

const EMPTY: usize = 3;

const FILE: usize = 4;

const NONE: usize = 5;

fn tops_of(part: usize) -> &'static [&'static str] {
    match part {
        SEVERAL => &["/t/c", "/t/a"],
        MADE => &["/t/made"],
        REMOVED => &["/t/b"],
        FILE => &["/w"],
        _ => &[],
    }
}

// The calls that write in a part. A call at a name `no` is planned to fail.
fn calls_of(part: usize) -> &'static [(Call, &'static str, &'static str)] {
    match part {
        SEVERAL => &[
            (Call::Write, "/t/a/x", "AX"),
            (Call::MakeDir, "/t/a/no", ""),
            (Call::MakeFile, "/t/a/new", ""),
            (Call::Write, "/t/c", "C"),
        ],
        MADE => &[
            (Call::MakeDir, "/t/made", ""),
            (Call::MakeDir, "/t/made/no", ""),
            (Call::MakeDir, "/t/made/no", ""),
            (Call::MakeFile, "/t/made/m", ""),
            (Call::Write, "/t/made/m", "made"),
        ],
        REMOVED => &[
            (Call::RemoveFile, "/t/b/y", ""),
            (Call::RemoveDir, "/t/b/d", ""),
            (Call::RemoveDir, "/t/b", ""),
        ],
        FILE => &[(Call::RemoveFile, "/w", ""), (Call::MakeDir, "/w", "")],
        _ => &[],
    }
}

// Where the files may be written once the part is back.
fn free_behind(part: usize) -> &'static str {
    match part {
        SEVERAL => "/t/a/again",
        MADE => "/t/made/again",
        REMOVED => "/t/b",
        FILE => "/w/again",
        _ => "/u/again",
    }
}

// A path, its part, and its entry before the lease and after the return: `/` for a directory, the bytes for a file.
type Row = (
    &'static str,
    usize,
    Option<&'static str>,
    Option<&'static str>,
);

const ROWS: [Row; 17] = [
    ("/", NONE, Some("/"), Some("/")),
    ("/t", NONE, Some("/"), Some("/")),
    ("/t/a", SEVERAL, Some("/"), Some("/")),
    ("/t/a/x", SEVERAL, Some("ax"), Some("AX")),
    ("/t/a/no", SEVERAL, None, None),
    ("/t/a/new", SEVERAL, None, Some("")),
    ("/t/a-b", NONE, Some("beside"), Some("beside")),
    ("/t/c", SEVERAL, Some("cc"), Some("Cc")),
    ("/t/made", MADE, None, Some("/")),
    ("/t/made/no", MADE, None, None),
    ("/t/made/m", MADE, None, Some("made")),
    ("/t/b/y", REMOVED, Some("by"), None),
    ("/t/b/d", REMOVED, Some("/"), None),
    ("/t/b", REMOVED, Some("/"), Some("")),
    ("/u", NONE, Some("/"), Some("/")),
    ("/u/v", NONE, Some("uv"), Some("uv")),
    ("/w", FILE, Some("w"), Some("/")),
];

// The files before a lease.
fn tree(rt: &(impl Abort + AllocGlobal)) -> Whole<MemGround> {
    let mut files = Whole::empty(rt);
    for (kind, at, bytes) in [
        (Kind::Dir, "/t", ""),
        (Kind::Dir, "/t/a", ""),
        (Kind::File, "/t/a/x", "ax"),
        (Kind::File, "/t/a-b", "beside"),
        (Kind::Dir, "/t/b", ""),
        (Kind::File, "/t/b/y", "by"),
        (Kind::Dir, "/t/b/d", ""),
        (Kind::File, "/t/c", "cc"),
        (Kind::Dir, "/u", ""),
        (Kind::File, "/u/v", "uv"),
        (Kind::File, "/w", "w"),
    ] {
        let put = files.put(rt.alloc(), kind, &parsed(rt, at), 0, bytes);
        same(rt, &put, &Ok(()));
    }
    for at in ["/t/a/no", "/t/made/no"] {
        let planned = files.plan(Call::MakeDir, &parsed(rt, at));
        planned.expect(rt, "room");
    }
    files
}

// Writes a part. It answers how many calls failed, which the part counts.
fn work(rt: &(impl Abort + AllocGlobal), part: usize, loan: &mut Loan) -> u64 {
    let mut failed: u64 = 0;
    for (call, at, bytes) in calls_of(part) {
        let told = loan.write(rt, *call, at, bytes.as_bytes());
        if at.ends_with("/no") {
            same(rt, &told, &Err(WriteError::Failed));
            failed = failed.saturating_add(1);
        } else {
            same(rt, &told, &Ok(()));
        }
    }
    same(rt, &loan.faults(), &failed);
    failed
}

// Whether the path has this entry: none, a directory if the text is `/`, or else a file with these bytes.
fn stands<R: Tree>(
    rt: &(impl Abort + AllocGlobal),
    reader: &mut R,
    at: &str,
    want: Option<&str>,
) -> bool {
    match told(rt, reader, at) {
        Err(_) => false,
        Ok(None) => want.is_none(),
        Ok(Some(stat)) if stat.kind == Kind::Dir => want == Some("/"),
        Ok(Some(_)) => match load(rt.alloc(), reader, &parsed(rt, at)) {
            Ok(bytes) => want.map(|text| text.as_bytes()) == Some(bytes.as_slice()),
            Err(_) => false,
        },
    }
}

// Readers show nothing of a part that is out. A part that is back left the entries that it wrote, and all else is as before.
fn look(rt: &(impl Abort + AllocGlobal), lender: &mut Lender, lent: &[usize], back: &[usize]) {
    let mut reader = lender.reader(rt);
    for (at, part, before, after) in &ROWS {
        let want = if back.contains(part) {
            *after
        } else if lent.contains(part) {
            None
        } else {
            *before
        };
        so(rt, stands(rt, &mut reader, at, want), at);
    }
}

// Leases these parts, writes each of them and takes them back, each time the part at this place among those still out.
fn lend_and_take_back(rt: &(impl Abort + AllocGlobal), lent: &[usize], places: &[usize]) {
    let mut lender = Lender::of(rt.alloc(), tree(rt));
    let mut loans = Vec::new(rt.alloc());
    let mut back = Vec::new(rt.alloc());
    let mut failed: u64 = 0;
    for part in lent {
        let loan = lender.lend(rt, tops_of(*part));
        loans.push((*part, loan)).expect(rt, "room");
    }
    for (part, loan) in &mut loans {
        failed = failed.saturating_add(work(rt, *part, loan));
    }
    let elsewhere = lender.write(rt, Call::MakeFile, "/u/meanwhile", b"");
    same(rt, &elsewhere, &Ok(()));
    look(rt, &mut lender, lent, &back);
    for place in places {
        assert!(rt; *place < loans.len(), "a part is out there");
        let (part, loan) = loans.remove(*place);
        lender.take_back(rt, loan);
        let written = lender.write(rt, Call::MakeFile, free_behind(part), b"");
        let want = if back.contains(&part) {
            Err(WriteError::Exists)
        } else {
            Ok(())
        };
        same(rt, &written, &want);
        back.push(part).expect(rt, "room");
        look(rt, &mut lender, lent, &back);
    }
    let mut files = lender.whole(rt);
    same(rt, &files.faults(), &failed);
    let mut reader = files.reader(rt);
    so(
        rt,
        stands(rt, &mut reader, "/u/meanwhile", Some("")),
        "/u/meanwhile",
    );
}

#[test]
fn parts_come_back_in_any_order(rt: HostRuntime) {
    for (lent, places) in [
        ([SEVERAL, REMOVED].as_slice(), [0, 0].as_slice()),
        (&[SEVERAL, REMOVED], &[1, 0]),
        (&[MADE, EMPTY], &[0, 0]),
        (&[MADE, EMPTY], &[1, 0]),
        (&[SEVERAL, MADE, REMOVED], &[0, 0, 0]),
        (&[SEVERAL, MADE, REMOVED], &[2, 1, 0]),
        (&[SEVERAL, MADE, REMOVED], &[1, 0, 0]),
        (&[EMPTY, SEVERAL, FILE], &[1, 0, 0]),
        (&[FILE, EMPTY, MADE], &[1, 1, 0]),
        (&[EMPTY, EMPTY, REMOVED], &[1, 1, 0]),
    ] {
        lend_and_take_back(&rt, lent, places);
    }
}
