//! Walks of files that change. Walks of files that stay are rows of `worked_rows`.
ghost use Rattle.std.specs.Prelude.{◌<◌, length};

use circle_run::{Options, Split};
use files_mem::MemGround;
use flat_list::Mark;
use outside::{Kind, LinkText};
use path_text::Path;
use shifting_files::{Closed, Shifting};
use std::alloc::Global;
use std::process::Abort;
use tree_walk::{WalkReport, Walked, roots_of, walk};

const OPTIONS: Options = Options {
    ranks: 1,
    hosts: 1,
    split: Split::Equal,
    seed: 0,
    width: 2,
    trace: false,
    stop_after: None,
};

// Whether the list has just these paths, each with its mark.
fn has(rt: &impl Abort, report: &WalkReport, entries: &[(&str, Mark)]) {
    assert!(rt; matches!(report.walked, Walked::Whole));
    assert_eq!(rt; report.list.len(), entries.len());
    let mut cursor = report.list.cursor().expect(rt, "memory");
    for (path, mark) in entries {
        assert!(rt; cursor.advance().expect(rt, "memory"));
        assert_eq!(rt; cursor.entry().path.text(), *path);
        assert!(rt; cursor.entry().mark == *mark, "{path}");
    }
}

// Whether the entry of a path in a list has this target.
fn has_target(rt: &impl Abort, report: &WalkReport, place: usize, target: Option<&str>)
    requires { place < length report.now.list }
{
    let entry = report.list.entry(place).expect(rt, "memory");
    match (entry.target, target) {
        (Some(text), Some(told)) => assert_eq!(rt; text.text(), told),
        (None, None) => {}
        _ => assert!(rt; false, "{place}"),
    }
}

// Files with these nodes: directories, links to `b`, and empty files.
fn files_of(rt: &impl Abort, alloc: Global, nodes: &[(&str, Kind)]) -> MemGround {
    let mut files = MemGround::empty(alloc).expect(rt, "memory");
    for (path, kind) in nodes {
        let path = Path::parse(alloc, path).expect(rt, "a path");
        put(rt, alloc, &mut files, &path, *kind);
    }
    files
}

fn put(rt: &impl Abort, alloc: Global, files: &mut MemGround, path: &Path, kind: Kind) {
    let text = LinkText::parse(alloc, "b").expect(rt, "memory");
    let put = match kind {
        Kind::Dir => files.put_dir(path, 0, None),
        Kind::Link => files.put_link(path, &text, None),
        _ => files.put_file(path, b"", None),
    };
    put.expect(rt, "memory");
}

// `/t` with the links `a` and `b`, and the file `c`. A stat answers that `/t/a` is a directory, but it has no names to list. A stat
// answers that `/t/c` is a link, but it has no text to read.
fn tree_that_shifts(rt: &impl Abort, alloc: Global) -> Closed<Shifting> {
    let seen = [
        ("/t", Kind::Dir),
        ("/t/a", Kind::Dir),
        ("/t/b", Kind::Link),
        ("/t/c", Kind::Link),
    ];
    let found = [
        ("/t", Kind::Dir),
        ("/t/a", Kind::Link),
        ("/t/b", Kind::Link),
        ("/t/c", Kind::File),
    ];
    Closed::make(
        alloc,
        files_of(rt, alloc, &seen),
        files_of(rt, alloc, &found),
    )
}

// Any number of ranks asks once for the stat of each path, for the names of each directory, and for the text of each link.
#[test]
fn what_changes_between_two_answers_is_marked(rt: HostRuntime) {
    let alloc = rt.alloc();
    for ranks in 1..4 {
        let mut files = tree_that_shifts(&rt, alloc);
        let options = Options { ranks, ..OPTIONS };
        let start = Path::parse(alloc, "/t").expect(&rt, "a path");
        let starts = vec![in alloc; start].expect(&rt, "memory");
        let starts = roots_of(starts).expect(&rt, "memory");
        let report = walk(&rt, alloc, &mut files, starts, &options).expect(&rt, "memory");
        let found = [
            ("/t", Mark::Fine),
            ("/t/a", Mark::Changed),
            ("/t/b", Mark::Fine),
            ("/t/c", Mark::Changed),
        ];
        has(&rt, &report, &found);
        assert_eq!(rt; report.list.len(), 4);
        has_target(&rt, &report, 2, Some("b"));
        has_target(&rt, &report, 3, None);
        let calls = files.calls();
        assert_eq!(rt; calls.stats, 4);
        assert_eq!(rt; calls.lists, 2);
        assert_eq!(rt; calls.links, 2);
    }
}
