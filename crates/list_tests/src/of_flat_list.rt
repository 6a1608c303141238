//! Lists of many entries, and logs that threads put in order. Cut list files are in `run_tests`.
ghost use Rattle.std.specs.Prelude.{◌≤◌};

use flat_list::{Entry, FlatList, Mark};
use outside::{Kind, Stat};
use path_text::Path;
use std::alloc::Global;
use std::process::Abort;
use std::thread::Threads;

// An entry of a kind, with a size and the mark `Fine`.
fn fine(rt: &impl Abort, alloc: Global, path: &str, kind: Kind, size: u64) -> Entry {
    let stat = Stat {
        kind,
        size,
        mtime: Some(86400),
    };
    Entry {
        path: Path::parse(alloc, path).expect(rt, "a path"),
        stat: Some(stat),
        mark: Mark::Fine,
        unnamed: 0,
        far: 0,
        target: None,
    }
}

// A file whose path has its number in four digits.
fn file(rt: &impl Abort, alloc: Global, at: usize) -> Entry {
    let path = format!(in alloc; "/f{:04}", at).expect(rt, "memory");
    fine(rt, alloc, path.as_str(), Kind::File, 1)
}

#[test]
fn begins_each_page_with_a_whole_path(rt: HostRuntime) {
    let alloc = rt.alloc();
    let mut list = FlatList::make(alloc);
    for at in 0..300 {
        list.add(&file(&rt, alloc, at)).expect(&rt, "memory");
    }
    assert_eq!(rt; list.len(), 300);
    if list.len() > 256 {
        let page = list.page(1);
        assert_eq!(rt; page.len(), 53);
        assert!(rt; page.starts_with(b"/f0256"));
        assert!(rt; list.entry(256).expect(&rt, "memory").path == file(&rt, alloc, 256).path);
        assert!(rt; list.place_of(&file(&rt, alloc, 299).path) == Some(299));
    }
}

// A file whose path has its number.
fn numbered(rt: &impl Abort, alloc: Global, at: usize) -> Entry
    requires { at ≤ 20000 }
{
    let path = format!(in alloc; "/t/{}", at + 100_000).expect(rt, "memory");
    fine(rt, alloc, path.as_str(), Kind::File, 1)
}

// The numbers below 20,000, dealt to so many logs from the last number down. The last log has 0 once more.
fn dealt_logs(rt: &impl Abort, alloc: Global, ranks: usize) -> Vec<FlatList>
    requires { 1 ≤ ranks }
{
    let mut logs = Vec::new(alloc);
    for _ in 0..ranks {
        logs.push(FlatList::make(alloc)).expect(rt, "memory");
    }
    for at in (0..20_000).rev() {
        let entry = numbered(rt, alloc, at);
        if let Some(log) = logs.get_mut(at % ranks) {
            log.add(&entry).expect(rt, "memory");
        }
    }
    if let Some(log) = logs.last_mut() {
        log.add(&numbered(rt, alloc, 0)).expect(rt, "memory");
    }
    logs
}

// Whether so many logs become one list in order.
fn come_in_order<R: Threads + Sync + Abort>(rt: &R, alloc: Global, ranks: usize, hosts: u32)
    requires ranks { 1 ≤ ranks }
    requires hosts { 1 ≤ hosts }
{
    let list = FlatList::from_logs(rt, alloc, dealt_logs(rt, alloc, ranks), hosts).expect(
        rt, "memory",
    );
    assert_eq!(rt; list.len(), 20_001);
    let mut cursor = list.cursor().expect(rt, "memory");
    assert!(rt; cursor.advance().expect(rt, "memory"));
    assert!(rt; cursor.entry().path == numbered(rt, alloc, 0).path);
    for at in 0..20_000 {
        assert!(rt; cursor.advance().expect(rt, "memory"));
        assert!(rt; cursor.entry().path == numbered(rt, alloc, at).path);
    }
}

#[test]
fn puts_logs_in_order_in_threads(rt: HostRuntime) {
    let alloc = rt.alloc();
    come_in_order(&rt, alloc, 1, 4);
    come_in_order(&rt, alloc, 2, 1);
    come_in_order(&rt, alloc, 2, 2);
    come_in_order(&rt, alloc, 3, 4);
    come_in_order(&rt, alloc, 7, 3);
    assert!(rt;
        FlatList::from_logs(&rt, alloc, Vec::new(alloc), 4)
            .expect(&rt, "memory")
            .is_empty()
    );
}
