//! Files grouped by their contents: how often each is read, files that fail or change between two readings, and many files.
use crate::sheets::{Counting, Sheet, Then};
use files_mem::{Blind, Call, MemGround};
use flat_list::FlatList;
use outside::Ground;
use path_text::Path;
use std::alloc::Global;
use std::process::Abort;
use std::thread::Threads;
use tree_dup::{Groups, find_groups};

// The list file of `/g`: `a`, `b` and `c` are of one size, `d` of another, and `e` and `f` are empty.
const WORKED: &str = "mfu list 2
d 0 86400 ok 0 0 /g
f 3 86400 ok 0 0 /g/a
f 3 86400 ok 0 0 /g/b
f 3 86400 ok 0 0 /g/c
f 4 86400 ok 0 0 /g/d
f 0 86400 ok 0 0 /g/e
f 0 86400 ok 0 0 /g/f
end 7
";

// SHA-256 of `abc`.
const ABC: [u8; 32] = [
    0xba, 0x78, 0x16, 0xbf, 0x8f, 0x01, 0xcf, 0xea, 0x41, 0x41, 0x40, 0xde, 0x5d, 0xae, 0x22, 0x23,
    0xb0, 0x03, 0x61, 0xa3, 0x96, 0x17, 0x7a, 0x9c, 0xb4, 0x10, 0xff, 0x61, 0xf2, 0x00, 0x15, 0xad,
];

// A reader of `/g`, where `a`, `b` and `c` have these bytes.
fn reader(a: &'static [u8], b: &'static [u8], c: &'static [u8]) -> Counting {
    Counting::of([
        Sheet::of("/g/a", a),
        Sheet::of("/g/b", b),
        Sheet::of("/g/c", c),
        Sheet::of("/g/d", b"four"),
        Sheet::of("/g/e", b""),
        Sheet::of("/g/f", b""),
    ])
}

// The files of the list, grouped by one reader.
fn grouped_by_one<R: Abort + Threads + Sync>(rt: &R, alloc: Global, reader: Counting) -> Groups {
    let list = FlatList::decode(alloc, WORKED.as_bytes()).expect(rt, "a list");
    let mut readers = vec![in alloc; reader].expect(rt, "memory");
    find_groups(rt, alloc, &list, &mut readers, 1).expect(rt, "memory")
}

// Stops the test if the paths are others.
fn same_paths(rt: &impl Abort, told: &[Path], want: &[&str]) {
    assert_eq!(rt; told.len(), want.len());
    for (path, text) in told.iter().zip(want) {
        assert!(rt; path.text() == *text, "{path:?}");
    }
}

// Stops the test if these pairs are not the paths of the groups.
fn same_groups(rt: &impl Abort, found: &Groups, want: &[[&'static str; 2]]) {
    assert_eq!(rt; found.len(), want.len());
    for (k, paths) in want.iter().enumerate() {
        if k < found.len() {
            same_paths(rt, &found.group(k).paths, paths.as_slice());
        }
    }
}

#[test]
fn a_group_has_its_size_and_digest(rt: HostRuntime) {
    let alloc = rt.alloc();
    let found = grouped_by_one(&rt, alloc, reader(b"abc", b"abd", b"abc"));
    same_groups(&rt, &found, &[["/g/a", "/g/c"], ["/g/e", "/g/f"]]);
    if found.len() > 0 {
        assert_eq!(rt; found.group(0).size, 3);
        assert!(rt; found.group(0).digest == ABC);
    }
    same_paths(&rt, found.failed(), &[]);
    same_paths(&rt, found.changed(), &[]);
}

// Stops the test if a file was read from its front more often than so.
fn read_at_most(rt: &impl Abort, readers: &[Counting], most: [u64; 6]) {
    for (place, most) in most.into_iter().enumerate() {
        let mut times = 0u64;
        for reader in readers {
            times = times.saturating_add(reader.times(place));
        }
        assert!(rt; times <= most, "{place} {times}");
    }
}

// A file whose size no other shares is not read, nor is an empty one. A file that shares its size is read once for its hash, and
// once more if another one has that hash too.
#[test]
fn files_are_read_twice_at_most(rt: HostRuntime) {
    let alloc = rt.alloc();
    let list = FlatList::decode(alloc, WORKED.as_bytes()).expect(&rt, "a list");
    let mut one = vec![in alloc; reader(b"abc", b"abd", b"abc")].expect(&rt, "memory");
    let found = find_groups(&rt, alloc, &list, &mut one, 1).expect(&rt, "memory");
    same_groups(&rt, &found, &[["/g/a", "/g/c"], ["/g/e", "/g/f"]]);
    read_at_most(&rt, &one, [2, 1, 2, 0, 0, 0]);
    let mut four = vec![in alloc;
        reader(b"abc", b"abd", b"abc"),
        reader(b"abc", b"abd", b"abc"),
        reader(b"abc", b"abd", b"abc"),
        reader(b"abc", b"abd", b"abc"),
    ]
    .expect(&rt, "memory");
    let found = find_groups(&rt, alloc, &list, &mut four, 4).expect(&rt, "memory");
    same_groups(&rt, &found, &[["/g/a", "/g/c"], ["/g/e", "/g/f"]]);
    read_at_most(&rt, &four, [2, 1, 2, 0, 0, 0]);
}

// One of three equal files is read in this way when it is read again. Stops the test if they come to other groups than these two,
// or the run names another file.
fn same_parts<R: Abort + Threads + Sync>(
    rt: &R,
    alloc: Global,
    name: &'static str,
    then: Then,
    left: [&'static str; 2],
) {
    let files = reader(b"abc", b"abc", b"abc").then(name, then);
    let found = grouped_by_one(rt, alloc, files);
    same_groups(rt, &found, &[left, ["/g/e", "/g/f"]]);
    let named = [name];
    match then {
        Then::IsSame | Then::IsOther => {
            same_paths(rt, found.failed(), &[]);
            same_paths(rt, found.changed(), &[]);
        }
        Then::IsShort | Then::IsGone => {
            same_paths(rt, found.failed(), &[]);
            same_paths(rt, found.changed(), &named);
        }
        Then::Fails => {
            same_paths(rt, found.failed(), &named);
            same_paths(rt, found.changed(), &[]);
        }
    }
}

// The others stay together, be it the first of them or another.
#[test]
fn a_file_that_is_read_otherwise_the_second_time_leaves_the_others(rt: HostRuntime) {
    let alloc = rt.alloc();
    for then in [Then::IsOther, Then::IsShort, Then::IsGone, Then::Fails] {
        same_parts(&rt, alloc, "/g/a", then, ["/g/b", "/g/c"]);
        same_parts(&rt, alloc, "/g/b", then, ["/g/a", "/g/c"]);
        same_parts(&rt, alloc, "/g/c", then, ["/g/a", "/g/b"]);
    }
}

// A file with more bytes than its size in the list is grouped by so many bytes, and one with fewer has changed.
#[test]
fn a_file_that_is_shorter_than_listed_has_changed(rt: HostRuntime) {
    let alloc = rt.alloc();
    let found = grouped_by_one(&rt, alloc, reader(b"ab", b"abcd", b"abc"));
    same_groups(&rt, &found, &[["/g/b", "/g/c"], ["/g/e", "/g/f"]]);
    same_paths(&rt, found.failed(), &[]);
    same_paths(&rt, found.changed(), &["/g/a"]);
    let found = grouped_by_one(&rt, alloc, reader(b"", b"ab", b"abc"));
    same_groups(&rt, &found, &[["/g/e", "/g/f"]]);
    same_paths(&rt, found.changed(), &["/g/a", "/g/b"]);
}

// 600 files of three bytes: the numbers below 300, each twice.
fn many(rt: &impl Abort, alloc: Global) -> MemGround {
    let mut files = MemGround::empty(alloc).expect(rt, "memory");
    files
        .put_dir(&Path::parse(alloc, "/g").expect(rt, "a path"), 0, None)
        .expect(rt, "memory");
    for at in 0..600u64 {
        let path = format!(in alloc; "/g/{at:03}").expect(rt, "memory");
        let text = format!(in alloc; "{:03}", at % 300).expect(rt, "memory");
        files
            .put_file(
                &Path::parse(alloc, &path).expect(rt, "a path"),
                text.as_bytes(),
                None,
            )
            .expect(rt, "an entry");
    }
    files
}

// The list file of these files.
fn many_listed(rt: &impl Abort, alloc: Global) -> String {
    let mut text = String::from_str(alloc, "mfu list 2\nd 0 - ok 0 0 /g\n").expect(rt, "memory");
    for at in 0..600u64 {
        text.push_str(&format!(in alloc; "f 3 - ok 0 0 /g/{at:03}\n").expect(rt, "memory"))
            .expect(rt, "memory");
    }
    text.push_str("end 601\n").expect(rt, "memory");
    text
}

// Stops the test if these are not the groups of the files but for one pair.
fn are_pairs(rt: &impl Abort, alloc: Global, found: &Groups, missed: u64) {
    assert_eq!(rt; found.len(), 299);
    let mut numbers = (0..300u64).filter(|at| *at != missed);
    for k in 0..found.len() {
        let Some(at) = numbers.next() else {
            return;
        };
        let one = format!(in alloc; "/g/{at:03}").expect(rt, "memory");
        let other = format!(in alloc; "/g/{}", at.saturating_add(300)).expect(rt, "memory");
        same_paths(rt, &found.group(k).paths, &[&one, &other]);
    }
}

// The groups are the same for any number of readers, in the order of their first paths.
#[test]
fn many_files_of_one_size_are_grouped(rt: HostRuntime) {
    let alloc = rt.alloc();
    let text = many_listed(&rt, alloc);
    let list = FlatList::decode(alloc, text.as_bytes()).expect(&rt, "a list");
    let mut files = many(&rt, alloc);
    files
        .plan(
            Call::Read,
            &Path::parse(alloc, "/g/417").expect(&rt, "a path"),
        )
        .expect(&rt, "memory");
    let mut files = Blind::make(files);
    let mut one = vec![in alloc; files.reader(alloc).expect(&rt, "memory")].expect(&rt, "memory");
    let found = find_groups(&rt, alloc, &list, &mut one, 1).expect(&rt, "memory");
    are_pairs(&rt, alloc, &found, 117);
    same_paths(&rt, found.failed(), &["/g/417"]);
    let mut four = vec![in alloc;
        files.reader(alloc).expect(&rt, "memory"),
        files.reader(alloc).expect(&rt, "memory"),
        files.reader(alloc).expect(&rt, "memory"),
        files.reader(alloc).expect(&rt, "memory"),
    ]
    .expect(&rt, "memory");
    let found = find_groups(&rt, alloc, &list, &mut four, 4).expect(&rt, "memory");
    are_pairs(&rt, alloc, &found, 117);
    same_paths(&rt, found.failed(), &["/g/417"]);
}
