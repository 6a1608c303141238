//! A sink in memory, a sink that takes little at a time, a listing, and a reader that gives little at a time.
ghost use Rattle.std.specs.Prelude.{OnOk, OnErr};
ghost use Rattle.outside.specs.Count.{RoseBy};

use crate::shared::{parsed, same, same_number};
use outside::{
    Failed, Kind, LinkError, LinkText, LinkTextError, ListError, Listing, LoadError, MemSink,
    ReadError, Sink, Stat, Tree, load, put_all,
};
use path_text::Path;
use std::alloc::Global;
use std::process::Abort;

#[test]
fn a_sink_in_memory_takes_what_it_has_room_for(rt: HostRuntime) {
    let mut sink = MemSink::limited(rt.alloc(), 5).expect(&rt, "room");
    for (bytes, told, text, faults) in [
        (b"abc".as_slice(), Ok(()), b"abc".as_slice(), 0),
        (b"", Ok(()), b"abc", 0),
        (b"defg", Err(Failed), b"abcde", 1),
        (b"", Ok(()), b"abcde", 1),
    ] {
        same(&rt, &put_all(&mut sink, bytes), &told);
        same(&rt, &(sink.text(), sink.faults()), &(text, faults));
    }
    same(&rt, &sink.put(b""), &Ok(0));
}

/// Counts calls and faults, and one of the calls fails.
#[derive(Drop)]
struct Calls {
    made: u64,
    fails_at: u64,
    faults: u64,
}

impl Calls {
    // No call yet.
    fn fail_at(fails_at: u64) -> Calls {
        Calls {
            made: 0,
            fails_at,
            faults: 0,
        }
    }

    // Counts one more call.
    fn next(&mut self) -> Result<(), Failed>
        ensures ok { OnOk result (RoseBy 0 self.old.faults self.new.faults) }
        ensures cause { OnErr result (RoseBy 1 self.old.faults self.new.faults) }
    {
        self.made = self.made.saturating_add(1);
        if self.made == self.fails_at {
            self.faults = self.faults.saturating_add(1);
            return Err(Failed);
        }
        Ok(())
    }
}

/// Takes two bytes at a time, and fails at one of its calls.
#[derive(Drop)]
struct Sip {
    calls: Calls,
    taken: usize,
}

impl Sink for Sip {
    ghost use Rattle.std.specs.Prelude.{None};

    ghost text = { λ s. None };

    ghost count = { λ s. s.calls.faults };

    fn faults(&self) -> u64 {
        self.calls.faults
    }

    fn put(&mut self, bytes: &[u8]) -> Result<usize, Failed> {
        self.calls.next()?;
        let n = bytes.len().min(2);
        self.taken = self.taken.saturating_add(n);
        Ok(n)
    }
}

#[test]
fn all_is_put_in_pieces_up_to_a_fault(rt: HostRuntime) {
    for (fails_at, told, taken, faults) in [
        (0, Ok(()), 7, 0),
        (1, Err(Failed), 0, 1),
        (3, Err(Failed), 4, 1),
        (5, Ok(()), 7, 0),
    ] {
        let mut sink = Sip {
            calls: Calls::fail_at(fails_at),
            taken: 0,
        };
        same(&rt, &put_all(&mut sink, b"sevenbs"), &told);
        same(&rt, &(sink.taken, sink.faults()), &(taken, faults));
    }
}

// A listing of these names, with the two numbers 2 and 3. The first of them is handed over, the others are lent.
fn listing_of(rt: &(impl Abort + AllocGlobal), first: &str, names: &[&str]) -> Listing {
    let mut listing = Listing::make(rt.alloc());
    let first = String::from_str(rt.alloc(), first).expect(rt, "room");
    listing.add(first).expect(rt, "room");
    listing.reserve(names.len(), 8).expect(rt, "room");
    for name in names {
        listing.add_name(name).expect(rt, "room");
    }
    listing.set_rest(2, 3);
    listing
}

#[test]
fn a_listing_gives_its_names_back(rt: HostRuntime) {
    let names = ["b-x", "", "\u{e9}\u{20ac}", "z"];
    let listing = listing_of(&rt, "a", &names);
    same(&rt, &(listing.unnamed(), listing.far()), &(2, 3));
    same_number(&rt, listing.len() as u64, 5);
    same(&rt, &listing.name(0), &"a");
    for (k, name) in names.iter().enumerate() {
        if k + 1 < listing.len() {
            same(&rt, &listing.name(k + 1), name);
        }
    }
}

/// A reader of one file that others change. It answers some size, gives two bytes at a time and fails at one of its calls. From
/// another call on it finds no file.
#[derive(Drop)]
struct Drip {
    calls: Calls,
    told: u64,
    gone_at: u64,
}

impl Tree for Drip {
    ghost use Rattle.std.specs.Prelude.{None};

    ghost tree = { λ d. None };

    ghost count = { λ d. d.calls.faults };

    fn stat(&mut self, _path: &Path) -> Result<Option<Stat>, Failed> {
        Ok(Some(Stat {
            kind: Kind::File,
            size: self.told,
            mtime: None,
        }))
    }

    fn list(&mut self, _alloc: Global, _path: &Path) -> Result<Listing, ListError> {
        Err(ListError::NotDir)
    }

    fn read(&mut self, _path: &Path, at: u64, into: &mut [u8]) -> Result<usize, ReadError> {
        let Ok(()) = self.calls.next() else {
            return Err(ReadError::Failed);
        };
        if self.calls.made >= self.gone_at {
            return Err(ReadError::NotFile);
        }
        let rest: &[u8] = match at {
            0 => b"drops",
            2 => b"ops",
            4 => b"s",
            _ => b"",
        };
        let n = rest.len().min(into.len()).min(2);
        into[..n].copy_from_slice(&rest[..n]);
        Ok(n)
    }

    fn read_link(&mut self, _alloc: Global, _path: &Path) -> Result<LinkText, LinkError> {
        Err(LinkError::NotLink)
    }

    fn faults(&self) -> u64 {
        self.calls.faults
    }
}

// The bytes loaded of a file whose `stat` answers this size, and how many faults there were.
fn loaded(
    rt: &(impl Abort + AllocGlobal),
    told: u64,
    fails_at: u64,
    gone_at: u64,
) -> (Result<Vec<u8>, LoadError>, u64) {
    let mut reader = Drip {
        calls: Calls::fail_at(fails_at),
        told,
        gone_at,
    };
    let loaded = load(rt.alloc(), &mut reader, &parsed(rt, "/f"));
    (loaded, reader.faults())
}

#[test]
fn a_file_that_changes_is_loaded_up_to_its_end(rt: HostRuntime) {
    for (told, fails_at, gone_at, want) in [
        (5, 0, 9, b"drops".as_slice()),
        (9, 0, 9, b"drops"),
        (3, 0, 9, b"dro"),
        (0, 1, 1, b""),
    ] {
        let (loaded, faults) = loaded(&rt, told, fails_at, gone_at);
        let bytes = loaded.expect(&rt, "a file");
        same(&rt, &(bytes.as_slice(), faults), &(want, 0));
    }
}

#[test]
fn a_file_that_changes_is_not_loaded_past_a_fault(rt: HostRuntime) {
    for (fails_at, gone_at, want, count) in [
        (1, 9, LoadError::Failed, 1),
        (3, 9, LoadError::Failed, 1),
        (0, 1, LoadError::NoFile, 0),
        (0, 3, LoadError::NoFile, 0),
    ] {
        let (loaded, faults) = loaded(&rt, 5, fails_at, gone_at);
        same(&rt, &(loaded.err(), faults), &(Some(want), count));
    }
}

// A text of `len` bytes.
fn long(rt: &(impl Abort + AllocGlobal), len: usize) -> String {
    let mut text = String::new(rt.alloc());
    for _ in 0..len {
        text.push('x').expect(rt, "room");
    }
    text
}

#[test]
fn the_text_of_a_link_is_copied_written_and_read(rt: HostRuntime) {
    for (text, written) in [("a b", "a b"), ("a\nb", "a\\x0Ab")] {
        let link = LinkText::parse(rt.alloc(), text).expect(&rt, "a link's text");
        let copy = link.copy().expect(&rt, "room");
        same(&rt, &(copy.text(), copy == link), &(text, true));
        let told = link.escape(rt.alloc()).expect(&rt, "room");
        same(&rt, &told.as_slice(), &written.as_bytes());
        let read = LinkText::unescape(rt.alloc(), written).expect(&rt, "a link's text");
        same(&rt, &read.text(), &text);
    }
}

#[test]
fn texts_that_are_none_of_a_link_are_refused(rt: HostRuntime) {
    for (len, refused) in [
        (0, Some(LinkTextError::Empty)),
        (4095, None),
        (4096, Some(LinkTextError::TooLong)),
    ] {
        let told = LinkText::parse(rt.alloc(), long(&rt, len).as_str());
        same(&rt, &told.err(), &refused);
    }
    let told = LinkText::parse(rt.alloc(), "a\0");
    same(&rt, &told.err(), &Some(LinkTextError::Nul));
    for (written, refused) in [
        ("\\x41", LinkTextError::BadEscape(0)),
        ("", LinkTextError::Empty),
        ("a\\x00", LinkTextError::Nul),
    ] {
        let told = LinkText::unescape(rt.alloc(), written);
        same(&rt, &told.err(), &Some(refused));
    }
}
