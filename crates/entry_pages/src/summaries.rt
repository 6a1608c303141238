//! The counts of a list.
ghost use Rattle.std.specs.Prelude.{◌≡◌, ◌+◌, ◌<◌, ◌≤◌, ◌^◌, ◌==◌, ℕ, List, [], length, is_some, if◌then◌else◌};
ghost use Rattle.std.specs.List.{sum_by, count_by};
ghost use Rattle.outside.specs.declared.trees.Kind.TheVariants as kind;
ghost use Rattle.entry_pages.specs.Entries.{is_of, bytes_by, mark_notes, summary_of};
ghost use Rattle.entry_pages.specs.Pack.{unpacked, path_len};

use crate::entries::Mark;
use crate::heads::{Head, Leads};
use outside::{Kind, Stat};

/// The contents of a list: the entries with a stat, by kind, and the failures that its entries name.
#[derive(Clone, Copy, Debug, Drop, PartialEq, Eq)]
pub struct Summary {
    /// The entries with a stat.
    pub items: u64,
    /// The directories.
    pub dirs: u64,
    /// The regular files.
    pub files: u64,
    /// The symbolic links.
    pub links: u64,
    /// All other kinds.
    pub others: u64,
    /// The bytes of the files.
    pub bytes: u128,
    /// The notes of the entries.
    pub failed: u64,
}

// The counts of the entries whose heads these are.
pub(crate) fn summary_of(heads: Leads<'_>, count: usize) -> Summary
    requires first { heads.1 ≡ 0 }
    requires all { count ≡ length heads.0 }
    ensures { (bytes : List ℕ) → result ≡ summary_of (unpacked [] heads.entry.0 bytes) }
{
    let mut leads = heads;
    let mut sum = Summary {
        items: 0,
        dirs: 0,
        files: 0,
        links: 0,
        others: 0,
        bytes: 0,
        failed: 0,
    };
    for _ in 0..count {
        let (head, _text) = leads.next();
        sum.count(head);
        leads.pass();
    }
    sum
}

impl Summary {
    // Counts one entry more.
    fn count(&mut self, head: Head)
        requires items { self.old.items < 2 ^ 63 }
        requires dirs { self.old.dirs < 2 ^ 63 }
        requires files { self.old.files < 2 ^ 63 }
        requires links { self.old.links < 2 ^ 63 }
        requires others { self.old.others < 2 ^ 63 }
        requires bytes { self.old.bytes < 2 ^ 127 }
        requires failed { self.old.failed < 2 ^ 63 }
        ensures items { self.new.items ≡ self.old.items + (if is_some head.stat then 1 else 0) }
        ensures dirs { self.new.dirs ≡ self.old.dirs + (if is_of kind.Dir head.stat then 1 else 0) }
        ensures files { self.new.files ≡ self.old.files + (if is_of kind.File head.stat then 1 else 0) }
        ensures links { self.new.links ≡ self.old.links + (if is_of kind.Link head.stat then 1 else 0) }
        ensures others { self.new.others ≡ self.old.others + (if is_of kind.Other head.stat then 1 else 0) }
        ensures bytes { self.new.bytes ≡ self.old.bytes + bytes_by head.stat }
        ensures failed { self.new.failed ≡ self.old.failed + (mark_notes head.mark + (if head.unnamed == 0 then 0 else 1) + (if head.far == 0 then 0 else 1)) }
        ensures small { self.new.bytes < self.old.bytes + 2 ^ 64 }
        ensures few { self.new.failed ≤ self.old.failed + 3 }
    {
        self.failed += note_count(head);
        self.bytes += u128::from(bytes(head.stat));
        if let Some(stat) = head.stat {
            self.items += 1;
            match stat.kind {
                Kind::Dir => self.dirs += 1,
                Kind::File => self.files += 1,
                Kind::Link => self.links += 1,
                Kind::Other => self.others += 1,
            }
        }
    }
}

fn note_count(head: Head) -> u64
    ensures notes { result ≡ mark_notes head.mark + (if head.unnamed == 0 then 0 else 1) + (if head.far == 0 then 0 else 1) }
    ensures few { result ≤ 3 }
{
    let marked = match head.mark {
        Mark::Fine => 0,
        _ => 1,
    };
    marked + u64::from(head.unnamed > 0) + u64::from(head.far > 0)
}

// The bytes of a file, and 0 for all other kinds.
fn bytes(stat: Option<Stat>) -> u64
    ensures { result ≡ bytes_by stat }
{
    let Some(stat) = stat else {
        return 0;
    };
    match stat.kind {
        Kind::File => stat.size,
        _ => 0,
    }
}

// How many bytes the paths have whose heads these are.
pub(crate) fn path_bytes(heads: Leads<'_>, count: usize) -> u128
    requires first { heads.1 ≡ 0 }
    requires all { count ≡ length heads.0 }
    ensures { result ≡ sum_by path_len heads.entry.0 }
{
    let mut leads = heads;
    let mut bytes = 0u128;
    for _ in 0..count {
        let (head, _text) = leads.next();
        bytes += u128::from(head.shared) + u128::from(head.rest);
        leads.pass();
    }
    bytes
}
