//! Makes the entries of a list again, one by one.
ghost use Rattle.std.specs.Prelude.{◌≡◌, ◌+◌, ◌-◌, ◌*◌, ◌<◌, ◌≤◌, ◌++◌, [], true, false, Some, None, length, take, slice_get, OnOk, OnErr, IfOk, IfSome};
ghost use Rattle.std.specs.Option.{option_map};
ghost use Rattle.outside.specs.Links.{link_refusal};
ghost use Rattle.entry_pages.specs.Private.Slim.{with_text};
ghost use Rattle.entry_pages.specs.Pack.{entry_by, unpacked, RisesAt};
ghost use Rattle.entry_pages.specs.Private.Kept.{is_path, IsBefore};

use crate::entries::{Entry, Mark};
use crate::heads::{Head, Leads};
use outside::LinkText;
use path_text::{OutOfMemory, Path, common_len, compare};
use std::alloc::Global;
use std::marker::Model;

/// Makes the entries of a list again, in their order: seen as (the list, how many entries are passed, the entry passed last).
#[derive(Debug, Drop)]
pub struct Reader<'a> {
    heads: Leads<'a>,
    rests: &'a [u8],
    at: usize,
    entry: Entry,
    shared: usize,
    alloc: Global,
}

impl<'a> Model for Reader<'a> {
    ghost use Rattle.std.specs.Prelude.{List, ℕ, []};
    ghost use Rattle.entry_pages.specs.declared.entries.Entry.{Entry};
    ghost use Rattle.entry_pages.specs.Pack.{unpacked};
    ghost use Rattle.entry_pages.specs.Private.Kept.{IsAt};

    ghost Value = { List Entry × ℕ × Entry };

    ghost view = { λ r. (unpacked [] r.heads.0 r.rests.now, r.heads.1, r.entry) };

    ghost invariant = { λ r. IsAt r.heads.0 r.rests.now r.heads.1 r.at r.entry.path (unpacked [] r.heads.0 r.rests.now) };
}

impl<'a> Reader<'a> {
    /// A reader before a page, whose rests begin at a byte. It takes the memory of one entry.
    pub(crate) fn make(
        alloc: Global,
        heads: Leads<'a>,
        rests: &'a [u8],
        at: usize,
    ) -> Result<Reader<'a>, OutOfMemory>
        requires { IsBefore heads.0 rests.now heads.1 at }
        ensures list { IfOk result (λ reader. reader.0 ≡ unpacked [] heads.entry.0 rests.now) }
        ensures passed { IfOk result (λ reader. reader.1 ≡ heads.entry.1) }
    {
        let entry = blank(alloc)?;
        Ok(Reader {
            heads,
            rests,
            at,
            entry,
            shared: 0,
            alloc,
        })
    }

    /// Whether all entries are passed.
    pub fn is_over(&self) -> bool
        ensures yes { result ≡ true → self.now.1 ≡ length self.now.0 }
        ensures no { result ≡ false → self.now.1 < length self.now.0 }
    {
        self.heads.is_over()
    }

    /// Passes the next entry. A refusal leaves the reader.
    pub fn pass(&mut self) -> Result<(), OutOfMemory>
        requires { self.old.1 < length self.old.0 }
        ensures list { self.new.0 ≡ self.old.0 }
        ensures passed { OnOk result (self.new.1 ≡ self.old.1 + 1) }
        ensures entry { OnOk result (slice_get self.old.0 self.old.1 ≡ Some self.new.2) }
        ensures err { OnErr result (self.new ≡ self.old) }
    {
        let (head, text) = self.heads.next();
        let end = self.at + head.rest as usize;
        let rest = &self.rests[self.at..end];
        let shared = shared_by(&self.entry.path, head, rest);
        let target = target_of(self.alloc, text)?;
        rewrite(&mut self.entry, head, target, rest)?;
        self.heads.pass();
        self.at = end;
        self.shared = shared;
        Ok(())
    }

    /// Whether there is a next entry whose path comes before that of the entry passed last. It does not look at the bytes that
    /// the two share, and makes no path.
    pub fn falls(&self) -> bool
        requires some { 0 < self.now.1 }
        requires last { slice_get self.now.0 (self.now.1 - 1) ≡ Some self.now.2 }
        ensures { result ≡ false → RisesAt self.now.0 (self.now.1 - 1) }
    {
        if self.heads.is_over() {
            return false;
        }
        let (head, _text) = self.heads.next();
        let end = self.at + head.rest as usize;
        let last = self.entry.path.text().as_bytes();
        compare(&self.rests[self.at..end], &last[head.shared as usize..]).is_lt()
    }

    /// How many bytes the path passed last shares with the one passed before it. Only speed depends on the answer.
    pub fn shared(&self) -> usize {
        self.shared
    }

    /// The entry that was passed last.
    pub fn entry(&self) -> &Entry
        ensures { result.now ≡ self.now.2 }
    {
        &self.entry
    }

    /// The entry that was passed last, moved out.
    pub fn into_entry(self) -> Entry
        ensures { result ≡ self.entry.2 }
    {
        self.entry
    }
}

// How many bytes the path of a head and a rest shares with the last one. The head has this number, except at the front of a
// page.
fn shared_by(last: &Path, head: Head, rest: &[u8]) -> usize {
    if head.shared > 0 {
        return head.shared as usize;
    }
    common_len(last.text().as_bytes(), rest)
}

// An entry becomes the next one. A refusal leaves it.
#[tactic(auto, using(crate::proofs::Passed::refusal_of, crate::proofs::Passed::utf8_of))]
fn rewrite(
    entry: &mut Entry,
    head: Head,
    target: Option<LinkText>,
    rest: &[u8],
) -> Result<(), OutOfMemory>
    requires { is_path (take head.shared entry.old.path ++ rest.now) ≡ true }
    ensures ok { OnOk result (entry.new ≡ entry_by (with_text head target) (take head.shared entry.old.path ++ rest.now)) }
    ensures err { OnErr result (entry.new ≡ entry.old) }
{
    entry.path.rewrite(head.shared as usize, rest)?;
    entry.stat = head.stat;
    entry.mark = head.mark;
    entry.unnamed = head.unnamed;
    entry.far = head.far;
    put_target(&mut entry.target, target);
    Ok(())
}

// Replaces a target. Most entries have none, and then nothing is dropped.
#[inline(always)]
fn put_target(place: &mut Option<LinkText>, target: Option<LinkText>)
    ensures { place.new ≡ target }
{
    if place.is_some() || target.is_some() {
        *place = target;
    }
}

// The target that is this text, which is known to be one.
fn target_of(alloc: Global, text: Option<&str>) -> Result<Option<LinkText>, OutOfMemory>
    requires { IfSome text (λ t. link_refusal t.now ≡ None) }
    ensures { IfOk result (λ target. target ≡ option_map (λ t. t.now) text.entry) }
{
    match text {
        None => Ok(None),
        Some(text) => Ok(Some(LinkText::of_text(alloc, text)?)),
    }
}

// Before the first entry a reader has the entry of `/`, without a stat.
fn blank(alloc: Global) -> Result<Entry, OutOfMemory> {
    let Ok(path) = Path::parse(alloc, "/") else {
        return Err(OutOfMemory);
    };
    Ok(Entry {
        path,
        stat: None,
        mark: Mark::Fine,
        unnamed: 0,
        far: 0,
        target: None,
    })
}
