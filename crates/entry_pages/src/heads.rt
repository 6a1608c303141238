//! The heads of a list: all that it keeps of its entries except the bytes of their paths.
ghost use Rattle.std.specs.Prelude.{◌≡◌, ◌+◌, ◌*◌, ◌%◌, ◌^◌, ◌<◌, ◌≤◌, ◌++◌, ◌∷◌, [], true};
ghost use Rattle.std.specs.Prelude.{false, Some, None, length, drop, slice_get, if◌then◌else◌, OnOk, OnErr, IfOk, IfSome};
ghost use Rattle.std.specs.Option.{option_map};
ghost use Rattle.std.specs.Vec.{vec_len, vec_capacity};
ghost use Rattle.outside.specs.Links.{link_refusal};
ghost use Rattle.entry_pages.specs.Private.Slim.{with_text, target_by, target_bytes, is_text};

use crate::appending::{extend_reserved, put_shifted};
use crate::entries::Mark;
use crate::packing::put_start;
use crate::slims::{Odd, Slim, odd_at, put_slim};
use outside::{LinkText, Stat};
use path_text::OutOfMemory;
use std::alloc::Global;
use std::marker::Model;

/// All that a list keeps of an entry except the bytes of its path and of its target. `shared` is how many bytes the path shares
/// with the path before, and `rest` how many are its own.
#[derive(Clone, Copy, Debug, Drop)]
pub(crate) struct Head {
    pub stat: Option<Stat>,
    pub unnamed: u64,
    pub far: u64,
    pub shared: u16,
    pub rest: u16,
    pub mark: Mark,
}

/// Heads, each in 24 bytes, with their targets, seen as their list.
#[derive(Debug, Drop)]
pub(crate) struct Heads {
    slims: Vec<Slim>,
    odds: Vec<Odd>,
    // Where the odd ones of each page begin: heads with a target, or with a number that is not 0.
    starts: Vec<usize>,
    // The targets, joined.
    texts: Vec<u8>,
    // Where the targets of each page begin.
    text_starts: Vec<usize>,
}

impl Model for Heads {
    ghost use Rattle.std.specs.Prelude.{List};
    ghost use Rattle.entry_pages.specs.Pack.{Head};
    ghost use Rattle.entry_pages.specs.Private.Slim.{heads_of, IsSlim};

    ghost Value = { List Head };

    ghost view = { λ h. heads_of h.slims.items h.odds.items h.texts.items };

    ghost invariant = { λ h. IsSlim h.slims.items h.odds.items h.starts.items h.texts.items h.text_starts.items
        (heads_of h.slims.items h.odds.items h.texts.items) };
}

impl Heads {
    // No heads. It takes no memory.
    pub fn make(alloc: Global) -> Heads
        ensures { result ≡ [] }
    {
        Heads {
            slims: Vec::new(alloc),
            odds: Vec::new(alloc),
            starts: Vec::new(alloc),
            texts: Vec::new(alloc),
            text_starts: Vec::new(alloc),
        }
    }

    // No heads, with room for a number of them.
    pub fn with_room(alloc: Global, count: usize) -> Result<Heads, OutOfMemory>
        ensures { IfOk result (λ heads. heads ≡ []) }
    {
        Ok(Heads {
            slims: Vec::with_capacity(alloc, count)?,
            odds: Vec::new(alloc),
            starts: Vec::new(alloc),
            texts: Vec::new(alloc),
            text_starts: Vec::new(alloc),
        })
    }

    pub fn len(&self) -> usize
        ensures { result ≡ length self.now }
    {
        self.slims.len()
    }

    // Adds a head with a target after the others. A refusal leaves them.
    pub fn push(&mut self, head: Head, target: &Option<LinkText>) -> Result<(), OutOfMemory>
        ensures ok { OnOk result (self.new ≡ self.old ++ with_text head target.now ∷ []) }
        ensures err { OnErr result (self.new ≡ self.old) }
    {
        let place = self.slims.len();
        let at = self.texts.len();
        reserve_target(&mut self.texts, target)?;
        self.text_starts.reserve(1)?;
        put_slim(
            &mut self.slims,
            &mut self.odds,
            &mut self.starts,
            head,
            target,
        )?;
        put_start(&mut self.text_starts, place, at);
        put_target(&mut self.texts, target);
        Ok(())
    }

    // Puts the heads of others after these, which end where a page begins. A refusal leaves them.
    pub fn append(&mut self, other: &Heads) -> Result<(), OutOfMemory>
        requires { length self.old % 256 ≡ 0 }
        ensures ok { OnOk result (self.new ≡ self.old ++ other.now) }
        ensures err { OnErr result (self.new ≡ self.old) }
    {
        let base = self.odds.len();
        let text_base = self.texts.len();
        self.slims.reserve(other.slims.len())?;
        self.odds.reserve(other.odds.len())?;
        self.starts.reserve(other.starts.len())?;
        self.texts.reserve(other.texts.len())?;
        self.text_starts.reserve(other.text_starts.len())?;
        extend_reserved(&mut self.slims, &other.slims);
        extend_reserved(&mut self.odds, &other.odds);
        put_shifted(&mut self.starts, base, &other.starts);
        extend_reserved(&mut self.texts, &other.texts);
        put_shifted(&mut self.text_starts, text_base, &other.text_starts);
        Ok(())
    }

    // The heads, none of which is passed.
    pub fn leads(&self) -> Leads<'_>
        ensures { result ≡ (self.now, 0) }
    {
        Leads {
            slims: self.slims.as_slice(),
            odds: self.odds.as_slice(),
            texts: self.texts.as_slice(),
            passed: 0,
            gone: 0,
            at: 0,
        }
    }

    // The heads, of which those before a page are passed.
    pub fn leads_at(&self, page: usize) -> Leads<'_>
        requires { 256 * page < length self.now }
        ensures { result ≡ (self.now, 256 * page) }
    {
        Leads {
            slims: self.slims.as_slice(),
            odds: self.odds.as_slice(),
            texts: self.texts.as_slice(),
            passed: 256 * page,
            gone: self.starts[page],
            at: self.text_starts[page],
        }
    }
}

/// Goes over heads in their order: seen as (the heads, how many are passed).
#[derive(Debug, Drop)]
pub(crate) struct Leads<'a> {
    slims: &'a [Slim],
    odds: &'a [Odd],
    texts: &'a [u8],
    passed: usize,
    // How many odd ones are passed.
    gone: usize,
    // How many bytes of targets are passed.
    at: usize,
}

impl<'a> Model for Leads<'a> {
    ghost use Rattle.std.specs.Prelude.{List, ℕ};
    ghost use Rattle.entry_pages.specs.Pack.{Head};
    ghost use Rattle.entry_pages.specs.Private.Slim.{heads_of, IsLead};

    ghost Value = { List Head × ℕ };

    ghost view = { λ l. (heads_of l.slims.now l.odds.now l.texts.now, l.passed) };

    ghost invariant = { λ l. IsLead l.slims.now l.odds.now l.texts.now l.passed l.gone l.at (heads_of l.slims.now l.odds.now l.texts.now) };
}

impl<'a> Leads<'a> {
    // Whether all are passed.
    pub fn is_over(&self) -> bool
        ensures yes { result ≡ true → self.now.1 ≡ length self.now.0 }
        ensures no { result ≡ false → self.now.1 < length self.now.0 }
    {
        self.passed >= self.slims.len()
    }

    // The next head and its target. Heads fit into memory, so their number is small.
    #[inline(always)]
    pub fn next(&self) -> (Head, Option<&'a str>)
        requires { self.now.1 < length self.now.0 }
        ensures next { slice_get self.now.0 self.now.1 ≡ Some (with_text result.0 (option_map (λ t. t.now) result.1)) }
        ensures valid { IfSome result.1 (λ t. link_refusal t.now ≡ None) }
        ensures few { self.now.1 < 2 ^ 60 }
    {
        let slim = self.slims[self.passed];
        let odd = odd_at(self.odds, self.gone, slim.odd);
        (slim.told(odd), text_at(self.texts, self.at, odd.target))
    }

    // Passes the next head.
    pub fn pass(&mut self)
        requires { self.old.1 < length self.old.0 }
        ensures { self.new ≡ (self.old.0, self.old.1 + 1) }
    {
        let slim = self.slims[self.passed];
        let odd = odd_at(self.odds, self.gone, slim.odd);
        self.gone = gone_after(self.gone, slim.odd);
        self.at += odd.target as usize;
        self.passed += 1;
    }
}

// The target of this length at a place; `None` if the length is 0.
fn text_at(texts: &[u8], at: usize, len: u16) -> Option<&str>
    requires room { at + len ≤ length texts.now }
    requires valid { is_text (target_by len (drop at texts.now)) ≡ true }
    ensures text { option_map (λ t. t.now) result ≡ target_by len (drop at texts.now) }
    ensures valid { IfSome result (λ t. link_refusal t.now ≡ None) }
{
    if len == 0 {
        return None;
    }
    let end = at + len as usize;
    Some(unsafe { str::from_utf8_unchecked(&texts[at..end]) })
}

// Makes room for the bytes of a target. Most entries have none.
#[inline(always)]
fn reserve_target(texts: &mut Vec<u8>, target: &Option<LinkText>) -> Result<(), OutOfMemory>
    ensures same { texts.new.items ≡ texts.old.items }
    ensures room { OnOk result (vec_len texts.new + length (target_bytes target.now) ≤ vec_capacity texts.new) }
{
    match target {
        None => Ok(()),
        Some(target) => {
            texts.reserve(target.text().len())?;
            Ok(())
        }
    }
}

// Puts the bytes of a target after those of others. There is room.
#[inline(always)]
fn put_target(texts: &mut Vec<u8>, target: &Option<LinkText>)
    requires { vec_len texts.old + length (target_bytes target.now) ≤ vec_capacity texts.old }
    ensures { texts.new.items ≡ texts.old.items ++ target_bytes target.now }
{
    match target {
        None => {}
        Some(target) => extend_reserved(texts, target.text().as_bytes()),
    }
}

// How many odd ones are passed, with one head more.
fn gone_after(gone: usize, odd: bool) -> usize
    requires { gone + 1 < 2 ^ 64 }
    ensures { result ≡ (if odd then gone + 1 else gone) }
{
    if odd { gone + 1 } else { gone }
}
