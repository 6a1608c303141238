//! The large files of a list, copied one after the other.
ghost use Rattle.std.specs.Prelude.{◌≡◌, ◌+◌, ◌++◌, ◌∷◌, ◌<◌, ◌≤◌, ℕ, List, [], true, false, length, if◌then◌else◌, IfOk, IfSome, OnOk, is_some};
ghost use Rattle.std.specs.List.{AllByRecursion, count_by, list_any};
ghost use Rattle.flat_list.specs.Prelude.{is_within, RoseBy, is_root, nothing_lent, SameBut};
ghost use Rattle.entry_pages.specs.Entries.{size_by};
ghost use Rattle.level_work.specs.Counts.{is_failed, is_done};
ghost use Rattle.level_work.specs.declared.items.Fate.{Fate};
ghost use Rattle.tree_copy.specs.Causes.{HasCause};
ghost use Rattle.tree_copy.specs.Copying.{IsCopied, IsEarly, target_of};
ghost use Rattle.range_copy.specs.PrivateLarge.{AreApart, AreFailed, AreRows, CanMake, SameButFor, bytes_over, fate_of, gain};
ghost use Rattle.range_copy.specs.PrivateParts.{exceeds};

use crate::came::Came;
use crate::copying::copy_file;
use crate::cutting::RangeError;
use crate::failing::target_of;
use flat_list::Entry;
use level_work::{Fate, Paths};
use outside::{Kind, Plot, Wide};
use path_text::Path;
use std::alloc::Global;
use std::thread::Threads;
use tree_copy::Pair;

// The fates of large files, with their paths, and the numbers of a report.
#[derive(Drop)]
pub(crate) struct Tally {
    pub(crate) rows: Vec<(Path, Fate)>,
    pub(crate) copied: u64,
    pub(crate) bytes: u128,
}

// Copies each of the large files whose parent was copied.
pub(crate) fn copy_each<R: Threads + Sync, G: Wide>(
    rt: &R,
    alloc: Global,
    large: &[Entry],
    pairs: &[Pair],
    failed: &Paths,
    piece: u64,
    ground: &mut G,
    ranks: u32,
    hosts: u32,
) -> Result<Tally, RangeError>
where
    G::Reader: Send,
    G::Span: Send,
    requires piece { 1 ≤ piece }
    requires large { AllByRecursion (λ e. exceeds piece e ≡ true) large.now }
    requires ranks { 1 ≤ ranks }
    requires hosts { 1 ≤ hosts }
    requires lent { G.area ground.old ≡ nothing_lent }
    requires in_source { AllByRecursion (λ e. list_any (λ pair. is_within e.path pair.source) pairs.now ≡ true) large.now }
    requires apart { AreApart pairs.now large.now }
    requires makes { IfSome (G.tree ground.old) (λ files. AllByRecursion (λ e. CanMake pairs.now failed.now.set.keys e files) large.now) }
    ensures early { (rows : List (List ℕ × Fate)) → AreFailed pairs.now rows failed.now.set.keys →
        IfOk result (λ tally. AreRows (IsEarly pairs.now rows) large.now tally.rows.items) }
    ensures told { (rows : List (List ℕ × Fate)) → AreFailed pairs.now rows failed.now.set.keys →
        IfOk result (λ tally. IfSome (G.tree ground.old) (λ before. IfSome (G.tree ground.new) (λ after.
        AreRows (IsCopied before after pairs.now rows) large.now tally.rows.items))) }
    ensures copied { IfOk result (λ tally. tally.copied ≡ count_by (λ row. is_done row.1) tally.rows.items) }
    ensures bytes { IfOk result (λ tally. tally.bytes ≡ bytes_over large.now tally.rows.items) }
    ensures shown { IfOk result (λ tally. AreRows (HasCause G.Reader.gives G.Part.gives G.gives G.area G.count pairs.now) large.now tally.rows.items) }
    ensures blamed { IfOk result (λ tally. RoseBy (count_by (λ row. is_failed row.1) tally.rows.items) (G.count ground.old) (G.count ground.new)) }
    ensures rest { IfSome (G.tree ground.old) (λ before. IfSome (G.tree ground.new) (SameButFor pairs.now large.now before)) }
    ensures tells { is_some (G.tree ground.new) ≡ is_some (G.tree ground.old) }
    ensures lent { G.area ground.new ≡ nothing_lent }
    ensures count { RoseBy 0 (G.count ground.old) (G.count ground.new) }
{
    // The count of faults is a number of 64 bits.
    let _faults = ground.faults();
    let mut tally = Tally {
        rows: Vec::with_capacity(alloc, large.len())?,
        copied: 0,
        bytes: 0,
    };
    for entry in large {
        let fate = copy_one(rt, alloc, entry, pairs, failed, piece, ground, ranks, hosts)?;
        note(&mut tally, entry, fate)?;
    }
    Ok(tally)
}

// Copies a large file, if its target is not too long and its parent was copied.
fn copy_one<R: Threads + Sync, G: Wide>(
    rt: &R,
    alloc: Global,
    entry: &Entry,
    pairs: &[Pair],
    failed: &Paths,
    piece: u64,
    ground: &mut G,
    ranks: u32,
    hosts: u32,
) -> Result<Fate, RangeError>
where
    G::Reader: Send,
    G::Span: Send,
    requires piece { 1 ≤ piece }
    requires large { exceeds piece entry.now ≡ true }
    requires ranks { 1 ≤ ranks }
    requires hosts { 1 ≤ hosts }
    requires lent { G.area ground.old ≡ nothing_lent }
    requires in_source { list_any (λ pair. is_within entry.now.path pair.source) pairs.now ≡ true }
    requires low { is_root (target_of pairs.now entry.now.path) ≡ false }
    requires makes { IfSome (G.tree ground.old) (CanMake pairs.now failed.now.set.keys entry.now) }
    ensures early { (rows : List (List ℕ × Fate)) → AreFailed pairs.now rows failed.now.set.keys → IfOk result (IsEarly pairs.now rows entry.now) }
    ensures told { (rows : List (List ℕ × Fate)) → AreFailed pairs.now rows failed.now.set.keys →
        IfOk result (λ fate. IfSome (G.tree ground.old) (λ before. IfSome (G.tree ground.new) (λ after.
        IsCopied before after pairs.now rows entry.now fate))) }
    ensures shown { IfOk result (HasCause G.Reader.gives G.Part.gives G.gives G.area G.count pairs.now entry.now) }
    ensures cause { IfOk result (λ fate. RoseBy (if is_failed fate then 1 else 0) (G.count ground.old) (G.count ground.new)) }
    ensures others { IfSome (G.tree ground.old) (λ before. IfSome (G.tree ground.new) (SameBut (target_of pairs.now entry.now.path) before)) }
    ensures tells { is_some (G.tree ground.new) ≡ is_some (G.tree ground.old) }
    ensures lent { G.area ground.new ≡ nothing_lent }
    ensures count { RoseBy 0 (G.count ground.old) (G.count ground.new) }
{
    // The count of faults is a number of 64 bits.
    let _faults = ground.faults();
    let Some(target) = target_of(&entry.path, pairs)? else {
        return Ok(Fate::TooLong);
    };
    if failed.has_parent_of(&target)? {
        return Ok(Fate::ParentFailed);
    }
    let size = size_of(entry);
    let came = copy_file(
        rt,
        alloc,
        &entry.path,
        &target,
        size,
        piece,
        ground,
        ranks,
        hosts,
    )?;
    Ok(fate_of(came))
}

// The entry's size.
fn size_of(entry: &Entry) -> u64
    ensures { result ≡ size_by entry.now.stat }
{
    match &entry.stat {
        Some(stat) => stat.size,
        None => 0,
    }
}

fn fate_of(came: Came) -> Fate
    ensures { result ≡ fate_of came }
{
    match came {
        Came::Done => Fate::Done,
        Came::Failed => Fate::Failed,
        Came::Conflict => Fate::Conflict,
        Came::Changed => Fate::Changed,
    }
}

// One file more with its fate.
fn note(tally: &mut Tally, entry: &Entry, fate: Fate) -> Result<(), RangeError>
    requires copied { tally.old.copied < 18446744073709551615 }
    requires bytes { tally.old.bytes + 18446744073709551615 < 340282366920938463463374607431768211456 }
    ensures rows { OnOk result (tally.new.rows.items ≡ tally.old.rows.items ++ (entry.now.path, fate) ∷ []) }
    ensures copied { OnOk result (tally.new.copied ≡ (if is_done fate then tally.old.copied + 1 else tally.old.copied)) }
    ensures bytes { OnOk result (tally.new.bytes ≡ tally.old.bytes + gain entry.now fate) }
    ensures small { OnOk result (gain entry.now fate ≤ 18446744073709551615) }
{
    tally.rows.push((entry.path.copy()?, fate))?;
    if fate == Fate::Done {
        tally.copied += 1;
    }
    tally.bytes += gain(entry, fate) as u128;
    Ok(())
}

fn gain(entry: &Entry, fate: Fate) -> u64
    ensures { result ≡ gain entry.now fate }
{
    match &entry.stat {
        Some(stat) if stat.kind == Kind::File && fate == Fate::Done => stat.size,
        _ => 0,
    }
}
