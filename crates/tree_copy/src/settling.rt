//! The fates of the entries, by those of the items.
ghost use Rattle.std.specs.Prelude.{◌≡◌, ◌+◌, ◌-◌, ◌^◌, ◌<◌, ◌≤◌, ◌++◌, ◌∷◌, [], Some};
ghost use Rattle.std.specs.Prelude.{length, map, drop, slice_get, true, false, if◌then◌else◌, IfOk, OnOk, is_some};
ghost use Rattle.std.specs.List.{count_by, zip};
ghost use Rattle.std.specs.Vec.Iter.{into_iter_items, into_iter_len};
ghost use Rattle.flat_list.specs.Prelude.{is_of, paths};
ghost use Rattle.level_work.specs.Counts.{is_done};
ghost use Rattle.tree_copy.specs.Copying.{treated};
ghost use Rattle.tree_copy.specs.PrivateSettling.{bytes_of, fates_of, fitting, gain, is_other, settled, settled_by};

use crate::reports::CopyReport;
use flat_list::{Entry, FlatList};
use level_work::{Fate, Item, Outcome};
use outside::Kind;
use path_text::{OutOfMemory, Path};
use std::alloc::Global;
use std::vec::IntoIter;

// The passed entries: their paths with their fates, and the numbers of a report.
#[derive(Drop)]
struct Tally {
    rows: Vec<(Path, Fate)>,
    copied: u64,
    bytes: u128,
}

/// The report on the entries of a list. `fits` says which of the entries with a stat have an item, and the outcome has the fates
/// of the items. The paths of the items go into the report.
pub(crate) fn settle(
    alloc: Global,
    list: &FlatList,
    items: Vec<Item>,
    fits: &[bool],
    outcome: &Outcome,
) -> Result<CopyReport, OutOfMemory>
    requires items { map (λ x. x.entry.path) items.items ≡ fitting fits.now (paths (treated list.now)) }
    requires fits { length fits.now ≡ length (treated list.now) }
    requires len { length outcome.now ≡ count_by (λ fit. fit) fits.now }
    ensures rows { IfOk result (λ report. report.0 ≡ zip (paths (treated list.now)) (fates_of fits.now (treated list.now) outcome.now)) }
    ensures copied { IfOk result (λ report. report.1 ≡ count_by is_done (fates_of fits.now (treated list.now) outcome.now)) }
    ensures bytes { IfOk result (λ report. report.2 ≡ bytes_of (treated list.now) (fates_of fits.now (treated list.now) outcome.now)) }
{
    let mut tally = Tally {
        rows: Vec::with_capacity(alloc, fits.len())?,
        copied: 0,
        bytes: 0,
    };
    let mut items = items.into_iter();
    let mut place = 0;
    let mut cursor = list.cursor()?;
    while cursor.advance()? {
        let entry = cursor.entry();
        if entry.stat.is_none() {
            continue;
        }
        let fit = fits[tally.rows.len()];
        let fate = fate_of(entry, fit, outcome, place);
        place = place_after(place, fit);
        let path = path_of(entry, fit, &mut items)?;
        note(&mut tally, path, entry, fate)?;
    }
    Ok(CopyReport {
        rows: tally.rows,
        copied: tally.copied,
        bytes: tally.bytes,
    })
}

// The path of an entry: that of the next item, if the entry has one, and else a copy.
fn path_of(
    entry: &Entry,
    fit: bool,
    items: &mut IntoIter<Item, Global>,
) -> Result<Path, OutOfMemory>
    requires { fit ≡ true → 0 < into_iter_len items.old }
    ensures taken { IfOk result (λ path. fit ≡ true → map (λ x. x.entry.path) (into_iter_items items.old) ≡ path ∷ map
        (λ x. x.entry.path) (into_iter_items items.new)) }
    ensures copied { IfOk result (λ path. fit ≡ false → path ≡ entry.now.path) }
    ensures kept { fit ≡ false → into_iter_items items.new ≡ into_iter_items items.old }
    ensures len { into_iter_len items.old ≡ length (into_iter_items items.old) → into_iter_len items.new ≡ length (into_iter_items items.new) }
{
    if !fit {
        return entry.path.copy();
    }
    let Some(item) = items.next() else {
        unreachable!()
    };
    let Item { entry, .. } = item;
    let Entry { path, .. } = entry;
    Ok(path)
}

fn place_after(place: usize, fit: bool) -> usize
    requires { place < 18446744073709551615 }
    ensures { result ≡ (if fit then place + 1 else place) }
{
    if fit { place + 1 } else { place }
}

// The fate of an entry. Its item, if it has one, is the one at the place.
fn fate_of(entry: &Entry, fit: bool, outcome: &Outcome, place: usize) -> Fate
    requires { fit ≡ true → place < length outcome.now }
    ensures fits { fit ≡ true → (f : _) → slice_get outcome.now place ≡ Some f → result ≡ settled entry.now f }
    ensures long { fit ≡ false → result ≡ Fate.TooLong }
{
    if fit {
        settled_by(is_other(entry), outcome.fate(place))
    } else {
        Fate::TooLong
    }
}

fn is_other(entry: &Entry) -> bool
    ensures { result ≡ is_other entry.now }
{
    is_of(Kind::Other, entry)
}

fn is_of(kind: Kind, entry: &Entry) -> bool
    ensures { result ≡ is_of kind entry.now.stat }
{
    match &entry.stat {
        Some(stat) => kind == stat.kind,
        None => false,
    }
}

fn settled_by(other: bool, fate: Fate) -> Fate
    ensures { result ≡ settled_by other fate }
{
    match (other, fate) {
        (_, Fate::ParentFailed) => Fate::ParentFailed,
        (true, _) => Fate::Skipped,
        (false, Fate::Done) => Fate::Done,
        (false, Fate::Failed) => Fate::Failed,
        (false, Fate::Conflict) => Fate::Conflict,
        (false, _) => Fate::Changed,
    }
}

// One entry more with its fate.
fn note(tally: &mut Tally, path: Path, entry: &Entry, fate: Fate) -> Result<(), OutOfMemory>
    requires copied { tally.old.copied < 18446744073709551615 }
    requires bytes { tally.old.bytes + 18446744073709551615 < 340282366920938463463374607431768211456 }
    ensures rows { OnOk result (tally.new.rows.items ≡ tally.old.rows.items ++ (path, fate) ∷ []) }
    ensures copied { OnOk result (tally.new.copied ≡ (if is_done fate then tally.old.copied + 1 else tally.old.copied)) }
    ensures bytes { OnOk result (tally.new.bytes ≡ tally.old.bytes + gain entry.now fate) }
    ensures small { OnOk result (gain entry.now fate ≤ 18446744073709551615) }
{
    tally.rows.push((path, fate))?;
    tally.copied = one_more(tally.copied, fate);
    tally.bytes += gain(entry, fate) as u128;
    Ok(())
}

fn one_more(copied: u64, fate: Fate) -> u64
    requires { copied < 18446744073709551615 }
    ensures { result ≡ (if is_done fate then copied + 1 else copied) }
{
    if fate.is_done() { copied + 1 } else { copied }
}

fn gain(entry: &Entry, fate: Fate) -> u64
    ensures { result ≡ gain entry.now fate }
{
    match &entry.stat {
        Some(stat) if stat.kind == Kind::File && fate.is_done() => stat.size,
        _ => 0,
    }
}
