//! The sizes that files share.
ghost use Rattle.std.specs.Prelude.{◌≡◌, ℕ, List, ◌+◌, if◌then◌else◌, min, IfOk, OnOk};
ghost use Rattle.entry_pages.specs.declared.entries.Entry.{Entry};
ghost use Rattle.tree_dup.specs.Grouping.{is_sized};
ghost use Rattle.tree_dup.specs.Private.Sizes.{AreCounts, counted, file_size, candidate_size};

use crate::errors::DupError;
use flat_list::{Entry, FlatList};
use outside::Kind;
use std::alloc::Global;
use std::collections::HashMap;

// How many files have each size. 255 means 255 or more.
pub(crate) fn size_counts(alloc: Global, list: &FlatList) -> Result<HashMap<u64, u8>, DupError>
    ensures { IfOk result (AreCounts list.now) }
{
    let mut counts = HashMap::new(alloc);
    let mut cursor = list.cursor()?;
    while cursor.advance()? {
        count_size(&mut counts, cursor.entry())?;
    }
    Ok(counts)
}

fn count_size(counts: &mut HashMap<u64, u8>, entry: &Entry) -> Result<(), DupError>
    ensures { OnOk result ((size : ℕ) → counted counts.new size ≡ (if is_sized size entry.now then min
        (counted counts.old size + 1) 255 else counted counts.old size)) }
{
    let Some(size) = file_size(entry) else {
        return Ok(());
    };
    let count = counts.entry(size)?.or_insert(0);
    *count = count.saturating_add(1);
    Ok(())
}

fn file_size(entry: &Entry) -> Option<u64>
    ensures { result ≡ file_size entry.now }
{
    match entry.stat {
        Some(stat) if stat.kind == Kind::File => Some(stat.size),
        _ => None,
    }
}

// The size of a file that shares it with another one, by the counts of all.
pub(crate) fn shared_size(entry: &Entry, counts: &HashMap<u64, u8>) -> Option<u64>
    ensures { (list : List Entry) → AreCounts list counts.now → result ≡ candidate_size list entry.now }
{
    let size = file_size(entry)?;
    if counts.get(&size).copied().unwrap_or(0) > 1 {
        Some(size)
    } else {
        None
    }
}
