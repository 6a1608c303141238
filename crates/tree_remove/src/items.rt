//! Entries as items of work on levels.
ghost use Rattle.std.specs.Prelude.{◌≡◌, None, All, IfOk};
ghost use Rattle.path_text.specs.Path.{refusal};
ghost use Rattle.tree_remove.specs.PrivateDeeds.{item_of, items_of};

use flat_list::{Entry, FlatList};
use level_work::Item;
use path_text::OutOfMemory;
use std::alloc::Global;

/// The item of each entry, at its own path. Each path of a list is a path, which the list's contract does not say.
pub(crate) fn items_of(alloc: Global, list: &FlatList) -> Result<Vec<Item>, OutOfMemory>
    ensures items { IfOk result (λ items. items.items ≡ items_of list.now) }
    ensures valid { IfOk result (λ items. All (λ e. refusal e.path ≡ None) list.now) }
{
    list.paths_are_valid();
    let mut items = Vec::with_capacity(alloc, list.len())?;
    let mut cursor = list.cursor()?;
    while cursor.advance()? {
        items.push(item_of(cursor.entry())?)?;
    }
    Ok(items)
}

// The item of an entry, with a copy of it.
fn item_of(entry: &Entry) -> Result<Item, OutOfMemory>
    ensures { IfOk result (λ item. item ≡ item_of entry.now) }
{
    Ok(Item {
        path: entry.path.copy()?,
        entry: entry.copy()?,
    })
}
