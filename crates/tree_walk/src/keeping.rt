//! The entry and the names that a job keeps of one path.
ghost use Rattle.std.specs.Prelude.{◌≡◌, ◌++◌, ◌∷◌, ◌<◌, [], true, false, map, length, OnOk, OnErr, IfOk};
ghost use Rattle.std.specs.List.{count_by, AllByRecursion};
ghost use Rattle.std.specs.Vec.{vec_len, vec_capacity};
ghost use Rattle.path_text.specs.Path.{joined};
ghost use Rattle.tree_walk.specs.Answered.{IsAnswered};
ghost use Rattle.tree_walk.specs.Held.{Holds, held_of, is_listed, log_of};

use crate::looking::{is_listed, look, push_children};
use flat_list::{Entry, FlatList};
use outside::{Listing, Tree};
use path_text::{OutOfMemory, Path};
use rank_queue::Batch;

// Handles one path: keeps its entry, pushes its children, and uses the memory of a path that is done again.
pub fn handle_path<R: Tree>(
    reader: &mut R,
    entries: &mut FlatList,
    names: &mut Vec<Listing>,
    spare: &mut Option<Path>,
    item: &Path,
    fresh: &mut Batch,
) -> Result<(), OutOfMemory>
    requires empty { fresh.old ≡ [] }
    requires holds { Holds (R.tree reader.old) (R.count reader.old) (held_of entries.old names.old.items) }
    requires answered { AllByRecursion (IsAnswered R.gives) entries.old }
    requires pairs { count_by is_listed entries.old ≡ length names.old.items }
    ensures same { R.tree reader.new ≡ R.tree reader.old }
    ensures holds { Holds (R.tree reader.new) (R.count reader.new) (held_of entries.new names.new.items) }
    ensures answered { AllByRecursion (IsAnswered R.gives) entries.new }
    ensures pairs { count_by is_listed entries.new ≡ length names.new.items }
    ensures ok { OnOk result (log_of (held_of entries.new names.new.items) ≡ log_of (held_of entries.old names.old.items) ++ (item.now, fresh.new) ∷ []) }
    ensures err { OnErr result (held_of entries.new names.new.items ≡ held_of entries.old names.old.items) }
    ensures nothing { OnErr result (fresh.new ≡ []) }
{
    names.reserve(1)?;
    let alloc = *names.allocator();
    let path = copied(spare, item)?;
    let (entry, listing) = look(alloc, reader, path)?;
    let Ok(()) = push_children(&entry.path, &listing, fresh) else {
        fresh.clear();
        return Err(OutOfMemory);
    };
    let Ok(()) = keep(entries, names, &entry, listing) else {
        fresh.clear();
        return Err(OutOfMemory);
    };
    *spare = Some(entry.path);
    Ok(())
}

// A copy of a path, in the memory of another if there is one.
fn copied(spare: &mut Option<Path>, path: &Path) -> Result<Path, OutOfMemory>
    ensures { IfOk result (λ copy. copy ≡ path.now) }
{
    let Some(other) = spare.take() else {
        return path.copy();
    };
    let mut copy = other;
    copy.rewrite(0, path.text().as_bytes())?;
    Ok(copy)
}

// Keeps an entry, packed, and its names if it was listed. If it is out of memory it keeps nothing.
fn keep(
    entries: &mut FlatList,
    names: &mut Vec<Listing>,
    entry: &Entry,
    listing: Listing,
) -> Result<(), OutOfMemory>
    requires names { vec_len names.old < vec_capacity names.old }
    requires pairs { count_by is_listed entries.old ≡ length names.old.items }
    requires alone { is_listed entry.now ≡ false → listing.0 ≡ [] }
    ensures held { OnOk result (held_of entries.new names.new.items
        ≡ held_of entries.old names.old.items ++ (entry.now, map (joined entry.now.path) listing.0) ∷ []) }
    ensures pairs { count_by is_listed entries.new ≡ length names.new.items }
    ensures err { OnErr result (held_of entries.new names.new.items ≡ held_of entries.old names.old.items) }
    ensures added { OnOk result (entries.new ≡ entries.old ++ entry.now ∷ []) }
    ensures refused { OnErr result (entries.new ≡ entries.old) }
{
    entries.add(entry)?;
    if !is_listed(entry) {
        return Ok(());
    }
    names.push_reserved(listing);
    Ok(())
}
