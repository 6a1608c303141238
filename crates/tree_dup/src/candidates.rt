//! The candidates of a list: files that share their size with another one.
ghost use Rattle.std.specs.Prelude.{◌≡◌, ℕ, List, Option, ◌+◌, Some, length, map, slice_get, OnOk, IfOk, IfSome};
ghost use Rattle.flat_list.specs.Prelude.{Files, Entry};
ghost use Rattle.tree_cmp.specs.Readers.{StatsTold};
ghost use Rattle.tree_dup.specs.Private.Running.{still};
ghost use Rattle.tree_dup.specs.Private.Sifting.{AreListed};
ghost use Rattle.tree_dup.specs.Private.Sizes.{AreCounts};

use crate::errors::DupError;
use crate::runs::{File, Standing};
use crate::sizes::{shared_size, size_counts};
use flat_list::{Entry, FlatList};
use path_text::Path;
use shared_reads::make_room;
use std::alloc::Global;
use std::collections::HashMap;

// The candidates in path order, as yet without their hashes.
pub(crate) fn candidates(alloc: Global, list: &FlatList) -> Result<Vec<File>, DupError>
    ensures listed { IfOk result (λ files. (tree : Option Files) → IfSome tree (λ t. StatsTold t list.now)
        → AreListed tree list.now (length list.now) files.items) }
    ensures alike { IfOk result (λ files. map still files.items ≡ files.items) }
{
    let counts = size_counts(alloc, list)?;
    let mut files = Vec::new(alloc);
    let mut cursor = list.cursor()?;
    while cursor.advance()? {
        add_candidate(cursor.entry(), &counts, &mut files)?;
    }
    Ok(files)
}

// Adds the file of an entry, if it is a candidate.
fn add_candidate(
    entry: &Entry,
    counts: &HashMap<u64, u8>,
    files: &mut Vec<File>,
) -> Result<(), DupError>
    ensures on { OnOk result ((tree : Option Files) (list : List Entry) (at : ℕ) → AreCounts list counts.now → slice_get list at ≡ Some entry.now
        → IfSome tree (λ t. StatsTold t list) → AreListed tree list at files.old.items → AreListed tree list (at + 1) files.new.items) }
    ensures alike { OnOk result (map still files.old.items ≡ files.old.items → map still files.new.items ≡ files.new.items) }
{
    let Some(size) = shared_size(entry, counts) else {
        return Ok(());
    };
    let path = entry.path.copy()?;
    let file = unhashed(path, size);
    make_room(files)?;
    files.push(file)?;
    Ok(())
}

// A candidate whose hash is not known.
fn unhashed(path: Path, size: u64) -> File
    ensures path { result.path ≡ path }
    ensures size { result.size ≡ size }
    ensures alike { still result ≡ result }
{
    File {
        path,
        size,
        hash: 0,
        standing: Standing::Alike,
    }
}
