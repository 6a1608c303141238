//! A list file, read.
ghost use Rattle.std.specs.Prelude.{◌≡◌, ◌≤◌};
ghost use Rattle.run_entries.specs.Prelude.{All, length, IfOk, IfErr, IfSome, IsErrOf, true, false, get, IsStrictlySortedBy, path_cmp, RoseBy, is_file};
ghost use Rattle.run_entries.specs.Prelude.{is_shaped, paths, max_entries, side_of, HoldsFile, input};
ghost use Rattle.run_entries.specs.Entries.{IsRead};
ghost use Rattle.run_entries.specs.Stopping.{StopsListing};

use flat_list::{CacheError, FlatList};
use outside::{Ground, LoadError, load};
use path_text::Path;
use run_report::{Stop, Trouble};
use std::alloc::Global;

/// The list in the file at the path.
pub fn read_list<G: Ground>(alloc: Global, files: &mut G, path: Path) -> Result<FlatList, Stop>
    ensures read { IfOk result (λ list. IsRead path list (side_of G.Plot files.old)) }
    ensures few { IfOk result (λ list. length list ≤ max_entries) }
    ensures ascend { IfOk result (λ list. IsStrictlySortedBy path_cmp (paths list)) }
    ensures shaped { IfOk result (λ list. All (λ e. is_shaped e ≡ true) list) }
    ensures stopped { IfErr result (StopsListing (input path) (side_of G.Plot files.old) (side_of G.Plot files.new)) }
    ensures same { G.tree files.new ≡ G.tree files.old }
    ensures area { G.area files.new ≡ G.area files.old }
    ensures count { RoseBy 0 (G.count files.old) (G.count files.new) }
{
    let bytes = match load_from(alloc, files, &path) {
        Ok(bytes) => bytes,
        Err(LoadError::NoFile) => return Err(Stop::ListFile(Trouble::Absent, path)),
        Err(LoadError::Failed) => return Err(Stop::ListFile(Trouble::Fault, path)),
        Err(LoadError::OutOfMemory) => return Err(Stop::OutOfMemory),
    };
    match FlatList::decode(alloc, &bytes) {
        Ok(list) => Ok(list),
        Err(CacheError::Damaged(line)) => Err(Stop::Damaged(path, line)),
        Err(CacheError::TooMany) => Err(Stop::TooMany),
        Err(CacheError::OutOfMemory) => Err(Stop::OutOfMemory),
    }
}

// The bytes of the file at the path, by a reader that goes back whatever it answers.
fn load_from<G: Ground>(alloc: Global, files: &mut G, path: &Path) -> Result<Vec<u8>, LoadError>
    ensures whole { IfOk result (λ bytes. IfSome (G.tree files.old) (λ tree. HoldsFile bytes.items (get tree path.now))) }
    ensures no_file { IsErrOf result LoadError.NoFile → IfSome (G.tree files.old) (λ tree. is_file (get tree path.now) ≡ false) }
    ensures cause { IsErrOf result LoadError.Failed → RoseBy 1 (G.count files.old) (G.count files.new) }
    ensures same { G.tree files.new ≡ G.tree files.old }
    ensures area { G.area files.new ≡ G.area files.old }
    ensures count { RoseBy 0 (G.count files.old) (G.count files.new) }
{
    // The count of faults is a number of 64 bits.
    let _faults = files.faults();
    let Ok(mut reader) = files.reader(alloc) else {
        return Err(LoadError::OutOfMemory);
    };
    let bytes = load(alloc, &mut reader, path);
    files.take_reader(reader);
    bytes
}
