//! The calls by which a job asks the files about one path.
ghost use Rattle.std.specs.Prelude.{◌≡◌, ◌++◌, map, OnOk, IfOk};
ghost use Rattle.flat_list.specs.Prelude.{joined, RoseBy, is_of, is_kind};
ghost use Rattle.outside.specs.Tree.{AreNames};
ghost use Rattle.entry_pages.specs.Entries.{is_fine};
ghost use Rattle.tree_walk.specs.Answered.{IsAnswered};
ghost use Rattle.tree_walk.specs.Held.{is_listed};
ghost use Rattle.tree_walk.specs.Walk.{bare};
ghost use Rattle.tree_walk.specs.Looking.{by_stat, by_link, by_list, is_linked, IsLook};

use flat_list::{Entry, Mark};
use outside::{Failed, Kind, LinkError, LinkText, ListError, Listing, Stat, Tree};
use path_text::{JoinError, OutOfMemory, Path};
use rank_queue::Batch;
use std::alloc::Global;

// Looks at one path by one stat, and then at a directory by one listing or at a link by one reading of its text. Gives the
// entry and the names below it.
pub fn look<R: Tree>(
    alloc: Global,
    reader: &mut R,
    path: Path,
) -> Result<(Entry, Listing), OutOfMemory>
    ensures look { IfOk result (λ r. IsLook (R.tree reader.old) path (R.count reader.old) (R.count reader.new) r.0 r.1) }
    ensures answered { IfOk result (λ r. IsAnswered R.gives r.0) }
    ensures same { R.tree reader.new ≡ R.tree reader.old }
    ensures count { RoseBy 0 (R.count reader.old) (R.count reader.new) }
{
    let _text = path.text();
    let stat = reader.stat(&path);
    let entry = by_stat(path, stat);
    if is_linked(&entry) {
        let text = reader.read_link(alloc, &entry.path);
        return match by_link(entry, text) {
            Some(entry) => Ok((entry, Listing::make(alloc))),
            None => Err(OutOfMemory),
        };
    }
    if !is_listed(&entry) {
        return Ok((entry, Listing::make(alloc)));
    }
    let names = reader.list(alloc, &entry.path);
    match by_list(alloc, entry, names) {
        Some(looked) => Ok(looked),
        None => Err(OutOfMemory),
    }
}

// The entry of a path, by the answer of its stat.
fn by_stat(path: Path, answer: Result<Option<Stat>, Failed>) -> Entry
    ensures { result ≡ by_stat path answer }
{
    let (stat, mark) = match answer {
        Err(_) => (None, Mark::StatFailed),
        Ok(None) => (None, Mark::Gone),
        Ok(Some(stat)) => (Some(stat), Mark::Fine),
    };
    Entry {
        stat,
        ..bare(path, mark)
    }
}

// An entry with no more than a mark.
fn bare(path: Path, mark: Mark) -> Entry
    ensures { result ≡ bare path mark }
{
    Entry {
        path,
        stat: None,
        mark,
        unnamed: 0,
        far: 0,
        target: None,
    }
}

// The entry of a link, by the answer of its reading; none if that is out of memory. If the reading failed, the entry has no
// stat and no text. If the path is not a link any more, it has changed.
fn by_link(entry: Entry, answer: Result<LinkText, LinkError>) -> Option<Entry>
    ensures { result ≡ by_link entry answer }
{
    let mut entry = entry;
    match answer {
        Ok(text) => entry.target = Some(text),
        Err(LinkError::Failed) => return Some(bare(entry.path, Mark::StatFailed)),
        Err(LinkError::NotLink) => entry.mark = Mark::Changed,
        Err(LinkError::OutOfMemory) => return None,
    }
    Some(entry)
}

// The entry of a directory and the names below it, by the answer of its listing; none if that is out of memory.
fn by_list(
    alloc: Global,
    entry: Entry,
    answer: Result<Listing, ListError>,
) -> Option<(Entry, Listing)>
    ensures { result ≡ by_list entry answer }
{
    let mut entry = entry;
    match answer {
        Ok(listing) => {
            entry.unnamed = listing.unnamed();
            entry.far = listing.far();
            return Some((entry, listing));
        }
        Err(ListError::Failed) => entry.mark = Mark::ListFailed,
        Err(ListError::NotDir) => entry.mark = Mark::Changed,
        Err(ListError::OutOfMemory) => return None,
    }
    Some((entry, Listing::make(alloc)))
}

// Puts the paths of the children behind the paths that are there.
pub fn push_children(path: &Path, listing: &Listing, fresh: &mut Batch) -> Result<(), OutOfMemory>
    requires { AreNames path.now listing.now.0 }
    ensures { OnOk result (fresh.new ≡ fresh.old ++ map (joined path.now) listing.now.0) }
{
    for at in 0..listing.len() {
        match path.join(listing.name(at)) {
            Ok(child) => fresh.push(child)?,
            Err(JoinError::OutOfMemory) => return Err(OutOfMemory),
            Err(JoinError::TooLong) => unreachable!(),
        }
    }
    Ok(())
}

// Whether an entry is of a link whose text is to be read.
fn is_linked(entry: &Entry) -> bool
    ensures { result ≡ is_linked entry.now }
{
    is_of(Kind::Link, entry.stat) && is_fine(entry.mark)
}

// Whether an entry is of a directory that was listed.
pub fn is_listed(entry: &Entry) -> bool
    ensures { result ≡ is_listed entry.now }
{
    is_of(Kind::Dir, entry.stat) && is_fine(entry.mark)
}

fn is_of(kind: Kind, stat: Option<Stat>) -> bool
    ensures { result ≡ is_of kind stat }
{
    match stat {
        Some(stat) => is_kind(kind, stat.kind),
        None => false,
    }
}

fn is_kind(kind: Kind, other: Kind) -> bool
    ensures { result ≡ is_kind kind other }
{
    kind == other
}

fn is_fine(mark: Mark) -> bool
    ensures { result ≡ is_fine mark }
{
    match mark {
        Mark::Fine => true,
        Mark::StatFailed | Mark::ListFailed | Mark::Gone | Mark::Changed => false,
    }
}
