//! Makes a file anew and fills it with the bytes of its source.
ghost use Rattle.std.specs.Prelude.{◌≡◌, ◌≤◌, ◌<◌, [], Some, length, IsTrue, IfOk, IfSome};
ghost use Rattle.std.specs.FinMap.{get};
ghost use Rattle.flat_list.specs.Prelude.{is_open, SameBut};
ghost use Rattle.outside.specs.Writes.{new_file};
ghost use Rattle.outside.specs.Asked as asked;
ghost use Rattle.entry_pages.specs.Entries.{size_by};
ghost use Rattle.tree_copy.specs.Prelude.{IsDone, ShowsFate, WasWritten, ByReader, IsFilled, IsOpenTop, ShowsFilled, Stepped, MakeFile};

use crate::anew::{NewNode, placed};
use crate::making::fate_of;
use flat_list::Entry;
use level_work::Fate;
use outside::{Kind, Plot, ReadError, Tree};
use path_text::{OutOfMemory, Path};
use std::alloc::Global;

// Makes a file anew at the path, with the bytes of the entry's path up to the entry's size.
pub(crate) fn file_made<P: Plot, R: Tree>(
    alloc: Global,
    reader: &mut R,
    buffer: &mut [u8],
    part: &mut P,
    path: &Path,
    entry: &Entry,
) -> Result<Fate, OutOfMemory>
    requires at { IsOpenTop (P.area part.old) path.now }
    requires buffer { 0 < length buffer.old }
    ensures told { IfSome (P.tree part.old) (λ before. IfSome (P.tree part.new) (IsDone (ByReader MakeFile
        (R.tree reader.old)) path.now entry.now result before)) }
    ensures stepped { Stepped R.tree R.count P.tree P.area P.count reader.old reader.new part.old part.new result }
    ensures len { length buffer.new ≡ length buffer.old }
    ensures shown { IfOk result (ShowsFate R.gives P.gives path.now entry.now Kind.File) }
{
    let size = size_of(entry);
    let fate = placed(alloc, reader, part, path, &NewNode::File(&entry.path))?;
    if fate.is_done() {
        filled(alloc, reader, buffer, part, &entry.path, path, size)
    } else {
        Ok(fate)
    }
}

// The entry's size.
fn size_of(entry: &Entry) -> u64
    ensures { result ≡ size_by entry.now.stat }
{
    match &entry.stat {
        Some(stat) => stat.size,
        None => 0,
    }
}

// Copies the bytes of the source into the empty file at the path, in pieces that the buffer holds.
fn filled<P: Plot, R: Tree>(
    alloc: Global,
    reader: &mut R,
    buffer: &mut [u8],
    part: &mut P,
    source: &Path,
    path: &Path,
    size: u64,
) -> Result<Fate, OutOfMemory>
    requires open { IsTrue (is_open (P.area part.old) path.now) }
    requires buffer { 0 < length buffer.old }
    requires empty { IfSome (P.tree part.old) (λ before. get before path.now ≡ Some (new_file [])) }
    requires made { WasWritten P.gives path.now asked.make_file }
    ensures told { IfSome (R.tree reader.old) (λ seen. IfSome (P.tree part.new) (IsFilled seen source.now path.now size result)) }
    ensures others { IfSome (P.tree part.old) (λ before. IfSome (P.tree part.new) (SameBut path.now before)) }
    ensures stepped { Stepped R.tree R.count P.tree P.area P.count reader.old reader.new part.old part.new result }
    ensures len { length buffer.new ≡ length buffer.old }
    ensures shown { IfOk result (ShowsFilled R.gives P.gives source.now path.now size) }
{
    let mut at = 0u64;
    while at < size {
        let most = piece(size - at, buffer.len());
        let count = match reader.read(source, at, &mut buffer[..most]) {
            Ok(count) => count,
            Err(ReadError::Failed) => return Ok(Fate::Failed),
            Err(ReadError::NotFile) => return Ok(Fate::Changed),
        };
        if count == 0 {
            return Ok(Fate::Changed);
        }
        match part.write_at(alloc, path, at, &buffer[..count]) {
            Ok(()) => {}
            Err(refused) => return fate_of(refused),
        }
        at += count as u64;
    }
    Ok(Fate::Done)
}

/// How many bytes to read next: all that are left, or a whole buffer.
pub fn piece(left: u64, room: usize) -> usize
    requires left { 0 < left }
    requires room { 0 < room }
    ensures some { 0 < result }
    ensures most { result ≤ room }
    ensures inside { result ≤ left }
{
    if left < room as u64 {
        left as usize
    } else {
        room
    }
}
