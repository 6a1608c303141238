//! Makes a file or a link at a path, in place of none or of an old one of its kind.
ghost use Rattle.std.specs.Prelude.{◌≡◌, ◌≢◌, ◌⊎◌, true, IsTrue, IfErr, IfOk, IfSome, IsErrOf, is_some};
ghost use Rattle.std.specs.FinMap.{get, insert};
ghost use Rattle.flat_list.specs.Prelude.{RoseBy, is_open, Entry};
ghost use Rattle.outside.specs.Writes.{Answers, make_refusal, may_make};
ghost use Rattle.tree_copy.specs.Causes.{ReadMeans};
ghost use Rattle.tree_copy.specs.PrivateActs.{HasLooked, IsKept, IsOpenTop, IsPlaced, IsReplaced, ShowsPlaced, ShowsReplaced, Stepped};
ghost use Rattle.tree_copy.specs.PrivateNodes.{IsFor, Looked, ShowsLeft, call_of, is_old_of, kind_of, node_of};

use crate::making::{fate_of, is_taken, look};
use level_work::Fate;
use outside::{Kind, LinkText, Plot, ReadError, Tree, WriteError};
use path_text::{OutOfMemory, Path};
use std::alloc::Global;

// A node to be made: an empty file for the bytes of a source, or a link with a text.
#[derive(Drop)]
pub(crate) enum NewNode<'a> {
    File(&'a Path),
    Link(&'a LinkText),
}

// Makes the node at the path, in place of none or of an old one of its kind. It looks at the old node before it removes it.
pub(crate) fn placed<P: Plot, R: Tree>(
    alloc: Global,
    reader: &mut R,
    part: &mut P,
    path: &Path,
    new: &NewNode,
) -> Result<Fate, OutOfMemory>
    requires { IsOpenTop (P.area part.old) path.now }
    ensures told { IfSome (P.tree part.old) (λ before. IfSome (P.tree part.new) (IsPlaced
        (node_of new.now) (is_old_of new.now) (R.tree reader.old) path.now result before)) }
    ensures stepped { Stepped R.tree R.count P.tree P.area P.count reader.old reader.new part.old part.new result }
    ensures shown { (e : Entry) → IsFor new.now e → IfOk result (ShowsPlaced R.gives P.gives path.now e
        (kind_of new.now) (call_of new.now)) }
{
    match make(alloc, part, path, new) {
        Ok(()) => Ok(Fate::Done),
        Err(refused) => {
            if !is_taken(refused) {
                return fate_of(refused);
            }
            match may_replace(reader, path, new) {
                Fate::Done => replaced(alloc, part, path, new),
                other => Ok(other),
            }
        }
    }
}

// Makes the node at the path, if no node is there.
fn make<P: Plot>(alloc: Global, part: &mut P, path: &Path, new: &NewNode) -> Result<(), WriteError>
    requires { IsTrue (is_open (P.area part.old) path.now) }
    ensures told { IfSome (P.tree part.old) (λ files. Answers path.now (make_refusal (P.area part.old) files path.now) files
        (insert files path.now (node_of new.now)) result (P.tree part.new)) }
    ensures named { IfErr result (λ e. IsTrue (may_make e)) }
    ensures kept { IsKept P.tree P.area P.count part.old part.new }
    ensures cause { IsErrOf result WriteError.Failed → RoseBy 1 (P.count part.old) (P.count part.new) }
    ensures given { P.gives part.old path.now (call_of new.now) result part.new }
{
    match new {
        NewNode::File(_) => part.make_file(alloc, path),
        NewNode::Link(text) => part.make_link(alloc, path, text),
    }
}

// Whether the node at a path that is taken may be replaced: `Done` if it is of the kind of the new one. A file also needs a reader
// that can read its source. On a disk the source may be the old node itself by another name. The bytes of a file then stay with the
// reader that has it open, and the text of a link is known already.
fn may_replace<R: Tree>(reader: &mut R, path: &Path, new: &NewNode) -> Fate
    ensures told { IfSome (R.tree reader.old) (Looked (kind_of new.now) path.now result) }
    ensures looks { HasLooked R.tree R.count reader.old reader.new result }
    ensures shown { (e : Entry) → IsFor new.now e → ShowsLeft R.gives path.now e (kind_of new.now) result }
{
    match new {
        NewNode::File(source) => match look(reader, path, Kind::File) {
            Fate::Done => opened(reader, source),
            other => other,
        },
        NewNode::Link(_) => look(reader, path, Kind::Link),
    }
}

// Reads a byte of a source, which opens it: `Failed` if the reader fails, else `Done`.
fn opened<R: Tree>(reader: &mut R, source: &Path) -> Fate
    ensures told { (result ≡ Fate.Failed) ⊎ (result ≡ Fate.Done) }
    ensures looks { HasLooked R.tree R.count reader.old reader.new result }
    ensures shown { result ≢ Fate.Done → ReadMeans R.gives source.now result }
{
    let mut byte = [0u8; 1];
    match reader.read(source, 0, &mut byte) {
        Err(ReadError::Failed) => Fate::Failed,
        Err(ReadError::NotFile) => Fate::Done,
        Ok(_) => Fate::Done,
    }
}

// Removes the old node and makes the new one in its place. A node is there.
fn replaced<P: Plot>(
    alloc: Global,
    part: &mut P,
    path: &Path,
    new: &NewNode,
) -> Result<Fate, OutOfMemory>
    requires at { IsOpenTop (P.area part.old) path.now }
    requires taken { IfSome (P.tree part.old) (λ before. is_some (get before path.now) ≡ true) }
    ensures told { IfSome (P.tree part.old) (λ before. IfSome (P.tree part.new) (IsReplaced (node_of new.now) path.now result before)) }
    ensures named { IfOk result (λ fate. fate ≢ Fate.ParentFailed) }
    ensures kept { IsKept P.tree P.area P.count part.old part.new }
    ensures cause { IfOk result (λ fate. fate ≡ Fate.Failed → RoseBy 1 (P.count part.old) (P.count part.new)) }
    ensures shown { IfOk result (ShowsReplaced P.gives path.now (call_of new.now)) }
{
    match part.remove_file(alloc, path) {
        Ok(()) => {}
        Err(refused) => return fate_of(refused),
    }
    match make(alloc, part, path, new) {
        Ok(()) => Ok(Fate::Done),
        Err(refused) => fate_of(refused),
    }
}
