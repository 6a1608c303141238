//! Makes a link anew, with the text of its entry.
ghost use Rattle.std.specs.Prelude.{IfOk, IfSome};
ghost use Rattle.tree_copy.specs.Prelude.{IsDone, ShowsFate, ByReader, HasLooked, IsOpenTop, ShowsSpared, Spared, Stepped, CopyLink};

use crate::anew::{NewNode, placed};
use crate::making::look;
use flat_list::Entry;
use level_work::Fate;
use outside::{Kind, Plot, Tree};
use path_text::{OutOfMemory, Path};
use std::alloc::Global;

// Makes a link anew at the path, with the text of the entry. If the entry has none, the reader alone looks at the path.
pub(crate) fn link_made<P: Plot, R: Tree>(
    alloc: Global,
    reader: &mut R,
    part: &mut P,
    path: &Path,
    entry: &Entry,
) -> Result<Fate, OutOfMemory>
    requires { IsOpenTop (P.area part.old) path.now }
    ensures told { IfSome (P.tree part.old) (λ before. IfSome (P.tree part.new) (IsDone (ByReader CopyLink
        (R.tree reader.old)) path.now entry.now result before)) }
    ensures stepped { Stepped R.tree R.count P.tree P.area P.count reader.old reader.new part.old part.new result }
    ensures shown { IfOk result (ShowsFate R.gives P.gives path.now entry.now Kind.Link) }
{
    match &entry.target {
        Some(text) => placed(alloc, reader, part, path, &NewNode::Link(text)),
        None => Ok(spared(reader, path)),
    }
}

// The fate of a link whose text is not known: `Changed`, unless a node of another kind is at the path.
fn spared<R: Tree>(reader: &mut R, path: &Path) -> Fate
    ensures told { IfSome (R.tree reader.old) (λ seen. Spared seen path.now result) }
    ensures looks { HasLooked R.tree R.count reader.old reader.new result }
    ensures shown { ShowsSpared R.gives path.now result }
{
    match look(reader, path, Kind::Link) {
        Fate::Done => Fate::Changed,
        other => other,
    }
}
