//! Readers share the rows whose files are to be read.
ghost use Rattle.std.specs.Prelude.{◌≡◌, IfOk};
ghost use Rattle.flat_list.specs.Prelude.{grafted, RoseBy};
ghost use Rattle.shared_reads.specs.Desks.{HasRoom};
ghost use Rattle.tree_cmp.specs.Private.Reading.{Shows, counts};
ghost use Rattle.tree_cmp.specs.Private.Sharing.{ToldAt};

use crate::drafts::Draft;
use crate::errors::CmpError;
use crate::reading::{Outcome, same_bytes};
use outside::Tree;
use path_text::{OutOfMemory, Path};
use shared_reads::{Desk, Job, Reading};

// The rows whose files are to be read, among all rows, and the two tops. A row's place is its index.
#[derive(Drop)]
pub(crate) struct Work<'a> {
    pub(crate) drafts: &'a [Draft],
    pub(crate) left: &'a Path,
    pub(crate) right: &'a Path,
}

impl<'a, R: Tree> Job<R, Outcome> for Work<'a> {
    ghost use Rattle.std.specs.Prelude.{length};
    ghost use Rattle.tree_cmp.specs.Private.Reading.{counts};
    ghost use Rattle.tree_cmp.specs.Private.Sharing.{IsOfRow};

    ghost places = { λ work. length work.drafts.now };

    ghost told = { λ work tree place outcome. IsOfRow R.gives tree work.left.now work.right.now work.drafts.now place outcome };

    ghost faults = { counts };

    fn len(&self) -> usize {
        self.drafts.len()
    }

    fn read(&self, place: usize, reader: &mut R, desk: &mut Desk) -> Reading<Outcome> {
        let draft = &self.drafts[place];
        let Some(size) = draft.unread else {
            return Ok(None);
        };
        match outcome_at(self.left, self.right, &draft.row.path, size, reader, desk) {
            Ok(outcome) => Ok(Some(outcome)),
            Err(_) => Err(OutOfMemory),
        }
    }
}

// Reads the two files of so many bytes at a path below the tops.
pub(crate) fn outcome_at<R: Tree>(
    left: &Path,
    right: &Path,
    path: &Path,
    size: u64,
    reader: &mut R,
    desk: &mut Desk,
) -> Result<Outcome, CmpError>
    requires room { HasRoom desk.old }
    ensures told { IfOk result (ToldAt (R.tree reader.old) left.now right.now path.now size) }
    ensures same { R.tree reader.new ≡ R.tree reader.old }
    ensures shows { IfOk result (Shows R.gives (grafted left.now path.now) (grafted right.now path.now)) }
    ensures cause { IfOk result (λ outcome. RoseBy (counts outcome) (R.count reader.old) (R.count reader.new)) }
    ensures count { RoseBy 0 (R.count reader.old) (R.count reader.new) }
    ensures room { HasRoom desk.new }
{
    let left = Path::graft(left, path)?;
    let right = Path::graft(right, path)?;
    let outcome = same_bytes(
        reader,
        &left,
        &right,
        size,
        &mut desk.ours,
        &mut desk.theirs,
    );
    Ok(outcome)
}
