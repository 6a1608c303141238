//! The reading of a row of the comparison, and of an entry alone.
ghost use Rattle.std.specs.Prelude.{◌≡◌, ◌<◌, true, length, Some};
ghost use Rattle.entry_pages.specs.Entries.{is_of};
ghost use Rattle.tree_sync.specs.PrivateSteps.{row_if};
ghost use Rattle.tree_sync.specs.Syncing.{agrees, has_other, is_foreign};

use flat_list::{Entry, Mark};
use outside::{Kind, Stat};
use tree_cmp::{Compared, Exist, Row, Two};

/// Whether the row at a place, if it is there, says that the destination has the source's entry already.
pub(crate) fn agrees_at(stat: Option<Stat>, found: &Compared, at: usize, is_row: bool) -> bool
    requires { is_row ≡ true → at < length found.now.rows }
    ensures { result ≡ agrees stat (row_if is_row found.now.rows at) }
{
    is_row && agrees(stat, found.row(at))
}

fn agrees(stat: Option<Stat>, row: &Row) -> bool
    ensures { result ≡ agrees stat (Some row.now) }
{
    row.exist == Exist::Common
        && row.kind == Two::Common
        && (is_kind(stat, Kind::Dir) || row.content == Two::Common)
}

/// Whether the row at a place, if it is there, says that the destination's entry does not belong there.
pub(crate) fn is_foreign_at(found: &Compared, at: usize, is_row: bool) -> bool
    requires { is_row ≡ true → at < length found.now.rows }
    ensures { result ≡ is_foreign (row_if is_row found.now.rows at) }
{
    is_row && is_foreign(found.row(at))
}

fn is_foreign(row: &Row) -> bool
    ensures { result ≡ is_foreign (Some row.now) }
{
    row.exist == Exist::OnlyDest || row.kind == Two::Differ
}

/// Whether the entry is of a node that is never copied.
pub(crate) fn has_other(entry: &Entry) -> bool
    ensures { result ≡ has_other entry.now }
{
    entry.mark != Mark::Gone && is_kind(entry.stat, Kind::Other)
}

fn is_kind(stat: Option<Stat>, kind: Kind) -> bool
    ensures { result ≡ is_of kind stat }
{
    match stat {
        None => false,
        Some(stat) => stat.kind == kind,
    }
}
