//! Laws of a sync, each the contract of a function that does nothing.
ghost use Rattle.tree_sync.specs.Laws.{SyncMakesEqual, SyncedRowsAgree};

use outside::nodes_have_paths;

/// After a sync the destination has a node like the source's at each path that is not at or under a named one. The two are of the
/// same kind, with the same bytes and the same text. With `delete` the destination has no other nodes at these paths.
pub fn sync_makes_equal()
    ensures { SyncMakesEqual }
{
    nodes_have_paths();
}

/// So a comparison of both trees afterwards shows no difference but at and under named paths. Without `delete` the destination alone
/// may have a path.
pub fn synced_rows_agree()
    ensures { SyncedRowsAgree }
{
    nodes_have_paths();
}
