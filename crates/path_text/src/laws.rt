//! The laws of paths. Each law is the contract of a function that does nothing.
ghost use Rattle.path_text.specs.Escape.{ReadingUndoesWriting, UnescapingUndoesEscaping};
ghost use Rattle.path_text.specs.Graft.{GraftUndoesBelow, BelowUndoesGraft, BelowKeepsOrder, ParentMovesToo};
ghost use Rattle.path_text.specs.Order.{IsPreorder, UnderIsContiguous, ReadsSlashAsZero, TopsAreNested, ParentIsOver};

/// Path order is preorder with siblings in byte order. A path comes before all paths under it. Of two children of a path, the
/// one with the lower name comes first, with all paths under it.
pub fn path_order_is_preorder()
    ensures { IsPreorder }
{}

/// The paths under a path are contiguous in path order. Each path that comes after the path and before one of them is one of
/// them.
pub fn under_is_contiguous()
    ensures { UnderIsContiguous }
{}

/// Of two paths that a third one is or is under, one is the other or is under it.
pub fn tops_are_nested()
    ensures { TopsAreNested }
{}

/// The parent of a path is a path, and each path but `/` is under its parent.
pub fn parent_is_over()
    ensures { ParentIsOver }
{}

/// Path order of paths, which hold no byte 0, is the order of the bytes with `/` read as 0.
pub fn path_order_reads_slash_as_zero()
    ensures { ReadsSlashAsZero }
{}

/// A path that [`Path::below`](crate::Path::below) takes below a top, and [`Path::graft`](crate::Path::graft) grafts on that
/// top, is itself again.
pub fn graft_undoes_below()
    ensures { GraftUndoesBelow }
{}

/// A path grafted on a top is at or under the top, and is itself again once it is taken below it.
pub fn below_undoes_graft()
    ensures { BelowUndoesGraft }
{}

/// Two paths at or under a top compare as they do below it.
pub fn below_keeps_order()
    ensures { BelowKeepsOrder }
{}

/// The parent of a path under a top is within the top, and moves to another top together with the path.
pub fn parent_moves_too()
    ensures { ParentMovesToo }
{}

/// The text that is written for a path is read as that path, and no other text is.
pub fn reading_undoes_writing()
    ensures { ReadingUndoesWriting }
{}

/// The text that is written for some bytes is read as those bytes, and no other text is.
pub fn unescaping_undoes_escaping()
    ensures { UnescapingUndoesEscaping }
{}
