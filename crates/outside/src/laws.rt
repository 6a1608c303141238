//! The laws of trees and of leases. Each law is the contract of a function that does nothing.
ghost use Rattle.outside.specs.Parts.{LeasesKeepTrees, LeasesOverlap, UnderDirectories};
ghost use Rattle.outside.specs.Links.{LinkReadingUndoesWriting};
ghost use Rattle.outside.specs.Tree.{ChildrenAreNames, ChildrenHaveParents, NodesHavePaths};

use path_text::unescaping_undoes_escaping;

/// The names in a directory of any tree are valid and in strictly ascending byte order. The path of each child has at most
/// 4,095 bytes.
pub fn children_have_names()
    ensures { ChildrenAreNames }
{}

/// In any tree, the path of each node is a valid path.
pub fn nodes_have_paths()
    ensures { NodesHavePaths }
{}

/// A path other than `/` is a child of its parent. So the entries of a directory are under its path.
pub fn children_have_parents()
    ensures { ChildrenHaveParents }
{}

/// In any tree, if a node is under a path, a directory is at that path.
pub fn nodes_are_under_directories()
    ensures { UnderDirectories }
{}

/// A lease leaves a tree and makes a part, and a return makes a tree again.
pub fn leases_keep_trees()
    ensures { LeasesKeepTrees }
{}

/// Two parts that are out at once give the same tree as two parts that are out one after the other.
pub fn leases_overlap()
    ensures { LeasesOverlap }
{}

/// The printable text that is written for a link's text is read as that text, and no other is.
pub fn link_reading_undoes_writing()
    ensures { LinkReadingUndoesWriting }
{
    unescaping_undoes_escaping();
}
