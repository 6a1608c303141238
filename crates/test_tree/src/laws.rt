//! The laws of the made-up tree. Each law is the contract of a function that does nothing.
ghost use Rattle.test_tree.specs.Laws.{FirstNodeIsThere, TestFilesAreTree, NoChildIsFar, NodesAreCounted};

/// Node 0 is there, at `/n0`.
pub fn first_node_is_there()
    ensures { FirstNodeIsThere }
{}

/// The made nodes are a tree: each node is in a directory, at a valid path.
pub fn test_files_are_tree()
    ensures { TestFilesAreTree }
{}

/// No directory has a child whose path is too long.
pub fn no_child_is_far()
    ensures { NoChildIsFar }
{}

/// The tree has one path for each node, and `/`.
pub fn nodes_are_counted()
    ensures { NodesAreCounted }
{}
