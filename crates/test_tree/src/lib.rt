//! A made-up tree in memory, on which the tools test themselves.
//!
//! [`TestGround::make`] makes a tree of 1 to 1,000,000 nodes, numbered from 0. Node `k` is named `n` and `k`. Node 0 is under
//! `/`, and node `k` above 0 under node `(k - 1) / 8`. A node that has a child is a directory: node `k` has one if `8k + 1` is
//! below the number of nodes. Any other is a file of `37k mod 101` bytes, each of which is `k mod 256`. No node has a
//! modification time. So a tree of 10 nodes has `/n0`, `/n0/n1` to `/n0/n8`, and `/n0/n1/n9`: two directories, and eight files
//! with 416 bytes.
//!
//! The tree is an [`outside::Ground`] whose calls never fail, and neither do those of its readers, each a [`TestReader`]. A
//! contract sees both as the nodes by their paths, and their counts of faults are 0. So a tool that runs over them cannot
//! blame a fault. The ground and its parts are [`Steady`] files.
//!
//! ```text
//! let mut files = TestGround::make(alloc, 10)?;
//! let mut reader = files.reader(alloc)?;
//! reader.list(alloc, &Path::parse(alloc, "/n0")?)      // `n1` to `n8`
//! ```
//!
//! Proved: `make` makes exactly the tree of the rule (`test_files`), or is out of memory. Each call answers exactly as the nodes
//! say, and none fails. Laws say that the nodes are a tree ([`test_files_are_tree`]), and that node 0 is at `/n0`
//! ([`first_node_is_there`]). No directory has a child whose path is too long ([`no_child_is_far`]), and the number of nodes is
//! right ([`nodes_are_counted`]). Not claimed: the time that it takes. The definitions are in `specs/`: `Nodes` (the rule),
//! `Laws`, and `Made` (a tree while it is made).
#![tactic(auto)]

mod grounds;
mod laws;
mod making;
mod readers;
mod steady;

pub use grounds::{TestGround, TestPart};
pub use laws::{first_node_is_there, no_child_is_far, nodes_are_counted, test_files_are_tree};
pub use readers::TestReader;
pub use steady::{Nodes, Steady};
