//! Makes the tree, node after node.
ghost use Rattle.std.specs.Prelude.{◌≡◌, ◌+◌, ◌-◌, ◌*◌, ◌<◌, ◌≤◌, [], ◌∷◌, None, OnOk, IfOk, replicate};
ghost use Rattle.std.specs.String.{string_bytes};
ghost use Rattle.files_mem.specs.Memory.{put_refusal, with_node};
ghost use Rattle.test_tree.specs.Nodes.{name_of, path_of, node_of, test_files};
ghost use Rattle.test_tree.specs.Made.{memory_of, made, place_over};

use files_mem::{MemGround, PutError};
use path_text::{JoinError, OutOfMemory, Path};
use std::alloc::{AllocError, Global};

/// Makes files in memory with this number of nodes.
pub fn made(alloc: Global, nodes: u64) -> Result<MemGround, OutOfMemory>
    requires { (1 ≤ nodes) × (nodes ≤ 1000000) }
    ensures { IfOk result (λ files. files ≡ memory_of (test_files nodes)) }
{
    let mut files = MemGround::empty(alloc)?;
    let mut place = root(alloc)?;
    for k in 0..nodes {
        place = next_place(alloc, place, k)?;
        put_next(alloc, &mut files, &place, nodes, k)?;
    }
    Ok(files)
}

fn root(alloc: Global) -> Result<Path, OutOfMemory>
    ensures { IfOk result (λ root. root ≡ 47 ∷ []) }
{
    match Path::parse(alloc, "/") {
        Ok(root) => Ok(root),
        Err(_) => Err(OutOfMemory),
    }
}

// The place of node k, from that of the node before it. Eight nodes in a row have the same, so it keeps no other.
fn next_place(alloc: Global, place: Path, k: u64) -> Result<Path, OutOfMemory>
    requires limit { k < 1000000 }
    requires place { place ≡ place_over (k - 1) }
    ensures { IfOk result (λ next. next ≡ place_over k) }
{
    if k % 8 != 1 {
        return Ok(place);
    }
    path_of(alloc, k / 8)
}

// The path of node k, made from the paths of the nodes over it, which are at most seven.
fn path_of(alloc: Global, k: u64) -> Result<Path, OutOfMemory>
    requires { k < 1000000 }
    ensures { IfOk result (λ path. path ≡ path_of k) }
{
    let place = if k == 0 {
        root(alloc)?
    } else {
        path_of(alloc, (k - 1) / 8)?
    };
    child(alloc, &place, k)
}

// The path of node k, which is at this place.
fn child(alloc: Global, place: &Path, k: u64) -> Result<Path, OutOfMemory>
    requires limit { k < 1000000 }
    requires place { place.now ≡ place_over k }
    ensures { IfOk result (λ path. path ≡ path_of k) }
{
    let name = name_of(alloc, k)?;
    match place.join(&name) {
        Ok(child) => Ok(child),
        Err(JoinError::OutOfMemory) => Err(OutOfMemory),
        Err(JoinError::TooLong) => unreachable!(),
    }
}

fn name_of(alloc: Global, k: u64) -> Result<String, AllocError>
    ensures { IfOk result (λ name. string_bytes name ≡ name_of k) }
{
    format!(in alloc; "n{k}")
}

// Puts node k at its place, in files that have the nodes before it.
fn put_next(
    alloc: Global,
    files: &mut MemGround,
    place: &Path,
    nodes: u64,
    k: u64,
) -> Result<(), OutOfMemory>
    requires below { k < nodes }
    requires limit { nodes ≤ 1000000 }
    requires place { place.now ≡ place_over k }
    requires made { files.old ≡ made nodes k }
    ensures { OnOk result (files.new ≡ made nodes (k + 1)) }
{
    let path = child(alloc, place, k)?;
    put(files, &path, nodes, k)
}

// Puts node k at its path, which has no node, in a directory.
fn put(files: &mut MemGround, path: &Path, nodes: u64, k: u64) -> Result<(), OutOfMemory>
    requires limit { k ≤ 1000000 }
    requires free { put_refusal files.old.files path.now ≡ None }
    ensures { OnOk result (files.new ≡ with_node files.old path.now (node_of nodes k)) }
{
    let done = if 8 * k + 1 < nodes {
        files.put_dir(path, 0, None)
    } else {
        let bytes = [(k % 256) as u8; 100];
        files.put_file(path, &bytes[..(37 * k % 101) as usize], None)
    };
    match done {
        Ok(()) => Ok(()),
        Err(PutError::OutOfMemory) => Err(OutOfMemory),
        Err(PutError::Exists) => unreachable!(),
        Err(PutError::NoParent) => unreachable!(),
    }
}
