//! Readers that files lend.
ghost use Rattle.std.specs.Prelude.{◌≡◌, ◌-◌, ◌+◌, ◌^◌, ◌<◌, All, length, min, IfOk};
ghost use Rattle.std.specs.List.{sum_by};

use outside::Ground;
use path_text::OutOfMemory;
use std::alloc::Global;

/// This many readers of the files as they are.
pub fn readers_of<G: Ground>(
    alloc: Global,
    files: &mut G,
    n: u32,
) -> Result<Vec<G::Reader>, OutOfMemory>
    ensures number { IfOk result (λ readers. length readers.items ≡ n) }
    ensures told { IfOk result (λ readers. All (λ r. G.Reader.tree r ≡ G.tree files.old) readers.items) }
    ensures zero { IfOk result (λ readers. sum_by G.Reader.count readers.items ≡ 0) }
    ensures same { G.tree files.new ≡ G.tree files.old }
    ensures area { G.area files.new ≡ G.area files.old }
    ensures count { G.count files.new ≡ G.count files.old }
{
    let mut readers = Vec::new(alloc);
    while readers.len() < n as usize {
        readers.push(files.reader(alloc)?)?;
    }
    Ok(readers)
}

/// Takes all readers back, and so adds their counts to the count of the files.
pub fn take_back<G: Ground>(files: &mut G, readers: Vec<G::Reader>)
    ensures same { G.tree files.new ≡ G.tree files.old }
    ensures area { G.area files.new ≡ G.area files.old }
    ensures count { G.count files.old < 2 ^ 64 → G.count files.new ≡ min (G.count files.old + sum_by G.Reader.count readers.items) (2 ^ 64 - 1) }
{
    for reader in readers {
        files.take_reader(reader);
    }
}
