//! Looks at paths, at each once.
ghost use Rattle.std.specs.Prelude.{◌≡◌, [], All, sum_by, IsOk, IfOk};
ghost use Rattle.std.specs.List.{Contains};
ghost use Rattle.std.specs.List.Sorted.{IsStrictlySortedBy};
ghost use Rattle.path_text.specs.Order.{path_cmp};
ghost use Rattle.outside.specs.Count.{RoseBy};
ghost use Rattle.path_looks.specs.Answers.{by_stat};
ghost use Rattle.path_looks.specs.Looks.{paths_of, fault_of, IsSeen, AreLooks};

use crate::looks::{Look, Seen};
use outside::{Failed, Ground, Stat, Tree};
use path_text::{OutOfMemory, Path};
use std::alloc::Global;

/// Looks once at each of the paths, also if a path is given twice. The looks are in path order.
pub fn look_at_each<G: Ground>(
    alloc: Global,
    files: &mut G,
    paths: Vec<Path>,
) -> Result<Vec<Look>, OutOfMemory>
    ensures looks { IfOk result (λ looks. AreLooks (G.tree files.old) paths.items looks.items (G.count files.old) (G.count files.new)) }
    ensures same { G.tree files.new ≡ G.tree files.old }
    ensures area { G.area files.new ≡ G.area files.old }
    ensures count { RoseBy 0 (G.count files.old) (G.count files.new) }

    // With no path it does not call the files.
    ensures none { paths.items ≡ [] → IsOk result }
    ensures idle { paths.items ≡ [] → files.new ≡ files.old }
{
    if paths.is_empty() {
        return Ok(Vec::new(alloc));
    }
    let paths = each_once(paths)?;
    // The count of faults is a number of 64 bits.
    let _faults = files.faults();
    let mut reader = files.reader(alloc)?;
    let looks = looks_by(alloc, &mut reader, paths);
    files.take_reader(reader);
    looks
}

// The paths in path order, each once.
fn each_once(paths: Vec<Path>) -> Result<Vec<Path>, OutOfMemory>
    ensures once { IfOk result (λ each. IsStrictlySortedBy path_cmp each.items) }
    ensures every { IfOk result (λ each. All (Contains each.items) paths.items) }
    ensures none_else { IfOk result (λ each. All (Contains paths.items) each.items) }
{
    let mut each = paths;
    each.sort()?;
    each.dedup();
    Ok(each)
}

// The looks of a reader at the paths, in their order.
fn looks_by<T: Tree>(
    alloc: Global,
    reader: &mut T,
    paths: Vec<Path>,
) -> Result<Vec<Look>, OutOfMemory>
    ensures paths { IfOk result (λ looks. paths_of looks.items ≡ paths.items) }
    ensures told { IfOk result (λ looks. All (λ l. IsSeen (T.tree reader.old) l.path l.seen) looks.items) }
    ensures counted { IfOk result (λ looks. RoseBy (sum_by fault_of looks.items) (T.count reader.old) (T.count reader.new)) }
{
    let mut looks = Vec::with_capacity(alloc, paths.len())?;
    for path in paths {
        looks.push(look_at(reader, path))?;
    }
    Ok(looks)
}

// Looks at a path by one `stat`.
fn look_at<T: Tree>(reader: &mut T, path: Path) -> Look
    ensures path { result.path ≡ path }
    ensures told { IsSeen (T.tree reader.old) path result.seen }
    ensures same { T.tree reader.new ≡ T.tree reader.old }
    ensures counted { RoseBy (fault_of result) (T.count reader.old) (T.count reader.new) }
{
    let answer = reader.stat(&path);
    let seen = by_stat(answer);
    Look { path, seen }
}

// The meaning of the answer of a `stat`.
fn by_stat(answer: Result<Option<Stat>, Failed>) -> Seen
    ensures { result ≡ by_stat answer }
{
    match answer {
        Ok(Some(stat)) => Seen::At(stat.mtime),
        Ok(None) => Seen::Absent,
        Err(_) => Seen::Failed,
    }
}
