//! The target of each source.
ghost use Rattle.std.specs.Prelude.{◌≡◌, ◌≤◌, ◌<◌, ◌||◌, ◌++◌, if◌then◌else◌, false, true, length, map};
ghost use Rattle.std.specs.Prelude.{None, Ok, Err, OnOk, IfNone, IfSome, IfOk, IfErr, IsErrOf, MatchOption};
ghost use Rattle.std.specs.FinMap.{get};
ghost use Rattle.std.specs.List.{list_any};
ghost use Rattle.flat_list.specs.Prelude.{refusal, parent_of, is_within, RoseBy, IsTree, is_dir, is_root};
ghost use Rattle.outside.specs.Answered.{StatMeans};
ghost use Rattle.tree_copy.specs.Looking.{IsDue, LookStopped};
ghost use Rattle.tree_copy.specs.Placing.{IsCounted, IsWhy, PlaceStopped, Placed, asks_over, dir_told};
ghost use Rattle.tree_copy.specs.Placing.{has_targets, overlap, pairs_in, placed, placed_over, target_in};

use crate::pairs::{Pair, PlaceError};
use outside::{Failed, Kind, Stat, Tree};
use path_text::{JoinError, OutOfMemory, Path};
use std::alloc::Global;

/// Pairs each source with its target, in the order of the sources. It looks at the destination once. It looks at the destination's
/// parent once if there is one source and the destination is not a directory. The first look that fails is the error; after it an
/// overlap comes before a lack of targets.
pub fn place<R: Tree>(
    alloc: Global,
    reader: &mut R,
    sources: &[Path],
    dest: &Path,
) -> Result<Vec<Pair>, PlaceError>
    requires { 1 ≤ length sources.now }
    ensures told { IfOk result (λ pairs. IfSome (R.tree reader.old) (λ files. placed_over files dest.now sources.now ≡ Ok pairs.items)) }
    ensures why { IfErr result (λ e. IfSome (R.tree reader.old) (λ files. IsWhy (placed_over files dest.now sources.now) e)) }
    ensures sources { IfOk result (λ pairs. map (λ pair. pair.source) pairs.items ≡ sources.now) }
    ensures same { R.tree reader.new ≡ R.tree reader.old }
    ensures count { RoseBy 0 (R.count reader.old) (R.count reader.new) }
    ensures counted { IfErr result (IsCounted dest.now (R.count reader.old) (R.count reader.new)) }

    // By the reader's answers, over all files, also over files that show no tree.
    ensures ended { IfOk result (λ pairs. Placed R.gives sources.now dest.now (Ok pairs.items) reader.old reader.new) }
    ensures stopped { IfErr result (PlaceStopped R.gives sources.now dest.now reader.old reader.new) }
{
    let in_dir = look_at(reader, dest)?;
    let over_dir = if asks_over(in_dir, dest, sources) {
        look_over(reader, dest)?
    } else {
        false
    };
    decided(alloc, sources, dest, in_dir, over_dir)
}

// Whether the destination is a directory.
fn look_at<R: Tree>(reader: &mut R, dest: &Path) -> Result<bool, PlaceError>
    ensures told { IfOk result (λ is. IfSome (R.tree reader.old) (λ files. is ≡ is_dir (get files dest.now))) }
    ensures valid { IfSome (R.tree reader.old) IsTree }
    ensures same { R.tree reader.new ≡ R.tree reader.old }
    ensures count { RoseBy 0 (R.count reader.old) (R.count reader.new) }
    ensures means { IfOk result (λ is. StatMeans R.gives dest.now dir_told (Some is) reader.old reader.new) }
    ensures stopped { IfErr result (LookStopped R.gives dest.now (R.count reader.old) (R.count reader.new) reader.old reader.new) }
{
    match is_dir_at(reader, dest) {
        Some(is) => Ok(is),
        None => Err(PlaceError::Failed(dest.copy()?)),
    }
}

// Whether the parent of the destination is a directory.
fn look_over<R: Tree>(reader: &mut R, dest: &Path) -> Result<bool, PlaceError>
    requires { is_root dest.now ≡ false }
    ensures told { IfOk result (λ is. IfSome (R.tree reader.old) (λ files. is ≡ is_dir (get files (parent_of dest.now)))) }
    ensures same { R.tree reader.new ≡ R.tree reader.old }
    ensures count { RoseBy 0 (R.count reader.old) (R.count reader.new) }
    ensures means { IfOk result (λ is. StatMeans R.gives (parent_of dest.now) dir_told (Some is) reader.old reader.new) }
    ensures stopped { IfErr result (LookStopped R.gives (parent_of dest.now) (R.count reader.old) (R.count reader.new) reader.old reader.new) }
{
    let _ = dest.text(); // tells that it is a path
    let Some(parent) = dest.parent()? else {
        return Ok(false);
    };
    match is_dir_at(reader, &parent) {
        Some(is) => Ok(is),
        None => Err(PlaceError::Failed(parent)),
    }
}

// Whether a directory is at the path, if the look does not fail.
fn is_dir_at<R: Tree>(reader: &mut R, path: &Path) -> Option<bool>
    ensures told { IfSome result (λ is. IfSome (R.tree reader.old) (λ files. is ≡ is_dir (get files path.now))) }
    ensures valid { IfSome (R.tree reader.old) IsTree }
    ensures same { R.tree reader.new ≡ R.tree reader.old }
    ensures count { RoseBy 0 (R.count reader.old) (R.count reader.new) }
    ensures cause { IfNone result (RoseBy 1 (R.count reader.old) (R.count reader.new)) }
    ensures means { StatMeans R.gives path.now dir_told result reader.old reader.new }
{
    by_stat(reader.stat(path))
}

// Whether the answer of `stat` is a directory.
fn by_stat(told: Result<Option<Stat>, Failed>) -> Option<bool>
    ensures { result ≡ dir_told told }
{
    match told {
        Ok(Some(stat)) => Some(stat.kind == Kind::Dir),
        Ok(None) => Some(false),
        Err(_) => None,
    }
}

// Whether the parent of the destination matters.
fn asks_over(in_dir: bool, dest: &Path, sources: &[Path]) -> bool
    ensures { result ≡ asks_over in_dir dest.now sources.now }
{
    !in_dir && sources.len() == 1 && !is_root(dest)
}

fn is_root(path: &Path) -> bool
    ensures root { result ≡ is_root path.now }
    ensures valid { refusal path.now ≡ None }
{
    path.text() == "/"
}

// Pairs the sources with their targets, once it is known which paths are directories.
fn decided(
    alloc: Global,
    sources: &[Path],
    dest: &Path,
    in_dir: bool,
    over_dir: bool,
) -> Result<Vec<Pair>, PlaceError>
    ensures told { IfOk result (λ pairs. placed in_dir over_dir dest.now sources.now ≡ Ok pairs.items) }
    ensures why { IfErr result (IsDue (placed in_dir over_dir dest.now sources.now)) }
{
    match paired(alloc, sources, dest, in_dir)? {
        Some(pairs) => apart(sources, pairs, in_dir, over_dir),
        None => Err(without_targets(sources)),
    }
}

// The pairs, unless some sources or targets overlap, or no directory is there for the targets.
fn apart(
    sources: &[Path],
    pairs: Vec<Pair>,
    in_dir: bool,
    over_dir: bool,
) -> Result<Vec<Pair>, PlaceError>
    ensures { result ≡ (if overlap (sources.now ++ map
        (λ pair. pair.target) pairs.items) then Err PlaceError.Overlap else if in_dir || over_dir then Ok pairs else Err PlaceError.NoDest) }
{
    if ends_overlap(sources, &pairs) {
        return Err(PlaceError::Overlap);
    }
    if !in_dir && !over_dir {
        return Err(PlaceError::NoDest);
    }
    Ok(pairs)
}

// Why sources that have no targets are not copied.
fn without_targets(sources: &[Path]) -> PlaceError
    ensures { result ≡ (if overlap sources.now then PlaceError.Overlap else PlaceError.NoDest) }
{
    if overlap(sources) {
        PlaceError::Overlap
    } else {
        PlaceError::NoDest
    }
}

// The sources with their targets, if each has one.
fn paired(
    alloc: Global,
    sources: &[Path],
    dest: &Path,
    in_dir: bool,
) -> Result<Option<Vec<Pair>>, OutOfMemory>
    ensures some { IfOk result (λ found. IfSome found (λ pairs. pairs.items ≡ pairs_in in_dir dest.now sources.now)) }
    ensures whether { IfOk result (λ found. MatchOption found (has_targets in_dir dest.now sources.now ≡ false)
        (λ pairs. has_targets in_dir dest.now sources.now ≡ true)) }
{
    if !in_dir && sources.len() != 1 {
        return Ok(None);
    }
    let mut pairs = Vec::with_capacity(alloc, sources.len())?;
    for source in sources {
        let target = match target(source, dest, in_dir) {
            Ok(target) => target,
            Err(JoinError::TooLong) => return Ok(None),
            Err(JoinError::OutOfMemory) => return Err(OutOfMemory),
        };
        let source = source.copy()?;
        pairs.push(Pair { source, target })?;
    }
    Ok(Some(pairs))
}

// The target of a source.
fn target(source: &Path, dest: &Path, in_dir: bool) -> Result<Path, JoinError>
    ensures target { IfOk result (λ target. target ≡ target_in in_dir dest.now source.now) }
    ensures short { OnOk result (length (target_in in_dir dest.now source.now) ≤ 4095) }
    ensures too_long { IsErrOf result JoinError.TooLong → 4095 < length (target_in in_dir dest.now source.now) }
{
    let _ = dest.text(); // tells that it is a path
    if !in_dir || is_root(source) {
        return Ok(dest.clone()?);
    }
    dest.join(source.base())
}

// Whether two of the sources and the targets overlap.
#[tactic(auto, using(crate::proofs::Overlaps::overlap_ends))]
fn ends_overlap(sources: &[Path], pairs: &[Pair]) -> bool
    ensures { result ≡ overlap (sources.now ++ map (λ pair. pair.target) pairs.now) }
{
    if overlap(sources) {
        return true;
    }
    sources_meet(sources, pairs) || targets_overlap(pairs)
}

// Whether a source overlaps a target.
fn sources_meet(sources: &[Path], pairs: &[Pair]) -> bool
    ensures { result ≡ list_any (λ source. list_any (λ pair. is_within source pair.target || is_within pair.target source) pairs.now) sources.now }
{
    sources.iter().any(|source| meets_target(source, pairs))
}

// Whether two of the paths overlap.
fn overlap(paths: &[Path]) -> bool
    ensures { result ≡ overlap paths.now }
{
    let mut rest = paths;
    while let [path, others @ ..] = rest {
        if meets_path(path, others) {
            return true;
        }
        rest = others;
    }
    false
}

// Whether two of the targets overlap.
fn targets_overlap(pairs: &[Pair]) -> bool
    ensures { result ≡ overlap (map (λ pair. pair.target) pairs.now) }
{
    let mut rest = pairs;
    while let [pair, others @ ..] = rest {
        if meets_target(&pair.target, others) {
            return true;
        }
        rest = others;
    }
    false
}

// Whether the path overlaps another one.
fn meets_path(path: &Path, others: &[Path]) -> bool
    ensures { result ≡ list_any (λ other. is_within path.now other || is_within other path.now) others.now }
{
    others.iter().any(|other| meet(path, other))
}

// Whether the path overlaps a target.
fn meets_target(path: &Path, pairs: &[Pair]) -> bool
    ensures { result ≡ list_any (λ pair. is_within path.now pair.target || is_within pair.target path.now) pairs.now }
{
    pairs.iter().any(|pair| meet(path, &pair.target))
}

// Whether one of the paths is the other, or under it.
fn meet(path: &Path, other: &Path) -> bool
    ensures { result ≡ (is_within path.now other.now || is_within other.now path.now) }
{
    path.is_within(other) || other.is_within(path)
}
