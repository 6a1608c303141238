//! The roots of given paths.
ghost use Rattle.std.specs.Prelude.{◌≡◌, IfOk};
ghost use Rattle.tree_walk.specs.Roots.{is_in, IsRoots};

use path_text::{OutOfMemory, Path};

/// The given paths in path order, without each that is equal to or under another.
pub fn roots_of(paths: Vec<Path>) -> Result<Vec<Path>, OutOfMemory>
    ensures { IfOk result (λ roots. IsRoots paths.items roots.items) }
{
    let mut roots = paths;
    roots.sort()?;
    // The paths under a root follow it directly, so one pass is enough.
    roots.dedup_by(|path, root| is_in(path, root));
    Ok(roots)
}

/// Whether x is the path p or is under it.
pub fn is_in(x: &Path, p: &Path) -> bool
    ensures { result ≡ is_in x.now p.now }
{
    let (x, p) = (x.text().as_bytes(), p.text().as_bytes());
    if p.len() == 1 {
        return true;
    }
    x.starts_with(p) && (x.len() == p.len() || x[p.len()] == b'/')
}
