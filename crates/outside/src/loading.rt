//! Reads whole files.
ghost use Rattle.std.specs.Prelude.{◌≡◌, ◌+◌, ◌<◌, ◌≤◌, ◌++◌, ℕ, true, false, length, take, drop, IfOk, IfErr, IfSome, IsErrOf};
ghost use Rattle.std.specs.FinMap.{get};
ghost use Rattle.outside.specs.Count.{RoseBy};
ghost use Rattle.outside.specs.Tree.{is_file, content};
ghost use Rattle.outside.specs.Whole.{HoldsFile};
ghost use Rattle.outside.specs.Asked as asked;
ghost use Rattle.outside.specs.Answered.{size_told, StatMeans, LastRead, FillEnded, LoadEnded, LoadStopped};

use crate::failures::Failed;
use crate::trees::{Kind, ReadError, Stat, Tree};
use path_text::Path;
use std::alloc::{AllocError, Global};
use thiserror::Error;

/// The number of bytes that one read asks for.
const PIECE: usize = 65536;

/// Why a file is not loaded.
#[derive(Clone, Copy, Debug, Drop, PartialEq, Eq, Error)]
pub enum LoadError {
    /// The outside failed, and the reader has counted the fault.
    #[error("the outside failed")]
    Failed,
    /// No file is at the path.
    #[error("no file is there")]
    NoFile,
    /// The call is out of memory.
    #[error("out of memory")]
    OutOfMemory,
}

impl From<Failed> for LoadError {
    ghost use Rattle.std.specs.Prelude.{◌≡◌};
    ghost use Rattle.outside.specs.declared.loading.LoadError.TheVariants as load;

    ghost from_gives = { λ _ e. e ≡ load.Failed };

    fn from(_: Failed) -> Self {
        LoadError::Failed
    }
}

impl From<ReadError> for LoadError {
    ghost use Rattle.std.specs.Prelude.{◌≡◌};
    ghost use Rattle.outside.specs.Whole.{load_error};

    ghost from_gives = { λ refused e. e ≡ load_error refused };

    fn from(refused: ReadError) -> Self {
        match refused {
            ReadError::Failed => LoadError::Failed,
            ReadError::NotFile => LoadError::NoFile,
        }
    }
}

impl From<AllocError> for LoadError {
    ghost use Rattle.std.specs.Prelude.{◌≡◌};
    ghost use Rattle.outside.specs.declared.loading.LoadError.TheVariants as load;

    ghost from_gives = { λ _ e. e ≡ load.OutOfMemory };

    fn from(_: AllocError) -> Self {
        LoadError::OutOfMemory
    }
}

/// Reads the bytes of the file at the path, up to the size that `stat` answers. It gives fewer if a read gives none before.
/// It ends: each turn reads at least one byte, or is the last. It takes room for all bytes before it reads any.
pub fn load<R: Tree>(alloc: Global, reader: &mut R, path: &Path) -> Result<Vec<u8>, LoadError>
    ensures whole { IfOk result (λ bytes. IfSome (R.tree reader.old) (λ files. HoldsFile bytes.items (get files path.now))) }
    ensures no_file { IsErrOf result LoadError.NoFile → IfSome (R.tree reader.old) (λ files. is_file (get files path.now) ≡ false) }
    ensures same { R.tree reader.new ≡ R.tree reader.old }
    ensures count { RoseBy 0 (R.count reader.old) (R.count reader.new) }
    ensures cause { IsErrOf result LoadError.Failed → RoseBy 1 (R.count reader.old) (R.count reader.new) }

    // Over all files, also those that tell no tree, by the answers of the reader.
    ensures ended { IfOk result (λ bytes. LoadEnded R.gives path.now bytes.items reader.old reader.new) }
    ensures stopped { IfErr result (LoadStopped R.gives path.now reader.old reader.new) }
{
    let size = size_of(reader, path)?;
    let mut bytes = vec![in alloc; 0u8; size]?;
    let n = fill(reader, path, bytes.as_mut_slice())?;
    bytes.truncate(n);
    Ok(bytes)
}

// The number of bytes of the file at the path.
fn size_of<R: Tree>(reader: &mut R, path: &Path) -> Result<usize, LoadError>
    ensures told { IfOk result (λ size. IfSome (R.tree reader.old) (λ files. (is_file (get files path.now) ≡ true) × (length (content (get files path.now)) ≡ size))) }
    ensures no_file { IsErrOf result LoadError.NoFile → IfSome (R.tree reader.old) (λ files. is_file (get files path.now) ≡ false) }
    ensures same { R.tree reader.new ≡ R.tree reader.old }
    ensures count { RoseBy 0 (R.count reader.old) (R.count reader.new) }
    ensures cause { IsErrOf result LoadError.Failed → RoseBy 1 (R.count reader.old) (R.count reader.new) }
    ensures means { StatMeans R.gives path.now size_told result reader.old reader.new }
{
    by_stat(reader.stat(path))
}

// The size of a file to load, by the answer of `stat`.
fn by_stat(told: Result<Option<Stat>, Failed>) -> Result<usize, LoadError>
    ensures { result ≡ size_told told }
{
    let Some(stat) = told? else {
        return Err(LoadError::NoFile);
    };
    if stat.kind != Kind::File {
        return Err(LoadError::NoFile);
    }
    Ok(stat.size as usize)
}

// Reads the file from its front on, until the buffer is full or a read gives no byte. It answers the number of bytes.
fn fill<R: Tree>(reader: &mut R, path: &Path, bytes: &mut [u8]) -> Result<usize, ReadError>
    ensures most { IfOk result (λ n. n ≤ length bytes.new) }
    ensures told { IfOk result (λ n. IfSome (R.tree reader.old) (λ files. take n bytes.new ≡ take n (content (get files path.now)))) }
    ensures all { IfOk result (λ n. IfSome (R.tree reader.old) (λ files. length bytes.new ≤ length (content (get files path.now)) → n ≡ length bytes.new)) }
    ensures no_file { IsErrOf result ReadError.NotFile → IfSome (R.tree reader.old) (λ files. is_file (get files path.now) ≡ false) }
    ensures same { R.tree reader.new ≡ R.tree reader.old }
    ensures count { RoseBy 0 (R.count reader.old) (R.count reader.new) }
    ensures cause { IsErrOf result ReadError.Failed → RoseBy 1 (R.count reader.old) (R.count reader.new) }
    ensures ended { IfOk result (λ n. FillEnded R.gives path.now (length bytes.new) n reader.old reader.new) }
    ensures stopped { IfErr result (λ e. (at : ℕ) × LastRead R.gives path.now at (Err e) reader.new) }
{
    let mut at = 0;
    while at < bytes.len() {
        let n = read_piece(reader, path, bytes, at)?;
        if n == 0 {
            return Ok(at);
        }
        at += n;
    }
    Ok(at)
}

// Reads the file from an offset on, into the buffer at the same offset.
fn read_piece<R: Tree>(
    reader: &mut R,
    path: &Path,
    bytes: &mut [u8],
    at: usize,
) -> Result<usize, ReadError>
    requires { at < length bytes.old }
    ensures most { IfOk result (λ n. at + n ≤ length bytes.new) }
    ensures kept { take at bytes.new ≡ take at bytes.old }
    ensures told { IfOk result (λ n. IfSome (R.tree reader.old) (λ files. take n (drop at bytes.new) ≡ take n (drop at (content (get files path.now))))) }
    ensures goes_on { IfOk result (λ n. IfSome (R.tree reader.old) (λ files. at < length (content (get files path.now)) → 0 < n)) }
    ensures no_file { IsErrOf result ReadError.NotFile → IfSome (R.tree reader.old) (λ files. is_file (get files path.now) ≡ false) }
    ensures same { R.tree reader.new ≡ R.tree reader.old }
    ensures count { RoseBy 0 (R.count reader.old) (R.count reader.new) }
    ensures cause { IsErrOf result ReadError.Failed → RoseBy 1 (R.count reader.old) (R.count reader.new) }
    ensures given { R.gives reader.old (asked.read path.now at result) reader.new }
{
    let end = at + (bytes.len() - at).min(PIECE);
    reader.read(path, at as u64, &mut bytes[at..end])
}
