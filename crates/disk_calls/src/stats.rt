//! What the system tells of an entry, as the answer of a look.
ghost use Rattle.std.specs.Prelude.{◌≡◌, ◌≢◌, ℕ, pos, negsuc, IfOk, Some, None};

use crate::answers::is_absent;
use outside::{Kind, Stat};
use std::fs::Metadata;
use std::io;
use std::os::unix::fs::MetadataExt;

/// The error of the system, or nothing if nothing is at the path.
pub fn unseen(told: io::Result<Metadata>) -> io::Result<Option<Stat>>
    ensures { IfOk result (λ answer. answer ≡ None) }
{
    match told {
        Err(e) if !is_absent(e.kind()) => Err(e),
        _ => Ok(None),
    }
}

/// The stat of an entry.
pub fn stat_of(data: &Metadata) -> Stat
    ensures { result.kind ≢ Kind.File → result.size ≡ 0 }
{
    let kind = kind_of(data);
    let size = if kind == Kind::File { data.len() } else { 0 };
    let mtime = time_of(data.mtime());
    Stat { kind, size, mtime }
}

/// The seconds since 1970 of a stat. An earlier time is none.
pub fn time_of(seconds: i64) -> Option<u64>
    ensures known { (n : ℕ) → seconds ≡ pos n → result ≡ Some n }
    ensures before { (n : ℕ) → seconds ≡ negsuc n → result ≡ None }
{
    u64::try_from(seconds).ok()
}

fn kind_of(data: &Metadata) -> Kind {
    if data.is_file() {
        Kind::File
    } else if data.is_dir() {
        Kind::Dir
    } else if data.is_symlink() {
        Kind::Link
    } else {
        Kind::Other
    }
}
