//! Files whose hashes are known, their order by content, and how they stand to each other.
ghost use Rattle.std.specs.Prelude.{◌≡◌};
ghost use Rattle.tree_dup.specs.Private.Running.{content_cmp, is_alike, same_content};

use path_text::Path;
use std::alloc::Global;
use std::cmp::Ordering;
use tree_cmp::Missing;

// How a file stands to the others of its run: files of one size and one hash.
#[derive(Clone, Copy, Debug, Drop, PartialEq, Eq)]
pub(crate) enum Standing {
    // Its bytes were those of the lead so far.
    Alike,
    // They differ from those of the lead.
    Other,
    // A read of it gave nothing.
    Missed(Missing),
}

// A file whose hash is known.
#[derive(Debug, Drop)]
pub(crate) struct File {
    pub(crate) path: Path,
    pub(crate) size: u64,
    pub(crate) hash: u64,
    pub(crate) standing: Standing,
}

// The outcome of comparing the files of a run: the SHA-256 of the lead, and how each file stands to it.
#[derive(Drop)]
pub(crate) struct Comparison {
    pub(crate) digest: [u8; 32],
    pub(crate) standings: Vec<Standing>,
}

// Files in order by their content, whose runs are to be compared. A run's place is that of its first file.
#[derive(Drop)]
pub(crate) struct Runs<'a> {
    pub(crate) alloc: Global,
    pub(crate) files: &'a [File],
}

// Files by their size and then their hash.
pub(crate) fn by_content(a: &File, b: &File) -> Ordering
    ensures { result ≡ content_cmp a.now b.now }
{
    a.size.cmp(&b.size).then(a.hash.cmp(&b.hash))
}

// Whether two files have one size and one hash.
pub(crate) fn same_content(a: &File, b: &File) -> bool
    ensures { result ≡ same_content a.now b.now }
{
    a.size == b.size && a.hash == b.hash
}

pub(crate) fn is_alike(file: &File) -> bool
    ensures { result ≡ is_alike file.now }
{
    match file.standing {
        Standing::Alike => true,
        Standing::Other | Standing::Missed(_) => false,
    }
}
