//! Trees of files that can be read.
ghost use Rattle.std.specs.Prelude.{◌≡◌, ◌≢◌, ◌≤◌, ℕ, Option, Some, None, false, length, OnOk, OnErr, IfOk, IfSome, IsErrOf};
ghost use Rattle.outside.specs.Count.{RoseBy};

use crate::failures::Failed;
use crate::links::LinkText;
use crate::listings::Listing;
use path_text::Path;
use std::alloc::Global;
use thiserror::Error;

/// The kind of the node at a path.
#[derive(Clone, Copy, Debug, Drop, PartialEq, Eq)]
pub enum Kind {
    /// A regular file.
    File,
    /// A directory.
    Dir,
    /// A symbolic link, which is not followed.
    Link,
    /// Any other node: a device, a pipe, a socket.
    Other,
}

/// The answer of [`Tree::stat`]. It needs no contents.
#[derive(Clone, Copy, Debug, Drop, PartialEq, Eq)]
pub struct Stat {
    /// The kind of the node.
    pub kind: Kind,
    /// The number of bytes of a file, and 0 for all else.
    pub size: u64,
    /// The time of the last modification, in seconds since 1970, if there is one.
    pub mtime: Option<u64>,
}

/// Why [`Tree::list`] gives no names.
#[derive(Clone, Copy, Debug, Drop, PartialEq, Eq, Error)]
pub enum ListError {
    /// The outside failed, and the object has counted the fault.
    #[error("the outside failed")]
    Failed,
    /// The path is not a directory.
    #[error("the path is no directory")]
    NotDir,
    /// The call is out of memory.
    #[error("out of memory")]
    OutOfMemory,
}

/// Why [`Tree::read`] gives no bytes.
#[derive(Clone, Copy, Debug, Drop, PartialEq, Eq, Error)]
pub enum ReadError {
    /// The outside failed, and the object has counted the fault.
    #[error("the outside failed")]
    Failed,
    /// The path is not a file.
    #[error("the path is no file")]
    NotFile,
}

/// Why [`Tree::read_link`] gives no text.
#[derive(Clone, Copy, Debug, Drop, PartialEq, Eq, Error)]
pub enum LinkError {
    /// The outside failed, and the object has counted the fault.
    #[error("the outside failed")]
    Failed,
    /// The path is not a link.
    #[error("the path is no link")]
    NotLink,
    /// The call is out of memory.
    #[error("out of memory")]
    OutOfMemory,
}

/// Files that can be read. No call follows a link.
pub trait Tree {
    ghost use Rattle.outside.specs.Tree.{Files, is_dir, is_file, link_at, stat_of, Lists, AreNames, IsTree, Reads};
    ghost use Rattle.std.specs.FinMap as map;
    ghost use Rattle.std.specs.Option.{option_map};
    ghost use Rattle.outside.specs.Asked.{Asked};
    ghost use Rattle.outside.specs.Asked as asked;

    /// The nodes by their paths, if the object tells its tree.
    ghost tree: { Self → Option Files };

    /// The number of faults.
    ghost count: { Self → ℕ };

    /// Which answer a call may have, and which state it leaves. Each implementation chooses this relation. Code for every tree
    /// knows nothing of it, so it can name an answer only if a call gave it.
    ghost gives: { Self → Asked → Self → Type 0 } = { λ _ _ _. Unit {0} };

    /// The number of faults.
    fn faults(&self) -> u64
        ensures { result ≡ count self.now };

    /// The kind, size and time of the node at the path; `None` if there is no node.
    fn stat(&mut self, path: &Path) -> Result<Option<Stat>, Failed>
        ensures valid { IfSome (tree self.old) IsTree }
        ensures same { tree self.new ≡ tree self.old }
        ensures told { IfOk result (λ answer. IfSome (tree self.old) (λ files. answer ≡ option_map stat_of (map.get files path.now))) }
        ensures size { IfOk result (λ answer. IfSome answer (λ stat. stat.kind ≢ Kind.File → stat.size ≡ 0)) }
        ensures ok { OnOk result (RoseBy 0 (count self.old) (count self.new)) }
        ensures cause { OnErr result (RoseBy 1 (count self.old) (count self.new)) }
        ensures given { gives self.old (asked.stat path.now result) self.new };

    /// Lists the names in the directory at the path. It counts each name that is not text as `unnamed`, and as a fault.
    fn list(&mut self, alloc: Global, path: &Path) -> Result<Listing, ListError>
        ensures valid { IfSome (tree self.old) IsTree }
        ensures same { tree self.new ≡ tree self.old }
        ensures told { IfOk result (λ listing. IfSome (tree self.old) (λ files. Lists files path.now listing)) }
        ensures not_dir { IsErrOf result ListError.NotDir → IfSome (tree self.old) (λ files. is_dir (map.get files path.now) ≡ false) }
        ensures names { IfOk result (λ listing. AreNames path.now listing.0) }
        ensures unnamed { IfOk result (λ listing. RoseBy listing.1 (count self.old) (count self.new)) }
        ensures cause { IsErrOf result ListError.Failed → RoseBy 1 (count self.old) (count self.new) }
        ensures err { OnErr result (RoseBy 0 (count self.old) (count self.new)) }
        ensures given { gives self.old (asked.list path.now result) self.new };

    /// Reads the file at the path from an offset on, into the front of `into`, and answers the number of bytes. It reads at
    /// least one, unless the file or `into` is at its end. If no file is there, `into` is unchanged. The contract does not say
    /// which bytes `into` holds after the bytes read, and after `Failed`, since no system says it.
    fn read(&mut self, path: &Path, at: u64, into: &mut [u8]) -> Result<usize, ReadError>
        ensures valid { IfSome (tree self.old) IsTree }
        ensures same { tree self.new ≡ tree self.old }
        ensures most { IfOk result (λ n. n ≤ length into.new) }
        ensures told { IfOk result (λ n. IfSome (tree self.old) (λ files. Reads files path.now at into.new n)) }
        ensures not_file { IsErrOf result ReadError.NotFile → IfSome (tree self.old) (λ files. is_file (map.get files path.now) ≡ false) }
        ensures cause { IsErrOf result ReadError.Failed → RoseBy 1 (count self.old) (count self.new) }
        ensures count { RoseBy 0 (count self.old) (count self.new) }
        ensures size { length into.new ≡ length into.old }
        ensures untouched { IsErrOf result ReadError.NotFile → into.new ≡ into.old }
        ensures given { gives self.old (asked.read path.now at result) self.new };

    /// Reads the text of the link at the path.
    fn read_link(&mut self, alloc: Global, path: &Path) -> Result<LinkText, LinkError>
        ensures valid { IfSome (tree self.old) IsTree }
        ensures same { tree self.new ≡ tree self.old }
        ensures told { IfOk result (λ text. IfSome (tree self.old) (λ files. link_at (map.get files path.now) ≡ Some text)) }
        ensures not_link { IsErrOf result LinkError.NotLink → IfSome (tree self.old) (λ files. link_at (map.get files path.now) ≡ None) }
        ensures cause { IsErrOf result LinkError.Failed → RoseBy 1 (count self.old) (count self.new) }
        ensures count { RoseBy 0 (count self.old) (count self.new) }
        ensures given { gives self.old (asked.read_link path.now result) self.new };
}
