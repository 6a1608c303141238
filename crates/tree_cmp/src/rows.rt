//! The rows of a comparison, and the files that it did not read.
use path_text::Path;

/// On which side a path is.
#[derive(Clone, Copy, Debug, Drop, PartialEq, Eq)]
pub enum Exist {
    /// On the source's side alone.
    OnlySrc,
    /// On the destination's side alone.
    OnlyDest,
    /// On both sides.
    Common,
}

/// Whether two values agree.
#[derive(Clone, Copy, Debug, Drop, PartialEq, Eq)]
pub enum Two {
    /// They agree.
    Common,
    /// They differ.
    Differ,
    /// There are not two values, or one of them could not be read.
    NoValue,
}

/// The comparison's answer for a path.
#[derive(Debug, Drop)]
pub struct Row {
    /// The path below the two tops, `/` for the tops themselves.
    pub path: Path,
    /// On which side it is.
    pub exist: Exist,
    /// Whether the kinds agree, if both sides have a stat.
    pub kind: Two,
    /// Whether the sizes of two files agree.
    pub size: Two,
    /// Whether the bytes of two files agree, or the texts of two links.
    pub content: Two,
}

/// A file that was to be read and was not.
#[derive(Debug, Drop)]
pub struct Missed {
    /// Its whole path, which begins with the path of its side's top.
    pub path: Path,
    /// Whether it is the destination's.
    pub dest: bool,
}
