//! The versions of the list file.

/// The version of a list file: `encode` writes version 2, and `decode` reads both. No call takes a version; contracts name it.
#[derive(Clone, Copy, Debug, Drop, PartialEq, Eq)]
pub enum Version {
    /// It has no targets of links.
    One,
    /// It has the targets of links, each in a line of its own.
    Two,
}
