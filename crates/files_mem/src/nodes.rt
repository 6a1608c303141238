//! The nodes of a tree, without their paths.
ghost use Rattle.std.specs.Prelude.{◌≡◌, ◌≤◌, true, false, length, OnOk, OnErr, IfSome, IfNone};
ghost use Rattle.outside.specs.Tree.{stat_of, is_dir_body, is_file_body, bytes_of, file};
ghost use Rattle.outside.specs.Writes.{spliced};
ghost use Rattle.files_mem.specs.Stored.{body_of, node_of};

use outside::{Kind, LinkText, Stat};
use std::alloc::AllocError;

/// The kind of a node, with its contents.
#[derive(Drop)]
pub enum Body {
    /// A directory, with the number of children whose path would be too long.
    Dir(u64),
    /// A file, with its bytes.
    File(Vec<u8>),
    /// A symbolic link, with its text.
    Link(LinkText),
    /// Anything else.
    Other,
}

/// A node: its body and its time.
#[derive(Drop)]
pub struct Node {
    pub body: Body,
    pub mtime: Option<u64>,
}

impl Node {
    /// Its kind, size and time, as `stat` answers them.
    pub fn stat(&self) -> Stat
        ensures { result ≡ stat_of (node_of self.now) }
    {
        let (kind, size) = match &self.body {
            Body::Dir(_) => (Kind::Dir, 0),
            Body::File(bytes) => (Kind::File, bytes.len() as u64),
            Body::Link(_) => (Kind::Link, 0),
            Body::Other => (Kind::Other, 0),
        };
        Stat {
            kind,
            size,
            mtime: self.mtime,
        }
    }

    pub fn is_dir(&self) -> bool
        ensures { result ≡ is_dir_body (body_of self.now.body) }
    {
        matches!(self.body, Body::Dir(_))
    }
}

impl Node {
    /// The bytes of a file.
    pub fn bytes(&self) -> Option<&[u8]>
        ensures file { IfSome result (λ bytes. (is_file_body (body_of self.now.body) ≡ true) × (bytes.now ≡ bytes_of (body_of self.now.body))) }
        ensures other { IfNone result (is_file_body (body_of self.now.body) ≡ false) }
    {
        match &self.body {
            Body::File(bytes) => Some(bytes.as_slice()),
            _ => None,
        }
    }

    /// Writes bytes over those of a file from a place on, also past its end. A refusal changes nothing.
    pub fn write(&mut self, at: usize, bytes: &[u8]) -> Result<(), AllocError>
        requires file { is_file_body (body_of self.old.body) ≡ true }
        requires place { at ≤ length (bytes_of (body_of self.old.body)) }
        ensures ok { OnOk result (node_of self.new ≡ record { body = file (spliced (bytes_of (body_of self.old.body)) at bytes.now); mtime = self.old.mtime }) }
        ensures err { OnErr result (node_of self.new ≡ node_of self.old) }
    {
        match &mut self.body {
            Body::File(old) => splice(old, at, bytes),
            _ => Ok(()),
        }
    }
}

impl Node {
    /// Makes it a file with these bytes.
    pub fn set_bytes(&mut self, bytes: Vec<u8>)
        ensures { node_of self.new ≡ record { body = file bytes.items; mtime = self.old.mtime } }
    {
        self.body = Body::File(bytes);
    }
}

// Puts bytes over others from a place on, also past their end.
fn splice(old: &mut Vec<u8>, at: usize, bytes: &[u8]) -> Result<(), AllocError>
    requires { at ≤ length old.old.items }
    ensures ok { OnOk result (old.new.items ≡ spliced old.old.items at bytes.now) }
    ensures err { OnErr result (old.new.items ≡ old.old.items) }
{
    let over = (old.len() - at).min(bytes.len());
    old.extend_from_slice(&bytes[over..])?;
    old[at..at + over].copy_from_slice(&bytes[..over]);
    Ok(())
}

impl Clone for Body {
    ghost use Rattle.std.specs.Prelude.{◌≡◌};
    ghost use Rattle.files_mem.specs.Stored.{body_of};

    ghost is_clone = { λ a b. body_of b ≡ body_of a };

    fn clone(&self) -> Result<Body, AllocError> {
        Ok(match self {
            Body::Dir(far) => Body::Dir(*far),
            Body::File(bytes) => Body::File(bytes.clone()?),
            Body::Link(text) => Body::Link(text.clone()?),
            Body::Other => Body::Other,
        })
    }
}

impl Clone for Node {
    ghost use Rattle.std.specs.Prelude.{◌≡◌};
    ghost use Rattle.files_mem.specs.Stored.{node_of};

    ghost is_clone = { λ a b. node_of b ≡ node_of a };

    fn clone(&self) -> Result<Node, AllocError> {
        Ok(Node {
            body: self.body.clone()?,
            mtime: self.mtime,
        })
    }
}
