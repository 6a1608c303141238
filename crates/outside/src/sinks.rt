//! Sinks, which take text.
ghost use Rattle.std.specs.Prelude.{◌≡◌, ◌≢◌, ◌+◌, ◌-◌, ◌<◌, ◌≤◌, ◌++◌, ℕ, List, Option, Some, [], length, take, min, OnOk, OnErr, IfOk, IfSome, is_some, ◌↔◌, IsErr};
ghost use Rattle.outside.specs.Count.{RoseBy, capped};
ghost use Rattle.outside.specs.Sinks.{GrewByPrefix, InMemory};

use crate::failures::Failed;
use path_text::OutOfMemory;
use std::alloc::Global;
use std::marker::Model;

/// An object that takes text.
pub trait Sink {
    /// All bytes that were put so far, if the sink tells them.
    ghost text: { Self → Option (List ℕ) };

    /// The number of faults.
    ghost count: { Self → ℕ };

    /// The number of faults.
    fn faults(&self) -> u64
        ensures { result ≡ count self.now };

    /// Appends some bytes from the front, and answers their number: at least one, if the bytes are not empty.
    fn put(&mut self, bytes: &[u8]) -> Result<usize, Failed>
        ensures most { IfOk result (λ n. n ≤ length bytes.now) }
        ensures some { IfOk result (λ n. 0 < length bytes.now → 0 < n) }
        ensures grew { IfOk result (λ n. IfSome (text self.old) (λ old. text self.new ≡ Some (old ++ take n bytes.now))) }
        ensures same { OnErr result (text self.new ≡ text self.old) }
        ensures tells { is_some (text self.new) ≡ is_some (text self.old) }
        ensures ok { OnOk result (RoseBy 0 (count self.old) (count self.new)) }
        ensures cause { OnErr result (RoseBy 1 (count self.old) (count self.new)) };
}

/// Puts all the bytes. It ends: each turn puts at least one byte, or is the last.
pub fn put_all<S: Sink>(sink: &mut S, bytes: &[u8]) -> Result<(), Failed>
    ensures all { OnOk result (IfSome (S.text sink.old) (λ old. S.text sink.new ≡ Some (old ++ bytes.now))) }
    ensures part { OnErr result (IfSome (S.text sink.old) (λ old. IfSome (S.text sink.new) (GrewByPrefix bytes.now old))) }
    ensures tells { is_some (S.text sink.new) ≡ is_some (S.text sink.old) }
    ensures ok { OnOk result (RoseBy 0 (S.count sink.old) (S.count sink.new)) }
    ensures cause { OnErr result (RoseBy 1 (S.count sink.old) (S.count sink.new)) }
{
    let mut at = 0;
    while at < bytes.len() {
        at += sink.put(&bytes[at..])?;
    }
    Ok(())
}

/// A sink in memory that takes a limited number of bytes. A contract sees it as its text, that limit and its count of faults.
#[derive(Debug, Drop)]
pub struct MemSink {
    text: Vec<u8>,
    limit: usize,
    count: u64,
}

impl Model for MemSink {
    ghost use Rattle.std.specs.Prelude.{◌≤◌, length, vec_capacity};
    ghost use Rattle.outside.specs.Sinks.{InMemory};

    ghost Value = { InMemory };

    ghost view = { λ s. record { text = s.text.items; limit = s.limit; count = s.count } };

    ghost invariant = { λ s. (length s.text.items ≤ s.limit) × (s.limit ≤ vec_capacity s.text) };
}

impl MemSink {
    /// Makes a sink that takes `takes` bytes in all. It takes all the memory for them.
    pub fn limited(alloc: Global, takes: u64) -> Result<MemSink, OutOfMemory>
        ensures { IfOk result (λ sink. sink ≡ record { text = []; limit = takes; count = 0 }) }
    {
        let Ok(limit) = usize::try_from(takes) else {
            return Err(OutOfMemory);
        };
        let text = Vec::with_capacity(alloc, limit)?;
        Ok(MemSink {
            text,
            limit,
            count: 0,
        })
    }

    /// All bytes that were put.
    pub fn text(&self) -> &[u8]
        ensures { result.now ≡ self.now.text }
    {
        self.text.as_slice()
    }
}

impl Sink for MemSink {
    ghost text = { λ s. Some s.text };

    ghost count = { λ s. s.count };

    fn faults(&self) -> u64 {
        self.count
    }

    /// Takes all bytes for which there is room. It fails exactly if the bytes are not empty and there is room for none.
    fn put(&mut self, bytes: &[u8]) -> Result<usize, Failed>
        ensures takes { IfOk result (λ n. n ≡ min (length bytes.now) (self.old.limit - length self.old.text)) }
        ensures grew { IfOk result (λ n. self.new ≡ record self.old { text = self.old.text ++ take n bytes.now }) }
        ensures some { IfOk result (λ n. 0 < length bytes.now → 0 < n) }
        ensures full { IsErr result ↔ ((0 < length bytes.now) × (length self.old.text ≡ self.old.limit)) }
        ensures counted { OnErr result (self.new ≡ record self.old { count = capped self.old.count 1 }) }
        ensures cause { OnErr result (RoseBy 1 self.old.count self.new.count) }
    {
        let room = self.limit - self.text.len();
        let n = bytes.len().min(room);
        if n == 0 && !bytes.is_empty() {
            self.count = self.count.saturating_add(1);
            return Err(Failed);
        }
        self.text.extend_from_slice(&bytes[..n]).unwrap();
        Ok(n)
    }
}
