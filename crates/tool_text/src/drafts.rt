//! Text in the making: the finished part, and after it the part that is being added.
ghost use Rattle.std.specs.Prelude.{◌≡◌, ◌++◌, ◌∷◌, [], replicate, OnOk, OnErr, IfOk, IfSome, Some};
ghost use Rattle.std.specs.List.{flat_map};
ghost use Rattle.std.specs.Option.{is_some};
ghost use Rattle.outside.specs.Count.{RoseBy};
ghost use Rattle.outside.specs.Sinks.{GrewByPrefix};
ghost use Rattle.path_text.specs.Escape.{escape};
ghost use Rattle.ring_core.specs.Text.{line_of};
ghost use Rattle.tool_text.specs.PrivateDrafts.{Adds};

use outside::{Failed, Sink, put_all};
use path_text::{OutOfMemory, Path, put_escaped, put_escaped_bytes};
use ring_core::{Event, put_event};
use std::alloc::Global;
use std::marker::Model;

/// Seen as (the finished part, the added part). Each call that adds keeps the finished part. `end` joins the added part to it, or takes
/// it away. The finished part may begin with pieces, which [`Draft::append`] moves there and no call copies.
#[derive(Debug, Drop)]
pub(crate) struct Draft {
    pieces: Vec<Vec<u8>>,
    bytes: Vec<u8>,
    stands: usize,
}

impl Model for Draft {
    ghost use Rattle.std.specs.Prelude.{◌≤◌, ◌++◌, List, ℕ, length, take, drop};
    ghost use Rattle.std.specs.List.{flat_map};

    ghost Value = { List ℕ × List ℕ };

    ghost view = { λ d. (flat_map (λ piece. piece.items) d.pieces.items ++ take d.stands d.bytes.items, drop d.stands d.bytes.items) };

    ghost invariant = { λ d. d.stands ≤ length d.bytes.items };
}

#[tactic(auto, using(crate::proofs::Drafted::drafted))]
impl Draft {
    pub(crate) fn make(alloc: Global) -> Draft
        ensures { result ≡ ([], []) }
    {
        Draft {
            pieces: Vec::new(alloc),
            bytes: Vec::new(alloc),
            stands: 0,
        }
    }

    /// Appends a finished text to a finished text. It moves their pieces, and copies no byte.
    pub(crate) fn append(front: Draft, back: Draft) -> Result<Draft, OutOfMemory>
        requires front { front.1 ≡ [] }
        requires back { back.1 ≡ [] }
        ensures { IfOk result (λ both. both ≡ (front.0 ++ back.0, [])) }
    {
        let mut pieces = front.pieces;
        pieces.push(front.bytes)?;
        let mut later = back.pieces;
        pieces.append(&mut later)?;
        Ok(Draft {
            pieces,
            bytes: back.bytes,
            stands: back.stands,
        })
    }

    /// Puts the finished part, one piece after another.
    pub(crate) fn put<S: Sink>(&self, sink: &mut S) -> Result<(), Failed>
        ensures all { OnOk result (IfSome (S.text sink.old) (λ old. S.text sink.new ≡ Some (old ++ self.now.0))) }
        ensures part { OnErr result (IfSome (S.text sink.old) (λ old. IfSome (S.text sink.new) (GrewByPrefix self.now.0 old))) }
        ensures tells { is_some (S.text sink.new) ≡ is_some (S.text sink.old) }
        ensures ok { OnOk result (RoseBy 0 (S.count sink.old) (S.count sink.new)) }
        ensures cause { OnErr result (RoseBy 1 (S.count sink.old) (S.count sink.new)) }
    {
        put_pieces(sink, &self.pieces)?;
        put_all(sink, &self.bytes[..self.stands])
    }

    pub(crate) fn reserve(&mut self, more: usize) -> Result<(), OutOfMemory>
        ensures { self.new ≡ self.old }
    {
        self.bytes.reserve(more)?;
        Ok(())
    }

    pub(crate) fn push(&mut self, byte: u8) -> Result<(), OutOfMemory>
        ensures { Adds (byte ∷ []) self.old self.new result }
    {
        self.bytes.push(byte)?;
        Ok(())
    }

    pub(crate) fn extend(&mut self, bytes: &[u8]) -> Result<(), OutOfMemory>
        ensures { Adds bytes.now self.old self.new result }
    {
        self.bytes.extend_from_slice(bytes)?;
        Ok(())
    }

    pub(crate) fn put_spaces(&mut self, count: u8) -> Result<(), OutOfMemory>
        ensures { Adds (replicate count 32) self.old self.new result }
    {
        self.bytes
            .resize(self.bytes.len() + usize::from(count), b' ')?;
        Ok(())
    }

    pub(crate) fn put_path(&mut self, path: &Path) -> Result<(), OutOfMemory>
        ensures { Adds (escape path.now) self.old self.new result }
    {
        put_escaped(&mut self.bytes, path)
    }

    pub(crate) fn put_text(&mut self, text: &str) -> Result<(), OutOfMemory>
        ensures { Adds (escape text.now) self.old self.new result }
    {
        put_escaped_bytes(&mut self.bytes, text.as_bytes())
    }

    pub(crate) fn put_event(&mut self, event: &Event) -> Result<(), OutOfMemory>
        ensures { Adds (line_of event.now) self.old self.new result }
    {
        put_event(&mut self.bytes, event)
    }

    /// Ends the adding: keeps the added part, or takes it away after an error.
    pub(crate) fn end(&mut self, put: Result<(), OutOfMemory>) -> Result<(), OutOfMemory>
        ensures answer { result ≡ put }
        ensures ok { OnOk put (self.new ≡ (self.old.0 ++ self.old.1, [])) }
        ensures err { OnErr put (self.new ≡ (self.old.0, [])) }
    {
        match put {
            Ok(()) => self.stands = self.bytes.len(),
            Err(_) => self.bytes.truncate(self.stands),
        }
        put
    }
}

// Puts pieces, one after another.
fn put_pieces<S: Sink>(sink: &mut S, pieces: &[Vec<u8>]) -> Result<(), Failed>
    ensures all { OnOk result (IfSome (S.text sink.old) (λ old. S.text sink.new ≡ Some (old ++ flat_map (λ piece. piece.items) pieces.now))) }
    ensures part { OnErr result (IfSome (S.text sink.old) (λ old. IfSome (S.text sink.new) (GrewByPrefix (flat_map (λ piece. piece.items) pieces.now) old))) }
    ensures tells { is_some (S.text sink.new) ≡ is_some (S.text sink.old) }
    ensures ok { OnOk result (RoseBy 0 (S.count sink.old) (S.count sink.new)) }
    ensures cause { OnErr result (RoseBy 1 (S.count sink.old) (S.count sink.new)) }
{
    for piece in pieces {
        put_all(sink, piece)?;
    }
    Ok(())
}
