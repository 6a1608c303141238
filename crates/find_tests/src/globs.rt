//! Globs.
ghost use Rattle.std.specs.Prelude.{◌≡◌, IfOk};
ghost use Rattle.find_tests.specs.Matching.{glob_matches};

use crate::matching::matches;
use crate::pieces::{Piece, pieces_of};
use path_text::OutOfMemory;
use std::alloc::Global;
use std::marker::Model;

/// A pattern of characters, seen as its text.
#[derive(Debug, Drop)]
pub struct Glob {
    pattern: String,
    pieces: Vec<Piece>,
}

impl Model for Glob {
    ghost use Rattle.std.specs.Prelude.{◌≡◌, List, ℕ};
    ghost use Rattle.std.specs.String.{string_bytes};
    ghost use Rattle.std.specs.Str.{chars};
    ghost use Rattle.find_tests.specs.Signs.{signs_of};
    ghost use Rattle.find_tests.specs.Glob.{pieces_of};

    ghost Value = { List ℕ };

    ghost view = { λ g. string_bytes g.pattern };

    ghost invariant = { λ g. g.pieces.items ≡ pieces_of (signs_of (chars (string_bytes g.pattern))) };
}

impl Glob {
    // The glob of a pattern.
    pub(crate) fn parse(alloc: Global, pattern: &str) -> Result<Glob, OutOfMemory>
        ensures { IfOk result (λ glob. glob ≡ pattern.now) }
    {
        let pieces = pieces_of(alloc, pattern)?;
        let pattern = String::from_str(alloc, pattern)?;
        Ok(Glob { pattern, pieces })
    }
}

/// Whether a text matches a glob. It takes no memory.
pub fn glob_match(glob: &Glob, text: &str) -> bool
    ensures { result ≡ glob_matches glob.now text.now }
{
    matches(&glob.pieces, text)
}
