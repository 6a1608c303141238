//! Whether pieces match a text.
ghost use Rattle.std.specs.Prelude.{◌≡◌, ◌∷◌, ◌<◌, true, false, length, drop, MatchOption};
ghost use Rattle.std.specs.Str.{chars};
ghost use Rattle.find_tests.specs.Matching.{matches};
ghost use Rattle.find_tests.specs.Private.Front.{IsFront, takes_first};
ghost use Rattle.find_tests.specs.declared.pieces.Piece.TheVariants.{AnyText};

use crate::characters::next_char;
use crate::pieces::{Class, Piece};

// Whether the pieces match the text.
pub(crate) fn matches(pieces: &[Piece], text: &str) -> bool
    ensures { result ≡ matches pieces.now (chars text.now) }
{
    match front_of(pieces, text) {
        Front::Star(behind, rest) => matches_behind_star(behind, rest),
        Front::Whole => true,
        Front::Fails => false,
    }
}

// Whether the pieces match the rest of the text after some front of it. Once it reaches a later `*`, it tries no longer front
// for this one: the text that the later `*` takes makes up for it.
fn matches_behind_star(pieces: &[Piece], text: &str) -> bool
    ensures { result ≡ matches (AnyText ∷ pieces.now) (chars text.now) }
{
    let mut pieces = pieces;
    let mut text = text;
    loop {
        match front_of(pieces, text) {
            Front::Star(behind, rest) => {
                pieces = behind;
                text = rest;
            }
            Front::Whole => return true,
            Front::Fails => {
                let Some((_, rest)) = next_char(text) else {
                    return false;
                };
                text = rest;
            }
        }
    }
}

// How far the pieces before the first `*` match a text.
pub(crate) enum Front<'p, 't> {
    // They match up to a `*`: the pieces after it, and the rest of the text.
    Star(&'p [Piece], &'t str),
    // There is no `*`, and they match the text to its end.
    Whole,
    // They do not match.
    Fails,
}

fn front_of<'p, 't>(pieces: &'p [Piece], text: &'t str) -> Front<'p, 't>
    ensures { IsFront pieces.now text.now result }
{
    let mut left = pieces;
    let mut rest = text;
    while let Some((piece, behind)) = left.split_first() {
        let Piece::OneOf(class) = piece else {
            return Front::Star(behind, rest);
        };
        let Some(after) = pass_one(class, rest) else {
            return Front::Fails;
        };
        left = behind;
        rest = after;
    }
    match next_char(rest) {
        Some(_) => Front::Fails,
        None => Front::Whole,
    }
}

// The text after its first character, if that is of the class.
fn pass_one<'t>(class: &Class, text: &'t str) -> Option<&'t str>
    ensures { MatchOption result (takes_first class.now (chars text.now) ≡ false)
        (λ rest. (takes_first class.now (chars text.now) ≡ true) × (chars rest.now ≡ drop 1 (chars text.now)) × (length rest.now < length text.now)) }
{
    let Some((c, rest)) = next_char(text) else {
        return None;
    };
    if class.takes(c) { Some(rest) } else { None }
}
