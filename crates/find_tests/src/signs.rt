//! The signs of a pattern: its characters, once backslashes are read.
ghost use Rattle.std.specs.Prelude.{◌≡◌, [], ◌∷◌, MatchOption};
ghost use Rattle.std.specs.Str.{chars};
ghost use Rattle.find_tests.specs.Signs.{signs_of, is_sign, char_of};

use crate::characters::next_char;
use std::marker::Model;

/// A character of a pattern.
#[derive(Clone, Copy, Debug, Drop, PartialEq, Eq)]
pub(crate) enum Sign {
    /// A character without a backslash before it, which may have a meaning of its own.
    Plain(char),
    /// A character after a backslash, which has no meaning of its own.
    Literal(char),
}

impl Sign {
    // The character.
    pub(crate) fn char(self) -> char
        ensures { result ≡ char_of self }
    {
        match self {
            Sign::Plain(c) => c,
            Sign::Literal(c) => c,
        }
    }

    // Whether it is this character without a backslash.
    pub(crate) fn is(self, c: char) -> bool
        ensures { result ≡ is_sign c self }
    {
        match self {
            Sign::Plain(d) => d == c,
            Sign::Literal(_) => false,
        }
    }
}

// The signs of a pattern that are still to come, seen as their list.
#[derive(Debug, Drop)]
pub(crate) struct Signs<'a> {
    rest: &'a str,
}

impl<'a> Model for Signs<'a> {
    ghost use Rattle.std.specs.Prelude.{List};
    ghost use Rattle.std.specs.Str.{chars};
    ghost use Rattle.find_tests.specs.declared.signs.Sign.{Sign};
    ghost use Rattle.find_tests.specs.Signs.{signs_of};

    ghost Value = { List Sign };

    ghost view = { λ s. signs_of (chars s.rest.now) };
}

impl<'a> Signs<'a> {
    pub(crate) fn of(pattern: &'a str) -> Signs<'a>
        ensures { result ≡ signs_of (chars pattern.now) }
    {
        Signs { rest: pattern }
    }

    // The same signs again, to look ahead.
    pub(crate) fn again(&self) -> Signs<'a>
        ensures { result ≡ self.now }
    {
        Signs { rest: self.rest }
    }

    // Passes the next sign.
    pub(crate) fn pass(&mut self) -> Option<Sign>
        ensures { MatchOption result ((self.old ≡ []) × (self.new ≡ [])) (λ sign. self.old ≡ sign ∷ self.new) }
    {
        match next_sign(self.rest) {
            Some((sign, rest)) => {
                self.rest = rest;
                Some(sign)
            }
            None => None,
        }
    }
}

fn next_sign(text: &str) -> Option<(Sign, &str)>
    ensures { MatchOption result (signs_of (chars text.now) ≡ [])
        (λ (sign, rest). signs_of (chars text.now) ≡ sign ∷ signs_of (chars rest.now)) }
{
    let Some((c, rest)) = next_char(text) else {
        return None;
    };
    if c != '\\' {
        return Some((Sign::Plain(c), rest));
    }
    match next_char(rest) {
        Some((escaped, behind)) => Some((Sign::Literal(escaped), behind)),
        None => Some((Sign::Literal('\\'), rest)),
    }
}
