//! The pieces of a pattern.
ghost use Rattle.std.specs.Prelude.{◌≡◌, [], ◌∷◌, ◌++◌, ◌<◌, ◌≤◌, true, false, MatchOption, IfOk, OnOk, length};
ghost use Rattle.std.specs.List.{list_any};
ghost use Rattle.std.specs.Str.{chars};
ghost use Rattle.find_tests.specs.Signs.{signs_of, is_sign};
ghost use Rattle.find_tests.specs.Glob.{before_close, behind_close, has_close, ranges_of, members, behind_members};
ghost use Rattle.find_tests.specs.Glob.{is_closed, bracket, is_negated, behind_negation, piece_at, behind_piece, pieces_of};
ghost use Rattle.find_tests.specs.Private.Brackets.{IsBracket, NoneCloses, IsMembers, IsRangeEnd};
ghost use Rattle.find_tests.specs.Matching.{is_in, takes};

use crate::signs::{Sign, Signs};
use path_text::OutOfMemory;
use std::alloc::Global;
use std::marker::Model;

/// The characters from one to another, both included.
#[derive(Clone, Copy, Debug, Drop, PartialEq, Eq)]
pub(crate) struct Range {
    pub first: char,
    pub last: char,
}

impl Range {
    fn has(self, c: char) -> bool
        ensures { result ≡ is_in c self }
    {
        self.first <= c && c <= self.last
    }
}

/// Ranges, seen as their list.
#[derive(Debug, Drop)]
pub(crate) struct Ranges {
    ranges: Vec<Range>,
}

impl Model for Ranges {
    ghost use Rattle.std.specs.Prelude.{List};
    ghost use Rattle.find_tests.specs.declared.pieces.Range.{Range};

    ghost Value = { List Range };

    ghost view = { λ r. r.ranges.items };
}

impl Ranges {
    fn make(alloc: Global) -> Ranges
        ensures { result ≡ [] }
    {
        Ranges {
            ranges: Vec::new(alloc),
        }
    }

    fn push(&mut self, range: Range) -> Result<(), OutOfMemory>
        ensures { OnOk result (self.new ≡ self.old ++ range ∷ []) }
    {
        self.ranges.push(range)?;
        Ok(())
    }

    fn have(&self, c: char) -> bool
        ensures { result ≡ list_any (is_in c) self.now }
    {
        self.ranges.iter().any(|range| range.has(c))
    }
}

/// A class of characters.
#[derive(Debug, Drop)]
pub(crate) enum Class {
    Any,
    Only(char),
    Among(Ranges),
    NotAmong(Ranges),
}

impl Class {
    pub(crate) fn takes(&self, c: char) -> bool
        ensures { result ≡ takes self.now c }
    {
        match self {
            Class::Any => true,
            Class::Only(d) => c == *d,
            Class::Among(ranges) => ranges.have(c),
            Class::NotAmong(ranges) => !ranges.have(c),
        }
    }
}

/// A piece of a pattern: any text, or one character of a class.
#[derive(Debug, Drop)]
pub(crate) enum Piece {
    AnyText,
    OneOf(Class),
}

// The pieces of a pattern. After a bracket that is not closed no bracket is closed, so at most one is read in vain.
pub(crate) fn pieces_of(alloc: Global, pattern: &str) -> Result<Vec<Piece>, OutOfMemory>
    ensures { IfOk result (λ pieces. pieces.items ≡ pieces_of (signs_of (chars pattern.now))) }
{
    let mut signs = Signs::of(pattern);
    let mut pieces = Vec::new(alloc);
    let mut may_close = true;
    while let Some(sign) = signs.pass() {
        let piece = piece_at(alloc, sign, &mut signs, &mut may_close)?;
        pieces.push(piece)?;
    }
    Ok(pieces)
}

// Gives the piece that a sign begins, and passes the signs that belong to it. If no bracket may close any more, it tries none.
// A bracket that is not closed shows that no later one may close.
#[tactic(auto, using(crate::proofs::Closing::closings))]
fn piece_at(
    alloc: Global,
    sign: Sign,
    signs: &mut Signs,
    may_close: &mut bool,
) -> Result<Piece, OutOfMemory>
    requires { NoneCloses may_close.old 1 signs.old }
    ensures piece { IfOk result (λ piece. piece ≡ piece_at sign signs.old) }
    ensures behind { OnOk result (signs.new ≡ behind_piece sign signs.old) }
    ensures closing { OnOk result (NoneCloses may_close.new 2 signs.new) }
{
    if sign.is('*') {
        return Ok(Piece::AnyText);
    }
    if sign.is('?') {
        return Ok(Piece::OneOf(Class::Any));
    }
    if sign.is('[') && *may_close {
        if let Some(class) = bracket(alloc, signs)? {
            return Ok(Piece::OneOf(class));
        }
        *may_close = false;
    }
    Ok(Piece::OneOf(Class::Only(sign.char())))
}

// The class of a bracket, whose `[` was passed. If the bracket is not closed, there is none, and no sign is passed.
fn bracket(alloc: Global, signs: &mut Signs) -> Result<Option<Class>, OutOfMemory>
    ensures { IfOk result (λ found. IsBracket signs.old signs.new found) }
{
    let mut ahead = signs.again();
    let negated = pass_negation(&mut ahead);
    let Some(ranges) = read_ranges(alloc, &mut ahead)? else {
        return Ok(None);
    };
    *signs = ahead;
    if negated {
        Ok(Some(Class::NotAmong(ranges)))
    } else {
        Ok(Some(Class::Among(ranges)))
    }
}

fn pass_negation(signs: &mut Signs) -> bool
    ensures negated { result ≡ is_negated signs.old }
    ensures behind { signs.new ≡ behind_negation signs.old }
{
    let mut ahead = signs.again();
    match ahead.pass() {
        Some(sign) if sign.is('!') => {
            *signs = ahead;
            true
        }
        _ => false,
    }
}

// The members of a bracket, up to its `]`, which is passed; none if it is not closed.
fn read_ranges(alloc: Global, signs: &mut Signs) -> Result<Option<Ranges>, OutOfMemory>
    ensures { IfOk result (λ found. IsMembers signs.old signs.new found) }
{
    let mut ranges = Ranges::make(alloc);
    let Some(first) = signs.pass() else {
        return Ok(None);
    };
    ranges.push(range_at(first, signs))?;
    while let Some(sign) = signs.pass() {
        if sign.is(']') {
            return Ok(Some(ranges));
        }
        ranges.push(range_at(sign, signs))?;
    }
    Ok(None)
}

// The range that a member begins, or the member alone. The call passes the `-` and the end of a range.
fn range_at(sign: Sign, signs: &mut Signs) -> Range
    ensures ranges { ranges_of (sign ∷ before_close signs.old) ≡ result ∷ ranges_of (before_close signs.new) }
    ensures behind { behind_close signs.old ≡ behind_close signs.new }
    ensures closed { has_close signs.old ≡ has_close signs.new }
    ensures shorter { length signs.new ≤ length signs.old }
{
    match pass_range_end(signs) {
        Some(last) => Range {
            first: sign.char(),
            last: last.char(),
        },
        None => Range {
            first: sign.char(),
            last: sign.char(),
        },
    }
}

// Passes a `-` and a member that is not the closing `]`.
fn pass_range_end(signs: &mut Signs) -> Option<Sign>
    ensures { IsRangeEnd signs.old signs.new result }
{
    let mut ahead = signs.again();
    match ahead.pass() {
        Some(dash) if dash.is('-') => {}
        _ => return None,
    }
    match ahead.pass() {
        Some(last) if !last.is(']') => {
            *signs = ahead;
            Some(last)
        }
        _ => None,
    }
}
