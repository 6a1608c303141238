//! Conditions on a row, and their texts.
ghost use Rattle.std.specs.Prelude.{◌≡◌, ◌+◌, ◌<◌, ◌==◌, ◌^◌, not, length, IfSome};
ghost use Rattle.std.specs.List.{position};
ghost use Rattle.tree_cmp.specs.Expressions.{value_of, meets};
ghost use Rattle.tree_cmp.specs.Expressions.{exist_in, two_in, either_in, or_bad_state, condition_in, condition_reading};

use crate::errors::ExprError;
use crate::rows::{Exist, Row, Two};

/// A field of a row that says whether two agree.
#[derive(Clone, Copy, Debug, Drop, PartialEq, Eq)]
pub(crate) enum Aspect {
    Kind,
    Size,
    Content,
}

/// A condition on a row.
#[derive(Clone, Copy, Debug, Drop, PartialEq, Eq)]
pub(crate) enum Condition {
    /// Its path is on the source's side alone.
    OnlySrc,
    /// It is on the destination's side alone.
    OnlyDest,
    /// It is on one side alone.
    OnOneSide,
    /// It is on both sides.
    OnBoth,
    /// The two sides agree in this field.
    Agree(Aspect),
    /// They differ in this field.
    Differ(Aspect),
}

impl Condition {
    /// Whether a row meets it.
    pub(crate) fn is_met(self, row: &Row) -> bool
        ensures { result ≡ meets row.now self }
    {
        match self {
            Condition::OnlySrc => matches!(row.exist, Exist::OnlySrc),
            Condition::OnlyDest => matches!(row.exist, Exist::OnlyDest),
            Condition::OnOneSide => !matches!(row.exist, Exist::Common),
            Condition::OnBoth => matches!(row.exist, Exist::Common),
            Condition::Agree(aspect) => matches!(value_of(aspect, row), Two::Common),
            Condition::Differ(aspect) => matches!(value_of(aspect, row), Two::Differ),
        }
    }
}

fn value_of(aspect: Aspect, row: &Row) -> Two
    ensures { result ≡ value_of aspect row.now }
{
    match aspect {
        Aspect::Kind => row.kind,
        Aspect::Size => row.size,
        Aspect::Content => row.content,
    }
}

// The condition that a text gives. The text begins at this place of the expression.
pub(crate) fn condition_at(at: usize, text: &[u8]) -> Result<Condition, ExprError>
    requires { at + length text.now < 2 ^ 64 }
    ensures { result ≡ condition_reading at text.now }
{
    let Some(end) = place_of_equals(text) else {
        return Err(ExprError::BadField(at));
    };
    condition_in(at, at + end + 1, &text[..end], &text[end + 1..])
}

fn place_of_equals(text: &[u8]) -> Option<usize>
    ensures { result ≡ position (λ b. b == 61) text.now }
{
    text.iter().position(|b| *b == b'=')
}

// The condition of a field and a state, which begin at these places.
fn condition_in(
    at: usize,
    behind: usize,
    field: &[u8],
    state: &[u8],
) -> Result<Condition, ExprError>
    ensures { result ≡ condition_in at behind field.now state.now }
{
    if field == b"EXIST".as_slice() {
        or_bad_state(behind, exist_in(state))
    } else if field == b"TYPE".as_slice() {
        or_bad_state(behind, two_in(Aspect::Kind, state))
    } else if field == b"SIZE".as_slice() {
        or_bad_state(behind, two_in(Aspect::Size, state))
    } else if field == b"CONTENT".as_slice() {
        or_bad_state(behind, two_in(Aspect::Content, state))
    } else {
        Err(ExprError::BadField(at))
    }
}

fn or_bad_state(at: usize, condition: Option<Condition>) -> Result<Condition, ExprError>
    ensures { result ≡ or_bad_state at condition }
{
    condition.ok_or(ExprError::BadState(at))
}

fn exist_in(state: &[u8]) -> Option<Condition>
    ensures { result ≡ exist_in state.now }
{
    if state == b"ONLY_SRC".as_slice() {
        Some(Condition::OnlySrc)
    } else if state == b"ONLY_DEST".as_slice() {
        Some(Condition::OnlyDest)
    } else {
        either_in(Condition::OnBoth, Condition::OnOneSide, state)
    }
}

fn two_in(aspect: Aspect, state: &[u8]) -> Option<Condition>
    ensures { result ≡ two_in aspect state.now }
{
    either_in(Condition::Agree(aspect), Condition::Differ(aspect), state)
}

// The condition of the state that the sides have in common, or of the state in which they differ.
fn either_in(common: Condition, differ: Condition, state: &[u8]) -> Option<Condition>
    ensures { result ≡ either_in common differ state.now }
{
    if state == b"COMMON".as_slice() {
        Some(common)
    } else if state == b"DIFFER".as_slice() {
        Some(differ)
    } else {
        None
    }
}
