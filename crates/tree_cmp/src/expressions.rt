//! Expressions over a row.
ghost use Rattle.std.specs.Prelude.{◌≡◌, ◌⊎◌, ◌+◌, ◌<◌, ◌==◌, ◌^◌, ◌∷◌, [], length, take, drop, map};
ghost use Rattle.std.specs.Prelude.{Ok, Err, IfOk, IfErr, IfSome, IfNone};
ghost use Rattle.std.specs.List.{list_all, list_any, slice_split, position};
ghost use Rattle.tree_cmp.specs.Expressions.{holds, meets, expr_reading, terms_reading, term_reading};

use crate::conditions::{Condition, condition_at};
use crate::errors::ExprError;
use crate::rows::Row;
use std::alloc::Global;
use std::marker::Model;

/// A test of a row. It holds if all conditions of at least one of its terms hold. Its value is the list of its terms, each the list
/// of its conditions.
#[derive(Debug, Drop)]
pub struct Expr {
    terms: Vec<Vec<Condition>>,
}

impl Model for Expr {
    ghost use Rattle.std.specs.Prelude.{List, map};
    ghost use Rattle.tree_cmp.specs.declared.conditions.Condition.{Condition};

    ghost Value = { List (List Condition) };

    ghost view = { λ e. map (λ term. term.items) e.terms.items };
}

impl Expr {
    /// Whether it holds of a row. It takes no memory.
    pub fn holds(&self, row: &Row) -> bool
        ensures { result ≡ holds self.now row.now }
    {
        any_met(&self.terms, row)
    }
}

fn any_met(terms: &[Vec<Condition>], row: &Row) -> bool
    ensures { result ≡ list_any (λ term. list_all (meets row.now) term.items) terms.now }
{
    terms.iter().any(|term| all_met(term, row))
}

fn all_met(term: &[Condition], row: &Row) -> bool
    ensures { result ≡ list_all (meets row.now) term.now }
{
    term.iter().all(|condition| condition.is_met(row))
}

/// Reads the expression of a text, or gives the first error from the left. An expression is one or more terms divided by `,`, and a
/// term is one or more conditions divided by `@`. A condition is `FIELD=STATE`: `EXIST` with `ONLY_SRC`, `ONLY_DEST`, `DIFFER` or
/// `COMMON`, or `TYPE`, `SIZE` or `CONTENT` with `DIFFER` or `COMMON`.
pub fn parse_expr(alloc: Global, text: &str) -> Result<Expr, ExprError>
    ensures ok { IfOk result (λ expr. expr_reading text.now ≡ Ok expr) }
    ensures refused { IfErr result (λ e. (expr_reading text.now ≡ Err e) ⊎ (e ≡ ExprError.OutOfMemory)) }
{
    if text.is_empty() {
        return Err(ExprError::Empty);
    }
    let terms = terms_in(alloc, text.as_bytes())?;
    Ok(Expr { terms })
}

// The terms of a text, divided by `,`.
fn terms_in(alloc: Global, text: &[u8]) -> Result<Vec<Vec<Condition>>, ExprError>
    requires { length text.now < 2 ^ 63 }
    ensures ok { IfOk result (λ terms. terms_reading 0 (slice_split (λ b. b == 44) text.now) ≡ Ok (map (λ term. term.items) terms.items)) }
    ensures refused { IfErr result (λ e. (terms_reading 0 (slice_split (λ b. b == 44) text.now) ≡ Err e) ⊎ (e ≡ ExprError.OutOfMemory)) }
{
    let mut terms = Vec::new(alloc);
    let mut at = 0;
    let mut rest = text;
    while let Some(end) = part_end(b',', rest) {
        terms.push(term_at(alloc, at, &rest[..end])?)?;
        at += end + 1;
        rest = &rest[end + 1..];
    }
    terms.push(term_at(alloc, at, rest)?)?;
    Ok(terms)
}

// The conditions of a term that begins at this place, divided by `@`.
fn term_at(alloc: Global, at: usize, text: &[u8]) -> Result<Vec<Condition>, ExprError>
    requires { at + length text.now < 2 ^ 63 }
    ensures ok { IfOk result (λ term. term_reading at (slice_split (λ b. b == 64) text.now) ≡ Ok term.items) }
    ensures refused { IfErr result (λ e. (term_reading at (slice_split (λ b. b == 64) text.now) ≡ Err e) ⊎ (e ≡ ExprError.OutOfMemory)) }
{
    let mut conditions = Vec::new(alloc);
    let mut at = at;
    let mut rest = text;
    while let Some(end) = part_end(b'@', rest) {
        conditions.push(condition_at(at, &rest[..end])?)?;
        at += end + 1;
        rest = &rest[end + 1..];
    }
    conditions.push(condition_at(at, rest)?)?;
    Ok(conditions)
}

// Where the first part ends, if another follows.
fn part_end(mark: u8, text: &[u8]) -> Option<usize>
    ensures found { IfSome result (λ k. (k < length text.now)
        × (slice_split (λ b. b == mark) text.now ≡ take k text.now ∷ slice_split (λ b. b == mark) (drop (k + 1) text.now))) }
    ensures last { IfNone result (slice_split (λ b. b == mark) text.now ≡ text.now ∷ []) }
{
    place_of(mark, text)
}

fn place_of(mark: u8, text: &[u8]) -> Option<usize>
    ensures { result ≡ position (λ b. b == mark) text.now }
{
    text.iter().position(|b| *b == mark)
}
