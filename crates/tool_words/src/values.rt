//! Words as values.
ghost use Rattle.std.specs.Prelude.{◌≡◌, ◌⊎◌, Some, None, IfOk, IfErr};
ghost use Rattle.std.specs.Char.{is_ascii_digit};
ghost use Rattle.std.specs.List.{list_all};
ghost use Rattle.tool_words.specs.Value.{number_in, split_in, path_in, lower_path_in, field_in, order_in, test_in, if_expr, want_in};
ghost use Rattle.tree_cmp.specs.Expressions.{expr_reading};

use crate::commands::Want;
use crate::errors::WordsError;
use crate::trimming::trimmed;
use circle_run::Split;
use find_tests::{Test, TestError, TestName, parse_test};
use flat_list::Field;
use path_text::{Path, PathError};
use std::alloc::Global;
use tree_cmp::{Expr, ExprError, parse_expr};

/// The number of a text, if it is from `least` to `most`.
pub(crate) fn number_in(least: u64, most: u64, text: &str) -> Option<u64>
    ensures { result ≡ number_in least most text.now }
{
    if text.len() > 40 || !are_digits(text) {
        return None;
    }
    match text.parse::<u64>() {
        Ok(n) => (least <= n && n <= most).then_some(n),
        Err(_) => None,
    }
}

fn are_digits(text: &str) -> bool
    ensures { result ≡ list_all is_ascii_digit text.now }
{
    text.as_bytes().iter().all(|b| b.is_ascii_digit())
}

/// The same for a small number.
pub(crate) fn small_number_in(least: u32, most: u32, text: &str) -> Option<u32>
    ensures { result ≡ number_in least most text.now }
{
    Some(number_in(least as u64, most as u64, text)? as u32)
}

/// How much a rank gives, by its name.
pub(crate) fn split_in(text: &str) -> Option<Split>
    ensures { result ≡ split_in text.now }
{
    match text {
        "equal" => Some(Split::Equal),
        "random" => Some(Split::Random),
        _ => None,
    }
}

/// The path of a word, which has this number.
pub(crate) fn path_in(alloc: Global, word: &str, place: usize) -> Result<Path, WordsError>
    ensures path { IfOk result (λ path. path_in word.now ≡ Some path) }
    ensures refused { IfErr result (λ e. ((e ≡ WordsError.BadValue place) × (path_in word.now ≡ None)) ⊎ (e ≡ WordsError.OutOfMemory)) }
{
    match Path::parse(alloc, trimmed(word)) {
        Ok(path) => Ok(path),
        Err(PathError::OutOfMemory) => Err(WordsError::OutOfMemory),
        Err(_) => Err(WordsError::BadValue(place)),
    }
}

/// The path below `/` of a word, which has this number.
pub(crate) fn lower_path_in(alloc: Global, word: &str, place: usize) -> Result<Path, WordsError>
    ensures path { IfOk result (λ path. lower_path_in word.now ≡ Some path) }
    ensures refused { IfErr result (λ e. ((e ≡ WordsError.BadValue place) × (lower_path_in word.now ≡ None)) ⊎ (e ≡ WordsError.OutOfMemory)) }
{
    if trimmed(word).len() == 1 {
        return Err(WordsError::BadValue(place));
    }
    path_in(alloc, word, place)
}

/// A field to sort by, and whether the order descends.
#[tactic(auto, using(crate::proofs::Dashes::no_dash))]
pub(crate) fn order_in(text: &str) -> Option<(Field, bool)>
    ensures { result ≡ order_in text.now }
{
    match text.strip_prefix('-') {
        Some(name) => Some((field_in(name)?, true)),
        None => Some((field_in(text)?, false)),
    }
}

fn field_in(text: &str) -> Option<Field>
    ensures { result ≡ field_in text.now }
{
    match text {
        "path" => Some(Field::Path),
        "name" => Some(Field::Name),
        "size" => Some(Field::Size),
        "mtime" => Some(Field::Mtime),
        "kind" => Some(Field::Kind),
        _ => None,
    }
}

/// The test of a text, which is in the word of this number.
pub(crate) fn test_in(
    alloc: Global,
    name: TestName,
    text: &str,
    place: usize,
) -> Result<Test, WordsError>
    ensures test { IfOk result (λ test. test_in name text.now ≡ Some test) }
    ensures refused { IfErr result (λ e. ((e ≡ WordsError.BadValue place) × (test_in name text.now ≡ None)) ⊎ (e ≡ WordsError.OutOfMemory)) }
{
    match parse_test(alloc, name, text) {
        Ok(test) => Ok(test),
        Err(TestError::OutOfMemory) => Err(WordsError::OutOfMemory),
        Err(TestError::BadNumber | TestError::BadUnit | TestError::BadKind) => {
            Err(WordsError::BadValue(place))
        }
    }
}

/// An expression and a file, which are in the word of this number.
pub(crate) fn want_in(alloc: Global, text: &str, place: usize) -> Result<Want, WordsError>
    ensures want { IfOk result (λ want. want_in text.now ≡ Some want) }
    ensures refused { IfErr result (λ e. ((e ≡ WordsError.BadValue place) × (want_in text.now ≡ None)) ⊎ (e ≡ WordsError.OutOfMemory)) }
{
    let Some((expr, file)) = text.split_once(':') else {
        return Err(WordsError::BadValue(place));
    };
    let expr = expr_in(alloc, expr, place)?;
    let file = path_in(alloc, file, place)?;
    Ok(Want { expr, file })
}

// The expression that a text says, which the word of this number holds.
fn expr_in(alloc: Global, text: &str, place: usize) -> Result<Expr, WordsError>
    ensures expr { IfOk result (λ expr. if_expr (expr_reading text.now) ≡ Some expr) }
    ensures refused { IfErr result (λ e. ((e ≡ WordsError.BadValue place) × (if_expr (expr_reading text.now) ≡ None)) ⊎ (e ≡ WordsError.OutOfMemory)) }
{
    match parse_expr(alloc, text) {
        Ok(expr) => Ok(expr),
        Err(ExprError::OutOfMemory) => Err(WordsError::OutOfMemory),
        Err(ExprError::BadField(_) | ExprError::BadState(_) | ExprError::Empty) => {
            Err(WordsError::BadValue(place))
        }
    }
}
