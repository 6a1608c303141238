//! Globs, and the tests and expressions of options.
use crate::tables::TESTS;
use crate::telling::{tell_debug, tell_truth, tell_value};
use find_tests::{Test, TestName, glob_match, parse_test};
use script_lines::{Trouble, named};
use std::alloc::Global;
use tree_cmp::parse_expr;

/// Answers whether a text matches a pattern.
pub fn tell_match(alloc: Global, words: &[String], told: &mut String) -> Result<(), Trouble> {
    let [pattern, text] = words else {
        return Err(Trouble::Line);
    };
    match parse_test(alloc, TestName::Name, pattern) {
        Ok(Test::Name(glob)) => tell_truth(glob_match(&glob, text), told),
        _ => Err(Trouble::Memory),
    }
}

/// Answers the test of a value, or why it is not valid.
pub fn tell_test(alloc: Global, words: &[String], told: &mut String) -> Result<(), Trouble> {
    let [name, value] = words else {
        return Err(Trouble::Line);
    };
    let Some(name) = named(&TESTS, name) else {
        return Err(Trouble::Line);
    };
    match parse_test(alloc, name, value) {
        Ok(test) => tell_value(&said(alloc, &test)?, told),
        Err(error) => tell_debug(alloc, &error, told),
    }
}

/// The text of a test: of a glob, whether it matches a log.
pub fn said(alloc: Global, test: &Test) -> Result<String, Trouble> {
    let text = match test {
        Test::Name(glob) if glob_match(glob, "x.log") => format!(in alloc; "name of x.log"),
        Test::Name(_) => format!(in alloc; "another name"),
        Test::Path(glob) if glob_match(glob, "/u/x.log") => format!(in alloc; "path of /u/x.log"),
        Test::Path(_) => format!(in alloc; "another path"),
        Test::Kind(kind) => format!(in alloc; "kind {kind:?}"),
        Test::Size(bound) => format!(in alloc; "size {bound:?}"),
        Test::Days(bound) => format!(in alloc; "days {bound:?}"),
        Test::Minutes(bound) => format!(in alloc; "minutes {bound:?}"),
        Test::Newer(time) => format!(in alloc; "newer {time:?}"),
    };
    Ok(text?)
}

/// Answers whether a text is an expression about rows of a comparison, or why it is not valid.
pub fn tell_expr(alloc: Global, words: &[String], told: &mut String) -> Result<(), Trouble> {
    let [text] = words else {
        return Err(Trouble::Line);
    };
    match parse_expr(alloc, text) {
        Ok(_) => tell_value("an expression", told),
        Err(error) => tell_debug(alloc, &error, told),
    }
}
