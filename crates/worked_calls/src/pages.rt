//! The help that words ask for, and the hint after refused words.
use help_pages::{asked, asked_among, hint, placing};
use script_lines::{Trouble, put_lines, put_value};
use std::alloc::{AllocError, Global};
use tool_words::read_words;

/// A line about the help or the hints.
#[derive(Clone, Copy, Drop, PartialEq, Eq)]
pub enum Asked {
    Help,
    HelpAmong,
    Hint,
    Placing,
}

/// Answers the line.
pub fn tell(
    alloc: Global,
    what: Asked,
    words: &[String],
    told: &mut String,
) -> Result<(), Trouble> {
    match what {
        Asked::Help => tell_head(asked(words), told)?,
        Asked::HelpAmong => tell_head(asked_among(words), told)?,
        Asked::Hint => tell_hint(alloc, words, told)?,
        Asked::Placing => match read_words(alloc, words) {
            Ok(command) => put_lines(told, '|', placing(&command))?,
            Err(_) => return Err(Trouble::Line),
        },
    }
    Ok(())
}

// Adds the first line of a help.
fn tell_head(text: Option<&'static str>, told: &mut String) -> Result<(), AllocError> {
    match text.and_then(|text| text.lines().next()) {
        Some(line) => put_value(told, line),
        None => put_value(told, "no help"),
    }
}

// Adds the hint after the refusal of the words.
fn tell_hint(alloc: Global, words: &[String], told: &mut String) -> Result<(), Trouble> {
    let Err(why) = read_words(alloc, words) else {
        put_value(told, "not refused")?;
        return Ok(());
    };
    let Some(refusal) = why.refusal() else {
        return Err(Trouble::Memory);
    };
    put_lines(told, '|', &hint(alloc, words, refusal)?)?;
    Ok(())
}
