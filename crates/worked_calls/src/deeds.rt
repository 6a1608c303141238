//! The lines of a script, and their calls.
use crate::held::Held;
use crate::tables::DEEDS;
use crate::{commands, cuts, events, lists, notes, pages, paths, queues, tests};
use script_lines::{Trouble, is_answer, is_remark, named, words_of};
use std::alloc::{AllocError, Global};

/// The script with the answers of its lines.
pub fn transcript(alloc: Global, script: &str) -> Result<String, AllocError> {
    let mut held = Held::nothing(alloc);
    for line in script.lines() {
        if !is_answer(line) {
            held.told.push_str(line)?;
            held.told.push('\n')?;
            if let Err(why) = answer(alloc, &mut held, line) {
                held.told.push_str(why.text())?;
            }
        }
    }
    Ok(held.told)
}

// Does a line, and adds its answer.
fn answer(alloc: Global, held: &mut Held, line: &str) -> Result<(), Trouble> {
    if is_remark(line) {
        return Ok(());
    }
    if let Some(text) = line.strip_prefix(": ") {
        held.add_text(text, "\n")?;
        return Ok(());
    }
    if let Some(text) = line.strip_prefix(":-") {
        held.add_text(text, "")?;
        return Ok(());
    }
    let words = words_of(alloc, line)?;
    let [name, rest @ ..] = words.as_slice() else {
        return Err(Trouble::Line);
    };
    match named(&DEEDS, name) {
        Some(deed) => do_deed(alloc, deed, held, rest),
        None => Err(Trouble::Line),
    }
}

/// The crate that a line calls, by its first word.
#[derive(Clone, Copy, Drop, PartialEq, Eq)]
pub enum Deed {
    Text,
    Words,
    Standard,
    Glob,
    Test,
    Expr,
    Ranges,
    OfPages(pages::Asked),
    OfPaths(paths::Asked),
    OfQueues(queues::Asked),
    OfLists(lists::Asked),
    OfNotes(notes::Asked),
    OfEvents(events::Asked),
}

fn do_deed(alloc: Global, deed: Deed, held: &mut Held, words: &[String]) -> Result<(), Trouble> {
    let told = &mut held.told;
    match deed {
        Deed::Text => held.text = String::new(alloc),
        Deed::Words => commands::tell(alloc, words, told)?,
        Deed::Standard => commands::tell_standard(alloc, told)?,
        Deed::Glob => tests::tell_match(alloc, words, told)?,
        Deed::Test => tests::tell_test(alloc, words, told)?,
        Deed::Expr => tests::tell_expr(alloc, words, told)?,
        Deed::Ranges => cuts::tell(alloc, words, told)?,
        Deed::OfPages(asked) => pages::tell(alloc, asked, words, told)?,
        Deed::OfPaths(asked) => paths::tell(alloc, asked, words, told)?,
        Deed::OfQueues(asked) => queues::tell(alloc, asked, held, words)?,
        Deed::OfLists(asked) => lists::tell(alloc, asked, held, words)?,
        Deed::OfNotes(asked) => notes::tell(alloc, asked, held, words)?,
        Deed::OfEvents(asked) => events::tell(alloc, asked, &held.text, words, told)?,
    }
    Ok(())
}
