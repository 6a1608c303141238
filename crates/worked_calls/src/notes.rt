//! Notes, and the lines beside them.
use crate::held::Held;
use crate::tables::WHYS;
use crate::telling::tell_text;
use circle_run::Share;
use path_text::Path;
use script_lines::{Trouble, named, number_of};
use std::alloc::Global;
use std::mem;
use tool_text::{
    Note, Text, Why, in_order, notes_of, put_line, put_notes, put_progress, put_shares,
};

/// The lines about notes.
#[derive(Clone, Copy, Drop, PartialEq, Eq)]
pub enum Asked {
    Marks,
    Note,
    Dest,
    AsTheyStand,
    InOrder,
    Say,
    Progress,
    Shares,
}

/// Does a line, and answers it.
pub fn tell(alloc: Global, asked: Asked, held: &mut Held, words: &[String]) -> Result<(), Trouble> {
    let mut text = Text::make(alloc);
    match (asked, words) {
        (Asked::Marks, []) => held.notes = notes_of(alloc, &held.list)?,
        (Asked::Note, [why, path]) => held.notes.push(note_of(alloc, why, path, false)?)?,
        (Asked::Dest, [why, path]) => held.notes.push(note_of(alloc, why, path, true)?)?,
        (Asked::AsTheyStand, []) => put_notes(&mut text, &held.notes)?,
        (Asked::InOrder, []) => {
            let notes = mem::replace(&mut held.notes, Vec::new(alloc));
            held.notes = in_order(notes)?;
            put_notes(&mut text, &held.notes)?;
        }
        (Asked::Say, [line]) => put_line(&mut text, line)?,
        (Asked::Progress, _) => put_progress(&mut text, &numbers_of(alloc, words)?)?,
        (Asked::Shares, _) => put_shares(&mut text, &shares_of(alloc, words)?)?,
        _ => return Err(Trouble::Line),
    }
    tell_text(alloc, &text, &mut held.told)
}

fn numbers_of(alloc: Global, words: &[String]) -> Result<Vec<u64>, Trouble> {
    let mut numbers = Vec::new(alloc);
    for word in words {
        numbers.push(number_of(word)?)?;
    }
    Ok(numbers)
}

// The shares, each from three words.
fn shares_of(alloc: Global, words: &[String]) -> Result<Vec<Share>, Trouble> {
    let mut shares = Vec::new(alloc);
    for triple in words.chunks(3) {
        let [handled, given, taken] = triple else {
            return Err(Trouble::Number);
        };
        shares.push(Share {
            handled: number_of(handled)?,
            given: large_of(given)?,
            taken: large_of(taken)?,
        })?;
    }
    Ok(shares)
}

fn large_of(word: &str) -> Result<u128, Trouble> {
    word.parse::<u128>().map_err(|_| Trouble::Number)
}

fn note_of(alloc: Global, why: &str, path: &str, dest: bool) -> Result<Note, Trouble> {
    Ok(Note {
        path: Path::parse(alloc, path)?,
        why: why_of(why)?,
        dest,
    })
}

fn why_of(word: &str) -> Result<Why, Trouble> {
    if let Some(number) = word.strip_prefix("Unnamed=") {
        return Ok(Why::Unnamed(number_of(number)?));
    }
    if let Some(number) = word.strip_prefix("TooLong=") {
        return Ok(Why::TooLong(number_of(number)?));
    }
    named(&WHYS, word).ok_or(Trouble::Line)
}
