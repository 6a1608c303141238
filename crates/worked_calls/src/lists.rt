//! Lists: read from a list file, kept, sorted and taken apart.
use crate::held::Held;
use crate::tables::{FIELDS, TESTS};
use crate::telling::{tell_debug, tell_text, tell_value};
use find_tests::{Test, parse_test, select};
use flat_list::{Entry, FlatList, Mark};
use outside::{Kind, Stat};
use path_text::Path;
use script_lines::{Trouble, named, number_of, put_bytes, small_of};
use std::alloc::Global;
use tool_text::{Text, put_list, put_summary};

/// The lines about lists.
#[derive(Clone, Copy, Drop, PartialEq, Eq)]
pub enum Asked {
    Decode,
    Again,
    Add,
    Rank,
    Merge,
    Paths,
    Lines,
    Summary,
    Levels,
    Spread,
    Page,
    Place,
    Sort,
    Order,
    Select,
}

/// Does a line, and answers it.
pub fn tell(alloc: Global, asked: Asked, held: &mut Held, words: &[String]) -> Result<(), Trouble> {
    match asked {
        Asked::Decode => decode(alloc, held),
        Asked::Again => tell_again(alloc, &held.text, &mut held.told),
        Asked::Add => add(alloc, &mut held.list, words),
        Asked::Rank => {
            held.found.push(files_at(alloc, words)?)?;
            Ok(())
        }
        Asked::Merge => merge(alloc, held),
        Asked::Sort => sort(&mut held.list, words),
        Asked::Order => {
            held.list.sort_path()?;
            Ok(())
        }
        _ => tell_of(alloc, asked, &held.list, words, &mut held.told),
    }
}

// Of the list that is held.
fn tell_of(
    alloc: Global,
    asked: Asked,
    list: &FlatList,
    words: &[String],
    told: &mut String,
) -> Result<(), Trouble> {
    match (asked, words) {
        (Asked::Paths, []) => tell_paths(list, told),
        (Asked::Lines, []) => {
            let mut text = Text::make(alloc);
            put_list(&mut text, list)?;
            tell_text(alloc, &text, told)
        }
        (Asked::Summary, []) => {
            let mut text = Text::make(alloc);
            put_summary(&mut text, &list.summary())?;
            tell_text(alloc, &text, told)
        }
        (Asked::Levels, []) => tell_levels(alloc, list, told),
        (Asked::Spread, [pieces]) => tell_spread(list, small_of(pieces)?, told),
        (Asked::Page, [page]) => tell_page(list, number_of(page)?, told),
        (Asked::Place, [path]) => tell_place(alloc, list, path, told),
        (Asked::Select, [now, rest @ ..]) => {
            let tests = tests_of(alloc, rest)?;
            let chosen = select(alloc, list, &tests, number_of(now)?)?;
            tell_paths(&chosen, told)
        }
        _ => Err(Trouble::Line),
    }
}

// The paths of a list, each in a line.
fn tell_paths(list: &FlatList, told: &mut String) -> Result<(), Trouble> {
    put_paths(list, "| ", "\n", told)
}

// The paths of a list in one line.
fn tell_row(list: &FlatList, told: &mut String) -> Result<(), Trouble> {
    told.push('|')?;
    put_paths(list, " ", "", told)?;
    told.push('\n')?;
    Ok(())
}

fn put_paths(list: &FlatList, before: &str, after: &str, told: &mut String) -> Result<(), Trouble> {
    let mut cursor = list.cursor()?;
    for _ in 0..list.len() {
        if cursor.advance()? {
            told.push_str(before)?;
            told.push_str(cursor.entry().path.text())?;
            told.push_str(after)?;
        }
    }
    Ok(())
}

fn decode(alloc: Global, held: &mut Held) -> Result<(), Trouble> {
    match FlatList::decode(alloc, held.text.as_bytes()) {
        Ok(list) => {
            let text = format!(in alloc; "entries {}", list.len())?;
            held.list = list;
            tell_value(&text, &mut held.told)
        }
        Err(error) => tell_debug(alloc, &error, &mut held.told),
    }
}

fn tell_again(alloc: Global, text: &str, told: &mut String) -> Result<(), Trouble> {
    match FlatList::decode(alloc, text.as_bytes()) {
        Ok(list) => put_bytes(told, '|', &list.encode()?)?,
        Err(_) => return Err(Trouble::Line),
    }
    Ok(())
}

// A file of 7 bytes.
fn file_at(alloc: Global, path: &str) -> Result<Entry, Trouble> {
    Ok(Entry {
        path: Path::parse(alloc, path)?,
        stat: Some(Stat {
            kind: Kind::File,
            size: 7,
            mtime: Some(86400),
        }),
        mark: Mark::Fine,
        unnamed: 0,
        far: 0,
        target: None,
    })
}

fn files_at(alloc: Global, words: &[String]) -> Result<Vec<Entry>, Trouble> {
    let mut found = Vec::new(alloc);
    for word in words {
        found.push(file_at(alloc, word)?)?;
    }
    Ok(found)
}

fn add(alloc: Global, list: &mut FlatList, words: &[String]) -> Result<(), Trouble> {
    for word in words {
        list.add(&file_at(alloc, word)?)?;
    }
    Ok(())
}

// The list of the entries that all ranks found.
fn merge(alloc: Global, held: &mut Held) -> Result<(), Trouble> {
    let found = std::mem::replace(&mut held.found, Vec::new(alloc));
    held.list = FlatList::from_jobs(alloc, found)?;
    Ok(())
}

fn sort(list: &mut FlatList, words: &[String]) -> Result<(), Trouble> {
    let [word] = words else {
        return Err(Trouble::Line);
    };
    let (name, down) = match word.strip_prefix('-') {
        Some(name) => (name, true),
        None => (word.as_str(), false),
    };
    let Some(field) = named(&FIELDS, name) else {
        return Err(Trouble::Line);
    };
    list.sort_by(field, down)?;
    Ok(())
}

fn tell_levels(alloc: Global, list: &FlatList, told: &mut String) -> Result<(), Trouble> {
    for places in &list.levels()? {
        told.push('|')?;
        for place in places {
            told.push_str(&format!(in alloc; " {place}")?)?;
        }
        told.push('\n')?;
    }
    Ok(())
}

fn tell_spread(list: &FlatList, pieces: u32, told: &mut String) -> Result<(), Trouble> {
    if pieces == 0 {
        return Err(Trouble::Number);
    }
    for piece in &list.spread(pieces)? {
        tell_row(piece, told)?;
    }
    Ok(())
}

fn tell_page(list: &FlatList, page: u64, told: &mut String) -> Result<(), Trouble> {
    if page > 0 || list.is_empty() {
        return Err(Trouble::Number);
    }
    put_bytes(told, '|', list.page(0))?;
    Ok(())
}

fn tell_place(
    alloc: Global,
    list: &FlatList,
    path: &str,
    told: &mut String,
) -> Result<(), Trouble> {
    match list.place_of(&Path::parse(alloc, path)?) {
        Some(place) => tell_value(&format!(in alloc; "place {place}")?, told),
        None => tell_value("nowhere", told),
    }
}

// The tests of pairs of a name and a value.
fn tests_of(alloc: Global, words: &[String]) -> Result<Vec<Test>, Trouble> {
    let mut tests = Vec::new(alloc);
    for pair in words.chunks(2) {
        let [name, value] = pair else {
            return Err(Trouble::Line);
        };
        tests.push(test_of(alloc, name, value)?)?;
    }
    Ok(tests)
}

fn test_of(alloc: Global, name: &str, value: &str) -> Result<Test, Trouble> {
    if name == "newer" {
        if value == "-" {
            return Ok(Test::Newer(None));
        }
        return Ok(Test::Newer(Some(number_of(value)?)));
    }
    let Some(name) = named(&TESTS, name) else {
        return Err(Trouble::Line);
    };
    parse_test(alloc, name, value).map_err(|_| Trouble::Line)
}
