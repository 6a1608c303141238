//! Paths, names and the texts of links.
use crate::telling::{tell_debug, tell_truth, tell_value};
use outside::LinkText;
use path_text::{Path, escape, put_escaped, put_escaped_bytes, unescape, valid_name};
use script_lines::{Trouble, number_of, put_bytes};
use std::alloc::Global;
use std::cmp::Ordering;

/// The lines about paths.
#[derive(Clone, Copy, Drop, PartialEq, Eq)]
pub enum Asked {
    Parse,
    Name,
    Join,
    Under,
    Within,
    Below,
    Ascend,
    Unescape,
    Link,
    UnescapeLink,
    Long,
}

/// Answers a line.
pub fn tell(
    alloc: Global,
    asked: Asked,
    words: &[String],
    told: &mut String,
) -> Result<(), Trouble> {
    match (asked, words) {
        (Asked::Parse, [text]) => tell_parsed(alloc, text, told),
        (Asked::Name, [name]) => tell_truth(valid_name(name), told),
        (Asked::Join, [path, name]) => tell_joined(alloc, path, name, told),
        (Asked::Under, [path, top]) => {
            let top = Path::parse(alloc, top)?;
            tell_truth(Path::parse(alloc, path)?.is_under(&top), told)
        }
        (Asked::Within, [path, top]) => {
            let top = Path::parse(alloc, top)?;
            tell_truth(Path::parse(alloc, path)?.is_within(&top), told)
        }
        (Asked::Below, [path, top]) => tell_below(alloc, path, top, told),
        (Asked::Ascend, _) => tell_truth(ascends(alloc, words)?, told),
        (Asked::Unescape, [text]) => match unescape(alloc, text) {
            Ok(path) => tell_path(alloc, &path, told),
            Err(error) => tell_debug(alloc, &error, told),
        },
        (Asked::Long, [piece, count]) => tell_long(alloc, piece, number_of(count)?, told),
        (Asked::Link, [text]) => match LinkText::parse(alloc, text) {
            Ok(link) => tell_link(alloc, &link, told),
            Err(error) => tell_debug(alloc, &error, told),
        },
        (Asked::UnescapeLink, [text]) => match LinkText::unescape(alloc, text) {
            Ok(link) => tell_link(alloc, &link, told),
            Err(error) => tell_debug(alloc, &error, told),
        },
        _ => Err(Trouble::Line),
    }
}

// A path, escaped.
fn tell_path(alloc: Global, path: &Path, told: &mut String) -> Result<(), Trouble> {
    let mut line = escape(alloc, path)?;
    line.push(b'\n')?;
    put_bytes(told, '|', &line)?;
    Ok(())
}

// A copy of the text of a link, escaped.
fn tell_link(alloc: Global, link: &LinkText, told: &mut String) -> Result<(), Trouble> {
    let mut line = link.copy()?.escape(alloc)?;
    line.push(b'\n')?;
    put_bytes(told, '|', &line)?;
    Ok(())
}

fn tell_parsed(alloc: Global, text: &str, told: &mut String) -> Result<(), Trouble> {
    match Path::parse(alloc, text) {
        Ok(path) => {
            let copy = path.copy()?;
            tell_path(alloc, &copy, told)?;
            tell_names(alloc, &path, told)
        }
        Err(error) => tell_debug(alloc, &error, told),
    }
}

fn put_text(told: &mut String, bytes: &[u8]) -> Result<(), Trouble> {
    match str::from_utf8(bytes) {
        Ok(text) => told.push_str(text)?,
        Err(_) => return Err(Trouble::Line),
    }
    Ok(())
}

// The level of a path, its last name and its parent.
fn tell_names(alloc: Global, path: &Path, told: &mut String) -> Result<(), Trouble> {
    let level = path.level();
    let Some(parent) = path.parent()? else {
        return tell_value(&format!(in alloc; "level {level}")?, told);
    };
    let mut line = Vec::new(alloc);
    put_escaped_bytes(&mut line, path.base().as_bytes())?;
    line.extend_from_slice(b" in ")?;
    put_escaped(&mut line, &parent)?;
    line.push(b'\n')?;
    told.push_str(&format!(in alloc; "= level {level}, ")?)?;
    put_text(told, &line)
}

// How many bytes the path has that is `/` and so many times a text, or why that is not a path.
fn tell_long(alloc: Global, piece: &str, count: u64, told: &mut String) -> Result<(), Trouble> {
    let mut text = String::from_str(alloc, "/")?;
    for _ in 0..count {
        text.push_str(piece)?;
    }
    match Path::parse(alloc, &text) {
        Ok(path) => tell_value(&format!(in alloc; "bytes {}", path.text().len())?, told),
        Err(error) => tell_debug(alloc, &error, told),
    }
}

fn tell_joined(alloc: Global, path: &str, name: &str, told: &mut String) -> Result<(), Trouble> {
    let path = Path::parse(alloc, path)?;
    if !valid_name(name) {
        return Err(Trouble::Line);
    }
    match path.join(name) {
        Ok(child) => tell_path(alloc, &child, told),
        Err(error) => tell_debug(alloc, &error, told),
    }
}

fn tell_below(alloc: Global, path: &str, top: &str, told: &mut String) -> Result<(), Trouble> {
    let path = Path::parse(alloc, path)?;
    let top = Path::parse(alloc, top)?;
    if !path.is_within(&top) {
        return Err(Trouble::Line);
    }
    let rest = path.below(&top)?;
    tell_path(alloc, &rest, told)?;
    match Path::graft(&top, &rest) {
        Ok(back) => tell_path(alloc, &back, told),
        Err(error) => tell_debug(alloc, &error, told),
    }
}

// Whether of each two paths the first is the lesser, and each equals itself.
fn ascends(alloc: Global, words: &[String]) -> Result<bool, Trouble> {
    let mut paths = Vec::new(alloc);
    for word in words {
        paths.push(Path::parse(alloc, word)?)?;
    }
    let mut holds = true;
    for (i, one) in paths.iter().enumerate() {
        for (k, other) in paths.iter().enumerate() {
            holds = holds && is_so(one.cmp(other), i.cmp(&k));
        }
    }
    Ok(holds)
}

fn is_so(told: Ordering, wanted: Ordering) -> bool {
    told == wanted
}
