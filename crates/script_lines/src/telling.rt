//! Answers of lines.
use std::alloc::{AllocError, Global};

/// Adds the lines of a text, each after its mark.
pub fn put_lines(told: &mut String, mark: char, text: &str) -> Result<(), AllocError> {
    for line in text.split_inclusive('\n') {
        told.push(mark)?;
        match line.strip_suffix('\n') {
            Some(whole) => {
                told.push(' ')?;
                told.push_str(whole)?;
            }
            None => {
                told.push('-')?;
                told.push_str(line)?;
            }
        }
        told.push('\n')?;
    }
    Ok(())
}

/// Adds the lines of bytes, each after its mark.
pub fn put_bytes(told: &mut String, mark: char, bytes: &[u8]) -> Result<(), AllocError> {
    match str::from_utf8(bytes) {
        Ok(text) => put_lines(told, mark, text),
        Err(_) => told.push_str("? no text\n"),
    }
}

/// Adds a value.
pub fn put_value(told: &mut String, value: &str) -> Result<(), AllocError> {
    told.push_str("= ")?;
    told.push_str(value)?;
    told.push('\n')
}

/// The lines of the second text that differ from those of the first, with their numbers.
pub fn other_lines(alloc: Global, told: &str, again: &str) -> Result<String, AllocError> {
    let mut text = String::new(alloc);
    let mut first = told.lines();
    let mut number = 0u64;
    for line in again.lines() {
        number = number.saturating_add(1);
        if first.next() != Some(line) {
            text.push_str(&format!(in alloc; "? again {number}: {line}\n")?)?;
        }
    }
    if let Some(line) = first.next() {
        text.push_str(&format!(in alloc; "? again no {line}\n")?)?;
    }
    Ok(text)
}
