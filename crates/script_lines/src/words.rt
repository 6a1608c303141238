//! The words of a line.
use std::alloc::{AllocError, Global};

/// Whether the line is an answer.
pub fn is_answer(line: &str) -> bool {
    matches!(line.as_bytes().first(), Some(b'|' | b'!' | b'=' | b'?'))
}

/// Whether the line is a remark.
pub fn is_remark(line: &str) -> bool {
    matches!(line.as_bytes().first(), None | Some(b'#'))
}

/// The words of a line, separated by single spaces, without escapes.
pub fn words_of(alloc: Global, line: &str) -> Result<Vec<String>, AllocError> {
    let mut words = Vec::new(alloc);
    if !line.is_empty() {
        for word in line.split(' ') {
            words.push(meant_by(alloc, word)?)?;
        }
    }
    Ok(words)
}

/// The word without escapes: `\x` and two digits are a byte, and `""` is an empty word.
pub fn meant_by(alloc: Global, word: &str) -> Result<String, AllocError> {
    let mut text = String::new(alloc);
    if word == "\"\"" {
        return Ok(text);
    }
    let mut is_first = true;
    for piece in word.split("\\x") {
        if is_first {
            text.push_str(piece)?;
        } else {
            push_piece(&mut text, piece)?;
        }
        is_first = false;
    }
    Ok(text)
}

// The text for a `\x`: the byte of its two digits if that is below 128, and else the `\x` as it is.
fn push_piece(text: &mut String, piece: &str) -> Result<(), AllocError> {
    if let (Some(digits), Some(rest)) = (piece.get(..2), piece.get(2..)) {
        if let Ok(byte) = u8::from_str_radix(digits, 16) {
            if byte < 128 {
                text.push(byte as char)?;
                return text.push_str(rest);
            }
        }
    }
    text.push_str("\\x")?;
    text.push_str(piece)
}

/// The number of a word.
pub fn number(word: &str) -> Option<u64> {
    word.parse::<u64>().ok()
}

/// The value of this name in a table.
pub fn named<T: Copy>(table: &[(&str, T)], name: &str) -> Option<T> {
    for (known, value) in table {
        if *known == name {
            return Some(*value);
        }
    }
    None
}
