//! The cuts of files into ranges.
use crate::telling::tell_value;
use range_copy::ranges;
use script_lines::{Trouble, number_of};
use std::alloc::Global;

// If there are more than twice as many cuts, the answer has so many from the front and from the end.
const SHOWN: usize = 4;

/// Answers the cuts of a file of some size by a piece, and the number of ranges.
pub fn tell(alloc: Global, words: &[String], told: &mut String) -> Result<(), Trouble> {
    let [size, piece] = words else {
        return Err(Trouble::Line);
    };
    let (size, piece) = (number_of(size)?, number_of(piece)?);
    if piece == 0 || size <= piece {
        return Err(Trouble::Number);
    }
    let Ok(cuts) = ranges(alloc, size, piece) else {
        return Err(Trouble::Memory);
    };
    let mut text = String::new(alloc);
    let last = cuts.len().saturating_sub(SHOWN);
    for (k, cut) in cuts.iter().enumerate() {
        if k < SHOWN || k >= last {
            text.push_str(&format!(in alloc; "{cut} ")?)?;
        } else if k == SHOWN {
            text.push_str(".. ")?;
        }
    }
    text.push_str(&format!(in alloc; "of {}", cuts.len())?)?;
    tell_value(&text, told)
}
