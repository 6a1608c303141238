//! Text of whole lines: lines, the words of a line, among them numbers and paths, and the line that ends a file.
//!
//! - [`cut_line`] takes the first line off a text, and [`cut`] the first word before a byte.
//! - [`number_of`] and [`number_at`] read numbers of 64 bits in decimal, without leading zeros. [`leading_number`] is faster,
//!   and reads those of at most 19 digits.
//! - [`path_from`] reads a path as [`path_text::escape`] writes it, and [`end_at`] the count of an end line, `end COUNT`.
//!
//! ```text
//! let (text, rest) = cut_line(b"end 2\nx")?;           // "end 2" and "x"
//! let count = end_at(text)?;                           // 2
//! ```
//!
//! Proved: each function answers by its definition, so it reads nothing else and leaves nothing out.
//!
//! The definitions are in `specs/`: `Lines` (a line, the lines of a text, the end line) and `Words` (reading a line). `Private`
//! has those that only private clauses cite. `proofs/WholeLines` is the argument on files of whole lines, for items of any kind
//! with one line or more each. The lines of such a file determine its items. A text is damaged from the first line on with
//! which no file goes on. A crate that has such a file gives a `Form`. The other proof files say that reading undoes writing.
#![tactic(auto)]

mod cutting;
mod reading;

pub use cutting::{cut, cut_line};
pub use reading::{end_at, leading_number, number_at, number_of, path_from};
