//! Lines of scripts, for the programs that play worked rows.
//!
//! A script is text, and a program prints the script again with the answers of its lines. So the expected transcript
//! is the script itself. A line that begins with one of these marks is an answer, and a program that reads a script leaves it out:
//!
//! | Begins with | Meaning |
//! |---|---|
//! | `\|` | a line of printed text, or of a file |
//! | `!` | a line of notes |
//! | `=` | a value: a status, a count, or the answer of a call |
//! | `?` | why the line is not done |
//!
//! A space follows the mark, or a `-` if the line has no line feed. A line that is empty, or begins with `#`, is a remark.
//! Words are separated by single spaces. In a word `\x20` is a space, and each byte below 128 may be written so. The word `""` is an
//! empty one. A [`Trouble`] says why a line is not done.
#![tactic(auto)]

mod telling;
mod troubles;
mod words;

pub use telling::{other_lines, put_bytes, put_lines, put_value};
pub use troubles::{Trouble, number_of, small_of};
pub use words::{is_answer, is_remark, meant_by, named, number, words_of};
