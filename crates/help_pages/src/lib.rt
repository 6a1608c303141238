//! The texts that the program adds by itself to those of a run: the help, the version, and the hint after refused words.
//!
//! - `help` tells which help the words ask for: [`asked`], or for refused words [`asked_among`].
//! - `reading_pages` and `changing_pages` have the help of each tool, and `topics` the parts that several tools share.
//! - `hints` has the line that follows the refusal of words: [`hint`], or [`placing`].
#![tactic(auto)]

mod changing_pages;
mod help;
mod hints;
mod reading_pages;
mod topics;

pub use help::{asked, asked_among};
pub use hints::{hint, placing};
