//! Globs, the tests of a path, and the selection of a list by them.
//!
//! - A [`Test`] is a question about a path and its `Stat`, and [`Test::holds`] answers it. The last name or the whole path
//!   matches a [`Glob`], the path has a kind, or its size or age meets a [`Bound`]. Or it changed after a time.
//! - [`parse_test`] makes a test from a [`TestName`] and a text, or refuses the text with a [`TestError`].
//! - [`glob_match`] says whether a text matches a glob, both read in characters.
//! - [`select`] copies the entries of a `FlatList` that have a stat and meet every test, and [`select_from`] moves them.
//!
//! ```text
//! let logs = parse_test(alloc, TestName::Name, "*.log")?;
//! let large = parse_test(alloc, TestName::Size, "+10M")?;
//! let found = select(alloc, &list, &[logs, large], now)?;
//! ```
//!
//! In a glob `*` stands for any text and `?` for any character. Brackets stand for one of their members, or after `[!` for a
//! character that is not one of them. `/` is a character as any other. A backslash makes the next character literal. A `[`
//! that is not closed is literal. A glob reads its pattern once, when it is made, in time in proportion to the pattern.
//!
//! A match goes on from the last `*` that it reached, and tries no division of the text twice. With one `*` it costs as many
//! steps as the text is long, times the pieces up to a difference. It never costs more than pattern times text.
//!
//! Proved: [`glob_match`] answers true exactly if the glob relation holds, in which `*` stands for *some* division of the
//! text. A law says the relation case by case over the characters of a pattern ([`glob_by_cases`]). A text gives the test or
//! the refusal of its definition, in the order of the rules. A selection is the list filtered by the tests. No call but
//! [`parse_test`] and [`select`] takes memory.
//!
//! The directory `specs/` has the definitions:
//!
//! - `Signs`: characters and backslashes;
//! - `Glob`: pieces and brackets;
//! - `Matching`: the relation;
//! - `Cases`: the law;
//! - `Bounds`: numbers and units;
//! - `Tests`: when a test holds, and which entries are selected;
//! - `Private`: definitions that only private clauses cite.
#![tactic(auto)]

mod bounds;
mod characters;
mod errors;
mod globs;
mod laws;
mod matching;
mod pieces;
mod selecting;
mod signs;
mod testing;

pub use bounds::Bound;
pub use errors::TestError;
pub use globs::{Glob, glob_match};
pub use laws::glob_by_cases;
pub use selecting::{select, select_from};
pub use testing::{Test, TestName, parse_test};
