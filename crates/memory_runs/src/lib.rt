//! Runs over files in memory, for the tests of runs, for measurements and for worked rows.
//!
//! [`Whole`] is files of which no part is lent, as a run asks. [`WholeFiles`] have the calls of [`files_mem::MemGround`] that make
//! nodes, plan faults and look at files. [`WholeBlind`] tell no tree, and their looks may lie, swell files and meet, as
//! [`files_mem::Blind`] says.
//!
//! [`transcript`] plays a script of worked rows: it does each line over such files, and gives the script with the answers of the
//! lines. It answers a line that it does not understand by `? ...`, and does the rest. `script_lines` describes the marks of
//! answers, and words.
//!
//! | Line | Effect |
//! |---|---|
//! | `fresh` | drops all before: only `/` exists, and nothing fails; both sinks take 1,000,000 bytes; it is the third day of 1970 |
//! | `tree NAME` to `end` | nothing yet: `use NAME` does the lines between them |
//! | `dir PATH`, `file PATH`, `link PATH`, `other PATH` | makes a node; `time=N` may follow, and for some kinds more (below) |
//! | `: TEXT`, `:-TEXT` | adds a line, or a text without a line feed, to the file that was made last |
//! | `plan CALL PATH` | plans that the call fails at the path; a call is written as `stat`, `read_link`, `make_dir` |
//! | `blind` | from here on the files tell no tree; `lie PATH`, `swell PATH` and `meet PATH PATH` then plan their looks |
//! | `limit OUT NOTES`, `now SECONDS` | sets how much the sinks take, and the time |
//! | `> WORDS`, `>> WORDS` | runs the words; the answer is the two texts and the status |
//! | `show PATH` | the answer is the lines of a file |
//! | `faults` | the answer is how often the files have failed |
//!
//! `far=N` may follow for a directory, `size=N` for a file, and `text=TEXT` for a file or link.
//!
//! Proved: none of the files is ever lent, whatever calls are made on them. `mfu_top`'s contract gives the result of a run.
#![tactic(auto)]

mod making;
mod scripts;
mod whole;
mod worlds;

pub use scripts::transcript;
pub use whole::{Whole, WholeBlind, WholeFiles};
