//! Worked calls: a program that plays a script of calls of the libraries, and prints the script with the answer of each line.
//! Its expected output is beside it, so a case is text, and needs no test in code.
//!
//! `script_lines` describes the marks of answers, and words. The program answers a line that it does not understand by `? ...`,
//! and does the rest.
//!
//! | Line | Answer |
//! |---|---|
//! | `text`, `: TEXT`, `:-TEXT` | none: begins a new text, and adds a line, or a text without a line feed, to it |
//! | `words WORD ...` | the command of a command line, or the word that is refused and the reason |
//! | `standard` | the defaults of a walk |
//! | `help WORD ...`, `help_among WORD ...` | the first line of the help that the words ask for; the same for refused words |
//! | `hint WORD ...`, `placing WORD ...` | the hint after refused words, and after a command that was refused |
//! | `glob PATTERN TEXT` | whether the text matches |
//! | `test NAME VALUE` | the test of an option's value, or why it is not valid |
//! | `expr TEXT` | whether it is an expression about rows of a comparison, or why it is not valid |
//! | `ranges SIZE PIECE` | the cuts of a file of so many bytes by such a piece, and their number |
//! | `path TEXT` | the path, escaped, with its parent, base and level, or why the text is not a path |
//! | `long TEXT COUNT` | how many bytes the path has that is `/` and so many times the text, or why that is not a path |
//! | `name TEXT` | whether it is a name |
//! | `join PATH NAME` | the path of a child |
//! | `under PATH TOP`, `within PATH TOP` | whether the path is below the other; whether it is equal to it or below it |
//! | `below PATH TOP` | the rest of the path below the top, and that grafted on the top again |
//! | `ascend PATH ...` | for each two paths, whether the first in this line is the lesser |
//! | `unescape TEXT` | the path of an escaped text, or why it has none |
//! | `link TEXT`, `unescape_link TEXT` | the text of a link, escaped, or why it is not valid |
//! | `push PATH ...` | none: the paths go into the queue |
//! | `give COUNT` | how many of the oldest paths were given, and how many are left |
//! | `back`, `clear` | none: the given paths go into the queue again, or are dropped |
//! | `take`, `waiting`, `queued` | the newest path, which is taken; how many wait; and all that wait, which are taken |
//! | `share QUEUED ASKED` | how many of them each rank that asks gets |
//! | `lots SEED RANK DRAW ...` | the draws of a rank: a `word`, a `share=LEFT`, or the rank that it asks, `victim=RANK/RANKS` |
//! | `decode` | how many entries the list file in the text has, or why it is damaged; the list is kept |
//! | `again` | the list file in the text, read and written again |
//! | `add PATH ...` | none: files of 7 bytes are added to the list |
//! | `rank PATH ...`, `merge` | none: the log of a rank, with files of 7 bytes; and the list of all ranks, which is kept |
//! | `paths`, `lines`, `summary`, `levels`, `spread N`, `page K`, `place PATH` | of the list |
//! | `sort FIELD`, `sort -FIELD`, `order` | none: the list is sorted by a field, or put in path order |
//! | `select NOW NAME VALUE ...` | the paths of the entries that pass the tests at that time; `newer` has a time, or `-` for none |
//! | `marks` | none: the notes of the list are kept |
//! | `note WHY PATH`, `dest WHY PATH` | none: one more note, about a source or a destination |
//! | `notes`, `ordered` | the notes, as they are or in order |
//! | `say TEXT`, `progress SUM ...`, `shares HANDLED GIVEN TAKEN ...` | a line, lines of sums, and of the work of each rank |
//! | `trace` | the lines of the events in the text |
//! | `check RANKS STARTS` | the verdict on the events in the text |
//! | `steps RANKS STARTS` | the answer to each event in the text, and how many strings each rank then has, of at most ten |
#![tactic(auto)]

mod commands;
mod cuts;
mod deeds;
mod events;
mod held;
mod lists;
mod notes;
mod pages;
mod paths;
mod queues;
mod tables;
mod telling;
mod tests;

use std::io;

fn main(rt: HostRuntime) -> io::Result<()> {
    let alloc = rt.alloc();
    let script = io::read_to_string(alloc, rt.stdin())?;
    let told = deeds::transcript(alloc, &script)?;
    print!(rt; "{told}")
}
