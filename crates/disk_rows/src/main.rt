//! Rows over the real disk: a program that plays a script in an empty directory of its own, and prints the script with the answer of
//! each line. Its expected output is beside it, so a row is text, and needs no test in code.
//!
//! `script_lines` describes the marks of answers, and words. `/R` at the beginning of a word is the directory, and so it is in answers.
//! The program answers a line that it does not understand by `? ...`, and does the rest.
//!
//! Lines that make nodes, by calls of the system:
//!
//! | Line | Effect |
//! |---|---|
//! | `fresh` | empties the directory; nothing is refused, and the files of the system have not failed yet |
//! | `tree NAME` to `end` | nothing yet: `use NAME` does the lines between them |
//! | `dir PATH`, `link PATH TEXT` | makes a directory, or a link |
//! | `file PATH`, `file PATH TEXT` | writes a file |
//! | `letters PATH N` | writes a file with so many bytes: small letters in turn |
//! | `many PATH N NAME` | writes so many files of one byte, with names of a number and the name |
//! | `deep LENGTH` | makes directories until a path has so many bytes; `/D` at the beginning of a word is that path |
//! | `move PATH PATH`, `unlink PATH` | renames a node, or removes one that is not a directory |
//! | `mode PATH MODE` | sets the permissions, in octal |
//! | `touch PATH SECONDS`, `age PATH SECONDS` | sets the time of a file, since 1970 or before now |
//! | `refuse CALL END ERROR` | the system refuses the call at each path with this end, with this error |
//!
//! Lines about a run of the program, and about nodes:
//!
//! | Line | Answer |
//! |---|---|
//! | `> WORDS` | runs the words: the two texts and the status |
//! | `like PATH WORDS` | runs the words: the status, and whether the text is that of another walk of the path |
//! | `show PATH`, `text PATH`, `names PATH` | the lines of a file, the text of a link, the names in a directory |
//! | `same PATH PATH` | whether two files have the same bytes |
//! | `free PATH` | whether nothing is there |
//!
//! Lines that call `real_disk`. One reader serves until `back`, which gives it back to the files:
//!
//! | Line | Answer |
//! |---|---|
//! | `stat PATH`, `time PATH` | the kind and the size; the time, or `recent` |
//! | `list PATH` | the number of names, of far ones and of unnamed ones, and at most 20 names |
//! | `read PATH AT LENGTH` | the number of bytes read into a text of dots, and the text |
//! | `read_link PATH` | the text of a link |
//! | `make_dir PATH`, `make_file PATH`, `make_link PATH TEXT`, `write PATH AT TEXT`, `remove_file PATH`, `remove_dir PATH` | the answer |
//! | `save PATH N`, `load PATH` | the answer; the number of letters in turn that a file has |
//! | `alone` | none: from now to `fresh` the reader and the files, which have not failed yet, may change the working directory. No run comes before `fresh` |
//! | `faults` | how often the reader and the files have failed |
//! | `errors` | the lines about failed calls since the last such line |
#![tactic(auto)]

mod calls;
mod making;
mod rooms;
mod runs;
mod scripts;
mod systems;
mod walks;
mod worlds;

use crate::rooms::Room;
use crate::scripts::transcript;
use std::io;

fn main(rt: HostRuntime) -> io::Result<()> {
    let script = io::read_to_string(rt.alloc(), rt.stdin())?;
    let room = Room::fresh(rt)?;
    let told = transcript(&rt, rt, &room, &script)?;
    room.remove()?;
    print!(rt; "{told}")
}
