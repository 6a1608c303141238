//! Worked rows: a program that plays a script of runs over files in memory, and prints the script with the answer of each line.
//! Its expected output is beside it, so a row is text, and needs no test in code. `memory_runs` describes the lines.
//!
//! `worked_rows WORDS...` plays the script once more for each of these words, and adds them to the words of each line `>>`. It
//! prints the answers that differ. So a row that must have the same answer on any number of ranks and hosts is written once.
#![tactic(auto)]

use memory_runs::transcript;
use script_lines::{other_lines, words_of};
use std::{env, io};

fn main(rt: HostRuntime) -> io::Result<()> {
    let alloc = rt.alloc();
    let script = io::read_to_string(alloc, rt.stdin())?;
    let told = transcript(&rt, alloc, &script, &[])?;
    print!(rt; "{told}")?;
    for words in env::args(&rt)?.skip(1) {
        let more = words_of(alloc, &words)?;
        let again = transcript(&rt, alloc, &script, &more)?;
        print!(rt; "{}", other_lines(alloc, &told, &again)?)?;
    }
    Ok(())
}
