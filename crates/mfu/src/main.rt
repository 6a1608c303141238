//! The program: `mfu TOOL WORD...` runs a tool over the files of the system.
//!
//! It passes to [`mfu_top::run`] the words after its own name, the files, standard output, standard error and the time, and ends
//! with the status that this answers. A word that is not UTF-8 ends it with status 2, and want of memory for the words with
//! status 3.
//!
//! - `console` has the system that it runs on.
//! - `given` has the words, and the file in which failures are kept.
//!
//! The crate `help_pages` has the help, the version and the hints. Help is printed if the words ask for nothing else, and for refused
//! words with `--help` among them.
//!
//! The files, the streams and the time of the system are those of the crate `real_disk`. Only if standard error is a terminal, a line
//! shows how far the run is, and a hint follows a refusal: every other reader gets only the text of the run.
#![tactic(auto)]

mod console;
mod given;

use console::Console;
use help_pages::{asked, asked_among, hint, placing};
use mfu_top::{Status, run};
use outside::put_all;
use real_disk::{AfterLive, Live, RealGround, RealSink, Watched, seconds};
use std::alloc::Global;
use std::fs::File;
use std::io::{IsTerminal, Write};
use std::os::fd::{AsRawFd, IntoRawFd};
use std::process::ExitCode;
use tool_words::{WordsError, read_words};

fn main(rt: HostRuntime) -> ExitCode {
    take_closed_streams(&rt);
    let words = match given::words(&rt) {
        Ok(words) => words,
        Err(status) => return ExitCode::from(status.number()),
    };
    if let Some(text) = help_for(rt.alloc(), &words) {
        return ExitCode::from(print_help(rt.stdout(), text).number());
    }
    let errors = given::errors_file(&rt, rt.stderr());
    let is_shown = rt.stderr().is_terminal();
    let live = if is_shown {
        Live::make(rt.alloc(), rt, rt.stderr(), tool_of(&words)).ok()
    } else {
        None
    };
    let watched = Watched::make(rt.alloc(), rt, live.as_ref(), errors.as_ref());
    let mut files = RealGround::make(rt.alloc(), Console { watched });
    files.work_alone(given::is_on_one_thread(rt.alloc(), &words));
    let mut out = RealSink::make(AfterLive::make(live.as_ref(), rt.stdout()));
    let mut notes = RealSink::make(AfterLive::make(live.as_ref(), rt.stderr()));
    let now = seconds(&rt);
    let status = run(
        &rt,
        rt.alloc(),
        &words,
        &mut files,
        &mut out,
        &mut notes,
        now,
    );
    if let Some(live) = &live {
        live.end();
    }
    if is_shown && status == Status::Words {
        print_hint(rt.alloc(), &words, rt.stderr());
    }
    ExitCode::from(status.number())
}

// Prints a help, and answers the status with which the program ends.
fn print_help<W: Write + Drop>(out: W, text: &str) -> Status {
    match put_all(&mut RealSink::make(out), text.as_bytes()) {
        Ok(()) => Status::Done,
        Err(_) => Status::Sink,
    }
}

fn tool_of(words: &[String]) -> &str {
    match words.first() {
        Some(tool) => tool.as_str(),
        None => "",
    }
}

// The help that the words ask for, alone or among words that are refused.
fn help_for(alloc: Global, words: &[String]) -> Option<&'static str> {
    if let Some(text) = asked(words) {
        return Some(text);
    }
    let text = asked_among(words)?;
    match read_words(alloc, words) {
        Err(WordsError::OutOfMemory) => None,
        Err(_) => Some(text),
        Ok(_) => None,
    }
}

// Says which rule is broken, where words were refused. A hint that can't be made or written is left out.
fn print_hint<W: Write + Drop>(alloc: Global, words: &[String], to: W) {
    let mut to = RealSink::make(to);
    match read_words(alloc, words) {
        Ok(command) => {
            let _ = put_all(&mut to, placing(&command).as_bytes());
        }
        Err(why) => {
            if let Some(refusal) = why.refusal() {
                if let Ok(line) = hint(alloc, words, refusal) {
                    let _ = put_all(&mut to, line.as_bytes());
                }
            }
        }
    }
}

// Takes the numbers of standard streams that are closed, as long as the program runs: else the next file that it opens would get
// one, and what is printed would be written into that file. A write to such a stream fails.
fn take_closed_streams(rt: &HostRuntime) {
    for _ in 0..3 {
        let Ok(file) = File::open(rt, "/dev/null") else {
            return;
        };
        if file.as_raw_fd() > 2 {
            return;
        }
        let _ = file.into_raw_fd();
    }
}
