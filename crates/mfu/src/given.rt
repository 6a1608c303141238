//! The input of the program: its words, and the file for the failures of calls.
ghost use Rattle.std.specs.Prelude.{◌≡◌, ◌⊎◌, IfErr};

use mfu_top::Status;
use std::alloc::Global;
use std::fs::{File, Files, OpenOptions};
use std::io::{ErrorKind, Write};
use std::rt::Env;
use std::{env, io};
use tool_words::{Command, read_words};

/// The words after the program's own name, or the status if one is not UTF-8 or no memory is found.
pub fn words<R: Env + AllocGlobal>(rt: &R) -> Result<Vec<String>, Status>
    ensures { IfErr result (λ status. (status ≡ Status.Words) ⊎ (status ≡ Status.Memory)) }
{
    let mut words = match env::args(rt) {
        Ok(words) => words,
        Err(e) if e.kind() == ErrorKind::OutOfMemory => return Err(Status::Memory),
        Err(_) => return Err(Status::Words),
    };
    let _name = words.next();
    words.collect(rt.alloc()).map_err(|_| Status::Memory)
}

/// Whether the words give a command that runs on one thread. All its paths are absolute.
pub fn is_on_one_thread(alloc: Global, words: &[String]) -> bool {
    match read_words(alloc, words) {
        Ok(command) => hosts_of(&command) == 1,
        Err(_) => false,
    }
}

fn hosts_of(command: &Command) -> u32 {
    match command {
        Command::Walk { common, .. } => common.hosts,
        Command::Find { common, .. } => common.hosts,
        Command::Cmp { common, .. } => common.hosts,
        Command::Copy { common, .. } => common.hosts,
        Command::Sync { common, .. } => common.hosts,
        Command::Dup { common, .. } => common.hosts,
        Command::Remove { common, .. } => common.hosts,
        Command::Test { common, .. } => common.hosts,
    }
}

/// The file that the variable `MFU_ERRORS` names, open to append to it, if there is such a variable and it is not empty. If it
/// cannot be opened, a line on standard error says so, and failures are not kept.
pub fn errors_file<R, W>(rt: &R, mut notes: W) -> Option<File>
where
    R: Env + AllocGlobal + Files<File = File>,
    W: Write + Drop,
{
    let Ok(name) = env::var(rt, "MFU_ERRORS") else {
        return None;
    };
    if name.as_str().is_empty() {
        return None;
    }
    match to_append(rt, name.as_str()) {
        Ok(file) => Some(file),
        Err(_) => {
            // A stream that can't be written fails where the run writes to it.
            let _ = notes.write(b"mfu: the file of MFU_ERRORS cannot be opened\n".as_slice());
            None
        }
    }
}

fn to_append<R: Files>(rt: &R, name: &str) -> io::Result<R::File> {
    let mut how = OpenOptions::new();
    how.append(true);
    how.create(true);
    how.open(rt, name)
}
