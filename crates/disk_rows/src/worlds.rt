//! The directory and the system of a script, and its lines.
use crate::calls;
use crate::making::{deepened, make};
use crate::rooms::Room;
use crate::runs::{Run, ran};
use crate::systems::{LinkCall, Refusal, Stage};
use crate::walks::{names, walked};
use outside::Tree;
use real_disk::RealReader;
use script_lines::{Trouble, number_of, put_lines, put_value, words_of};
use std::alloc::{AllocError, Global};
use std::fs;
use std::fs::File;
use std::io::ErrorKind;
use std::rt::Clock;
use std::sync::Wait;
use std::thread::Threads;
use whole_disk::DiskOver;

/// A directory, the system, its files and a reader of them.
#[derive(Drop)]
pub struct World<'a> {
    host: HostRuntime,
    room: &'a Room,
    errors: &'a File,
    deep: String,
    stage: Stage<'a>,
    disk: DiskOver<Stage<'a>>,
    reader: Option<RealReader<Stage<'a>>>,
}

impl<'a> World<'a> {
    /// An empty directory, and a system that refuses nothing.
    pub fn fresh(
        host: HostRuntime,
        room: &'a Room,
        errors: &'a File,
    ) -> Result<World<'a>, Trouble> {
        room.empty()?;
        let stage = Stage::make(host, errors);
        Ok(World {
            host,
            room,
            errors,
            deep: String::new(host.alloc()),
            stage,
            disk: DiskOver::over(host.alloc(), stage),
            reader: None,
        })
    }

    /// The words of a line, with the paths that are meant.
    pub fn words(&self, line: &str) -> Result<Vec<String>, Trouble> {
        let alloc = self.host.alloc();
        let mut words = Vec::new(alloc);
        for word in &words_of(alloc, line)? {
            words.push(self.meant(word)?)?;
        }
        Ok(words)
    }

    fn meant(&self, word: &str) -> Result<String, Trouble> {
        let alloc = self.host.alloc();
        if let Some(rest) = word.strip_prefix("/R") {
            return Ok(format!(in alloc; "{}{rest}", self.room.top())?);
        }
        if let Some(rest) = word.strip_prefix("/D") {
            return Ok(format!(in alloc; "{}{rest}", self.deep)?);
        }
        Ok(String::from_str(alloc, word)?)
    }

    // The text as a script has it: `/R` stands for the path of the directory, and `\0` for a byte of zero.
    fn shown(&self, bytes: &[u8]) -> Result<String, Trouble> {
        let alloc = self.host.alloc();
        let text = String::from_utf8_lossy(alloc, bytes)?;
        let text = replaced(alloc, &text, self.room.top(), "/R")?;
        Ok(replaced(alloc, &text, "\0", "\\0")?)
    }

    /// Runs the words, and adds the two texts and the status.
    pub fn run<T>(&mut self, rt: &T, words: &[String], told: &mut String) -> Result<(), Trouble>
    where
        T: AllocGlobal + Clock + Threads + Wait + Sync,
    {
        let run = ran(rt, self.stage, words)?;
        put_lines(told, '|', &self.shown(run.out.text())?)?;
        self.tell_end(&run, told)
    }

    fn tell_end(&self, run: &Run, told: &mut String) -> Result<(), Trouble> {
        put_lines(told, '!', &self.shown(run.notes.text())?)?;
        let status = run.status.number();
        put_value(told, &format!(in self.host.alloc(); "{status}")?)?;
        Ok(())
    }

    /// Runs the words after a path, and tells whether the text is that of another walk of the path.
    pub fn compare<T>(&mut self, rt: &T, words: &[String], told: &mut String) -> Result<(), Trouble>
    where
        T: AllocGlobal + Clock + Threads + Wait + Sync,
    {
        let [top, words @ ..] = words else {
            return Err(Trouble::Line);
        };
        let wanted = walked(self.host, top)?;
        let run = ran(rt, self.stage, words)?;
        let is_same = run.out.text() == wanted.as_bytes();
        if !is_same {
            put_lines(told, '|', &self.shown(run.out.text())?)?;
        }
        put_value(told, &format!(in self.host.alloc(); "{is_same}")?)?;
        self.tell_end(&run, told)
    }

    /// Sets the call that the system refuses, by a call, the end of its paths and an error.
    pub fn refuse(&mut self, words: &'a str) -> Result<(), Trouble> {
        let Some((call, rest)) = words.split_once(' ') else {
            return Err(Trouble::Line);
        };
        let Some((end, error)) = rest.split_once(' ') else {
            return Err(Trouble::Line);
        };
        let end = if end == "\"\"" { "" } else { end };
        let (Some(call), Some(error)) = (call_of(call), error_of(error)) else {
            return Err(Trouble::Line);
        };
        self.stage = self.stage.refusing(Refusal { call, end, error });
        self.renew();
        Ok(())
    }

    // The files of the system, which have not failed yet.
    fn renew(&mut self) {
        self.reader = None;
        self.disk = DiskOver::over(self.host.alloc(), self.stage);
    }

    /// Does the words of another line, and adds its answer.
    pub fn answer(&mut self, words: &[String], told: &mut String) -> Result<(), Trouble> {
        if make(self.host, words)? || self.tell_node(words, told)? {
            return Ok(());
        }
        match words {
            [word] => self.answer_word(word, told),
            [word, len] if word.as_str() == "deep" => {
                self.deep = deepened(self.host, self.room.top(), number_of(len)?)?;
                Ok(())
            }
            [word, ..] if calls::is_look(word) => self.look(words, told),
            _ => calls::act(self.host.alloc(), &mut self.disk, words, told),
        }
    }

    fn answer_word(&mut self, word: &str, told: &mut String) -> Result<(), Trouble> {
        match word {
            "fresh" => match World::fresh(self.host, self.room, self.errors) {
                Ok(world) => *self = world,
                Err(why) => return Err(why),
            },
            "back" => {
                if let Some(reader) = self.reader.take() {
                    self.disk.take_reader(reader);
                }
            }
            "alone" => {
                self.renew();
                self.disk.work_alone();
            }
            "faults" => self.tell_faults(told)?,
            "errors" => put_lines(told, '|', &self.shown(&self.room.errors()?)?)?,
            _ => return Err(Trouble::Line),
        }
        Ok(())
    }

    fn tell_faults(&mut self, told: &mut String) -> Result<(), Trouble> {
        let by_reader = match &self.reader {
            Some(reader) => reader.faults(),
            None => 0,
        };
        let by_disk = self.disk.faults();
        put_value(
            told,
            &format!(in self.host.alloc(); "{by_reader} {by_disk}")?,
        )?;
        Ok(())
    }

    fn look(&mut self, words: &[String], told: &mut String) -> Result<(), Trouble> {
        let mut reader = match self.reader.take() {
            Some(reader) => reader,
            None => match self.disk.reader(self.host.alloc()) {
                Ok(reader) => reader,
                Err(_) => return Err(Trouble::Memory),
            },
        };
        let done = calls::look(self.host, &mut reader, words, told);
        self.reader = Some(reader);
        done
    }

    // Tells of a node by a call of the system; whether the words ask for that.
    fn tell_node(&self, words: &[String], told: &mut String) -> Result<bool, Trouble> {
        match words {
            [word, at] => self.tell_one(word, at, told),
            [word, one, other] if word.as_str() == "same" => {
                let is_same = fs::read(&self.host, one.as_str())?
                    == fs::read(&self.host, other.as_str())?;
                put_value(told, &format!(in self.host.alloc(); "{is_same}")?)?;
                Ok(true)
            }
            _ => Ok(false),
        }
    }

    fn tell_one(&self, word: &str, at: &str, told: &mut String) -> Result<bool, Trouble> {
        match word {
            "show" => put_lines(told, '|', &self.shown(&fs::read(&self.host, at)?)?)?,
            "text" => {
                let text = fs::read_link(&self.host, at)?;
                put_lines(told, '|', &self.shown(text.as_str().as_bytes())?)?;
            }
            "names" => {
                for name in &names(self.host, at)? {
                    put_lines(told, '|', &format!(in self.host.alloc(); "{name:?}\n")?)?;
                }
            }
            "free" => put_value(told, if self.is_free(at) { "true" } else { "false" })?,
            _ => return Ok(false),
        }
        Ok(true)
    }

    fn is_free(&self, at: &str) -> bool {
        match fs::symlink_metadata(&self.host, at) {
            Ok(_) => false,
            Err(e) => e.kind() == ErrorKind::NotFound,
        }
    }
}

// The text with one word in the place of another.
fn replaced(alloc: Global, text: &str, old: &str, new: &str) -> Result<String, AllocError> {
    let mut made = String::new(alloc);
    let mut is_first = true;
    for piece in text.split(old) {
        if !is_first {
            made.push_str(new)?;
        }
        made.push_str(piece)?;
        is_first = false;
    }
    Ok(made)
}

fn call_of(word: &str) -> Option<LinkCall> {
    match word {
        "read_link" => Some(LinkCall::Read),
        "make_link" => Some(LinkCall::Make),
        "remove_file" => Some(LinkCall::Remove),
        _ => None,
    }
}

fn error_of(word: &str) -> Option<ErrorKind> {
    match word {
        "PermissionDenied" => Some(ErrorKind::PermissionDenied),
        "StorageFull" => Some(ErrorKind::StorageFull),
        "InvalidInput" => Some(ErrorKind::InvalidInput),
        _ => None,
    }
}
