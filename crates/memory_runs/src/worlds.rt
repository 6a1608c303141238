//! The files, sinks and time of a script.
use crate::making::{Making, call_of};
use crate::whole::{WholeBlind, WholeFiles};
use outside::MemSink;
use path_text::Path;
use script_lines::{Trouble, number_of, put_bytes};
use std::alloc::Global;
use std::mem;
use std::sync::Wait;
use std::thread::Threads;

#[derive(Drop)]
enum Files {
    Whole(WholeFiles),
    Blind(WholeBlind),
}

/// Files, a node that is still to be put, how many bytes two sinks take, and the time.
#[derive(Drop)]
pub(crate) struct World {
    files: Files,
    waits: Option<Making>,
    takes: (u64, u64),
    now: u64,
}

const AMPLE: u64 = 1_000_000;

const NOW: u64 = 259_200;

impl World {
    /// Nothing but `/`, in which nothing fails.
    pub(crate) fn fresh(alloc: Global) -> Result<World, Trouble> {
        Ok(World {
            files: Files::Whole(WholeFiles::empty(alloc)?),
            waits: None,
            takes: (AMPLE, AMPLE),
            now: NOW,
        })
    }

    // The files of which no part is lent and which tell a tree.
    fn whole(&mut self) -> Result<&mut WholeFiles, Trouble> {
        match &mut self.files {
            Files::Whole(files) => Ok(files),
            Files::Blind(_) => Err(Trouble::Blind),
        }
    }

    fn blind(&mut self) -> Result<&mut WholeBlind, Trouble> {
        match &mut self.files {
            Files::Whole(_) => Err(Trouble::Blind),
            Files::Blind(files) => Ok(files),
        }
    }

    /// Makes the node that waits for further lines.
    pub(crate) fn settle(&mut self, alloc: Global) -> Result<(), Trouble> {
        match self.waits.take() {
            Some(made) => made.put(alloc, self.whole()?),
            None => Ok(()),
        }
    }

    /// Adds a line to the file that a line made last.
    pub(crate) fn add_line(&mut self, text: &str, end: &str) -> Result<(), Trouble> {
        let Some(made) = &mut self.waits else {
            return Err(Trouble::File);
        };
        made.add(text)?;
        made.add(end)
    }

    /// Does the words of a line that are about the files, sinks and time.
    pub(crate) fn make(&mut self, alloc: Global, words: &[String]) -> Result<(), Trouble> {
        self.settle(alloc)?;
        self.waits = Making::of(alloc, words)?;
        if self.waits.is_some() {
            return Ok(());
        }
        match words {
            [word] if word.as_str() == "fresh" => self.renew(alloc),
            [word] if word.as_str() == "blind" => self.turn_blind(alloc),
            [word, at] if word.as_str() == "lie" => self.lie(&Path::parse(alloc, at)?),
            [word, at] if word.as_str() == "swell" => self.swell(&Path::parse(alloc, at)?),
            [word, at] if word.as_str() == "now" => self.turn_to(number_of(at)?),
            [word, one, other] => self.make_of_two(alloc, word, one, other),
            _ => Err(Trouble::Line),
        }
    }

    // The same for a word with two more after it.
    fn make_of_two(
        &mut self,
        alloc: Global,
        word: &str,
        one: &str,
        other: &str,
    ) -> Result<(), Trouble> {
        if word == "plan" {
            return self.plan(one, &Path::parse(alloc, other)?);
        }
        if word == "meet" {
            let one = Path::parse(alloc, one)?;
            return self.meet(&one, &Path::parse(alloc, other)?);
        }
        if word == "limit" {
            self.takes = (number_of(one)?, number_of(other)?);
            return Ok(());
        }
        Err(Trouble::Line)
    }

    fn renew(&mut self, alloc: Global) -> Result<(), Trouble> {
        *self = World::fresh(alloc)?;
        Ok(())
    }

    fn turn_to(&mut self, now: u64) -> Result<(), Trouble> {
        self.now = now;
        Ok(())
    }

    fn turn_blind(&mut self, alloc: Global) -> Result<(), Trouble> {
        let nothing = Files::Whole(WholeFiles::empty(alloc)?);
        self.files = match mem::replace(&mut self.files, nothing) {
            Files::Whole(files) => Files::Blind(WholeBlind::make(files)),
            files => files,
        };
        Ok(())
    }

    fn lie(&mut self, path: &Path) -> Result<(), Trouble> {
        self.blind()?.lie(path)?;
        Ok(())
    }

    fn swell(&mut self, path: &Path) -> Result<(), Trouble> {
        self.blind()?.swell(path)?;
        Ok(())
    }

    fn meet(&mut self, one: &Path, other: &Path) -> Result<(), Trouble> {
        self.blind()?.meet(one, other)?;
        Ok(())
    }

    fn plan(&mut self, call: &str, path: &Path) -> Result<(), Trouble> {
        let Some(call) = call_of(call) else {
            return Err(Trouble::Line);
        };
        self.whole()?.plan(call, path)?;
        Ok(())
    }

    /// Runs the words, and adds the two texts and the status.
    pub(crate) fn run<T: Threads + Wait + Sync>(
        &mut self,
        rt: &T,
        alloc: Global,
        words: &[String],
        told: &mut String,
    ) -> Result<(), Trouble> {
        let mut out = MemSink::limited(alloc, self.takes.0)?;
        let mut notes = MemSink::limited(alloc, self.takes.1)?;
        let now = self.now;
        let status = match &mut self.files {
            Files::Whole(files) => files.run(rt, alloc, words, &mut out, &mut notes, now),
            Files::Blind(files) => files.run(rt, alloc, words, &mut out, &mut notes, now),
        };
        put_bytes(told, '|', out.text())?;
        put_bytes(told, '!', notes.text())?;
        told.push_str(&format!(in alloc; "= {}\n", status.number())?)?;
        Ok(())
    }

    /// Adds the file at a path.
    pub(crate) fn show(
        &mut self,
        alloc: Global,
        path: &str,
        told: &mut String,
    ) -> Result<(), Trouble> {
        let path = Path::parse(alloc, path)?;
        let Ok(bytes) = self.whole()?.load(alloc, &path) else {
            return Err(Trouble::File);
        };
        put_bytes(told, '|', &bytes)?;
        Ok(())
    }

    /// Adds how often the files have failed.
    pub(crate) fn tell_faults(&mut self, alloc: Global, told: &mut String) -> Result<(), Trouble> {
        let count = match &self.files {
            Files::Whole(files) => files.faults(),
            Files::Blind(files) => files.faults(),
        };
        told.push_str(&format!(in alloc; "= {count}\n")?)?;
        Ok(())
    }
}
