//! Nodes that lines make.
use crate::whole::WholeFiles;
use files_mem::{Call, PutError};
use outside::LinkText;
use path_text::Path;
use script_lines::{Trouble, named, number_of};
use std::alloc::Global;

/// A node that a line makes.
#[derive(Drop)]
pub(crate) struct Making {
    kind: Kind,
    path: Path,
    time: Option<u64>,
    far: u64,
    text: String,
}

#[derive(Clone, Copy, Drop, PartialEq, Eq)]
enum Kind {
    Dir,
    File,
    Link,
    Other,
}

static KINDS: [(&str, Kind); 4] = [
    ("dir", Kind::Dir),
    ("file", Kind::File),
    ("link", Kind::Link),
    ("other", Kind::Other),
];

impl Making {
    /// The node that the words of a line make, if they make one.
    pub(crate) fn of(alloc: Global, words: &[String]) -> Result<Option<Making>, Trouble> {
        let [word, path, rest @ ..] = words else {
            return Ok(None);
        };
        let Some(kind) = named(&KINDS, word) else {
            return Ok(None);
        };
        let mut made = Making {
            kind,
            path: Path::parse(alloc, path)?,
            time: None,
            far: 0,
            text: String::new(alloc),
        };
        for word in rest {
            made.set(word)?;
        }
        Ok(Some(made))
    }

    fn set(&mut self, word: &str) -> Result<(), Trouble> {
        let Some((name, value)) = word.split_once('=') else {
            return Err(Trouble::Line);
        };
        if name == "text" {
            return self.add(value);
        }
        let number = number_of(value)?;
        if name == "time" {
            self.time = Some(number);
        } else if name == "far" {
            self.far = number;
        } else if name == "size" {
            for _ in 0..number {
                self.text.push('x')?;
            }
        } else {
            return Err(Trouble::Line);
        }
        Ok(())
    }

    /// Adds bytes to its text.
    pub(crate) fn add(&mut self, text: &str) -> Result<(), Trouble> {
        self.text.push_str(text)?;
        Ok(())
    }

    /// Makes the node.
    pub(crate) fn put(self, alloc: Global, files: &mut WholeFiles) -> Result<(), Trouble> {
        let put = match self.kind {
            Kind::Dir => files.put_dir(&self.path, self.far, self.time),
            Kind::File => files.put_file(&self.path, self.text.as_bytes(), self.time),
            Kind::Link => match LinkText::parse(alloc, &self.text) {
                Ok(text) => files.put_link(&self.path, &text, self.time),
                Err(_) => return Err(Trouble::Link),
            },
            Kind::Other => files.put_other(&self.path, self.time),
        };
        match put {
            Ok(()) => Ok(()),
            Err(error) => Err(trouble_of(error)),
        }
    }
}

// Why the line is not done whose node is not put.
fn trouble_of(error: PutError) -> Trouble {
    match error {
        PutError::NoParent => Trouble::NoParent,
        PutError::Exists => Trouble::Taken,
        PutError::OutOfMemory => Trouble::Memory,
    }
}

static CALLS: [(&str, Call); 12] = [
    ("stat", Call::Stat),
    ("list", Call::List),
    ("name", Call::Name),
    ("read", Call::Read),
    ("make_dir", Call::MakeDir),
    ("make_file", Call::MakeFile),
    ("write", Call::Write),
    ("remove_file", Call::RemoveFile),
    ("remove_dir", Call::RemoveDir),
    ("read_link", Call::ReadLink),
    ("make_link", Call::MakeLink),
    ("spans", Call::Spans),
];

/// The call of this name.
pub(crate) fn call_of(word: &str) -> Option<Call> {
    named(&CALLS, word)
}
