//! Lines that call the readers and the files of `real_disk`.
use crate::making::letters;
use crate::systems::Stage;
use outside::Tree;
use path_text::Path;
use real_disk::RealReader;
use script_lines::{Trouble, number_of, put_bytes, put_lines, put_value};
use std::alloc::Global;
use std::time::{SystemTime, UNIX_EPOCH};
use whole_disk::{Act, DiskOver};

// So many names of a listing are told.
const TOLD: usize = 20;

// A time is recent for so many seconds.
const RECENT: u64 = 3600;

/// Whether the word is that of a line that calls a reader.
pub fn is_look(word: &str) -> bool {
    match word {
        "stat" | "time" | "list" | "read" | "read_link" => true,
        _ => false,
    }
}

/// Does the words of a line that calls a reader.
pub fn look(
    host: HostRuntime,
    reader: &mut RealReader<Stage<'_>>,
    words: &[String],
    told: &mut String,
) -> Result<(), Trouble> {
    let alloc = host.alloc();
    match words {
        [word, at] => {
            let path = Path::parse(alloc, at)?;
            match word.as_str() {
                "stat" => tell_stat(alloc, reader, &path, told),
                "time" => tell_time(host, reader, &path, told),
                "list" => tell_list(alloc, reader, &path, told),
                "read_link" => tell_link(alloc, reader, &path, told),
                _ => Err(Trouble::Line),
            }
        }
        [word, at, place, len] if word.as_str() == "read" => {
            let (place, len) = (number_of(place)?, number_of(len)?);
            tell_read(alloc, reader, &Path::parse(alloc, at)?, (place, len), told)
        }
        _ => Err(Trouble::Line),
    }
}

fn tell_stat(
    alloc: Global,
    reader: &mut RealReader<Stage<'_>>,
    path: &Path,
    told: &mut String,
) -> Result<(), Trouble> {
    let answer = reader.stat(path).map(|stat| stat.map(|s| (s.kind, s.size)));
    put_value(told, &format!(in alloc; "{answer:?}")?)?;
    Ok(())
}

fn tell_time(
    host: HostRuntime,
    reader: &mut RealReader<Stage<'_>>,
    path: &Path,
    told: &mut String,
) -> Result<(), Trouble> {
    let now = match SystemTime::now(&host)?.duration_since(UNIX_EPOCH) {
        Ok(time) => time.as_secs(),
        Err(_) => 0,
    };
    let time = match reader.stat(path) {
        Ok(Some(stat)) => stat.mtime,
        _ => None,
    };
    match time {
        Some(time) if time.abs_diff(now) < RECENT => put_value(told, "recent")?,
        _ => put_value(told, &format!(in host.alloc(); "{time:?}")?)?,
    }
    Ok(())
}

fn tell_list(
    alloc: Global,
    reader: &mut RealReader<Stage<'_>>,
    path: &Path,
    told: &mut String,
) -> Result<(), Trouble> {
    let listing = match reader.list(alloc, path) {
        Ok(listing) => listing,
        Err(error) => {
            put_value(told, &format!(in alloc; "Err({error:?})")?)?;
            return Ok(());
        }
    };
    let (count, far, unnamed) = (listing.len(), listing.far(), listing.unnamed());
    put_value(
        told,
        &format!(in alloc; "names {count} far {far} unnamed {unnamed}")?,
    )?;
    if count <= TOLD {
        for k in 0..listing.len() {
            let name = listing.name(k);
            put_lines(told, '|', &format!(in alloc; "{name:?}\n")?)?;
        }
    }
    Ok(())
}

fn tell_read(
    alloc: Global,
    reader: &mut RealReader<Stage<'_>>,
    path: &Path,
    span: (u64, u64),
    told: &mut String,
) -> Result<(), Trouble> {
    let mut into = Vec::new(alloc);
    for _ in 0..span.1 {
        into.push(b'.')?;
    }
    let answer = reader.read(path, span.0, into.as_mut_slice());
    put_value(told, &format!(in alloc; "{answer:?}")?)?;
    put_bytes(told, '|', &into)?;
    Ok(())
}

fn tell_link(
    alloc: Global,
    reader: &mut RealReader<Stage<'_>>,
    path: &Path,
    told: &mut String,
) -> Result<(), Trouble> {
    match reader.read_link(alloc, path) {
        Ok(text) => put_value(told, text.text())?,
        Err(error) => put_value(told, &format!(in alloc; "Err({error:?})")?)?,
    }
    Ok(())
}

/// Does the words of a line that calls the files; whether it does.
pub fn act(
    alloc: Global,
    disk: &mut DiskOver<Stage<'_>>,
    words: &[String],
    told: &mut String,
) -> Result<(), Trouble> {
    match words {
        [word, at, count] if word.as_str() == "save" => {
            let bytes = letters(alloc, number_of(count)?)?;
            let answer = disk.save(alloc, &Path::parse(alloc, at)?, &bytes);
            put_value(told, &format!(in alloc; "{answer:?}")?)?;
        }
        [word, at] if word.as_str() == "load" => {
            tell_load(alloc, disk, &Path::parse(alloc, at)?, told)?;
        }
        [word, at, rest @ ..] => {
            let call = act_of(word, rest)?;
            let answer = disk.act(alloc, call, &Path::parse(alloc, at)?);
            put_value(told, &format!(in alloc; "{answer:?}")?)?;
        }
        _ => return Err(Trouble::Line),
    }
    Ok(())
}

fn act_of<'a>(word: &str, rest: &'a [String]) -> Result<Act<'a>, Trouble> {
    match (word, rest) {
        ("make_dir", []) => Ok(Act::MakeDir),
        ("make_file", []) => Ok(Act::MakeFile),
        ("make_link", [text]) => Ok(Act::MakeLink(text.as_str())),
        ("write", [at, text]) => Ok(Act::Write(number_of(at)?, text.as_bytes())),
        ("remove_file", []) => Ok(Act::RemoveFile),
        ("remove_dir", []) => Ok(Act::RemoveDir),
        _ => Err(Trouble::Line),
    }
}

fn tell_load(
    alloc: Global,
    disk: &mut DiskOver<Stage<'_>>,
    path: &Path,
    told: &mut String,
) -> Result<(), Trouble> {
    match disk.load(alloc, path) {
        Ok(bytes) => {
            let count = bytes.len() as u64;
            let wanted = letters(alloc, count)?;
            let has = bytes == wanted;
            put_value(told, &format!(in alloc; "{count} letters {has}")?)?;
        }
        Err(error) => put_value(told, &format!(in alloc; "Err({error:?})")?)?,
    }
    Ok(())
}
