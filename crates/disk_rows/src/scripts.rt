//! Scripts, and the answers of their lines.
use crate::rooms::Room;
use crate::worlds::World;
use script_lines::{Trouble, is_answer, is_remark};
use std::fs::File;
use std::io;
use std::rt::Clock;
use std::sync::Wait;
use std::thread::Threads;

/// The script with the answers of its lines.
pub fn transcript<T>(rt: &T, host: HostRuntime, room: &Room, script: &str) -> io::Result<String>
where
    T: AllocGlobal + Clock + Threads + Wait + Sync,
{
    let errors = room.appended()?;
    let Ok(mut world) = World::fresh(host, room, &errors) else {
        return Err(io::Error::from(io::ErrorKind::Other));
    };
    played(rt, &mut world, script)
}

fn played<'a, T>(rt: &T, world: &mut World<'a>, script: &'a str) -> io::Result<String>
where
    T: AllocGlobal + Clock + Threads + Wait + Sync,
{
    let mut told = String::new(rt.alloc());
    let mut is_tree = false;
    for line in script.lines() {
        if is_answer(line) {
            continue;
        }
        told.push_str(line)?;
        told.push('\n')?;
        if is_tree {
            is_tree = line != "end";
        } else if line.starts_with("tree ") {
            is_tree = true;
        } else if let Err(why) = answer(rt, world, script, line, &mut told) {
            told.push_str(why.text())?;
        }
    }
    Ok(told)
}

// Does a line, and adds its answer.
fn answer<'a, T>(
    rt: &T,
    world: &mut World<'a>,
    script: &'a str,
    line: &'a str,
    told: &mut String,
) -> Result<(), Trouble>
where
    T: AllocGlobal + Clock + Threads + Wait + Sync,
{
    if is_remark(line) {
        return Ok(());
    }
    if let Some(words) = line.strip_prefix("refuse ") {
        return world.refuse(words);
    }
    if let Some(name) = line.strip_prefix("use ") {
        return plant(world, script, name, told);
    }
    if let Some(words) = line.strip_prefix('>') {
        let words = world.words(words.trim_start_matches(' '))?;
        return world.run(rt, &words, told);
    }
    if let Some(words) = line.strip_prefix("like ") {
        let words = world.words(words)?;
        return world.compare(rt, &words, told);
    }
    let words = world.words(line)?;
    world.answer(&words, told)
}

// Does the lines of the tree of this name.
fn plant<'a>(
    world: &mut World<'a>,
    script: &'a str,
    name: &str,
    told: &mut String,
) -> Result<(), Trouble> {
    let mut is_within = false;
    for line in script.lines() {
        if is_within {
            if line == "end" {
                return Ok(());
            }
            let words = world.words(line)?;
            world.answer(&words, told)?;
        } else if let Some(it) = line.strip_prefix("tree ") {
            is_within = it == name;
        }
    }
    Err(Trouble::Line)
}
