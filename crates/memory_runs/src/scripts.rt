//! Scripts, and the answers of their lines.
use crate::worlds::World;
use script_lines::{Trouble, is_answer, is_remark, meant_by, words_of};
use std::alloc::{AllocError, Global};
use std::sync::Wait;
use std::thread::Threads;

/// The script with the answers of its lines. These words follow those of each line `>>`.
pub fn transcript<T: Threads + Wait + Sync>(
    rt: &T,
    alloc: Global,
    script: &str,
    more: &[String],
) -> Result<String, AllocError> {
    let mut told = String::new(alloc);
    let Ok(mut world) = World::fresh(alloc) else {
        return Err(AllocError);
    };
    let mut is_tree = false;
    for line in script.lines() {
        if is_answer(line) {
            continue;
        }
        if !line.starts_with(':') {
            tell_trouble(world.settle(alloc), &mut told)?;
        }
        told.push_str(line)?;
        told.push('\n')?;
        if is_tree {
            is_tree = line != "end";
        } else if line.starts_with("tree ") {
            is_tree = true;
        } else {
            let done = answer(rt, alloc, &mut world, (script, more), line, &mut told);
            tell_trouble(done, &mut told)?;
        }
    }
    tell_trouble(world.settle(alloc), &mut told)?;
    Ok(told)
}

fn tell_trouble(done: Result<(), Trouble>, told: &mut String) -> Result<(), AllocError> {
    match done {
        Ok(()) => Ok(()),
        Err(why) => told.push_str(why.text()),
    }
}

// Does a line, and adds its answer.
fn answer<T: Threads + Wait + Sync>(
    rt: &T,
    alloc: Global,
    world: &mut World,
    script: (&str, &[String]),
    line: &str,
    told: &mut String,
) -> Result<(), Trouble> {
    if is_remark(line) {
        return Ok(());
    }
    if let Some(text) = line.strip_prefix(": ") {
        return world.add_line(text, "\n");
    }
    if let Some(text) = line.strip_prefix(":-") {
        return world.add_line(text, "");
    }
    if let Some(words) = line.strip_prefix(">>") {
        let mut words = words_of(alloc, words.trim_start_matches(' '))?;
        for word in script.1 {
            words.push(word.clone()?)?;
        }
        return world.run(rt, alloc, &words, told);
    }
    if let Some(words) = line.strip_prefix('>') {
        let words = words_of(alloc, words.trim_start_matches(' '))?;
        return world.run(rt, alloc, &words, told);
    }
    if let Some(path) = line.strip_prefix("show ") {
        return world.show(alloc, &meant_by(alloc, path)?, told);
    }
    if let Some(name) = line.strip_prefix("use ") {
        return plant(alloc, world, script.0, name);
    }
    if line == "faults" {
        return world.tell_faults(alloc, told);
    }
    world.make(alloc, &words_of(alloc, line)?)
}

// Does the lines of the tree of this name.
fn plant(alloc: Global, world: &mut World, script: &str, name: &str) -> Result<(), Trouble> {
    let mut is_within = false;
    for line in script.lines() {
        if is_within {
            if line == "end" {
                return Ok(());
            }
            if let Some(text) = line.strip_prefix(": ") {
                world.add_line(text, "\n")?;
            } else {
                world.make(alloc, &words_of(alloc, line)?)?;
            }
        } else if let Some(it) = line.strip_prefix("tree ") {
            is_within = it == name;
        }
    }
    Err(Trouble::Line)
}
