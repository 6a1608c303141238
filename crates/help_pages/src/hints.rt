//! The line that the program adds on a terminal after words that it refused: the broken rule, and the help to read.
use path_text::OutOfMemory;
use std::alloc::Global;
use tool_words::{Cause, Command, Refusal};

const TOO_LONG: usize = 4096;

/// The line about a refusal of these words: `mfu: word 1, ".": paths must be absolute; see mfu help dwalk`.
pub fn hint(alloc: Global, words: &[String], refusal: Refusal) -> Result<String, OutOfMemory> {
    let number = refusal.word;
    let rule = rule_of(words, refusal);
    let page = page_of(words, refusal);
    Ok(match words.get(number) {
        Some(word) => {
            let word = word.as_str();
            format!(in alloc; "mfu: word {number}, {word:?}: {rule}; see mfu help{page}\n")?
        }
        None => format!(in alloc; "mfu: {rule}; see mfu help{page}\n")?,
    })
}

/// The line about a command that was refused though its words were not: its sources cannot go to its destination.
pub fn placing(command: &Command) -> &'static str {
    match command {
        Command::Sync { .. } => "mfu: DEST cannot be made equal to SOURCE; see mfu help dsync\n",
        _ => "mfu: the sources cannot go to DEST; see mfu help dcp\n",
    }
}

// What follows `mfu help` for the page that has the rule.
fn page_of(words: &[String], refusal: Refusal) -> &'static str {
    if refusal.cause == Cause::BadValue && valued_option(words, refusal.word) == "-o" {
        return " expressions";
    }
    match text_at(words, 0) {
        "dwalk" => " dwalk",
        "dfind" => " dfind",
        "dcmp" => " dcmp",
        "dcp" => " dcp",
        "dsync" => " dsync",
        "ddup" => " ddup",
        "drm" => " drm",
        "dtest" => " dtest",
        _ => "",
    }
}

fn rule_of(words: &[String], refusal: Refusal) -> &'static str {
    let tool = text_at(words, 0);
    match refusal.cause {
        Cause::NoTool => "a tool is missing",
        Cause::UnknownTool => "this is not a tool",
        Cause::UnknownOption => "the tool has no such option",
        Cause::NoValue => "this option needs a value",
        Cause::NoPath => missing_in(tool),
        Cause::TooManyPaths => surplus_in(tool),
        Cause::Clash => clash_at(words, refusal.word),
        Cause::BadValue => value_rule(words, refusal.word),
    }
}

fn text_at(words: &[String], k: usize) -> &str {
    match words.get(k) {
        Some(word) => word.as_str(),
        None => "",
    }
}

fn missing_in(tool: &str) -> &'static str {
    match tool {
        "dtest" => "the number of nodes is missing",
        "dcmp" | "dsync" => "give two paths, SOURCE and DEST",
        "dcp" => "give two paths or more, SOURCE... DEST",
        _ => "a path is missing",
    }
}

fn surplus_in(tool: &str) -> &'static str {
    match tool {
        "dtest" => "give one number of nodes",
        "dcmp" | "dsync" => "give two paths, SOURCE and DEST",
        _ => "give no path with --input or --restart",
    }
}

// The option of a word, without `=` and a value.
fn option_in(word: &str) -> &str {
    match word.split_once('=') {
        Some((option, _)) => option,
        None => word,
    }
}

fn clash_at(words: &[String], k: usize) -> &'static str {
    let option = option_in(text_at(words, k));
    for before in words.iter().take(k) {
        if option_in(before.as_str()) == option {
            return "this option was given before";
        }
    }
    match option {
        "--trace" => "--trace needs one thread, and cannot be combined with --stop-after",
        "--lists" => "--lists needs --stop-after or --restart",
        "--stop-after" | "--restart" => {
            "this option needs --lists, and cannot be combined with --input"
        }
        _ => "this option cannot be combined with another one, or needs another one",
    }
}

// The option whose value is in the word or is the word, or an empty text for a plain word.
fn valued_option(words: &[String], k: usize) -> &str {
    let word = text_at(words, k);
    let option = option_in(word);
    if option != word && option.starts_with('-') {
        return option;
    }
    if k > 0 && rule_of_option(text_at(words, k - 1)).is_some() {
        return text_at(words, k - 1);
    }
    ""
}

// The rule of a value: that of its option, or of a plain word.
fn value_rule(words: &[String], k: usize) -> &'static str {
    let option = valued_option(words, k);
    if !option.is_empty() {
        return rule_of_option(option).unwrap_or("this option takes no value");
    }
    if text_at(words, 0) == "dtest" {
        return "the number of nodes must be 1 to 1,000,000";
    }
    path_rule(text_at(words, 0), text_at(words, k))
}

// The rule of the value of an option, if it has one.
fn rule_of_option(option: &str) -> Option<&'static str> {
    Some(match option {
        "--ranks" | "--hosts" => "the number must be 1 to 64",
        "--width" => "the number must be 2 to 64",
        "--seed" => "the number must be below 2^64",
        "--stop-after" | "--range" => "the number must be 1 to 2^63 - 1",
        "--split" => "the rule must be equal or random",
        "--sort" => "the field must be path, name, size, mtime or kind, or one of these after -",
        "--input" | "--output" | "--lists" | "--newer" => "the path must be absolute",
        "--name" | "--path" => "the value must be a glob",
        "--type" => "the kind must be f, d, l or o",
        "--size" => "the bound must be N, +N or -N, and B, k, M or G may follow",
        "--mtime" | "--mmin" => "the bound must be N, +N or -N",
        "-o" => "the value must be EXPR:FILE, with an absolute path",
        _ => return None,
    })
}

fn path_rule(tool: &str, word: &str) -> &'static str {
    if !word.starts_with('/') {
        "paths must be absolute"
    } else if word.len() >= TOO_LONG {
        "a path has at most 4,095 bytes"
    } else if tool == "drm" && word.trim_end_matches('/').is_empty() {
        "drm does not delete /"
    } else {
        "a path must not contain '.', '..' or an empty name"
    }
}
