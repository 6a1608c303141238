//! Command lines, and their commands.
use crate::telling::{tell_line, tell_value};
use crate::tests::said;
use flat_list::Field;
use path_text::Path;
use script_lines::Trouble;
use std::alloc::Global;
use tool_words::{Command, Common, Start, Tests, Want, WordsError, read_words};
use tree_cmp::{Exist, Row, Two};

/// Answers the command of the words, or which of them is refused.
pub fn tell(alloc: Global, words: &[String], told: &mut String) -> Result<(), Trouble> {
    match read_words(alloc, words) {
        Ok(command) => tell_command(alloc, &command, told),
        Err(error) => tell_refusal(alloc, error, told),
    }
}

fn tell_refusal(alloc: Global, error: WordsError, told: &mut String) -> Result<(), Trouble> {
    let Some(refusal) = error.refusal() else {
        return Err(Trouble::Memory);
    };
    let text = format!(in alloc; "refused word {} {:?}", refusal.word, refusal.cause)?;
    tell_value(&text, told)
}

fn tell_command(alloc: Global, command: &Command, told: &mut String) -> Result<(), Trouble> {
    tell_name(alloc, command, told)?;
    tell_common(alloc, &common_of(command), told)?;
    tell_places(alloc, command, told)?;
    tell_choice(alloc, command, told)?;
    tell_list(alloc, command, told)?;
    tell_rest(alloc, command, told)
}

fn tell_name(alloc: Global, command: &Command, told: &mut String) -> Result<(), Trouble> {
    match command {
        Command::Walk { .. } => tell_line("walk", told),
        Command::Find { .. } => tell_line("find", told),
        Command::Cmp { .. } => tell_line("compare", told),
        Command::Copy { .. } => tell_line("copy", told),
        Command::Sync { .. } => tell_line("sync", told),
        Command::Dup { .. } => tell_line("groups", told),
        Command::Remove { .. } => tell_line("remove", told),
        Command::Test { nodes, .. } => tell_line(&format!(in alloc; "test {nodes}")?, told),
    }
}

fn common_of(command: &Command) -> Common {
    match command {
        Command::Walk { common, .. } => *common,
        Command::Find { common, .. } => *common,
        Command::Cmp { common, .. } => *common,
        Command::Copy { common, .. } => *common,
        Command::Sync { common, .. } => *common,
        Command::Dup { common, .. } => *common,
        Command::Remove { common, .. } => *common,
        Command::Test { common, .. } => *common,
    }
}

// Adds where a command begins, and its destination.
fn tell_places(alloc: Global, command: &Command, told: &mut String) -> Result<(), Trouble> {
    match command {
        Command::Walk { start, .. } => tell_start(alloc, start, told),
        Command::Find { start, .. } => tell_start(alloc, start, told),
        Command::Cmp { left, right, .. } => {
            tell_path(alloc, "left", left, told)?;
            tell_path(alloc, "right", right, told)
        }
        Command::Copy { sources, dest, .. } => {
            tell_paths(alloc, "source", sources, told)?;
            tell_path(alloc, "dest", dest, told)
        }
        Command::Sync { source, dest, .. } => {
            tell_path(alloc, "source", source, told)?;
            tell_path(alloc, "dest", dest, told)
        }
        Command::Dup { roots, .. } => tell_paths(alloc, "root", roots, told),
        Command::Remove { roots, .. } => tell_paths(alloc, "root", roots, told),
        Command::Test { .. } => Ok(()),
    }
}

// Adds the tests that choose entries.
fn tell_choice(alloc: Global, command: &Command, told: &mut String) -> Result<(), Trouble> {
    match command {
        Command::Find { tests, .. } => tell_tests(alloc, tests, told),
        Command::Remove { tests, .. } => tell_tests(alloc, tests, told),
        Command::Test { tests, .. } => tell_tests(alloc, tests, told),
        _ => Ok(()),
    }
}

// Adds the order of a list, and the file to which it is written.
fn tell_list(alloc: Global, command: &Command, told: &mut String) -> Result<(), Trouble> {
    let (sort, output) = match command {
        Command::Walk { sort, output, .. } => (sort, output),
        Command::Find { sort, output, .. } => (sort, output),
        _ => return Ok(()),
    };
    tell_sort(alloc, *sort, told)?;
    tell_file(alloc, "output", output, told)
}

// Adds the settings that only one command has.
fn tell_rest(alloc: Global, command: &Command, told: &mut String) -> Result<(), Trouble> {
    match command {
        Command::Walk {
            stop_after,
            lists,
            ..
        } => {
            tell_number(alloc, "stop after", *stop_after, told)?;
            tell_file(alloc, "lists", lists, told)
        }
        Command::Cmp { wants, .. } => tell_wants(alloc, wants, told),
        Command::Copy { range, .. } => tell_number(alloc, "range", *range, told),
        Command::Sync { delete, .. } => tell_flag("delete", *delete, told),
        Command::Remove { dryrun, .. } => tell_flag("dryrun", *dryrun, told),
        _ => Ok(()),
    }
}

/// Answers the defaults of a walk.
pub fn tell_standard(alloc: Global, told: &mut String) -> Result<(), Trouble> {
    tell_going(alloc, &Common::standard(), told)
}

// Adds the settings of a walk, if they differ from the defaults.
fn tell_common(alloc: Global, common: &Common, told: &mut String) -> Result<(), Trouble> {
    if *common == Common::standard() {
        return Ok(());
    }
    tell_going(alloc, common, told)
}

fn tell_going(alloc: Global, common: &Common, told: &mut String) -> Result<(), Trouble> {
    let numbers = format!(in alloc;
        "ranks {} hosts {} split {:?} seed {} width {}",
        common.ranks, common.hosts, common.split, common.seed, common.width
    )?;
    tell_line(&numbers, told)?;
    tell_flag("trace", common.trace, told)?;
    tell_flag("shares", common.shares, told)?;
    tell_flag("progress", common.progress, told)
}

fn tell_flag(name: &str, is_set: bool, told: &mut String) -> Result<(), Trouble> {
    if is_set {
        tell_line(name, told)?;
    }
    Ok(())
}

fn tell_path(alloc: Global, name: &str, path: &Path, told: &mut String) -> Result<(), Trouble> {
    tell_line(&format!(in alloc; "{name} {}", path.text())?, told)
}

fn tell_paths(alloc: Global, name: &str, paths: &[Path], told: &mut String) -> Result<(), Trouble> {
    for path in paths {
        tell_path(alloc, name, path, told)?;
    }
    Ok(())
}

fn tell_file(
    alloc: Global,
    name: &str,
    file: &Option<Path>,
    told: &mut String,
) -> Result<(), Trouble> {
    match file {
        Some(path) => tell_path(alloc, name, path, told),
        None => Ok(()),
    }
}

fn tell_number(
    alloc: Global,
    name: &str,
    number: Option<u64>,
    told: &mut String,
) -> Result<(), Trouble> {
    match number {
        Some(number) => tell_line(&format!(in alloc; "{name} {number}")?, told),
        None => Ok(()),
    }
}

fn tell_start(alloc: Global, start: &Start, told: &mut String) -> Result<(), Trouble> {
    match start {
        Start::Roots(roots) => tell_paths(alloc, "root", roots, told),
        Start::Input(file) => tell_path(alloc, "input", file, told),
        Start::Restart => tell_line("restart", told),
    }
}

fn tell_sort(alloc: Global, sort: Option<(Field, bool)>, told: &mut String) -> Result<(), Trouble> {
    match sort {
        Some((field, true)) => tell_line(&format!(in alloc; "sort {field:?} down")?, told),
        Some((field, false)) => tell_line(&format!(in alloc; "sort {field:?}")?, told),
        None => Ok(()),
    }
}

fn tell_tests(alloc: Global, tests: &Tests, told: &mut String) -> Result<(), Trouble> {
    for test in &tests.tests {
        tell_line(&said(alloc, test)?, told)?;
    }
    tell_paths(alloc, "newer", &tests.newer, told)
}

// Adds the files that the command saves, each with whether it takes a path that the source alone has.
fn tell_wants(alloc: Global, wants: &[Want], told: &mut String) -> Result<(), Trouble> {
    let row = Row {
        path: Path::parse(alloc, "/x")?,
        exist: Exist::OnlySrc,
        kind: Two::NoValue,
        size: Two::NoValue,
        content: Two::NoValue,
    };
    for want in wants {
        let name = if want.expr.holds(&row) {
            "save of the source alone"
        } else {
            "save of others"
        };
        tell_path(alloc, name, &want.file, told)?;
    }
    Ok(())
}
