//! How lines are answered.
use outside::MemSink;
use path_text::Path;
use script_lines::{Trouble, put_bytes, put_value};
use std::alloc::Global;
use std::fmt::Debug;
use tool_text::Text;

/// Adds a value.
pub fn tell_value(value: &str, told: &mut String) -> Result<(), Trouble> {
    put_value(told, value)?;
    Ok(())
}

/// Adds a value, or a refusal, as it is printed for debugging.
pub fn tell_debug<T: Debug>(alloc: Global, value: &T, told: &mut String) -> Result<(), Trouble> {
    tell_value(&format!(in alloc; "{value:?}")?, told)
}

/// Adds a number.
pub fn tell_number(alloc: Global, number: u64, told: &mut String) -> Result<(), Trouble> {
    tell_value(&format!(in alloc; "{number}")?, told)
}

/// Adds the word for a truth value.
pub fn tell_truth(holds: bool, told: &mut String) -> Result<(), Trouble> {
    tell_value(if holds { "true" } else { "false" }, told)
}

/// Adds one line of a text.
pub fn tell_line(line: &str, told: &mut String) -> Result<(), Trouble> {
    told.push_str("| ")?;
    told.push_str(line)?;
    told.push('\n')?;
    Ok(())
}

/// Adds the paths, each in a line.
pub fn tell_paths(paths: &[Path], told: &mut String) -> Result<(), Trouble> {
    for path in paths {
        tell_line(path.text(), told)?;
    }
    Ok(())
}

/// Adds the lines of a text of at most 64 KiB.
pub fn tell_text(alloc: Global, text: &Text, told: &mut String) -> Result<(), Trouble> {
    let mut sink = MemSink::limited(alloc, 65536)?;
    if text.put(&mut sink).is_err() {
        return Err(Trouble::Memory);
    }
    put_bytes(told, '|', sink.text())?;
    Ok(())
}
