//! The words, read from left to right.
ghost use Rattle.std.specs.Prelude.{◌≡◌, map, Some, Ok, Err, IfOk, IfErr, IfSome, string_bytes};
ghost use Rattle.tool_words.specs.Asked.{asked_by};
ghost use Rattle.tool_words.specs.Parts.{Reads};
ghost use Rattle.tool_words.specs.Refusals.{refusal_in};
ghost use Rattle.tool_words.specs.Words.{nothing, with_words, reading_for, reading};

use crate::commands::Command;
use crate::errors::WordsError;
use crate::lines::Line;
use crate::tables::Tool;
use std::alloc::Global;

/// The command of the words, or the first offence from the left. Word 0 names the tool.
pub fn read_words(alloc: Global, words: &[String]) -> Result<Command, WordsError>
    ensures read { IfOk result (λ command. reading (map string_bytes words.now) ≡ Ok (asked_by command)) }
    ensures refused { IfErr result (λ e. IfSome (refusal_in e) (λ refusal. reading (map string_bytes words.now) ≡ Err refusal)) }
{
    let Some((tool, behind)) = words.split_first() else {
        return Err(WordsError::NoTool(0));
    };
    let Some(tool) = Tool::named(tool.as_str()) else {
        return Err(WordsError::UnknownTool(0));
    };
    read_for(alloc, tool, behind)
}

// What a tool was asked for, by the words behind it.
fn read_for(alloc: Global, tool: Tool, words: &[String]) -> Result<Command, WordsError>
    ensures { Reads (reading_for (Some tool) (map string_bytes words.now)) asked_by result }
{
    let line = read_line(alloc, tool, words)?;
    line.command(tool, words.len() + 1)
}

// What the words behind the tool give, of which the first is word 1.
fn read_line(alloc: Global, tool: Tool, words: &[String]) -> Result<Line, WordsError>
    ensures { Reads (with_words tool 1 (map string_bytes words.now) nothing) (λ line. line) result }
{
    let mut line = Line::nothing(alloc);
    for (index, word) in words.iter().enumerate() {
        line.read(tool, word.as_str(), index + 1)?;
    }
    line.end()?;
    Ok(line)
}
