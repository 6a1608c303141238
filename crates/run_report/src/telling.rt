//! The one line of a run that prints no list.
ghost use Rattle.std.specs.Prelude.{◌≡◌, ◌++◌, ◌∷◌, [], codes, Some, IfOk, OnOk, OnErr};
ghost use Rattle.outside.specs.Count.{RoseBy};
ghost use Rattle.tool_words.specs.Refusals.{refusal_in};
ghost use Rattle.run_report.specs.Ends.{GrewByLine};
ghost use Rattle.run_report.specs.Lines.{memory_line, cause_text, refusal_line, stopped_line, damaged_line, list_line};
ghost use Rattle.run_report.specs.Sides.{stream_of};
ghost use Rattle.run_report.specs.Stops.{status_of, trouble_word, stop_line, Told, ToldRefusal};

use crate::statuses::Status;
use crate::stops::{Stop, Trouble};
use outside::{Sink, put_all};
use path_text::{OutOfMemory, Path};
use std::alloc::Global;
use tool_text::{Text, put_line, put_path_line};
use tool_words::{Cause, Refusal, WordsError};

// Ends with one line. If it is out of memory for that line, it ends with the line of status 3, which needs none. The status is
// the same if the sink fails.
fn end_with<E: Sink>(notes: &mut E, line: Result<Text, OutOfMemory>, status: Status) -> Status
    ensures status { OnOk line (result ≡ status) }
    ensures line { IfOk line (λ text. GrewByLine text (stream_of E.Sink notes.old) (stream_of E.Sink notes.new)) }
    ensures memory { OnErr line ((result ≡ Status.Memory) × GrewByLine memory_line (stream_of E.Sink notes.old) (stream_of E.Sink notes.new)) }
    ensures count { RoseBy 0 (E.count notes.old) (E.count notes.new) }
{
    match line {
        Ok(text) => {
            put_text(notes, &text);
            status
        }
        Err(OutOfMemory) => {
            put_bytes(notes, b"out of memory\n");
            Status::Memory
        }
    }
}

// Puts a text, or as much of it as a sink takes before it fails.
fn put_text<E: Sink>(notes: &mut E, text: &Text)
    ensures line { GrewByLine text.now (stream_of E.Sink notes.old) (stream_of E.Sink notes.new) }
    ensures count { RoseBy 0 (E.count notes.old) (E.count notes.new) }
{
    let _ = text.put(notes);
}

// Puts a line, or as much of it as a sink takes before it fails.
fn put_bytes<E: Sink>(notes: &mut E, line: &[u8])
    ensures line { GrewByLine line.now (stream_of E.Sink notes.old) (stream_of E.Sink notes.new) }
    ensures count { RoseBy 0 (E.count notes.old) (E.count notes.new) }
{
    let _ = put_all(notes, line);
}

/// Ends a run whose words are refused, with the line of the offence; or, if it is out of memory, with the line of status 3.
pub fn end_refused<E: Sink>(alloc: Global, notes: &mut E, why: WordsError) -> Status
    ensures told { ToldRefusal (refusal_in why) result (stream_of E.Sink notes.old) (stream_of E.Sink notes.new) }
    ensures count { RoseBy 0 (E.count notes.old) (E.count notes.new) }
{
    match why.refusal() {
        Some(refusal) => end_by(alloc, notes, refusal),
        None => end_with(notes, Err(OutOfMemory), Status::Memory),
    }
}

fn end_by<E: Sink>(alloc: Global, notes: &mut E, refusal: Refusal) -> Status
    ensures told { ToldRefusal (Some refusal) result (stream_of E.Sink notes.old) (stream_of E.Sink notes.new) }
    ensures count { RoseBy 0 (E.count notes.old) (E.count notes.new) }
{
    end_with(notes, refusal_line(alloc, refusal), Status::Words)
}

// The line that says which word is refused, and why.
fn refusal_line(alloc: Global, refusal: Refusal) -> Result<Text, OutOfMemory>
    ensures { IfOk result (λ text. text ≡ refusal_line refusal) }
{
    let Refusal { word, cause } = refusal;
    let line = format!(in alloc; "refused word {word} {}", cause_text(cause))?;
    text_of(alloc, &line)
}

fn cause_text(cause: Cause) -> &'static str
    ensures { result.now ≡ cause_text cause }
{
    match cause {
        Cause::NoTool => "no tool",
        Cause::UnknownTool => "unknown tool",
        Cause::UnknownOption => "unknown option",
        Cause::NoValue => "no value",
        Cause::BadValue => "bad value",
        Cause::NoPath => "no path",
        Cause::TooManyPaths => "too many paths",
        Cause::Clash => "clash",
    }
}

/// Ends a run that stopped, with its line; or, if it is out of memory for that, with the line of status 3.
pub fn end_stopped<E: Sink>(alloc: Global, notes: &mut E, stop: Stop) -> Status
    ensures told { Told stop result (stream_of E.Sink notes.old) (stream_of E.Sink notes.new) }
    ensures count { RoseBy 0 (E.count notes.old) (E.count notes.new) }
{
    let status = status_of(&stop);
    end_with(notes, stop_line(alloc, &stop), status)
}

fn status_of(stop: &Stop) -> Status
    ensures { result ≡ status_of stop.now }
{
    match stop {
        Stop::OutOfMemory => Status::Memory,
        Stop::Overlap | Stop::NoDirectory => Status::Words,
        Stop::TooMany => Status::TooMany,
        Stop::Stopped { .. } => Status::Stopped,
        Stop::Damaged(..) => Status::Damaged,
        Stop::ListFile(..) => Status::ListFile,
    }
}

// The line that says why a run stopped. If the reason is out of memory, it makes none.
fn stop_line(alloc: Global, stop: &Stop) -> Result<Text, OutOfMemory>
    ensures { IfOk result (λ text. text ≡ stop_line stop.now) }
{
    match stop {
        Stop::OutOfMemory => Err(OutOfMemory),
        Stop::Overlap => text_of(alloc, "refused overlap"),
        Stop::NoDirectory => text_of(alloc, "refused no directory"),
        Stop::TooMany => text_of(alloc, "too many entries"),
        Stop::Stopped { handled, left } => stopped_line(alloc, *handled, *left),
        Stop::Damaged(path, line) => damaged_line(alloc, path, *line),
        Stop::ListFile(trouble, path) => list_line(alloc, trouble_word(*trouble), path),
    }
}

fn stopped_line(alloc: Global, handled: u64, left: u64) -> Result<Text, OutOfMemory>
    ensures { IfOk result (λ text. text ≡ stopped_line handled left) }
{
    let line = format!(in alloc; "stopped handled {handled} left {left}")?;
    text_of(alloc, &line)
}

fn damaged_line(alloc: Global, path: &Path, line: u64) -> Result<Text, OutOfMemory>
    ensures { IfOk result (λ text. text ≡ damaged_line path.now line) }
{
    let mut text = Text::make(alloc);
    let place = format!(in alloc; " line {line}")?;
    put_path_line(&mut text, "damaged ", path, &place)?;
    Ok(text)
}

fn list_line(alloc: Global, why: &str, path: &Path) -> Result<Text, OutOfMemory>
    ensures { IfOk result (λ text. text ≡ list_line why.now path.now) }
{
    let mut text = Text::make(alloc);
    let fault = format!(in alloc; "list {why} ")?;
    put_path_line(&mut text, &fault, path, "")?;
    Ok(text)
}

fn trouble_word(trouble: Trouble) -> &'static str
    ensures { result.now ≡ trouble_word trouble }
{
    match trouble {
        Trouble::Absent => "absent",
        Trouble::NoPlace => "place",
        Trouble::Fault => "fault",
    }
}

fn text_of(alloc: Global, line: &str) -> Result<Text, OutOfMemory>
    ensures { IfOk result (λ text. text ≡ line.now ++ 10 ∷ []) }
{
    let mut text = Text::make(alloc);
    put_line(&mut text, line)?;
    Ok(text)
}
