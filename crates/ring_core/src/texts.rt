//! Events as lines of text.
ghost use Rattle.std.specs.Prelude.{◌≡◌, ◌+◌, ◌≤◌, ◌<◌, ◌∷◌, ◌++◌, ℕ, List, length, take, drop, IfOk, OnOk, OnErr, codes};
ghost use Rattle.std.specs.Fmt.{decimal};
ghost use Rattle.ring_core.specs.Text.{number, colour_text, words_of, line_of};

use crate::events::Event;
use crate::states::Colour;
use path_text::{OutOfMemory, put_escaped};
use std::alloc::Global;

/// The line of an event in a trace, with its line feed.
pub fn text_of(alloc: Global, event: &Event) -> Result<Vec<u8>, OutOfMemory>
    ensures { IfOk result (λ text. text.items ≡ line_of event.now) }
{
    let mut text = Vec::new(alloc);
    put_event(&mut text, event)?;
    Ok(text)
}

/// Appends the line of [`text_of`], with no memory of its own. If memory runs out, the text is as before.
pub fn put_event(text: &mut Vec<u8>, event: &Event) -> Result<(), OutOfMemory>
    ensures ok { OnOk result (text.new.items ≡ text.old.items ++ line_of event.now) }
    ensures err { OnErr result (text.new.items ≡ text.old.items) }
{
    let len = text.len();
    let put = append_line(text, event);
    if put.is_err() {
        text.truncate(len);
    }
    put
}

// If memory runs out, the first part of the line may stay behind the old text.
fn append_line(text: &mut Vec<u8>, event: &Event) -> Result<(), OutOfMemory>
    ensures ok { OnOk result (text.new.items ≡ text.old.items ++ line_of event.now) }
    ensures kept { take (length text.old.items) text.new.items ≡ text.old.items }
{
    append_words(text, event)?;
    text.push(b'\n')?;
    Ok(())
}

fn append_words(text: &mut Vec<u8>, event: &Event) -> Result<(), OutOfMemory>
    ensures ok { OnOk result (text.new.items ≡ text.old.items ++ words_of event.now) }
    ensures kept { take (length text.old.items) text.new.items ≡ text.old.items }
{
    match event {
        Event::Handle { rank, path, kids } => {
            append_pair(text, b"handle", *rank, *kids)?;
            text.push(b' ')?;
            put_escaped(text, path)
        }
        Event::Ask { rank, victim } => append_pair(text, b"ask", *rank, *victim as u64),
        Event::Give { rank, to, count } => {
            append_pair(text, b"give", *rank, *to as u64)?;
            append_number(text, *count)
        }
        Event::Refuse { rank, to } => append_pair(text, b"refuse", *rank, *to as u64),
        Event::Take { rank, from, count } => {
            append_pair(text, b"take", *rank, *from as u64)?;
            append_number(text, *count)
        }
        Event::TakeNone { rank, from } => append_pair(text, b"none", *rank, *from as u64),
        Event::Pass { rank, colour } => {
            append_rank(text, b"pass", *rank)?;
            append_colour(text, *colour)
        }
        Event::Restart { rank } => append_rank(text, b"restart", *rank),
        Event::Conclude { rank } => append_rank(text, b"conclude", *rank),
        Event::SeeOver { rank } => append_rank(text, b"over", *rank),
    }
}

fn append_pair(text: &mut Vec<u8>, word: &[u8], rank: u32, second: u64) -> Result<(), OutOfMemory>
    ensures ok { OnOk result (text.new.items ≡ text.old.items ++ (word.now ++ number rank ++ number second)) }
    ensures kept { take (length text.old.items) text.new.items ≡ text.old.items }
{
    append_rank(text, word, rank)?;
    append_number(text, second)
}

fn append_rank(text: &mut Vec<u8>, word: &[u8], rank: u32) -> Result<(), OutOfMemory>
    ensures ok { OnOk result (text.new.items ≡ text.old.items ++ (word.now ++ number rank)) }
    ensures kept { take (length text.old.items) text.new.items ≡ text.old.items }
{
    text.extend_from_slice(word)?;
    append_number(text, rank as u64)
}

fn append_colour(text: &mut Vec<u8>, colour: Colour) -> Result<(), OutOfMemory>
    ensures ok { OnOk result (text.new.items ≡ text.old.items ++ colour_text colour) }
    ensures err { OnErr result (text.new.items ≡ text.old.items) }
{
    match colour {
        Colour::White => text.extend_from_slice(b" white")?,
        Colour::Black => text.extend_from_slice(b" black")?,
    }
    Ok(())
}

fn append_number(text: &mut Vec<u8>, value: u64) -> Result<(), OutOfMemory>
    ensures ok { OnOk result (text.new.items ≡ text.old.items ++ number value) }
    ensures err { OnErr result (text.new.items ≡ text.old.items) }
{
    let (digits, start) = digits_of(value);
    text.extend_from_slice(&digits[start..])?;
    Ok(())
}

// A space and the decimal digits at the end of the array, and where they start.
fn digits_of(value: u64) -> ([u8; 21], usize)
    ensures start { result.1 ≤ 21 }
    ensures digits { drop result.1 result.0 ≡ number value }
{
    let mut digits = [b' '; 21];
    let mut left = value;
    let mut at = 20;
    while left >= 10 {
        digits[at] = b'0' + (left % 10) as u8;
        left /= 10;
        at -= 1;
    }
    digits[at] = b'0' + left as u8;
    digits[at - 1] = b' ';
    (digits, at - 1)
}
