//! Cuts lines and words off the front of a text.
ghost use Rattle.std.specs.Prelude.{◌≡◌, ◌+◌, ◌<◌, take, drop, IfSome, IfNone, Some, None, length, ◌==◌};
ghost use Rattle.std.specs.List.{position};
ghost use Rattle.std.specs.Option.{option_map};
ghost use Rattle.whole_lines.specs.Words.{cut};

use memchr::memchr;

/// The text before the first place of a byte, and the text after it.
pub fn cut(text: &[u8], at: u8) -> Option<(&[u8], &[u8])>
    ensures { option_map (λ parts. (parts.0.now, parts.1.now)) result ≡ cut at text.now }
{
    let place = place_of(text, at)?;
    Some((&text[..place], &text[place + 1..]))
}

/// The first line of a text without its line feed, and the text after it. Lines are long, so the search for the line feed reads
/// many bytes at a time.
pub fn cut_line(text: &[u8]) -> Option<(&[u8], &[u8])>
    ensures { option_map (λ parts. (parts.0.now, parts.1.now)) result ≡ cut 10 text.now }
{
    let end = line_end(text)?;
    Some((&text[..end], &text[end + 1..]))
}

#[tactic(auto, using(crate::proofs::Words::firsts))]
fn line_end(text: &[u8]) -> Option<usize>
    ensures found { IfSome result (λ k. (k < length text.now) × (cut 10 text.now ≡ Some (take k text.now, drop (k + 1) text.now))) }
    ensures none { IfNone result (cut 10 text.now ≡ None) }
{
    memchr(b'\n', text)
}

#[tactic(auto, using(crate::proofs::Words::places))]
fn place_of(text: &[u8], at: u8) -> Option<usize>
    ensures found { IfSome result (λ k. (k < length text.now) × (cut at text.now ≡ Some (take k text.now, drop (k + 1) text.now))) }
    ensures none { IfNone result (cut at text.now ≡ None) }
{
    position_of(text, at)
}

fn position_of(text: &[u8], at: u8) -> Option<usize>
    ensures { result ≡ position (λ b. b == at) text.now }
{
    text.iter().position(|b| *b == at)
}
