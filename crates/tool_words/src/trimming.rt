//! A path word without the `/` at its end.
ghost use Rattle.std.specs.Prelude.{◌≡◌};
ghost use Rattle.tool_words.specs.Value.{trimmed, before_end_slashes};

/// A path word without any `/` at its end, where its first byte stays.
pub fn trimmed(word: &str) -> &str
    ensures { result.now ≡ trimmed word.now }
{
    let front = before_end_slashes(word);
    if front.is_empty() && !word.is_empty() {
        "/"
    } else {
        front
    }
}

fn before_end_slashes(text: &str) -> &str
    ensures { result.now ≡ before_end_slashes text.now }
{
    text.trim_end_matches('/')
}
