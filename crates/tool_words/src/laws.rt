//! Laws of commands, each the contract of a function with an empty body.
ghost use Rattle.tool_words.specs.Limits.{WordsAskWithinLimits};

/// The paths of a command are valid, and its numbers are within the limits of a run.
pub fn words_ask_within_limits()
    ensures { WordsAskWithinLimits }
{}
