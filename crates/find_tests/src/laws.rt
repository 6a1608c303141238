//! Laws of globs, each the contract of a function that does nothing.
ghost use Rattle.find_tests.specs.Cases.{GlobByCases};

/// The glob relation, case by case over the characters of a pattern. The empty pattern matches the empty text. `*` and a rest
/// match a text if some division of it has a second part that the rest matches. Everything else stands for one character.
/// `?` stands for any character. A closed bracket stands for a member or, after `[!`, for a character that is not a member. A
/// character after a backslash stands for itself. So does every other character, a `[` that is not closed and a backslash at
/// the end among them.
pub fn glob_by_cases()
    ensures { GlobByCases }
{}
