//! Laws of list files, each the contract of a function that does nothing but recall the law.
ghost use Rattle.flat_list.specs.Spelling.{SpellsOne, RefusesExactly};

use outside::link_reading_undoes_writing;
use path_text::reading_undoes_writing;

/// A list has one list file of a version, a list file has one list, and none is a proper prefix of another.
pub fn spelling_is_unique()
    ensures { SpellsOne }
{
    reading_undoes_writing();
    link_reading_undoes_writing();
}

/// A text is damaged at one line at most, and a list file at none. Only the text of a list with too many entries is too long.
/// So of the answers of [`FlatList::decode`](crate::FlatList::decode), except out of memory, only one can be true of a text.
pub fn refusals_are_exact()
    ensures { RefusesExactly }
{
    reading_undoes_writing();
    link_reading_undoes_writing();
}
