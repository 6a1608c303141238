//! The laws of the files of a checkpoint. Each law is the contract of a function that only calls the law that it needs.
ghost use Rattle.circle_lists.specs.Spelling.{SpellsOne, DamagedOnce};
ghost use Rattle.circle_lists.specs.Checkpoint.{ReadsBack};

use path_text::reading_undoes_writing;

/// A rank's list has one file. A file is that of one list, of one rank among one number of ranks. No file is a proper prefix
/// of another.
pub fn spelling_is_unique()
    ensures { SpellsOne }
{
    reading_undoes_writing();
}

/// A text is damaged at one line at most, and a file of the rank at none.
pub fn damage_is_exact()
    ensures { DamagedOnce }
{}

/// The files in a folder hold the lists of one checkpoint alone, so reading gives the lists that were written.
pub fn reading_undoes_saving()
    ensures { ReadsBack }
{
    reading_undoes_writing();
}
