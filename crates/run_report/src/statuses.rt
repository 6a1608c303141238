//! How a run ends.

/// How a run ended. Its number is the program's exit status.
#[derive(Clone, Copy, Debug, Drop, PartialEq, Eq)]
pub enum Status {
    /// All was done, without a failure.
    Done,
    /// All was done, and the notes name the paths that failed.
    Named,
    /// The words were refused, or the destination of dcp or dsync was.
    Words,
    /// The run is out of memory.
    Memory,
    /// A sink failed.
    Sink,
    /// There are more entries than a list may have.
    TooMany,
    /// The walk stopped as asked, and its checkpoint is written.
    Stopped,
    /// The file to be read is not a list file.
    Damaged,
    /// A list file could not be read, or could not be written.
    ListFile,
}

impl Status {
    ghost use Rattle.std.specs.Prelude.{◌≡◌};
    ghost use Rattle.run_report.specs.Statuses.{number_of};

    /// The exit status of the program.
    pub const fn number(self) -> u8
        ensures { result ≡ number_of self }
    {
        match self {
            Status::Done => 0,
            Status::Named => 1,
            Status::Words => 2,
            Status::Memory => 3,
            Status::Sink => 4,
            Status::TooMany => 5,
            Status::Stopped => 6,
            Status::Damaged => 7,
            Status::ListFile => 8,
        }
    }
}
