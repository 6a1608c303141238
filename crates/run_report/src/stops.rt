//! Why a run stops before it prints its list.
use path_text::{NoMemory, Path};

/// Why a list file could not be read or written.
#[derive(Clone, Copy, Debug, Drop, PartialEq, Eq)]
pub enum Trouble {
    /// There is no file to read.
    Absent,
    /// No file can be there.
    NoPlace,
    /// The files reported an error.
    Fault,
}

/// Why a run stops before it prints its list.
#[derive(Debug, Drop)]
pub enum Stop {
    /// The run is out of memory.
    OutOfMemory,
    /// Two of the sources and the targets of dcp or dsync are equal, or one is below another.
    Overlap,
    /// The destination of several sources is not a directory. Or there is no directory for a target, or the target's path would
    /// be too long.
    NoDirectory,
    /// There are more entries than a list may have.
    TooMany,
    /// The walk stopped, and its checkpoint is written.
    Stopped {
        /// The number of strings that were handled.
        handled: u64,
        /// The number of those that are left.
        left: u64,
    },
    /// The file at the path is not a list file. Its first bad line has this number, counted from 1.
    Damaged(Path, u64),
    /// The list file at the path could not be read or written.
    ListFile(Trouble, Path),
}

impl<E: NoMemory> From<E> for Stop {
    ghost use Rattle.std.specs.Prelude.{◌≡◌};
    ghost use Rattle.run_report.specs.declared.stops.Stop.TheVariants as error;

    ghost from_gives = { λ _ e. e ≡ error.OutOfMemory };

    fn from(_: E) -> Self {
        Stop::OutOfMemory
    }
}
