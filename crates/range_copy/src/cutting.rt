//! The cuts of a file.
ghost use Rattle.std.specs.Prelude.{◌≡◌, ◌<◌, ◌≤◌, ◌*◌, ◌+◌, ◌-◌, ◌/◌, length, IfOk, IsTrue};
ghost use Rattle.outside.specs.Spans.{are_cuts};
ghost use Rattle.range_copy.specs.Ranges.{end_of, range_cuts, step_of};

use path_text::NoMemory;
use std::alloc::Global;
use thiserror::Error;

/// Why there are no ranges, or nothing is copied.
#[derive(Clone, Copy, Debug, Drop, PartialEq, Eq, Error)]
pub enum RangeError {
    /// Out of memory.
    #[error("out of memory")]
    OutOfMemory,
}

impl<E: NoMemory> From<E> for RangeError {
    ghost use Rattle.std.specs.Prelude.{◌≡◌};
    ghost use Rattle.range_copy.specs.declared.cutting.RangeError.TheVariants as error;

    ghost from_gives = { λ _ e. e ≡ error.OutOfMemory };

    fn from(_: E) -> Self {
        RangeError::OutOfMemory
    }
}

// The largest number of ranges of a file.
const MOST: u64 = 4096;

/// The cuts of a file of this size. They are 0, the multiples of a step below the size, and the size. The step is the piece, or, if
/// that is less, the number of bytes that makes 4,096 ranges of the file.
pub fn ranges(alloc: Global, size: u64, piece: u64) -> Result<Vec<u64>, RangeError>
    requires piece { 1 ≤ piece }
    requires larger { piece < size }
    ensures ranges { IfOk result (λ cuts. cuts.items ≡ range_cuts size (step_of size piece)) }
    ensures cuts { IfOk result (λ cuts. IsTrue (are_cuts cuts.items)) }
    ensures whole { IfOk result (λ cuts. end_of cuts.items ≡ size) }
    ensures most { IfOk result (λ cuts. length cuts.items ≤ 4097) }
{
    let step = step_of(size, piece);
    let number = (size - 1) / step + 1;
    let mut cuts = Vec::new(alloc);
    for k in 0..number {
        cuts.push(place_of(k, step, size))?;
    }
    cuts.push(size)?;
    Ok(cuts)
}

// How many bytes each range but the last has.
fn step_of(size: u64, piece: u64) -> u64
    requires piece { 1 ≤ piece }
    requires larger { piece < size }
    ensures { result ≡ step_of size piece }
{
    let least = (size - 1) / MOST + 1;
    if piece < least { least } else { piece }
}

// The place of the cut of this number.
fn place_of(k: u64, step: u64, size: u64) -> u64
    requires step { 1 ≤ step }
    requires inside { k ≤ (size - 1) / step }
    ensures { result ≡ k * step }
{
    k * step
}
