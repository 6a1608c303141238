//! Large files that are written in spans.
ghost use Rattle.std.specs.Prelude.{◌≡◌, ◌+◌, ◌≤◌, ◌∷◌, [], ℕ, List, Option, Some, length, map, All, IsTrue, IfOk, IfSome, OnOk, OnErr, IsErrOf, is_some};
ghost use Rattle.std.specs.Option.{option_map};
ghost use Rattle.std.specs.List.{sum_by};
ghost use Rattle.std.specs.FinMap.{get};
ghost use Rattle.outside.specs.Count.{RoseBy, capped};
ghost use Rattle.outside.specs.Writes.{is_open, spliced, SameBut};
ghost use Rattle.outside.specs.Lease.{kept};
ghost use Rattle.outside.specs.Spans.{Piece, are_cuts, pieces, zeros_of, area_cut, area_whole, cuts_in, IsEmptyFile, IsRejoined, joined_bytes};

use crate::grounds::Ground;
use path_text::{NoMemory, Path};
use std::alloc::Global;
use thiserror::Error;

/// Why a span is not written, or a file is not lent in spans.
#[derive(Clone, Copy, Debug, Drop, PartialEq, Eq, Error)]
pub enum SpanError {
    /// The outside failed, and the object has counted the fault.
    #[error("the outside failed")]
    Failed,
    /// The call is out of memory.
    #[error("out of memory")]
    OutOfMemory,
}

impl<E: NoMemory> From<E> for SpanError {
    ghost use Rattle.std.specs.Prelude.{◌≡◌};
    ghost use Rattle.outside.specs.declared.spans.SpanError.TheVariants as span;

    ghost from_gives = { λ _ e. e ≡ span.OutOfMemory };

    fn from(_: E) -> Self {
        SpanError::OutOfMemory
    }
}

/// A range of the bytes of a file, which is written on its own. No call changes its range, or whether it tells its bytes.
pub trait Span {
    /// The path of its file, its start in that file, and its number of bytes.
    ghost piece: { Self → Piece };

    /// Its bytes, if it tells them.
    ghost holds: { Self → Option (List ℕ) };

    /// The number of faults.
    ghost count: { Self → ℕ };

    /// The number of faults. The contract also says that it has as many bytes as it shows.
    fn faults(&self) -> u64
        ensures counted { result ≡ count self.now }
        ensures valid { IfSome (holds self.now) (λ bytes. length bytes ≡ (piece self.now).size) };

    /// Writes bytes over its own, from an offset on that counts from its start. After `Failed` the contract says nothing of its
    /// bytes.
    fn write(&mut self, at: u64, bytes: &[u8]) -> Result<(), SpanError>
        requires { at + length bytes.now ≤ (piece self.old).size }
        ensures ok { OnOk result (holds self.new ≡ option_map (λ old. spliced old at bytes.now) (holds self.old)) }
        ensures memory { IsErrOf result SpanError.OutOfMemory → holds self.new ≡ holds self.old }
        ensures tells { is_some (holds self.new) ≡ is_some (holds self.old) }
        ensures piece { piece self.new ≡ piece self.old }
        ensures count { RoseBy 0 (count self.old) (count self.new) }
        ensures cause { IsErrOf result SpanError.Failed → RoseBy 1 (count self.old) (count self.new) };
}

/// Files that can lend one of them in spans, so that several threads write it at once. While its spans are out, the file is
/// not among the files. Its path and the paths under and over it may then not be written. The area shows its path and its
/// cuts, so that no other call ends that lease.
pub trait Wide: Ground {
    /// A range of a file, lent out to be written.
    type Span: Span + Drop;

    /// Lends an empty file in spans: one for each two neighbouring cuts, all of zeros. An error leaves the files as before, but
    /// `Failed` may change this path.
    fn lease_spans(
        &mut self,
        alloc: Global,
        path: &Path,
        cuts: &[u64],
    ) -> Result<Vec<Self::Span>, SpanError>
        requires open { IsTrue (is_open (Self.area self.old) path.now) }
        requires empty { IfSome (Self.tree self.old) (λ files. IsEmptyFile (get files path.now)) }
        requires cuts { IsTrue (are_cuts cuts.now) }
        ensures pieces { IfOk result (λ spans. map Self.Span.piece spans.items ≡ pieces path.now cuts.now) }
        ensures holds { IfOk result (λ spans. map Self.Span.holds spans.items ≡ map (zeros_of (Self.tree self.old)) (pieces path.now cuts.now)) }
        ensures zero { IfOk result (λ spans. All (λ span. Self.Span.count span ≡ 0) spans.items) }
        ensures rest { OnOk result (Self.tree self.new ≡ option_map (kept (path.now ∷ [])) (Self.tree self.old)) }
        ensures area { OnOk result (Self.area self.new ≡ area_cut path.now cuts.now (Self.area self.old)) }
        ensures failed { IsErrOf result SpanError.Failed → IfSome (Self.tree self.old) (λ before. IfSome (Self.tree self.new) (SameBut path.now before)) }
        ensures memory { IsErrOf result SpanError.OutOfMemory → Self.tree self.new ≡ Self.tree self.old }
        ensures tells { is_some (Self.tree self.new) ≡ is_some (Self.tree self.old) }
        ensures refused { OnErr result (Self.area self.new ≡ Self.area self.old) }
        ensures count { RoseBy 0 (Self.count self.old) (Self.count self.new) }
        ensures cause { IsErrOf result SpanError.Failed → RoseBy 1 (Self.count self.old) (Self.count self.new) };

    /// Takes all the spans of a file back, in their order, and adds their counts. It takes no memory.
    fn give_back_spans(&mut self, path: &Path, spans: Vec<Self::Span>)
        requires pieces { option_map (pieces path.now) (cuts_in path.now (Self.area self.old)) ≡ Some (map Self.Span.piece spans.items) }
        requires tells { All (λ span. is_some (Self.Span.holds span) ≡ is_some (Self.tree self.old)) spans.items }
        ensures tree { IfSome (Self.tree self.old) (λ rest. IfSome (Self.tree self.new) (IsRejoined path.now (joined_bytes (map Self.Span.holds spans.items)) rest)) }
        ensures tells { is_some (Self.tree self.new) ≡ is_some (Self.tree self.old) }
        ensures area { Self.area self.new ≡ area_whole path.now (Self.area self.old) }
        ensures count { Self.count self.new ≡ capped (Self.count self.old) (sum_by Self.Span.count spans.items) }
        ensures rises { Self.count self.old ≤ Self.count self.new };
}
