//! The texts that are printed when all work is done.
ghost use Rattle.std.specs.Prelude.{◌≡◌, ◌⊎◌, ◌<◌};
ghost use Rattle.outside.specs.Count.{RoseBy, StoodStill};
ghost use Rattle.run_report.specs.Ends.{Grew, GrewBySome, Printed};
ghost use Rattle.run_report.specs.Sides.{stream_of};

use crate::statuses::Status;
use outside::Sink;
use tool_text::Text;

/// Both texts of a run that did all its work.
#[derive(Drop)]
pub struct Report {
    /// The number of failures in the notes.
    pub failed: u64,
    /// The text for standard output.
    pub out: Text,
    /// The text for standard error: the reports on the walk, and the failures.
    pub notes: Text,
}

impl Report {
    /// Writes both texts. Nothing goes to `notes` after a fault of `out`.
    pub fn put<O: Sink, E: Sink>(&self, out: &mut O, notes: &mut E) -> Status
        ensures done { result ≡ Status.Done → (self.now.failed ≡ 0)
            × Printed self.now (stream_of O.Sink out.old) (stream_of O.Sink out.new)
            (stream_of E.Sink notes.old) (stream_of E.Sink notes.new) }
        ensures named { result ≡ Status.Named → (0 < self.now.failed)
            × Printed self.now (stream_of O.Sink out.old) (stream_of O.Sink out.new)
            (stream_of E.Sink notes.old) (stream_of E.Sink notes.new) }
        ensures sink { result ≡ Status.Sink → (RoseBy 1 (O.count out.old) (O.count out.new)
            × GrewBySome self.now.out (stream_of O.Sink out.old) (stream_of O.Sink out.new) × (notes.new ≡ notes.old))
            ⊎ (RoseBy 1 (E.count notes.old) (E.count notes.new)
            × Grew self.now.out (stream_of O.Sink out.old) (stream_of O.Sink out.new)
            × GrewBySome self.now.notes (stream_of E.Sink notes.old) (stream_of E.Sink notes.new)) }
        ensures which { (result ≡ Status.Done) ⊎ ((result ≡ Status.Named) ⊎ (result ≡ Status.Sink)) }

        // If no sink fails, a report without failures ends well.
        ensures fine { self.now.failed ≡ 0 → StoodStill (O.count out.old) (O.count out.new) → StoodStill (E.count notes.old) (E.count notes.new)
            → result ≡ Status.Done }
        ensures counts { RoseBy 0 (O.count out.old) (O.count out.new) × RoseBy 0 (E.count notes.old) (E.count notes.new) }
    {
        if self.out.put(out).is_err() {
            return Status::Sink;
        }
        if self.notes.put(notes).is_err() {
            return Status::Sink;
        }
        if self.failed == 0 {
            Status::Done
        } else {
            Status::Named
        }
    }
}
