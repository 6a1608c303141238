//! Fills a span with the bytes of its range.
ghost use Rattle.std.specs.Prelude.{◌≡◌, ◌⊎◌, ◌+◌, ◌^◌, ◌≤◌, ◌<◌, length, IfSome, is_some};
ghost use Rattle.std.specs.FinMap.{get};
ghost use Rattle.flat_list.specs.Prelude.{RoseBy, content};
ghost use Rattle.tree_copy.specs.Causes.{IsReadTo};
ghost use Rattle.range_copy.specs.PrivateFilling.{HasCounted, HasWorked, IsRange, IsReady, IsShort};
ghost use Rattle.range_copy.specs.PrivateReading.{FilledBy};
ghost use Rattle.range_copy.specs.PrivateShowing.{HasShown};

use crate::filled::Filled;
use crate::fillers::Filler;
use outside::{ReadError, Span, SpanError, Tree};
use path_text::Path;
use tree_copy::piece;

impl<T: Tree, S: Span> Filler<T, S> {
    // Fills its span, if it has one, with the bytes of a file of so many bytes. It does nothing once its work has not come to `Done`.
    pub(crate) fn work(&mut self, source: &Path, total: u64)
        requires { IsReady S.piece total self.old }
        ensures worked { HasWorked T.tree S.piece S.holds source.now total self.old self.new }
        ensures counted { HasCounted T.count S.count self.old self.new }
        ensures shown { HasShown T.gives S.piece S.count source.now self.old self.new }
    {
        if self.filled != Filled::Done {
            return;
        }
        let Some(load) = &mut self.load else {
            return;
        };
        self.filled = fill_span(
            &mut self.reader,
            &mut self.buffer,
            &mut load.span,
            source,
            load.start,
            load.size,
        );
    }
}

// Copies the bytes of a file from the start of the span, as many as the span has, in pieces that the buffer holds.
fn fill_span<T: Tree, S: Span>(
    reader: &mut T,
    buffer: &mut [u8],
    span: &mut S,
    source: &Path,
    start: u64,
    size: u64,
) -> Filled
    requires buffer { 0 < length buffer.old }
    requires start { (S.piece span.old).start ≡ start }
    requires size { (S.piece span.old).size ≡ size }
    requires end { start + size < 2 ^ 64 }
    ensures told { result ≡ Filled.Done → IfSome (T.tree reader.old) (λ seen. IfSome (S.holds span.new) (IsRange start size (content (get seen source.now)))) }
    ensures changed { result ≡ Filled.Changed → IfSome (T.tree reader.old) (IsShort source.now (start + size)) }
    ensures same { T.tree reader.new ≡ T.tree reader.old }
    ensures piece { S.piece span.new ≡ S.piece span.old }
    ensures tells { is_some (S.holds span.new) ≡ is_some (S.holds span.old) }
    ensures len { length buffer.new ≡ length buffer.old }
    ensures count { T.count reader.old ≤ T.count reader.new }
    ensures cause { result ≡ Filled.Failed → (RoseBy 1 (T.count reader.old) (T.count reader.new)) ⊎ (RoseBy 1 (S.count span.old) (S.count span.new)) }
    ensures read { result ≡ Filled.Done → (size ≡ 0) ⊎ IsReadTo T.gives source.now (start + size) }
    ensures shown { FilledBy T.gives source.now (S.count span.new) result }
{
    // The call shows that the span has as many bytes as its size.
    let _faults = span.faults();
    let mut at = 0u64;
    while at < size {
        let most = piece(size - at, buffer.len());
        let count = match reader.read(source, start + at, &mut buffer[..most]) {
            Ok(count) => count,
            Err(ReadError::Failed) => return Filled::Failed,
            Err(ReadError::NotFile) => return Filled::Changed,
        };
        if count == 0 {
            return Filled::Changed;
        }
        match span.write(at, &buffer[..count]) {
            Ok(()) => {}
            Err(SpanError::Failed) => return Filled::Failed,
            Err(SpanError::OutOfMemory) => return Filled::Lost,
        }
        at += count as u64;
    }
    Filled::Done
}
