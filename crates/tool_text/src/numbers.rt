//! Numbers as decimal text, without memory of their own.
ghost use Rattle.std.specs.Prelude.{};
ghost use Rattle.std.specs.Fmt.{decimal};
ghost use Rattle.tool_text.specs.Lines.{right};
ghost use Rattle.tool_text.specs.PrivateDrafts.{Adds};

use crate::drafts::Draft;
use itoa::Buffer;
use path_text::OutOfMemory;

/// Adds a number, right-aligned in so many columns.
pub(crate) fn put_right(draft: &mut Draft, places: u8, n: u64) -> Result<(), OutOfMemory>
    ensures { Adds (right places n) draft.old draft.new result }
{
    let mut buffer = Buffer::new();
    let digits = buffer.format(n);
    draft.put_spaces(places.saturating_sub(digits.len() as u8))?;
    draft.extend(digits.as_bytes())
}

/// Adds a number.
pub(crate) fn put_decimal(draft: &mut Draft, n: u64) -> Result<(), OutOfMemory>
    ensures { Adds (decimal n) draft.old draft.new result }
{
    draft.extend(Buffer::new().format(n).as_bytes())
}

/// Adds a number of any size.
pub(crate) fn put_wide(draft: &mut Draft, n: u128) -> Result<(), OutOfMemory>
    ensures { Adds (decimal n) draft.old draft.new result }
{
    draft.extend(Buffer::new().format(n).as_bytes())
}
