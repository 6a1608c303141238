//! Writes the file of one rank.
ghost use Rattle.std.specs.Prelude.{◌≡◌, ◌<◌, ◌++◌, ◌∷◌, [], ◌^◌, IfOk, OnOk};
ghost use Rattle.std.specs.Fmt.{decimal};
ghost use Rattle.path_text.specs.Escape.{escape};
ghost use Rattle.whole_lines.specs.Lines.{line, end_text};
ghost use Rattle.circle_lists.specs.Spelling.{IsRank, head_text, IsWritable, Spells};

use itoa::Buffer;
use path_text::{OutOfMemory, Path, put_escaped};
use std::alloc::Global;

/// The bytes of the file of a rank whose list has these paths.
pub(crate) fn encode(
    alloc: Global,
    rank: u64,
    ranks: u64,
    paths: &[Path],
) -> Result<Vec<u8>, OutOfMemory>
    requires { IsRank rank ranks }
    ensures { IfOk result (λ bytes. Spells bytes.items rank ranks paths.now) }
{
    let mut text = Vec::new(alloc);
    put_head(&mut text, rank, ranks)?;
    text.push(b'\n')?;
    for path in paths {
        put_path(&mut text, path)?;
    }
    put_end(&mut text, paths.len())?;
    text.push(b'\n')?;
    Ok(text)
}

/// Appends the text of the first line of a rank's file.
pub(crate) fn put_head(text: &mut Vec<u8>, rank: u64, ranks: u64) -> Result<(), OutOfMemory>
    ensures { OnOk result (text.new.items ≡ text.old.items ++ head_text rank ranks) }
{
    text.extend_from_slice(b"circle 1 ")?;
    put_decimal(text, rank)?;
    text.push(b' ')?;
    put_decimal(text, ranks)
}

/// Appends the text of the last line of a file with this number of paths.
pub(crate) fn put_end(text: &mut Vec<u8>, count: usize) -> Result<(), OutOfMemory>
    ensures text { OnOk result (text.new.items ≡ text.old.items ++ end_text count) }
    ensures small { count < 2 ^ 64 }
{
    text.extend_from_slice(b"end ")?;
    put_decimal(text, count as u64)
}

fn put_path(text: &mut Vec<u8>, path: &Path) -> Result<(), OutOfMemory>
    ensures text { OnOk result (text.new.items ≡ text.old.items ++ line (escape path.now)) }
    ensures path { OnOk result (IsWritable path.now) }
{
    put_escaped(text, path)?;
    text.push(b'\n')?;
    // Only the contract of `text` says that a path is UTF-8.
    let _text = path.text();
    Ok(())
}

fn put_decimal(text: &mut Vec<u8>, n: u64) -> Result<(), OutOfMemory>
    ensures { OnOk result (text.new.items ≡ text.old.items ++ decimal n) }
{
    text.extend_from_slice(Buffer::new().format(n).as_bytes())?;
    Ok(())
}
