//! The lines of a list, and of its summary.
ghost use Rattle.std.specs.Prelude.{◌≡◌, ◌+◌, ◌≤◌, ◌++◌, length};
ghost use Rattle.std.specs.Fmt.{decimal};
ghost use Rattle.tool_text.specs.Lines.{letter, target_part, stat_line, line_of, lines_of, lines_between, summary_line};
ghost use Rattle.tool_text.specs.PrivateDrafts.{Adds};

use crate::drafts::Draft;
use crate::numbers::{put_decimal, put_right, put_wide};
use flat_list::{Entry, FlatList, Summary};
use outside::{Kind, LinkText, Stat};
use path_text::{OutOfMemory, Path};

// What a line has beside its path and the text of a link, with up to 12 digits.
const LINE_LEN: usize = 16;

// More than a summary has, which comes behind the lines.
const SUMMARY_LEN: usize = 256;

/// Adds a line for each entry that has a stat. Memory is taken once, unless links have texts, a path needs escapes, or
/// a size has more than 12 digits.
pub(crate) fn add_list(draft: &mut Draft, list: &FlatList) -> Result<(), OutOfMemory>
    ensures { Adds (lines_of list.now) draft.old draft.new result }
{
    draft.reserve(expected_len(list))?;
    add_between(draft, list, 0, list.len())
}

/// Adds a line for each entry from one place to another that has a stat.
pub(crate) fn add_between(
    draft: &mut Draft,
    list: &FlatList,
    from: usize,
    to: usize,
) -> Result<(), OutOfMemory>
    requires order { from ≤ to }
    requires inside { to ≤ length list.now }
    ensures { Adds (lines_between from to list.now) draft.old draft.new result }
{
    let mut cursor = list.cursor_at(from)?;
    for _ in from..to {
        cursor.advance()?;
        add_entry(draft, cursor.entry())?;
    }
    Ok(())
}

/// The room that the lines and a summary take at first. An eighth more than the paths and the numbers is for the texts of links and for
/// escapes: room that is not used costs no memory.
pub(crate) fn expected_len(list: &FlatList) -> usize {
    let paths = usize::try_from(list.path_bytes()).unwrap_or(usize::MAX);
    let lines = paths.saturating_add(list.len().saturating_mul(LINE_LEN));
    lines.saturating_add(lines / 8).saturating_add(SUMMARY_LEN)
}

fn add_entry(draft: &mut Draft, entry: &Entry) -> Result<(), OutOfMemory>
    ensures { Adds (line_of entry.now) draft.old draft.new result }
{
    match entry.stat {
        Some(stat) => add_line(draft, stat, &entry.path, &entry.target),
        None => Ok(()),
    }
}

fn add_line(
    draft: &mut Draft,
    stat: Stat,
    path: &Path,
    target: &Option<LinkText>,
) -> Result<(), OutOfMemory>
    ensures { Adds (stat_line stat path.now target.now) draft.old draft.new result }
{
    draft.extend(&[letter(stat.kind), b' '])?;
    put_right(draft, 12, stat.size)?;
    draft.push(b' ')?;
    draft.put_path(path)?;
    add_target(draft, target)?;
    draft.push(b'\n')
}

// Adds what stands behind a path: nothing, or an arrow and the text of a link.
fn add_target(draft: &mut Draft, target: &Option<LinkText>) -> Result<(), OutOfMemory>
    ensures { Adds (target_part target.now) draft.old draft.new result }
{
    match target {
        None => Ok(()),
        Some(text) => {
            draft.extend(b" -> ")?;
            draft.put_text(text.text())
        }
    }
}

fn letter(kind: Kind) -> u8
    ensures { result ≡ letter kind }
{
    match kind {
        Kind::File => b'f',
        Kind::Dir => b'd',
        Kind::Link => b'l',
        Kind::Other => b'o',
    }
}

/// Adds the line of a summary.
pub(crate) fn add_summary(draft: &mut Draft, sum: &Summary) -> Result<(), OutOfMemory>
    ensures { Adds (summary_line sum.now) draft.old draft.new result }
{
    put_count(draft, "items ", sum.items)?;
    put_count(draft, " dirs ", sum.dirs)?;
    put_count(draft, " files ", sum.files)?;
    put_count(draft, " links ", sum.links)?;
    put_count(draft, " others ", sum.others)?;
    draft.extend(b" bytes ")?;
    put_wide(draft, sum.bytes)?;
    put_count(draft, " failed ", sum.failed)?;
    draft.push(b'\n')
}

/// Adds a number after its label.
pub(crate) fn put_count(draft: &mut Draft, label: &str, n: u64) -> Result<(), OutOfMemory>
    ensures { Adds (label.now ++ decimal n) draft.old draft.new result }
{
    draft.extend(label.as_bytes())?;
    put_decimal(draft, n)
}
