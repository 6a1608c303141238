//! The lines of a comparison, and of its counts.
ghost use Rattle.std.specs.Prelude.{◌≡◌, ◌+◌, ◌-◌, ◌^◌, ◌<◌, [], length, slice_index_or, if◌then◌else◌};
ghost use Rattle.tree_cmp.specs.Expressions.{only_src, only_dest, on_both, differs};
ghost use Rattle.tool_text.specs.PrivateDrafts.{Adds};
ghost use Rattle.tool_text.specs.Rows.{exist_sign, two_sign, row_line, row_lines, counts_of, side_counts, field_counts, counts_line, rows_text};

use crate::drafts::Draft;
use crate::listing::put_count;
use path_text::OutOfMemory;
use tree_cmp::{Compared, Exist, Row, Two};

/// The number of rows, by the side of their paths, and by the field in which they differ.
#[derive(Clone, Copy, Debug, Drop, PartialEq, Eq)]
pub(crate) struct RowCounts {
    rows: u64,
    only_src: u64,
    only_dest: u64,
    common: u64,
    kind: u64,
    size: u64,
    content: u64,
}

impl RowCounts {
    fn none() -> RowCounts
        ensures { result ≡ counts_of [] }
    {
        RowCounts {
            rows: 0,
            only_src: 0,
            only_dest: 0,
            common: 0,
            kind: 0,
            size: 0,
            content: 0,
        }
    }

    // Counts one row more.
    fn count(&mut self, row: &Row)
        requires rows { self.old.rows < 2 ^ 64 - 1 }
        requires only_src { self.old.only_src < 2 ^ 64 - 1 }
        requires only_dest { self.old.only_dest < 2 ^ 64 - 1 }
        requires common { self.old.common < 2 ^ 64 - 1 }
        requires kind { self.old.kind < 2 ^ 64 - 1 }
        requires size { self.old.size < 2 ^ 64 - 1 }
        requires content { self.old.content < 2 ^ 64 - 1 }
        ensures rows { self.new.rows ≡ self.old.rows + 1 }
        ensures only_src { self.new.only_src ≡ self.old.only_src + (if only_src row.now.exist then 1 else 0) }
        ensures only_dest { self.new.only_dest ≡ self.old.only_dest + (if only_dest row.now.exist then 1 else 0) }
        ensures common { self.new.common ≡ self.old.common + (if on_both row.now.exist then 1 else 0) }
        ensures kind { self.new.kind ≡ self.old.kind + (if differs row.now.kind then 1 else 0) }
        ensures size { self.new.size ≡ self.old.size + (if differs row.now.size then 1 else 0) }
        ensures content { self.new.content ≡ self.old.content + (if differs row.now.content then 1 else 0) }
    {
        self.rows += 1;
        match row.exist {
            Exist::OnlySrc => self.only_src += 1,
            Exist::OnlyDest => self.only_dest += 1,
            Exist::Common => self.common += 1,
        }
        self.kind += u64::from(differs(row.kind));
        self.size += u64::from(differs(row.size));
        self.content += u64::from(differs(row.content));
    }
}

fn differs(two: Two) -> bool
    ensures { result ≡ differs two }
{
    matches!(two, Two::Differ)
}

// The counts of the rows.
fn counts_of(rows: &Compared) -> RowCounts
    ensures { result ≡ counts_of rows.now.rows }
{
    let mut counts = RowCounts::none();
    for k in 0..rows.len() {
        counts.count(row_at(rows, k));
    }
    counts
}

fn row_at(rows: &Compared, k: usize) -> &Row
    requires { k < length rows.now.rows }
    ensures { result.now ≡ slice_index_or rows.now.rows k result.now }
{
    rows.row(k)
}

/// Adds a line for each row, and a line with their counts and the number of failure notes.
pub(crate) fn add_rows(draft: &mut Draft, rows: &Compared, failed: u64) -> Result<(), OutOfMemory>
    ensures { Adds (rows_text rows.now.rows failed) draft.old draft.new result }
{
    add_row_lines(draft, rows)?;
    add_counts(draft, counts_of(rows), failed)
}

fn add_row_lines(draft: &mut Draft, rows: &Compared) -> Result<(), OutOfMemory>
    ensures { Adds (row_lines rows.now.rows) draft.old draft.new result }
{
    for k in 0..rows.len() {
        add_row(draft, row_at(rows, k))?;
    }
    Ok(())
}

fn exist_sign(exist: Exist) -> u8
    ensures { result ≡ exist_sign exist }
{
    match exist {
        Exist::OnlySrc => b'S',
        Exist::OnlyDest => b'D',
        Exist::Common => b'C',
    }
}

fn two_sign(two: Two) -> u8
    ensures { result ≡ two_sign two }
{
    match two {
        Two::Common => b'=',
        Two::Differ => b'!',
        Two::NoValue => b'-',
    }
}

fn add_row(draft: &mut Draft, row: &Row) -> Result<(), OutOfMemory>
    ensures { Adds (row_line row.now) draft.old draft.new result }
{
    let exist = exist_sign(row.exist);
    let kind = two_sign(row.kind);
    let size = two_sign(row.size);
    let content = two_sign(row.content);
    draft.extend(&[exist, b' ', kind, b' ', size, b' ', content, b' '])?;
    draft.put_path(&row.path)?;
    draft.push(b'\n')
}

fn add_counts(draft: &mut Draft, counts: RowCounts, failed: u64) -> Result<(), OutOfMemory>
    ensures { Adds (counts_line counts failed) draft.old draft.new result }
{
    add_side_counts(draft, counts)?;
    add_field_counts(draft, counts)?;
    put_count(draft, " failed ", failed)?;
    draft.push(b'\n')
}

fn add_side_counts(draft: &mut Draft, counts: RowCounts) -> Result<(), OutOfMemory>
    ensures { Adds (side_counts counts) draft.old draft.new result }
{
    put_count(draft, "rows ", counts.rows)?;
    put_count(draft, " only_src ", counts.only_src)?;
    put_count(draft, " only_dest ", counts.only_dest)?;
    put_count(draft, " common ", counts.common)
}

fn add_field_counts(draft: &mut Draft, counts: RowCounts) -> Result<(), OutOfMemory>
    ensures { Adds (field_counts counts) draft.old draft.new result }
{
    put_count(draft, " differ_type ", counts.kind)?;
    put_count(draft, " differ_size ", counts.size)?;
    put_count(draft, " differ_content ", counts.content)?;
    Ok(())
}
