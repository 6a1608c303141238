//! The lines of files with equal contents, and of their counts.
ghost use Rattle.std.specs.Prelude.{◌≡◌, ◌+◌, ◌≤◌, ◌<◌, ◌*◌, ◌^◌, ◌++◌, length, slice_index_or};
ghost use Rattle.std.specs.List.{sum_by};
ghost use Rattle.hex.specs.Hex.{encode_lower};
ghost use Rattle.tree_dup.specs.Shown.{told_of};
ghost use Rattle.tool_text.specs.Groups.{path_line, path_lines, group_line, group_lines, file_count, extra_of, counts_of, counts_line, groups_text};
ghost use Rattle.tool_text.specs.PrivateDrafts.{Adds};

use crate::drafts::Draft;
use crate::listing::put_count;
use crate::numbers::put_wide;
use hex::encode_to_slice;
use path_text::{OutOfMemory, Path};
use tree_dup::{Group, Groups};

/// The number of groups, of their files, and of the bytes of all but one file of each.
#[derive(Clone, Copy, Debug, Drop, PartialEq, Eq)]
pub(crate) struct GroupCounts {
    groups: u64,
    files: u64,
    extra_bytes: u128,
}

impl GroupCounts {
    // Counts one group more.
    fn count(&mut self, group: &Group)
        requires groups { self.old.groups + 1 < 2 ^ 64 }
        requires files { self.old.files + file_count (told_of group.now) < 2 ^ 64 }
        requires extra { self.old.extra_bytes ≤ self.old.files * 2 ^ 64 }
        ensures groups { self.new.groups ≡ self.old.groups + 1 }
        ensures files { self.new.files ≡ self.old.files + file_count (told_of group.now) }
        ensures extra { self.new.extra_bytes ≡ self.old.extra_bytes + extra_of (told_of group.now) }
        ensures below { self.new.extra_bytes ≤ self.new.files * 2 ^ 64 }
    {
        let files = group.paths.len() as u64;
        self.groups += 1;
        self.files += files;
        self.extra_bytes += u128::from(group.size) * u128::from(files.saturating_sub(1));
    }
}

/// Adds a line for each group and each of its paths, and a line with their counts and the number of failure notes.
pub(crate) fn add_groups(draft: &mut Draft, groups: &Groups, failed: u64) -> Result<(), OutOfMemory>
    requires few { sum_by file_count groups.now.groups < 2 ^ 64 }
    ensures { Adds (groups_text groups.now.groups failed) draft.old draft.new result }
{
    add_group_lines(draft, groups)?;
    add_counts(draft, counts_of(groups), failed)
}

// The group at a place, of which the clause says which it is in the words of `take`.
fn group_at(groups: &Groups, k: usize) -> &Group
    requires { k < length groups.now.groups }
    ensures { told_of result.now ≡ slice_index_or groups.now.groups k (told_of result.now) }
{
    groups.group(k)
}

fn add_group_lines(draft: &mut Draft, groups: &Groups) -> Result<(), OutOfMemory>
    ensures { Adds (group_lines groups.now.groups) draft.old draft.new result }
{
    for k in 0..groups.len() {
        add_group(draft, group_at(groups, k))?;
    }
    Ok(())
}

fn add_group(draft: &mut Draft, group: &Group) -> Result<(), OutOfMemory>
    ensures { Adds (group_line (told_of group.now) ++ path_lines (told_of group.now).paths) draft.old draft.new result }
{
    add_group_line(draft, group)?;
    add_paths(draft, &group.paths)
}

fn add_group_line(draft: &mut Draft, group: &Group) -> Result<(), OutOfMemory>
    ensures { Adds (group_line (told_of group.now)) draft.old draft.new result }
{
    put_count(draft, "group ", group.size)?;
    put_count(draft, " ", group.paths.len() as u64)?;
    draft.push(b' ')?;
    draft.extend(&digits_of(&group.digest))?;
    draft.push(b'\n')
}

// Each byte of a digest in two digits.
fn digits_of(digest: &[u8; 32]) -> [u8; 64]
    ensures { result ≡ encode_lower digest.now }
{
    let mut digits = [0; 64];
    let encoded = encode_to_slice(digest.as_slice(), &mut digits);
    prove!(encoded.is_ok());
    digits
}

fn add_path(draft: &mut Draft, path: &Path) -> Result<(), OutOfMemory>
    ensures { Adds (path_line path.now) draft.old draft.new result }
{
    draft.put_path(path)?;
    draft.push(b'\n')
}

fn add_paths(draft: &mut Draft, paths: &[Path]) -> Result<(), OutOfMemory>
    ensures { Adds (path_lines paths.now) draft.old draft.new result }
{
    for path in paths {
        add_path(draft, path)?;
    }
    Ok(())
}

// The counts of the groups.
fn counts_of(groups: &Groups) -> GroupCounts
    requires few { sum_by file_count groups.now.groups < 2 ^ 64 }
    ensures { result ≡ counts_of groups.now.groups }
{
    let mut counts = GroupCounts {
        groups: 0,
        files: 0,
        extra_bytes: 0,
    };
    for k in 0..groups.len() {
        counts.count(group_at(groups, k));
    }
    counts
}

fn add_counts(draft: &mut Draft, counts: GroupCounts, failed: u64) -> Result<(), OutOfMemory>
    ensures { Adds (counts_line counts failed) draft.old draft.new result }
{
    put_count(draft, "groups ", counts.groups)?;
    put_count(draft, " files ", counts.files)?;
    draft.extend(b" extra_bytes ")?;
    put_wide(draft, counts.extra_bytes)?;
    put_count(draft, " failed ", failed)?;
    draft.push(b'\n')
}
