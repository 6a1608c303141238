//! Text, and the calls that add to it.
ghost use Rattle.std.specs.Prelude.{◌≡◌, ◌<◌, ◌^◌, ◌++◌, ◌∷◌, [], OnOk, OnErr, IfOk, IfSome, Some};
ghost use Rattle.std.specs.List.{sum_by};
ghost use Rattle.std.specs.Option.{is_some};
ghost use Rattle.outside.specs.Count.{RoseBy};
ghost use Rattle.outside.specs.Sinks.{GrewByPrefix};
ghost use Rattle.path_text.specs.Escape.{escape};
ghost use Rattle.tool_text.specs.Groups.{file_count, groups_text};
ghost use Rattle.tool_text.specs.Lines.{lines_of, summary_line};
ghost use Rattle.tool_text.specs.Notes.{note_lines};
ghost use Rattle.tool_text.specs.Rows.{rows_text};
ghost use Rattle.tool_text.specs.Runs.{trace_lines, share_lines, progress_lines};
ghost use Rattle.tool_text.specs.Synced.{synced_line};
ghost use Rattle.tool_text.specs.PrivateDrafts.{Adds};

use crate::comparing::add_rows;
use crate::drafts::Draft;
use crate::grouping::add_groups;
use crate::halving::list_by;
use crate::listing::{add_list, add_summary};
use crate::noting::{Note, add_notes};
use crate::running::{add_progress, add_shares, add_trace};
use crate::syncing::{SyncCounts, add_synced};
use circle_run::Share;
use flat_list::{FlatList, Summary};
use outside::{Failed, Sink};
use path_text::{OutOfMemory, Path};
use ring_core::Event;
use std::alloc::Global;
use std::marker::Model;
use std::thread::Threads;
use tree_cmp::Compared;
use tree_dup::Groups;

/// Text to be printed, seen as its bytes.
#[derive(Debug, Drop)]
pub struct Text {
    draft: Draft,
}

impl Model for Text {
    ghost use Rattle.std.specs.Prelude.{◌≡◌, List, ℕ, []};

    ghost Value = { List ℕ };

    ghost view = { λ t. t.draft.0 };

    ghost invariant = { λ t. t.draft.1 ≡ [] };
}

impl Text {
    /// An empty text. It takes no memory.
    pub fn make(alloc: Global) -> Text
        ensures { result ≡ [] }
    {
        Text {
            draft: Draft::make(alloc),
        }
    }

    /// Puts all its bytes, as [`put_all`](outside::put_all) does.
    pub fn put<S: Sink>(&self, sink: &mut S) -> Result<(), Failed>
        ensures all { OnOk result (IfSome (S.text sink.old) (λ old. S.text sink.new ≡ Some (old ++ self.now))) }
        ensures part { OnErr result (IfSome (S.text sink.old) (λ old. IfSome (S.text sink.new) (GrewByPrefix self.now old))) }
        ensures tells { is_some (S.text sink.new) ≡ is_some (S.text sink.old) }
        ensures ok { OnOk result (RoseBy 0 (S.count sink.old) (S.count sink.new)) }
        ensures cause { OnErr result (RoseBy 1 (S.count sink.old) (S.count sink.new)) }
    {
        self.draft.put(sink)
    }
}

/// Appends a line for each entry that has a stat. Memory is taken once, unless links have texts, a path needs escapes, or a size
/// has more than 12 digits. An error leaves the text as it was.
pub fn put_list(text: &mut Text, list: &FlatList) -> Result<(), OutOfMemory>
    ensures ok { OnOk result (text.new ≡ text.old ++ lines_of list.now) }
    ensures err { OnErr result (text.new ≡ text.old) }
{
    let put = add_list(&mut text.draft, list);
    text.draft.end(put)
}

/// The text of a list, by up to `hosts` threads: a line for each entry that has a stat. The lines of each thread are a piece of the text, and
/// no line is copied.
pub fn list_text<R: Threads + Sync>(
    rt: &R,
    alloc: Global,
    list: &FlatList,
    hosts: u32,
) -> Result<Text, OutOfMemory>
    ensures { IfOk result (λ text. text ≡ lines_of list.now) }
{
    Ok(Text {
        draft: list_by(rt, alloc, list, hosts)?,
    })
}

/// Appends the line of a summary. An error leaves the text as it was.
pub fn put_summary(text: &mut Text, sum: &Summary) -> Result<(), OutOfMemory>
    ensures ok { OnOk result (text.new ≡ text.old ++ summary_line sum.now) }
    ensures err { OnErr result (text.new ≡ text.old) }
{
    let put = add_summary(&mut text.draft, sum);
    text.draft.end(put)
}

/// Appends a line for each row of a comparison, and a line with their counts and the number of failure notes. An error
/// leaves the text as it was.
pub fn put_rows(text: &mut Text, rows: &Compared, failed: u64) -> Result<(), OutOfMemory>
    ensures ok { OnOk result (text.new ≡ text.old ++ rows_text rows.now.rows failed) }
    ensures err { OnErr result (text.new ≡ text.old) }
{
    let put = add_rows(&mut text.draft, rows, failed);
    text.draft.end(put)
}

/// Appends a line for each group of files with equal contents and each of its paths, and a line with their counts and the number of
/// failure notes. An error leaves the text as it was.
pub fn put_groups(text: &mut Text, groups: &Groups, failed: u64) -> Result<(), OutOfMemory>
    requires few { sum_by file_count groups.now.groups < 2 ^ 64 }
    ensures ok { OnOk result (text.new ≡ text.old ++ groups_text groups.now.groups failed) }
    ensures err { OnErr result (text.new ≡ text.old) }
{
    let put = add_groups(&mut text.draft, groups, failed);
    text.draft.end(put)
}

/// Appends the line of dsync. An error leaves the text as it was.
pub fn put_synced(text: &mut Text, counts: &SyncCounts) -> Result<(), OutOfMemory>
    ensures ok { OnOk result (text.new ≡ text.old ++ synced_line counts.now) }
    ensures err { OnErr result (text.new ≡ text.old) }
{
    let put = add_synced(&mut text.draft, counts);
    text.draft.end(put)
}

/// Appends a line for each note. An error leaves the text as it was.
pub fn put_notes(text: &mut Text, notes: &[Note]) -> Result<(), OutOfMemory>
    ensures ok { OnOk result (text.new ≡ text.old ++ note_lines notes.now) }
    ensures err { OnErr result (text.new ≡ text.old) }
{
    let put = add_notes(&mut text.draft, notes);
    text.draft.end(put)
}

/// Appends a line for each event of a run. An error leaves the text as it was.
pub fn put_trace(text: &mut Text, events: &[Event]) -> Result<(), OutOfMemory>
    ensures ok { OnOk result (text.new ≡ text.old ++ trace_lines events.now) }
    ensures err { OnErr result (text.new ≡ text.old) }
{
    let put = add_trace(&mut text.draft, events);
    text.draft.end(put)
}

/// Appends a line for the work of each rank. An error leaves the text as it was.
pub fn put_shares(text: &mut Text, shares: &[Share]) -> Result<(), OutOfMemory>
    ensures ok { OnOk result (text.new ≡ text.old ++ share_lines shares.now) }
    ensures err { OnErr result (text.new ≡ text.old) }
{
    let put = add_shares(&mut text.draft, shares);
    text.draft.end(put)
}

/// Appends a line for each count of a run as it rose. An error leaves the text as it was.
pub fn put_progress(text: &mut Text, sums: &[u64]) -> Result<(), OutOfMemory>
    ensures ok { OnOk result (text.new ≡ text.old ++ progress_lines sums.now) }
    ensures err { OnErr result (text.new ≡ text.old) }
{
    let put = add_progress(&mut text.draft, sums);
    text.draft.end(put)
}

/// Appends a line and its line feed. An error leaves the text as it was.
pub fn put_line(text: &mut Text, line: &str) -> Result<(), OutOfMemory>
    ensures ok { OnOk result (text.new ≡ text.old ++ line.now ++ 10 ∷ []) }
    ensures err { OnErr result (text.new ≡ text.old) }
{
    let put = add_line(&mut text.draft, line);
    text.draft.end(put)
}

/// Appends a line with a path, printed with escapes, and its line feed. An error leaves the text as it was.
pub fn put_path_line(
    text: &mut Text,
    before: &str,
    path: &Path,
    behind: &str,
) -> Result<(), OutOfMemory>
    ensures ok { OnOk result (text.new ≡ text.old ++ before.now ++ escape path.now ++ behind.now ++ 10 ∷ []) }
    ensures err { OnErr result (text.new ≡ text.old) }
{
    let put = add_path_line(&mut text.draft, before, path, behind);
    text.draft.end(put)
}

fn add_path_line(
    draft: &mut Draft,
    before: &str,
    path: &Path,
    behind: &str,
) -> Result<(), OutOfMemory>
    ensures { Adds (before.now ++ escape path.now ++ behind.now ++ 10 ∷ []) draft.old draft.new result }
{
    draft.extend(before.as_bytes())?;
    draft.put_path(path)?;
    add_line(draft, behind)
}

fn add_line(draft: &mut Draft, line: &str) -> Result<(), OutOfMemory>
    ensures { Adds (line.now ++ 10 ∷ []) draft.old draft.new result }
{
    draft.extend(line.as_bytes())?;
    draft.push(b'\n')
}
