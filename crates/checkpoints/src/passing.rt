//! The done entries, gone over beside left strings in path order.
ghost use Rattle.std.specs.Prelude.{◌≡◌, ◌++◌, ◌+◌, ◌<◌};
ghost use Rattle.checkpoints.specs.Prelude.{[], length, OnOk, IfOk, Some, None, list_any, IsStrictlySortedBy, option_copied, is_lt, path_cmp, is_of, paths};
ghost use Rattle.outside.specs.declared.trees.Kind.TheVariants as kind;
ghost use Rattle.checkpoints.specs.Placing.{is_open, clashes};
ghost use Rattle.checkpoints.specs.Passing.{covered, closed_with, first_of, moved, ArePassed, StartsBehind, starts_in};

use flat_list::{Cursor, Entry, FlatList, Mark};
use outside::{Kind, Stat};
use path_text::{OutOfMemory, Path};
use std::cmp::Ordering;
use std::marker::Model;
use tree_walk::is_in;

/// The entries of a list, of which the next is at hand: seen as (those that were passed, those that are ahead).
#[derive(Debug, Drop)]
pub(crate) struct Ahead<'a> {
    cursor: Cursor<'a>,
    over: bool,
}

impl<'a> Model for Ahead<'a> {
    ghost use Rattle.std.specs.Prelude.{◌≡◌, ◌<◌, ◌≤◌, false, List, length};
    ghost use Rattle.entry_pages.specs.declared.entries.Entry.{Entry};
    ghost use Rattle.checkpoints.specs.Passing.{passed_of, ahead_of};

    ghost Value = { List Entry × List Entry };

    ghost view = { λ a. (passed_of a.over a.cursor, ahead_of a.over a.cursor) };

    ghost invariant = { λ a. a.over ≡ false → (0 < a.cursor.1) × (a.cursor.1 ≤ length a.cursor.0) };
}

impl<'a> Ahead<'a> {
    /// All of a list is ahead.
    pub fn make(list: &'a FlatList) -> Result<Ahead<'a>, OutOfMemory>
        ensures { IfOk result (λ ahead. ahead ≡ ([], list.now)) }
    {
        let mut cursor = list.cursor()?;
        let more = cursor.advance()?;
        Ok(Ahead {
            cursor,
            over: !more,
        })
    }

    /// The next entry.
    pub fn next(&self) -> Option<&Entry>
        ensures { option_copied result ≡ first_of self.now.1 }
    {
        if self.over {
            return None;
        }
        Some(self.cursor.entry())
    }

    /// Passes the next entry, if one is ahead.
    pub fn pass(&mut self) -> Result<(), OutOfMemory>
        ensures { OnOk result (self.new ≡ moved self.old.0 self.old.1) }
    {
        if self.over {
            return Ok(());
        }
        let more = self.cursor.advance()?;
        self.over = !more;
        Ok(())
    }
}

/// Passes the entries whose paths come before a path, and keeps the top of those that are closed.
pub(crate) fn pass_before(
    ahead: &mut Ahead<'_>,
    closed: &mut Option<Path>,
    path: &Path,
) -> Result<(), OutOfMemory>
    requires ascend { IsStrictlySortedBy path_cmp (paths (ahead.old.0 ++ ahead.old.1)) }
    requires passed { ArePassed ahead.old.0 closed.old path.now }
    ensures all { OnOk result (ahead.new.0 ++ ahead.new.1 ≡ ahead.old.0 ++ ahead.old.1) }
    ensures passed { OnOk result (ArePassed ahead.new.0 closed.new path.now) }
    ensures next { OnOk result (StartsBehind path.now ahead.new.1) }
{
    while let Some(entry) = ahead.next() {
        if !is_before(&entry.path, path) {
            return Ok(());
        }
        close(closed, entry)?;
        ahead.pass()?;
    }
    Ok(())
}

// Whether a path comes before another. That it is not empty is known once its text is read.
fn is_before(a: &Path, b: &Path) -> bool
    ensures before { result ≡ is_lt (path_cmp a.now b.now) }
    ensures some { 0 < length a.now }
{
    let _text = a.text();
    a.cmp(b) == Ordering::Less
}

// Keeps the path of an entry that is closed, unless the one that is kept is above it.
fn close(closed: &mut Option<Path>, entry: &Entry) -> Result<(), OutOfMemory>
    ensures { OnOk result (closed.new ≡ closed_with closed.old entry.now) }
{
    if is_open(entry) || covers(closed.as_ref(), &entry.path) {
        return Ok(());
    }
    *closed = Some(entry.path.copy()?);
    Ok(())
}

/// Whether a path, before which all entries were passed, clashes with a done one.
pub(crate) fn is_clash(ahead: &Ahead<'_>, closed: &Option<Path>, path: &Path) -> bool
    requires ascend { IsStrictlySortedBy path_cmp (paths (ahead.now.0 ++ ahead.now.1)) }
    requires passed { ArePassed ahead.now.0 closed.now path.now }
    requires next { StartsBehind path.now ahead.now.1 }
    ensures clash { result ≡ list_any (clashes path.now) (ahead.now.0 ++ ahead.now.1) }
    ensures some { 0 < length path.now }
{
    let _text = path.text();
    covers(closed.as_ref(), path) || starts_in(ahead, path)
}

// Whether the next entry is at a path or under it.
fn starts_in(ahead: &Ahead<'_>, path: &Path) -> bool
    ensures { result ≡ starts_in path.now ahead.now.1 }
{
    match ahead.next() {
        None => false,
        Some(entry) => is_in(&entry.path, path),
    }
}

/// Whether the top, if there is one, is the path or is above it.
pub(crate) fn covers(top: Option<&Path>, path: &Path) -> bool
    ensures { result ≡ covered (option_copied top.entry) path.now }
{
    match top {
        None => false,
        Some(top) => is_in(path, top),
    }
}

// Whether the paths under an entry may still be left.
fn is_open(entry: &Entry) -> bool
    ensures { result ≡ is_open entry.now }
{
    match entry.mark {
        Mark::Fine => is_dir(entry.stat),
        _ => false,
    }
}

fn is_dir(stat: Option<Stat>) -> bool
    ensures { result ≡ is_of kind.Dir stat }
{
    let Some(stat) = stat else {
        return false;
    };
    match stat.kind {
        Kind::Dir => true,
        _ => false,
    }
}
