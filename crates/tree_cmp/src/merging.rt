//! The merge of the two sides.
ghost use Rattle.std.specs.Prelude.{◌≡◌, ◌++◌, ◌||◌, true, OnOk, IfOk, IfSome, is_some, if◌then◌else◌, None, Some};
ghost use Rattle.path_text.specs.Path.{refusal};
ghost use Rattle.tree_cmp.specs.Sides.{side, IsSide};
ghost use Rattle.tree_cmp.specs.Rows.{target_at, texts};
ghost use Rattle.tree_cmp.specs.Private.Items.{items_of, links_at, AreDrafts};
ghost use Rattle.tree_cmp.specs.Private.Steps.{ahead, current, side_of, IsSound, HasSoundEnds, left_of, order_by, path_of, is_partial_item};
ghost use Rattle.tree_cmp.specs.Private.Steps.{under_some, hidden_after, row_after, Ascend};

use crate::drafts::{Draft, texts};
use crate::items::{Feed, Item};
use crate::rows::Two;
use flat_list::{Entry, FlatList};
use path_text::{
    OutOfMemory, Path, below_keeps_order, path_order_is_preorder, under_is_contiguous,
};
use std::alloc::Global;
use std::cmp::Ordering;
use std::mem;

// A side and its next item.
#[derive(Debug, Drop)]
pub(crate) struct Ends<'a> {
    next: Option<Item>,
    feed: Feed<'a>,
}

impl<'a> Ends<'a> {
    fn of(mut feed: Feed<'a>) -> Result<Ends<'a>, OutOfMemory>
        requires { IsSound feed }
        ensures sound { IfOk result (λ ends. HasSoundEnds ends) }
        ensures same { IfOk result (λ ends. left_of ends ≡ ahead feed.entry) }
        ensures side { IfOk result (λ ends. side_of ends.feed ≡ side_of feed.entry) }
    {
        let next = feed.next()?;
        Ok(Ends { next, feed })
    }

    // Takes the next item, if it is wanted.
    fn pop_if(&mut self, wanted: bool) -> Result<Option<Item>, OutOfMemory>
        requires { HasSoundEnds self.old }
        ensures sound { OnOk result (HasSoundEnds self.new) }
        ensures popped { IfOk result (λ item. item ≡ (if wanted then self.old.next else None)) }
        ensures rest { OnOk result (left_of self.new ≡ (if wanted then ahead self.old.feed else left_of self.old)) }
        ensures side { side_of self.new.feed ≡ side_of self.old.feed }
    {
        if !wanted {
            return Ok(None);
        }
        let next = self.feed.next()?;
        Ok(mem::replace(&mut self.next, next))
    }

    // The entry of the next item.
    fn entry(&self) -> &Entry
        requires sound { HasSoundEnds self.now }
        requires some { is_some self.now.next ≡ true }
        ensures { current self.now.feed ≡ Some result.now }
    {
        self.feed.cursor.entry()
    }
}

// The rows of two lists, before files are read. It goes over each list once.
pub(crate) fn drafts_of(
    alloc: Global,
    left: &FlatList,
    left_top: &Path,
    right: &FlatList,
    right_top: &Path,
) -> Result<Vec<Draft>, OutOfMemory>
    requires left { IsSide (side left_top.now left.now) }
    requires right { IsSide (side right_top.now right.now) }
    ensures { IfOk result (λ drafts. AreDrafts (links_at (side left_top.now left.now) (side right_top.now right.now))
        (items_of left_top.now left.now) (items_of right_top.now right.now) drafts.items) }
{
    below_keeps_order();
    let left = Feed {
        cursor: left.cursor()?,
        top: left_top,
    };
    let right = Feed {
        cursor: right.cursor()?,
        top: right_top,
    };
    merged(alloc, left, right)
}

// The rows of two sides, each in path order, before files are read.
fn merged<'a>(alloc: Global, left: Feed<'a>, right: Feed<'a>) -> Result<Vec<Draft>, OutOfMemory>
    requires left { IsSound left }
    requires right { IsSound right }
    requires left_ascends { Ascend (ahead left) }
    requires right_ascends { Ascend (ahead right) }
    requires left_new { left.cursor.1 ≡ 0 }
    requires right_new { right.cursor.1 ≡ 0 }
    ensures { IfOk result (λ drafts. AreDrafts (links_at (side_of left.entry) (side_of right.entry)) (ahead left.entry) (ahead right.entry) drafts.items) }
{
    path_order_is_preorder();
    under_is_contiguous();
    let mut left = Ends::of(left)?;
    let mut right = Ends::of(right)?;
    let mut hidden = None;
    let mut drafts = Vec::new(alloc);
    while left.next.is_some() || right.next.is_some() {
        let order = order_by(&left.next, &right.next);
        let links = links_of(&left, &right);
        let a = left.pop_if(order.is_le())?;
        let b = right.pop_if(order.is_ge())?;
        add(&mut drafts, &mut hidden, a, b, links)?;
    }
    Ok(drafts)
}

// Adds the row of the items that the sides have at a path, unless the path is hidden.
fn add(
    drafts: &mut Vec<Draft>,
    hidden: &mut Option<Path>,
    a: Option<Item>,
    b: Option<Item>,
    links: Two,
) -> Result<(), OutOfMemory>
    requires { (is_some a || is_some b) ≡ true }
    ensures valid { OnOk result (refusal (path_of a b) ≡ None) }
    ensures hidden { OnOk result (hidden.new ≡ hidden_after hidden.old a b) }
    ensures added { OnOk result (drafts.new.items ≡ drafts.old.items ++ row_after links hidden.old a b) }
{
    let partial = is_partial(&a) || is_partial(&b);
    let draft = Draft::of(a, b, links);
    if is_under(&draft.row.path, hidden) {
        return Ok(());
    }
    if partial {
        *hidden = Some(draft.row.path.copy()?);
    }
    drafts.push(draft)?;
    Ok(())
}

// Whether the texts of two links agree, if the next item of both sides is a link.
fn links_of<'a>(left: &Ends<'a>, right: &Ends<'a>) -> Two
    requires left { HasSoundEnds left.now }
    requires right { HasSoundEnds right.now }
    ensures { is_some left.now.next ≡ true → is_some right.now.next ≡ true
        → result ≡ texts (target_at (current left.now.feed)) (target_at (current right.now.feed)) }
{
    if left.next.is_none() || right.next.is_none() {
        return Two::NoValue;
    }
    texts(&left.entry().target, &right.entry().target)
}

// Which side is next.
fn order_by(a: &Option<Item>, b: &Option<Item>) -> Ordering
    ensures { result ≡ order_by a.now b.now }
{
    match (a, b) {
        (None, _) => Ordering::Greater,
        (Some(_), None) => Ordering::Less,
        (Some(x), Some(y)) => x.path.cmp(&y.path),
    }
}

fn is_partial(item: &Option<Item>) -> bool
    ensures { result ≡ is_partial_item item.now }
{
    match item {
        None => false,
        Some(x) => x.partial,
    }
}

fn is_under(path: &Path, hidden: &Option<Path>) -> bool
    ensures { result ≡ under_some path.now hidden.now }
{
    match hidden {
        None => false,
        Some(top) => path.is_under(top),
    }
}
