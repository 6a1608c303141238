//! The items of a side, one after the other.
ghost use Rattle.std.specs.Prelude.{◌≡◌, ◌<◌, ◌∷◌, [], true, is_some, IfOk, IfSome, IsTrue, None};
ghost use Rattle.path_text.specs.Order.{is_within};
ghost use Rattle.tree_cmp.specs.Sides.{is_gone, is_closed, is_partial};
ghost use Rattle.tree_cmp.specs.Private.Items.{item_of};
ghost use Rattle.tree_cmp.specs.Private.Steps.{ahead, IsCurrent, IsSound};

use flat_list::{Cursor, Entry, Mark};
use outside::Stat;
use path_text::{OutOfMemory, Path};

// An entry of a side, by its path below the top. The text of a link stays in the list.
#[derive(Debug, Drop)]
pub(crate) struct Item {
    pub(crate) path: Path,
    pub(crate) stat: Option<Stat>,
    // Whether not all of its children are known.
    pub(crate) partial: bool,
}

// Gives the items of a side in their order.
#[derive(Debug, Drop)]
pub(crate) struct Feed<'a> {
    pub(crate) cursor: Cursor<'a>,
    pub(crate) top: &'a Path,
}

impl<'a> Feed<'a> {
    // The next item.
    pub(crate) fn next(&mut self) -> Result<Option<Item>, OutOfMemory>
        requires { IsSound self.old }
        ensures sound { IsSound self.new }
        ensures some { IfOk result (λ item. IfSome item (λ x. ahead self.old ≡ x ∷ ahead self.new)) }
        ensures none { IfOk result (λ item. item ≡ None → (ahead self.old ≡ []) × (ahead self.new ≡ [])) }
        ensures current { IfOk result (λ item. IfSome item (IsCurrent self.new)) }
        ensures begun { IfOk result (λ item. is_some item ≡ true → 0 < self.new.cursor.1) }
        ensures list { self.new.cursor.0 ≡ self.old.cursor.0 }
        ensures top { self.new.top.now ≡ self.old.top.now }
    {
        while self.cursor.advance()? {
            let entry = self.cursor.entry();
            if !is_gone(entry.mark) {
                return Ok(Some(item_of(entry, self.top)?));
            }
        }
        Ok(None)
    }
}

fn item_of(entry: &Entry, top: &Path) -> Result<Item, OutOfMemory>
    requires { IsTrue (is_within entry.now.path top.now) }
    ensures { IfOk result (λ x. x ≡ item_of top.now entry.now) }
{
    Ok(Item {
        path: entry.path.below(top)?,
        stat: entry.stat,
        partial: is_partial(entry),
    })
}

fn is_partial(entry: &Entry) -> bool
    ensures { result ≡ is_partial entry.now }
{
    is_closed(entry.mark) || entry.far != 0
}

fn is_closed(mark: Mark) -> bool
    ensures { result ≡ is_closed mark }
{
    match mark {
        Mark::StatFailed | Mark::ListFailed | Mark::Changed => true,
        Mark::Fine | Mark::Gone => false,
    }
}

fn is_gone(mark: Mark) -> bool
    ensures { result ≡ is_gone mark }
{
    match mark {
        Mark::Gone => true,
        _ => false,
    }
}
