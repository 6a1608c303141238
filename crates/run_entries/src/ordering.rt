//! The order in which a list is printed.
ghost use Rattle.run_entries.specs.Prelude.{IfOk};
ghost use Rattle.run_entries.specs.Entries.{InOrder};

use flat_list::{Field, FlatList};
use path_text::OutOfMemory;

/// The list in the order that is asked for: by a field, ascending or descending. Without a field it stays as it is.
pub fn in_asked_order(list: FlatList, order: Option<(Field, bool)>) -> Result<FlatList, OutOfMemory>
    ensures { IfOk result (InOrder order list) }
{
    let mut list = list;
    if let Some((field, down)) = order {
        list.sort_by(field, down)?;
    }
    Ok(list)
}
