//! Laws of failure notes, each the contract of a function with an empty body.
ghost use Rattle.tool_text.specs.NoteOrder.{NotesStandInOrder, OrderIsUnique, NothingToOrder};

/// The notes of entries whose paths ascend are in order, each once.
pub fn notes_stand_in_order()
    ensures { NotesStandInOrder }
{}

/// Notes have one order: two answers of [`in_order`](crate::in_order) for the same notes are equal.
pub fn order_is_unique()
    ensures { OrderIsUnique }
{}

/// [`in_order`](crate::in_order) answers no notes exactly if it is given none.
pub fn nothing_to_order()
    ensures { NothingToOrder }
{}
