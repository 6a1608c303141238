//! Laws of the comparison, each the contract of a function that does nothing.
ghost use Rattle.tree_cmp.specs.Laws.{FaultsAreTold};
ghost use Rattle.tree_cmp.specs.Worked.{WorkedExpressions, WorkedRows};

/// The definition's answers for two small trees, worked out by hand.
pub fn worked_rows()
    ensures { WorkedRows }
{}

/// The expressions of some texts, worked out by hand.
pub fn worked_expressions()
    ensures { WorkedExpressions }
{}

/// If no count of the readers rose, and no count is at its end, no read failed.
pub fn faults_are_told()
    ensures { FaultsAreTold }
{}
