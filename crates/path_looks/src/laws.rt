//! The law of looks: the contract of a function that does nothing.
ghost use Rattle.path_looks.specs.Looks.{LooksWithoutFaultsAreTold};

/// If every path is there and no fault was counted, each look found a node.
pub fn looks_without_faults_are_told()
    ensures { LooksWithoutFaultsAreTold }
{}
