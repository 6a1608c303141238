//! Laws of work by levels, each the contract of a function that does nothing.
ghost use Rattle.level_work.specs.Chain.{ActedIsChain};

use crate::acts::Act;
use outside::Plot;

/// If the maps before and after describe all levels, there is one map after each level. Each level does its deeds from one map
/// to the next.
pub fn acted_is_chain<P: Plot, A: Act<P>>(actor: &A)
    ensures { ActedIsChain (A.deed (A.plain actor.now)) }
{}
