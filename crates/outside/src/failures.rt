//! The answer of a call that the outside did not serve.
use thiserror::Error;

/// The outside failed. The object that answers this has counted the fault.
#[derive(Clone, Copy, Debug, Drop, PartialEq, Eq, Error)]
#[error("the outside failed")]
pub struct Failed;
