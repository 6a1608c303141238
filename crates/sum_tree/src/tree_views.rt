//! The knowledge of a rank's seat about the sums. No value of these types is made: they are the views of a table.
use crate::ranks::Reading;
use std::collections::LinkedList;

/// The knowledge of a rank's seat.
pub struct Known {
    pub number: u64,
    pub n: u64,
    pub width: u64,
    /// The rank's count when it last stored its word.
    pub count: u64,
    pub word: u64,
    pub is_final: bool,
    /// For each rank, the number that was last read in its word, and whether that was final.
    pub seen: LinkedList<u64>,
    pub finals: LinkedList<bool>,
    pub readings: LinkedList<Reading>,
}

pub struct View {
    /// Seats made so far, told by the first one alone.
    pub made: u64,
    pub own: Known,
    /// The knowledge of the seats that this one took in.
    pub kept: LinkedList<Known>,
    /// False once another seat has taken this one in.
    pub live: bool,
}
