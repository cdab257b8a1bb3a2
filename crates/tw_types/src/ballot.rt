//! Ballots.

use crate::message::{Decision, Report};
use arrayvec::ArrayVec;

/// Promises of one number, which its owner collects to make a group of them.
#[derive(Drop)]
pub struct Ballot {
    /// The number of the group that may be made, at least 1, below 2^60.
    pub number: u64,
    /// The process that is left out, where the promises go round the ring of members. None for a ballot of a slot.
    pub ring: Option<u8>,
    /// The reports that came with the promises, in the order of their arrival, of different processes.
    pub reports: ArrayVec<Report, 15>,
    /// The greatest decision that came with them.
    pub best: Option<Decision>,
    /// The least process that reported this decision as its last one; where none came, the least that reported none.
    pub best_from: u8,
}
