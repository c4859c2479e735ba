//! A call that is made with a request or a clone refused, and what came of it.
use crate::plan::Receiver;
use rpds_faults::Refused;

/// A call, the receiver, where the call is made, whether the receiver's nodes are shared, and what is refused.
#[derive(Debug, Drop)]
pub struct Row<'r, C> {
    /// The call.
    pub call: C,
    /// The call that puts a number into the receiver.
    pub put: C,
    /// The receiver.
    pub receiver: &'r Receiver<'r>,
    /// The item or key at which the call is made.
    pub number: u64,
    /// Whether the receiver's nodes are shared.
    pub is_shared: bool,
    /// What is refused.
    pub refused: Refused,
}

/// What came of a row with one request or clone refused.
#[derive(Debug, Drop)]
pub struct Outcome {
    /// The request or clone came.
    pub was_refused: bool,
    /// The call answered a want of memory just where one was refused.
    pub is_reported: bool,
    /// A receiver that was refused, or found nothing to do, is as its twin, and no item was left over.
    pub is_kept: bool,
    /// What shares with the receiver is as the twin.
    pub is_sharer_kept: bool,
    /// Once nothing but the receiver is left, as many items live as it holds.
    pub is_held: bool,
    /// In the end each item was dropped once, and all memory given back.
    pub is_all_freed: bool,
}

impl Outcome {
    /// Whether all is as it has to be.
    pub fn is_right(&self) -> bool {
        self.is_reported && self.is_kept && self.is_sharer_kept && self.is_held && self.is_all_freed
    }
}

/// What a call answered among 10,000 entries, and what it asked for.
#[derive(Clone, Copy, Debug)]
pub struct Came {
    /// Whether there was something to do.
    pub answer: bool,
    /// How many requests it made.
    pub requests: u64,
    /// How many bytes they asked for.
    pub bytes: u64,
    /// How many clones of items and hashers it made.
    pub clones: u64,
}
