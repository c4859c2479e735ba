//! What is replied to a command on the map and its snapshots.
use super::SnapRefusal;

/// What is replied to a command.
#[derive(Clone, Copy, Debug, PartialEq, Eq)]
#[must_use = "a command may be refused, and only its reply says so"]
pub enum SnapReply {
    /// Whether the map was changed.
    Done(bool),
    /// There is a new snapshot, of this number.
    Taken(usize),
    /// Nothing was changed.
    Refused(SnapRefusal),
}
