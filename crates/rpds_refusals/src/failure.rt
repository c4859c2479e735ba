//! What a check found wrong.
use crate::row::{Came, Outcome, Row};
use rpds_faults::Faults;
use std::alloc::AllocError;

/// What was wrong, and of which call.
#[derive(Debug, Drop)]
pub enum Failure<'r, C> {
    /// Memory ran out, or a clone failed, where none was refused.
    NoMemory,
    /// What came of the row with its request or clone of this number refused.
    Refused {
        /// The call.
        row: Row<'r, C>,
        /// Which request or clone was refused, from 1.
        nth: u64,
        /// What came of it.
        outcome: Outcome,
    },
    /// The call was refused 999 requests or clones in turn, and makes more.
    Endless(Row<'r, C>),
    /// The call was refused nothing, on no receiver of the plan.
    NoneRefused(C),
    /// The call was refused something, though it needs no memory and no clone.
    SomeRefused(C),
    /// A call that needs no memory asked for some, or answered so.
    AskedForMemory {
        /// The call.
        call: C,
        /// The item or key at which it was made.
        number: u64,
        /// What it answered.
        answer: Result<bool, AllocError>,
    },
    /// An empty receiver of this variant asked for some memory, though it needs none.
    EmptyAskedForMemory(u8),
    /// A call asked for more than its row says, or for something else than its like, or answered otherwise.
    OverLimit {
        /// The call.
        call: C,
        /// The item or key at which it was made.
        number: u64,
        /// What it answered, and what it asked for.
        came: Came,
    },
    /// The look of this name asked for memory, or didn't find what is there.
    Looks(&'r str),
    /// The call that takes all items out asked for memory, or left some.
    NotCleared,
    /// What was cleared and filled again isn't as what was filled.
    NotRefilled,
    /// What shared with a container that was cleared isn't as before.
    SharerCleared,
    /// A set answered the call otherwise than a map, or compared more or fewer keys.
    NotAlike {
        /// The call.
        call: C,
        /// The item or key at which it was made.
        number: u64,
    },
    /// After this part of the checks an item lives, or memory is held, though all that was made is let go.
    NotFreed(Part),
}

/// A part of the checks.
#[derive(Clone, Copy, Debug)]
pub enum Part {
    /// Calls for which no memory is needed.
    WithoutMemory,
    /// Empty receivers, for which none is needed either.
    Empty,
    /// Calls whose requests and bytes are counted.
    Limits,
    /// Looks.
    Looks,
    /// The call that takes all items out.
    Cleared,
    /// The same calls on a set and on a map.
    Alike,
}

impl<'r, C> From<AllocError> for Failure<'r, C> {
    fn from(_error: AllocError) -> Failure<'r, C> {
        Failure::NoMemory
    }
}

// That each item was dropped and all memory given back, after this part of the checks.
pub(crate) fn check_freed<'r, C>(faults: &Faults, part: Part) -> Result<(), Failure<'r, C>> {
    if faults.is_all_freed() {
        Ok(())
    } else {
        Err(Failure::NotFreed(part))
    }
}
