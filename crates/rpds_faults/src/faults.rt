//! What a test has refused: one allocation, or one clone of an item.
use crate::{FailingAllocator, LifeCounts};
use std::alloc::Global;

/// What is refused.
#[derive(Clone, Copy, Debug, PartialEq, Eq)]
pub enum Refused {
    /// An allocation.
    Request,
    /// A clone of an item or a hasher.
    Clone,
}

/// An allocator and the counts of items, with which the containers of a test are made.
#[derive(Drop)]
pub struct Faults {
    /// The allocator of the containers.
    pub alloc: FailingAllocator,
    /// The counts of their items.
    pub counts: LifeCounts,
}

impl Faults {
    /// Nothing is refused.
    pub fn new(alloc: Global) -> Faults {
        Faults {
            alloc: FailingAllocator::new(alloc),
            counts: LifeCounts::new(),
        }
    }

    /// Has the request or the clone number `nth` from now on refused, from 1, and no other.
    pub fn refuse(&self, refused: Refused, nth: u64) {
        match refused {
            Refused::Request => self.alloc.refuse(nth),
            Refused::Clone => self.counts.refuse(nth),
        }
    }

    /// Whether that one came. From now on nothing is refused.
    pub fn was_refused(&self, refused: Refused, nth: u64) -> bool {
        let until_failure = match refused {
            Refused::Request => self.alloc.until_failure(),
            Refused::Clone => self.counts.clones_left(),
        };
        self.allow_all();
        until_failure == 0 || until_failure > nth
    }

    /// Has the next request and the next clone refused.
    pub fn refuse_next(&self) {
        self.alloc.refuse(1);
        self.counts.refuse(1);
    }

    /// Whether neither a request nor a clone came since then.
    pub fn none_came_yet(&self) -> bool {
        self.alloc.until_failure() == 1 && self.counts.clones_left() == 1
    }

    /// The same. From now on nothing is refused.
    pub fn none_came(&self) -> bool {
        let none = self.none_came_yet();
        self.allow_all();
        none
    }

    /// Whether each item was dropped, and each block of memory given back.
    pub fn is_all_freed(&self) -> bool {
        self.counts.living() == 0 && self.alloc.holds_nothing()
    }

    fn allow_all(&self) {
        self.alloc.refuse(u64::MAX);
        self.counts.refuse(u64::MAX);
    }
}
