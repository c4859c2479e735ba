//! What tests of more than one container share.
use crate::{FailingAllocator, LifeCounts};

/// Numbers that look random, the same in each run: Knuth's linear congruential generator for MMIX.
#[derive(Drop)]
pub struct Numbers {
    state: u64,
}

impl Numbers {
    pub fn new() -> Numbers {
        Numbers { state: 1 }
    }

    pub fn next(&mut self) -> u64 {
        self.state = self
            .state
            .wrapping_mul(6364136223846793005)
            .wrapping_add(1442695040888963407);
        self.state >> 33
    }
}

/// How many allocations were asked for since the last time.
pub fn requests(alloc: &FailingAllocator) -> u64 {
    let came = u64::MAX - alloc.until_failure();
    alloc.refuse(u64::MAX);
    came
}

/// How many clones of items and hashers were asked for since the last time.
pub fn clones(counts: &LifeCounts) -> u64 {
    let came = u64::MAX - counts.clones_left();
    counts.refuse(u64::MAX);
    came
}
