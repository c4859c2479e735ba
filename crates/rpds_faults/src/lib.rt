//! What tests of the containers use: an allocator that counts allocations and lets one of them fail, items and a hasher
//! whose clone fails and that count their drops and comparisons, numbers that look random, and a comparison of printed texts.
#![tactic(auto)]

mod failing_allocator;
mod faults;
mod hasher;
mod item;
mod support;
mod texts;

pub use failing_allocator::{Counts, FailingAllocator};
pub use faults::{Faults, Refused};
pub use hasher::{Floored, FlooredBuild};
pub use item::{FailingItem, LifeCounts};
pub use support::{Numbers, clones, requests};
pub use texts::texts_are;
