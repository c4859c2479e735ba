//! A hasher with many keys of one hash, whose maker may fail to be cloned.
ghost use Rattle.std.specs.Prelude.{◌≡◌, ◌-◌, fold};
ghost use Rattle.rpds_faults.specs.Shifted.{shifted_in};

use crate::{FailingItem, LifeCounts};
use std::alloc::AllocError;
use std::hash::{BuildHasher, Hasher};

/// Keeps the last eight bytes that it is fed, the first of them lowest. The hash is how far they are above a floor, so
/// that all numbers up to the floor have the hash 0.
#[derive(Clone, Copy)]
pub struct Floored {
    floor: u64,
    state: u64,
}

impl Hasher for Floored {
    ghost write = { λ hasher bytes. record hasher { state = fold shifted_in hasher.state bytes } };

    ghost finish = { λ hasher. hasher.state - hasher.floor };

    fn finish(&self) -> u64 {
        self.state.saturating_sub(self.floor)
    }

    fn write(&mut self, bytes: &[u8]) {
        for byte in bytes {
            self.state = (self.state >> 8) + u64::from(*byte) * 0x0100_0000_0000_0000;
        }
    }
}

/// Makes such hashers. At the floor 0 a `u64` is its own hash.
#[derive(Drop)]
pub struct FlooredBuild<'a> {
    floor: u64,
    item: FailingItem<'a>,
}

impl<'a> FlooredBuild<'a> {
    /// A maker whose clones, drops and hashers are counted here.
    pub fn new(floor: u64, counts: &'a LifeCounts) -> FlooredBuild<'a> {
        FlooredBuild {
            floor,
            item: FailingItem::new(0, counts),
        }
    }
}

impl Clone for FlooredBuild<'_> {
    ghost is_clone = { λ x y. y ≡ x };

    fn clone(&self) -> Result<Self, AllocError> {
        Ok(FlooredBuild {
            floor: self.floor,
            item: self.item.clone()?,
        })
    }
}

impl BuildHasher for FlooredBuild<'_> {
    type Hasher = Floored;

    ghost build_hasher = { λ build. record { floor = build.floor; state = 0 } };

    fn build_hasher(&self) -> Floored {
        self.item.count_hasher();
        Floored {
            floor: self.floor,
            state: 0,
        }
    }
}
