//! A hasher by which a number is its own hash.
ghost use Rattle.std.specs.Prelude.{◌≡◌, fold};
ghost use Rattle.rpds_hash.specs.Identity.{number_hash, shifted_in};

use std::hash::{BuildHasher, Hasher};

/// Makes hashers by which a `u64` is its own hash.
///
/// So the place of a key in a hashed map follows from the key itself, and iterators give keys in an order that is known
/// ahead. Keys aren't spread: where someone else chooses them, another hasher serves better.
#[derive(Clone, Copy, Default)]
pub struct IdentityBuild {}

impl BuildHasher for IdentityBuild {
    type Hasher = Identity;

    ghost build_hasher = { λ _. record { state = 0 } };

    fn build_hasher(&self) -> Identity {
        Identity { state: 0 }
    }
}

impl IdentityBuild {
    /// The hash of the number, which is the number itself.
    pub fn hash_of(&self, number: u64) -> u64
        ensures fed { result ≡ number_hash number }
        ensures itself { result ≡ number }
    {
        self.hash_one(number)
    }
}

/// Keeps the last eight bytes that it is fed, the first of them lowest.
#[derive(Clone, Copy)]
pub struct Identity {
    state: u64,
}

impl Hasher for Identity {
    ghost write = { λ hasher bytes. record { state = fold shifted_in hasher.state bytes } };

    ghost finish = { λ hasher. hasher.state };

    fn finish(&self) -> u64 {
        self.state
    }

    fn write(&mut self, bytes: &[u8]) {
        for byte in bytes {
            self.state = (self.state >> 8) + u64::from(*byte) * 0x0100_0000_0000_0000;
        }
    }

    // The bytes of the number take the place of all that were fed before.
    fn write_u64(&mut self, number: u64) {
        // For its range.
        let _state = self.state;
        self.state = number;
    }
}
