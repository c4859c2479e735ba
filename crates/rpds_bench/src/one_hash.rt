//! A hasher by which all keys have one hash.
use std::hash::{BuildHasher, Hasher};

/// Makes such hashers.
#[derive(Clone, Copy, Drop)]
pub struct OneHashBuild {}

impl BuildHasher for OneHashBuild {
    type Hasher = OneHash;

    ghost build_hasher = { λ _. record {} };

    fn build_hasher(&self) -> OneHash {
        OneHash {}
    }
}

/// Takes no account of what it is fed: the hash is 0.
#[derive(Clone, Copy)]
pub struct OneHash {}

impl Hasher for OneHash {
    ghost write = { λ hasher bytes. hasher };

    ghost finish = { λ hasher. 0 };

    fn finish(&self) -> u64 {
        0
    }

    fn write(&mut self, _: &[u8]) {}
}
