//! Two hashed sets in one: of as many members each, and of many beside a hundred.
use crate::cases::Cases;
use crate::subject::Subject;
use rpds_hash::identity_build::IdentityBuild;
use rpds_hash::set::hash_trie_set::HashTrieSet;
use std::alloc::{AllocError, Global};
use std::io;

type Set = HashTrieSet<u64, IdentityBuild>;

// Two sets whose nodes have another number of children, so that no union goes down both at once.
#[derive(Drop)]
struct OtherDegrees {
    wide: Set,
    narrow: Set,
}

impl Subject for OtherDegrees {
    fn empty(alloc: Global) -> Self {
        OtherDegrees {
            wide: Set::empty(alloc),
            narrow: HashTrieSet::new_with_hasher_and_degree(alloc, IdentityBuild {}, 16),
        }
    }

    fn put(&mut self, number: u64) -> Result<(), AllocError> {
        self.wide.put(number)?;
        self.narrow.put(number.wrapping_add(1))
    }

    fn copied(&self) -> Result<Self, AllocError> {
        Ok(OtherDegrees {
            wide: self.wide.copied()?,
            narrow: self.narrow.copied()?,
        })
    }
}

/// The cases of two sets.
pub fn run(cases: &Cases<'_>) -> io::Result<()> {
    run_stored(cases).and(run_absent(cases)).and(run_few(cases))
}

// With a set of the same members.
fn run_stored(cases: &Cases<'_>) -> io::Result<()> {
    let keys = &cases.keys.shuffled;
    cases
        .whole("union stored", keys, |set: &mut Set, other: &Set| {
            set.union(other)
        })
        .and(cases.whole("intersection stored", keys, |set: &mut Set, other: &Set| {
            set.intersection(other)
        }))
        .and(cases.whole("difference stored", keys, |set: &mut Set, other: &Set| {
            set.difference(other)
        }))
        .and(cases.whole(
            "symmetric_difference stored",
            keys,
            |set: &mut Set, other: &Set| set.symmetric_difference(other),
        ))
}

// With a set of as many others.
fn run_absent(cases: &Cases<'_>) -> io::Result<()> {
    let keys = &cases.keys.absent;
    cases
        .whole("union absent", keys, |set: &mut Set, other: &Set| {
            set.union(other)
        })
        .and(cases.whole("intersection absent", keys, |set: &mut Set, other: &Set| {
            set.intersection(other)
        }))
        .and(cases.whole("difference absent", keys, |set: &mut Set, other: &Set| {
            set.difference(other)
        }))
        .and(cases.whole(
            "symmetric_difference absent",
            keys,
            |set: &mut Set, other: &Set| set.symmetric_difference(other),
        ))
}

// With a hundred of the members, or all. And with as many others in a set of another degree.
fn run_few(cases: &Cases<'_>) -> io::Result<()> {
    let keys = &cases.keys.shuffled;
    let few = &keys[..keys.len().min(100)];
    cases
        .whole("intersection few", few, |set: &mut Set, other: &Set| {
            set.intersection(other)
        })
        .and(cases.whole("difference few", few, |set: &mut Set, other: &Set| {
            set.difference(other)
        }))
        .and(cases.whole(
            "symmetric_difference few",
            few,
            |set: &mut Set, other: &Set| set.symmetric_difference(other),
        ))
        .and(cases.whole("union other degree", &[], |sets: &mut OtherDegrees, _| {
            sets.wide.union(&sets.narrow)
        }))
}
