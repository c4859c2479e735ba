//! Numbers that an interner stores once.
use crate::cases::Cases;
use crate::subject::{Start, Subject};
use rpds_arena::interner::Interner;
use rpds_hash::identity_build::IdentityBuild;
use std::alloc::{AllocError, Global};
use std::io;

type Numbers = Interner<u64, u64, IdentityBuild>;

impl Subject for Numbers {
    fn empty(alloc: Global) -> Self {
        Interner::new_with_hasher(alloc, IdentityBuild {})
    }

    fn put(&mut self, number: u64) -> Result<(), AllocError> {
        let _id = self.intern(number)?;
        Ok(())
    }

    fn copied(&self) -> Result<Self, AllocError> {
        self.clone()
    }
}

/// The cases of interners.
pub fn run(cases: &Cases<'_>) -> io::Result<()> {
    let keys = cases.keys;
    cases
        .changes("intern", Start::Empty, &keys.stored, put)
        .and(cases.changes("intern stored", Start::Own, &keys.shuffled, put))
        .and(cases.looks("id_of", &keys.shuffled, number_of))
}

fn put(values: &mut Numbers, value: u64) -> Result<(), AllocError> {
    values.put(value)
}

fn number_of(values: &Numbers, value: &u64) -> u64 {
    match values.id_of(value) {
        Some(id) => id.number() as u64,
        None => 0,
    }
}
