//! Vectors.
use crate::cases::Cases;
use crate::edits::{self, Edits};
use crate::sequence::{self, Names, Sequence};
use crate::subject::{Start, Subject};
use rpds_vector::vector::Vector;
use std::alloc::{AllocError, Global};
use std::io;

// At how many positions a call is made that copies all that lies behind.
const FEW: usize = 100;

impl Subject for Vector<u64> {
    fn empty(alloc: Global) -> Self {
        Vector::new(alloc)
    }

    fn put(&mut self, number: u64) -> Result<(), AllocError> {
        self.push_back_mut(number)
    }

    fn copied(&self) -> Result<Self, AllocError> {
        self.clone()
    }
}

impl Sequence for Vector<u64> {
    fn push(&self, item: u64) -> Result<Self, AllocError> {
        self.push_back(item)
    }

    fn pop(&self) -> Result<Option<Self>, AllocError> {
        self.drop_last()
    }

    fn pop_mut(&mut self) -> Result<bool, AllocError> {
        self.drop_last_mut()
    }

    fn sum(&self) -> Result<u64, AllocError> {
        let mut sum = 0u64;
        for item in self.iter() {
            sum = sum.wrapping_add(*item);
        }
        Ok(sum)
    }
}

impl Edits for Vector<u64> {
    fn with_item(&self, index: usize, item: u64) -> Result<Option<Self>, AllocError> {
        self.insert(index, item)
    }

    fn without_item(&self, index: usize) -> Result<Option<Self>, AllocError> {
        self.remove(index)
    }

    fn cut_at(&self, index: usize) -> Result<(Self, Self), AllocError> {
        Ok((self.take(index)?, self.skip(index)?))
    }

    fn joined(&self, other: &Self) -> Result<Self, AllocError> {
        self.append(other)
    }
}

fn write(vector: &mut Vector<u64>, position: usize) -> Result<(), AllocError> {
    let Ok(item) = vector.item_mut(position) else {
        return Err(AllocError);
    };
    *item = 7;
    Ok(())
}

/// The cases of vectors.
pub fn run(cases: &Cases<'_>) -> io::Result<()> {
    let names = Names {
        push: "push_back",
        push_mut: "push_back_mut",
        pop: "drop_last",
        pop_mut: "drop_last_mut",
    };
    let keys = cases.keys;
    let positions = &keys.shuffled_positions;
    sequence::run::<Vector<u64>>(cases, &names)
        .and(cases.looks("get", positions, |vector: &Vector<u64>, position| {
            vector.get(*position).copied().unwrap_or(0)
        }))
        .and(cases.versions(
            "set",
            Start::Shared,
            positions,
            |vector: &Vector<u64>, position| { vector.set(position, 7) },
        ))
        .and(cases.changes(
            "set_mut",
            Start::Own,
            positions,
            |vector: &mut Vector<u64>, position| {
                vector.set_mut(position, 7)?;
                Ok(())
            },
        ))
        .and(cases.changes("item_mut", Start::Own, positions, write))
        .and(cases.changes("item_mut shared", Start::Shared, positions, write))
        .and(cases.call("extend", &[], |_: Vector<u64>, _| {
            Vector::from_iter(keys.alloc, keys.stored.iter().copied())
        }))
        .and(edits::run::<Vector<u64>>(cases, keys.some_positions(FEW), "take and skip"))
}
