//! What vectors and sequences have in common: changes in the middle, cuts, and two halves put together.
use crate::cases::Cases;
use crate::subject::Subject;
use std::alloc::{AllocError, Global};
use std::io;

/// A sequence that changes at any place.
pub trait Edits: Subject {
    /// With the item at the index, or `None` where that is out of range.
    fn with_item(&self, index: usize, item: u64) -> Result<Option<Self>, AllocError>;

    /// Without the item at the index, or `None` where that is out of range.
    fn without_item(&self, index: usize) -> Result<Option<Self>, AllocError>;

    /// The items before the index, and the others.
    fn cut_at(&self, index: usize) -> Result<(Self, Self), AllocError>;

    /// The items, and then those of the other.
    fn joined(&self, other: &Self) -> Result<Self, AllocError>;
}

// Two halves of a sequence.
#[derive(Drop)]
struct Halves<S> {
    first: S,
    second: S,
}

impl<S: Edits> Subject for Halves<S> {
    fn empty(alloc: Global) -> Self {
        Halves {
            first: S::empty(alloc),
            second: S::empty(alloc),
        }
    }

    fn put(&mut self, number: u64) -> Result<(), AllocError> {
        self.second.put(number)
    }

    fn copied(&self) -> Result<Self, AllocError> {
        Ok(Halves {
            first: self.first.copied()?,
            second: self.second.copied()?,
        })
    }

    fn of_numbers(alloc: Global, numbers: &[u64]) -> Result<Self, AllocError> {
        let whole = S::of_numbers(alloc, numbers)?;
        let (first, second) = whole.cut_at(numbers.len() / 2)?;
        Ok(Halves { first, second })
    }
}

// Lets go what a call handed out.
fn dropped<R: Drop>(made: Result<R, AllocError>) -> u64 {
    match made {
        Ok(_) => 1,
        Err(_) => 0,
    }
}

/// Their cases: each call is on all stored numbers, or on the halves of these, and what it hands out is dropped. A cut is called so.
pub fn run<S: Edits>(cases: &Cases<'_>, positions: &[usize], cut: &str) -> io::Result<()> {
    cases
        .looks("insert", positions, |items: &S, position| {
            dropped(items.with_item(*position, 7))
        })
        .and(cases.looks("remove", positions, |items: &S, position| {
            dropped(items.without_item(*position))
        }))
        .and(cases.looks(
            cut,
            positions,
            |items: &S, position| dropped(items.cut_at(*position)),
        ))
        .and(cases.looks("append", positions, |halves: &Halves<S>, _| {
            dropped(halves.first.joined(&halves.second))
        }))
}
