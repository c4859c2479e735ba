//! What lists, stacks, queues and vectors have in common.
use crate::cases::Cases;
use crate::subject::{Start, Subject};
use std::alloc::AllocError;
use std::io;

/// A sequence to which items are added at one end, and from which they are taken at one.
pub trait Sequence: Subject + Ord {
    /// With one item more.
    fn push(&self, item: u64) -> Result<Self, AllocError>;

    /// With one item less, or `None` where it is empty.
    fn pop(&self) -> Result<Option<Self>, AllocError>;

    /// Takes an item out in place.
    fn pop_mut(&mut self) -> Result<bool, AllocError>;

    /// The sum of all items.
    fn sum(&self) -> Result<u64, AllocError>;
}

/// What the calls of [`Sequence`] are called, and `put` of [`Subject`].
#[derive(Drop)]
pub struct Names<'a> {
    /// `push`.
    pub push: &'a str,
    /// `put`.
    pub push_mut: &'a str,
    /// `pop`.
    pub pop: &'a str,
    /// `pop_mut`.
    pub pop_mut: &'a str,
}

/// The cases that all sequences have.
pub fn run<S: Sequence>(cases: &Cases<'_>, names: &Names<'_>) -> io::Result<()> {
    let stored = &cases.keys.stored;
    cases
        .versions(
            names.push,
            Start::Empty,
            stored,
            |list: &S, item| Ok(Some(list.push(item)?)),
        )
        .and(cases.changes(
            names.push_mut,
            Start::Empty,
            stored,
            |list: &mut S, item| list.put(item),
        ))
        .and(cases.versions(names.pop, Start::Shared, stored, |list: &S, _| list.pop()))
        .and(cases.changes(names.pop_mut, Start::Own, stored, |list: &mut S, _| {
            list.pop_mut()?;
            Ok(())
        }))
        .and(cases.changes("clone", Start::Own, stored, |list: &mut S, _| {
            list.copied()?;
            Ok(())
        }))
        .and(cases.call("drop", &[], |list: S, _| {
            drop(list);
            Ok(())
        }))
        .and(cases.whole("iter", &[], |list: &mut S, _| list.sum()))
        .and(cases.whole("eq", stored, |list: &mut S, other| Ok(*list == *other)))
        .and(cases.whole("cmp", stored, |list: &mut S, other| Ok((*list).cmp(other))))
}
