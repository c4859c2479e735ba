//! The containers' own calls, which a command of a table stands for.
use crate::refused::table::{Change, FailingRef};
use rpds_faults::{FailingItem, LifeCounts};
use rpds_table::table::VersionRef;
use std::alloc::AllocError;

// Drops what a call handed out.
fn made<S: Drop>(answer: Result<S, AllocError>) -> Result<bool, AllocError> {
    match answer {
        Ok(_) => Ok(true),
        Err(error) => Err(error),
    }
}

fn put<'t>(
    version: FailingRef<'_, 't>,
    number: u64,
    counts: &'t LifeCounts,
) -> Result<bool, AllocError> {
    let item = FailingItem::new(number, counts);
    match version {
        VersionRef::List(list) => made(list.push_front(item)),
        VersionRef::Stack(stack) => made(stack.push(item)),
        VersionRef::Queue(queue) => made(queue.enqueue(item)),
        VersionRef::Vector(vector) => made(vector.push_back(item)),
        VersionRef::HashTrieMap(map) => made(map.insert(item, FailingItem::new(number, counts))),
        VersionRef::HashTrieSet(set) => made(set.insert(item)),
        VersionRef::RedBlackTreeMap(map) => {
            made(map.insert(item, FailingItem::new(number, counts)))
        }
        VersionRef::RedBlackTreeSet(set) => made(set.insert(item)),
    }
}

fn take<'t>(
    version: FailingRef<'_, 't>,
    number: u64,
    counts: &'t LifeCounts,
) -> Result<bool, AllocError> {
    let item = &FailingItem::new(number, counts);
    match version {
        VersionRef::List(list) => made(list.drop_first()),
        VersionRef::Stack(stack) => made(stack.pop()),
        VersionRef::Queue(queue) => made(queue.dequeue()),
        VersionRef::Vector(vector) => made(vector.drop_last()),
        VersionRef::HashTrieMap(map) => made(map.remove(item)),
        VersionRef::HashTrieSet(set) => made(set.remove(item)),
        VersionRef::RedBlackTreeMap(map) => made(map.remove(item)),
        VersionRef::RedBlackTreeSet(set) => made(set.remove(item)),
    }
}

// Vectors alone are written to at a place.
fn set<'t>(
    version: FailingRef<'_, 't>,
    number: u64,
    counts: &'t LifeCounts,
) -> Result<bool, AllocError> {
    match version {
        VersionRef::Vector(vector) => {
            made(vector.set(number as usize, FailingItem::new(number, counts)))
        }
        _ => Ok(false),
    }
}

// Lists alone are turned round.
fn reverse<'t>(version: FailingRef<'_, 't>) -> Result<bool, AllocError> {
    match version {
        VersionRef::List(list) => made(list.reverse()),
        _ => Ok(false),
    }
}

// Makes the container's own call, which hands out a container, and drops that.
pub(crate) fn own_call<'t>(
    version: FailingRef<'_, 't>,
    change: Change,
    number: u64,
    counts: &'t LifeCounts,
) -> Result<bool, AllocError> {
    match change {
        Change::Put => put(version, number, counts),
        Change::Take => take(version, number, counts),
        Change::Set => set(version, number, counts),
        Change::Reverse => reverse(version),
    }
}
