//! What maps and sets have in common.
use crate::cases::Cases;
use crate::subject::{Start, Subject};
use std::alloc::AllocError;
use std::io;

/// A map of numbers to themselves, or a set of them. `put` of [`Subject`] is its insertion in place.
pub trait Keyed: Subject + PartialEq {
    /// With this key, too.
    fn insert(&self, key: u64) -> Result<Self, AllocError>;

    /// Looks the key up: its value in a map, 1 in a set, and 0 where it is absent.
    fn find(&self, key: &u64) -> u64;

    /// Without the key.
    fn remove(&self, key: &u64) -> Result<Self, AllocError>;

    /// Takes the key out in place.
    fn remove_mut(&mut self, key: &u64) -> Result<bool, AllocError>;

    /// The sum of all keys.
    fn sum(&self) -> u64;
}

/// A map, one of whose values can be written to.
pub trait Map: Keyed {
    /// Writes 7 as the value of the key.
    fn write(&mut self, key: &u64) -> Result<(), AllocError>;

    /// Gives a stored key the next value by `alter_mut`.
    fn count(&mut self, key: u64) -> Result<(), AllocError>;
}

/// The value after the one that was there, if one was.
pub fn next(old: Option<&u64>) -> Option<u64> {
    old.map(|value| value.wrapping_add(1))
}

/// A set.
pub trait Set: Keyed {
    /// Whether each member is in the other.
    fn is_subset(&self, other: &Self) -> bool;

    /// Whether no member is in the other.
    fn is_disjoint(&self, other: &Self) -> bool;
}

fn put<S: Keyed>(map: &mut S, key: u64) -> Result<(), AllocError> {
    map.put(key)
}

fn take<S: Keyed>(map: &mut S, key: u64) -> Result<(), AllocError> {
    map.remove_mut(&key)?;
    Ok(())
}

// The cases that both have. A look-up is called `get` or `contains`.
fn run<S: Keyed>(cases: &Cases<'_>, look_up: &str, look_up_absent: &str) -> io::Result<()> {
    let keys = cases.keys;
    cases
        .looks(look_up, &keys.shuffled, |map: &S, key| map.find(key))
        .and(cases.looks(look_up_absent, &keys.absent, |map: &S, key| map.find(key)))
        .and(cases.versions("insert", Start::Empty, &keys.stored, |map: &S, key| {
            Ok(Some(map.insert(key)?))
        }))
        .and(cases.changes("insert_mut", Start::Empty, &keys.stored, put::<S>))
        .and(cases.changes("insert_mut stored", Start::Own, &keys.shuffled, put::<S>))
        .and(cases.versions("remove", Start::Shared, &keys.shuffled, |map: &S, key| {
            Ok(Some(map.remove(&key)?))
        }))
        .and(cases.changes("remove_mut", Start::Own, &keys.shuffled, take::<S>))
        .and(cases.changes("remove_mut absent", Start::Own, &keys.absent, take::<S>))
        .and(cases.changes("clone", Start::Own, &keys.stored, |map: &mut S, _| {
            map.copied()?;
            Ok(())
        }))
        .and(cases.call("drop", &[], |map: S, _| {
            drop(map);
            Ok(())
        }))
        .and(cases.whole("iter", &[], |map: &mut S, _| Ok(map.sum())))
        .and(cases.whole(
            "eq",
            &keys.shuffled,
            |map: &mut S, other| Ok(*map == *other),
        ))
        .and(cases.whole("eq clone", &[], |map: &mut S, _| {
            let copy = map.copied()?;
            Ok(*map == copy)
        }))
}

/// The cases that all maps have.
pub fn run_map<S: Map>(cases: &Cases<'_>) -> io::Result<()> {
    let keys = &cases.keys.shuffled;
    run::<S>(cases, "get", "get absent")
        .and(cases.changes(
            "value_mut",
            Start::Own,
            keys,
            |map: &mut S, key| map.write(&key),
        ))
        .and(cases.changes(
            "value_mut shared",
            Start::Shared,
            keys,
            |map: &mut S, key| map.write(&key),
        ))
        .and(cases.changes(
            "alter_mut",
            Start::Own,
            keys,
            |map: &mut S, key| map.count(key),
        ))
}

/// The cases that all sets have.
pub fn run_set<S: Set>(cases: &Cases<'_>) -> io::Result<()> {
    let keys = cases.keys;
    run::<S>(cases, "contains", "contains absent")
        .and(cases.whole(
            "is_subset",
            &keys.shuffled,
            |set: &mut S, other| Ok(set.is_subset(other)),
        ))
        .and(cases.whole(
            "is_disjoint",
            &keys.absent,
            |set: &mut S, other| Ok(set.is_disjoint(other)),
        ))
}
