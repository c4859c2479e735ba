//! Sequences that change in their middle.
use crate::cases::Cases;
use crate::edits::{self, Edits};
use crate::sequence::{self, Names};
use crate::subject::{Start, Subject};
use rpds_sequence::sequence::Sequence;
use std::alloc::{AllocError, Global};
use std::io;

// At how many positions a case makes its calls at most.
const MOST: usize = 10_000;

type Numbers = Sequence<u64>;

impl Subject for Numbers {
    fn empty(alloc: Global) -> Self {
        Sequence::new(alloc)
    }

    fn put(&mut self, number: u64) -> Result<(), AllocError> {
        self.push_back_mut(number)
    }

    fn copied(&self) -> Result<Self, AllocError> {
        self.clone()
    }

    fn of_numbers(alloc: Global, numbers: &[u64]) -> Result<Self, AllocError> {
        Sequence::from_iter(alloc, numbers.iter().copied())
    }
}

impl sequence::Sequence for Numbers {
    fn push(&self, item: u64) -> Result<Self, AllocError> {
        self.push_back(item)
    }

    fn pop(&self) -> Result<Option<Self>, AllocError> {
        match self.pop_back()? {
            Some((_, rest)) => Ok(Some(rest)),
            None => Ok(None),
        }
    }

    fn pop_mut(&mut self) -> Result<bool, AllocError> {
        self.remove_mut(self.len().saturating_sub(1))
    }

    fn sum(&self) -> Result<u64, AllocError> {
        let mut sum = 0u64;
        for item in self.iter() {
            sum = sum.wrapping_add(*item);
        }
        Ok(sum)
    }
}

impl Edits for Numbers {
    fn with_item(&self, index: usize, item: u64) -> Result<Option<Self>, AllocError> {
        self.insert(index, item)
    }

    fn without_item(&self, index: usize) -> Result<Option<Self>, AllocError> {
        self.remove(index)
    }

    fn cut_at(&self, index: usize) -> Result<(Self, Self), AllocError> {
        self.split_at(index)
    }

    fn joined(&self, other: &Self) -> Result<Self, AllocError> {
        self.append(other)
    }
}

/// The cases of sequences.
pub fn run(cases: &Cases<'_>) -> io::Result<()> {
    let names = Names {
        push: "push_back",
        push_mut: "push_back_mut",
        pop: "pop_back",
        pop_mut: "remove_mut last",
    };
    let positions = cases.keys.some_positions(MOST);
    // So few that the sequence stays about as long.
    let tenth = cases.keys.stored.len() / 10;
    let few = cases.keys.some_positions(tenth.max(1).min(MOST));
    sequence::run::<Numbers>(cases, &names)
        .and(run_items(cases, positions))
        .and(run_lengths(cases, few))
        .and(edits::run::<Numbers>(cases, positions, "split_at"))
        .and(run_searches(cases, positions))
        .and(run_wholes(cases))
}

// One item at each position.
fn run_items(cases: &Cases<'_>, positions: &[usize]) -> io::Result<()> {
    cases
        .looks("get", positions, |items: &Numbers, position| {
            items.get(*position).copied().unwrap_or(0)
        })
        .and(cases.versions(
            "set",
            Start::Shared,
            positions,
            |items: &Numbers, position| { items.set(position, 7) },
        ))
        .and(cases.changes(
            "update_mut",
            Start::Own,
            positions,
            |items: &mut Numbers, position| {
                items.update_mut(position, |item| Ok(item.wrapping_add(1)))?;
                Ok(())
            },
        ))
        .and(cases.changes(
            "item_mut",
            Start::Own,
            positions,
            |items: &mut Numbers, position| {
                if let Ok(item) = items.item_mut(position) {
                    *item = item.wrapping_add(1);
                }
                Ok(())
            },
        ))
}

// Items put in and taken out in place.
fn run_lengths(cases: &Cases<'_>, positions: &[usize]) -> io::Result<()> {
    cases
        .changes(
            "insert_mut",
            Start::Own,
            positions,
            |items: &mut Numbers, position| {
                items.insert_mut(position, 7)?;
                Ok(())
            },
        )
        .and(cases.changes(
            "remove_mut",
            Start::Own,
            positions,
            |items: &mut Numbers, position| {
                let len = items.len().max(1);
                items.remove_mut(position % len)?;
                Ok(())
            },
        ))
        .and(cases.changes(
            "push_back_mut behind all",
            Start::Own,
            positions,
            |items: &mut Numbers, _| items.push_back_mut(7),
        ))
}

// A path to each position, found by the items or by the index, and what lies behind it.
fn run_searches(cases: &Cases<'_>, positions: &[usize]) -> io::Result<()> {
    cases
        .looks("binary_search", positions, |items: &Numbers, position| {
            match items.binary_search(&(*position as u64)) {
                Ok(index) => index as u64,
                Err(index) => index as u64,
            }
        })
        .and(cases.looks("iter_from first", positions, |items: &Numbers, position| {
            items.iter_from(*position).next().copied().unwrap_or(0)
        }))
}

// What is made of all items.
fn run_wholes(cases: &Cases<'_>) -> io::Result<()> {
    let keys = cases.keys;
    cases
        .call("from_iter", &[], |_: Numbers, _| {
            Sequence::from_iter(keys.alloc, keys.stored.iter().copied())
        })
        .and(cases.whole("retain half", &[], |items: &mut Numbers, _| {
            items.retain(|item| *item % 2 == 0)
        }))
        .and(cases.call("map", &[], |items: Numbers, _| {
            items.map(|item| Ok(*item))
        }))
}
