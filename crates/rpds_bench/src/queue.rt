//! Queues.
use crate::cases::Cases;
use crate::sequence::{self, Names, Sequence};
use crate::subject::{Start, Subject};
use rpds_list::queue::Queue;
use std::alloc::{AllocError, Global};
use std::io;

impl Subject for Queue<u64> {
    fn empty(alloc: Global) -> Self {
        Queue::new(alloc)
    }

    fn put(&mut self, number: u64) -> Result<(), AllocError> {
        self.enqueue_mut(number)
    }

    fn copied(&self) -> Result<Self, AllocError> {
        self.clone()
    }
}

impl Sequence for Queue<u64> {
    fn push(&self, item: u64) -> Result<Self, AllocError> {
        self.enqueue(item)
    }

    fn pop(&self) -> Result<Option<Self>, AllocError> {
        self.dequeue()
    }

    fn pop_mut(&mut self) -> Result<bool, AllocError> {
        self.dequeue_mut()
    }

    fn sum(&self) -> Result<u64, AllocError> {
        let mut sum = 0u64;
        for item in self.iter()? {
            sum = sum.wrapping_add(*item);
        }
        Ok(sum)
    }
}

/// The cases of queues.
pub fn run(cases: &Cases<'_>) -> io::Result<()> {
    let names = Names {
        push: "enqueue",
        push_mut: "enqueue_mut",
        pop: "dequeue",
        pop_mut: "dequeue_mut",
    };
    let positions = &cases.keys.positions;
    sequence::run::<Queue<u64>>(cases, &names)
    // Two go in for each one that comes out.
    .and(cases.changes(
        "mixed_mut",
        Start::Empty,
        positions,
        |queue: &mut Queue<u64>, position| {
            queue.put(position as u64)?;
            if position % 2 == 1 {
                queue.dequeue_mut()?;
            }
            Ok(())
        },
    ))
}
