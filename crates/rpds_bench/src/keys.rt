//! The keys that the cases work on, the same in each run.
use std::alloc::{AllocError, Global};

/// Keys that look random, and orders of them.
#[derive(Drop)]
pub struct Keys {
    /// Where a case takes its memory.
    pub alloc: Global,
    /// What is put in, in this order.
    pub stored: Vec<u64>,
    /// As many others, which aren't put in.
    pub absent: Vec<u64>,
    /// The positions from 0 on.
    pub positions: Vec<usize>,
    /// The positions, shuffled.
    pub shuffled_positions: Vec<usize>,
    /// What is put in, in the order of the shuffled positions.
    pub shuffled: Vec<u64>,
}

impl Keys {
    /// `count` keys to be put in, and as many others.
    pub fn new(alloc: Global, count: usize) -> Result<Keys, AllocError> {
        let mut state = 88_172_645_463_325_252;
        let stored = numbers(alloc, &mut state, count)?;
        let absent = numbers(alloc, &mut state, count)?;
        let positions = Vec::from_iter(alloc, 0..count)?;
        let shuffled_positions = shuffled(&positions)?;
        let mut shuffled = Vec::new(alloc);
        for position in &shuffled_positions {
            shuffled.push(stored.get(*position).copied().unwrap_or(0))?;
        }
        Ok(Keys {
            alloc,
            stored,
            absent,
            positions,
            shuffled_positions,
            shuffled,
        })
    }

    /// The first of the shuffled positions, at most so many.
    pub fn some_positions(&self, most: usize) -> &[usize] {
        let count = most.min(self.shuffled_positions.len());
        &self.shuffled_positions[..count]
    }
}

// One step of the generator xorshift64.
fn step(state: &mut u64) -> u64 {
    let first = *state ^ (*state << 13);
    let second = first ^ (first >> 7);
    *state = second ^ (second << 17);
    *state
}

fn numbers(alloc: Global, state: &mut u64, count: usize) -> Result<Vec<u64>, AllocError> {
    let mut numbers = Vec::new(alloc);
    for _ in 0..count {
        numbers.push(step(state))?;
    }
    Ok(numbers)
}

// In the way of Fisher and Yates.
fn shuffled(positions: &Vec<usize>) -> Result<Vec<usize>, AllocError> {
    let mut order = positions.clone()?;
    let mut state = 0x9E37_79B9_7F4A_7C15;
    for i in (1..order.len()).rev() {
        let j = (step(&mut state) % (i as u64 + 1)) as usize;
        if i < order.len() && j < order.len() {
            order.swap(i, j);
        }
    }
    Ok(order)
}
