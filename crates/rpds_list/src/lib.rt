//! Lists, stacks and queues: a list is a chain of cells whose tails versions share, a stack is one list, and a queue two.
#![tactic(auto)]

pub mod cells;
pub mod list;
pub mod queue;
pub mod stack;
