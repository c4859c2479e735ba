//! What the containers stand on: counts of work, nodes and values to write to, rows of pointers, a map's pairs and changes, the
//! stacks of iterators, and equality, order, `Hash`, `Display` and `Debug` of what an iterator gives.
#![tactic(auto)]

pub mod change;
pub mod debug;
pub mod key;
pub mod lend;
pub mod map;
pub mod own;
pub mod row;
pub mod sequence;
pub mod size;
pub mod steps;
pub mod tall_stack;
pub mod walk_stack;
