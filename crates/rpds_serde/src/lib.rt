//! Containers in any format that the crate `serde` has: a module for each, as `#[serde(with = "rpds_serde::vector")]` on a
//! field names it, and [`Saved`], which holds one where there is no field.
//!
//! A list, a stack, a queue, a vector, a sequence and a set are written as a sequence of their items in the order of `iter`, a
//! map as a map of its pairs. What is read is collected: of a key or a member that comes more than once the last stays, and a
//! vector has 5 bits, a hashed container the degree 64 and the default hasher.
#![tactic(auto)]

pub mod hash_trie_map;
pub mod hash_trie_set;
pub mod list;
pub mod queue;
pub mod read;
pub mod red_black_tree_map;
pub mod red_black_tree_set;
mod saved;
pub mod sequence;
pub mod stack;
pub mod vector;
mod write;

pub use saved::Saved;
