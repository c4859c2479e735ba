//! Persistent containers: lists, stacks, queues, vectors, sequences, hashed and ordered maps and sets, a table of versions of
//! most of them, an ordered map with snapshots, a history to undo and redo, branches that merge, and for recursive types a vector
//! that nests and arenas.
//!
//! A change of a persistent container gives a new one and leaves the old one as it was; the two share what they have
//! in common. The containers and their modules stand here under the paths of the Rust crate `rpds`. The macros `list!`,
//! `stack!`, `queue!`, `vector!`, `sequence!`, `ht_map!`, `ht_set!`, `rbt_map!` and `rbt_set!` make one of their arguments.
#![tactic(auto)]

pub mod laws;
mod macros;
pub mod map;
pub mod set;

pub use arena::Arena;
pub use interner::Interner;
pub use map::hash_trie_map::HashTrieMap;
pub use map::red_black_tree_map::RedBlackTreeMap;
pub use rpds_arena::{arena, interner};
pub use rpds_branch::branch;
pub use rpds_branch::branch::Branch;
pub use rpds_core::key::{HashKey, OrdKey};
pub use rpds_core::lend::ValueMutError;
pub use rpds_core::{change, key, lend, steps};
pub use rpds_history::history;
pub use rpds_history::history::History;
pub use rpds_list::list::List;
pub use rpds_list::queue::Queue;
pub use rpds_list::stack::Stack;
pub use rpds_list::{list, queue, stack};
pub use rpds_nest::nest_vector;
pub use rpds_nest::nest_vector::NestVector;
pub use rpds_sequence::sequence;
pub use rpds_sequence::sequence::Sequence;
pub use rpds_snapshots::snapshots;
pub use rpds_table::table;
pub use rpds_tree::sorted;
pub use rpds_vector::vector;
pub use rpds_vector::vector::Vector;
pub use set::hash_trie_set::HashTrieSet;
pub use set::red_black_tree_set::RedBlackTreeSet;
pub use sorted::SortedError;
