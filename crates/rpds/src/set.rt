//! The sets.

pub use rpds_hash::set::hash_trie_set;
pub use rpds_tree::set::red_black_tree_set;
