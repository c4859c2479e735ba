//! The maps.

pub use rpds_core::map::entry;
pub use rpds_hash::map::hash_trie_map;
pub use rpds_hash_trie::sparse_array_usize;
pub use rpds_tree::map::red_black_tree_map;
