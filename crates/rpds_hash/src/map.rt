//! Maps.

pub mod hash_trie_map;

pub use rpds_hash_trie::sparse_array_usize;
