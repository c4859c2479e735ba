//! Sets.

pub mod hash_trie_set;
