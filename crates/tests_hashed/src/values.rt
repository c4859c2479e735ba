//! Rows from outside, long runs beside std's containers, and comparisons counted.
mod forms;
mod hash_trie_map;
mod hash_trie_set;
mod sparse_array_usize;
