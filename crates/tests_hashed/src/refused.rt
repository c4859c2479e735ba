//! Each call that takes memory or clones, with each allocation and each clone refused in turn; what takes no memory, where
//! there is none; the allocations of each call among many entries; and the same calls on a set and a map.
mod alike;
mod extended;
mod hash_trie_map;
mod hash_trie_set;
mod parts;
mod two_maps;
