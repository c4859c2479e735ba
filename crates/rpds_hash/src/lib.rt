//! The hashed map, a persistent hash trie, and the hashed set on it.
#![tactic(auto)]

pub mod identity_build;
pub mod laws;
pub mod map;
pub mod set;
