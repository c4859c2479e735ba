//! An ordered map that remembers which keys were changed since it branched off: what changed, and a merge of two branches, go over
//! those keys alone.
#![tactic(auto)]

pub mod branch;
pub mod laws;
