//! Persistent vectors that a user's own recursive type can hold: their depth is fixed.
#![tactic(auto)]

pub mod nest_vector;
