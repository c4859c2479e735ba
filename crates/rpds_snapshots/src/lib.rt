//! An ordered map with kept versions of it.
#![tactic(auto)]

pub mod snapshots;
