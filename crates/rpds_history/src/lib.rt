//! A history: the present version of something, those before it and those that were undone.
#![tactic(auto)]

mod chain;
pub mod history;
pub mod laws;
