//! Tests of the hashed map.
mod algebra;
mod compared;
mod counted;
mod diffs;
pub(crate) mod keys;
mod merges;
pub(crate) mod random;
pub(crate) mod scenarios;
mod ties;
mod worked;
