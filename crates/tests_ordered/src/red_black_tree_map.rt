//! Tests of what no clause says: worked rows, keys that count their comparisons, and requests counted.
pub(crate) mod algebra;
mod compared;
mod counted;
mod forms;
mod from_sorted;
pub(crate) mod keys;
pub(crate) mod random;
mod requests;
pub(crate) mod scenarios;
mod split;
mod ties;
pub(crate) mod walks;
mod worked;
