//! What the tests of refusals share: loops that make a call again and again, each time with another allocation or another
//! clone refused, and that count its allocations; and a long run of the same calls on a set and a map. Only tests may abort, so
//! each check returns what was wrong, a `Failure`.
#![tactic(auto)]

pub mod alike;
pub mod answer;
pub mod call;
pub mod check;
pub mod container;
pub mod failure;
pub mod item;
pub mod limits;
pub mod looks;
pub mod plan;
pub mod refused;
pub mod row;
pub mod subject;
pub mod without_memory;
