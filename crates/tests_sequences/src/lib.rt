//! Tests of lists, stacks, queues and vectors through their public calls: what no contract says. Rows from outside, long runs
//! beside std's containers, requests counted, long chains that end (`values`); each allocation and each clone refused in turn
//! (`refused`). And of what all tests use: the allocator and the items that fail (`faults`), and the checks of refusals, tried
//! on lists that do one thing wrong each (`refusals`).
#![tactic(auto)]

#[cfg(test)]
mod faults;
#[cfg(test)]
mod refusals;
#[cfg(test)]
mod refused;
#[cfg(test)]
mod values;

/// The type of this crate that an `impl` for a container of another crate has to name.
#[cfg(test)]
pub struct Tests;
