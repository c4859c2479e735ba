//! Tests of what stands on the containers: the examples of the README, the macros of `rpds`, containers as keys, the
//! allocator of what two containers make, arenas and interners, and the further calls of maps and sets.
#![tactic(auto)]

#[cfg(test)]
mod allocators;
#[cfg(test)]
mod arenas;
#[cfg(test)]
mod examples;
#[cfg(test)]
mod keys;
#[cfg(test)]
mod macros;
#[cfg(test)]
mod more;

/// The type of this crate that an `impl` for a container of another crate has to name.
#[cfg(test)]
pub struct Tests;
