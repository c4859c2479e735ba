//! Tests of the branch through its public calls: random branches beside std's maps (`values`), and each allocation and each clone
//! refused in turn (`refused`).
#![tactic(auto)]

#[cfg(test)]
mod refused;
#[cfg(test)]
mod values;

/// The type of this crate that an `impl` for a container of another crate has to name.
#[cfg(test)]
pub struct Tests;
