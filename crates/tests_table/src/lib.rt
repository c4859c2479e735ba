//! Tests of the table of versions and of the map with snapshots through their public calls: what no contract says. Worked runs
//! (`values`; those of single commands stand in `tests_lines`, as sessions), and each allocation and each clone of each command
//! refused in turn (`refused`).
#![tactic(auto)]

#[cfg(test)]
mod refused;
#[cfg(test)]
mod values;

/// The type of this crate that an `impl` for a container of another crate has to name.
#[cfg(test)]
pub struct Tests;
