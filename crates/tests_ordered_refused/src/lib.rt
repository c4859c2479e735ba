//! Tests of the ordered map and the ordered set with memory refused: each call that takes memory or clones, with each allocation
//! and each clone refused in turn; what takes no memory, where there is none; the allocations of each call among 10,000 entries;
//! and the same calls on a set and a map.
#![tactic(auto)]

#[cfg(test)]
mod alike;
#[cfg(test)]
mod collected;
#[cfg(test)]
mod extended;
#[cfg(test)]
mod merges;
#[cfg(test)]
mod red_black_tree_map;
#[cfg(test)]
mod red_black_tree_set;
#[cfg(test)]
mod whole_maps;
#[cfg(test)]
mod whole_sets;

/// The type of this crate that an `impl` for a container of another crate has to name.
#[cfg(test)]
pub struct Tests;
