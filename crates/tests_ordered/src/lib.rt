//! Tests of the ordered map and the ordered set through their public calls: what no contract says. Rows from outside, long runs
//! beside std's containers, comparisons and requests counted. With memory refused they are tested in `tests_ordered_refused`.
#![tactic(auto)]

#[cfg(test)]
mod merges;
#[cfg(test)]
mod red_black_tree_map;
#[cfg(test)]
mod red_black_tree_set;
#[cfg(test)]
mod sorted;
