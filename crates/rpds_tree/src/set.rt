//! Sets.

pub mod red_black_tree_set;
