//! Red-black trees without a map's size and handle: a change of one key, look-ups and walks, and whole trees that are built,
//! joined, cut and combined. Maps and sets stand on them in `rpds_tree`.
#![tactic(auto)]

mod build;
pub mod combine;
mod combine_few;
mod insert;
pub mod join;
pub mod lend;
mod look_up;
mod neighbors;
mod place;
mod positions;
mod remove;
mod remove_balance;
pub mod remove_in_place;
pub mod rotation;
mod search;
pub mod seek;
mod sift;
pub mod sorted_item;
pub mod split;
pub mod tree;
mod unique;
pub mod walk;
