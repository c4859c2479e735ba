//! Hash tries without a map's size and hasher: a change of one entry, look-ups, walks and unions, over sparse arrays. Maps and sets
//! stand on them in `rpds_hash`.
#![tactic(auto)]

mod colliding;
mod in_place;
mod insert;
mod lend;
mod make;
mod map_values;
pub mod node;
mod remove;
pub mod root;
mod sift;
pub mod sparse_array_usize;
mod union;
pub mod walk;
