//! Each call that takes memory or clones, with each allocation and each clone refused in turn; what takes no memory, where
//! there is none; and the allocations of each call among 10,000 items.
mod history;
mod list;
mod nest_vector;
mod queue;
mod sequence;
mod stack;
mod vector;
