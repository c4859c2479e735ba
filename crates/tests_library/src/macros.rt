//! What the macros make, the order in which they evaluate, and that they stop at a failed allocation.
mod evaluated;
mod made;
mod refused;
