//! What keys are looked up by: a reference to a key, or another form of it, such as a `&str` for a `String`.
mod hashed;
mod ordered;

pub use crate::key::hashed::HashKey;
pub use crate::key::ordered::OrdKey;
