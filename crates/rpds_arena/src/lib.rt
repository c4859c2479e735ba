//! A store of items that name each other by number, so that a type can hold the containers of this library of itself:
//!
//! ```
//! pub struct Value;
//!
//! pub enum Json {
//!     Number(u64),
//!     Array(Vector<Id<Value>>),
//!     Object(RedBlackTreeMap<u64, Id<Value>>),
//! }
//! ```
//!
//! The items stand in an [`Arena`](arena::Arena), here an `Arena<Json, Value>`. It only grows, and its versions share what they
//! have in common: an [`Id`](arena::Id) that one handed out stands for the same item in each later one. An [`Interner`](interner::Interner) is an
//! arena that stores each value once, so that ids are equal exactly where the values are.
#![tactic(auto)]

pub mod arena;
pub mod interner;
pub mod laws;
