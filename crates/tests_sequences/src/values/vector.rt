//! What no clause says: worked examples, calls with ample memory, and requests counted.

mod middle;
mod random;
mod requests;
mod support;
mod walks;
mod worked;
