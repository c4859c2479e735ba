//! What no clause says of sequences: worked examples, a long run beside std's `Vec`, and requests counted.

mod random;
mod requests;
mod searched;
mod std_traits;
mod support;
mod worked;
