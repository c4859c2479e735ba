//! Lines of text over a table of versions: what each asks for, and what is printed for it.
#![tactic(auto)]

pub mod determined;
pub mod fault;
mod line;
pub mod parse;
pub mod print;
pub mod run;
pub mod serve;
mod state;
