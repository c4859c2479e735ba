//! Rows from outside, long runs beside std's containers, requests counted, and long chains that end.
mod history;
mod list;
mod nest_vector;
mod nest_visits;
mod queue;
mod sequence;
mod stack;
mod std_traits;
mod vector;
