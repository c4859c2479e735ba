//! Tests of the table.
mod compared;
mod runs;
mod worked;
