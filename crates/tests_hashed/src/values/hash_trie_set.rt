//! Tests of the hashed set: what a map to unit doesn't show.
mod relations;
mod unions;
mod worked;
