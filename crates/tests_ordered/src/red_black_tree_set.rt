//! Tests of the ordered set: what a map to unit doesn't show.
mod relations;
mod whole;
mod worked;
