//! Tests of the map with snapshots.
mod many;
mod memory;
mod rows;
