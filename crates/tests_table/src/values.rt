//! Worked rows and runs of commands.
mod snapshots;
mod table;
