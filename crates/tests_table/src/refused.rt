//! Each command, with each allocation and each clone refused in turn; what takes no memory, where there is none; and what each
//! asks for among 10,000 entries.
mod asked;
mod counted;
mod own;
mod snapshots;
mod table;
