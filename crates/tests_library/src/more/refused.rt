//! Each allocation and each clone of the further calls refused in turn.
mod maps;
mod sets;
