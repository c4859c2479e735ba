//! What the maps share.

pub mod entry;
pub mod pair_text;
