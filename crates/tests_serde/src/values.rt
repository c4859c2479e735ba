//! Texts that are written, and what is read of texts.
mod read;
mod written;
