//! Long runs of calls beside std's.
mod joined;
mod maps;
mod sets;
