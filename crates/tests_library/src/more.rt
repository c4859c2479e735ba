//! The further calls of maps and sets: long runs beside std's map and set, and each allocation and each clone refused in turn.
mod random;
mod refused;
