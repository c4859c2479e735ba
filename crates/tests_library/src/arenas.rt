//! Arenas and interners: a long run beside std's `Vec`, each allocation and each clone refused in turn, printed text, std's traits, and
//! a type that holds vectors and maps of itself.
mod nested;
mod random;
mod refused;
mod std_traits;
