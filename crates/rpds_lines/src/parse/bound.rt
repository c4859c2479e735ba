//! Bounds of ranges.
ghost use Rattle.std.specs.Prelude.{◌≡◌, ◌≢◌, ◌∷◌, ◌<◌, ℕ, List, MatchOption};
ghost use Rattle.rpds_lines.specs.Grammar.Pieces.{bound, IsRead};

use crate::parse::number::parse_number;
use std::ops::Bound;

/// The bound that the word writes: `[` and a number that is within, `(` and one that isn't, or `*` for none.
pub fn parse_bound(word: &str) -> Option<Bound<u64>>
    ensures { IsRead bound word.now result }
{
    if let Some(key) = strip_byte(word, b'[') {
        return Some(Bound::Included(parse_number(key)?));
    }
    if let Some(key) = strip_byte(word, b'(') {
        return Some(Bound::Excluded(parse_number(key)?));
    }
    match word {
        "*" => Some(Bound::Unbounded),
        _ => None,
    }
}

// What follows this first byte, which is ASCII.
fn strip_byte(word: &str, byte: u8) -> Option<&str>
    requires { byte < 128 }
    ensures { MatchOption result
        ((rest : List ℕ) → word.now ≢ byte ∷ rest)
        (λ rest. word.now ≡ byte ∷ rest.now) }
{
    match word.as_bytes().first() {
        Some(first) if *first == byte => Some(&word[1..]),
        _ => None,
    }
}
