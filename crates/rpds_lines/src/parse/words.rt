//! The words of a line.
ghost use Rattle.std.specs.Prelude.{◌≡◌, ◌≢◌, ◌↔◌, ◌<◌, ℕ, List, [], ◌∷◌, MatchOption, IsTrue, length, take, drop, slice_index, ◌++◌, ◌+◌};
ghost use Rattle.rpds_lines.specs.Grammar.Items.{pieces_of_pair};
ghost use Rattle.rpds_lines.specs.Grammar.Kinds.{piece_of_kind};
ghost use Rattle.rpds_lines.specs.Grammar.Pieces.{number, byte, bound, IsReadAlone, IsReadFirst, AreReadFirst};
ghost use Rattle.rpds_lines.specs.Words.{LacksSpace, words_of, words_left};

use crate::parse::bound::parse_bound;
use crate::parse::kind::parse_kind;
use crate::parse::number::{parse_byte, parse_index, parse_number};
use rpds_table::table::Kind;
use std::marker::Model;
use std::ops::Bound;

/// The words of a line that are still to be read. One space stands between two words.
#[derive(Drop)]
pub struct Words<'a> {
    rest: Option<&'a str>,
}

impl<'a> Model for Words<'a> {
    ghost use Rattle.std.specs.Prelude.{List, ℕ};
    ghost use Rattle.rpds_lines.specs.Words.{words_left};

    ghost Value = { List (List ℕ) };

    ghost view = { λ words. words_left words.rest };
}

impl<'a> Words<'a> {
    /// All words of the line.
    pub fn new(line: &'a str) -> Words<'a>
        ensures { result ≡ words_of line.now }
    {
        Words { rest: Some(line) }
    }

    /// The same words, to be read once more.
    pub fn copy(&self) -> Words<'a>
        ensures { result ≡ self.now }
    {
        Words { rest: self.rest }
    }

    /// No word is left.
    pub fn is_empty(&self) -> bool
        ensures { IsTrue result ↔ self.now ≡ [] }
    {
        self.rest.is_none()
    }

    /// The next word.
    pub fn next(&mut self) -> Option<&'a str>
        ensures { MatchOption result
            ((self.old ≡ []) × (self.new ≡ []))
            (λ word. self.old ≡ word.now ∷ self.new) }
    {
        let (word, rest) = first_word(self.rest?);
        self.rest = rest;
        Some(word)
    }

    /// The next word, if no word follows it.
    pub fn last(&mut self) -> Option<&'a str>
        ensures { MatchOption result
            ((word : List ℕ) → self.old ≢ word ∷ [])
            (λ word. self.old ≡ word.now ∷ []) }
    {
        let word = self.next()?;
        match self.next() {
            None => Some(word),
            Some(_) => None,
        }
    }

    /// The number that the next word writes.
    pub fn next_number(&mut self) -> Option<u64>
        ensures { IsReadFirst number self.old self.new result }
    {
        parse_number(self.next()?)
    }

    /// The number that the next word writes, as the number of a version or a position.
    pub fn next_index(&mut self) -> Option<usize>
        ensures { IsReadFirst number self.old self.new result }
    {
        parse_index(self.next()?)
    }

    /// The bound that the next word writes.
    pub fn next_bound(&mut self) -> Option<Bound<u64>>
        ensures { IsReadFirst bound self.old self.new result }
    {
        parse_bound(self.next()?)
    }

    // What is left is read as a number without a look for spaces, since no number has one.

    /// The number that the last word writes, as the number of a version or a position.
    #[tactic(auto, using(crate::proofs::Spaces::number_alone))]
    pub fn last_index(&mut self) -> Option<usize>
        ensures { IsReadAlone number self.old result }
    {
        parse_index(self.rest.take()?)
    }

    /// The number that the last word writes.
    #[tactic(auto, using(crate::proofs::Spaces::number_alone))]
    pub fn last_number(&mut self) -> Option<u64>
        ensures { IsReadAlone number self.old result }
    {
        parse_number(self.rest.take()?)
    }

    /// The number that the last word writes, up to 255.
    #[tactic(auto, using(crate::proofs::Spaces::number_alone))]
    pub fn last_byte(&mut self) -> Option<u8>
        ensures { IsReadAlone byte self.old result }
    {
        parse_byte(self.rest.take()?)
    }

    /// The key and the value that the next two words write.
    pub fn next_pair(&mut self) -> Option<(u64, u64)>
        ensures { AreReadFirst pieces_of_pair self.old self.new result }
    {
        Some((self.next_number()?, self.next_number()?))
    }

    /// The bound that the last word writes.
    pub fn last_bound(&mut self) -> Option<Bound<u64>>
        ensures { IsReadAlone bound self.old result }
    {
        parse_bound(self.last()?)
    }

    /// The kind that the last word names.
    pub fn last_kind(&mut self) -> Option<Kind>
        ensures { IsReadAlone piece_of_kind self.old result }
    {
        parse_kind(self.last()?)
    }
}

// The first word of a line, and what follows the space after it.
fn first_word(line: &str) -> (&str, Option<&str>)
    ensures { words_of line.now ≡ result.0.now ∷ words_left result.1 }
{
    match first_space(line) {
        Some(end) => (&line[..end], Some(&line[end + 1..])),
        None => (line, None),
    }
}

// Where the first space stands.
fn first_space(line: &str) -> Option<usize>
    ensures { MatchOption result (LacksSpace line.now) (λ end. LacksSpace (take end line.now)
        × (end < length line.now) × (slice_index line.now end ≡ 32)
        × (line.now ≡ take end line.now ++ 32 ∷ drop (end + 1) line.now)) }
{
    line.as_bytes().iter().position(|&byte| byte == b' ')
}
