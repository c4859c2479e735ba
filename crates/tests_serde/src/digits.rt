//! A format whose values are single digits, in brackets: `[123]` is a sequence of three, `{1526}` a map of two pairs. Its errors
//! say whether memory was refused.
use serde::{Format, Kind, Name};
use std::alloc::Global;

/// Why the input was not read.
#[derive(Clone, Copy, Debug, Drop, PartialEq, Eq)]
pub enum Refusal {
    /// An allocation was refused.
    NoMemory,
    /// Something else comes, or the format doesn't have it.
    NotThere,
}

/// How far the input was read.
#[derive(Drop)]
pub struct Digits {
    at: usize,
}

impl Digits {
    /// Nothing was read yet.
    pub fn new() -> Digits {
        Digits { at: 0 }
    }

    // Takes this byte if it comes next.
    fn take(&mut self, input: &[u8], byte: u8) -> bool {
        let comes = input.get(self.at) == Some(&byte);
        if comes {
            self.at = self.at.saturating_add(1);
        }
        comes
    }

    fn expect(&mut self, input: &[u8], byte: u8) -> Result<(), Refusal> {
        if self.take(input, byte) {
            Ok(())
        } else {
            Err(Refusal::NotThere)
        }
    }
}

impl Format for Digits {
    type Error = Refusal;

    type Mark = usize;

    fn bool(&mut self, _input: &[u8]) -> Result<bool, Refusal> {
        Err(Refusal::NotThere)
    }

    fn i64(&mut self, _input: &[u8]) -> Result<i64, Refusal> {
        Err(Refusal::NotThere)
    }

    fn u64(&mut self, input: &[u8]) -> Result<u64, Refusal> {
        match input.get(self.at) {
            Some(byte @ b'0'..=b'9') => {
                self.at = self.at.saturating_add(1);
                Ok((*byte).wrapping_sub(b'0') as u64)
            }
            _ => Err(Refusal::NotThere),
        }
    }

    fn i128(&mut self, _input: &[u8]) -> Result<i128, Refusal> {
        Err(Refusal::NotThere)
    }

    fn u128(&mut self, _input: &[u8]) -> Result<u128, Refusal> {
        Err(Refusal::NotThere)
    }

    fn f32(&mut self, _input: &[u8]) -> Result<f32, Refusal> {
        Err(Refusal::NotThere)
    }

    fn f64(&mut self, _input: &[u8]) -> Result<f64, Refusal> {
        Err(Refusal::NotThere)
    }

    fn char(&mut self, _input: &[u8]) -> Result<char, Refusal> {
        Err(Refusal::NotThere)
    }

    fn plain_str(&mut self, _input: &[u8]) -> Result<(usize, usize), Refusal> {
        Err(Refusal::NotThere)
    }

    fn plain_bytes(&mut self, _input: &[u8]) -> Result<(usize, usize), Refusal> {
        Err(Refusal::NotThere)
    }

    fn string(&mut self, _alloc: Global, _input: &[u8]) -> Result<String, Refusal> {
        Err(Refusal::NotThere)
    }

    fn byte_buf(&mut self, _alloc: Global, _input: &[u8]) -> Result<Vec<u8>, Refusal> {
        Err(Refusal::NotThere)
    }

    fn peek(&mut self, input: &[u8]) -> Result<Kind, Refusal> {
        match input.get(self.at) {
            Some(b'[') => Ok(Kind::Seq),
            Some(b'{') => Ok(Kind::Map),
            Some(b'0'..=b'9') => Ok(Kind::Unsigned),
            _ => Err(Refusal::NotThere),
        }
    }

    fn take_unit(&mut self, _input: &[u8]) -> Result<bool, Refusal> {
        Ok(false)
    }

    fn take_none(&mut self, _input: &[u8]) -> Result<bool, Refusal> {
        Ok(false)
    }

    fn begin_seq(&mut self, input: &[u8]) -> Result<(), Refusal> {
        self.expect(input, b'[')
    }

    fn next_item(&mut self, input: &[u8]) -> Result<bool, Refusal> {
        Ok(!self.take(input, b']'))
    }

    fn begin_map(&mut self, input: &[u8]) -> Result<(), Refusal> {
        self.expect(input, b'{')
    }

    fn next_key(&mut self, _input: &[u8], _names: &[Name<'_>]) -> Result<Option<usize>, Refusal> {
        Err(Refusal::NotThere)
    }

    fn next_entry(&mut self, input: &[u8]) -> Result<bool, Refusal> {
        Ok(!self.take(input, b'}'))
    }

    fn variant(&mut self, _input: &[u8], _names: &[Name<'_>]) -> Result<usize, Refusal> {
        Err(Refusal::NotThere)
    }

    fn skip(&mut self, _input: &[u8]) -> Result<(), Refusal> {
        Err(Refusal::NotThere)
    }

    fn mark(&mut self) -> usize {
        self.at
    }

    fn rewind(&mut self, mark: usize) {
        self.at = mark;
    }

    fn release(&mut self, _mark: usize) {}

    fn is_fatal(&self, error: &Refusal) -> bool {
        *error == Refusal::NoMemory
    }

    fn missing(&self, _name: &str) -> Refusal {
        Refusal::NotThere
    }

    fn duplicate(&self, _name: &str) -> Refusal {
        Refusal::NotThere
    }

    fn unknown_key(&self) -> Refusal {
        Refusal::NotThere
    }

    fn unknown_variant(&self) -> Refusal {
        Refusal::NotThere
    }

    fn wrong_len(&self) -> Refusal {
        Refusal::NotThere
    }

    fn invalid(&self) -> Refusal {
        Refusal::NotThere
    }

    fn no_memory(&self) -> Refusal {
        Refusal::NoMemory
    }

    fn custom(&self, _message: &str) -> Refusal {
        Refusal::NotThere
    }
}
