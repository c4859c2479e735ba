//! What is kept of a line that comes in pieces.
ghost use Rattle.std.specs.Prelude.{◌≡◌, ◌<◌, ◌↔◌, ℕ, List, [], ◌++◌, length, IfOk, OnOk, OnErr, IsTrue, true};
ghost use Rattle.rpds_lines.specs.Kept.{begins_list, IsTooLong, StandsFor};
ghost use Rattle.rpds_lines.specs.Lines.{LacksLineFeed};

use std::alloc::{AllocError, Allocator};
use std::marker::Model;

// More bytes than any line of the grammar has, but for those with items to their end.
const LIMIT: usize = 128;

/// The bytes that are kept of a line of which more is to come: all of them, or the first 128 where no line of the grammar
/// begins so.
#[derive(Drop)]
pub struct Line<A: Allocator> {
    kept: Vec<u8, A>,
}

impl<A: Allocator> Model for Line<A> {
    ghost use Rattle.std.specs.Prelude.{List, ℕ, ◌≤◌};
    ghost use Rattle.std.specs.Vec.{vec_capacity};
    ghost use Rattle.rpds_lines.specs.Kept.{IsBounded};

    ghost Value = { List ℕ };

    ghost view = { λ line. line.kept.items };

    ghost invariant = { λ line. (128 ≤ vec_capacity line.kept) × IsBounded line.kept.items };
}

impl<A: Allocator> Line<A> {
    /// No bytes, with the capacity for a line that has no items to its end.
    pub fn new(alloc: A) -> Result<Line<A>, AllocError>
        ensures { IfOk result (λ line. line ≡ []) }
    {
        Ok(Line {
            kept: Vec::with_capacity(alloc, LIMIT)?,
        })
    }

    pub fn is_empty(&self) -> bool
        ensures { IsTrue result ↔ self.now ≡ [] }
    {
        self.kept.is_empty()
    }

    pub fn as_slice(&self) -> &[u8]
        ensures { result.now ≡ self.now }
    {
        self.kept.as_slice()
    }

    /// Forgets the line, and keeps its capacity.
    pub fn clear(&mut self)
        ensures { self.new ≡ [] }
    {
        self.kept.clear();
    }

    /// Puts the bytes at the end of the line. Where it is already too long for a request, they are dropped.
    ///
    /// Memory is asked for, and may be refused, only where the line may have items to its end, and is longer than another
    /// can be.
    pub fn push(&mut self, bytes: &[u8]) -> Result<(), AllocError>
        requires { LacksLineFeed bytes.now }
        ensures kept { OnOk result ((line : List ℕ) → StandsFor self.old line
            → StandsFor self.new (line ++ bytes.now)) }
        ensures memory { OnErr result ((127 < length (self.old ++ bytes.now))
            × (begins_list (self.old ++ bytes.now) ≡ true)) }
    {
        let free = LIMIT.saturating_sub(self.kept.len());
        let (start, rest) = bytes.split_at(bytes.len().min(free));
        self.kept.extend_from_slice(start)?;
        if is_too_long(self.kept.as_slice()) {
            return Ok(());
        }
        self.kept.extend_from_slice(rest)
    }
}

// No line of the grammar begins with these bytes.
fn is_too_long(bytes: &[u8]) -> bool
    ensures { IsTrue result ↔ IsTooLong bytes.now }
{
    bytes.len() >= LIMIT && !bytes.starts_with(b"extend ") && !bytes.starts_with(b"sorted ")
}
