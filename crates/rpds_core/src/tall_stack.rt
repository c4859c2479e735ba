//! The stack of an iterator over a tree that may be tall: a `WalkStack` that is begun cheaply.
ghost use Rattle.std.specs.Prelude.{◌≡◌, ◌<◌, [], ◌∷◌, length, MatchOption, ⊤};

use crate::walk_stack::WalkStack;
use std::alloc::AllocError;
use std::marker::Model;

/// A stack of at most `N` items, in two parts, which both lie in the value itself: it takes no memory.
///
/// The first push writes the 12 places of the low part. The `N` places of the high part are written when a push finds the low
/// part full, which happens in tall trees alone.
///
/// A contract sees the list of its items, the one on top first.
#[derive(Drop)]
pub struct TallStack<X, const N: usize> {
    low: WalkStack<X, 12>,
    high: WalkStack<X, N>,
}

impl<X, const N: usize> Model for TallStack<X, N> {
    ghost use Rattle.std.specs.Prelude.{List, ◌++◌};
    ghost use Rattle.rpds_core.specs.WalkStack.{IsFilled};

    ghost Value = { List X };

    ghost view = { λ s. s.high ++ s.low };

    ghost invariant = { λ s. IsFilled 12 s.low s.high };
}

impl<X: Copy, const N: usize> TallStack<X, N> {
    /// The empty stack. Constant.
    pub fn new() -> TallStack<X, N>
        ensures { result ≡ [] }
    {
        TallStack {
            low: WalkStack::new(),
            high: WalkStack::new(),
        }
    }

    /// Puts an item on top. Constant, but for the first push of each part, which writes all its places.
    #[inline(always)]
    pub fn push(&mut self, item: X)
        requires { length self.old < N }
        ensures { self.new ≡ item ∷ self.old }
    {
        if self.low.len() < 12 {
            self.low.push(item);
        } else {
            self.high.push(item);
        }
    }

    /// Takes the item on top off. Constant.
    #[inline(always)]
    pub fn pop(&mut self) -> Option<X>
        ensures { MatchOption result ((self.old ≡ []) × (self.new ≡ [])) (λ item.
            self.old ≡ item ∷ self.new) }
    {
        if self.high.len() == 0 {
            self.low.pop()
        } else {
            self.high.pop()
        }
    }
}

impl<X: Copy, const N: usize> Clone for TallStack<X, N> {
    ghost is_clone = { λ it copy. copy ≡ it };

    ghost is_infallible = { λ _. ⊤ };

    fn clone(&self) -> Result<TallStack<X, N>, AllocError> {
        Ok(TallStack {
            low: self.low.clone()?,
            high: self.high.clone()?,
        })
    }
}
