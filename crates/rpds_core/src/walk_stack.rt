//! The stack of an iterator over a tree or a trie: what is still to be visited, the next one on top.
ghost use Rattle.std.specs.Prelude.{◌≡◌, ◌<◌, ◌≤◌, [], ◌∷◌, length, MatchOption, ⊤};

use std::alloc::AllocError;
use std::marker::Model;

/// A stack of at most `N` items, which lie in the value itself: it takes no memory.
///
/// An iterator makes an empty one and fills it through `&mut` where it lies, so that it isn't copied. No place is
/// written until the first push, which writes them all, so an item should be small, as a reference.
///
/// A contract sees the list of its items, the one on top first.
#[derive(Drop)]
pub struct WalkStack<X, const N: usize> {
    places: Option<[X; N]>,
    len: usize,
}

impl<X, const N: usize> Model for WalkStack<X, N> {
    ghost use Rattle.std.specs.Prelude.{List};
    ghost use Rattle.rpds_core.specs.WalkStack.{stacked, HasPlaces};

    ghost Value = { List X };

    ghost view = { λ s. stacked s.places s.len };

    ghost invariant = { λ s. HasPlaces N s.places s.len };
}

impl<X: Copy, const N: usize> WalkStack<X, N> {
    /// The empty stack. Constant.
    pub fn new() -> WalkStack<X, N>
        ensures { result ≡ [] }
    {
        WalkStack {
            places: None,
            len: 0,
        }
    }

    /// How many items there are. Constant.
    #[inline(always)]
    pub fn len(&self) -> usize
        ensures count { result ≡ length self.now }
        ensures within { result ≤ N }
    {
        self.len
    }

    /// Puts an item on top. Constant, but for the first push, which writes all `N` places.
    #[inline(always)]
    pub fn push(&mut self, item: X)
        requires { length self.old < N }
        ensures { self.new ≡ item ∷ self.old }
    {
        match &mut self.places {
            None => self.places = Some([item; N]),
            Some(places) => places[self.len] = item,
        }
        self.len += 1;
    }

    /// Takes the item on top off. Constant.
    #[inline(always)]
    pub fn pop(&mut self) -> Option<X>
        ensures { MatchOption result ((self.old ≡ []) × (self.new ≡ [])) (λ item.
            self.old ≡ item ∷ self.new) }
    {
        if self.len == 0 {
            return None;
        }
        self.len -= 1;
        match &self.places {
            None => unreachable!(),
            Some(places) => Some(places[self.len]),
        }
    }
}

impl<X: Copy, const N: usize> Clone for WalkStack<X, N> {
    ghost is_clone = { λ it copy. copy ≡ it };

    ghost is_infallible = { λ _. ⊤ };

    fn clone(&self) -> Result<WalkStack<X, N>, AllocError> {
        Ok(WalkStack {
            places: self.places,
            len: self.len,
        })
    }
}
