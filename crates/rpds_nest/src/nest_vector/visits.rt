//! Calls of a closure on the items, in order. A recursion of the caller's own type may go through them.
ghost use Rattle.std.specs.Prelude.{◌≡◌, Bool, Contains};
ghost use Rattle.std.specs.Borrow.{Bor};
ghost use Rattle.std.specs.List.{fold, list_any, list_all};

use crate::nest_vector::NestVector;
use std::alloc::Allocator;

impl<T, A: Allocator> NestVector<T, A> {
    /// Whether the test holds for an item. It stops at the first such item.
    pub fn any<F: Fn(&T) -> bool>(&self, test: F) -> bool
        requires { (x : _) → Contains self.now x.now → F.pre test x }
        ensures { (holds : T → Bool) → ((x : Bor T) (r : Bool) → F.post test x r → r ≡ holds x.now)
            → result ≡ list_any holds self.now }
    {
        for index in 0..self.len() {
            if test(self.item(index)) {
                return true;
            }
        }
        false
    }

    /// Whether the test holds for each item. It stops at the first for which it doesn't.
    pub fn all<F: Fn(&T) -> bool>(&self, test: F) -> bool
        requires { (x : _) → Contains self.now x.now → F.pre test x }
        ensures { (holds : T → Bool) → ((x : Bor T) (r : Bool) → F.post test x r → r ≡ holds x.now)
            → result ≡ list_all holds self.now }
    {
        for index in 0..self.len() {
            if !test(self.item(index)) {
                return false;
            }
        }
        true
    }

    /// The result of the last step. Each step takes an item, in order: the first takes `start` too, a later one the result before.
    pub fn fold<R, F: Fn(R, &T) -> R>(&self, start: R, step: F) -> R
        requires { (value : R) (x : _) → Contains self.now x.now → F.pre step value x }
        ensures { (f : R → T → R) → ((value : R) (x : Bor T) (r : R) → F.post step value x r → r ≡ f value x.now)
            → result ≡ fold f start self.now }
    {
        let mut value = start;
        for index in 0..self.len() {
            value = step(value, self.item(index));
        }
        value
    }
}
