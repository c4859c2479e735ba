//! The item at an index, made of the one that stood there.
ghost use Rattle.std.specs.Prelude.{◌≡◌, ◌<◌, ◌≤◌, ◌↔◌, IsTrue, false, None, Ok, Some, IfOk, OnOk, OnErr, length, set, slice_get};
ghost use Rattle.std.specs.Fn.{FnOnceReturnsAt};

use crate::sequence::Sequence;
use std::alloc::{AllocError, Allocator};

impl<T: Drop, A: Allocator + Copy> Sequence<T, A> {
    /// The sequence with what `change` answers at the item in the place of it, or `None` where the index is out of range. Nothing is
    /// cloned.
    ///
    /// The error means that `change` failed or that memory ran out.
    pub fn update<F: FnOnce(&T) -> Result<T, AllocError>>(
        &self,
        index: usize,
        change: F,
    ) -> Result<Option<Sequence<T, A>>, AllocError>
        requires { F.IsAlwaysCallable change }
        ensures ok { (x : T) → slice_get self.now index ≡ Some x → IfOk result (λ s. (value : T)
            × FnOnceReturnsAt F.FnOnce change x (Ok value) × (s ≡ Some (set self.now index value))) }
        ensures out_of_range { length self.now ≤ index → result ≡ Ok None }
    {
        match self.get(index) {
            None => Ok(None),
            Some(item) => self.set(index, change(item)?),
        }
    }

    /// [`update`](Sequence::update), in place, which returns whether the index is in range. An error leaves the sequence as it was.
    pub fn update_mut<F: FnOnce(&T) -> Result<T, AllocError>>(
        &mut self,
        index: usize,
        change: F,
    ) -> Result<bool, AllocError>
        requires { F.IsAlwaysCallable change }
        ensures found { IfOk result (λ done. IsTrue done ↔ (index < length self.old)) }
        ensures ok { (x : T) → slice_get self.old index ≡ Some x → OnOk result ((value : T)
            × FnOnceReturnsAt F.FnOnce change x (Ok value) × (self.new ≡ set self.old index value)) }
        ensures err { OnErr result (self.new ≡ self.old) }
        ensures out_of_range { length self.old ≤ index → (result ≡ Ok false) × (self.new ≡ self.old) }
    {
        match self.get(index) {
            None => Ok(false),
            Some(item) => {
                let value = change(item)?;
                self.set_mut(index, value)
            }
        }
    }
}
