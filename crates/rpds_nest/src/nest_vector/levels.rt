//! What a level has in common with no level: a list of items, whose length is passed along.
ghost use Rattle.std.specs.Prelude.{◌≡◌, ◌<◌, ◌-◌, ◌++◌, ◌∷◌, [], Some, List, IfOk, OnOk, OnErr, length, set, take};
ghost use Rattle.std.specs.List.{slice_get};

use std::alloc::{AllocError, Allocator};
use std::rc::Rc;

pub(crate) trait Levels<T> {
    ghost items: { Self → List T };

    ghost IsSound: { Self → Type 0 };

    // The item at an index.
    fn get(&self, index: usize, len: usize) -> &T
        requires sound { IsSound self.now }
        requires counted { len ≡ length (items self.now) }
        requires inside { index < len }
        ensures { slice_get (items self.now) index ≡ Some result.now };
}

// An error of a change means that there is no room or no memory, and leaves the items as they were.
pub(crate) trait ChangeLevels<T, A: Allocator>: Levels<T> + Sized {
    fn new(alloc: A) -> Self
        ensures items { Self.items result ≡ [] }
        ensures sound { Self.IsSound result };

    // A copy, which shares all rows but the last of each level.
    fn copied(&self, alloc: A) -> Result<Self, AllocError>
        requires { Self.IsSound self.now }
        ensures items { IfOk result (λ copy. Self.items copy ≡ Self.items self.now) }
        ensures sound { IfOk result (λ copy. Self.IsSound copy) };

    // Puts the item behind the last.
    fn push(&mut self, alloc: A, item: &Rc<T, A>) -> Result<(), AllocError>
        requires { Self.IsSound self.old }
        ensures ok { OnOk result (Self.items self.new ≡ Self.items self.old ++ item.now.value ∷ []) }
        ensures err { OnErr result (Self.items self.new ≡ Self.items self.old) }
        ensures sound { Self.IsSound self.new };

    // Puts the item at the index.
    fn set(&mut self, alloc: A, index: usize, len: usize, item: &Rc<T, A>) -> Result<(), AllocError>
        requires sound { Self.IsSound self.old }
        requires counted { len ≡ length (Self.items self.old) }
        requires inside { index < len }
        ensures ok { OnOk result (Self.items self.new ≡ set (Self.items self.old) index item.now.value) }
        ensures err { OnErr result (Self.items self.new ≡ Self.items self.old) }
        ensures sound { Self.IsSound self.new };

    // Takes the last item away.
    fn drop_last(&mut self, alloc: A, len: usize) -> Result<(), AllocError>
        requires sound { Self.IsSound self.old }
        requires counted { len ≡ length (Self.items self.old) }
        requires some { 0 < len }
        ensures ok { OnOk result (Self.items self.new ≡ take (len - 1) (Self.items self.old)) }
        ensures err { OnErr result (Self.items self.new ≡ Self.items self.old) }
        ensures sound { Self.IsSound self.new };
}
