//! Changes in place. All memory is allocated before the first change, so an error leaves the vector as it was.
ghost use Rattle.std.specs.Prelude.{◌≡◌, ◌-◌, ◌<◌, ◌≤◌, ◌++◌, ◌∷◌, [], Ok, false, IfOk, OnOk, OnErr, IsTrue, ◌↔◌, length, set, take};

use crate::nest_vector::NestVector;
use crate::nest_vector::levels::ChangeLevels;
use rpds_core::size::one_more;
use std::alloc::{AllocError, Allocator};
use std::rc::Rc;

impl<T: Drop, A: Allocator + Copy> NestVector<T, A> {
    /// Puts the item behind the last.
    ///
    /// The error means that there is no room, behind a little more than 2^30 items, or a failed allocation. It leaves the
    /// vector as it was.
    pub fn push_back_mut(&mut self, item: T) -> Result<(), AllocError>
        ensures ok { OnOk result (self.new ≡ self.old ++ item ∷ []) }
        ensures err { OnErr result (self.new ≡ self.old) }
    {
        let longer = one_more(self.len)?;
        let alloc = self.alloc;
        let item = Rc::new(alloc, item)?;
        self.tower.push(alloc, &item)?;
        self.len = longer;
        Ok(())
    }

    /// Puts the item at the index, and returns whether that is in range.
    ///
    /// The error means a failed allocation or a reference count overflow, and leaves the vector as it was.
    pub fn set_mut(&mut self, index: usize, item: T) -> Result<bool, AllocError>
        ensures found { IfOk result (λ done. IsTrue done ↔ (index < length self.old)) }
        ensures ok { index < length self.old → OnOk result (self.new ≡ set self.old index item) }
        ensures err { OnErr result (self.new ≡ self.old) }
        ensures out_of_range { length self.old ≤ index → (result ≡ Ok false) × (self.new ≡ self.old) }
    {
        if index >= self.len {
            return Ok(false);
        }
        let alloc = self.alloc;
        let item = Rc::new(alloc, item)?;
        self.tower.set(alloc, index, self.len, &item)?;
        Ok(true)
    }

    /// Takes the last item away, and returns whether there was one.
    ///
    /// The error means a failed allocation or a reference count overflow, and leaves the vector as it was.
    pub fn drop_last_mut(&mut self) -> Result<bool, AllocError>
        ensures found { IfOk result (λ dropped. IsTrue dropped ↔ (0 < length self.old)) }
        ensures ok { OnOk result (self.new ≡ take (length self.old - 1) self.old) }
        ensures err { OnErr result (self.new ≡ self.old) }
        ensures empty { self.old ≡ [] → (result ≡ Ok false) × (self.new ≡ self.old) }
    {
        if self.len == 0 {
            return Ok(false);
        }
        self.tower.drop_last(self.alloc, self.len)?;
        self.len -= 1;
        Ok(true)
    }
}
