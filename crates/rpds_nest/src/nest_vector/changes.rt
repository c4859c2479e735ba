//! Changes that return a new vector.
ghost use Rattle.std.specs.Prelude.{◌≡◌, ◌-◌, ◌<◌, ◌≤◌, ◌++◌, ◌∷◌, [], Some, None, Ok, IfOk, length, set, take};

use crate::nest_vector::NestVector;
use std::alloc::{AllocError, Allocator};

impl<T: Drop, A: Allocator + Copy> NestVector<T, A> {
    /// The vector with the item at the index, or `None` where that is out of range.
    pub fn set(&self, index: usize, item: T) -> Result<Option<NestVector<T, A>>, AllocError>
        ensures ok { index < length self.now → IfOk result (λ v. v ≡ Some (set self.now index item)) }
        ensures out_of_range { length self.now ≤ index → result ≡ Ok None }
    {
        if index >= self.len() {
            return Ok(None);
        }
        let mut changed = self.clone()?;
        changed.set_mut(index, item)?;
        Ok(Some(changed))
    }

    /// The vector with the item behind its last. The error means that there is no room, behind a little more
    /// than 2^30 items, or a failed allocation.
    pub fn push_back(&self, item: T) -> Result<NestVector<T, A>, AllocError>
        ensures { IfOk result (λ v. v ≡ self.now ++ item ∷ []) }
    {
        let mut longer = self.clone()?;
        longer.push_back_mut(item)?;
        Ok(longer)
    }

    /// The vector without its last item, or `None` where it is empty.
    pub fn drop_last(&self) -> Result<Option<NestVector<T, A>>, AllocError>
        ensures ok { let kept = take (length self.now - 1) self.now in
            0 < length self.now → IfOk result (λ v. v ≡ Some kept) }
        ensures empty { self.now ≡ [] → result ≡ Ok None }
    {
        if self.is_empty() {
            return Ok(None);
        }
        let mut shorter = self.clone()?;
        shorter.drop_last_mut()?;
        Ok(Some(shorter))
    }
}
