//! A vector of what an iterator gives.
ghost use Rattle.std.specs.Prelude.{◌≡◌, ◌++◌, List, IfOk, OnOk, OnErr};
ghost use Rattle.std.specs.Iterator.{Drains, IsFinite};

use crate::nest_vector::NestVector;
use std::alloc::{AllocError, Allocator};

impl<T: Drop, A: Allocator + Copy> NestVector<T, A> {
    /// A vector that has the items in the order in which they come.
    pub fn from_iter<I: IntoIterator<Item = T>>(
        alloc: A,
        iter: I,
    ) -> Result<NestVector<T, A>, AllocError>
        requires ends { (it : I.IntoIter) → I.into_iter_gives iter it
            → I.IntoIter.can_next it × IsFinite (I.IntoIter.remaining it) }
        ensures { IfOk result (λ v. (it : I.IntoIter)
            × I.into_iter_gives iter it × Drains I.IntoIter.next_gives it v) }
    {
        let mut vector = NestVector::new(alloc);
        vector.extend(iter)?;
        Ok(vector)
    }

    /// A vector that has the items of the array in their order.
    ///
    /// It costs what [`from_iter`](NestVector::from_iter) costs, and one allocation for the array. The error means that memory ran
    /// out, and drops the items.
    pub fn from_array<const N: usize>(
        alloc: A,
        items: [T; N],
    ) -> Result<NestVector<T, A>, AllocError>
        ensures { IfOk result (λ v. v ≡ items) }
    {
        match Vec::from_array(alloc, items) {
            Ok(items) => NestVector::from_items(alloc, items),
            Err(refused) => Err(AllocError::from(refused)),
        }
    }

    // The items of a buffer in their order.
    fn from_items(alloc: A, items: Vec<T, A>) -> Result<NestVector<T, A>, AllocError>
        ensures { IfOk result (λ v. v ≡ items.items) }
    {
        let mut vector = NestVector::new(alloc);
        for item in items {
            vector.push_back_mut(item)?;
        }
        Ok(vector)
    }

    /// Puts the items behind the last, in the order in which they come.
    ///
    /// The items go onto a clone, which takes the vector's place at the end: where an allocation fails or there is no room,
    /// the vector is as it was.
    pub fn extend<I: IntoIterator<Item = T>>(&mut self, iter: I) -> Result<(), AllocError>
        requires ends { (it : I.IntoIter) → I.into_iter_gives iter it
            → I.IntoIter.can_next it × IsFinite (I.IntoIter.remaining it) }
        ensures ok { OnOk result ((it : I.IntoIter) × (more : List T)
            × I.into_iter_gives iter it × Drains I.IntoIter.next_gives it more
            × (self.new ≡ self.old ++ more)) }
        ensures err { OnErr result (self.new ≡ self.old) }
    {
        let items = iter.into_iter();
        let mut longer = self.clone()?;
        for item in items {
            longer.push_back_mut(item)?;
        }
        *self = longer;
        Ok(())
    }
}
