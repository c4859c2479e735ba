//! A vector of what an iterator gives.
ghost use Rattle.std.specs.Prelude.{◌≡◌, ◌≤◌, ◌++◌, List, Some, length, IfOk, IfSome, OnOk, OnErr};
ghost use Rattle.std.specs.Iterator.{Drains, IsFinite, YieldsThen};
ghost use Rattle.rpds_core.specs.Rows.{behind};

use crate::vector::Vector;
use crate::vector::builder::Builder;
use std::alloc::{AllocError, Allocator};
use std::rc::Rc;

// Puts the item at hand and those that come behind it into a row, up to `most` in all. Hands out the first that has no room
// there, if one comes.
fn gather<T: Drop, A: Allocator + Copy, I: Iterator<Item = T>>(
    alloc: A,
    row: &mut Vec<Rc<T, A>, A>,
    at_hand: T,
    items: &mut I,
    most: usize,
) -> Result<Option<T>, AllocError>
    requires can { I.can_next items.old }
    requires ends { IsFinite (I.remaining items.old) }
    requires room { length (behind row.old.items) ≤ most }
    ensures items { IfOk result (λ next. (before : I) → I.next_gives before (Some at_hand) items.old → (more : List T)
        × (behind row.new.items ≡ behind row.old.items ++ more) × YieldsThen I.next_gives before more next items.new) }
    ensures most { IfOk result (λ _. length (behind row.new.items) ≤ most) }
    ensures ends { IfOk result (λ next. IfSome next (λ _.
        I.can_next items.new × IsFinite (I.remaining items.new))) }
{
    let mut item = at_hand;
    while row.len() < most {
        row.push(Rc::new(alloc, item)?)?;
        match items.next() {
            Some(next) => item = next,
            None => return Ok(None),
        }
    }
    Ok(Some(item))
}

impl<T: Drop, A: Allocator + Copy> Vector<T, A> {
    /// A vector of 5 bits that has the items in the order in which they come.
    pub fn from_iter<I: IntoIterator<Item = T>>(
        alloc: A,
        iter: I,
    ) -> Result<Vector<T, A>, AllocError>
        requires ends { (it : I.IntoIter) → I.into_iter_gives iter it
            → I.IntoIter.can_next it × IsFinite (I.IntoIter.remaining it) }
        ensures items { IfOk result (λ v. (it : I.IntoIter)
            × I.into_iter_gives iter it × Drains I.IntoIter.next_gives it v.items) }
        ensures bits { IfOk result (λ v. v.bits ≡ 5) }
    {
        let mut vector = Vector::new(alloc);
        vector.extend(iter)?;
        Ok(vector)
    }

    /// A vector of 5 bits that has the items of the array in their order.
    ///
    /// It costs what [`from_iter`](Vector::from_iter) costs, and one allocation for the array. The error means that memory ran
    /// out, and drops the items.
    pub fn from_array<const N: usize>(alloc: A, items: [T; N]) -> Result<Vector<T, A>, AllocError>
        ensures items { IfOk result (λ v. v.items ≡ items) }
        ensures bits { IfOk result (λ v. v.bits ≡ 5) }
    {
        match Vec::from_array(alloc, items) {
            Ok(items) => Vector::from_items(alloc, items),
            Err(refused) => Err(AllocError::from(refused)),
        }
    }

    // The items of a buffer in their order.
    fn from_items(alloc: A, items: Vec<T, A>) -> Result<Vector<T, A>, AllocError>
        ensures items { IfOk result (λ v. v.items ≡ items.items) }
        ensures bits { IfOk result (λ v. v.bits ≡ 5) }
    {
        let mut vector = Builder::new(Vector::new(alloc));
        for item in items {
            vector.push(item)?;
        }
        vector.finish()
    }

    /// Puts the items behind the last, in the order in which they come. Those that the last leaf has room for are put there at
    /// once, and each further leaf is made before it goes into the vector.
    ///
    /// Where an allocation fails, the vector is as it was: where more come than the last leaf has room for, they go onto a
    /// clone, which takes the vector's place at the end. More items than `usize::MAX` are an error too.
    pub fn extend<I: IntoIterator<Item = T>>(&mut self, iter: I) -> Result<(), AllocError>
        requires ends { (it : I.IntoIter) → I.into_iter_gives iter it
            → I.IntoIter.can_next it × IsFinite (I.IntoIter.remaining it) }
        ensures ok { OnOk result ((it : I.IntoIter) × (more : List T)
            × I.into_iter_gives iter it × Drains I.IntoIter.next_gives it more
            × (self.new ≡ record self.old { items = self.old.items ++ more })) }
        ensures err { OnErr result (self.new ≡ self.old) }
    {
        let mut items = iter.into_iter();
        let Some(first) = items.next() else {
            return Ok(());
        };
        let Some(second) = items.next() else {
            return self.push_back_mut(first);
        };
        let mut row = Vec::new(self.alloc);
        row.push(Rc::new(self.alloc, first)?)?;
        let Some(item) = gather(self.alloc, &mut row, second, &mut items, self.room())? else {
            return self.push_row(row);
        };
        let mut longer = self.clone()?;
        longer.push_row(row)?;
        let mut longer = Builder::new(longer);
        longer.push(item)?;
        for item in items {
            longer.push(item)?;
        }
        *self = longer.finish()?;
        Ok(())
    }
}
