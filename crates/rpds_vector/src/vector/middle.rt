//! Parts of a vector, and changes in its middle. What lies before a place keeps its nodes; what lies behind it is put into new
//! leaves, item by item, and no item is cloned.
ghost use Rattle.std.specs.Prelude.{◌≡◌, ◌+◌, ◌<◌, ◌≤◌, ◌++◌, Some, None, Ok, IfOk, OnOk, OnErr, length, take, drop};
ghost use Rattle.std.specs.List.{insert, remove};
ghost use Rattle.rpds_vector.specs.VectorContents.{Contents};

use crate::vector::builder::Builder;
use crate::vector::node::Node;
use crate::vector::walk::{Forward, Walk};
use crate::vector::{Vector, height_for};
use std::alloc::{AllocError, Allocator};

impl<T: Drop, A: Allocator + Copy> Vector<T, A> {
    /// The first `count` items, or all where there are no more. It shares all nodes but those of the path to the last of
    /// them.
    pub fn take(&self, count: usize) -> Result<Vector<T, A>, AllocError>
        ensures { IfOk result (λ v. v ≡ record self.now { items = take count self.now.items }) }
    {
        if count >= self.len {
            return self.clone();
        }
        if count == 0 {
            return Ok(Vector::new_with_bits(self.alloc, self.bits));
        }
        match &self.root {
            None => self.clone(),
            Some(root) => {
                let root: &Node<T, A> = root;
                root.prove_sound();
                let height = height_for(count, self.bits);
                let lower = root.first(height_for(self.len, self.bits) - height);
                let kept = lower.take(self.alloc, count - 1, height)?;
                Ok(self.with_root(kept, count))
            }
        }
    }

    /// Drops what comes behind the first `count` items, as [`take`](Vector::take). An error leaves the items.
    pub fn truncate(&mut self, count: usize) -> Result<(), AllocError>
        ensures ok { OnOk result (self.new ≡ record self.old { items = take count self.old.items }) }
        ensures err { OnErr result (self.new ≡ self.old) }
    {
        *self = self.take(count)?;
        Ok(())
    }

    // Puts the items from an index on behind those of a builder.
    fn push_from(&self, index: usize, longer: &mut Builder<T, A>) -> Result<(), AllocError>
        ensures { OnOk result
            (longer.new ≡ record longer.old { items = longer.old.items ++ drop index self.now.items }) }
    {
        if index >= self.len {
            return Ok(());
        }
        let mut walk: Walk<'_, T, A, Forward> = Walk::over_last(self, self.len - index);
        while let Some(item) = walk.next_shared() {
            longer.push_shared(item.clone()?)?;
        }
        Ok(())
    }

    /// The vector without its first `count` items, and the empty vector where it has no more than those. The items are
    /// shared, and the nodes are made.
    pub fn skip(&self, count: usize) -> Result<Vector<T, A>, AllocError>
        ensures { IfOk result (λ v. v ≡ record self.now { items = drop count self.now.items }) }
    {
        let mut rest = Builder::new(Vector::new_with_bits(self.alloc, self.bits));
        self.push_from(count, &mut rest)?;
        rest.finish()
    }

    /// The items of this vector and then those of the other, in a vector of the bits of this one. It shares the nodes of this
    /// one and the items of the other. More items than `usize::MAX` are an error too.
    pub fn append(&self, other: &Vector<T, A>) -> Result<Vector<T, A>, AllocError>
        ensures { IfOk result (λ v. v ≡ record self.now { items = self.now.items ++ other.now.items }) }
    {
        let mut longer = Builder::new(self.clone()?);
        other.push_from(0, &mut longer)?;
        longer.finish()
    }

    /// The vector with the item at the index, before what stood there, or `None` where the index is above the length. It
    /// shares the nodes before the index and the items behind it. More items than `usize::MAX` are an error too.
    pub fn insert(&self, index: usize, item: T) -> Result<Option<Vector<T, A>>, AllocError>
        ensures ok { index ≤ length self.now.items → IfOk result (λ v.
            v ≡ Some (record self.now { items = insert self.now.items index item })) }
        ensures out_of_range { length self.now.items < index → result ≡ Ok None }
    {
        if index > self.len {
            return Ok(None);
        }
        let mut longer = Builder::new(self.take(index)?);
        longer.push(item)?;
        self.push_from(index, &mut longer)?;
        Ok(Some(longer.finish()?))
    }

    /// The vector without the item at the index, or `None` where that is out of range. It shares the nodes before the index
    /// and the items behind it.
    #[tactic(auto, using(crate::proofs::TakeRoot::remove_is))]
    pub fn remove(&self, index: usize) -> Result<Option<Vector<T, A>>, AllocError>
        ensures ok { index < length self.now.items → IfOk result (λ v.
            v ≡ Some (record self.now { items = remove self.now.items index })) }
        ensures out_of_range { length self.now.items ≤ index → result ≡ Ok None }
    {
        if index >= self.len {
            return Ok(None);
        }
        let mut shorter = Builder::new(self.take(index)?);
        self.push_from(index + 1, &mut shorter)?;
        Ok(Some(shorter.finish()?))
    }
}
