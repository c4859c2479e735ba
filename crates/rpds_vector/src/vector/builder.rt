//! A vector that grows by whole leaves.
ghost use Rattle.std.specs.Prelude.{◌≡◌, ◌+◌, ◌<◌, ◌++◌, ◌∷◌, [], IfOk, OnOk, length};

use crate::vector::Vector;
use std::alloc::{AllocError, Allocator};
use std::marker::Model;
use std::mem;
use std::rc::Rc;

// The items that came last wait in a leaf of their own, until that is full.
#[derive(Drop)]
pub(crate) struct Builder<T, A: Allocator> {
    vector: Vector<T, A>,
    leaf: Vec<Rc<T, A>, A>,
    alloc: A,
}

impl<T, A: Allocator> Model for Builder<T, A> {
    ghost use Rattle.rpds_vector.specs.VectorContents.{Contents};
    ghost use Rattle.rpds_vector.specs.Builder.{with_leaf, IsBuilding};

    ghost Value = { Contents T };

    ghost view = { λ b. with_leaf b.vector b.leaf.items };

    ghost invariant = { λ b. IsBuilding b.vector b.leaf.items };
}

impl<T: Drop, A: Allocator + Copy> Builder<T, A> {
    pub(crate) fn new(vector: Vector<T, A>) -> Builder<T, A>
        ensures { result ≡ vector }
    {
        let alloc = vector.alloc;
        let leaf = Vec::new(alloc);
        Builder {
            vector,
            leaf,
            alloc,
        }
    }

    // Puts the item behind the last: into the vector's last leaf, where that isn't full.
    pub(crate) fn push(&mut self, item: T) -> Result<(), AllocError>
        ensures { OnOk result (self.new ≡ record self.old { items = self.old.items ++ item ∷ [] }) }
    {
        let item = Rc::new(self.alloc, item)?;
        self.push_shared(item)
    }

    // The item may have owners besides this vector.
    #[inline(always)]
    pub(crate) fn push_shared(&mut self, item: Rc<T, A>) -> Result<(), AllocError>
        ensures { OnOk result
            (self.new ≡ record self.old { items = self.old.items ++ item.value ∷ [] }) }
    {
        if !self.vector.has_full_leaves() {
            return self.vector.push_item(item);
        }
        self.leaf.push(item)?;
        if self.leaf.len() < self.vector.leaf_room() {
            return Ok(());
        }
        let leaf = mem::replace(&mut self.leaf, Vec::new(self.alloc));
        self.vector.push_leaf(leaf)
    }

    // The vector with all items.
    pub(crate) fn finish(self) -> Result<Vector<T, A>, AllocError>
        ensures { IfOk result (λ v. v ≡ self) }
    {
        let Builder {
            mut vector,
            leaf,
            ..
        } = self;
        if !leaf.is_empty() {
            vector.push_leaf(leaf)?;
        }
        Ok(vector)
    }
}
