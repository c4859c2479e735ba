//! Changes in place. Each goes down once, and copies those nodes alone that another version shares. All memory is allocated
//! before the first change.
ghost use Rattle.std.specs.Prelude.{◌≡◌, ℕ, ◌+◌, ◌-◌, ◌<◌, ◌≤◌, ◌^◌, ◌%◌, ◌++◌, ◌∷◌, [], Ok, IfOk, OnOk, OnErr, IsTrue, false, ◌↔◌, length, set, take};
ghost use Rattle.rpds_core.specs.Rows.{behind};
ghost use Rattle.rpds_vector.specs.VectorContents.{Contents};
ghost use Rattle.rpds_vector.specs.Trie.{IsLeaf};

use crate::vector::node::{Kind, Node, bucket};
use crate::vector::unique::make_unique;
use crate::vector::{Vector, height_for};
use rpds_core::size::{one_more, total};
use rpds_core::steps::Steps;
use std::alloc::{AllocError, Allocator};
use std::rc::Rc;

impl<T: Drop, A: Allocator + Copy> Vector<T, A> {
    /// Puts the item at the index, and returns whether that is in range. It takes O(log n) steps, and copies the nodes of its
    /// path that are shared.
    ///
    /// The error means a failed allocation, and leaves the vector as it was.
    pub fn set_mut(&mut self, index: usize, item: T) -> Result<bool, AllocError>
        ensures found { IfOk result (λ done. IsTrue done ↔ (index < length self.old.items)) }
        ensures ok { index < length self.old.items
            → OnOk result (self.new ≡ record self.old { items = set self.old.items index item }) }
        ensures err { OnErr result (self.new ≡ self.old) }
        ensures out_of_range { length self.old.items ≤ index → (result ≡ Ok false) × (self.new ≡ self.old) }
    {
        if index >= self.len {
            return Ok(false);
        }
        let height = height_for(self.len, self.bits);
        let alloc = self.alloc;
        match &mut self.root {
            None => Ok(false),
            Some(root) => {
                let item = Rc::new(alloc, item)?;
                let root = make_unique(root)?;
                root.prove_sound();
                root.set_mut(index, height, item)?;
                Ok(true)
            }
        }
    }

    // How many items a leaf has room for.
    pub(crate) fn leaf_room(&self) -> usize
        ensures { result ≡ 2 ^ self.now.bits }
    {
        1 << self.bits
    }

    // Whether all leaves are full.
    pub(crate) fn has_full_leaves(&self) -> bool
        ensures { IsTrue result ↔ (length self.now.items % 2 ^ self.now.bits ≡ 0) }
    {
        bucket(self.len, 0, self.bits) == 0
    }

    // Puts a leaf of these items, full or not, behind the last leaf, where all leaves are full.
    pub(crate) fn push_leaf(&mut self, items: Vec<Rc<T, A>, A>) -> Result<(), AllocError>
        requires whole { length self.old.items % 2 ^ self.old.bits ≡ 0 }
        requires leaf { IsLeaf self.old.bits (behind items.items) }
        ensures ok { OnOk result
            (self.new ≡ record self.old { items = self.old.items ++ behind items.items }) }
        ensures err { OnErr result (self.new ≡ self.old) }
    {
        let alloc = self.alloc;
        let bits = self.bits;
        let len = self.len;
        let longer = total(len, items.len())?;
        let leaf = Node::new(alloc, bits, Kind::Leaf(items), &mut Steps::new())?;
        match &mut self.root {
            None => self.root = Some(leaf),
            Some(root) => {
                root.prove_sound();
                let height = height_for(len, bits);
                let next = height_for(len + 1, bits);
                if next > height {
                    *root = Node::above(alloc, bits, height, root, leaf, &mut Steps::new())?;
                } else {
                    make_unique(root)?.push_leaf(alloc, len, height, leaf)?;
                }
            }
        }
        self.len = longer;
        Ok(())
    }

    // Puts the item into the last leaf, which isn't full.
    pub(crate) fn push_item(&mut self, item: Rc<T, A>) -> Result<(), AllocError>
        requires { 0 < length self.old.items % 2 ^ self.old.bits }
        ensures ok { OnOk result
            (self.new ≡ record self.old { items = self.old.items ++ item.value ∷ [] }) }
        ensures err { OnErr result (self.new ≡ self.old) }
    {
        one_more(self.len)?;
        match &mut self.root {
            // An empty vector has full leaves.
            None => Ok(()),
            Some(root) => {
                make_unique(root)?.push_item(item)?;
                self.len += 1;
                Ok(())
            }
        }
    }

    // How many items the last leaf has room for, or a new one where all leaves are full.
    pub(crate) fn room(&self) -> usize
        ensures { result + length self.now.items % 2 ^ self.now.bits ≡ 2 ^ self.now.bits }
    {
        self.leaf_room() - bucket(self.len, 0, self.bits)
    }

    // Puts the items into the last leaf, or into a new one where all leaves are full.
    pub(crate) fn push_row(&mut self, row: Vec<Rc<T, A>, A>) -> Result<(), AllocError>
        requires { length (behind row.items) + length self.old.items % 2 ^ self.old.bits ≤ 2 ^ self.old.bits }
        ensures ok { OnOk result
            (self.new ≡ record self.old { items = self.old.items ++ behind row.items }) }
        ensures err { OnErr result (self.new ≡ self.old) }
    {
        if row.is_empty() {
            return Ok(());
        }
        if self.has_full_leaves() {
            return self.push_leaf(row);
        }
        let longer = total(self.len, row.len())?;
        match &mut self.root {
            // An empty vector has full leaves.
            None => Ok(()),
            Some(root) => {
                make_unique(root)?.push_row(row)?;
                self.len = longer;
                Ok(())
            }
        }
    }

    /// Puts the item behind the last, in O(log n) steps. It copies the nodes of the path to the end that are shared.
    ///
    /// The error means that there is no memory, or that the vector has the greatest size. It leaves the vector as it was.
    pub fn push_back_mut(&mut self, item: T) -> Result<(), AllocError>
        ensures ok { OnOk result
            (self.new ≡ record self.old { items = self.old.items ++ item ∷ [] }) }
        ensures err { OnErr result (self.new ≡ self.old) }
    {
        let item = Rc::new(self.alloc, item)?;
        if self.has_full_leaves() {
            let mut items = Vec::new(self.alloc);
            items.push(item)?;
            return self.push_leaf(items);
        }
        self.push_item(item)
    }

    /// Drops all items, but for those that another vector shares. It allocates nothing.
    #[inline(always)]
    pub fn clear(&mut self)
        ensures { self.new ≡ record self.old { items = [] } }
    {
        self.root = None;
        self.len = 0;
    }

    /// Takes the last item away, in O(log n) steps, and returns whether there was one. It copies the nodes of the path to the
    /// end that are shared.
    ///
    /// The error means a failed allocation or a reference count overflow, and leaves the vector as it was.
    pub fn drop_last_mut(&mut self) -> Result<bool, AllocError>
        ensures found { IfOk result (λ dropped. IsTrue dropped ↔ (0 < length self.old.items)) }
        ensures ok { let kept = take (length self.old.items - 1) self.old.items in
            OnOk result (self.new ≡ record self.old { items = kept }) }
        ensures err { OnErr result (self.new ≡ self.old) }
        ensures empty { self.old.items ≡ [] → (result ≡ Ok false) × (self.new ≡ self.old) }
    {
        if self.len <= 1 {
            let some = self.len == 1;
            self.clear();
            return Ok(some);
        }
        let last = self.len - 1;
        let height = height_for(self.len, self.bits);
        let lower = height_for(last, self.bits);
        match &mut self.root {
            None => Ok(false),
            Some(root) => {
                root.prove_sound();
                if lower < height {
                    // The first child holds all other items, and becomes the root.
                    *root = root.first_child()?;
                } else {
                    make_unique(root)?.drop_last_mut(last, height)?;
                }
                self.len -= 1;
                Ok(true)
            }
        }
    }
}
