//! Changes of one item, by its index.
ghost use Rattle.std.specs.Prelude.{◌≡◌, ◌+◌, ◌*◌, ◌<◌, ◌≤◌, ◌↔◌, false, None, Ok, Some, IfOk, IsTrue, OnErr, OnOk, length, set};
ghost use Rattle.std.specs.List.{insert, remove};
ghost use Rattle.rpds_red_black.specs.Logarithm.{most_levels};

use crate::sequence::Sequence;
use rpds_core::size::one_more;
use rpds_core::steps::Steps;
use std::alloc::{AllocError, Allocator};

impl<T: Drop, A: Allocator + Copy> Sequence<T, A> {
    /// The sequence with the item at the index, before what stood there, or `None` where the index is above the length.
    ///
    /// The error means that there is no memory, or that there are `usize::MAX` items.
    pub fn insert(&self, index: usize, item: T) -> Result<Option<Sequence<T, A>>, AllocError>
        ensures ok { index ≤ length self.now → IfOk result (λ s. s ≡ Some (insert self.now index item)) }
        ensures out_of_range { length self.now < index → result ≡ Ok None }
    {
        self.insert_counted(index, item, &mut Steps::new())
    }

    /// [`insert`](Sequence::insert), which counts the nodes that it makes.
    pub fn insert_counted(
        &self,
        index: usize,
        item: T,
        steps: &mut Steps,
    ) -> Result<Option<Sequence<T, A>>, AllocError>
        ensures ok { index ≤ length self.now → IfOk result (λ s. s ≡ Some (insert self.now index item)) }
        ensures out_of_range { length self.now < index → result ≡ Ok None }

        ensures made { steps.new.made ≤ steps.old.made + most_levels (length self.now) + 1 }
        ensures makes { index ≤ length self.now → OnOk result (steps.old.made < steps.new.made) }
        ensures least { steps.old.made ≤ steps.new.made }
        ensures unmade { length self.now < index → steps.new ≡ steps.old }
    {
        if index > self.size {
            return Ok(None);
        }
        let mut longer = self.clone()?;
        longer.insert_mut_counted(index, item, steps)?;
        Ok(Some(longer))
    }

    /// Puts the item at the index, before what stands there, and returns whether the index is at most the length. Nodes that no
    /// other sequence shares are changed in place.
    ///
    /// The error means that there is no memory, or that there are `usize::MAX` items. It leaves the sequence as it was.
    pub fn insert_mut(&mut self, index: usize, item: T) -> Result<bool, AllocError>
        ensures found { IfOk result (λ done. IsTrue done ↔ (index ≤ length self.old)) }
        ensures ok { index ≤ length self.old → OnOk result (self.new ≡ insert self.old index item) }
        ensures err { OnErr result (self.new ≡ self.old) }
        ensures out_of_range { length self.old < index → (result ≡ Ok false) × (self.new ≡ self.old) }
    {
        self.insert_mut_counted(index, item, &mut Steps::new())
    }

    /// [`insert_mut`](Sequence::insert_mut), which counts the nodes that it makes.
    #[tactic(auto, using(crate::proofs::Items::item_rules))]
    pub fn insert_mut_counted(
        &mut self,
        index: usize,
        item: T,
        steps: &mut Steps,
    ) -> Result<bool, AllocError>
        ensures found { IfOk result (λ done. IsTrue done ↔ (index ≤ length self.old)) }
        ensures ok { index ≤ length self.old → OnOk result (self.new ≡ insert self.old index item) }
        ensures err { OnErr result (self.new ≡ self.old) }
        ensures out_of_range { length self.old < index → (result ≡ Ok false) × (self.new ≡ self.old) }

        ensures made { steps.new.made ≤ steps.old.made + most_levels (length self.old) + 1 }
        ensures makes { index ≤ length self.old → OnOk result (steps.old.made < steps.new.made) }
        ensures least { steps.old.made ≤ steps.new.made }
        ensures unmade { length self.old < index → steps.new ≡ steps.old }
    {
        if index > self.size {
            return Ok(false);
        }
        let longer = one_more(self.size)?;
        self.tree
            .insert_at(self.alloc, self.size, index, item, (), steps)?;
        self.tree.prove_sound();
        self.size = longer;
        Ok(true)
    }

    /// The sequence with the item in the place of the one at the index, or `None` where that is out of range.
    pub fn set(&self, index: usize, item: T) -> Result<Option<Sequence<T, A>>, AllocError>
        ensures ok { index < length self.now → IfOk result (λ s. s ≡ Some (set self.now index item)) }
        ensures out_of_range { length self.now ≤ index → result ≡ Ok None }
    {
        self.set_counted(index, item, &mut Steps::new())
    }

    /// [`set`](Sequence::set), which counts the nodes that it makes.
    pub fn set_counted(
        &self,
        index: usize,
        item: T,
        steps: &mut Steps,
    ) -> Result<Option<Sequence<T, A>>, AllocError>
        ensures ok { index < length self.now → IfOk result (λ s. s ≡ Some (set self.now index item)) }
        ensures out_of_range { length self.now ≤ index → result ≡ Ok None }

        ensures made { steps.new.made ≤ steps.old.made + most_levels (length self.now) + 1 }
        ensures least { steps.old.made ≤ steps.new.made }
        ensures unmade { length self.now ≤ index → steps.new ≡ steps.old }
    {
        if index >= self.size {
            return Ok(None);
        }
        let mut changed = self.clone()?;
        changed.set_mut_counted(index, item, steps)?;
        Ok(Some(changed))
    }

    /// Puts the item in the place of the one at the index, and returns whether that is in range. Nodes that no other sequence shares
    /// are changed in place.
    ///
    /// The error means a failed allocation, and leaves the sequence as it was.
    pub fn set_mut(&mut self, index: usize, item: T) -> Result<bool, AllocError>
        ensures found { IfOk result (λ done. IsTrue done ↔ (index < length self.old)) }
        ensures ok { index < length self.old → OnOk result (self.new ≡ set self.old index item) }
        ensures err { OnErr result (self.new ≡ self.old) }
        ensures out_of_range { length self.old ≤ index → (result ≡ Ok false) × (self.new ≡ self.old) }
    {
        self.set_mut_counted(index, item, &mut Steps::new())
    }

    /// [`set_mut`](Sequence::set_mut), which counts the nodes that it makes.
    #[tactic(auto, using(crate::proofs::Items::item_rules))]
    pub fn set_mut_counted(
        &mut self,
        index: usize,
        item: T,
        steps: &mut Steps,
    ) -> Result<bool, AllocError>
        ensures found { IfOk result (λ done. IsTrue done ↔ (index < length self.old)) }
        ensures ok { index < length self.old → OnOk result (self.new ≡ set self.old index item) }
        ensures err { OnErr result (self.new ≡ self.old) }
        ensures out_of_range { length self.old ≤ index → (result ≡ Ok false) × (self.new ≡ self.old) }

        ensures made { steps.new.made ≤ steps.old.made + most_levels (length self.old) + 1 }
        ensures least { steps.old.made ≤ steps.new.made }
        ensures unmade { length self.old ≤ index → steps.new ≡ steps.old }
    {
        if index >= self.size {
            return Ok(false);
        }
        self.tree
            .set_at(self.alloc, self.size, index, item, (), steps)?;
        self.tree.prove_sound();
        Ok(true)
    }

    /// The sequence without the item at the index, or `None` where that is out of range.
    pub fn remove(&self, index: usize) -> Result<Option<Sequence<T, A>>, AllocError>
        ensures ok { index < length self.now → IfOk result (λ s. s ≡ Some (remove self.now index)) }
        ensures out_of_range { length self.now ≤ index → result ≡ Ok None }
    {
        self.remove_counted(index, &mut Steps::new())
    }

    /// [`remove`](Sequence::remove), which counts the nodes that it makes.
    #[tactic(auto, using(crate::proofs::Items::item_rules))]
    pub fn remove_counted(
        &self,
        index: usize,
        steps: &mut Steps,
    ) -> Result<Option<Sequence<T, A>>, AllocError>
        ensures ok { index < length self.now → IfOk result (λ s. s ≡ Some (remove self.now index)) }
        ensures out_of_range { length self.now ≤ index → result ≡ Ok None }

        ensures made { steps.new.made ≤ steps.old.made + 4 * most_levels (length self.now) }
        ensures least { steps.old.made ≤ steps.new.made }
        ensures unmade { length self.now ≤ index → steps.new ≡ steps.old }
    {
        if index >= self.size {
            return Ok(None);
        }
        let tree = self.tree.remove_at(self.alloc, self.size, index, steps)?;
        Ok(Some(Sequence::of_tree(self.alloc, tree, self.size - 1)))
    }

    /// Takes the item at the index out, and returns whether there was one.
    ///
    /// Where another sequence shares the root, it makes the nodes that `remove` makes. Else nodes that no other sequence shares
    /// are changed in place. A shared node on the way is copied, and so are those next to it that a rotation could need. A sequence
    /// that shares no node takes no memory then.
    ///
    /// The error means a failed allocation, and leaves the sequence as it was.
    pub fn remove_mut(&mut self, index: usize) -> Result<bool, AllocError>
        ensures found { IfOk result (λ done. IsTrue done ↔ (index < length self.old)) }
        ensures ok { index < length self.old → OnOk result (self.new ≡ remove self.old index) }
        ensures err { OnErr result (self.new ≡ self.old) }
        ensures out_of_range { length self.old ≤ index → (result ≡ Ok false) × (self.new ≡ self.old) }
    {
        self.remove_mut_counted(index, &mut Steps::new())
    }

    /// [`remove_mut`](Sequence::remove_mut), which counts the nodes that it makes.
    #[tactic(auto, using(crate::proofs::Items::item_rules))]
    pub fn remove_mut_counted(
        &mut self,
        index: usize,
        steps: &mut Steps,
    ) -> Result<bool, AllocError>
        ensures found { IfOk result (λ done. IsTrue done ↔ (index < length self.old)) }
        ensures ok { index < length self.old → OnOk result (self.new ≡ remove self.old index) }
        ensures err { OnErr result (self.new ≡ self.old) }
        ensures out_of_range { length self.old ≤ index → (result ≡ Ok false) × (self.new ≡ self.old) }

        ensures made { steps.new.made ≤ steps.old.made + 4 * most_levels (length self.old) }
        ensures least { steps.old.made ≤ steps.new.made }
        ensures unmade { length self.old ≤ index → steps.new ≡ steps.old }
    {
        if index >= self.size {
            return Ok(false);
        }
        if self.tree.is_shared() {
            return self.remove_shared(index, steps);
        }
        self.tree.take_at(self.size, index, steps)?;
        self.tree.prove_sound();
        self.size -= 1;
        Ok(true)
    }

    // Puts the sequence without the item in place of this one.
    fn remove_shared(&mut self, index: usize, steps: &mut Steps) -> Result<bool, AllocError>
        ensures found { IfOk result (λ done. IsTrue done ↔ (index < length self.old)) }
        ensures ok { index < length self.old → OnOk result (self.new ≡ remove self.old index) }
        ensures err { OnErr result (self.new ≡ self.old) }

        ensures made { steps.new.made ≤ steps.old.made + 4 * most_levels (length self.old) }
        ensures least { steps.old.made ≤ steps.new.made }
    {
        match self.remove_counted(index, steps)? {
            None => Ok(false),
            Some(shorter) => {
                *self = shorter;
                Ok(true)
            }
        }
    }
}
