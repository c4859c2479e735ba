//! Changes at a position and at the end. Each copies one path from the root to a leaf.
ghost use Rattle.std.specs.Prelude.{◌≡◌, ℕ, ◌+◌, ◌-◌, ◌<◌, ◌≤◌, ◌++◌, ◌∷◌, [], Some, None, Ok, IfOk, OnOk, length, set, take};
ghost use Rattle.rpds_core.specs.Counts.{IsMadeWithin};
ghost use Rattle.rpds_vector.specs.VectorContents.{Contents};
ghost use Rattle.rpds_vector.specs.Remade.{IsRemadeBut};
ghost use Rattle.rpds_vector.specs.Width.{width};

use crate::vector::node::Node;
use crate::vector::{Vector, height_for};
use rpds_core::size::one_more;
use rpds_core::steps::Steps;
use std::alloc::{AllocError, Allocator};
use std::rc::Rc;

impl<T: Drop, A: Allocator + Copy> Vector<T, A> {
    /// The vector with the item at the index, or `None` where that is out of range.
    pub fn set(&self, index: usize, item: T) -> Result<Option<Vector<T, A>>, AllocError>
        ensures ok { index < length self.now.items
            → IfOk result (λ v. v ≡ Some (record self.now { items = set self.now.items index item })) }
        ensures out_of_range { length self.now.items ≤ index → result ≡ Ok None }
    {
        self.set_counted(index, item, &mut Steps::new())
    }

    /// `set` with counts. It makes a node for each digit of the last position in base `2^bits`.
    pub fn set_counted(
        &self,
        index: usize,
        item: T,
        steps: &mut Steps,
    ) -> Result<Option<Vector<T, A>>, AllocError>
        ensures ok { index < length self.now.items
            → IfOk result (λ v. v ≡ Some (record self.now { items = set self.now.items index item })) }
        ensures out_of_range { length self.now.items ≤ index → result ≡ Ok None }

        // One node on each level, fewer where an allocation fails, and none out of range.
        ensures made { let levels = width (length self.now.items) self.now.bits in
            index < length self.now.items → OnOk result (steps.new.made ≡ steps.old.made + levels) }
        ensures at_most { let levels = width (length self.now.items) self.now.bits in
            IsMadeWithin levels steps.old steps.new }
        ensures unmade { length self.now.items ≤ index → steps.new ≡ steps.old }
    {
        if index >= self.len {
            return Ok(None);
        }
        match &self.root {
            None => Ok(None),
            Some(root) => {
                let root: &Node<T, A> = root;
                root.prove_sound();
                let height = height_for(self.len, self.bits);
                let item = Rc::new(self.alloc, item)?;
                let changed = root.set(self.alloc, index, height, item, steps)?;
                Ok(Some(self.with_root(changed, self.len)))
            }
        }
    }

    /// The vector with the item behind its last. The error means that there is no memory, or that the vector has the greatest
    /// size.
    pub fn push_back(&self, item: T) -> Result<Vector<T, A>, AllocError>
        ensures { IfOk result (λ v. v ≡ record self.now { items = self.now.items ++ item ∷ [] }) }
    {
        self.push_back_counted(item, &mut Steps::new())
    }

    /// `push_back` with counts: a node is made for each digit of the new last position in base `2^bits`.
    pub fn push_back_counted(&self, item: T, steps: &mut Steps) -> Result<Vector<T, A>, AllocError>
        ensures ok { IfOk result (λ v.
            v ≡ record self.now { items = self.now.items ++ item ∷ [] }) }

        // One node on each level of the new vector, and fewer where an allocation fails.
        ensures made { let levels = width (length self.now.items + 1) self.now.bits in
            OnOk result (steps.new.made ≡ steps.old.made + levels) }
        ensures at_most { let levels = width (length self.now.items + 1) self.now.bits in
            IsMadeWithin levels steps.old steps.new }
    {
        let len = one_more(self.len)?;
        let item = Rc::new(self.alloc, item)?;
        let next = height_for(len, self.bits);
        match &self.root {
            None => {
                let root = Node::leaf_of_one(self.alloc, self.bits, item, steps)?;
                Ok(self.with_root(root, 1))
            }
            Some(shared) => {
                let root: &Node<T, A> = shared;
                root.prove_sound();
                let height = height_for(self.len, self.bits);
                if next > height {
                    let leaf = Node::leaf_of_one(self.alloc, self.bits, item, steps)?;
                    let higher = Node::above(self.alloc, self.bits, next - 1, shared, leaf, steps)?;
                    return Ok(self.with_root(higher, len));
                }
                let longer = root.push(self.alloc, self.len, next, item, steps)?;
                Ok(self.with_root(longer, len))
            }
        }
    }

    /// The vector without its last item, or `None` where it is empty.
    pub fn drop_last(&self) -> Result<Option<Vector<T, A>>, AllocError>
        ensures ok { let kept = take (length self.now.items - 1) self.now.items in
            0 < length self.now.items → IfOk result (λ v. v ≡ Some (record self.now { items = kept })) }
        ensures empty { self.now.items ≡ [] → result ≡ Ok None }
    {
        self.drop_last_counted(&mut Steps::new())
    }

    /// `drop_last` with counts: a node is made for each digit of the last position in base `2^bits`, but for the zeros at its
    /// end, and none where the vector becomes one level lower.
    pub fn drop_last_counted(&self, steps: &mut Steps) -> Result<Option<Vector<T, A>>, AllocError>
        ensures ok { let kept = take (length self.now.items - 1) self.now.items in
            0 < length self.now.items → IfOk result (λ v. v ≡ Some (record self.now { items = kept })) }
        ensures empty { self.now.items ≡ [] → result ≡ Ok None }

        // One node on each level that stays but the lowest in which the last item stands alone, and fewer where an allocation
        // fails. None where a level goes, for the only item, and where the vector is empty.
        ensures made { let levels = width (length self.now.items - 1) self.now.bits in
            1 < length self.now.items → OnOk result ((alone : ℕ)
            × IsRemadeBut alone self.now.bits (length self.now.items) levels steps.old steps.new) }
        ensures only_item { length self.now.items ≡ 1 → OnOk result (steps.new ≡ steps.old) }
        ensures at_most { let levels = width (length self.now.items) self.now.bits in
            IsMadeWithin levels steps.old steps.new }
        ensures unmade { self.now.items ≡ [] → steps.new ≡ steps.old }
    {
        if self.len() == 0 {
            return Ok(None);
        }
        if self.len() == 1 {
            return Ok(Some(Vector::new_with_bits(self.alloc, self.bits)));
        }
        Ok(Some(self.without_last(steps)?))
    }

    // The vector without its last item, which isn't the only one.
    fn without_last(&self, steps: &mut Steps) -> Result<Vector<T, A>, AllocError>
        requires { 1 < length self.now.items }
        ensures ok { let kept = take (length self.now.items - 1) self.now.items in
            IfOk result (λ v. v ≡ record self.now { items = kept }) }
        ensures made { let levels = width (length self.now.items - 1) self.now.bits in
            OnOk result ((alone : ℕ)
            × IsRemadeBut alone self.now.bits (length self.now.items) levels steps.old steps.new) }
        ensures at_most { let levels = width (length self.now.items) self.now.bits in
            IsMadeWithin levels steps.old steps.new }
    {
        let last = self.len - 1;
        let height = height_for(self.len, self.bits);
        let lower = height_for(last, self.bits);
        match &self.root {
            None => unreachable!(),
            Some(root) => {
                let root: &Node<T, A> = root;
                root.prove_sound();
                if lower < height {
                    // The first child holds all other items, and becomes the root.
                    let first = root.first_child()?;
                    return Ok(self.with_root(first, last));
                }
                let shorter = root.drop_last(self.alloc, last, height, steps)?;
                Ok(self.with_root(shorter, last))
            }
        }
    }
}
