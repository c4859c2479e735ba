//! A sequence of a list, of what an iterator gives, or of another one's items from the last to the first.
ghost use Rattle.std.specs.Prelude.{◌≡◌, ◌++◌, List, IfOk, OnOk, OnErr, reverse};
ghost use Rattle.std.specs.Iterator.{Drains, IsFinite};

use crate::sequence::Sequence;
use rpds_core::map::entry::Entry;
use rpds_core::steps::Steps;
use rpds_red_black::tree::Tree;
use rpds_red_black::walk::{Backward, Walk};
use std::alloc::{AllocError, Allocator};
use std::rc::Rc;

impl<T: Drop, A: Allocator + Copy> Sequence<T, A> {
    /// The sequence of the items of a `Vec`. Each node is made once, and the tree is as shallow as can be.
    pub fn from_vec(alloc: A, items: Vec<T, A>) -> Result<Sequence<T, A>, AllocError>
        ensures { IfOk result (λ s. s ≡ items.items) }
    {
        let size = items.len();
        let tree: Tree<T, (), A> = Tree::from_items(alloc, items, &mut Steps::new())?;
        Ok(Sequence::of_tree(alloc, tree, size))
    }

    /// A sequence that has the items of the array in their order, by way of a `Vec`.
    pub fn from_array<const N: usize>(alloc: A, items: [T; N]) -> Result<Sequence<T, A>, AllocError>
        ensures { IfOk result (λ s. s ≡ items) }
    {
        match Vec::from_array(alloc, items) {
            Ok(items) => Sequence::from_vec(alloc, items),
            Err(refused) => Err(AllocError::from(refused)),
        }
    }

    /// A sequence that has the items in the order in which they come, by way of a `Vec`.
    pub fn from_iter<I: IntoIterator<Item = T>>(
        alloc: A,
        iter: I,
    ) -> Result<Sequence<T, A>, AllocError>
        requires ends { (it : I.IntoIter) → I.into_iter_gives iter it
            → I.IntoIter.can_next it × IsFinite (I.IntoIter.remaining it) }
        ensures { IfOk result (λ s. (it : I.IntoIter)
            × I.into_iter_gives iter it × Drains I.IntoIter.next_gives it s) }
    {
        let mut items = Vec::new(alloc);
        for item in iter {
            items.push(item)?;
        }
        Sequence::from_vec(alloc, items)
    }

    /// Puts the items behind the last, in the order in which they come: a sequence of them is appended.
    ///
    /// The error means that there is no memory, or that there would be more than `usize::MAX` items. It leaves the sequence as it
    /// was.
    pub fn extend<I: IntoIterator<Item = T>>(&mut self, iter: I) -> Result<(), AllocError>
        requires ends { (it : I.IntoIter) → I.into_iter_gives iter it
            → I.IntoIter.can_next it × IsFinite (I.IntoIter.remaining it) }
        ensures ok { OnOk result ((it : I.IntoIter) × (more : List T)
            × I.into_iter_gives iter it × Drains I.IntoIter.next_gives it more × (self.new ≡ self.old ++ more)) }
        ensures err { OnErr result (self.new ≡ self.old) }
    {
        let more = Sequence::from_iter(self.alloc, iter)?;
        let longer = self.append(&more)?;
        *self = longer;
        Ok(())
    }

    /// The items from the last to the first. They are shared, and each node is made once.
    pub fn reverse(&self) -> Result<Sequence<T, A>, AllocError>
        ensures { IfOk result (λ s. s ≡ reverse self.now) }
    {
        let size = self.len();
        let mut walk: Walk<'_, T, (), A, Backward> = Walk::over(&self.tree);
        let mut entries: Vec<Rc<Entry<T, ()>, A>, A> = Vec::with_capacity(self.alloc, size)?;
        while entries.len() < size {
            entries.push(walk.next_entry().clone()?)?;
        }
        let tree: Tree<T, (), A> = Tree::from_items(self.alloc, entries, &mut Steps::new())?;
        Ok(Sequence::of_tree(self.alloc, tree, size))
    }
}
