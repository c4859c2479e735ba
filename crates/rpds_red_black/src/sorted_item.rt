//! Items of lists in ascending order, of which trees are built.
ghost use Rattle.std.specs.Prelude.{◌≡◌, IfOk};
ghost use Rattle.rpds_red_black.specs.TreeNode.{pair_of};

use rpds_core::map::entry::Entry;
use std::alloc::{AllocError, Allocator};
use std::rc::Rc;

/// An item of a list in ascending order, of which a tree is built: a pair, a member of a set, which is a key without a value, or
/// an entry that a tree holds.
pub trait SortedItem<K, V, A: Allocator> {
    /// The pair that it is, or that it holds.
    ghost pair: { Self → K × V };

    /// Its key.
    fn key(&self) -> &K
        ensures { result.now ≡ (pair self.now).0 };

    /// The item as an entry, for which the allocator is asked where there is none yet.
    fn into_entry(self, alloc: A) -> Result<Rc<Entry<K, V>, A>, AllocError>
        ensures { IfOk result (λ e. pair_of e.value ≡ pair self) };
}

impl<K: Drop, V: Drop, A: Allocator> SortedItem<K, V, A> for (K, V) {
    ghost pair = { λ p. p };

    fn key(&self) -> &K {
        &self.0
    }

    fn into_entry(self, alloc: A) -> Result<Rc<Entry<K, V>, A>, AllocError> {
        let (key, value) = self;
        let entry = Rc::new(alloc, Entry::new(key, value))?;
        Ok(entry)
    }
}

impl<T: Drop, A: Allocator> SortedItem<T, (), A> for T {
    ghost pair = { λ x. (x, tt) };

    fn key(&self) -> &T {
        self
    }

    fn into_entry(self, alloc: A) -> Result<Rc<Entry<T, ()>, A>, AllocError> {
        let entry = Rc::new(alloc, Entry::new(self, ()))?;
        Ok(entry)
    }
}

impl<K, V, A: Allocator> SortedItem<K, V, A> for Rc<Entry<K, V>, A> {
    ghost pair = { λ e. pair_of e.value };

    fn key(&self) -> &K {
        &self.key
    }

    fn into_entry(self, _alloc: A) -> Result<Rc<Entry<K, V>, A>, AllocError> {
        Ok(self)
    }
}

impl<'a, K: Drop, V: Drop, A: Allocator> SortedItem<K, V, A> for &'a Rc<Entry<K, V>, A> {
    ghost pair = { λ e. pair_of e.now.value };

    fn key(&self) -> &K {
        &self.key
    }

    fn into_entry(self, _alloc: A) -> Result<Rc<Entry<K, V>, A>, AllocError> {
        self.clone()
    }
}
