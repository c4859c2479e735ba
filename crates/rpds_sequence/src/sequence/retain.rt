//! The items that pass a test, and what a closure makes of each.
ghost use Rattle.std.specs.Prelude.{◌≡◌, Bool, Ok, IfOk, OnOk, OnErr, filter, map};
ghost use Rattle.std.specs.Fn.{CalledAt, FnReturnsAt};
ghost use Rattle.std.specs.Iterator.{ActsAsAt};
ghost use Rattle.std.specs.List.{AllZip};
ghost use Rattle.std.specs.List.Retain.{IsFiltered};

use crate::sequence::Sequence;
use rpds_core::map::entry::Entry;
use rpds_core::steps::Steps;
use rpds_red_black::tree::Tree;
use rpds_red_black::walk::{Forward, Walk};
use std::alloc::{AllocError, Allocator};
use std::rc::Rc;

impl<T: Drop, A: Allocator + Copy> Sequence<T, A> {
    /// Keeps the items of which `keep` says true, in the order that they had. It is called once at each item, in that order. The
    /// items are shared, and nothing is made anew where all stay.
    ///
    /// The error means that memory ran out, and leaves the sequence as it was.
    pub fn retain<F: FnMut(&T) -> bool>(&mut self, keep: F) -> Result<(), AllocError>
        requires { F.IsAlwaysCallable keep }
        ensures ok { OnOk result (IsFiltered (CalledAt F.FnMut) keep self.old self.new) }
        ensures filtered { OnOk result ((test : T → Bool) → ActsAsAt F.FnMut keep test → self.new ≡ filter test self.old) }
        ensures err { OnErr result (self.new ≡ self.old) }
    {
        *self = self.kept(keep)?;
        Ok(())
    }

    // The sequence of the items of which `keep` says true: another handle to this one where all stay.
    fn kept<F: FnMut(&T) -> bool>(&self, keep: F) -> Result<Sequence<T, A>, AllocError>
        requires { F.IsAlwaysCallable keep }
        ensures { IfOk result (λ s. IsFiltered (CalledAt F.FnMut) keep self.now s) }
    {
        let entries = self.entries_where(keep)?;
        let size = entries.len();
        if size == self.len() {
            return self.clone();
        }
        let tree: Tree<T, (), A> = Tree::from_items(self.alloc, entries, &mut Steps::new())?;
        Ok(Sequence::of_tree(self.alloc, tree, size))
    }

    // The entries of the items of which `keep` says true.
    fn entries_where<F: FnMut(&T) -> bool>(
        &self,
        mut keep: F,
    ) -> Result<Vec<Rc<Entry<T, ()>, A>, A>, AllocError>
        requires { F.IsAlwaysCallable keep }
        ensures { IfOk result (λ entries. IsFiltered (CalledAt F.FnMut) keep self.now (map (λ e. e.value.key) entries.items)) }
    {
        let mut left = self.len();
        let mut walk: Walk<'_, T, (), A, Forward> = Walk::over(&self.tree);
        let mut entries: Vec<Rc<Entry<T, ()>, A>, A> = Vec::with_capacity(self.alloc, left)?;
        while left > 0 {
            left -= 1;
            let entry = walk.next_entry();
            let stays = keep(&entry.key);
            if stays {
                entries.push(entry.clone()?)?;
            }
        }
        Ok(entries)
    }
}

impl<T, A: Allocator + Copy> Sequence<T, A> {
    /// The sequence of what `change` answers at each item, which may be of another type.
    ///
    /// The error means that `change` failed or that memory ran out.
    pub fn map<U: Drop, F: Fn(&T) -> Result<U, AllocError>>(
        &self,
        change: F,
    ) -> Result<Sequence<U, A>, AllocError>
        requires { F.IsAlwaysCallable change }
        ensures ok { IfOk result (λ s. AllZip (λ x y. FnReturnsAt F.Fn change x (Ok y)) self.now s) }
        ensures mapped { IfOk result (λ s. (h : T → U) → ((x : T) (y : U) → FnReturnsAt F.Fn change x (Ok y) → y ≡ h x)
            → s ≡ map h self.now) }
    {
        let mut items = Vec::with_capacity(self.alloc, self.len())?;
        for item in self.iter() {
            items.push(change(item)?)?;
        }
        Sequence::from_vec(self.alloc, items)
    }
}
