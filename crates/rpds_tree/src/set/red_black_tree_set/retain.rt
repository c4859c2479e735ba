//! The members of a set that pass a test.
ghost use Rattle.std.specs.Prelude.{◌≡◌, Bool, OnOk, OnErr};
ghost use Rattle.std.specs.Fn.{CalledAt};
ghost use Rattle.std.specs.Iterator.{ActsAsAt};
ghost use Rattle.std.specs.List.Retain.{IsFiltered};
ghost use Rattle.rpds_core.specs.OptionFilter.{option_filter};
ghost use Rattle.rpds_tree.specs.OrderedSet.{find_member};

use crate::set::red_black_tree_set::RedBlackTreeSet;
use std::alloc::{AllocError, Allocator};

impl<T: Ord + Drop, A: Allocator + Copy> RedBlackTreeSet<T, A> {
    /// Keeps the members of which `keep` says true, in the order that they had. It is called once at each member, in that
    /// order. An error leaves the set as it is: what stays is another set, which takes its place at the end.
    ///
    /// The error means that memory ran out.
    pub fn retain<F: FnMut(&T) -> bool>(&mut self, mut keep: F) -> Result<(), AllocError>
        requires { F.IsAlwaysCallable keep }
        ensures ok { OnOk result
            (IsFiltered (CalledAt F.FnMut) keep self.old.members self.new.members) }
        ensures found { OnOk result ((test : T → Bool) → ActsAsAt F.FnMut keep test → (x : T)
            → find_member T.cmp x self.new.members ≡ option_filter test (find_member T.cmp x self.old.members)) }
        ensures err { OnErr result (self.new ≡ self.old) }
    {
        let mut keeps = Vec::with_capacity(*self.allocator(), self.size())?;
        for member in self.iter() {
            let stays = keep(member);
            keeps.push(stays)?;
        }
        *self = self.keep_by_flags(&keeps)?;
        Ok(())
    }
}
