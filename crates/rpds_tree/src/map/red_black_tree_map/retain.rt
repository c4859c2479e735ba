//! The pairs of a map that pass a test.
ghost use Rattle.std.specs.Prelude.{◌≡◌, Bool, OnOk, OnErr};
ghost use Rattle.std.specs.Iterator.{ActsAsOnTwo};
ghost use Rattle.std.specs.List.Retain.{IsFiltered};
ghost use Rattle.rpds_core.specs.Calls.{CalledAtEntry};
ghost use Rattle.rpds_core.specs.OptionFilter.{option_filter};
ghost use Rattle.rpds_red_black.specs.Pairs.{find};

use crate::map::red_black_tree_map::RedBlackTreeMap;
use std::alloc::{AllocError, Allocator};

impl<K: Ord + Drop, V: Drop, A: Allocator + Copy> RedBlackTreeMap<K, V, A> {
    /// Keeps the pairs of which `keep` says true, in the order that they had. It is called once at each pair, in that order.
    /// An error leaves the map as it is: what stays is another map, which takes its place at the end.
    ///
    /// The error means that memory ran out.
    pub fn retain<F: FnMut(&K, &V) -> bool>(&mut self, mut keep: F) -> Result<(), AllocError>
        requires { F.IsAlwaysCallable keep }
        ensures ok { OnOk result
            (IsFiltered (CalledAtEntry F.FnMut) keep self.old.entries self.new.entries) }
        ensures found { OnOk result ((test : K × V → Bool) → ActsAsOnTwo F.FnMut keep (λ k v. test (k.now, v.now)) → (k : K)
            → find K.cmp k self.new.entries ≡ option_filter test (find K.cmp k self.old.entries)) }
        ensures err { OnErr result (self.new ≡ self.old) }
    {
        let mut keeps = Vec::with_capacity(*self.allocator(), self.size())?;
        for (key, value) in self.iter() {
            let stays = keep(key, value);
            keeps.push(stays)?;
        }
        *self = self.keep_by_flags(&keeps)?;
        Ok(())
    }
}
