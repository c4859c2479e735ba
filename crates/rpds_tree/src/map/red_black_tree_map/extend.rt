//! Many pairs put into a map.
ghost use Rattle.std.specs.Prelude.{◌≡◌, ◌++◌, List, map, reverse, OnOk, OnErr};
ghost use Rattle.std.specs.Borrow.{Bor};
ghost use Rattle.std.specs.Iterator.{Drains, IsFinite};
ghost use Rattle.std.specs.Iterator.Runs.{WholeRun};
ghost use Rattle.std.specs.Map.Iter.{deref_pair};
ghost use Rattle.rpds_red_black.specs.Pairs.{find, put_all};

use crate::map::red_black_tree_map::RedBlackTreeMap;
use std::alloc::{AllocError, Allocator};

#[tactic(auto, using(rpds_red_black::proofs::Pairs::put_all_last, crate::proofs::Extended::copied_last))]
impl<K: Ord + Drop, V: Drop, A: Allocator + Copy> RedBlackTreeMap<K, V, A> {
    /// Puts the pairs in, in the order in which they come: of those with equal keys the last stays. An error leaves the map as
    /// it is: the pairs go into another handle, which takes the map's place at the end.
    ///
    /// The error means that memory ran out, or that a pair came where there were `usize::MAX`.
    pub fn extend<I: IntoIterator<Item = (K, V)>>(&mut self, pairs: I) -> Result<(), AllocError>
        requires { (it : I.IntoIter) → I.into_iter_gives pairs it →
            I.IntoIter.can_next it × IsFinite (I.IntoIter.remaining it) }
        ensures ok { OnOk result ((it : I.IntoIter) × (given : List (K × V))
            × I.into_iter_gives pairs it × Drains I.IntoIter.next_gives it given
            × (self.new.entries ≡ put_all K.cmp self.old.entries given)) }
        ensures found { OnOk result ((it : I.IntoIter) × I.into_iter_gives pairs it
            × WholeRun I.IntoIter.next_gives it (λ run. (k : K)
            → find K.cmp k self.new.entries ≡ find K.cmp k (reverse run.items ++ self.old.entries))) }
        ensures err { OnErr result (self.new ≡ self.old) }
    {
        let pairs = pairs.into_iter();
        let mut longer = self.clone()?;
        for (key, value) in pairs {
            longer.insert_mut(key, value)?;
        }
        *self = longer;
        Ok(())
    }

    // As `extend`, of copies of what references lead to.
    pub(crate) fn extend_copied<'a, I: IntoIterator<Item = (&'a K, &'a V)>>(
        &mut self,
        pairs: I,
    ) -> Result<(), AllocError>
    where
        K: Copy + 'a,
        V: Copy + 'a,
        requires { (it : I.IntoIter) → I.into_iter_gives pairs it →
            I.IntoIter.can_next it × IsFinite (I.IntoIter.remaining it) }
        ensures ok { OnOk result ((it : I.IntoIter) × (given : List (Bor K × Bor V))
            × I.into_iter_gives pairs it × Drains I.IntoIter.next_gives it given
            × (self.new.entries ≡ put_all K.cmp self.old.entries (map deref_pair given))) }
        ensures err { OnErr result (self.new ≡ self.old) }
    {
        let pairs = pairs.into_iter();
        let mut longer = self.clone()?;
        for (key, value) in pairs {
            longer.insert_mut(*key, *value)?;
        }
        *self = longer;
        Ok(())
    }
}
