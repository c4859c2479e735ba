//! Many pairs put into a map.
ghost use Rattle.std.specs.Prelude.{◌≡◌, ◌++◌, List, map, reverse, OnOk, OnErr};
ghost use Rattle.std.specs.Borrow.{Bor};
ghost use Rattle.std.specs.Iterator.{Drains, IsFinite};
ghost use Rattle.std.specs.Iterator.Runs.{WholeRun};
ghost use Rattle.std.specs.Map.Iter.{deref_pair};
ghost use Rattle.rpds_hash_trie.specs.HashedMap.{find};

use crate::map::hash_trie_map::HashTrieMap;
use std::alloc::{AllocError, Allocator};
use std::hash::{BuildHasher, Hash};

#[tactic(auto, using(crate::proofs::Extended::copied_last))]
impl<K: Eq + Hash + Drop, V: Drop, H: BuildHasher + Clone + Drop, A: Allocator + Copy> HashTrieMap<
    K,
    V,
    H,
    A,
> {
    /// Puts the pairs in, in the order in which they come: of those with equal keys the last stays. An error leaves the map as
    /// it is: the pairs go into another handle, which takes the map's place at the end.
    ///
    /// The error means that memory ran out, or that a pair came where there were `usize::MAX`.
    pub fn extend<I: IntoIterator<Item = (K, V)>>(&mut self, pairs: I) -> Result<(), AllocError>
        requires clone_hasher { (x y : H) → H.is_clone x y → y ≡ x }
        requires ends { (it : I.IntoIter) → I.into_iter_gives pairs it →
            I.IntoIter.can_next it × IsFinite (I.IntoIter.remaining it) }
        ensures ok { OnOk result ((it : I.IntoIter) × (given : List (K × V))
            × I.into_iter_gives pairs it × Drains I.IntoIter.next_gives it given
            × ((k : K) → find K.eq k self.new.entries ≡ find K.eq k (reverse given ++ self.old.entries))) }
        ensures found { OnOk result ((it : I.IntoIter) × I.into_iter_gives pairs it
            × WholeRun I.IntoIter.next_gives it (λ run. (k : K)
            → find K.eq k self.new.entries ≡ find K.eq k (reverse run.items ++ self.old.entries))) }
        ensures same { OnOk result (self.new ≡ record self.old { entries = self.new.entries }) }
        ensures err { OnErr result (self.new ≡ self.old) }
    {
        let pairs = pairs.into_iter();
        let mut longer = self.clone()?;
        for (key, value) in pairs {
            longer.insert_mut(key, value)?;
        }
        *self = longer;
        Ok(())
    }

    // The same of copies of what references lead to.
    pub(crate) fn extend_copied<'a, I: IntoIterator<Item = (&'a K, &'a V)>>(
        &mut self,
        pairs: I,
    ) -> Result<(), AllocError>
    where
        K: Copy + 'a,
        V: Copy + 'a,
        requires clone_hasher { (x y : H) → H.is_clone x y → y ≡ x }
        requires ends { (it : I.IntoIter) → I.into_iter_gives pairs it →
            I.IntoIter.can_next it × IsFinite (I.IntoIter.remaining it) }
        ensures ok { OnOk result ((it : I.IntoIter) × (given : List (Bor K × Bor V))
            × I.into_iter_gives pairs it × Drains I.IntoIter.next_gives it given
            × ((k : K) → find K.eq k self.new.entries
            ≡ find K.eq k (reverse (map deref_pair given) ++ self.old.entries))) }
        ensures same { OnOk result (self.new ≡ record self.old { entries = self.new.entries }) }
        ensures err { OnErr result (self.new ≡ self.old) }
    {
        let pairs = pairs.into_iter();
        let mut longer = self.clone()?;
        for (key, value) in pairs {
            longer.insert_mut(*key, *value)?;
        }
        *self = longer;
        Ok(())
    }
}
