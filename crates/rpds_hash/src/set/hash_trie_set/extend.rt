//! Many values put into a set.
ghost use Rattle.std.specs.Prelude.{◌≡◌, ◌++◌, List, reverse, OnOk, OnErr};
ghost use Rattle.std.specs.Iterator.{Drains, IsFinite};
ghost use Rattle.std.specs.Iterator.Runs.{WholeRun};
ghost use Rattle.rpds_hash.specs.HashedSet.{find_member};

use crate::set::hash_trie_set::HashTrieSet;
use std::alloc::{AllocError, Allocator};
use std::hash::{BuildHasher, Hash};

impl<T: Eq + Hash + Drop, H: BuildHasher + Clone + Drop, A: Allocator + Copy> HashTrieSet<T, H, A> {
    /// Puts the values in, in the order in which they come: of those that are equal the last stays. An error leaves the set as
    /// it is: the values go into another handle, which takes the set's place at the end.
    ///
    /// The error means that memory ran out, or that a value came where there were `usize::MAX` members.
    pub fn extend<I: IntoIterator<Item = T>>(&mut self, values: I) -> Result<(), AllocError>
        requires clone_hasher { (x y : H) → H.is_clone x y → y ≡ x }
        requires ends { (it : I.IntoIter) → I.into_iter_gives values it →
            I.IntoIter.can_next it × IsFinite (I.IntoIter.remaining it) }
        ensures ok { OnOk result ((it : I.IntoIter) × (given : List T)
            × I.into_iter_gives values it × Drains I.IntoIter.next_gives it given
            × ((x : T) → find_member T.eq x self.new.members ≡ find_member T.eq x (reverse given ++ self.old.members))) }
        ensures found { OnOk result ((it : I.IntoIter) × I.into_iter_gives values it
            × WholeRun I.IntoIter.next_gives it (λ run. (x : T)
            → find_member T.eq x self.new.members ≡ find_member T.eq x (reverse run.items ++ self.old.members))) }
        ensures same { OnOk result (self.new ≡ record self.old { members = self.new.members }) }
        ensures err { OnErr result (self.new ≡ self.old) }
    {
        let values = values.into_iter();
        let mut longer = self.clone()?;
        for value in values {
            longer.insert_mut(value)?;
        }
        *self = longer;
        Ok(())
    }
}
