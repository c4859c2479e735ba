//! One map after another.
ghost use Rattle.std.specs.Prelude.{◌≡◌, ◌+◌, ◌*◌, ◌≤◌, ◌++◌, max, None, Some, IfOk, length, true, false};
ghost use Rattle.std.specs.Map.{keys_of};
ghost use Rattle.rpds_core.specs.Counts.{IsWithin};
ghost use Rattle.rpds_red_black.specs.Logarithm.{most_levels};
ghost use Rattle.rpds_red_black.specs.Pairs.{IsAscending};
ghost use Rattle.rpds_tree.specs.Sorted.{first_out_of_order, reported_position};

use crate::map::red_black_tree_map::RedBlackTreeMap;
use crate::sorted::SortedError;
use rpds_core::size::total;
use rpds_core::steps::Steps;
use rpds_red_black::join::Measured;
use rpds_red_black::tree::Tree;
use std::alloc::{AllocError, Allocator};

impl<K: Ord + Drop, V: Drop, A: Allocator + Copy> RedBlackTreeMap<K, V, A> {
    // Whether the first key of the other map isn't above the last one of this map.
    fn is_out_of_order(&self, other: &RedBlackTreeMap<K, V, A>, steps: &mut Steps) -> bool
        ensures yes { result ≡ true → first_out_of_order K.cmp (keys_of (self.now.entries ++ other.now.entries))
            ≡ Some (length self.now.entries) }
        ensures no { result ≡ false
            → first_out_of_order K.cmp (keys_of (self.now.entries ++ other.now.entries)) ≡ None }
        ensures steps { IsWithin 1 0 steps.old steps.new }
    {
        // For their clauses: the keys of each ascend.
        let _size = self.size();
        let _others = other.size();
        let Some((last, _)) = self.last() else {
            return false;
        };
        let Some((first, _)) = other.first() else {
            return false;
        };
        !steps.compare(last, first).is_lt()
    }

    // The pairs of this map and then those of the other one.
    pub(crate) fn append_unchecked(
        &self,
        other: &RedBlackTreeMap<K, V, A>,
        steps: &mut Steps,
    ) -> Result<RedBlackTreeMap<K, V, A>, AllocError>
        requires { IsAscending K.cmp (self.now.entries ++ other.now.entries) }
        ensures ok { IfOk result (λ m. m.entries ≡ self.now.entries ++ other.now.entries) }
        ensures depth { IfOk result (λ m. m.depth ≤ most_levels (length m.entries)) }
        ensures steps { let most = most_levels (max (length self.now.entries) (length other.now.entries)) in
            IsWithin 0 (5 * most + 3) steps.old steps.new }
    {
        let most = total(self.size, other.size)?;
        self.tree.prove_sound();
        other.tree.prove_sound();
        let left = Measured::share(&self.tree, self.tree.height())?;
        let right = Measured::share(&other.tree, other.tree.height())?;
        let joined = Tree::join_around(self.alloc, left, None, right, steps)?;
        let tree = joined.tree.into_black();
        Ok(RedBlackTreeMap::of_counted(self.alloc, tree, most))
    }

    /// The pairs of this map and then those of the other one, whose keys are all above. It compares one key, and makes nodes on
    /// one path: all others are shared with the two maps (Blelloch, Ferizovic, Sun, Just Join for Parallel Ordered Sets, 2016).
    ///
    /// [`SortedError::NotAscending`] where the first key of the other map isn't above the last one of this map, before anything is
    /// allocated: it tells how many pairs this map has. [`SortedError::NoMemory`] where an allocation failed, or both maps
    /// together have more than `usize::MAX` pairs.
    pub fn append(
        &self,
        other: &RedBlackTreeMap<K, V, A>,
    ) -> Result<RedBlackTreeMap<K, V, A>, SortedError>
        ensures ok { IfOk result (λ m. m.entries ≡ self.now.entries ++ other.now.entries) }
        ensures out_of_order { reported_position result
            ≡ first_out_of_order K.cmp (keys_of (self.now.entries ++ other.now.entries)) }
        ensures depth { IfOk result (λ m. m.depth ≤ most_levels (length m.entries)) }
    {
        self.append_counted(other, &mut Steps::new())
    }

    /// [`append`](RedBlackTreeMap::append), which counts the keys that it compares and the nodes that it makes.
    pub fn append_counted(
        &self,
        other: &RedBlackTreeMap<K, V, A>,
        steps: &mut Steps,
    ) -> Result<RedBlackTreeMap<K, V, A>, SortedError>
        ensures ok { IfOk result (λ m. m.entries ≡ self.now.entries ++ other.now.entries) }
        ensures out_of_order { reported_position result
            ≡ first_out_of_order K.cmp (keys_of (self.now.entries ++ other.now.entries)) }
        ensures depth { IfOk result (λ m. m.depth ≤ most_levels (length m.entries)) }
        ensures steps { let most = most_levels (max (length self.now.entries) (length other.now.entries)) in
            IsWithin 1 (5 * most + 3) steps.old steps.new }
    {
        if self.is_out_of_order(other, steps) {
            return Err(SortedError::NotAscending(self.size));
        }
        let map = self.append_unchecked(other, steps)?;
        Ok(map)
    }
}
