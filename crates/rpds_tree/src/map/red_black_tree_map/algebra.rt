//! Whole maps in one.
ghost use Rattle.std.specs.Prelude.{◌≡◌, ◌≢◌, ◌+◌, ◌*◌, ◌<◌, ◌≤◌, [], if◌then◌else◌, false, true, max, min, None, IfOk, OnOk, is_none, is_some, length};
ghost use Rattle.std.specs.Option.{option_or, option_xor};
ghost use Rattle.rpds_core.specs.Counts.{IsWithin};
ghost use Rattle.rpds_tree.specs.Algebra.{both_in, only_in, union_of};
ghost use Rattle.rpds_red_black.specs.Cuts.{IsCombined};
ghost use Rattle.rpds_red_black.specs.Logarithm.{most_levels};
ghost use Rattle.rpds_red_black.specs.Pairs.{IsAscending, find};
ghost use Rattle.rpds_red_black.specs.declared.tree.Color.TheVariants.{Black};

use crate::map::red_black_tree_map::RedBlackTreeMap;
use rpds_core::size::total;
use rpds_core::steps::Steps;
use rpds_red_black::combine::{Common, Kept};
use rpds_red_black::join::Measured;
use rpds_red_black::tree::Tree;
use std::alloc::{AllocError, Allocator};

impl<K: Ord + Drop, V: Drop, A: Allocator + Copy> RedBlackTreeMap<K, V, A> {
    // Its tree with a black root, and the tree's height.
    fn measured(&self) -> Result<Measured<K, V, A>, AllocError>
        ensures ok { IfOk result (λ t. t.entries ≡ self.now.entries) }
        ensures color { IfOk result (λ t. t.color ≡ Black) }
        ensures ordered { IsAscending K.cmp self.now.entries }
        ensures fits { length self.now.entries ≤ usize.MAX }
    {
        // For its clauses: a `usize` counts the pairs.
        let _size = self.size();
        let tree = self.tree.share()?.into_black();
        let height = tree.height();
        Ok(Measured { tree, height })
    }

    // What is kept of two maps, where all is that the first one alone has. It walks the first one, and cuts the second one. The nodes
    // that it makes come from the allocator that is given.
    fn walked(
        alloc: A,
        walked: &RedBlackTreeMap<K, V, A>,
        kept: Kept,
        cut: &RedBlackTreeMap<K, V, A>,
        steps: &mut Steps,
    ) -> Result<Tree<K, V, A>, AllocError>
        requires { kept.walked ≡ true }
        ensures ok { IfOk result (λ t. IsCombined K.cmp kept walked.now.entries cut.now.entries t.entries) }
        ensures color { IfOk result (λ t. t.color ≡ Black) }
        ensures steps { let count = length cut.now.entries in
            let levels = most_levels (length walked.now.entries) in
            let most = most_levels (count + length walked.now.entries) in
            IsWithin (count * levels) (count * (4 * levels + 5 * most + 3)) steps.old steps.new }
        ensures compares { OnOk result (walked.now.entries ≢ [] → cut.now.entries ≢ []
            → steps.old.compared < steps.new.compared) }
    {
        let pieces = cut.measured()?;
        let whole = walked.measured()?;
        whole.tree.prove_low_rank();
        let combined = whole
            .tree
            .combine(alloc, kept, whole.height, &pieces, steps)?;
        match combined {
            None => Ok(whole.tree),
            Some(combined) => Ok(combined.tree.into_black()),
        }
    }

    // What is kept of two maps, where nothing is that the second one alone has: each key of the first one is looked up in the
    // second one.
    fn looked_up(
        alloc: A,
        walked: &RedBlackTreeMap<K, V, A>,
        kept: Kept,
        other: &RedBlackTreeMap<K, V, A>,
        steps: &mut Steps,
    ) -> Result<Tree<K, V, A>, AllocError>
        requires { kept.cut ≡ false }
        ensures ok { IfOk result (λ t. IsCombined K.cmp kept walked.now.entries other.now.entries t.entries) }
        ensures color { IfOk result (λ t. t.color ≡ Black) }
        ensures steps { let count = length walked.now.entries in
            let levels = most_levels (length other.now.entries) in
            let most = most_levels (count + length other.now.entries) in
            IsWithin (count * levels) (count * (4 * levels + 5 * most + 3)) steps.old steps.new }
        ensures compares { OnOk result (walked.now.entries ≢ [] → other.now.entries ≢ []
            → steps.old.compared < steps.new.compared) }
    {
        walked.tree.look_up_all(alloc, kept, &other.tree, steps)
    }

    // The same of a first map that may be large. It walks the first one, and looks into the second one.
    fn sifted(
        alloc: A,
        walked: &RedBlackTreeMap<K, V, A>,
        kept: Kept,
        cut: &RedBlackTreeMap<K, V, A>,
        steps: &mut Steps,
    ) -> Result<Tree<K, V, A>, AllocError>
        requires { kept.cut ≡ false }
        ensures ok { IfOk result (λ t. IsCombined K.cmp kept walked.now.entries cut.now.entries t.entries) }
        ensures color { IfOk result (λ t. t.color ≡ Black) }
        ensures steps { let count = length walked.now.entries in
            let levels = most_levels (length cut.now.entries) in
            let most = most_levels (count + length cut.now.entries) in
            IsWithin (count * levels) (count * (4 * levels + 5 * most + 3)) steps.old steps.new }
        ensures compares { OnOk result (walked.now.entries ≢ [] → cut.now.entries ≢ []
            → steps.old.compared < steps.new.compared) }
    {
        if walked.size <= kept.most_looked_up() as usize {
            return RedBlackTreeMap::looked_up(alloc, walked, kept, cut, steps);
        }
        let others = cut.measured()?;
        let whole = walked.measured()?;
        others.tree.prove_low_rank();
        let sifted = whole.tree.sift(alloc, kept, whole.height, &others, steps)?;
        Ok(sifted.tree.into_black())
    }

    // What is kept of both maps. Where all is kept that the larger one alone has, that one is walked, else the smaller one. A union of
    // two that are equally large walks the first one, whose pairs stay: with a copy it shares all nodes.
    fn combined(
        &self,
        other: &RedBlackTreeMap<K, V, A>,
        kept: Kept,
        steps: &mut Steps,
    ) -> Result<Tree<K, V, A>, AllocError>
        ensures ok { IfOk result (λ t. IsCombined K.cmp kept self.now.entries other.now.entries t.entries) }
        ensures color { IfOk result (λ t. t.color ≡ Black) }
        ensures ordered { IsAscending K.cmp self.now.entries }
        ensures others_ordered { IsAscending K.cmp other.now.entries }
        ensures steps { let few = min (length self.now.entries) (length other.now.entries) in
            let levels = most_levels (max (length self.now.entries) (length other.now.entries)) in
            let most = most_levels (length self.now.entries + length other.now.entries) in
            IsWithin (few * levels) (few * (4 * levels + 5 * most + 3)) steps.old steps.new }
        ensures compares { OnOk result (self.now.entries ≢ [] → other.now.entries ≢ []
            → steps.old.compared < steps.new.compared) }
    {
        let is_larger = self.size > other.size || (kept.cut && self.size == other.size);
        if kept.walked && is_larger {
            RedBlackTreeMap::walked(self.alloc, self, kept, other, steps)
        } else if kept.cut && self.size <= other.size {
            RedBlackTreeMap::walked(self.alloc, other, kept.turned(), self, steps)
        } else if self.size <= other.size {
            RedBlackTreeMap::sifted(self.alloc, self, kept, other, steps)
        } else {
            RedBlackTreeMap::sifted(self.alloc, other, kept.turned(), self, steps)
        }
    }

    // A map of the pairs of a tree, of which there are at most so many.
    pub(crate) fn of_counted(alloc: A, tree: Tree<K, V, A>, most: usize) -> RedBlackTreeMap<K, V, A>
        requires black { tree.color ≡ Black }
        requires ascending { IsAscending K.cmp tree.entries }
        requires most { length tree.entries ≤ most }
        ensures entries { result.entries ≡ tree.entries }
        ensures depth { result.depth ≤ most_levels (length result.entries) }
    {
        let size = tree.len_within(most);
        RedBlackTreeMap::of_tree(alloc, tree, size)
    }

    /// The pairs of both maps. Where both have an equal key, the pair of this map is there.
    ///
    /// The larger map is walked, and the smaller one cut at each node on the way down, until nothing is left of it (Adams, Efficient
    /// sets: a balancing act, 1993; Blelloch, Ferizovic, Sun, Just Join for Parallel Ordered Sets, 2016). Of n pairs and m, where m
    /// is the smaller number, that compares at most `2 m floor(log2(n + 1))` keys. What has no key of the other map among its own
    /// is shared with its map, so that maps whose keys lie apart make few nodes. Where the other map is larger, each common key takes a
    /// node, for this map's pair: a newer version united with an older one shares more than the older one with it.
    ///
    /// The error means that memory ran out. It comes, too, where both maps together have more than `usize::MAX` pairs.
    pub fn union(
        &self,
        other: &RedBlackTreeMap<K, V, A>,
    ) -> Result<RedBlackTreeMap<K, V, A>, AllocError>
        ensures ok { IfOk result (λ m. m.entries ≡ union_of K.cmp self.now.entries other.now.entries) }
        ensures found { IfOk result (λ m. (k : K) → find K.cmp k m.entries
            ≡ option_or (find K.cmp k self.now.entries) (find K.cmp k other.now.entries)) }
        ensures depth { IfOk result (λ m. m.depth ≤ most_levels (length m.entries)) }
    {
        self.union_counted(other, &mut Steps::new())
    }

    /// [`union`](RedBlackTreeMap::union), which counts the nodes that it makes and the keys that it compares: at least one where
    /// both maps have a pair.
    pub fn union_counted(
        &self,
        other: &RedBlackTreeMap<K, V, A>,
        steps: &mut Steps,
    ) -> Result<RedBlackTreeMap<K, V, A>, AllocError>
        ensures ok { IfOk result (λ m. m.entries ≡ union_of K.cmp self.now.entries other.now.entries) }
        ensures found { IfOk result (λ m. (k : K) → find K.cmp k m.entries
            ≡ option_or (find K.cmp k self.now.entries) (find K.cmp k other.now.entries)) }
        ensures depth { IfOk result (λ m. m.depth ≤ most_levels (length m.entries)) }
        ensures steps { let few = min (length self.now.entries) (length other.now.entries) in
            let levels = most_levels (max (length self.now.entries) (length other.now.entries)) in
            let most = most_levels (length self.now.entries + length other.now.entries) in
            IsWithin (few * levels) (few * (4 * levels + 5 * most + 3)) steps.old steps.new }
        ensures compares { OnOk result (self.now.entries ≢ [] → other.now.entries ≢ []
            → steps.old.compared < steps.new.compared) }
    {
        let most = total(self.size, other.size)?;
        let kept = Kept {
            walked: true,
            cut: true,
            common: Common::Walked,
        };
        let tree = self.combined(other, kept, steps)?;
        Ok(RedBlackTreeMap::of_counted(self.alloc, tree, most))
    }

    /// The pairs of this map whose keys are in the other one.
    ///
    /// Each key of the smaller map is looked up in the larger one, and a tree is built of the pairs that stay. Of n pairs and m,
    /// where m is the smaller number, that compares at most `2 m floor(log2(n + 1))` keys. A [`union`](RedBlackTreeMap::union),
    /// which has the same bound, mostly compares fewer.
    ///
    /// Where the smaller map has more than 512 pairs, its upper nodes cut the larger one first: many of its keys that lie between
    /// two neighboring keys of the larger one are then passed over at once.
    pub fn intersection(
        &self,
        other: &RedBlackTreeMap<K, V, A>,
    ) -> Result<RedBlackTreeMap<K, V, A>, AllocError>
        ensures ok { IfOk result (λ m. m.entries ≡ both_in K.cmp self.now.entries other.now.entries) }
        ensures found { IfOk result (λ m. (k : K) → find K.cmp k m.entries
            ≡ (if is_some (find K.cmp k other.now.entries) then find K.cmp k self.now.entries else None)) }
        ensures depth { IfOk result (λ m. m.depth ≤ most_levels (length m.entries)) }
    {
        self.intersection_counted(other, &mut Steps::new())
    }

    /// [`intersection`](RedBlackTreeMap::intersection), which counts the nodes that it makes and the keys that it compares: at
    /// least one where both maps have a pair.
    pub fn intersection_counted(
        &self,
        other: &RedBlackTreeMap<K, V, A>,
        steps: &mut Steps,
    ) -> Result<RedBlackTreeMap<K, V, A>, AllocError>
        ensures ok { IfOk result (λ m. m.entries ≡ both_in K.cmp self.now.entries other.now.entries) }
        ensures found { IfOk result (λ m. (k : K) → find K.cmp k m.entries
            ≡ (if is_some (find K.cmp k other.now.entries) then find K.cmp k self.now.entries else None)) }
        ensures depth { IfOk result (λ m. m.depth ≤ most_levels (length m.entries)) }
        ensures steps { let few = min (length self.now.entries) (length other.now.entries) in
            let levels = most_levels (max (length self.now.entries) (length other.now.entries)) in
            let most = most_levels (length self.now.entries + length other.now.entries) in
            IsWithin (few * levels) (few * (4 * levels + 5 * most + 3)) steps.old steps.new }
        ensures compares { OnOk result (self.now.entries ≢ [] → other.now.entries ≢ []
            → steps.old.compared < steps.new.compared) }
    {
        let kept = Kept {
            walked: false,
            cut: false,
            common: Common::Walked,
        };
        let tree = self.combined(other, kept, steps)?;
        Ok(RedBlackTreeMap::of_counted(self.alloc, tree, self.size))
    }

    /// The pairs of this map whose keys aren't in the other one. Where this map is the smaller one, that goes as an
    /// [`intersection`](RedBlackTreeMap::intersection), else as a [`union`](RedBlackTreeMap::union).
    pub fn difference(
        &self,
        other: &RedBlackTreeMap<K, V, A>,
    ) -> Result<RedBlackTreeMap<K, V, A>, AllocError>
        ensures ok { IfOk result (λ m. m.entries ≡ only_in K.cmp self.now.entries other.now.entries) }
        ensures found { IfOk result (λ m. (k : K) → find K.cmp k m.entries
            ≡ (if is_none (find K.cmp k other.now.entries) then find K.cmp k self.now.entries else None)) }
        ensures depth { IfOk result (λ m. m.depth ≤ most_levels (length m.entries)) }
    {
        self.difference_counted(other, &mut Steps::new())
    }

    /// [`difference`](RedBlackTreeMap::difference), which counts the nodes that it makes and the keys that it compares: at least
    /// one where both maps have a pair.
    pub fn difference_counted(
        &self,
        other: &RedBlackTreeMap<K, V, A>,
        steps: &mut Steps,
    ) -> Result<RedBlackTreeMap<K, V, A>, AllocError>
        ensures ok { IfOk result (λ m. m.entries ≡ only_in K.cmp self.now.entries other.now.entries) }
        ensures found { IfOk result (λ m. (k : K) → find K.cmp k m.entries
            ≡ (if is_none (find K.cmp k other.now.entries) then find K.cmp k self.now.entries else None)) }
        ensures depth { IfOk result (λ m. m.depth ≤ most_levels (length m.entries)) }
        ensures steps { let few = min (length self.now.entries) (length other.now.entries) in
            let levels = most_levels (max (length self.now.entries) (length other.now.entries)) in
            let most = most_levels (length self.now.entries + length other.now.entries) in
            IsWithin (few * levels) (few * (4 * levels + 5 * most + 3)) steps.old steps.new }
        ensures compares { OnOk result (self.now.entries ≢ [] → other.now.entries ≢ []
            → steps.old.compared < steps.new.compared) }
    {
        let kept = Kept {
            walked: true,
            cut: false,
            common: Common::Neither,
        };
        let tree = self.combined(other, kept, steps)?;
        Ok(RedBlackTreeMap::of_counted(self.alloc, tree, self.size))
    }

    /// The pairs of either map whose keys aren't in the other one, at the cost of a [`union`](RedBlackTreeMap::union). The error
    /// means the same as there.
    pub fn symmetric_difference(
        &self,
        other: &RedBlackTreeMap<K, V, A>,
    ) -> Result<RedBlackTreeMap<K, V, A>, AllocError>
        ensures ok { let mine = only_in K.cmp self.now.entries other.now.entries in
            let theirs = only_in K.cmp other.now.entries self.now.entries in
            IfOk result (λ m. m.entries ≡ union_of K.cmp mine theirs) }
        ensures found { IfOk result (λ m. (k : K) → find K.cmp k m.entries
            ≡ option_xor (find K.cmp k self.now.entries) (find K.cmp k other.now.entries)) }
        ensures depth { IfOk result (λ m. m.depth ≤ most_levels (length m.entries)) }
    {
        self.symmetric_difference_counted(other, &mut Steps::new())
    }

    /// [`symmetric_difference`](RedBlackTreeMap::symmetric_difference), which counts the nodes that it makes and the keys that it
    /// compares: at least one where both maps have a pair.
    pub fn symmetric_difference_counted(
        &self,
        other: &RedBlackTreeMap<K, V, A>,
        steps: &mut Steps,
    ) -> Result<RedBlackTreeMap<K, V, A>, AllocError>
        ensures ok { let mine = only_in K.cmp self.now.entries other.now.entries in
            let theirs = only_in K.cmp other.now.entries self.now.entries in
            IfOk result (λ m. m.entries ≡ union_of K.cmp mine theirs) }
        ensures found { IfOk result (λ m. (k : K) → find K.cmp k m.entries
            ≡ option_xor (find K.cmp k self.now.entries) (find K.cmp k other.now.entries)) }
        ensures depth { IfOk result (λ m. m.depth ≤ most_levels (length m.entries)) }
        ensures steps { let few = min (length self.now.entries) (length other.now.entries) in
            let levels = most_levels (max (length self.now.entries) (length other.now.entries)) in
            let most = most_levels (length self.now.entries + length other.now.entries) in
            IsWithin (few * levels) (few * (4 * levels + 5 * most + 3)) steps.old steps.new }
        ensures compares { OnOk result (self.now.entries ≢ [] → other.now.entries ≢ []
            → steps.old.compared < steps.new.compared) }
    {
        let most = total(self.size, other.size)?;
        let kept = Kept {
            walked: true,
            cut: true,
            common: Common::Neither,
        };
        let tree = self.combined(other, kept, steps)?;
        Ok(RedBlackTreeMap::of_counted(self.alloc, tree, most))
    }
}
