//! A map cut in two at a key, and its subranges as maps of their own.
ghost use Rattle.std.specs.Prelude.{◌≡◌, ◌≢◌, ◌+◌, ◌*◌, ◌<◌, ◌≤◌, [], filter, not, IfOk, length};
ghost use Rattle.std.specs.Map.Iter.{deref_pair};
ghost use Rattle.std.specs.Option.{option_map};
ghost use Rattle.std.specs.Range.Bound.{bound_map};
ghost use Rattle.std.specs.declared.ops.Bound.TheVariants.{Excluded, Unbounded};
ghost use Rattle.rpds_core.specs.Counts.{IsWithin};
ghost use Rattle.rpds_red_black.specs.Logarithm.{most_levels};
ghost use Rattle.rpds_red_black.specs.Pairs.{find};
ghost use Rattle.rpds_red_black.specs.Ranges.{bound_at, is_from, is_up_to, outside_forms, within_forms};

use crate::map::red_black_tree_map::RedBlackTreeMap;
use rpds_core::key::OrdKey;
use rpds_core::steps::Steps;
use rpds_red_black::seek::AtKey;
use rpds_red_black::split::Split as TreeSplit;
use std::alloc::{AllocError, Allocator, Global};
use std::ops::Bound;

/// What a map is cut into at a key.
#[derive(Drop)]
#[must_use = "a cut returns two new maps, and leaves the old one as it is"]
pub struct Split<'a, K: Ord, V, A: Allocator = Global> {
    /// The pairs whose keys are below it.
    pub below: RedBlackTreeMap<K, V, A>,
    /// The pair at it, if there is one.
    pub at: Option<(&'a K, &'a V)>,
    /// The pairs whose keys are above it.
    pub above: RedBlackTreeMap<K, V, A>,
}

impl<K: Ord + Drop, V: Drop, A: Allocator + Copy> RedBlackTreeMap<K, V, A> {
    /// The map cut in two at a key. All nodes but those of one path are shared with it: of n pairs it compares at most
    /// `2 floor(log2(n + 1))` keys and makes at most four times as many nodes (Blelloch, Ferizovic, Sun, Just Join for Parallel
    /// Ordered Sets, 2016). The error means that memory ran out.
    pub fn split<Q: OrdKey<K>>(&self, key: Q) -> Result<Split<'_, K, V, A>, AllocError>
        ensures below { IfOk result (λ s.
            s.below.entries ≡ within_forms Q.order Q.turned Unbounded (Excluded (Q.seen key)) self.now.entries) }
        ensures at { IfOk result (λ s.
            option_map deref_pair s.at ≡ find Q.order (Q.seen key) self.now.entries) }
        ensures above { IfOk result (λ s.
            s.above.entries ≡ within_forms Q.order Q.turned (Excluded (Q.seen key)) Unbounded self.now.entries) }
    {
        self.split_counted(key, &mut Steps::new())
    }

    /// [`split`](RedBlackTreeMap::split), which counts the keys that it compares and the nodes that it makes.
    pub fn split_counted<Q: OrdKey<K>>(
        &self,
        key: Q,
        steps: &mut Steps,
    ) -> Result<Split<'_, K, V, A>, AllocError>
        ensures below { IfOk result (λ s.
            s.below.entries ≡ within_forms Q.order Q.turned Unbounded (Excluded (Q.seen key)) self.now.entries) }
        ensures at { IfOk result (λ s.
            option_map deref_pair s.at ≡ find Q.order (Q.seen key) self.now.entries) }
        ensures above { IfOk result (λ s.
            s.above.entries ≡ within_forms Q.order Q.turned (Excluded (Q.seen key)) Unbounded self.now.entries) }
        ensures steps { let levels = most_levels (length self.now.entries) in
            IsWithin levels (4 * levels) steps.old steps.new }
        ensures compares { self.now.entries ≢ [] → steps.old.compared < steps.new.compared }
    {
        let size = self.size();
        let height = self.tree.height();
        self.tree.prove_sound();
        let sought = AtKey { form: key };
        let TreeSplit {
            before,
            found,
            after,
        } = self.tree.cut(self.alloc, height, sought, steps)?;
        let at = match found {
            None => None,
            Some(entry) => Some((&entry.key, &entry.value)),
        };
        let below = RedBlackTreeMap::of_counted(self.alloc, before.tree.into_black(), size);
        let above = RedBlackTreeMap::of_counted(self.alloc, after.tree.into_black(), size);
        Ok(Split { below, at, above })
    }

    // The pairs whose keys are above the key, and the one at it, where that is kept.
    fn pairs_from_key<Q: OrdKey<K>>(
        &self,
        key: Q,
        kept: bool,
        steps: &mut Steps,
    ) -> Result<RedBlackTreeMap<K, V, A>, AllocError>
        ensures ok { IfOk result (λ m. m.entries ≡ filter (λ p. is_from Q.order (bound_at kept (Q.seen key)) p.0) self.now.entries) }
        ensures depth { IfOk result (λ m. m.depth ≤ most_levels (length m.entries)) }
        ensures steps { let levels = most_levels (length self.now.entries) in
            IsWithin levels (5 * levels + 2) steps.old steps.new }
    {
        let size = self.size();
        let height = self.tree.height();
        self.tree.prove_sound();
        let sought = AtKey { form: key };
        let split = self.tree.cut(self.alloc, height, sought, steps)?;
        let part = split.from_key(self.alloc, kept, steps)?;
        Ok(RedBlackTreeMap::of_counted(self.alloc, part.tree.into_black(), size))
    }

    // The pairs whose keys are below the key, and the one at it, where that is kept.
    fn pairs_up_to_key<Q: OrdKey<K>>(
        &self,
        key: Q,
        kept: bool,
        steps: &mut Steps,
    ) -> Result<RedBlackTreeMap<K, V, A>, AllocError>
        ensures ok { IfOk result (λ m. m.entries ≡ filter (λ p. is_up_to Q.turned (bound_at kept (Q.seen key)) p.0) self.now.entries) }
        ensures depth { IfOk result (λ m. m.depth ≤ most_levels (length m.entries)) }
        ensures steps { let levels = most_levels (length self.now.entries) in
            IsWithin levels (5 * levels + 2) steps.old steps.new }
    {
        let size = self.size();
        let height = self.tree.height();
        self.tree.prove_sound();
        let sought = AtKey { form: key };
        let split = self.tree.cut(self.alloc, height, sought, steps)?;
        let part = split.up_to_key(self.alloc, kept, steps)?;
        Ok(RedBlackTreeMap::of_counted(self.alloc, part.tree.into_black(), size))
    }

    // The pairs whose keys are at or above a bound.
    fn pairs_from<Q: OrdKey<K>>(
        &self,
        start: Bound<Q>,
        steps: &mut Steps,
    ) -> Result<RedBlackTreeMap<K, V, A>, AllocError>
        ensures ok { IfOk result (λ m. m.entries ≡ filter (λ p. is_from Q.order (bound_map Q.seen start) p.0) self.now.entries) }
        ensures depth { IfOk result (λ m. m.depth ≤ most_levels (length m.entries)) }
        ensures steps { let levels = most_levels (length self.now.entries) in
            IsWithin levels (5 * levels + 2) steps.old steps.new }
    {
        // For its clause: no path is long.
        let _size = self.size();
        match start {
            Bound::Included(key) => self.pairs_from_key(key, true, steps),
            Bound::Excluded(key) => self.pairs_from_key(key, false, steps),
            Bound::Unbounded => self.clone(),
        }
    }

    // The pairs whose keys are at or below a bound.
    fn pairs_up_to<Q: OrdKey<K>>(
        &self,
        end: Bound<Q>,
        steps: &mut Steps,
    ) -> Result<RedBlackTreeMap<K, V, A>, AllocError>
        ensures ok { IfOk result (λ m. m.entries ≡ filter (λ p. is_up_to Q.turned (bound_map Q.seen end) p.0) self.now.entries) }
        ensures depth { IfOk result (λ m. m.depth ≤ most_levels (length m.entries)) }
        ensures steps { let levels = most_levels (length self.now.entries) in
            IsWithin levels (5 * levels + 2) steps.old steps.new }
    {
        // For its clause: no path is long.
        let _size = self.size();
        match end {
            Bound::Included(key) => self.pairs_up_to_key(key, true, steps),
            Bound::Excluded(key) => self.pairs_up_to_key(key, false, steps),
            Bound::Unbounded => self.clone(),
        }
    }

    // The pairs whose keys are below a start.
    fn pairs_below<Q: OrdKey<K>>(
        &self,
        start: Bound<Q>,
        steps: &mut Steps,
    ) -> Result<RedBlackTreeMap<K, V, A>, AllocError>
        ensures ok { IfOk result (λ m. m.entries ≡ filter (λ p. not (is_from Q.order (bound_map Q.seen start) p.0)) self.now.entries) }
        ensures steps { let levels = most_levels (length self.now.entries) in
            IsWithin levels (5 * levels + 2) steps.old steps.new }
    {
        match start {
            Bound::Included(key) => self.pairs_up_to_key(key, false, steps),
            Bound::Excluded(key) => self.pairs_up_to_key(key, true, steps),
            Bound::Unbounded => Ok(RedBlackTreeMap::new(self.alloc)),
        }
    }

    // The pairs whose keys are above an end.
    fn pairs_above<Q: OrdKey<K>>(
        &self,
        end: Bound<Q>,
        steps: &mut Steps,
    ) -> Result<RedBlackTreeMap<K, V, A>, AllocError>
        ensures ok { IfOk result (λ m. m.entries ≡ filter (λ p. not (is_up_to Q.turned (bound_map Q.seen end) p.0)) self.now.entries) }
        ensures steps { let levels = most_levels (length self.now.entries) in
            IsWithin levels (5 * levels + 2) steps.old steps.new }
    {
        match end {
            Bound::Included(key) => self.pairs_from_key(key, false, steps),
            Bound::Excluded(key) => self.pairs_from_key(key, true, steps),
            Bound::Unbounded => Ok(RedBlackTreeMap::new(self.alloc)),
        }
    }

    /// The pairs whose keys are within the bounds, as a map of their own: what [`range`](RedBlackTreeMap::range) gives. It cuts the
    /// map at each bound, as [`split`](RedBlackTreeMap::split) does, and shares all other nodes with it. The error means that memory
    /// ran out.
    pub fn subrange<Q: OrdKey<K>>(
        &self,
        start: Bound<Q>,
        end: Bound<Q>,
    ) -> Result<RedBlackTreeMap<K, V, A>, AllocError>
        ensures ok { IfOk result (λ m. m.entries
            ≡ within_forms Q.order Q.turned (bound_map Q.seen start) (bound_map Q.seen end) self.now.entries) }
        ensures depth { IfOk result (λ m. m.depth ≤ most_levels (length m.entries)) }
    {
        self.subrange_counted(start, end, &mut Steps::new())
    }

    /// [`subrange`](RedBlackTreeMap::subrange), which counts the keys that it compares and the nodes that it makes.
    pub fn subrange_counted<Q: OrdKey<K>>(
        &self,
        start: Bound<Q>,
        end: Bound<Q>,
        steps: &mut Steps,
    ) -> Result<RedBlackTreeMap<K, V, A>, AllocError>
        ensures ok { IfOk result (λ m. m.entries
            ≡ within_forms Q.order Q.turned (bound_map Q.seen start) (bound_map Q.seen end) self.now.entries) }
        ensures depth { IfOk result (λ m. m.depth ≤ most_levels (length m.entries)) }
        ensures steps { let levels = most_levels (length self.now.entries) in
            IsWithin (2 * levels) (10 * levels + 4) steps.old steps.new }
    {
        let part = self.pairs_from(start, steps)?;
        part.pairs_up_to(end, steps)
    }

    /// The pairs whose keys are outside the bounds: what [`subrange`](RedBlackTreeMap::subrange) leaves out. It cuts the map at
    /// each bound and joins what is before the first to what is behind the second; where nothing lies between, it is the map
    /// itself. The error means that memory ran out.
    pub fn without_range<Q: OrdKey<K>>(
        &self,
        start: Bound<Q>,
        end: Bound<Q>,
    ) -> Result<RedBlackTreeMap<K, V, A>, AllocError>
        ensures ok { IfOk result (λ m. m.entries
            ≡ outside_forms Q.order Q.turned (bound_map Q.seen start) (bound_map Q.seen end) self.now.entries) }
        ensures depth { IfOk result (λ m. m.depth ≤ most_levels (length m.entries)) }
    {
        self.without_range_counted(start, end, &mut Steps::new())
    }

    /// [`without_range`](RedBlackTreeMap::without_range), which counts the keys that it compares and the nodes that it makes.
    pub fn without_range_counted<Q: OrdKey<K>>(
        &self,
        start: Bound<Q>,
        end: Bound<Q>,
        steps: &mut Steps,
    ) -> Result<RedBlackTreeMap<K, V, A>, AllocError>
        ensures ok { IfOk result (λ m. m.entries
            ≡ outside_forms Q.order Q.turned (bound_map Q.seen start) (bound_map Q.seen end) self.now.entries) }
        ensures depth { IfOk result (λ m. m.depth ≤ most_levels (length m.entries)) }
        ensures steps { let levels = most_levels (length self.now.entries) in
            IsWithin (2 * levels) (15 * levels + 7) steps.old steps.new }
    {
        let size = self.size();
        let before = self.pairs_below(start, steps)?;
        let after = self.pairs_above(end, steps)?;
        let between = size
            .saturating_sub(before.size())
            .saturating_sub(after.size());
        if between == 0 {
            return self.clone();
        }
        before.append_unchecked(&after, steps)
    }
}
