//! Two branches of one map in one.
ghost use Rattle.std.specs.Prelude.{◌≡◌, ◌≢◌, ◌+◌, ◌*◌, ◌<◌, [], false, is_some, length, map, IfOk, OnOk, Option};
ghost use Rattle.std.specs.List.Sorted.{IsStrictlySortedBy};
ghost use Rattle.std.specs.declared.cmp.Ordering.TheVariants.{Equal};
ghost use Rattle.rpds_branch.specs.Branches.{branched, most_pairs};
ghost use Rattle.rpds_core.specs.Counts.{IsWithin};
ghost use Rattle.rpds_red_black.specs.Logarithm.{most_levels};
ghost use Rattle.rpds_tree.specs.Algebra.{members_of_union};
ghost use Rattle.rpds_tree.specs.Differences.{differ, value_of};
ghost use Rattle.rpds_tree.specs.Merges.{IsMergedAt, SettlesBy, is_conflict_at, merged_at, merged_value};
ghost use Rattle.rpds_tree.specs.OrderedSet.{find_member};
ghost use Rattle.rpds_tree.specs.Pairs.{find};

use crate::branch::Branch;
use rpds_core::steps::Steps;
use rpds_tree::map::red_black_tree_map::RedBlackTreeMap;
use rpds_tree::merging::{merge_key, merge_key_with};
use std::alloc::{AllocError, Allocator, Global};

/// What came of a merge that leaves conflicts.
#[derive(Drop)]
#[must_use = "a merge returns a new branch, and leaves the old one as it is"]
pub struct Merged<'a, K: Ord, V, A: Allocator = Global> {
    /// What either side alone changed as that side has it, and all else as ours has it.
    pub branch: Branch<K, V, A>,
    /// The keys that both sides changed, and not alike, in order.
    pub conflicts: Vec<&'a K, A>,
}

impl<K: Ord + Drop, V: Eq + Drop, A: Allocator + Copy> Branch<K, V, A> {
    // The branch with another map, in which each key that they didn't change is as it is here.
    fn with_merged(
        &self,
        current: RedBlackTreeMap<K, V, A>,
        theirs: &Branch<K, V, A>,
        steps: &mut Steps,
    ) -> Result<Branch<K, V, A>, AllocError>
        requires { (k : K)
            → differ V.eq (value_of K.cmp k theirs.now.base.entries) (value_of K.cmp k theirs.now.current.entries) ≡ false
            → find K.cmp k current.entries ≡ find K.cmp k self.now.current.entries }
        ensures base { IfOk result (λ m. m.base ≡ self.now.base) }
        ensures current { IfOk result (λ m. m.current ≡ current) }
        ensures touched { IfOk result (λ m. m.touched ≡ members_of_union K.cmp self.now.touched theirs.now.touched) }
        ensures steps { let count = length theirs.now.touched in
            let levels = most_levels (length self.now.touched + count) in
            IsWithin (count * levels) (count * (9 * levels + 3)) steps.old steps.new }
        ensures compares { OnOk result (self.now.touched ≢ [] → theirs.now.touched ≢ [] → steps.old.compared < steps.new.compared) }
    {
        Ok(Branch {
            base: self.base.clone()?,
            current,
            touched: self.touched.union_counted(&theirs.touched, steps)?,
        })
    }

    /// Brings what they changed into this branch, and lists the keys that both changed differently: there ours stays. Pairs
    /// are shared, and nothing is cloned.
    ///
    /// What they changed is what differs from their base. Where both have one base, this is a three-way merge: a key that neither
    /// or one side changed is as that side has it, one that both changed alike is as ours has it, and any other is a conflict.
    /// [`rebase`](Branch::rebase) puts a branch's changes on another map.
    ///
    /// The error means that memory ran out; it comes, too, where there would be more than `usize::MAX` pairs.
    pub fn merge_ours<'a>(
        &self,
        theirs: &'a Branch<K, V, A>,
    ) -> Result<Merged<'a, K, V, A>, AllocError>
        ensures base { IfOk result (λ m. m.branch.base ≡ self.now.base) }
        ensures pairs { IfOk result (λ m. (k : K) → find K.cmp k m.branch.current.entries
            ≡ merged_at K.cmp V.eq theirs.now.base.entries self.now.current.entries theirs.now.current.entries k) }
        ensures conflicts { IfOk result (λ m. (k : K) → is_some (find_member K.cmp k (map (λ key. key.now) m.conflicts.items))
            ≡ is_conflict_at K.cmp V.eq theirs.now.base.entries self.now.current.entries theirs.now.current.entries k) }
        ensures ascending { IfOk result (λ m. IsStrictlySortedBy K.cmp (map (λ key. key.now) m.conflicts.items)) }
        ensures touched { IfOk result (λ m. m.branch.touched ≡ members_of_union K.cmp self.now.touched theirs.now.touched) }
    {
        self.merge_ours_counted(theirs, &mut Steps::new())
    }

    /// [`merge_ours`](Branch::merge_ours) with counts: at most `12 k log2(n + 1)` comparisons and `26 k log2(n + 1) + 4 k` new nodes,
    /// where they changed k keys, their two maps have at most n pairs each, and our map and the keys that we changed at most `n - k`;
    /// and at least one comparison where both sides changed a key.
    #[tactic(auto, using(crate::proofs::Merging::kept))]
    pub fn merge_ours_counted<'a>(
        &self,
        theirs: &'a Branch<K, V, A>,
        steps: &mut Steps,
    ) -> Result<Merged<'a, K, V, A>, AllocError>
        ensures base { IfOk result (λ m. m.branch.base ≡ self.now.base) }
        ensures pairs { IfOk result (λ m. (k : K) → find K.cmp k m.branch.current.entries
            ≡ merged_at K.cmp V.eq theirs.now.base.entries self.now.current.entries theirs.now.current.entries k) }
        ensures conflicts { IfOk result (λ m. (k : K) → is_some (find_member K.cmp k (map (λ key. key.now) m.conflicts.items))
            ≡ is_conflict_at K.cmp V.eq theirs.now.base.entries self.now.current.entries theirs.now.current.entries k) }
        ensures ascending { IfOk result (λ m. IsStrictlySortedBy K.cmp (map (λ key. key.now) m.conflicts.items)) }
        ensures touched { IfOk result (λ m. m.branch.touched ≡ members_of_union K.cmp self.now.touched theirs.now.touched) }
        ensures steps { let count = length theirs.now.touched in
            let levels = most_levels (most_pairs self.now theirs.now) in
            IsWithin (count * (6 * levels)) (count * (13 * levels + 4)) steps.old steps.new }
        ensures compares { OnOk result (self.now.touched ≢ [] → theirs.now.touched ≢ [] → steps.old.compared < steps.new.compared) }
    {
        let mut current = self.current.clone()?;
        let mut conflicts = Vec::new(*self.current.allocator());
        for (key, _) in theirs.touched.iter() {
            if merge_key(&mut current, &theirs.base, &theirs.current, key, steps)? {
                conflicts.push(key)?;
            }
        }
        let branch = self.with_merged(current, theirs, steps)?;
        Ok(Merged { branch, conflicts })
    }

    /// Puts what this branch changed on another map: a branch of that map with the changes, and the keys that both changed, and not
    /// alike, at which that map's pair stays. What that map changed is what differs from this branch's base.
    ///
    /// It is `Branch::new(onto)?.merge_ours(self)`, and its error means what it means there.
    pub fn rebase(&self, onto: &RedBlackTreeMap<K, V, A>) -> Result<Merged<'_, K, V, A>, AllocError>
        ensures base { IfOk result (λ m. m.branch.base ≡ onto.now) }
        ensures pairs { IfOk result (λ m. (k : K) → find K.cmp k m.branch.current.entries
            ≡ merged_at K.cmp V.eq self.now.base.entries onto.now.entries self.now.current.entries k) }
        ensures conflicts { IfOk result (λ m. (k : K) → is_some (find_member K.cmp k (map (λ key. key.now) m.conflicts.items))
            ≡ is_conflict_at K.cmp V.eq self.now.base.entries onto.now.entries self.now.current.entries k) }
        ensures ascending { IfOk result (λ m. IsStrictlySortedBy K.cmp (map (λ key. key.now) m.conflicts.items)) }
        ensures touched { IfOk result (λ m. m.branch.touched ≡ self.now.touched) }
    {
        self.rebase_counted(onto, &mut Steps::new())
    }

    /// [`rebase`](Branch::rebase) with counts: at most `12 k log2(n + 1)` comparisons and `26 k log2(n + 1) + 4 k` new nodes, where the
    /// branch changed k keys, its two maps have at most n pairs each, and the other map at most `n - k`.
    pub fn rebase_counted(
        &self,
        onto: &RedBlackTreeMap<K, V, A>,
        steps: &mut Steps,
    ) -> Result<Merged<'_, K, V, A>, AllocError>
        ensures base { IfOk result (λ m. m.branch.base ≡ onto.now) }
        ensures pairs { IfOk result (λ m. (k : K) → find K.cmp k m.branch.current.entries
            ≡ merged_at K.cmp V.eq self.now.base.entries onto.now.entries self.now.current.entries k) }
        ensures conflicts { IfOk result (λ m. (k : K) → is_some (find_member K.cmp k (map (λ key. key.now) m.conflicts.items))
            ≡ is_conflict_at K.cmp V.eq self.now.base.entries onto.now.entries self.now.current.entries k) }
        ensures ascending { IfOk result (λ m. IsStrictlySortedBy K.cmp (map (λ key. key.now) m.conflicts.items)) }
        ensures touched { IfOk result (λ m. m.branch.touched ≡ self.now.touched) }
        ensures steps { let count = length self.now.touched in
            let levels = most_levels (most_pairs (branched onto.now onto.now []) self.now) in
            IsWithin (count * (6 * levels)) (count * (13 * levels + 4)) steps.old steps.new }
    {
        let branch = Branch::new(onto)?;
        branch.merge_ours_counted(self, steps)
    }
}

impl<K: Ord + Clone + Drop, V: Eq + Drop, A: Allocator + Copy> Branch<K, V, A> {
    /// Brings what they changed into this branch. Where both changed a key, and not alike, it has what `resolve` answers: a value, or
    /// nothing. `resolve` is handed the key, and its value in their base, in this branch and in theirs.
    ///
    /// All other keys are as after [`merge_ours`](Branch::merge_ours). Pairs that are taken over are shared; a key that `resolve`
    /// gives a value is cloned.
    ///
    /// The error means that `resolve` or the clone of a key failed, or that memory ran out; it comes, too, where there would be more
    /// than `usize::MAX` pairs.
    pub fn merge<F: Fn(&K, Option<&V>, Option<&V>, Option<&V>) -> Result<Option<V>, AllocError>>(
        &self,
        theirs: &Branch<K, V, A>,
        resolve: F,
    ) -> Result<Branch<K, V, A>, AllocError>
        requires clone_keys { (x y : K) → K.is_clone x y → K.cmp x y ≡ Equal }
        requires callable { F.IsAlwaysCallable resolve }
        ensures base { IfOk result (λ m. m.base ≡ self.now.base) }
        ensures touched { IfOk result (λ m. m.touched ≡ members_of_union K.cmp self.now.touched theirs.now.touched) }
        ensures pairs { IfOk result (λ m. (k : K) →
            IsMergedAt K.cmp V.eq F.Fn resolve theirs.now.base.entries self.now.current.entries theirs.now.current.entries k
            (find K.cmp k m.current.entries)) }
        ensures values { IfOk result (λ m. (h : Option V → Option V → Option V → Option V) → SettlesBy F.Fn resolve h → (k : K)
            → value_of K.cmp k m.current.entries ≡ merged_value V.eq h (value_of K.cmp k theirs.now.base.entries)
            (value_of K.cmp k self.now.current.entries) (value_of K.cmp k theirs.now.current.entries)) }
    {
        self.merge_counted(theirs, resolve, &mut Steps::new())
    }

    /// [`merge`](Branch::merge) with counts: at most `20 k log2(n + 1)` comparisons and `34 k log2(n + 1) + 5 k` new nodes, where they
    /// changed k keys, their two maps have at most n pairs each, and our map and the keys that we changed at most `n - k`; and at least
    /// one comparison where both sides changed a key. It doesn't count what `resolve` does.
    #[tactic(auto, using(crate::proofs::Merging::kept_of, rpds_tree::proofs::MergeSteps::valued))]
    pub fn merge_counted<
        F: Fn(&K, Option<&V>, Option<&V>, Option<&V>) -> Result<Option<V>, AllocError>,
    >(
        &self,
        theirs: &Branch<K, V, A>,
        resolve: F,
        steps: &mut Steps,
    ) -> Result<Branch<K, V, A>, AllocError>
        requires clone_keys { (x y : K) → K.is_clone x y → K.cmp x y ≡ Equal }
        requires callable { F.IsAlwaysCallable resolve }
        ensures base { IfOk result (λ m. m.base ≡ self.now.base) }
        ensures touched { IfOk result (λ m. m.touched ≡ members_of_union K.cmp self.now.touched theirs.now.touched) }
        ensures pairs { IfOk result (λ m. (k : K) →
            IsMergedAt K.cmp V.eq F.Fn resolve theirs.now.base.entries self.now.current.entries theirs.now.current.entries k
            (find K.cmp k m.current.entries)) }
        ensures values { IfOk result (λ m. (h : Option V → Option V → Option V → Option V) → SettlesBy F.Fn resolve h → (k : K)
            → value_of K.cmp k m.current.entries ≡ merged_value V.eq h (value_of K.cmp k theirs.now.base.entries)
            (value_of K.cmp k self.now.current.entries) (value_of K.cmp k theirs.now.current.entries)) }
        ensures steps { let count = length theirs.now.touched in
            let levels = most_levels (most_pairs self.now theirs.now) in
            IsWithin (count * (10 * levels)) (count * (17 * levels + 5)) steps.old steps.new }
        ensures compares { OnOk result (self.now.touched ≢ [] → theirs.now.touched ≢ [] → steps.old.compared < steps.new.compared) }
    {
        let mut current = self.current.clone()?;
        for (key, _) in theirs.touched.iter() {
            merge_key_with(
                &mut current,
                &theirs.base,
                &theirs.current,
                key,
                &resolve,
                steps,
            )?;
        }
        self.with_merged(current, theirs, steps)
    }
}
