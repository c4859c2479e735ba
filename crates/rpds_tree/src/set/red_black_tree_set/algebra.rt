//! Whole sets in one, and the operators that stand for that.
ghost use Rattle.std.specs.Prelude.{◌≡◌, ◌≢◌, ◌+◌, ◌*◌, ◌<◌, ◌≤◌, [], if◌then◌else◌, max, min, None, IfOk, OnOk, is_none, is_some, length};
ghost use Rattle.std.specs.Option.{option_or, option_xor};
ghost use Rattle.rpds_core.specs.Counts.{IsWithin};
ghost use Rattle.rpds_tree.specs.Algebra.{members_only_in, members_of_both, members_of_union};
ghost use Rattle.rpds_red_black.specs.Logarithm.{most_levels};
ghost use Rattle.rpds_tree.specs.OrderedSet.{find_member};

use crate::set::red_black_tree_set::RedBlackTreeSet;
use rpds_core::steps::Steps;
use std::alloc::{AllocError, Allocator};
use std::ops::{BitAnd, BitOr, BitXor, Sub};

#[tactic(auto, using(crate::proofs::SetUnions::union_rules))]
impl<T: Ord + Drop, A: Allocator + Copy> RedBlackTreeSet<T, A> {
    /// The members of both sets. Where both have an equal one, that of this set is there.
    ///
    /// `&a | &b` is the same. It costs what the map's [`union`](crate::map::red_black_tree_map::RedBlackTreeMap::union) costs, and its error
    /// means the same. Where the other set is larger, each common member takes a node, for this set's.
    pub fn union(&self, other: &RedBlackTreeSet<T, A>) -> Result<RedBlackTreeSet<T, A>, AllocError>
        ensures ok { IfOk result (λ s. s.members ≡ members_of_union T.cmp self.now.members other.now.members) }
        ensures found { IfOk result (λ s. (x : T) → find_member T.cmp x s.members
            ≡ option_or (find_member T.cmp x self.now.members) (find_member T.cmp x other.now.members)) }
        ensures depth { IfOk result (λ s. s.depth ≤ most_levels (length s.members)) }
    {
        self.union_counted(other, &mut Steps::new())
    }

    /// [`union`](RedBlackTreeSet::union), which counts the nodes that it makes and the members that it compares: at least one
    /// where both sets have a member.
    pub fn union_counted(
        &self,
        other: &RedBlackTreeSet<T, A>,
        steps: &mut Steps,
    ) -> Result<RedBlackTreeSet<T, A>, AllocError>
        ensures ok { IfOk result (λ s. s.members ≡ members_of_union T.cmp self.now.members other.now.members) }
        ensures found { IfOk result (λ s. (x : T) → find_member T.cmp x s.members
            ≡ option_or (find_member T.cmp x self.now.members) (find_member T.cmp x other.now.members)) }
        ensures depth { IfOk result (λ s. s.depth ≤ most_levels (length s.members)) }
        ensures steps { let few = min (length self.now.members) (length other.now.members) in
            let levels = most_levels (max (length self.now.members) (length other.now.members)) in
            let most = most_levels (length self.now.members + length other.now.members) in
            IsWithin (few * levels) (few * (4 * levels + 5 * most + 3)) steps.old steps.new }
        ensures compares { OnOk result (self.now.members ≢ [] → other.now.members ≢ []
            → steps.old.compared < steps.new.compared) }
    {
        let map = self.map.union_counted(&other.map, steps)?;
        Ok(RedBlackTreeSet { map })
    }

    /// The members of this set that are in the other one.
    ///
    /// `&a & &b` is the same. It costs what the map's [`intersection`](crate::map::red_black_tree_map::RedBlackTreeMap::intersection) costs.
    pub fn intersection(
        &self,
        other: &RedBlackTreeSet<T, A>,
    ) -> Result<RedBlackTreeSet<T, A>, AllocError>
        ensures ok { IfOk result (λ s. s.members ≡ members_of_both T.cmp self.now.members other.now.members) }
        ensures found { IfOk result (λ s. (x : T) → find_member T.cmp x s.members
            ≡ (if is_some (find_member T.cmp x other.now.members) then find_member T.cmp x self.now.members else None)) }
        ensures depth { IfOk result (λ s. s.depth ≤ most_levels (length s.members)) }
    {
        self.intersection_counted(other, &mut Steps::new())
    }

    /// [`intersection`](RedBlackTreeSet::intersection), which counts the nodes that it makes and the members that it compares: at
    /// least one where both sets have a member.
    pub fn intersection_counted(
        &self,
        other: &RedBlackTreeSet<T, A>,
        steps: &mut Steps,
    ) -> Result<RedBlackTreeSet<T, A>, AllocError>
        ensures ok { IfOk result (λ s. s.members ≡ members_of_both T.cmp self.now.members other.now.members) }
        ensures found { IfOk result (λ s. (x : T) → find_member T.cmp x s.members
            ≡ (if is_some (find_member T.cmp x other.now.members) then find_member T.cmp x self.now.members else None)) }
        ensures depth { IfOk result (λ s. s.depth ≤ most_levels (length s.members)) }
        ensures steps { let few = min (length self.now.members) (length other.now.members) in
            let levels = most_levels (max (length self.now.members) (length other.now.members)) in
            let most = most_levels (length self.now.members + length other.now.members) in
            IsWithin (few * levels) (few * (4 * levels + 5 * most + 3)) steps.old steps.new }
        ensures compares { OnOk result (self.now.members ≢ [] → other.now.members ≢ []
            → steps.old.compared < steps.new.compared) }
    {
        let map = self.map.intersection_counted(&other.map, steps)?;
        Ok(RedBlackTreeSet { map })
    }

    /// The members of this set that aren't in the other one.
    ///
    /// `&a - &b` is the same. It costs what the map's [`difference`](crate::map::red_black_tree_map::RedBlackTreeMap::difference) costs.
    pub fn difference(
        &self,
        other: &RedBlackTreeSet<T, A>,
    ) -> Result<RedBlackTreeSet<T, A>, AllocError>
        ensures ok { IfOk result (λ s. s.members ≡ members_only_in T.cmp self.now.members other.now.members) }
        ensures found { IfOk result (λ s. (x : T) → find_member T.cmp x s.members
            ≡ (if is_none (find_member T.cmp x other.now.members) then find_member T.cmp x self.now.members else None)) }
        ensures depth { IfOk result (λ s. s.depth ≤ most_levels (length s.members)) }
    {
        self.difference_counted(other, &mut Steps::new())
    }

    /// [`difference`](RedBlackTreeSet::difference), which counts the nodes that it makes and the members that it compares: at
    /// least one where both sets have a member.
    pub fn difference_counted(
        &self,
        other: &RedBlackTreeSet<T, A>,
        steps: &mut Steps,
    ) -> Result<RedBlackTreeSet<T, A>, AllocError>
        ensures ok { IfOk result (λ s. s.members ≡ members_only_in T.cmp self.now.members other.now.members) }
        ensures found { IfOk result (λ s. (x : T) → find_member T.cmp x s.members
            ≡ (if is_none (find_member T.cmp x other.now.members) then find_member T.cmp x self.now.members else None)) }
        ensures depth { IfOk result (λ s. s.depth ≤ most_levels (length s.members)) }
        ensures steps { let few = min (length self.now.members) (length other.now.members) in
            let levels = most_levels (max (length self.now.members) (length other.now.members)) in
            let most = most_levels (length self.now.members + length other.now.members) in
            IsWithin (few * levels) (few * (4 * levels + 5 * most + 3)) steps.old steps.new }
        ensures compares { OnOk result (self.now.members ≢ [] → other.now.members ≢ []
            → steps.old.compared < steps.new.compared) }
    {
        let map = self.map.difference_counted(&other.map, steps)?;
        Ok(RedBlackTreeSet { map })
    }

    /// The members of either set that aren't in the other one.
    ///
    /// `&a ^ &b` is the same. It costs what the map's [`symmetric_difference`](crate::map::red_black_tree_map::RedBlackTreeMap::symmetric_difference) costs, and its error
    /// means the same.
    pub fn symmetric_difference(
        &self,
        other: &RedBlackTreeSet<T, A>,
    ) -> Result<RedBlackTreeSet<T, A>, AllocError>
        ensures ok { let mine = members_only_in T.cmp self.now.members other.now.members in
            let theirs = members_only_in T.cmp other.now.members self.now.members in
            IfOk result (λ s. s.members ≡ members_of_union T.cmp mine theirs) }
        ensures found { IfOk result (λ s. (x : T) → find_member T.cmp x s.members
            ≡ option_xor (find_member T.cmp x self.now.members) (find_member T.cmp x other.now.members)) }
        ensures depth { IfOk result (λ s. s.depth ≤ most_levels (length s.members)) }
    {
        self.symmetric_difference_counted(other, &mut Steps::new())
    }

    /// [`symmetric_difference`](RedBlackTreeSet::symmetric_difference), which counts the nodes that it makes and the members that
    /// it compares: at least one where both sets have a member.
    pub fn symmetric_difference_counted(
        &self,
        other: &RedBlackTreeSet<T, A>,
        steps: &mut Steps,
    ) -> Result<RedBlackTreeSet<T, A>, AllocError>
        ensures ok { let mine = members_only_in T.cmp self.now.members other.now.members in
            let theirs = members_only_in T.cmp other.now.members self.now.members in
            IfOk result (λ s. s.members ≡ members_of_union T.cmp mine theirs) }
        ensures found { IfOk result (λ s. (x : T) → find_member T.cmp x s.members
            ≡ option_xor (find_member T.cmp x self.now.members) (find_member T.cmp x other.now.members)) }
        ensures depth { IfOk result (λ s. s.depth ≤ most_levels (length s.members)) }
        ensures steps { let few = min (length self.now.members) (length other.now.members) in
            let levels = most_levels (max (length self.now.members) (length other.now.members)) in
            let most = most_levels (length self.now.members + length other.now.members) in
            IsWithin (few * levels) (few * (4 * levels + 5 * most + 3)) steps.old steps.new }
        ensures compares { OnOk result (self.now.members ≢ [] → other.now.members ≢ []
            → steps.old.compared < steps.new.compared) }
    {
        let map = self.map.symmetric_difference_counted(&other.map, steps)?;
        Ok(RedBlackTreeSet { map })
    }
}

/// [`union`](RedBlackTreeSet::union).
impl<'a, 'b, T: Ord + Drop, A: Allocator + Copy> BitOr<&'b RedBlackTreeSet<T, A>>
    for &'a RedBlackTreeSet<T, A> {
    type Output = Result<RedBlackTreeSet<T, A>, AllocError>;

    ghost can_bitor = { λ _ _. Unit {0} };

    ghost bitor_gives = { λ a b r. IfOk r (λ s. s.members ≡ members_of_union T.cmp a.now.members b.now.members) };

    fn bitor(self, other: &'b RedBlackTreeSet<T, A>) -> Result<RedBlackTreeSet<T, A>, AllocError> {
        self.union(other)
    }
}

/// [`intersection`](RedBlackTreeSet::intersection).
impl<'a, 'b, T: Ord + Drop, A: Allocator + Copy> BitAnd<&'b RedBlackTreeSet<T, A>>
    for &'a RedBlackTreeSet<T, A> {
    type Output = Result<RedBlackTreeSet<T, A>, AllocError>;

    ghost can_bitand = { λ _ _. Unit {0} };

    ghost bitand_gives = { λ a b r. IfOk r (λ s. s.members ≡ members_of_both T.cmp a.now.members b.now.members) };

    fn bitand(self, other: &'b RedBlackTreeSet<T, A>) -> Result<RedBlackTreeSet<T, A>, AllocError> {
        self.intersection(other)
    }
}

/// [`difference`](RedBlackTreeSet::difference).
impl<'a, 'b, T: Ord + Drop, A: Allocator + Copy> Sub<&'b RedBlackTreeSet<T, A>>
    for &'a RedBlackTreeSet<T, A> {
    type Output = Result<RedBlackTreeSet<T, A>, AllocError>;

    ghost can_sub = { λ _ _. Unit {0} };

    ghost sub_gives = { λ a b r. IfOk r (λ s. s.members ≡ members_only_in T.cmp a.now.members b.now.members) };

    fn sub(self, other: &'b RedBlackTreeSet<T, A>) -> Result<RedBlackTreeSet<T, A>, AllocError> {
        self.difference(other)
    }
}

/// [`symmetric_difference`](RedBlackTreeSet::symmetric_difference).
impl<'a, 'b, T: Ord + Drop, A: Allocator + Copy> BitXor<&'b RedBlackTreeSet<T, A>>
    for &'a RedBlackTreeSet<T, A> {
    type Output = Result<RedBlackTreeSet<T, A>, AllocError>;

    ghost can_bitxor = { λ _ _. Unit {0} };

    ghost bitxor_gives = { λ a b r. IfOk r (λ s. s.members ≡ members_of_union T.cmp
        (members_only_in T.cmp a.now.members b.now.members) (members_only_in T.cmp b.now.members a.now.members)) };

    fn bitxor(self, other: &'b RedBlackTreeSet<T, A>) -> Result<RedBlackTreeSet<T, A>, AllocError> {
        self.symmetric_difference(other)
    }
}
