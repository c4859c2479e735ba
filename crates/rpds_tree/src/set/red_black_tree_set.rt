//! A persistent set whose members are in order: the keys of an ordered map.
ghost use Rattle.std.specs.Prelude.{◌≡◌, ◌≢◌, ◌+◌, ◌*◌, ◌-◌, ◌<◌, ◌≤◌, ◌↔◌, None, Ok, false};
ghost use Rattle.std.specs.Prelude.{[], List, length, vec_len, slice_get, is_some, IsSome, IsTrue, IsOk, IfOk, OnOk, OnErr};
ghost use Rattle.std.specs.Iterator.{Drains, IsFinite};
ghost use Rattle.std.specs.Option.{option_copied};
ghost use Rattle.rpds_core.specs.Counts.{IsMadeWithin, IsWithin};
ghost use Rattle.rpds_red_black.specs.Logarithm.{floor_log2, most_levels};
ghost use Rattle.rpds_tree.specs.OrderedSet.{IsOrderedSet, find_member, put_member, put_members, without_member};
ghost use Rattle.rpds_tree.specs.Sorted.{first_out_of_order, reported_position};

mod algebra;
mod compared;
mod diff;
mod extend;
mod first_and_last;
mod iter;
mod keep_by_flags;
mod neighbors;
mod positions;
mod range;
mod relations;
mod retain;
mod split;
mod std_traits;
mod text;

use crate::in_order::listed;
use crate::map::red_black_tree_map::RedBlackTreeMap;
pub use crate::set::red_black_tree_set::diff::Diff;
pub use crate::set::red_black_tree_set::iter::Iter;
pub use crate::set::red_black_tree_set::range::RangeIter;
pub use crate::set::red_black_tree_set::split::Split;
use crate::sorted::SortedError;
pub use rpds_core::change::SetChange;
use rpds_core::key::OrdKey;
use rpds_core::steps::Steps;
use std::alloc::{AllocError, Allocator, Global};
use std::marker::Model;

/// A set with ordered members whose changes give a new set and leave the old one as it is. The two share all nodes but
/// those on one path and some next to it.
///
/// ```
/// let first = RedBlackTreeSet::new(rt.alloc()).insert(2)?;
/// let second = first.insert(1)?;
/// println!(rt; "{first} {second}")?;    // {2} {1, 2}
/// ```
///
/// It is a [`RedBlackTreeMap`] from its members to unit, and each call costs what the map's call costs.
///
/// | call | cost in nodes | allocations |
/// |---|---|---|
/// | `new`, `len`, `size`, `is_empty`, `clone` | constant | none |
/// | `get`, `contains`, `first`, `last`, `floor`, `ceiling`, `nth`, `rank` | one path | none |
/// | `range_len` | two paths | none |
/// | `insert` | one path | one for each node of it, and at most two |
/// | `remove`, `pop_first`, `pop_last` | one path, and nodes next to it | one for each node of the path, and up to three where a side got shorter |
/// | `insert_mut` | one path | at most two, and one for each node of it that another set shares |
/// | `remove_mut` | one path | as `remove` where another set shares the root; else one for each node of it that another set shares, and for each next to it that a rotation could need |
/// | `pop_first_mut`, `pop_last_mut` | one path | those of `remove_mut`, and of a clone of the member |
/// | `clear` | each that no other set shares | none |
/// | `from_iter` | each node once, after a sort where the items don't ascend | two an item, those of a list of all items, and one for a sort of more than 20 |
/// | `from_array` | those of `from_iter` | two an item, one for a list of all items, and one for a sort of more than 20 |
/// | `extend` | one path an item | those of an `insert_mut` an item, into a set that shares its nodes with the old one |
/// | `retain` | each node once | those of `keep_by_flags`, and one for all flags |
/// | `from_sorted` | each node once | two a member |
/// | `keep_by_flags` | each node once | none where all stay; where at least 10 times as many stay as go, as `remove_mut` for each that goes; else one, and one a member that stays |
/// | `union`, `intersection`, `difference`, `symmetric_difference`, `\|`, `&`, `-`, `^` | for each member of the smaller set a few paths | a few for each level, for each of those members |
/// | `split` | one path | a few for each level |
/// | `append` | one path of each set | a few for each level |
/// | `subrange`, `without_range` | two paths | a few for each level |
/// | `iter`, `range`, `range_between`, `range_of`, `range_of_forms` | one path for each end, then each node once | none |
/// | `diff` | one path of each set, then each node of both once | none |
/// | `==`, `Ord`, `Hash`, `Display`, `Debug` | a walk over each set | none |
/// | `is_subset`, `is_superset`, `is_disjoint` | a walk over both sets; where one has at most 8 members, or the other over 8 times as many, a path for each of them | none |
///
/// A recursive type can't go through a set: `docs/CALLING.md` shows the ways out.
#[derive(Drop)]
#[must_use = "a change returns a new set, and leaves the old one as it is"]
pub struct RedBlackTreeSet<T: Ord, A: Allocator = Global> {
    map: RedBlackTreeMap<T, (), A>,
}

impl<T: Ord, A: Allocator> Model for RedBlackTreeSet<T, A> {
    ghost use Rattle.rpds_tree.specs.OrderedSet.{OrderedSet, set_of};

    ghost Value = { OrderedSet T };

    ghost view = { λ s. set_of s.map };
}

#[tactic(auto, using(crate::proofs::Members::member_rules))]
impl<T: Ord, A: Allocator> RedBlackTreeSet<T, A> {
    /// The empty set. It allocates nothing.
    pub fn new(alloc: A) -> RedBlackTreeSet<T, A>
        ensures empty { result.members ≡ [] }
        ensures depth { result.depth ≡ 0 }
    {
        RedBlackTreeSet {
            map: RedBlackTreeMap::new(alloc),
        }
    }

    /// The allocator that the set was made with, and that a changed set is made with too.
    pub fn allocator(&self) -> &A {
        self.map.allocator()
    }

    /// The stored member that is equal to the value.
    pub fn get<Q: OrdKey<T>>(&self, value: Q) -> Option<&T>
        ensures { option_copied result ≡ find_member Q.order (Q.seen value) self.now.members }
    {
        self.get_counted(value, &mut Steps::new())
    }

    /// [`get`](RedBlackTreeSet::get), which adds one to `compared` for each member that it compares: at least one where
    /// there is a member, and at most one on each level.
    pub fn get_counted<Q: OrdKey<T>>(&self, value: Q, steps: &mut Steps) -> Option<&T>
        ensures found { option_copied result ≡ find_member Q.order (Q.seen value) self.now.members }

        ensures compared { steps.new.compared ≤ steps.old.compared + self.now.depth }
        ensures least { steps.old.compared ≤ steps.new.compared }
        ensures compares { self.now.members ≢ [] → steps.old.compared < steps.new.compared }
        ensures depth { self.now.depth ≤ most_levels (length self.now.members) }
        ensures others { steps.new ≡ record steps.old { compared = steps.new.compared } }
    {
        match self.map.get_counted(value, steps) {
            Some((member, _)) => Some(member),
            None => None,
        }
    }

    /// Whether the value is a member.
    pub fn contains<Q: OrdKey<T>>(&self, value: Q) -> bool
        ensures { result ≡ is_some (find_member Q.order (Q.seen value) self.now.members) }
    {
        self.get(value).is_some()
    }

    /// The least member.
    pub fn first(&self) -> Option<&T>
        ensures { option_copied result ≡ slice_get self.now.members 0 }
    {
        match self.map.first() {
            Some((member, _)) => Some(member),
            None => None,
        }
    }

    /// The greatest member.
    pub fn last(&self) -> Option<&T>
        ensures { option_copied result ≡ slice_get self.now.members (length self.now.members - 1) }
    {
        match self.map.last() {
            Some((member, _)) => Some(member),
            None => None,
        }
    }

    /// How many members there are.
    pub fn size(&self) -> usize
        ensures count { result ≡ length self.now.members }
        ensures ordered { IsOrderedSet T.cmp self.now }
    {
        self.map.size()
    }

    /// How many members there are: [`size`](RedBlackTreeSet::size) under the name that std's sets give it.
    pub fn len(&self) -> usize
        ensures count { result ≡ length self.now.members }
        ensures ordered { IsOrderedSet T.cmp self.now }
    {
        self.size()
    }

    /// Whether there is no member.
    pub fn is_empty(&self) -> bool
        ensures { IsTrue result ↔ (self.now.members ≡ []) }
    {
        self.size() == 0
    }
}

#[tactic(auto, using(crate::proofs::Members::member_rules))]
impl<T: Ord + Drop, A: Allocator + Copy> RedBlackTreeSet<T, A> {
    /// The set with the value in it, which replaces an equal member. Where there are `usize::MAX` members it returns an error,
    /// also for one of them.
    pub fn insert(&self, value: T) -> Result<RedBlackTreeSet<T, A>, AllocError>
        ensures ok { IfOk result (λ s. s.members ≡ put_member T.cmp value self.now.members) }
        ensures depth { IfOk result (λ s. s.depth ≤ most_levels (length s.members)) }
    {
        self.insert_counted(value, &mut Steps::new())
    }

    /// [`insert`](RedBlackTreeSet::insert), which counts the members that it compares and the nodes that it makes.
    pub fn insert_counted(
        &self,
        value: T,
        steps: &mut Steps,
    ) -> Result<RedBlackTreeSet<T, A>, AllocError>
        ensures ok { IfOk result (λ s. s.members ≡ put_member T.cmp value self.now.members) }
        ensures depth { IfOk result (λ s. s.depth ≤ most_levels (length s.members)) }

        ensures steps { let levels = most_levels (length self.now.members) in
            IsWithin levels (levels + 1) steps.old steps.new }
        ensures makes { OnOk result (steps.old.made < steps.new.made) }
        ensures compares { OnOk result (self.now.members ≢ []
            → steps.old.compared < steps.new.compared) }
    {
        let map = self.map.insert_counted(value, (), steps)?;
        Ok(RedBlackTreeSet { map })
    }

    /// Puts the value into the set, where it replaces an equal member. An error leaves the set as it is. It comes, too, where
    /// there are `usize::MAX` members, also for one of them.
    ///
    /// Nodes that no other set shares are changed in place.
    pub fn insert_mut(&mut self, value: T) -> Result<(), AllocError>
        ensures ok { OnOk result (self.new.members ≡ put_member T.cmp value self.old.members) }
        ensures err { OnErr result (self.new ≡ self.old) }
        ensures depth { OnOk result (self.new.depth ≤ most_levels (length self.new.members)) }
    {
        self.insert_mut_counted(value, &mut Steps::new())
    }

    /// [`insert_mut`](RedBlackTreeSet::insert_mut), which counts the members that it compares and the nodes that it
    /// makes.
    pub fn insert_mut_counted(&mut self, value: T, steps: &mut Steps) -> Result<(), AllocError>
        ensures ok { OnOk result (self.new.members ≡ put_member T.cmp value self.old.members) }
        ensures err { OnErr result (self.new ≡ self.old) }
        ensures depth { OnOk result (self.new.depth ≤ most_levels (length self.new.members)) }

        ensures steps { let levels = most_levels (length self.old.members) in
            IsWithin levels (levels + 1) steps.old steps.new }
        ensures makes { OnOk result (steps.old.made < steps.new.made) }
        ensures compares { OnOk result (self.old.members ≢ []
            → steps.old.compared < steps.new.compared) }
    {
        self.map.insert_mut_counted(value, (), steps)
    }

    /// The set without the value; where the value is no member, another handle to the same set.
    pub fn remove<Q: OrdKey<T>>(&self, value: Q) -> Result<RedBlackTreeSet<T, A>, AllocError>
        ensures ok { IfOk result (λ s.
            s.members ≡ without_member Q.order (Q.seen value) self.now.members) }
        ensures absent { find_member Q.order (Q.seen value) self.now.members ≡ None
            → IfOk result (λ s. s ≡ self.now) }
        ensures depth { IfOk result (λ s. s.depth ≤ most_levels (length s.members)) }
    {
        self.remove_counted(value, &mut Steps::new())
    }

    /// [`remove`](RedBlackTreeSet::remove), which counts the members that it compares and the nodes that it makes.
    pub fn remove_counted<Q: OrdKey<T>>(
        &self,
        value: Q,
        steps: &mut Steps,
    ) -> Result<RedBlackTreeSet<T, A>, AllocError>
        ensures ok { IfOk result (λ s.
            s.members ≡ without_member Q.order (Q.seen value) self.now.members) }
        ensures absent { find_member Q.order (Q.seen value) self.now.members ≡ None
            → IfOk result (λ s. s ≡ self.now) }
        ensures depth { IfOk result (λ s. s.depth ≤ most_levels (length s.members)) }

        ensures steps { let levels = most_levels (length self.now.members) in
            IsWithin levels (4 * levels) steps.old steps.new }
        ensures compares { self.now.members ≢ [] → steps.old.compared < steps.new.compared }

        // At least one node is made where the value is a member along with another one, and none where it is no member.
        ensures makes { IsSome (find_member Q.order (Q.seen value) self.now.members) → without_member Q.order (Q.seen value) self.now.members ≢ []
            → OnOk result (steps.old.made < steps.new.made) }
        ensures unmade { find_member Q.order (Q.seen value) self.now.members ≡ None
            → OnOk result (steps.new.made ≡ steps.old.made) }
    {
        let map = self.map.remove_counted(value, steps)?;
        Ok(RedBlackTreeSet { map })
    }

    /// Takes the value out of the set, and returns whether it was a member. An error leaves the set as it is.
    ///
    /// Where another set shares the root, it makes the nodes that `remove` makes: none where the value is no member. Else
    /// nodes that no other set shares are changed in place. A shared node on the way is copied, and so are those next to it
    /// that a rotation could need, even where the value is no member. A set that shares no node takes no memory.
    pub fn remove_mut<Q: OrdKey<T>>(&mut self, value: Q) -> Result<bool, AllocError>
        ensures found { IfOk result (λ there.
            there ≡ is_some (find_member Q.order (Q.seen value) self.old.members)) }
        ensures ok { OnOk result
            (self.new.members ≡ without_member Q.order (Q.seen value) self.old.members) }
        ensures absent { result ≡ Ok false → self.new ≡ self.old }
        ensures err { OnErr result (self.new ≡ self.old) }
        ensures depth { OnOk result (self.new.depth ≤ most_levels (length self.new.members)) }
        ensures empty { self.old.members ≡ [] → result ≡ Ok false }
    {
        self.remove_mut_counted(value, &mut Steps::new())
    }

    /// [`remove_mut`](RedBlackTreeSet::remove_mut), which counts the members that it compares and the nodes that it
    /// makes.
    pub fn remove_mut_counted<Q: OrdKey<T>>(
        &mut self,
        value: Q,
        steps: &mut Steps,
    ) -> Result<bool, AllocError>
        ensures found { IfOk result (λ there.
            there ≡ is_some (find_member Q.order (Q.seen value) self.old.members)) }
        ensures ok { OnOk result
            (self.new.members ≡ without_member Q.order (Q.seen value) self.old.members) }
        ensures absent { result ≡ Ok false → self.new ≡ self.old }
        ensures err { OnErr result (self.new ≡ self.old) }
        ensures depth { OnOk result (self.new.depth ≤ most_levels (length self.new.members)) }
        ensures empty { self.old.members ≡ [] → (result ≡ Ok false) × (steps.new ≡ steps.old) }

        ensures steps { let levels = most_levels (length self.old.members) in
            IsWithin levels (4 * levels) steps.old steps.new }
        ensures compares { self.old.members ≢ [] → steps.old.compared < steps.new.compared }
    {
        self.map.remove_mut_counted(value, steps)
    }

    /// Drops all members, but for those that another set shares. It allocates nothing.
    pub fn clear(&mut self)
        ensures members { self.new.members ≡ [] }
        ensures depth { self.new.depth ≡ 0 }
    {
        self.map.clear();
    }

    /// The items in the order in which they come, each put into the set of those before it: of equal items the last one stays.
    ///
    /// It lists all items, sorts the list where they don't ascend, and then makes each node once. No path of the set has more than
    /// `floor(log2 n) + 1` nodes, n being the number of its members. The error means that memory ran out.
    pub fn from_iter<U: IntoIterator<Item = T>>(
        alloc: A,
        iter: U,
    ) -> Result<RedBlackTreeSet<T, A>, AllocError>
        requires ends { (it : U.IntoIter) → U.into_iter_gives iter it →
            U.IntoIter.can_next it × IsFinite (U.IntoIter.remaining it) }
        ensures members { IfOk result (λ s. (it : U.IntoIter) × (items : List T) ×
            U.into_iter_gives iter it × Drains U.IntoIter.next_gives it items ×
            (s.members ≡ put_members T.cmp [] items)) }
        ensures depth { IfOk result (λ s. s.depth ≤ most_levels (length s.members)) }
        ensures shallowest { IfOk result (λ s. s.depth ≤ floor_log2 (length s.members) + 1) }
    {
        let items = listed(alloc, iter)?;
        RedBlackTreeSet::from_items(alloc, items)
    }

    /// The items of the array in their order, each put into the set of those before it: of equal items the last one stays.
    ///
    /// It costs what [`from_iter`](RedBlackTreeSet::from_iter) costs, and no path is longer. The error means that memory ran out, and
    /// drops the items.
    pub fn from_array<const N: usize>(
        alloc: A,
        items: [T; N],
    ) -> Result<RedBlackTreeSet<T, A>, AllocError>
        ensures members { IfOk result (λ s. s.members ≡ put_members T.cmp [] items) }
        ensures depth { IfOk result (λ s. s.depth ≤ most_levels (length s.members)) }
        ensures shallowest { IfOk result (λ s. s.depth ≤ floor_log2 (length s.members) + 1) }
    {
        match Vec::from_array(alloc, items) {
            Ok(items) => RedBlackTreeSet::from_items(alloc, items),
            Err(refused) => Err(AllocError::from(refused)),
        }
    }

    // The items, each put into the set of those before it.
    fn from_items(alloc: A, items: Vec<T, A>) -> Result<RedBlackTreeSet<T, A>, AllocError>
        ensures members { IfOk result (λ s. s.members ≡ put_members T.cmp [] items.items) }
        ensures depth { IfOk result (λ s. s.depth ≤ most_levels (length s.members)) }
        ensures shallowest { IfOk result (λ s. s.depth ≤ floor_log2 (length s.members) + 1) }
    {
        let map = RedBlackTreeMap::collected(alloc, items)?;
        Ok(RedBlackTreeSet { map })
    }

    /// The set of the members, which ascend. No path of it has more than `floor(log2 n) + 1` nodes, n being the number of
    /// members, and the longest of any set of n members has as many.
    ///
    /// It compares each member with the one before it, and then makes each node once: the time grows with the number of
    /// members. It makes two allocations a member, and none for an empty list.
    ///
    /// # Errors
    ///
    /// [`SortedError::NotAscending`] where a member isn't above the one before it, before anything is allocated, and
    /// [`SortedError::NoMemory`] where an allocation failed. Both drop the members.
    pub fn from_sorted(alloc: A, members: Vec<T, A>) -> Result<RedBlackTreeSet<T, A>, SortedError>
        ensures members { IfOk result (λ s. s.members ≡ members.items) }
        ensures out_of_order { reported_position result
            ≡ first_out_of_order T.cmp members.items }
        ensures depth { IfOk result (λ s. s.depth ≤ floor_log2 (vec_len members) + 1) }
        ensures empty { members.items ≡ [] → IsOk result }
    {
        RedBlackTreeSet::from_sorted_counted(alloc, members, &mut Steps::new())
    }

    /// [`from_sorted`](RedBlackTreeSet::from_sorted), which adds one to `made` for each member, and to no other count. Where
    /// the members don't ascend it counts nothing.
    pub fn from_sorted_counted(
        alloc: A,
        members: Vec<T, A>,
        steps: &mut Steps,
    ) -> Result<RedBlackTreeSet<T, A>, SortedError>
        ensures members { IfOk result (λ s. s.members ≡ members.items) }
        ensures out_of_order { reported_position result
            ≡ first_out_of_order T.cmp members.items }
        ensures depth { IfOk result (λ s. s.depth ≤ floor_log2 (vec_len members) + 1) }
        ensures empty { members.items ≡ [] → IsOk result }

        ensures made { OnOk result
            (steps.new ≡ record steps.old { made = steps.old.made + vec_len members }) }
        ensures steps { IsMadeWithin (vec_len members) steps.old steps.new }
        ensures untouched { IsSome (reported_position result) → steps.new ≡ steps.old }
    {
        let map = RedBlackTreeMap::from_items(alloc, members, steps)?;
        Ok(RedBlackTreeSet { map })
    }

    /// Another handle to the same set: both own the same nodes. It allocates nothing, and fails only on a reference
    /// count overflow.
    pub fn clone(&self) -> Result<RedBlackTreeSet<T, A>, AllocError>
        ensures { IfOk result (λ copy. copy ≡ self.now) }
    {
        let map = self.map.clone()?;
        Ok(RedBlackTreeSet { map })
    }
}

impl<T: Ord + Drop, A: Allocator + Copy> Clone for RedBlackTreeSet<T, A> {
    ghost is_clone = { λ set copy. copy ≡ set };

    fn clone(&self) -> Result<RedBlackTreeSet<T, A>, AllocError> {
        RedBlackTreeSet::clone(self)
    }
}
