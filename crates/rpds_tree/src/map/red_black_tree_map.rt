//! A persistent map whose keys are in order.
ghost use Rattle.std.specs.Prelude.{◌≡◌, ◌≢◌, ◌+◌, ◌*◌, ◌-◌, ◌<◌, ◌≤◌, ◌↔◌, None, Some, Ok, false};
ghost use Rattle.std.specs.Prelude.{[], List, length, vec_len, slice_get, is_some, IsTrue, IsNone, IsSome, IsOk, IfOk, IfSome, OnOk, OnErr, MatchOption};
ghost use Rattle.std.specs.Iterator.{Drains, IsFinite};
ghost use Rattle.std.specs.Map.{keys_of};
ghost use Rattle.std.specs.Map.Iter.{deref_pair};
ghost use Rattle.std.specs.Option.{option_copied, option_map};
ghost use Rattle.rpds_core.specs.Counts.{IsMadeWithin, IsWithin};
ghost use Rattle.rpds_red_black.specs.Logarithm.{floor_log2, most_levels};
ghost use Rattle.rpds_red_black.specs.OrderedMap.{IsAbsent, IsOrdered, IsWithout};
ghost use Rattle.rpds_red_black.specs.Pairs.{IsAscending, find, put, put_all, without};
ghost use Rattle.rpds_red_black.specs.TreeNode.{pair_of};
ghost use Rattle.rpds_tree.specs.Sorted.{first_out_of_order, reported_position};
ghost use Rattle.rpds_red_black.specs.declared.tree.Color.TheVariants.{Black};

mod algebra;
mod alter;
mod append;
mod build;
mod compared;
mod copy_from;
mod diff;
mod extend;
mod first_and_last;
mod get_or_insert_with;
mod iter;
mod keep_by_flags;
mod lend;
mod map_values;
mod merge;
mod neighbors;
mod positions;
mod range;
mod remove_mut;
mod replace;
mod retain;
mod shared_entry;
mod split;
mod std_traits;
mod text;
mod union_with;
mod update;

use crate::in_order::listed;
pub use crate::map::red_black_tree_map::diff::Diff;
pub use crate::map::red_black_tree_map::iter::{Iter, IterKeys, IterValues};
pub use crate::map::red_black_tree_map::merge::MergedMap;
pub use crate::map::red_black_tree_map::range::RangeIter;
pub use crate::map::red_black_tree_map::split::Split;
use crate::sorted::SortedError;
pub use rpds_core::change::MapChange;
use rpds_core::key::OrdKey;
use rpds_core::map::entry::Entry;
use rpds_core::size::one_more;
use rpds_core::steps::Steps;
use rpds_red_black::tree::Tree;
use std::alloc::{AllocError, Allocator, Global};
use std::marker::Model;
use std::ops::Index;
use std::rc::Rc;

/// A map with ordered keys whose changes give a new map and leave the old one as it is. The two share all nodes but those
/// on one path and some next to it.
///
/// ```
/// let first = RedBlackTreeMap::new(rt.alloc()).insert(2, "two")?;
/// let second = first.insert(1, "one")?;
/// println!(rt; "{first} {second}")?;    // {2: two} {1: one, 2: two}
/// ```
///
/// It is a red-black tree. Insertion is by Okasaki (Red-Black Trees in a Functional Setting, 1999). A removal balances a
/// side that got shorter on the way up, where the sibling is black as Kahrs does (Red-Black Trees with Types, 2001); in place
/// of his fuse the next pair moves up. No path has more than `2 floor(log2(n + 1))` nodes, n being the number of pairs.
///
/// | call | cost in nodes | allocations |
/// |---|---|---|
/// | `new`, `len`, `size`, `is_empty`, `clone` | constant | none |
/// | `get`, `get_key_value`, `contains_key`, `first`, `last`, `floor`, `ceiling`, `Index`, `nth`, `rank` | one path | none |
/// | `range_len` | two paths | none |
/// | `insert` | one path | one for each node of it, and at most two |
/// | `remove`, `pop_first`, `pop_last` | one path, and nodes next to it | one for each node of the path, and up to three where a side got shorter |
/// | `insert_mut` | one path | at most two, and one for each node of it that another map shares |
/// | `remove_mut` | one path | as `remove` where another map shares the root; else one for each node of it that another map shares, and for each next to it that a rotation could need |
/// | `pop_first_mut`, `pop_last_mut` | one path | those of `remove_mut`, and of a clone of the key and value |
/// | `get_mut`, `value_mut` | one path | one for each node of it that another map shares, and those of a clone of the key and value |
/// | `get_or_insert_with` | two paths where the key is there, else three | those of `value_mut` where the key is there; else those of `insert_mut`, and of a clone of the key |
/// | `update` | two paths | those of `insert` |
/// | `update_mut` | two paths | those of `insert_mut` |
/// | `alter` | two paths | those of `insert`, or of `remove` |
/// | `alter_mut` | two paths | those of `insert_mut`, or of `remove_mut` |
/// | `copy_from` | a path of each map | those of `insert` but for the pair, or of `remove` |
/// | `copy_from_mut` | a path of each map | those of `insert_mut` but for the pair, or of `remove_mut` |
/// | `shared_entry` | one path | none |
/// | `insert_shared`, `insert_shared_mut` | one path | those of `insert` or `insert_mut` but for the pair |
/// | `replace` | two paths | those of `insert_mut`, and of a clone of the old value |
/// | `take` | two paths | those of `remove_mut`, and of a clone of the value |
/// | `clear` | each that no other map shares | none |
/// | `from_iter` | each node once, after a sort where the keys don't ascend | two a pair, those of a list of all pairs, and one for a sort of more than 20 |
/// | `from_array` | those of `from_iter` | two a pair, one for a list of all pairs, and one for a sort of more than 20 |
/// | `extend` | one path a pair | those of an `insert_mut` a pair, into a map that shares its nodes with the old one |
/// | `from_sorted` | each node once | two a pair |
/// | `map_values` | each node once | those of `from_sorted` and of a clone of each key, and one for all pairs |
/// | `retain` | each node once | those of `keep_by_flags`, and one for all flags |
/// | `keep_by_flags` | each node once | none where all stay; where at least 10 times as many stay as go, as `remove_mut` for each that goes; else one, and one a pair that stays |
/// | `union`, `intersection`, `difference`, `symmetric_difference` | for each pair of the smaller map a few paths | a few for each level, for each of those pairs |
/// | `union_with` | those of `union`, and for each key of the smaller map a few paths | those of `union`, of a clone of each common key, and of an `insert_mut` for each |
/// | `merge`, `merge_ours` | one path of this map and of theirs, then each node of both once; a few paths for each key that they changed | a few for each of these that is taken over |
/// | `split` | one path | a few for each level |
/// | `append` | one path of each map | a few for each level |
/// | `subrange`, `without_range` | two paths | a few for each level |
/// | `iter`, `keys`, `values`, `range`, `range_between`, `range_of`, `range_of_forms` | one path for each end, then each node once | none |
/// | `diff` | one path of each map, then each node of both once | none |
/// | `==`, `Ord`, `Hash`, `Display`, `Debug` | a walk over each map | none |
///
/// Values are stored next to their keys. A key is compared with at most one key of each node on its path.
///
/// A recursive type can't go through a map: `docs/CALLING.md` shows the ways out.
#[derive(Drop)]
#[must_use = "a change returns a new map, and leaves the old one as it is"]
pub struct RedBlackTreeMap<K: Ord, V, A: Allocator = Global> {
    alloc: A,
    tree: Tree<K, V, A>,
    size: usize,
}

impl<K: Ord, V, A: Allocator> Model for RedBlackTreeMap<K, V, A> {
    ghost use Rattle.std.specs.Prelude.{◌≡◌, ◌≤◌, length};
    ghost use Rattle.rpds_red_black.specs.OrderedMap.{OrderedMap, IsOrdered, map_of};

    ghost Value = { OrderedMap K V };

    ghost view = { λ m. map_of m.tree };

    ghost invariant = { λ m. IsOrdered K.cmp (map_of m.tree) × (m.size ≡ length m.tree.entries) };
}

impl<K: Ord, V, A: Allocator> RedBlackTreeMap<K, V, A> {
    /// The empty map. It allocates nothing.
    pub fn new(alloc: A) -> RedBlackTreeMap<K, V, A>
        ensures empty { result.entries ≡ [] }
        ensures depth { result.depth ≡ 0 }
    {
        RedBlackTreeMap {
            alloc,
            tree: Tree::new(),
            size: 0,
        }
    }

    /// The allocator that the map was made with, and that a changed map is made with too.
    pub fn allocator(&self) -> &A {
        &self.alloc
    }

    /// The value of the key, if it is there.
    pub fn get<Q: OrdKey<K>>(&self, key: Q) -> Option<&V>
        ensures { option_copied result ≡ option_map (λ p. p.1)
            (find Q.order (Q.seen key) self.now.entries) }
    {
        match self.get_key_value(key) {
            Some((_, value)) => Some(value),
            None => None,
        }
    }

    /// The stored key that is equal to the key, and its value.
    pub fn get_key_value<Q: OrdKey<K>>(&self, key: Q) -> Option<(&K, &V)>
        ensures { option_map deref_pair result ≡ find Q.order (Q.seen key) self.now.entries }
    {
        self.get_counted(key, &mut Steps::new())
    }

    /// [`get_key_value`](RedBlackTreeMap::get_key_value), which adds one to `compared` for each key that it compares: at
    /// least one where there is a pair, and at most one on each level.
    pub fn get_counted<Q: OrdKey<K>>(&self, key: Q, steps: &mut Steps) -> Option<(&K, &V)>
        ensures found { option_map deref_pair result ≡ find Q.order (Q.seen key) self.now.entries }

        ensures compared { steps.new.compared ≤ steps.old.compared + self.now.depth }
        ensures least { steps.old.compared ≤ steps.new.compared }
        ensures compares { self.now.entries ≢ [] → steps.old.compared < steps.new.compared }
        ensures depth { self.now.depth ≤ most_levels (length self.now.entries) }
        ensures others { steps.new ≡ record steps.old { compared = steps.new.compared } }
    {
        self.tree.get_counted(key, steps)
    }

    /// Whether the key is there.
    pub fn contains_key<Q: OrdKey<K>>(&self, key: Q) -> bool
        ensures { result ≡ is_some (find Q.order (Q.seen key) self.now.entries) }
    {
        self.get_key_value(key).is_some()
    }

    /// The pair of the least key.
    pub fn first(&self) -> Option<(&K, &V)>
        ensures { option_map deref_pair result ≡ slice_get self.now.entries 0 }
    {
        self.tree.first()
    }

    /// The pair of the greatest key.
    pub fn last(&self) -> Option<(&K, &V)>
        ensures { option_map deref_pair result ≡ slice_get self.now.entries
            (length self.now.entries - 1) }
    {
        self.tree.last()
    }

    /// How many pairs there are.
    pub fn size(&self) -> usize
        ensures count { result ≡ length self.now.entries }
        ensures ordered { IsOrdered K.cmp self.now }
    {
        self.size
    }

    /// How many pairs there are: [`size`](RedBlackTreeMap::size) under the name that std's maps give it.
    pub fn len(&self) -> usize
        ensures count { result ≡ length self.now.entries }
        ensures ordered { IsOrdered K.cmp self.now }
    {
        self.size()
    }

    /// Whether there is no pair.
    pub fn is_empty(&self) -> bool
        ensures { IsTrue result ↔ (self.now.entries ≡ []) }
    {
        self.size() == 0
    }
}

impl<K: Ord, V, A: Allocator> RedBlackTreeMap<K, V, A> {
    // A map of the tree's pairs.
    #[tactic(auto, using(crate::proofs::Shallow::shallow_tree))]
    pub(crate) fn of_tree(alloc: A, tree: Tree<K, V, A>, size: usize) -> RedBlackTreeMap<K, V, A>
        requires black { tree.color ≡ Black }
        requires ascending { IsAscending K.cmp tree.entries }
        requires size { size ≡ length tree.entries }
        ensures entries { result.entries ≡ tree.entries }
        ensures levels { result.depth ≡ tree.depth }
        ensures depth { result.depth ≤ most_levels (length result.entries) }
    {
        tree.prove_sound();
        RedBlackTreeMap { alloc, tree, size }
    }
}

impl<K: Ord + Drop, V: Drop, A: Allocator + Copy> RedBlackTreeMap<K, V, A> {
    /// The map with the pair in it, which replaces an equal key and its value. Where there are `usize::MAX` pairs it returns
    /// an error, also for a stored key.
    pub fn insert(&self, key: K, value: V) -> Result<RedBlackTreeMap<K, V, A>, AllocError>
        ensures ok { IfOk result (λ m. m.entries ≡ put K.cmp (key, value) self.now.entries) }
        ensures depth { IfOk result (λ m. m.depth ≤ most_levels (length m.entries)) }
    {
        self.insert_counted(key, value, &mut Steps::new())
    }

    /// [`insert`](RedBlackTreeMap::insert), which counts the keys that it compares and the nodes that it makes.
    pub fn insert_counted(
        &self,
        key: K,
        value: V,
        steps: &mut Steps,
    ) -> Result<RedBlackTreeMap<K, V, A>, AllocError>
        ensures ok { IfOk result (λ m. m.entries ≡ put K.cmp (key, value) self.now.entries) }
        ensures depth { IfOk result (λ m. m.depth ≤ most_levels (length m.entries)) }

        ensures steps { let levels = most_levels (length self.now.entries) in
            IsWithin levels (levels + 1) steps.old steps.new }
        ensures makes { OnOk result (steps.old.made < steps.new.made) }
        ensures compares { OnOk result (self.now.entries ≢ []
            → steps.old.compared < steps.new.compared) }
    {
        let mut map = self.clone()?;
        map.insert_mut_counted(key, value, steps)?;
        Ok(map)
    }

    /// Puts the pair into the map, where it replaces an equal key and its value. An error leaves the map as it is. It comes,
    /// too, where there are `usize::MAX` pairs, also for a stored key.
    ///
    /// Nodes that no other map shares are changed in place.
    pub fn insert_mut(&mut self, key: K, value: V) -> Result<(), AllocError>
        ensures ok { OnOk result (self.new.entries ≡ put K.cmp (key, value) self.old.entries) }
        ensures err { OnErr result (self.new ≡ self.old) }
        ensures depth { OnOk result (self.new.depth ≤ most_levels (length self.new.entries)) }
    {
        self.insert_mut_counted(key, value, &mut Steps::new())
    }

    /// [`insert_mut`](RedBlackTreeMap::insert_mut), which counts the keys that it compares and the nodes that it makes.
    pub fn insert_mut_counted(
        &mut self,
        key: K,
        value: V,
        steps: &mut Steps,
    ) -> Result<(), AllocError>
        ensures ok { OnOk result (self.new.entries ≡ put K.cmp (key, value) self.old.entries) }
        ensures err { OnErr result (self.new ≡ self.old) }
        ensures depth { OnOk result (self.new.depth ≤ most_levels (length self.new.entries)) }

        ensures steps { let levels = most_levels (length self.old.entries) in
            IsWithin levels (levels + 1) steps.old steps.new }
        ensures makes { OnOk result (steps.old.made < steps.new.made) }
        ensures compares { OnOk result (self.old.entries ≢ []
            → steps.old.compared < steps.new.compared) }
    {
        let entry = Rc::new(self.alloc, Entry::new(key, value))?;
        self.insert_entry(entry, steps)
    }

    // Puts the pair of the entry into the map.
    fn insert_entry(
        &mut self,
        entry: Rc<Entry<K, V>, A>,
        steps: &mut Steps,
    ) -> Result<(), AllocError>
        ensures ok { OnOk result (self.new.entries ≡ put K.cmp (pair_of entry.value) self.old.entries) }
        ensures err { OnErr result (self.new ≡ self.old) }
        ensures depth { OnOk result (self.new.depth ≤ most_levels (length self.new.entries)) }

        ensures steps { let levels = most_levels (length self.old.entries) in
            IsWithin levels (levels + 1) steps.old steps.new }
        ensures makes { OnOk result (steps.old.made < steps.new.made) }
        ensures compares { OnOk result (self.old.entries ≢ []
            → steps.old.compared < steps.new.compared) }
    {
        let more = one_more(self.size)?;
        let added = self.tree.insert_counted(self.alloc, entry, steps)?;
        self.tree.prove_sound();
        self.size = if added { more } else { self.size };
        Ok(())
    }

    /// The map without the key and its value; where the key is absent, another handle to the same map.
    pub fn remove<Q: OrdKey<K>>(&self, key: Q) -> Result<RedBlackTreeMap<K, V, A>, AllocError>
        ensures ok { IfOk result (λ m. m.entries ≡ without Q.order (Q.seen key) self.now.entries) }
        ensures absent { find Q.order (Q.seen key) self.now.entries ≡ None
            → IfOk result (λ m. m ≡ self.now) }
        ensures depth { IfOk result (λ m. m.depth ≤ most_levels (length m.entries)) }
    {
        self.remove_counted(key, &mut Steps::new())
    }

    /// [`remove`](RedBlackTreeMap::remove), which counts the keys that it compares and the nodes that it makes.
    pub fn remove_counted<Q: OrdKey<K>>(
        &self,
        key: Q,
        steps: &mut Steps,
    ) -> Result<RedBlackTreeMap<K, V, A>, AllocError>
        ensures ok { IfOk result (λ m. m.entries ≡ without Q.order (Q.seen key) self.now.entries) }
        ensures absent { find Q.order (Q.seen key) self.now.entries ≡ None
            → IfOk result (λ m. m ≡ self.now) }
        ensures depth { IfOk result (λ m. m.depth ≤ most_levels (length m.entries)) }

        ensures steps { let levels = most_levels (length self.now.entries) in
            IsWithin levels (4 * levels) steps.old steps.new }
        ensures compares { self.now.entries ≢ [] → steps.old.compared < steps.new.compared }

        // At least one node is made where the key is there along with another one, and none where it is absent.
        ensures makes { IsSome (find Q.order (Q.seen key) self.now.entries) → without Q.order (Q.seen key) self.now.entries ≢ []
            → OnOk result (steps.old.made < steps.new.made) }
        ensures unmade { find Q.order (Q.seen key) self.now.entries ≡ None
            → OnOk result (steps.new.made ≡ steps.old.made) }
    {
        match self.remove_present(key, steps)? {
            None => self.clone(),
            Some(map) => Ok(map),
        }
    }

    // The map without the pair of the key; None where the key is absent.
    fn remove_present<Q: OrdKey<K>>(
        &self,
        key: Q,
        steps: &mut Steps,
    ) -> Result<Option<RedBlackTreeMap<K, V, A>>, AllocError>
        ensures ok { let pairs = self.now.entries in
            IfOk result (λ removed. MatchOption removed (IsAbsent (Q.order (Q.seen key)) pairs) (IsWithout (Q.order (Q.seen key)) pairs)) }
        ensures ordered { IsOrdered K.cmp self.now }
        ensures steps { let levels = most_levels (length self.now.entries) in
            IsWithin levels (4 * levels) steps.old steps.new }
        ensures compares { self.now.entries ≢ [] → steps.old.compared < steps.new.compared }
        ensures makes { IfOk result (λ removed. IfSome removed (λ left. left.entries ≢ []
            → steps.old.made < steps.new.made)) }
        ensures unmade { IfOk result (λ removed. IsNone removed
            → steps.new.made ≡ steps.old.made) }
    {
        match self.tree.remove_counted(self.alloc, key, steps)? {
            None => Ok(None),
            Some(tree) => Ok(Some(RedBlackTreeMap::of_tree(self.alloc, tree, self.size - 1))),
        }
    }

    /// Takes the key and its value out of the map, and returns whether the key was there. An error leaves the map as
    /// it is.
    ///
    /// Where another map shares the root, it makes the nodes that `remove` makes: none where the key is absent. Else nodes that
    /// no other map shares are changed in place. A shared node on the way is copied, and so are those next to it that a rotation
    /// could need, even where the key is absent. A map that shares no node takes no memory.
    pub fn remove_mut<Q: OrdKey<K>>(&mut self, key: Q) -> Result<bool, AllocError>
        ensures found { IfOk result (λ there.
            there ≡ is_some (find Q.order (Q.seen key) self.old.entries)) }
        ensures ok { OnOk result (self.new.entries ≡ without Q.order (Q.seen key) self.old.entries) }
        ensures absent { result ≡ Ok false → self.new ≡ self.old }
        ensures err { OnErr result (self.new ≡ self.old) }
        ensures depth { OnOk result (self.new.depth ≤ most_levels (length self.new.entries)) }
        ensures empty { self.old.entries ≡ [] → result ≡ Ok false }
    {
        self.remove_mut_counted(key, &mut Steps::new())
    }

    /// [`remove_mut`](RedBlackTreeMap::remove_mut), which counts the keys that it compares and the nodes that it makes.
    pub fn remove_mut_counted<Q: OrdKey<K>>(
        &mut self,
        key: Q,
        steps: &mut Steps,
    ) -> Result<bool, AllocError>
        ensures found { IfOk result (λ there.
            there ≡ is_some (find Q.order (Q.seen key) self.old.entries)) }
        ensures ok { OnOk result (self.new.entries ≡ without Q.order (Q.seen key) self.old.entries) }
        ensures absent { result ≡ Ok false → self.new ≡ self.old }
        ensures err { OnErr result (self.new ≡ self.old) }
        ensures depth { OnOk result (self.new.depth ≤ most_levels (length self.new.entries)) }
        ensures empty { self.old.entries ≡ [] → (result ≡ Ok false) × (steps.new ≡ steps.old) }

        ensures steps { let levels = most_levels (length self.old.entries) in
            IsWithin levels (4 * levels) steps.old steps.new }
        ensures compares { self.old.entries ≢ [] → steps.old.compared < steps.new.compared }
    {
        if self.size == 0 {
            return Ok(false);
        }
        if self.tree.is_shared() {
            return self.remove_shared(key, steps);
        }
        self.remove_owned(key, steps)
    }

    /// Drops all pairs, but for those that another map shares. It allocates nothing.
    pub fn clear(&mut self)
        ensures entries { self.new.entries ≡ [] }
        ensures depth { self.new.depth ≡ 0 }
    {
        *self = RedBlackTreeMap::new(self.alloc);
    }

    /// The pairs in the order in which they come, each put into the map of those before it: of equal keys the last one stays, with
    /// its value.
    ///
    /// It lists all pairs, sorts the list where the keys don't ascend, and then makes each node once. No path of the map has more
    /// than `floor(log2 n) + 1` nodes, n being the number of its pairs. The error means that memory ran out.
    pub fn from_iter<U: IntoIterator<Item = (K, V)>>(
        alloc: A,
        iter: U,
    ) -> Result<RedBlackTreeMap<K, V, A>, AllocError>
        requires ends { (it : U.IntoIter) → U.into_iter_gives iter it →
            U.IntoIter.can_next it × IsFinite (U.IntoIter.remaining it) }
        ensures entries { IfOk result (λ m. (it : U.IntoIter) × (pairs : List (K × V)) ×
            U.into_iter_gives iter it × Drains U.IntoIter.next_gives it pairs ×
            (m.entries ≡ put_all K.cmp [] pairs)) }
        ensures depth { IfOk result (λ m. m.depth ≤ most_levels (length m.entries)) }
        ensures shallowest { IfOk result (λ m. m.depth ≤ floor_log2 (length m.entries) + 1) }
    {
        let pairs = listed(alloc, iter)?;
        RedBlackTreeMap::collected(alloc, pairs)
    }

    /// The map of the pairs, whose keys ascend. No path of it has more than `floor(log2 n) + 1` nodes, n being the number
    /// of pairs, and the longest of any map of n pairs has as many.
    ///
    /// It compares each key with the one before it, and then makes each node once: the time grows with the number of
    /// pairs. It makes two allocations a pair, and none for an empty list.
    ///
    /// # Errors
    ///
    /// [`SortedError::NotAscending`] where a key isn't above the one before it, before anything is allocated, and
    /// [`SortedError::NoMemory`] where an allocation failed. Both drop the pairs.
    pub fn from_sorted(
        alloc: A,
        pairs: Vec<(K, V), A>,
    ) -> Result<RedBlackTreeMap<K, V, A>, SortedError>
        ensures entries { IfOk result (λ m. m.entries ≡ pairs.items) }
        ensures out_of_order { reported_position result
            ≡ first_out_of_order K.cmp (keys_of pairs.items) }
        ensures depth { IfOk result (λ m. m.depth ≤ floor_log2 (vec_len pairs) + 1) }
        ensures empty { pairs.items ≡ [] → IsOk result }
    {
        RedBlackTreeMap::from_sorted_counted(alloc, pairs, &mut Steps::new())
    }

    /// [`from_sorted`](RedBlackTreeMap::from_sorted), which adds one to `made` for each pair, and to no other count. Where
    /// the keys don't ascend it counts nothing.
    pub fn from_sorted_counted(
        alloc: A,
        pairs: Vec<(K, V), A>,
        steps: &mut Steps,
    ) -> Result<RedBlackTreeMap<K, V, A>, SortedError>
        ensures entries { IfOk result (λ m. m.entries ≡ pairs.items) }
        ensures out_of_order { reported_position result
            ≡ first_out_of_order K.cmp (keys_of pairs.items) }
        ensures depth { IfOk result (λ m. m.depth ≤ floor_log2 (vec_len pairs) + 1) }
        ensures empty { pairs.items ≡ [] → IsOk result }

        ensures made { OnOk result
            (steps.new ≡ record steps.old { made = steps.old.made + vec_len pairs }) }
        ensures steps { IsMadeWithin (vec_len pairs) steps.old steps.new }
        ensures untouched { IsSome (reported_position result) → steps.new ≡ steps.old }
    {
        RedBlackTreeMap::from_items(alloc, pairs, steps)
    }

    /// Another handle to the same map: both own the same nodes. It allocates nothing, and fails only on a reference
    /// count overflow.
    pub fn clone(&self) -> Result<RedBlackTreeMap<K, V, A>, AllocError>
        ensures { IfOk result (λ copy. copy ≡ self.now) }
    {
        self.clone_counted(&mut Steps::new())
    }

    /// [`clone`](RedBlackTreeMap::clone), which adds to no count: it makes no node.
    pub fn clone_counted(&self, steps: &mut Steps) -> Result<RedBlackTreeMap<K, V, A>, AllocError>
        ensures copy { IfOk result (λ copy. copy ≡ self.now) }
        ensures counts { steps.new ≡ steps.old }
    {
        // The root gets one more owner, and nothing is left to count.
        let _ = steps;
        Ok(RedBlackTreeMap {
            alloc: self.alloc,
            tree: self.tree.share()?,
            size: self.size,
        })
    }
}

impl<K: Ord, V, A: Allocator, Q: OrdKey<K>> Index<Q> for RedBlackTreeMap<K, V, A> {
    type Output = V;

    ghost can_index = { λ m key. IsSome (find Q.order (Q.seen key) m.entries) };

    ghost index_gives = { λ m key value. option_map (λ p. p.1) (find Q.order (Q.seen key) m.entries) ≡ Some value };

    fn index(&self, key: Q) -> &V {
        self.get(key).unwrap()
    }
}

impl<K: Ord + Drop, V: Drop, A: Allocator + Copy> Clone for RedBlackTreeMap<K, V, A> {
    ghost is_clone = { λ map copy. copy ≡ map };

    fn clone(&self) -> Result<RedBlackTreeMap<K, V, A>, AllocError> {
        RedBlackTreeMap::clone(self)
    }
}
