//! A persistent set whose members are found by their hashes: the keys of a hashed map.
ghost use Rattle.std.specs.Prelude.{◌≡◌, ◌≢◌, ◌+◌, ◌≤◌, ◌<◌, ◌↔◌, [], ◌∷◌, List, length, map, is_some, IsTrue, IsSome, IfOk, OnOk, OnErr, None, Ok, false};
ghost use Rattle.std.specs.Iterator.{Drains, IsFinite};
ghost use Rattle.std.specs.Option.{option_copied};
ghost use Rattle.rpds_hash_trie.specs.Digits.{IsDegree, reach, digit_count, hash_count};
ghost use Rattle.rpds_hash_trie.specs.HashedMap.{key_hash};
ghost use Rattle.rpds_hash.specs.HashedSet.{HoldLast, IsHashedSet, IsPutMember, find_member, without_member};

mod algebra;
mod compared;
mod diff;
mod extend;
mod iter;
mod relations;
mod std_traits;
mod text;

use crate::map::hash_trie_map::{DefaultBuildHasher, HashTrieMap};
pub use crate::set::hash_trie_set::diff::Diff;
pub use crate::set::hash_trie_set::iter::Iter;
pub use rpds_core::change::SetChange;
use rpds_core::key::HashKey;
use rpds_core::steps::Steps;
use std::alloc::{AllocError, Allocator, Global};
use std::hash::{BuildHasher, Hash};
use std::marker::Model;

/// A set whose changes give a new set and leave the old one as it is: the two share all nodes but those on one path.
///
/// It is a [`HashTrieMap`] from its members to unit, and each call costs what the map's call costs.
///
/// ```
/// let old = HashTrieSet::new(Global).insert(1)?;
/// let new = old.insert(2)?;
/// // old is {1}, and new has both members
/// assert!(!old.contains(&2) && new.contains(&2));
/// ```
///
/// | call | cost in nodes | allocations |
/// |---|---|---|
/// | `new`, `size`, `len`, `is_empty` | constant | none |
/// | `clone` | constant | those of a clone of the hasher |
/// | `get`, `contains` | one path | none |
/// | `insert`, `remove` | one path | two for each node of it, and a few |
/// | `insert_mut`, `remove_mut` | one path | two for each node of it that another set shares, and a few |
/// | `clear` | each that no other set shares | none |
/// | `from_iter` | one path an item | those of an `insert_mut` an item |
/// | `from_array` | one path an item | those of `from_iter`, and one for the array |
/// | `extend` | one path an item | those of an `insert_mut` an item, into a set that shares its nodes with the old one |
/// | `diff` | a walk over both sets, and one path of the other for each member | none |
/// | `iter`, `Display`, `Debug` | each node once | none |
/// | `==` | a walk over one set, and one path of the other for each item; nothing where the sizes differ | none |
/// | `is_subset`, `is_superset`, `is_disjoint` | a walk over one set, and one path of the other for each item | none |
/// | `union`, `\|` | a walk over the other set, and the places where both have nodes; where degrees or hashes differ, a walk and one path for each member that comes | two for each node that it makes, and a few; where degrees or hashes differ, as those of a map's `insert_shared` for each that comes |
/// | `symmetric_difference`, `^` | those of both differences and of their union | as those of both differences and of their union |
/// | `intersection`, `difference`, `&`, `-` | a walk over the smaller set, and the places where both have nodes; where degrees or hashes differ, a walk over this set, and one path of the other for each member | two for each node that it makes, and a few; where degrees or hashes differ, as those of `remove` for each member that goes |
/// | `retain` | a walk, and one path for each member that goes | as those of `remove` |
///
/// A type can't be recursive through a set: `docs/CALLING.md` shows the ways out.
#[derive(Drop)]
#[must_use = "a change returns a new set, and leaves the old one as it is"]
pub struct HashTrieSet<T: Eq + Hash, H: BuildHasher = DefaultBuildHasher, A: Allocator = Global> {
    map: HashTrieMap<T, (), H, A>,
}

impl<T: Eq + Hash, H: BuildHasher, A: Allocator> Model for HashTrieSet<T, H, A> {
    ghost use Rattle.rpds_hash.specs.HashedSet.{HashedSet, set_of};

    ghost Value = { HashedSet T H };

    ghost view = { λ s. set_of s.map };
}

impl<T: Eq + Hash, A: Allocator> HashTrieSet<T, DefaultBuildHasher, A> {
    /// The empty set of degree 64. Takes no memory.
    pub fn new(alloc: A) -> HashTrieSet<T, DefaultBuildHasher, A>
        ensures empty { result.members ≡ [] }
        ensures degree { result.degree ≡ 64 }
    {
        HashTrieSet {
            map: HashTrieMap::new(alloc),
        }
    }

    /// The empty set of a degree. Takes no memory.
    pub fn new_with_degree(alloc: A, degree: u8) -> HashTrieSet<T, DefaultBuildHasher, A>
        requires { IsDegree degree }
        ensures empty { result.members ≡ [] }
        ensures degree { result.degree ≡ degree }
    {
        HashTrieSet {
            map: HashTrieMap::new_with_degree(alloc, degree),
        }
    }
}

#[tactic(auto, using(crate::proofs::Members::member_rules))]
impl<T: Eq + Hash, H: BuildHasher, A: Allocator> HashTrieSet<T, H, A> {
    /// The empty set of degree 64, whose members are hashed by the hashers that this makes. Takes no memory.
    pub fn new_with_hasher(alloc: A, hasher: H) -> HashTrieSet<T, H, A>
        ensures empty { result.members ≡ [] }
        ensures degree { result.degree ≡ 64 }
        ensures hasher { result.hasher ≡ hasher }
    {
        HashTrieSet {
            map: HashTrieMap::new_with_hasher(alloc, hasher),
        }
    }

    /// The empty set of a degree, whose members are hashed by the hashers that this makes. Takes no memory.
    pub fn new_with_hasher_and_degree(alloc: A, hasher: H, degree: u8) -> HashTrieSet<T, H, A>
        requires { IsDegree degree }
        ensures empty { result.members ≡ [] }
        ensures degree { result.degree ≡ degree }
        ensures hasher { result.hasher ≡ hasher }
    {
        HashTrieSet {
            map: HashTrieMap::new_with_hasher_and_degree(alloc, hasher, degree),
        }
    }

    /// The allocator that the set was made with.
    pub fn allocator(&self) -> &A {
        self.map.allocator()
    }

    /// The stored member that is equal to the value. The value is given by reference, or in another form: a `&str` for a
    /// `String` ([`HashKey`]).
    pub fn get<Q: HashKey<T>>(&self, value: Q) -> Option<&T>
        ensures { option_copied result ≡ find_member Q.same (Q.seen value) self.now.members }
    {
        self.get_counted(value, &mut Steps::new())
    }

    /// [`get`](HashTrieSet::get), which adds one to `visited` for each node that it enters, and one to `matched` for each
    /// member that it compares: members whose hash is another are passed over.
    pub fn get_counted<Q: HashKey<T>>(&self, value: Q, steps: &mut Steps) -> Option<&T>
        ensures found { option_copied result ≡ find_member Q.same (Q.seen value) self.now.members }

        ensures visited { let hash = key_hash H.BuildHasher H.Hasher.Hasher T.hash_input self.now.hasher in
            let sought = key_hash H.BuildHasher H.Hasher.Hasher Q.hash_input self.now.hasher value in
            let others = map hash (without_member Q.same (Q.seen value) self.now.members) in
            IsSome (find_member Q.same (Q.seen value) self.now.members) → steps.new.visited ≡ steps.old.visited + (reach self.now.degree sought others + 1) }
        ensures visited_most { steps.new.visited ≤ steps.old.visited +
            (digit_count self.now.degree + 1) }
        ensures matched { let hash = key_hash H.BuildHasher H.Hasher.Hasher T.hash_input self.now.hasher in
            let sought = key_hash H.BuildHasher H.Hasher.Hasher Q.hash_input self.now.hasher value in
            steps.new.matched ≤ steps.old.matched + hash_count sought (map hash self.now.members) }

        // At least one node is entered where there is a member, and one member compared where the value is one.
        ensures visited_least { steps.old.visited ≤ steps.new.visited }
        ensures enters { self.now.members ≢ [] → steps.old.visited < steps.new.visited }
        ensures matched_least { steps.old.matched ≤ steps.new.matched }
        ensures compares { IsSome (find_member Q.same (Q.seen value) self.now.members)
            → steps.old.matched < steps.new.matched }
        ensures others { steps.new ≡ record steps.old {
          visited = steps.new.visited;
          matched = steps.new.matched;
        } }
    {
        match self.map.get_counted(value, steps) {
            Some((member, _)) => Some(member),
            None => None,
        }
    }

    /// Whether the value is a member.
    pub fn contains<Q: HashKey<T>>(&self, value: Q) -> bool
        ensures { result ≡ is_some (find_member Q.same (Q.seen value) self.now.members) }
    {
        self.get(value).is_some()
    }

    /// How many members there are.
    pub fn size(&self) -> usize
        ensures count { result ≡ length self.now.members }
        ensures hashed { IsHashedSet T.eq
            (key_hash H.BuildHasher H.Hasher.Hasher T.hash_input self.now.hasher) self.now }
    {
        self.map.size()
    }

    /// How many members there are, by the name that std's sets have: [`size`](HashTrieSet::size).
    pub fn len(&self) -> usize
        ensures count { result ≡ length self.now.members }
        ensures hashed { IsHashedSet T.eq
            (key_hash H.BuildHasher H.Hasher.Hasher T.hash_input self.now.hasher) self.now }
    {
        self.size()
    }

    /// Whether there is no member.
    pub fn is_empty(&self) -> bool
        ensures { IsTrue result ↔ (self.now.members ≡ []) }
    {
        self.size() == 0
    }
}

#[tactic(auto, using(crate::proofs::Members::member_rules))]
impl<T: Eq + Hash + Drop, H: BuildHasher, A: Allocator + Copy> HashTrieSet<T, H, A> {
    /// Puts the value into the set, in place of an equal member. An error leaves the set as it is. It comes, too, where there
    /// are `usize::MAX` members, also for one of them.
    ///
    /// Nodes that no other set shares are changed in place, and a shared node on the way is copied.
    pub fn insert_mut(&mut self, value: T) -> Result<(), AllocError>
        ensures ok { OnOk result (IsPutMember T.eq value self.old self.new) }
        ensures found { OnOk result ((x : T)
            → find_member T.eq x self.new.members ≡ find_member T.eq x (value ∷ self.old.members)) }
        ensures size { OnOk result (length self.new.members ≤ length self.old.members + 1) }
        ensures err { OnErr result (self.new ≡ self.old) }
    {
        self.map.insert_mut(value, ())
    }

    /// Takes the value out of the set, and returns whether it was a member. An error leaves the set as it is.
    ///
    /// Nodes that no other set shares are changed in place. A shared node on the way is copied, even where the value is
    /// no member, but for the leaf at its end, which goes or stays as it is. A set that shares nothing takes no memory.
    pub fn remove_mut<Q: HashKey<T>>(&mut self, value: Q) -> Result<bool, AllocError>
        ensures found { IfOk result (λ there.
            there ≡ is_some (find_member Q.same (Q.seen value) self.old.members)) }
        ensures ok { OnOk result (self.new
            ≡ record self.old { members = without_member Q.same (Q.seen value) self.old.members }) }
        ensures absent { result ≡ Ok false → self.new ≡ self.old }
        ensures err { OnErr result (self.new ≡ self.old) }
        ensures empty { self.old.members ≡ [] → result ≡ Ok false }
    {
        self.map.remove_mut(value)
    }

    /// Drops all members, but for those that another set shares. It allocates nothing, and the hasher and the degree stay.
    pub fn clear(&mut self)
        ensures { self.new ≡ record self.old { members = [] } }
    {
        self.map.clear();
    }
}

#[tactic(auto, using(crate::proofs::Members::member_rules))]
impl<T: Eq + Hash + Drop, H: BuildHasher + Default + Drop, A: Allocator + Copy> HashTrieSet<
    T,
    H,
    A,
> {
    /// The set of degree 64 with each of the items put in, in the order in which they come: of those that are equal the
    /// last is kept. Where the set has `usize::MAX` members and one more item comes, it returns an error.
    pub fn from_iter<U: IntoIterator<Item = T>>(
        alloc: A,
        iter: U,
    ) -> Result<HashTrieSet<T, H, A>, AllocError>
        requires ends { (it : U.IntoIter) → U.into_iter_gives iter it →
            U.IntoIter.can_next it × IsFinite (U.IntoIter.remaining it) }
        ensures members { IfOk result (λ s. (it : U.IntoIter) × (items : List T) ×
            U.into_iter_gives iter it × Drains U.IntoIter.next_gives it items ×
            HoldLast T.eq items s.members) }
        ensures degree { IfOk result (λ s. s.degree ≡ 64) }
        ensures hasher { IfOk result (λ s. H.is_default s.hasher) }
    {
        let mut map = HashTrieMap::new_with_hasher(alloc, H::default());
        for item in iter {
            map.insert_mut(item, ())?;
            // For its clause: the keys are pairwise unequal.
            let _size = map.size();
        }
        Ok(HashTrieSet { map })
    }

    /// The set of degree 64 with each of the items of the array put in, in their order: of those that are equal the last is kept.
    ///
    /// It costs what [`from_iter`](HashTrieSet::from_iter) costs, and one allocation for the array. The error means that memory ran
    /// out, and drops the items.
    pub fn from_array<const N: usize>(
        alloc: A,
        items: [T; N],
    ) -> Result<HashTrieSet<T, H, A>, AllocError>
        ensures members { IfOk result (λ s. HoldLast T.eq items s.members) }
        ensures degree { IfOk result (λ s. s.degree ≡ 64) }
        ensures hasher { IfOk result (λ s. H.is_default s.hasher) }
    {
        match Vec::from_array(alloc, items) {
            Ok(items) => HashTrieSet::from_iter(alloc, items),
            Err(refused) => Err(AllocError::from(refused)),
        }
    }
}

#[tactic(auto, using(crate::proofs::Members::member_rules))]
impl<T: Eq + Hash + Drop, H: BuildHasher + Clone + Drop, A: Allocator + Copy> HashTrieSet<T, H, A> {
    /// The set with the value in it, in place of an equal member. Where there are `usize::MAX` members it returns an error,
    /// also for one of them.
    pub fn insert(&self, value: T) -> Result<HashTrieSet<T, H, A>, AllocError>
        requires clone_hasher { (x y : H) → H.is_clone x y → y ≡ x }
        ensures ok { IfOk result (IsPutMember T.eq value self.now) }
        ensures found { IfOk result (λ s. (x : T)
            → find_member T.eq x s.members ≡ find_member T.eq x (value ∷ self.now.members)) }
        ensures size { IfOk result (λ s. length s.members ≤ length self.now.members + 1) }
    {
        let map = self.map.insert(value, ())?;
        Ok(HashTrieSet { map })
    }

    /// The set without the value; where the value is no member, another handle to the same set.
    pub fn remove<Q: HashKey<T>>(&self, value: Q) -> Result<HashTrieSet<T, H, A>, AllocError>
        requires clone_hasher { (x y : H) → H.is_clone x y → y ≡ x }
        ensures ok { IfOk result (λ s.
            s ≡ record self.now { members = without_member Q.same (Q.seen value) self.now.members }) }
        ensures absent { find_member Q.same (Q.seen value) self.now.members ≡ None
            → IfOk result (λ s. s ≡ self.now) }
    {
        let map = self.map.remove(value)?;
        Ok(HashTrieSet { map })
    }

    /// Another handle to the same set: both own the same nodes. Memory is taken by the clone of the hasher alone, and it
    /// fails only where that clone is refused or a reference count overflows.
    pub fn clone(&self) -> Result<HashTrieSet<T, H, A>, AllocError>
        requires clone_hasher { (x y : H) → H.is_clone x y → y ≡ x }
        ensures { IfOk result (λ copy. copy ≡ self.now) }
    {
        let map = self.map.clone()?;
        Ok(HashTrieSet { map })
    }
}
