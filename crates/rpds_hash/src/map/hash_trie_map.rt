//! A persistent map whose keys are found by their hashes.
ghost use Rattle.std.specs.Prelude.{◌≡◌, ◌≢◌, ◌+◌, ◌≤◌, ◌<◌, ◌^◌, ◌↔◌, [], ◌∷◌, length, map, is_some, IsTrue, IsSome, IfOk, OnOk, OnErr, MatchOption, None, Some, Ok, false, List};
ghost use Rattle.std.specs.Iterator.{Drains, IsFinite};
ghost use Rattle.std.specs.Map.Iter.{deref_pair};
ghost use Rattle.std.specs.Option.{option_copied, option_map};
ghost use Rattle.rpds_hash_trie.specs.HashChanges.{IsPut, AreCollected, IsGrown, IsShrunk};
ghost use Rattle.rpds_hash_trie.specs.Digits.{IsDegree, digit_count, hash_count};
ghost use Rattle.rpds_hash_trie.specs.HashedMap.{key_hash, key_reach, hashes_of, pairs_of, find, without, IsHashed, IsMap};
ghost use Rattle.rpds_core.specs.Counts.{IsMadeWithin};

mod algebra;
mod alter;
mod compared;
mod diff;
mod extend;
mod get_or_insert_with;
mod iter;
mod lend;
mod map_values;
mod merge;
mod replace;
mod retain;
mod shared_entry;
mod std_traits;
mod text;
mod three_way;
mod union_with;
mod update;

pub use crate::map::hash_trie_map::diff::Diff;
pub use crate::map::hash_trie_map::iter::{Iter, IterKeys, IterValues};
pub use rpds_core::change::MapChange;
use rpds_core::key::HashKey;
use rpds_core::map::entry::Entry;
use rpds_core::size::one_more;
use rpds_core::steps::Steps;
use rpds_hash_trie::node::EntryWithHash;
use rpds_hash_trie::root::Root;
use std::alloc::{AllocError, Allocator, Global};
use std::hash::{BuildHasher, BuildHasherDefault, FoldHasher, Hash, Hasher};
use std::marker::Model;
use std::ops::Index;
use std::rc::Rc;

/// What makes the hashers of a map that isn't given another. Its seed is fixed.
pub type DefaultBuildHasher = BuildHasherDefault<FoldHasher>;

/// A map whose changes give a new map and leave the old one as it is: the two share all nodes but those on one path.
///
/// ```
/// let old = HashTrieMap::new(Global).insert(1, "one")?;
/// let new = old.insert(2, "two")?;
/// // old is {1: "one"}, and new has both pairs
/// assert!(!old.contains_key(&2));
/// assert!(new.get(&2) == Some(&"two"));
/// ```
///
/// It is a hash trie (Bagwell, Ideal Hash Trees, 2001). The 64-bit hash of a key is cut into digits in base `degree`, the
/// lowest first; each level of branches goes by the next digit. A trie of one entry is a leaf, each branch has two
/// entries or more below it, and entries of one hash stand together where all digits are used up. So a path has at most
/// as many nodes as a hash has digits, and one: 12 at degree 64.
///
/// | call | cost in nodes | allocations |
/// |---|---|---|
/// | `new`, `size`, `len`, `is_empty` | constant | none |
/// | `clone` | constant | those of a clone of the hasher |
/// | `get`, `get_key_value`, `contains_key`, `Index` | one path | none |
/// | `insert`, `remove` | one path | two for each node of it, and a few |
/// | `insert_mut`, `remove_mut` | one path | two for each node of it that another map shares, and a few |
/// | `get_mut`, `value_mut` | one path | the same, and those of a clone of the key and the value |
/// | `get_or_insert_with` | two paths where the key is there, else three | those of `value_mut` where the key is there; else those of `insert_mut`, and of a clone of the key |
/// | `update` | two paths | those of `insert` |
/// | `update_mut` | two paths | those of `insert_mut` |
/// | `alter` | two paths | those of `insert`, or of `remove` |
/// | `alter_mut` | two paths | those of `insert_mut`, or of `remove_mut` |
/// | `shared_entry` | one path | none |
/// | `insert_shared`, `insert_shared_mut` | one path | those of `insert` or `insert_mut` but for the pair |
/// | `copy_from` | a path of each map | those of `insert` but for the pair, or of `remove` |
/// | `copy_from_mut` | a path of each map | those of `insert_mut` but for the pair, or of `remove_mut` |
/// | `replace` | two paths | those of `insert_mut`, and of a clone of the old value |
/// | `take` | two paths | those of `remove_mut`, and of a clone of the value |
/// | `clear` | each that no other map shares | none |
/// | `from_iter` | one path a pair | those of an `insert_mut` a pair |
/// | `from_array` | one path a pair | those of `from_iter`, and one for the array |
/// | `extend` | one path a pair | those of an `insert_mut` a pair, into a map that shares its nodes with the old one |
/// | `map_values` | each node once | one for each pair and node, one more for a branch and two more for entries of one hash, and those of a clone of each key and of the hasher |
/// | `retain` | a walk, and one path for each pair that goes | as those of `remove` |
/// | `intersection`, `difference` | a walk over the smaller map, and the places where both have nodes; where degrees or hashes differ, a walk over this map, and one path of the other for each pair | two for each node that it makes, and a few; where degrees or hashes differ, as those of `remove` for each pair that goes |
/// | `union` | a walk over the other map, and the places where both have nodes; where degrees or hashes differ, a walk and one path for each pair that comes | two for each node that it makes, and a few; where degrees or hashes differ, as those of `insert_shared` for each that comes |
/// | `union_with` | those of `union`, and for each key of the smaller map a few paths | those of `union`, and of a clone of the key and an `insert_mut` for each common key |
/// | `merge` | a walk over this map and over theirs, and a path of each other map for each pair; a few paths for each key that they changed | those of a `copy_from_mut`, or of an `insert_mut` or `remove_mut`, for each key that is taken over or settled |
/// | `symmetric_difference` | those of both differences and of their union | as those of both differences and of their union |
/// | `diff` | a walk over both maps, and one path of the other for each pair | none |
/// | `iter`, `keys`, `values`, `Display`, `Debug` | each node once | none |
/// | `==` | a walk over one map, and one path of the other for each pair; nothing where the sizes differ | none |
///
/// Entries of one hash are looked through one by one, and a change among them copies their row: in place only where
/// another map shares it. Each entry keeps the hash of its key, and each call hashes its key once.
///
/// A type can't be recursive through a map: `docs/CALLING.md` shows the ways out.
#[derive(Drop)]
#[must_use = "a change returns a new map, and leaves the old one as it is"]
pub struct HashTrieMap<
    K: Eq + Hash,
    V,
    H: BuildHasher = DefaultBuildHasher,
    A: Allocator = Global,
> {
    alloc: A,
    root: Root<K, V, A>,
    size: usize,
    hasher: H,
}

impl<K: Eq + Hash, V, H: BuildHasher, A: Allocator> Model for HashTrieMap<K, V, H, A> {
    ghost use Rattle.std.specs.Prelude.{◌^◌};
    ghost use Rattle.rpds_hash_trie.specs.HashedMap.{HashedMap, IsMap, key_hash, pairs_of};

    ghost Value = { HashedMap K V H };

    ghost view = { λ m. record { entries = pairs_of m.root.entries; degree = 2 ^ m.root.bits; hasher = m.hasher } };

    ghost invariant = { λ m. IsMap K.eq (key_hash H.BuildHasher H.Hasher.Hasher K.hash_input m.hasher) m.root m.size };
}

// The hash of a key.
fn hash<K: Hash, H: BuildHasher>(hasher: &H, key: &K) -> u64
    ensures { result ≡ key_hash H.BuildHasher H.Hasher.Hasher K.hash_input hasher.now key.now }
{
    let mut state = hasher.build_hasher();
    key.hash(&mut state);
    state.finish()
}

// How many bits a digit has.
fn bits_of(degree: u8) -> u8
    requires { IsDegree degree }
    ensures value { degree ≡ 2 ^ result }
    ensures within { (1 ≤ result) × (result ≤ 6) }
{
    match degree {
        2 => 1,
        4 => 2,
        8 => 3,
        16 => 4,
        32 => 5,
        _ => 6,
    }
}

impl<K: Eq + Hash, V, A: Allocator> HashTrieMap<K, V, DefaultBuildHasher, A> {
    /// The empty map of degree 64. Takes no memory.
    pub fn new(alloc: A) -> HashTrieMap<K, V, DefaultBuildHasher, A>
        ensures empty { result.entries ≡ [] }
        ensures degree { result.degree ≡ 64 }
    {
        HashTrieMap::new_with_hasher(alloc, BuildHasherDefault::new())
    }

    /// The empty map of a degree. Takes no memory.
    pub fn new_with_degree(alloc: A, degree: u8) -> HashTrieMap<K, V, DefaultBuildHasher, A>
        requires { IsDegree degree }
        ensures empty { result.entries ≡ [] }
        ensures degree { result.degree ≡ degree }
    {
        HashTrieMap::new_with_hasher_and_degree(alloc, BuildHasherDefault::new(), degree)
    }
}

impl<K: Eq + Hash, V, H: BuildHasher, A: Allocator> HashTrieMap<K, V, H, A> {
    /// The empty map of degree 64, whose keys are hashed by the hashers that this makes. Takes no memory.
    pub fn new_with_hasher(alloc: A, hasher: H) -> HashTrieMap<K, V, H, A>
        ensures empty { result.entries ≡ [] }
        ensures degree { result.degree ≡ 64 }
        ensures hasher { result.hasher ≡ hasher }
    {
        HashTrieMap::new_with_hasher_and_degree(alloc, hasher, 64)
    }

    /// The empty map of a degree, whose keys are hashed by the hashers that this makes. Takes no memory.
    pub fn new_with_hasher_and_degree(alloc: A, hasher: H, degree: u8) -> HashTrieMap<K, V, H, A>
        requires { IsDegree degree }
        ensures empty { result.entries ≡ [] }
        ensures degree { result.degree ≡ degree }
        ensures hasher { result.hasher ≡ hasher }
    {
        HashTrieMap {
            alloc,
            root: Root::new(bits_of(degree)),
            size: 0,
            hasher,
        }
    }

    /// The allocator that the map was made with.
    pub fn allocator(&self) -> &A {
        &self.alloc
    }

    /// The value of the key, if it is there. The key is given by reference, or in another form: a `&str` for a `String`
    /// ([`HashKey`]).
    pub fn get<Q: HashKey<K>>(&self, key: Q) -> Option<&V>
        ensures { option_copied result ≡ option_map (λ p. p.1)
            (find Q.same (Q.seen key) self.now.entries) }
    {
        match self.get_key_value(key) {
            Some((_, value)) => Some(value),
            None => None,
        }
    }

    /// The stored key that is equal to the key, and its value.
    pub fn get_key_value<Q: HashKey<K>>(&self, key: Q) -> Option<(&K, &V)>
        ensures { option_map deref_pair result ≡ find Q.same (Q.seen key) self.now.entries }
    {
        self.get_counted(key, &mut Steps::new())
    }

    /// [`get_key_value`](HashTrieMap::get_key_value), which adds one to `visited` for each node that it enters, and one to
    /// `matched` for each stored key that it compares: keys whose hash is another are passed over.
    pub fn get_counted<Q: HashKey<K>>(&self, key: Q, steps: &mut Steps) -> Option<(&K, &V)>
        ensures found { option_map deref_pair result ≡ find Q.same (Q.seen key) self.now.entries }

        ensures visited { let hash = key_hash H.BuildHasher H.Hasher.Hasher K.hash_input self.now.hasher in
            let sought = key_hash H.BuildHasher H.Hasher.Hasher Q.hash_input self.now.hasher key in
            IsSome (find Q.same (Q.seen key) self.now.entries)
            → steps.new.visited ≡ steps.old.visited + (key_reach Q.same (Q.seen key) sought hash self.now + 1) }
        ensures visited_most { steps.new.visited ≤ steps.old.visited +
            (digit_count self.now.degree + 1) }
        ensures matched { let hash = key_hash H.BuildHasher H.Hasher.Hasher K.hash_input self.now.hasher in
            let sought = key_hash H.BuildHasher H.Hasher.Hasher Q.hash_input self.now.hasher key in
            steps.new.matched ≤ steps.old.matched + hash_count sought (hashes_of hash self.now.entries) }

        // At least one node is entered where there is a pair, and one key compared where the key is there.
        ensures visited_least { steps.old.visited ≤ steps.new.visited }
        ensures enters { self.now.entries ≢ [] → steps.old.visited < steps.new.visited }
        ensures matched_least { steps.old.matched ≤ steps.new.matched }
        ensures compares { IsSome (find Q.same (Q.seen key) self.now.entries)
            → steps.old.matched < steps.new.matched }
        ensures others { steps.new ≡ record steps.old {
          visited = steps.new.visited;
          matched = steps.new.matched;
        } }
    {
        let hash = hash(&self.hasher, &key);
        self.root.get(key, hash, steps)
    }

    /// Whether the key is there.
    pub fn contains_key<Q: HashKey<K>>(&self, key: Q) -> bool
        ensures { result ≡ is_some (find Q.same (Q.seen key) self.now.entries) }
    {
        self.get_key_value(key).is_some()
    }

    /// How many pairs there are.
    pub fn size(&self) -> usize
        ensures count { result ≡ length self.now.entries }
        ensures hashed { IsHashed K.eq
            (key_hash H.BuildHasher H.Hasher.Hasher K.hash_input self.now.hasher) self.now }
    {
        self.prove_sound();
        self.size
    }

    /// How many pairs there are, by the name that std's maps have: [`size`](HashTrieMap::size).
    pub fn len(&self) -> usize
        ensures count { result ≡ length self.now.entries }
        ensures hashed { IsHashed K.eq
            (key_hash H.BuildHasher H.Hasher.Hasher K.hash_input self.now.hasher) self.now }
    {
        self.size()
    }

    /// Whether there is no pair.
    pub fn is_empty(&self) -> bool
        ensures { IsTrue result ↔ (self.now.entries ≡ []) }
    {
        self.size() == 0
    }
}

impl<K: Eq + Hash, V, H: BuildHasher, A: Allocator> HashTrieMap<K, V, H, A> {
    // No work: a caller learns here what holds of each map.
    fn prove_sound(&self)
        ensures { IsHashed K.eq
            (key_hash H.BuildHasher H.Hasher.Hasher K.hash_input self.now.hasher) self.now }
    {
        self.root.prove_sound();
    }
}

impl<K: Eq + Hash + Drop, V: Drop, H: BuildHasher, A: Allocator + Copy> HashTrieMap<K, V, H, A> {
    // The trie with the pair in it, and its size.
    fn grown(
        &self,
        key: K,
        value: V,
        steps: &mut Steps,
    ) -> Result<(Root<K, V, A>, usize), AllocError>
        ensures ok { let hash = key_hash H.BuildHasher H.Hasher.Hasher K.hash_input self.now.hasher in
            IfOk result (λ r. IsGrown K.eq hash (key, value) self.now r.0 r.1) }
        ensures made { let hash = key_hash H.BuildHasher H.Hasher.Hasher K.hash_input self.now.hasher in
            IsMadeWithin (key_reach K.eq key (hash key) hash self.now + 2) steps.old steps.new }
        ensures first { self.now.entries ≡ [] → IsMadeWithin 1 steps.old steps.new }
        ensures makes { OnOk result (steps.old.made < steps.new.made) }
    {
        let more = one_more(self.size)?;
        let key_hash = hash(&self.hasher, &key);
        let entry = Rc::new(self.alloc, Entry { key, value })?;
        let stored = EntryWithHash { entry, key_hash };
        let mut fresh = false;
        let root = self.root.insert(self.alloc, stored, &mut fresh, steps)?;
        if fresh {
            Ok((root, more))
        } else {
            Ok((root, self.size))
        }
    }

    // The trie without the key, and its size; None where the key is absent.
    fn shrunk<Q: HashKey<K>>(
        &self,
        key: Q,
        steps: &mut Steps,
    ) -> Result<Option<(Root<K, V, A>, usize)>, AllocError>
        ensures ok { let hash = key_hash H.BuildHasher H.Hasher.Hasher K.hash_input self.now.hasher in
            IfOk result (λ r. MatchOption r (find Q.same (Q.seen key) self.now.entries ≡ None) (λ p. IsShrunk K.eq hash Q.same (Q.seen key) self.now p.0 p.1)) }
        ensures made { let hash = key_hash H.BuildHasher H.Hasher.Hasher K.hash_input self.now.hasher in
            let sought = key_hash H.BuildHasher H.Hasher.Hasher Q.hash_input self.now.hasher key in
            IsMadeWithin (key_reach Q.same (Q.seen key) sought hash self.now + 1) steps.old steps.new }
        ensures makes { IfOk result (λ r. MatchOption r (steps.new ≡ steps.old) (λ left.
            left.0.entries ≢ [] → steps.old.made < steps.new.made)) }
    {
        let hash = hash(&self.hasher, &key);
        match self.root.remove(self.alloc, key, hash, steps)? {
            None => Ok(None),
            Some(root) => Ok(Some((root, self.size - 1))),
        }
    }

    /// Puts the pair into the map, in place of an equal key and its value. An error leaves the map as it is. It comes, too,
    /// where there are `usize::MAX` pairs, also for a stored key.
    ///
    /// Nodes that no other map shares are changed in place, and a shared node on the way is copied.
    pub fn insert_mut(&mut self, key: K, value: V) -> Result<(), AllocError>
        ensures ok { OnOk result (IsPut K.eq (key, value) self.old self.new) }
        ensures found { OnOk result ((k : K)
            → find K.eq k self.new.entries ≡ find K.eq k ((key, value) ∷ self.old.entries)) }
        ensures size { OnOk result (length self.new.entries ≤ length self.old.entries + 1) }
        ensures err { OnErr result (self.new ≡ self.old) }
    {
        let more = one_more(self.size)?;
        let key_hash = hash(&self.hasher, &key);
        let entry = Rc::new(self.alloc, Entry { key, value })?;
        let stored = EntryWithHash { entry, key_hash };
        if self.root.insert_mut(self.alloc, stored)? {
            self.size = more;
        }
        Ok(())
    }

    /// Takes the key and its value out of the map, and returns whether the key was there. An error leaves the map as
    /// it is.
    ///
    /// Nodes that no other map shares are changed in place. A shared node on the way is copied, even where the key is
    /// absent, but for the leaf at its end, which goes or stays as it is. A map that shares nothing takes no memory.
    pub fn remove_mut<Q: HashKey<K>>(&mut self, key: Q) -> Result<bool, AllocError>
        ensures found { IfOk result (λ there.
            there ≡ is_some (find Q.same (Q.seen key) self.old.entries)) }
        ensures ok { OnOk result
            (self.new ≡ record self.old { entries = without Q.same (Q.seen key) self.old.entries }) }
        ensures absent { result ≡ Ok false → self.new ≡ self.old }
        ensures err { OnErr result (self.new ≡ self.old) }
        ensures empty { self.old.entries ≡ [] → result ≡ Ok false }
    {
        if self.size == 0 {
            return Ok(false);
        }
        let hash = hash(&self.hasher, &key);
        let there = self.root.remove_mut(key, hash)?;
        if there {
            self.size -= 1;
        }
        Ok(there)
    }

    /// Drops all pairs, but for those that another map shares. It allocates nothing, and the hasher and the degree stay.
    pub fn clear(&mut self)
        ensures { self.new ≡ record self.old { entries = [] } }
    {
        self.size = 0;
        self.root.clear();
    }
}

impl<
    K: Eq + Hash + Drop,
    V: Drop,
    H: BuildHasher + Default + Drop,
    A: Allocator + Copy,
> HashTrieMap<K, V, H, A> {
    /// The map of degree 64 with each of the pairs put in, in the order in which they come: of those with equal keys
    /// the last is kept. Where the map has `usize::MAX` pairs and one more comes, it returns an error.
    pub fn from_iter<U: IntoIterator<Item = (K, V)>>(
        alloc: A,
        iter: U,
    ) -> Result<HashTrieMap<K, V, H, A>, AllocError>
        requires ends { (it : U.IntoIter) → U.into_iter_gives iter it →
            U.IntoIter.can_next it × IsFinite (U.IntoIter.remaining it) }
        ensures entries { IfOk result (λ m. (it : U.IntoIter) × (pairs : List (K × V)) ×
            U.into_iter_gives iter it × Drains U.IntoIter.next_gives it pairs ×
            AreCollected K.eq pairs m.entries) }
        ensures degree { IfOk result (λ m. m.degree ≡ 64) }
        ensures hasher { IfOk result (λ m. H.is_default m.hasher) }
    {
        let mut map = HashTrieMap::new_with_hasher(alloc, H::default());
        for (key, value) in iter {
            map.insert_mut(key, value)?;
            // For its clause: the keys are pairwise unequal.
            map.prove_sound();
        }
        Ok(map)
    }

    /// The map of degree 64 with each of the pairs of the array put in, in their order: of those with equal keys the last is kept.
    ///
    /// It costs what [`from_iter`](HashTrieMap::from_iter) costs, and one allocation for the array. The error means that memory ran
    /// out, and drops the pairs.
    pub fn from_array<const N: usize>(
        alloc: A,
        pairs: [(K, V); N],
    ) -> Result<HashTrieMap<K, V, H, A>, AllocError>
        ensures entries { IfOk result (λ m. AreCollected K.eq pairs m.entries) }
        ensures degree { IfOk result (λ m. m.degree ≡ 64) }
        ensures hasher { IfOk result (λ m. H.is_default m.hasher) }
    {
        match Vec::from_array(alloc, pairs) {
            Ok(pairs) => HashTrieMap::from_iter(alloc, pairs),
            Err(refused) => Err(AllocError::from(refused)),
        }
    }
}

impl<K: Eq + Hash + Drop, V, H: BuildHasher + Clone, A: Allocator + Copy> HashTrieMap<K, V, H, A> {
    // A map of another trie, whose keys are hashed as this one's.
    fn of_root<W: Drop>(
        &self,
        root: Root<K, W, A>,
        size: usize,
    ) -> Result<HashTrieMap<K, W, H, A>, AllocError>
        requires clone_hasher { (x y : H) → H.is_clone x y → y ≡ x }
        requires sound { IsMap K.eq
            (key_hash H.BuildHasher H.Hasher.Hasher K.hash_input self.now.hasher) root size }
        ensures { IfOk result (λ m. m ≡ record {
          entries = pairs_of root.entries;
          degree = 2 ^ root.bits;
          hasher = self.now.hasher;
        }) }
    {
        Ok(HashTrieMap {
            alloc: self.alloc,
            root,
            size,
            hasher: self.hasher.clone()?,
        })
    }
}

impl<K: Eq + Hash + Drop, V: Drop, H: BuildHasher + Clone + Drop, A: Allocator + Copy> HashTrieMap<
    K,
    V,
    H,
    A,
> {
    /// The map with the pair in it, in place of an equal key and its value. Where there are `usize::MAX` pairs it returns an
    /// error, also for a stored key.
    pub fn insert(&self, key: K, value: V) -> Result<HashTrieMap<K, V, H, A>, AllocError>
        requires clone_hasher { (x y : H) → H.is_clone x y → y ≡ x }
        ensures ok { IfOk result (IsPut K.eq (key, value) self.now) }
        ensures found { IfOk result (λ m. (k : K)
            → find K.eq k m.entries ≡ find K.eq k ((key, value) ∷ self.now.entries)) }
        ensures size { IfOk result (λ m. length m.entries ≤ length self.now.entries + 1) }
    {
        self.insert_counted(key, value, &mut Steps::new())
    }

    /// [`insert`](HashTrieMap::insert), which counts the nodes that it makes.
    pub fn insert_counted(
        &self,
        key: K,
        value: V,
        steps: &mut Steps,
    ) -> Result<HashTrieMap<K, V, H, A>, AllocError>
        requires clone_hasher { (x y : H) → H.is_clone x y → y ≡ x }
        ensures ok { IfOk result (IsPut K.eq (key, value) self.now) }
        ensures found { IfOk result (λ m. (k : K)
            → find K.eq k m.entries ≡ find K.eq k ((key, value) ∷ self.now.entries)) }
        ensures size { IfOk result (λ m. length m.entries ≤ length self.now.entries + 1) }

        // The nodes above the key, its own, and one beside it where a leaf of another key is parted.
        ensures path { let hash = key_hash H.BuildHasher H.Hasher.Hasher K.hash_input self.now.hasher in
            IsMadeWithin (key_reach K.eq key (hash key) hash self.now + 2) steps.old steps.new }
        ensures made { IsMadeWithin (digit_count self.now.degree + 2) steps.old steps.new }
        ensures first { self.now.entries ≡ [] → IsMadeWithin 1 steps.old steps.new }
        ensures makes { OnOk result (steps.old.made < steps.new.made) }
    {
        let (root, size) = self.grown(key, value, steps)?;
        self.of_root(root, size)
    }

    /// The map without the key and its value; where the key is absent, another handle to the same map.
    pub fn remove<Q: HashKey<K>>(&self, key: Q) -> Result<HashTrieMap<K, V, H, A>, AllocError>
        requires clone_hasher { (x y : H) → H.is_clone x y → y ≡ x }
        ensures ok { IfOk result (λ m.
            m ≡ record self.now { entries = without Q.same (Q.seen key) self.now.entries }) }
        ensures absent { find Q.same (Q.seen key) self.now.entries ≡ None
            → IfOk result (λ m. m ≡ self.now) }
    {
        self.remove_counted(key, &mut Steps::new())
    }

    /// [`remove`](HashTrieMap::remove), which counts the nodes that it makes.
    pub fn remove_counted<Q: HashKey<K>>(
        &self,
        key: Q,
        steps: &mut Steps,
    ) -> Result<HashTrieMap<K, V, H, A>, AllocError>
        requires clone_hasher { (x y : H) → H.is_clone x y → y ≡ x }
        ensures ok { IfOk result (λ m.
            m ≡ record self.now { entries = without Q.same (Q.seen key) self.now.entries }) }
        ensures absent { find Q.same (Q.seen key) self.now.entries ≡ None
            → IfOk result (λ m. m ≡ self.now) }

        ensures path { let hash = key_hash H.BuildHasher H.Hasher.Hasher K.hash_input self.now.hasher in
            let sought = key_hash H.BuildHasher H.Hasher.Hasher Q.hash_input self.now.hasher key in
            IsMadeWithin (key_reach Q.same (Q.seen key) sought hash self.now + 1) steps.old steps.new }
        ensures made { IsMadeWithin (digit_count self.now.degree + 1) steps.old steps.new }

        // At least one node is made where the key is there and isn't the only one.
        ensures makes { IsSome (find Q.same (Q.seen key) self.now.entries) → without Q.same (Q.seen key) self.now.entries ≢ []
            → OnOk result (steps.old.made < steps.new.made) }

        // None is made where the key is absent.
        ensures unmade { find Q.same (Q.seen key) self.now.entries ≡ None → OnOk result (steps.new ≡ steps.old) }
    {
        match self.shrunk(key, steps)? {
            None => self.clone(),
            Some((root, size)) => self.of_root(root, size),
        }
    }

    /// Another handle to the same map: both own the same nodes. Memory is taken by the clone of the hasher alone, and it
    /// fails only where that clone is refused or a reference count overflows.
    pub fn clone(&self) -> Result<HashTrieMap<K, V, H, A>, AllocError>
        requires clone_hasher { (x y : H) → H.is_clone x y → y ≡ x }
        ensures { IfOk result (λ copy. copy ≡ self.now) }
    {
        self.clone_counted(&mut Steps::new())
    }

    /// [`clone`](HashTrieMap::clone), which adds to no count: it makes no node.
    pub fn clone_counted(&self, steps: &mut Steps) -> Result<HashTrieMap<K, V, H, A>, AllocError>
        requires clone_hasher { (x y : H) → H.is_clone x y → y ≡ x }
        ensures copy { IfOk result (λ copy. copy ≡ self.now) }
        ensures counts { steps.new ≡ steps.old }
    {
        // The root gets one more owner, and nothing is left to count.
        let _ = steps;
        self.of_root(self.root.share()?, self.size)
    }
}

impl<K: Eq + Hash, V, H: BuildHasher, A: Allocator, Q: HashKey<K>> Index<Q>
    for HashTrieMap<K, V, H, A> {
    type Output = V;

    ghost can_index = { λ m key. IsSome (find Q.same (Q.seen key) m.entries) };

    ghost index_gives = { λ m key value. option_map (λ p. p.1) (find Q.same (Q.seen key) m.entries) ≡ Some value };

    fn index(&self, key: Q) -> &V {
        self.get(key).unwrap()
    }
}
