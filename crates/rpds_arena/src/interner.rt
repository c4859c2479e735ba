//! An arena that stores each value once.
ghost use Rattle.std.specs.Prelude.{◌≡◌, ◌↔◌, ◌++◌, ◌∷◌, [], None, Some, IsTrue, IfOk, OnOk, OnErr};
ghost use Rattle.std.specs.Fmt.{debug_list};
ghost use Rattle.std.specs.List.{IsDistinct};
ghost use Rattle.std.specs.Option.{option_map};
ghost use Rattle.rpds_arena.specs.Interned.{place_of, with_item};

use crate::arena::{Arena, Id};
use rpds_core::map::entry::Entry;
use rpds_hash::map::hash_trie_map::{DefaultBuildHasher, HashTrieMap};
use std::alloc::{AllocError, Allocator, Global};
use std::default::{Emptied, MadeWith};
use std::fmt;
use std::fmt::{Debug, Formatter};
use std::hash::{BuildHasher, Hash};
use std::marker::Model;
use std::rc::Rc;

/// An arena that stores each value once: equal values get one id, unequal ones two. So values are compared by comparing
/// their ids.
///
/// ```
/// let mut texts = Interner::new(rt.alloc());
/// let first = texts.intern("a")?;
/// let second = texts.intern("a")?;
/// assert!(first == second);
/// ```
///
/// | call | cost | allocations |
/// |---|---|---|
/// | `new`, `new_tagged`, `new_tagged_with_hasher`, `arena` | constant | none |
/// | `clone` | constant | those of a clone of the hasher |
/// | `id_of` | one path of a hash trie of degree 64 | none |
/// | `intern` of a value that is there | one path of the hash trie | none |
/// | `intern` of another | one path of the hash trie, and one of a vector | those of a clone of the value, of an insertion into the trie in place, and of [`put`](Arena::put) |
/// | `Debug` | one step an item | none |
///
/// Each value is stored twice, once as its clone: where values are large, let them hold what a clone shares.
/// Values that hold ids of the same interner need a tag of their own, as the items of an arena do.
#[derive(Drop)]
#[must_use = "the values of an interner go with its last version"]
pub struct Interner<
    T: Eq + Hash,
    K = T,
    H: BuildHasher = DefaultBuildHasher,
    A: Allocator = Global,
> {
    arena: Arena<T, K, A>,
    ids: HashTrieMap<T, Id<K>, H, A>,

    // Whether `ids` may have values that aren't in the arena: a call put one in that ran out of memory, and then found none to
    // take it out again.
    has_strays: bool,
}

impl<T: Eq + Hash, K, H: BuildHasher, A: Allocator> Model for Interner<T, K, H, A> {
    ghost use Rattle.std.specs.Prelude.{List};
    ghost use Rattle.rpds_arena.specs.Numbered.{IsNumbered};

    ghost Value = { List T };

    ghost view = { λ i. i.arena };

    ghost invariant = { λ i. IsNumbered T.eq i.has_strays i.arena i.ids.entries };
}

impl<T: Eq + Hash, A: Allocator + Copy> Interner<T, T, DefaultBuildHasher, A> {
    /// An interner without values. It allocates nothing.
    pub fn new(alloc: A) -> Interner<T, T, DefaultBuildHasher, A>
        ensures { result ≡ [] }
    {
        Interner::new_tagged(alloc)
    }
}

impl<T: Eq + Hash, H: BuildHasher, A: Allocator + Copy> Interner<T, T, H, A> {
    /// An interner without values, which hashes them by the hashers that this makes. It allocates nothing.
    pub fn new_with_hasher(alloc: A, hasher: H) -> Interner<T, T, H, A>
        ensures { result ≡ [] }
    {
        Interner::new_tagged_with_hasher(alloc, hasher)
    }
}

impl<T: Eq + Hash, K, A: Allocator + Copy> Interner<T, K, DefaultBuildHasher, A> {
    /// An interner without values, whose ids have a tag of one's own. It allocates nothing.
    pub fn new_tagged(alloc: A) -> Interner<T, K, DefaultBuildHasher, A>
        ensures { result ≡ [] }
    {
        Interner {
            arena: Arena::new_tagged(alloc),
            ids: HashTrieMap::new(alloc),
            has_strays: false,
        }
    }
}

impl<T: Eq + Hash, K, H: BuildHasher, A: Allocator + Copy> Interner<T, K, H, A> {
    /// An interner without values, whose ids have a tag of one's own, and which hashes values by the hashers that this makes. It
    /// allocates nothing.
    pub fn new_tagged_with_hasher(alloc: A, hasher: H) -> Interner<T, K, H, A>
        ensures { result ≡ [] }
    {
        Interner {
            arena: Arena::new_tagged(alloc),
            ids: HashTrieMap::new_with_hasher(alloc, hasher),
            has_strays: false,
        }
    }
}

impl<T: Eq + Hash, K, H: BuildHasher, A: Allocator> Interner<T, K, H, A> {
    ghost use Rattle.rpds_arena.specs.Ids.{number_of};

    /// The values by their ids, in the order in which they came first. No two are equal.
    pub fn arena(&self) -> &Arena<T, K, A>
        ensures values { result.now ≡ self.now }
        ensures distinct { IsDistinct T.eq self.now }
    {
        &self.arena
    }

    /// The id of the value, if it is there.
    pub fn id_of(&self, value: &T) -> Option<Id<K>>
        ensures { option_map number_of result ≡ place_of T.eq value.now self.now }
    {
        let id = *self.ids.get(value)?;
        // The number of a stray is of no item, or of an unequal one.
        if self.has_strays && self.arena.get(id) != Some(value) {
            return None;
        }
        Some(id)
    }
}

impl<T: Eq + Hash + Clone + Drop, K, H: BuildHasher, A: Allocator + Copy> Interner<T, K, H, A> {
    ghost use Rattle.rpds_arena.specs.Ids.{number_of};

    /// The id of the value, which is put in where no equal one is there. An error, where there is no memory or the interner
    /// has the greatest size, leaves the values.
    pub fn intern(&mut self, value: T) -> Result<Id<K>, AllocError>
        requires clone_values { (x y : T) → T.is_clone x y → y ≡ x }
        ensures id { IfOk result (λ id. place_of T.eq value self.new ≡ Some (number_of id)) }

        // The id of an equal value is the same, that of an unequal one isn't.
        ensures equal { IfOk result (λ id. (other : T) →
            (place_of T.eq other self.new ≡ Some (number_of id)) ↔ IsTrue (T.eq other value)) }
        ensures ok { OnOk result (self.new ≡ with_item T.eq value self.old) }
        ensures err { OnErr result (self.new ≡ self.old) }
    {
        match self.id_of(&value) {
            Some(id) => Ok(id),
            None => self.add(value),
        }
    }

    // Puts in a value to which none is equal.
    fn add(&mut self, value: T) -> Result<Id<K>, AllocError>
        requires clone_values { (x y : T) → T.is_clone x y → y ≡ x }
        requires absent { place_of T.eq value self.old ≡ None }
        ensures id { IfOk result (λ id. place_of T.eq value self.new ≡ Some (number_of id)) }
        ensures ok { OnOk result (self.new ≡ self.old ++ value ∷ []) }
        ensures err { OnErr result (self.new ≡ self.old) }
    {
        let id = self.arena.next_id();
        let key = value.clone()?;
        let entry = Rc::new(*self.arena.allocator(), Entry::new(key, id))?;
        // Holds the key, to take it out again where the arena can't grow.
        let kept = entry.clone()?;
        self.ids.insert_shared_mut(entry)?;
        match self.arena.put(value) {
            Ok(id) => Ok(id),
            Err(error) => match self.ids.remove_mut(&kept.key) {
                Ok(_) => Err(error),
                Err(_) => {
                    self.has_strays = true;
                    Err(error)
                }
            },
        }
    }
}

impl<T: Eq + Hash + Drop, K, H: BuildHasher + Clone + Drop, A: Allocator + Copy> Interner<
    T,
    K,
    H,
    A,
> {
    /// Another version of the same values. Memory is taken by the clone of the hasher alone.
    pub fn clone(&self) -> Result<Interner<T, K, H, A>, AllocError>
        requires clone_hasher { (x y : H) → H.is_clone x y → y ≡ x }
        ensures { IfOk result (λ copy. copy ≡ self.now) }
    {
        let arena = self.arena.clone()?;
        let ids = self.ids.clone()?;
        Ok(Interner {
            arena,
            ids,
            has_strays: self.has_strays,
        })
    }
}

/// The empty interner, for `or_default` of std's maps.
impl<T: Eq + Hash + Drop, K, H: BuildHasher + Default + Drop, A: Allocator + Copy> MadeWith<A>
    for Interner<T, K, H, A> {
    ghost is_made_with = { λ interner. interner ≡ [] };

    fn made_with(alloc: A) -> Interner<T, K, H, A> {
        Interner::new_tagged_with_hasher(alloc, H::default())
    }
}

/// The empty interner, for `mem::try_take`.
impl<T: Eq + Hash + Drop, K, H: BuildHasher + Default + Drop, A: Allocator + Copy> Emptied
    for Interner<T, K, H, A> {
    ghost is_emptied = { λ interner. interner ≡ [] };

    fn emptied(like: &Interner<T, K, H, A>) -> Result<Interner<T, K, H, A>, AllocError> {
        Ok(Interner::new_tagged_with_hasher(*like.arena.allocator(), H::default()))
    }
}

/// As `[1, 2]`, the oldest value first, and under `{:#?}` each value on lines of its own.
impl<T: Eq + Hash + Debug, K, H: BuildHasher, A: Allocator> Debug for Interner<T, K, H, A> {
    ghost debug_output = { λ interner. debug_list T.debug_output interner };

    fn fmt<W: fmt::Write>(&self, f: &mut Formatter<W>) -> fmt::Result {
        Debug::fmt(&self.arena, f)
    }
}
