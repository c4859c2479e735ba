//! A list of items that only grows, and the ids of its items.
ghost use Rattle.std.specs.Prelude.{◌≡◌, ◌<◌, ◌≤◌, ◌++◌, ◌∷◌, ◌↔◌, [], List, None, Some, length, slice_get, IsTrue, IfOk, OnOk, OnErr};
ghost use Rattle.std.specs.Borrow.{Bor};
ghost use Rattle.std.specs.Fmt.{debug_list};
ghost use Rattle.std.specs.Option.{option_copied, option_map};
ghost use Rattle.rpds_arena.specs.Folded.{folded};

mod std_traits;

use rpds_vector::vector::{Iter, Vector};
use std::alloc::{AllocError, Allocator, Global};
use std::fmt;
use std::fmt::{Debug, Formatter};
use std::marker::{Model, PhantomData};
use std::ops::Index;

/// The place of an item in an arena whose ids have the tag `K`. It doesn't say of which arena.
#[derive_where(Clone, Copy, PartialEq, Eq, PartialOrd, Ord, Hash)]
#[must_use = "an item is found again by its id alone"]
pub struct Id<K> {
    number: usize,
    #[derive_where(skip)]
    tag: PhantomData<K>,
}

impl<K> Id<K> {
    ghost use Rattle.rpds_arena.specs.Ids.{number_of};

    // The id of the item that has this number.
    fn at(number: usize) -> Id<K>
        ensures { number_of result ≡ number }
    {
        Id {
            number,
            tag: PhantomData,
        }
    }

    /// How many items were put in before its item.
    pub fn number(self) -> usize
        ensures { result ≡ number_of self }
    {
        self.number
    }
}

/// As `Id { number: 0 }`.
impl<K> Debug for Id<K> {
    fn fmt<W: fmt::Write>(&self, f: &mut Formatter<W>) -> fmt::Result {
        f.debug_struct("Id").field("number", &self.number).finish()
    }
}

/// A list of items that only grows. A clone is another version: what is put into one isn't in the other.
///
/// Its ids are `Id<K>`, which no arena with another tag takes. Items that hold ids of the same arena need a tag of their own, as
/// here `pub struct Value;`:
///
/// ```
/// let mut arena = Arena::new_tagged(rt.alloc());
/// let one = arena.put(Json::Number(1))?;
/// let kids = Vector::new(rt.alloc()).push_back(one)?;
/// let array = arena.put(Json::Array(kids))?;
/// ```
///
/// | call | cost | allocations |
/// |---|---|---|
/// | `new`, `new_tagged`, `len`, `is_empty`, `id_at` | constant | none |
/// | `clone` | constant | none |
/// | `get`, `Index` | one path of a vector of 5 bits | none |
/// | `put` | one path | two for each node of it that another version shares, one for the item; at times one to grow a row, two for a new leaf or branch |
/// | `iter`, `Debug` | one step an item | none |
/// | `fold` | one step an item | those of a `Vec` that grows, and those of the step |
///
/// An item stays until no version of the arena that has it is left, whether or not another item still names it.
#[derive(Drop)]
#[must_use = "the items of an arena go with its last version"]
pub struct Arena<T, K = T, A: Allocator = Global> {
    items: Vector<T, A>,
    tag: PhantomData<K>,
}

impl<T, K, A: Allocator> Model for Arena<T, K, A> {
    ghost use Rattle.std.specs.Prelude.{List};

    ghost Value = { List T };

    ghost view = { λ a. a.items.items };
}

impl<T, A: Allocator> Arena<T, T, A> {
    /// An arena without items. It allocates nothing.
    pub fn new(alloc: A) -> Arena<T, T, A>
        ensures { result ≡ [] }
    {
        Arena::new_tagged(alloc)
    }
}

impl<T, K, A: Allocator> Arena<T, K, A> {
    ghost use Rattle.rpds_arena.specs.Ids.{number_of};

    /// An arena without items, whose ids have a tag of one's own. It allocates nothing.
    pub fn new_tagged(alloc: A) -> Arena<T, K, A>
        ensures { result ≡ [] }
    {
        Arena {
            items: Vector::new(alloc),
            tag: PhantomData,
        }
    }

    /// The allocator that the arena was made with.
    pub fn allocator(&self) -> &A {
        self.items.allocator()
    }

    /// The item of the id, if there is one.
    pub fn get(&self, id: Id<K>) -> Option<&T>
        ensures { option_copied result ≡ slice_get self.now (number_of id) }
    {
        self.items.get(id.number)
    }

    /// The id of the item that has this number, if there is one.
    pub fn id_at(&self, number: usize) -> Option<Id<K>>
        ensures there { number < length self.now → option_map number_of result ≡ Some number }
        ensures beyond { length self.now ≤ number → result ≡ None }
    {
        if number < self.items.len() {
            Some(Id::at(number))
        } else {
            None
        }
    }

    // The id that the next item gets.
    pub(crate) fn next_id(&self) -> Id<K>
        ensures { number_of result ≡ length self.now }
    {
        Id::at(self.items.len())
    }

    /// How many items there are.
    pub fn len(&self) -> usize
        ensures { result ≡ length self.now }
    {
        self.items.len()
    }

    /// Whether there are no items.
    pub fn is_empty(&self) -> bool
        ensures { IsTrue result ↔ (self.now ≡ []) }
    {
        self.items.is_empty()
    }

    /// The items, the oldest first, from both ends.
    pub fn iter(&self) -> Iter<'_, T, A>
        ensures { result ≡ self.now }
    {
        self.items.iter()
    }
}

impl<T: Drop, K, A: Allocator + Copy> Arena<T, K, A> {
    ghost use Rattle.rpds_arena.specs.Ids.{number_of};

    /// Puts an item in, behind all others, and returns its id. An error, where there is no memory or the arena has the
    /// greatest size, leaves the items.
    pub fn put(&mut self, item: T) -> Result<Id<K>, AllocError>
        ensures id { IfOk result (λ id. number_of id ≡ length self.old) }
        ensures ok { OnOk result (self.new ≡ self.old ++ item ∷ []) }
        ensures err { OnErr result (self.new ≡ self.old) }
    {
        let id = self.next_id();
        self.items.push_back_mut(item)?;
        Ok(id)
    }

    /// Another version of the same items. It allocates nothing, and fails only on a reference count overflow.
    pub fn clone(&self) -> Result<Arena<T, K, A>, AllocError>
        ensures { IfOk result (λ copy. copy ≡ self.now) }
    {
        let items = self.items.clone()?;
        Ok(Arena {
            items,
            tag: PhantomData,
        })
    }
}

impl<T, K, A: Allocator + Copy> Arena<T, K, A> {
    /// A result for each item, the oldest first: `step` makes it of the results of all older items, and of the item. So no
    /// recursion has to be proved to end.
    ///
    /// The error means that the list couldn't grow.
    pub fn fold<R: Drop, F: Fn(&[R], &T) -> R>(&self, step: F) -> Result<Vec<R, A>, AllocError>
        requires { F.IsAlwaysCallable step }
        ensures { (f : List R → T → R)
            → ((older : Bor (List R)) (item : Bor T) (r : R) → F.post step older item r → r ≡ f older.now item.now)
            → IfOk result (λ all. all.items ≡ folded f self.now) }
    {
        let mut all = Vec::new(*self.allocator());
        for item in &self.items {
            let value = step(all.as_slice(), item);
            all.push(value)?;
        }
        Ok(all)
    }
}

impl<T: Drop, K, A: Allocator + Copy> Clone for Arena<T, K, A> {
    ghost is_clone = { λ arena copy. copy ≡ arena };

    fn clone(&self) -> Result<Arena<T, K, A>, AllocError> {
        Arena::clone(self)
    }
}

impl<T, K, A: Allocator> Index<Id<K>> for Arena<T, K, A> {
    ghost use Rattle.rpds_arena.specs.Ids.{number_of};

    type Output = T;

    ghost can_index = { λ arena id. number_of id < length arena };

    ghost index_gives = { λ arena id item. slice_get arena (number_of id) ≡ Some item };

    fn index(&self, id: Id<K>) -> &T {
        &self.items[id.number]
    }
}

/// As `[1, 2]`, the oldest item first, and under `{:#?}` each item on lines of its own.
impl<T: Debug, K, A: Allocator> Debug for Arena<T, K, A> {
    ghost debug_output = { λ arena. debug_list T.debug_output arena };

    fn fmt<W: fmt::Write>(&self, f: &mut Formatter<W>) -> fmt::Result {
        Debug::fmt(&self.items, f)
    }
}
