//! Persistent vectors of a fixed depth.
ghost use Rattle.std.specs.Prelude.{◌≡◌, ◌-◌, ◌<◌, [], Some, IfOk, IsTrue, ◌↔◌, length};
ghost use Rattle.std.specs.List.{slice_get};
ghost use Rattle.std.specs.Option.{option_copied};

mod changes;
mod collects;
mod compared;
mod in_place;
mod iter;
mod level;
mod levels;
mod row;
mod std_traits;
mod text;
mod visits;

pub use self::iter::Iter;
use self::level::Level;
use self::levels::{ChangeLevels, Levels};
use std::alloc::{AllocError, Allocator, Global};
use std::marker::Model;
use std::rc::Rc;

// A row of items, or of rows.
type Row<T, A> = Vec<Rc<T, A>, A>;

type Level2<T, A> = Level<Row<Row<T, A>, A>, T, A>;

type Level3<T, A> = Level<Level2<Row<T, A>, A>, T, A>;

type Level4<T, A> = Level<Level3<Row<T, A>, A>, T, A>;

type Level5<T, A> = Level<Level4<Row<T, A>, A>, T, A>;

/// A vector whose changes return a new vector, and leave the one that they start from as it is. The two share all full rows
/// but those of one path.
///
/// A recursive type may hold it, as `enum Value { Number(u64), Array(NestVector<Value>) }`. A recursion through `get`, `iter`,
/// `any`, `all` or `fold` is found to end with nothing written. That needs a fixed depth: it has five levels, and
/// room for a little more than 2^30 items. A push past that is an error.
///
/// Each level has an open row of up to 64 items. Once that is full, it becomes one item of the level above, which has rows
/// for its items, and so on. The topmost level is a row alone. Vectors share the full rows. This is one of Okasaki's nested
/// data types.
///
/// # Examples
///
/// ```
/// let old = NestVector::new(alloc).push_back(1)?.push_back(2)?;
/// let new = old.push_back(3)?;
/// assert!(old.len() == 2);
/// assert!(new.get(2) == Some(&3));
/// ```
///
/// # Cost
///
/// | call | rows | allocations |
/// |---|---|---|
/// | `new`, `len`, `is_empty` | none | none |
/// | `first`, `last`, `get` | at most one visited on each level | none |
/// | `clone` | the open row of each level is copied | one for each that isn't empty |
/// | `push_back_mut` | none, but the open row is copied on each level on which it is full | one for the item; two for each copied and one for a new open row; at times one to grow a row |
/// | `set_mut` | one copied on each level that is above the item's open row | two for each copied, one for the item |
/// | `drop_last_mut` | none, but one copied on each level whose open row is empty | one for each copied |
/// | `set`, `push_back`, `drop_last` | those of `clone`, and then those in place | |
/// | `any`, `all`, `fold`, an iteration, comparisons, `Hash`, `Display`, `Debug` | those of `get` for each item | none |
/// | `extend`, `from_iter` | those of `clone`, and then those of `push_back_mut` for each item | |
/// | `from_array` | a buffer, and then those of `push_back_mut` for each item | |
///
/// A row that is copied takes a step for each of its pointers, up to 64.
#[derive(Drop)]
#[must_use = "a change returns a new vector, and leaves the old one as it is"]
pub struct NestVector<T, A: Allocator = Global> {
    tower: Level5<T, A>,
    len: usize,
    alloc: A,
}

impl<T, A: Allocator> Model for NestVector<T, A> {
    ghost use Rattle.std.specs.Prelude.{List};
    ghost use Rattle.std.specs.Coded.{coded_list};
    ghost use Rattle.rpds_nest.specs.Tower.{tower_items, IsVector};

    ghost Value = { List T };

    ghost coded = { coded_list T.code };

    ghost view = { λ v. tower_items A 4 T v.tower };

    ghost invariant = { λ v. IsVector A T v.tower v.len };
}

impl<T, A: Allocator> NestVector<T, A> {
    /// The allocator that the vector was made with.
    pub fn allocator(&self) -> &A {
        &self.alloc
    }

    /// How many items there are.
    pub fn len(&self) -> usize
        ensures { result ≡ length self.now }
    {
        self.len
    }

    /// Whether there are no items.
    pub fn is_empty(&self) -> bool
        ensures { IsTrue result ↔ (self.now ≡ []) }
    {
        self.len() == 0
    }

    // The item at an index.
    fn item(&self, index: usize) -> &T
        requires { index < length self.now }
        ensures { slice_get self.now index ≡ Some result.now }
    {
        self.tower.get(index, self.len)
    }

    /// The item at the index, if there is one.
    pub fn get(&self, index: usize) -> Option<&T>
        ensures { option_copied result ≡ slice_get self.now index }
    {
        if index < self.len() {
            Some(self.item(index))
        } else {
            None
        }
    }

    /// The first item, if there is one.
    pub fn first(&self) -> Option<&T>
        ensures { option_copied result ≡ slice_get self.now 0 }
    {
        self.get(0)
    }

    /// The last item, if there is one.
    pub fn last(&self) -> Option<&T>
        ensures { option_copied result ≡ slice_get self.now (length self.now - 1) }
    {
        let len = self.len();
        if len == 0 {
            return None;
        }
        self.get(len - 1)
    }
}

impl<T: Drop, A: Allocator + Copy> NestVector<T, A> {
    /// An empty vector.
    pub fn new(alloc: A) -> NestVector<T, A>
        ensures { result ≡ [] }
    {
        NestVector {
            tower: Level::new(alloc),
            len: 0,
            alloc,
        }
    }

    /// A vector of the same items, which shares all rows but the open one of each level.
    ///
    /// The error means a failed allocation or a reference count overflow.
    pub fn clone(&self) -> Result<NestVector<T, A>, AllocError>
        ensures { IfOk result (λ copy. copy ≡ self.now) }
    {
        let tower = self.tower.copied(self.alloc)?;
        Ok(NestVector {
            tower,
            len: self.len,
            alloc: self.alloc,
        })
    }
}

impl<T: Drop, A: Allocator + Copy> Clone for NestVector<T, A> {
    ghost is_clone = { λ vector copy. copy ≡ vector };

    fn clone(&self) -> Result<NestVector<T, A>, AllocError> {
        NestVector::clone(self)
    }
}
