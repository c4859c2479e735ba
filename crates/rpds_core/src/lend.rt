//! A `&mut` to a value deep in a structure, with a contract that says what the structure is after the write.
//!
//! A tree or a trie would hand out such a reference by a recursion, or by a loop that moves a cursor down. Rattle has
//! no contract that lends through either: the promise 'once the reference has ended, the whole differs in that one
//! value' can be made by a function that calls other functions, but not by one that calls itself. So the recursion is
//! laid out flat, as a tower of types. A structure writes
//!
//! - a [`Search`], in ghost words: what is found in a place, and what the place is with another value there;
//! - one step down, as a [`Levels`] of one level: it looks at the node, and where the value lies lower it goes on by
//!   `L::lend` on the child, in place of the recursive call;
//! - the end, a [`Lend`] whose `reach` is 0 and which is met at a place without levels alone;
//!
//! and calls [`lend_within_64`]; where its levels may be more, with a [`Twice`] of the step. [`Twice`] doubles a
//! descent and [`Then`] puts one on top of another, so six doublings make 64 levels. No instance of these functions
//! calls itself, and each has a contract of its own. The levels that a structure may have at most are known: it asks
//! for a tower that is as high.

ghost use Rattle.std.specs.Prelude.{◌≡◌, ℕ, ◌+◌, ◌*◌, ◌≤◌, Option, Some};
ghost use Rattle.std.specs.Borrow.{sem};
ghost use Rattle.std.specs.IoError.{error_kind};
ghost use Rattle.rpds_core.specs.Counts.{IsWithin};
ghost use Rattle.rpds_core.specs.ValueLends.{lends_value, Tells, with_reason, if_stored, error_text, kind_of_error};
ghost use Rattle.rpds_core.specs.declared.lend.ValueMutError.TheVariants.{NoMemory};

use crate::steps::Steps;
use std::alloc::AllocError;
use std::error::Error;
use std::marker::PhantomData;
use std::{fmt, io};

/// Why no reference is handed out.
#[derive(Clone, Copy, Debug, PartialEq, Eq)]
pub enum ValueMutError {
    /// Nothing is stored there.
    Absent,
    /// A node on the way is shared and had to be copied first, and an allocation or a clone failed.
    NoMemory,
}

impl fmt::Display for ValueMutError {
    ghost output = { λ error. Some (error_text error) };

    fn fmt<W: fmt::Write>(&self, f: &mut fmt::Formatter<W>) -> fmt::Result {
        f.write_str(match self {
            ValueMutError::Absent => "nothing is stored there",
            ValueMutError::NoMemory => "no memory",
        })
    }
}

impl Error for ValueMutError {}

impl From<AllocError> for ValueMutError {
    ghost from_gives = { λ _ e. e ≡ NoMemory };

    fn from(_error: AllocError) -> ValueMutError {
        Self::NoMemory
    }
}

/// For `?` in a function that returns an `io::Result`: `NotFound`, or `OutOfMemory`.
impl From<ValueMutError> for io::Error {
    ghost from_gives = { λ error e. error_kind e ≡ kind_of_error error };

    fn from(error: ValueMutError) -> io::Error {
        io::Error::from(match error {
            ValueMutError::Absent => io::ErrorKind::NotFound,
            ValueMutError::NoMemory => io::ErrorKind::OutOfMemory,
        })
    }
}

/// The same result, where `None` says that nothing is stored there.
pub fn absent_as_none<R: Drop>(found: Result<R, ValueMutError>) -> Result<Option<R>, AllocError>
    ensures { result ≡ if_stored found }
{
    match found {
        Ok(reference) => Ok(Some(reference)),
        Err(ValueMutError::Absent) => Ok(None),
        Err(ValueMutError::NoMemory) => Err(AllocError),
    }
}

/// What a search for a key of type `K` means in a place of type `P`, such as a tree, that holds values of type `V`. It
/// has no code.
pub trait Search<P, K, V> {
    /// How many levels of nodes the place has.
    ghost depth: { P → ℕ };
    /// What must hold of the place and the key for the search to find its way, as that the keys are in order.
    ghost ready: { P → K → Type 0 };
    /// The value that is stored at the key, if there is one.
    ghost value: { P → K → Option V };
    /// The place with another value at the key, where there is one.
    ghost written: { P → K → V → P };
}

/// A descent to a key. Where it lends nothing, it says why.
///
/// The failure stands here, so that what a descent returns lies in two registers on its way up.
#[derive(Drop)]
pub struct Descent<K> {
    /// What is looked for.
    pub key: K,
    /// `NoMemory` on the way down, and `Absent` once nothing was found.
    pub failure: ValueMutError,
}

/// A descent has lent nothing: its [`Descent`] says why.
#[derive(Clone, Copy, Drop)]
pub struct NotLent;

impl From<AllocError> for NotLent {
    fn from(_error: AllocError) -> NotLent {
        NotLent
    }
}

/// Lends the value of a key, in a place of at most `reach` levels.
pub trait Lend<P, K, V, S: Search<P, K, V>> {
    /// How many levels it can go down.
    ghost reach: { ℕ };

    /// The value at the key. Once the reference has ended, the place has there what was written last; where there is
    /// no reference the place stays as it is. At most one key is compared and one node made for each level.
    fn lend<'a>(
        place: &'a mut P,
        descent: &mut Descent<K>,
        steps: &mut Steps,
    ) -> Result<&'a mut V, NotLent>
        requires ready { S.ready place.old descent.old.key }
        requires fresh { descent.old.failure ≡ NoMemory }
        requires shallow { S.depth place.old ≤ reach }
        ensures* writes_back { sem 𝓛
            (lends_value P.row V.row place.entry (S.written place.old descent.old.key) result) }
        ensures returned { Tells (S.value place.old descent.old.key)
            (with_reason descent.new.failure result) }
        ensures steps { IsWithin (S.depth place.old) (S.depth place.old) steps.old steps.new };
}

/// So many levels of a descent. What lies below them is lent by another type, `L`.
pub trait Levels<P, K, V, S: Search<P, K, V>> {
    /// How many levels these are.
    ghost levels: { ℕ };

    /// As [`Lend::lend`], in a place that may be deeper than `L` can go, by these levels.
    fn descend<'a, L: Lend<P, K, V, S>>(
        place: &'a mut P,
        descent: &mut Descent<K>,
        steps: &mut Steps,
    ) -> Result<&'a mut V, NotLent>
        requires ready { S.ready place.old descent.old.key }
        requires fresh { descent.old.failure ≡ NoMemory }
        requires shallow { S.depth place.old ≤ levels + L.reach }
        ensures* writes_back { sem 𝓛
            (lends_value P.row V.row place.entry (S.written place.old descent.old.key) result) }
        ensures returned { Tells (S.value place.old descent.old.key)
            (with_reason descent.new.failure result) }
        ensures steps { IsWithin (S.depth place.old) (S.depth place.old) steps.old steps.new };
}

/// The levels of `G`, and `L` below them.
pub struct Then<G, L> {
    marker: PhantomData<(G, L)>,
}

impl<P, K, V, S: Search<P, K, V>, G: Levels<P, K, V, S>, L: Lend<P, K, V, S>> Lend<P, K, V, S>
    for Then<G, L> {
    ghost reach = { G.levels + L.reach };

    fn lend<'a>(
        place: &'a mut P,
        descent: &mut Descent<K>,
        steps: &mut Steps,
    ) -> Result<&'a mut V, NotLent> {
        G::descend::<L>(place, descent, steps)
    }
}

/// The levels of `G` twice, one below the other.
pub struct Twice<G> {
    marker: PhantomData<G>,
}

impl<P, K, V, S: Search<P, K, V>, G: Levels<P, K, V, S>> Levels<P, K, V, S> for Twice<G> {
    ghost levels = { G.levels + G.levels };

    fn descend<'a, L: Lend<P, K, V, S>>(
        place: &'a mut P,
        descent: &mut Descent<K>,
        steps: &mut Steps,
    ) -> Result<&'a mut V, NotLent> {
        G::descend::<Then<G, L>>(place, descent, steps)
    }
}

/// 64 levels, where `G` is one.
pub type Levels64<G> = Twice<Twice<Twice<Twice<Twice<Twice<G>>>>>>;

/// Lends the value of a key in a place that is at most 64 steps of `G` deeper than `L` can go down.
pub fn lend_within_64<
    'a,
    P,
    K: Copy,
    V,
    S: Search<P, K, V>,
    G: Levels<P, K, V, S>,
    L: Lend<P, K, V, S>,
>(place: &'a mut P, key: K, steps: &mut Steps) -> Result<&'a mut V, ValueMutError>
    requires ready { S.ready place.old key }
    requires shallow { S.depth place.old ≤ 64 * G.levels + L.reach }
    ensures* writes_back { sem 𝓛
        (lends_value P.row V.row place.entry (S.written place.old key) result) }
    ensures returned { Tells (S.value place.old key) result }
    ensures steps { IsWithin (S.depth place.old) (S.depth place.old) steps.old steps.new }
{
    let mut descent = Descent {
        key,
        failure: ValueMutError::NoMemory,
    };
    match <Levels64<G> as Levels<P, K, V, S>>::descend::<L>(place, &mut descent, steps) {
        Ok(value) => Ok(value),
        Err(NotLent) => Err(descent.failure),
    }
}
