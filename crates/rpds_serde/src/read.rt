//! What reads a container: one loop over the items or the pairs of the input, and `collect` of them.
//!
//! A container that isn't over `Global`, or has another hasher, is read by [`read_sequence`] or [`read_map`]; so is one where a
//! proof has to know what was read, by a [`Reads`] of one's own.
ghost use Rattle.std.specs.Prelude.{◌≡◌, ⊤, List, IfOk, MatchOption};
ghost use Rattle.serde.specs.declared.deserializer.Deserializer.{Deserializer};
ghost use Rattle.serde.specs.Event.{map_ends, seq_ends};
ghost use Rattle.serde.specs.Steps.{Gives};
ghost use Rattle.rpds_serde.specs.Reading.{ReadsEach, ReadsItem, ReadsMap, ReadsPair, ReadsSeq};

use serde::{Deserialize, DeserializeOwned, Deserializer, Format};
use std::alloc::{Allocator, Global};
use std::iter::FromIterator;
use std::marker::PhantomData;

/// How a value is read.
pub trait Reads<'de, T, F: Format> {
    /// Holds of the input before it, the value, and the input behind it.
    ghost reads: { Deserializer F F.Error F.Mark → T → Deserializer F F.Error F.Mark → Type 0 } = { λ _ _ _. ⊤ };

    /// Reads a value.
    fn read(alloc: Global, from: &mut Deserializer<'de, '_, F>) -> Result<T, F::Error>
        ensures { IfOk result (λ x. reads from.old x from.new) };
}

/// By `Deserialize`, of which no clause says what it reads.
pub struct Lent;

impl<'de, T: Deserialize<'de>, F: Format> Reads<'de, T, F> for Lent {
    fn read(alloc: Global, from: &mut Deserializer<'de, '_, F>) -> Result<T, F::Error> {
        T::deserialize(alloc, from)
    }
}

/// By `DeserializeOwned`, of which no clause says what it reads.
pub struct Owned;

impl<'de, T: DeserializeOwned, F: Format> Reads<'de, T, F> for Owned {
    fn read(alloc: Global, from: &mut Deserializer<'de, '_, F>) -> Result<T, F::Error> {
        T::deserialize_owned(alloc, from)
    }
}

// What comes next in a sequence or a map.
trait Comes<'de, X, F: Format> {
    // Holds of the input before an item, the item, and the input behind it.
    ghost reads: { Deserializer F F.Error F.Mark → X → Deserializer F F.Error F.Mark → Type 0 };

    // Holds of the input before and behind the end.
    ghost ends: { Deserializer F F.Error F.Mark → Deserializer F F.Error F.Mark → Type 0 };

    fn next(alloc: Global, from: &mut Deserializer<'de, '_, F>) -> Result<Option<X>, F::Error>
        ensures { IfOk result (λ next. MatchOption next (ends from.old from.new) (λ x. reads from.old x from.new)) };
}

// The items of a sequence, each read by `R`.
struct Items<R>(PhantomData<R>);

impl<'de, T, F: Format, R: Reads<'de, T, F>> Comes<'de, T, F> for Items<R> {
    ghost reads = { ReadsItem F.stays R.reads };

    ghost ends = { λ old new. Gives F.gives old seq_ends new };

    fn next(alloc: Global, from: &mut Deserializer<'de, '_, F>) -> Result<Option<T>, F::Error> {
        if !from.next_item()? {
            return Ok(None);
        }
        Ok(Some(R::read(alloc, from)?))
    }
}

// The pairs of a map, each key read by `R` and each value by `S`.
struct Pairs<R, S>(PhantomData<(R, S)>);

impl<'de, K: Drop, V, F: Format, R: Reads<'de, K, F>, S: Reads<'de, V, F>> Comes<'de, (K, V), F>
    for Pairs<R, S> {
    ghost reads = { ReadsPair F.gives R.reads S.reads };

    ghost ends = { λ old new. Gives F.gives old map_ends new };

    fn next(
        alloc: Global,
        from: &mut Deserializer<'de, '_, F>,
    ) -> Result<Option<(K, V)>, F::Error> {
        if !from.next_entry()? {
            return Ok(None);
        }
        let key = R::read(alloc, from)?;
        let value = S::read(alloc, from)?;
        Ok(Some((key, value)))
    }
}

// All items that come, up to the end.
fn read_each<'de, X: Drop, N: Comes<'de, X, F>, A: Allocator + Copy, F: Format>(
    made_by: A,
    alloc: Global,
    from: &mut Deserializer<'de, '_, F>,
) -> Result<Vec<X, A>, F::Error>
    ensures { IfOk result (λ items. (last : Deserializer F F.Error F.Mark)
        × ReadsEach N.reads items.items from.old last × N.ends last from.new) }
{
    let mut items = Vec::new(made_by);
    for _ in 0..u64::MAX {
        let Some(item) = N::next(alloc, from)? else {
            return Ok(items);
        };
        if items.push(item).is_err() {
            break;
        }
    }
    Err(from.no_memory())
}

// What is collected of the items.
fn collected<X: Drop, C: FromIterator<X>, A: Allocator, F: Format>(
    items: Vec<X, A>,
    made_by: C::Alloc,
    from: &Deserializer<'_, '_, F>,
) -> Result<C, F::Error>
    requires any { (xs : List X) → C.can_from_iter xs }
    requires all { (c : C) → C.is_complete c }
    ensures { IfOk result (C.from_iter_gives items.items) }
{
    match C::from_iter(made_by, items) {
        Ok(all) => Ok(all),
        Err(_) => Err(from.no_memory()),
    }
}

/// Reads a sequence, each item by `R`, and collects them. What the items take is over `Global`, and all else over the
/// allocator of the container.
///
/// The format's error of memory where an allocation of the container fails, and else the error that the format or `R` gave. It
/// drops what was read.
pub fn read_sequence<
    'de,
    T: Drop,
    C: FromIterator<T, Alloc = A>,
    R: Reads<'de, T, F>,
    A: Allocator + Copy,
    F: Format,
>(made_by: A, alloc: Global, from: &mut Deserializer<'de, '_, F>) -> Result<C, F::Error>
    requires any { (items : List T) → C.can_from_iter items }
    requires all { (c : C) → C.is_complete c }
    ensures { IfOk result (λ c. (items : List T)
        × ReadsSeq F.gives F.stays R.reads from.old items from.new × C.from_iter_gives items c) }
{
    from.begin_seq()?;
    let items = read_each::<T, Items<R>, A, F>(made_by, alloc, from)?;
    collected::<T, C, A, F>(items, made_by, from)
}

/// Reads a map, each key by `R` and each value by `S`, and collects the pairs. What the keys and values take is over `Global`,
/// and all else over the allocator of the container.
///
/// Errors as of [`read_sequence`].
pub fn read_map<
    'de,
    K: Drop,
    V: Drop,
    C: FromIterator<(K, V), Alloc = A>,
    R: Reads<'de, K, F>,
    S: Reads<'de, V, F>,
    A: Allocator + Copy,
    F: Format,
>(made_by: A, alloc: Global, from: &mut Deserializer<'de, '_, F>) -> Result<C, F::Error>
    requires any { (pairs : List (K × V)) → C.can_from_iter pairs }
    requires all { (c : C) → C.is_complete c }
    ensures { IfOk result (λ c. (pairs : List (K × V))
        × ReadsMap F.gives R.reads S.reads from.old pairs from.new × C.from_iter_gives pairs c) }
{
    from.begin_map()?;
    let pairs = read_each::<(K, V), Pairs<R, S>, A, F>(made_by, alloc, from)?;
    collected::<(K, V), C, A, F>(pairs, made_by, from)
}
