//! `Debug` of what a whole iterator gives, as std writes lists, sets and maps. All containers take theirs from here.
//!
//! Under `{:#?}` each item stands on lines of its own. What `{:?}` writes is stated.
ghost use Rattle.std.specs.Prelude.{◌≡◌, ℕ, List, Option};
ghost use Rattle.std.specs.Fmt.{debug_list, DisplaysOnOk};
ghost use Rattle.std.specs.Iterator.{IsFinite};
ghost use Rattle.std.specs.Map.Iter.{deref_pair};
ghost use Rattle.rpds_core.specs.MapText.{map_text};
ghost use Rattle.rpds_core.specs.Sequence.{ShowsList};
ghost use Rattle.rpds_core.specs.SetText.{set_text};

use crate::sequence::write_between;
use std::fmt;
use std::fmt::{Debug, Display, Formatter};

// An item, printed as `{:?}` prints it.
#[derive(Drop)]
struct InDebug<X> {
    item: X,
}

impl<X: Debug> Display for InDebug<X> {
    ghost output = { λ shown. X.debug_output shown.item };

    fn fmt<W: fmt::Write>(&self, f: &mut Formatter<W>) -> fmt::Result {
        Debug::fmt(&self.item, f)
    }
}

impl<X> InDebug<X> {
    fn of(item: X) -> InDebug<X>
        ensures { item ≡ result.item }
    {
        InDebug { item }
    }
}

// A key and its value, printed as `key: value`, each as `{:?}` prints it.
#[derive(Drop)]
struct PairInDebug<'a, K, V> {
    key: &'a K,
    value: &'a V,
}

impl<K: Debug, V: Debug> Display for PairInDebug<'_, K, V> {
    ghost use Rattle.rpds_core.specs.MapText.{pair_text};

    ghost output = { λ p. pair_text K.debug_output V.debug_output (p.key.now, p.value.now) };

    fn fmt<W: fmt::Write>(&self, f: &mut Formatter<W>) -> fmt::Result {
        Debug::fmt(self.key, f)?;
        f.write_str(": ")?;
        Debug::fmt(self.value, f)
    }
}

impl<'a, K, V> PairInDebug<'a, K, V> {
    fn of(pair: (&'a K, &'a V)) -> PairInDebug<'a, K, V>
        ensures { pair.entry ≡ (result.key, result.value) }
    {
        let (key, value) = pair;
        PairInDebug { key, value }
    }
}

/// Writes the items as `[1, 2]`. One step an item; an error is that of the writer or of an item.
pub fn write_list<T, X: Debug + Drop, I: Iterator<Item = X> + Drop, W: fmt::Write>(
    items: I,
    f: &mut Formatter<W>,
) -> fmt::Result
    requires can { I.can_next items }
    requires ends { IsFinite (I.remaining items) }
    ensures { (see : X → T) (rest : I → List T) (text : T → Option (List ℕ)) → ShowsList I.next_gives see rest
        → ((x : X) → X.debug_output x ≡ text (see x))
        → DisplaysOnOk W.write_str_gives f.old result (debug_list text (rest items)) f.new }
{
    if f.alternate() {
        return f.debug_list().entries(items).finish();
    }
    write_between::<T, InDebug<X>, _, W>("[", items.map(InDebug::of), "]", f)
}

/// Writes the members as `{1, 2}`. One step a member; an error is that of the writer or of a member.
pub fn write_set<T, X: Debug + Drop, I: Iterator<Item = X> + Drop, W: fmt::Write>(
    members: I,
    f: &mut Formatter<W>,
) -> fmt::Result
    requires can { I.can_next members }
    requires ends { IsFinite (I.remaining members) }
    ensures { (see : X → T) (rest : I → List T) (text : T → Option (List ℕ)) → ShowsList I.next_gives see rest
        → ((x : X) → X.debug_output x ≡ text (see x))
        → DisplaysOnOk W.write_str_gives f.old result (set_text text (rest members)) f.new }
{
    if f.alternate() {
        return f.debug_set().entries(members).finish();
    }
    write_between::<T, InDebug<X>, _, W>("{", members.map(InDebug::of), "}", f)
}

/// Writes the pairs as `{1: 2, 3: 4}`. One step a pair; an error is that of the writer, a key or a value.
pub fn write_map<
    'a,
    K: Debug + 'a,
    V: Debug + 'a,
    I: Iterator<Item = (&'a K, &'a V)> + Drop,
    W: fmt::Write,
>(pairs: I, f: &mut Formatter<W>) -> fmt::Result
    requires can { I.can_next pairs }
    requires ends { IsFinite (I.remaining pairs) }
    ensures { (rest : I → List (K × V)) → ShowsList I.next_gives deref_pair rest
        → DisplaysOnOk W.write_str_gives f.old result
        (map_text K.debug_output V.debug_output (rest pairs)) f.new }
{
    if f.alternate() {
        return f.debug_map().entries(pairs).finish();
    }
    write_between::<(K, V), PairInDebug<'a, K, V>, _, W>("{", pairs.map(PairInDebug::of), "}", f)
}
