//! One loop each that writes the items, or the pairs, of a walk.
//!
//! A walk is seen as a list by a function that its caller names, as in `rpds_core::sequence`.
ghost use Rattle.std.specs.Prelude.{◌≡◌, List, OnOk, length};
ghost use Rattle.std.specs.Iterator.{IsFinite};
ghost use Rattle.std.specs.Map.Iter.{deref, deref_pair};
ghost use Rattle.serde.specs.Event.{WritesMap, WritesSeq};
ghost use Rattle.rpds_core.specs.Sequence.{ShowsList};

use serde::{Serialize, Serializer};

// Writes a sequence of `len` items. An error is that of the serializer.
pub(crate) fn write_sequence<'a, T: Serialize + 'a, I: Iterator<Item = &'a T>, S: Serializer>(
    items: I,
    len: usize,
    out: &mut S,
) -> Result<(), S::Error>
    requires can { I.can_next items }
    requires ends { IsFinite (I.remaining items) }
    ensures { (rest : I → List T) → ShowsList I.next_gives deref rest → len ≡ length (rest items)
        → OnOk result (WritesSeq T.Described.writes (rest items) (S.written out.old) (S.written out.new)) }
{
    out.begin_seq(Some(len))?;
    for item in items {
        item.serialize(out)?;
    }
    out.end_seq()
}

// Writes a map of `len` pairs. An error is that of the serializer.
pub(crate) fn write_map<
    'a,
    K: Serialize + 'a,
    V: Serialize + 'a,
    I: Iterator<Item = (&'a K, &'a V)>,
    S: Serializer,
>(pairs: I, len: usize, out: &mut S) -> Result<(), S::Error>
    requires can { I.can_next pairs }
    requires ends { IsFinite (I.remaining pairs) }
    ensures { (rest : I → List (K × V)) → ShowsList I.next_gives deref_pair rest → len ≡ length (rest pairs)
        → OnOk result (WritesMap K.Described.writes V.Described.writes (rest pairs) (S.written out.old) (S.written out.new)) }
{
    out.begin_map(Some(len))?;
    for (key, value) in pairs {
        out.begin_key()?;
        key.serialize(out)?;
        out.end_key()?;
        value.serialize(out)?;
    }
    out.end_map()
}
