//! Lists, as sequences of their items.
ghost use Rattle.std.specs.Prelude.{IfOk, OnOk};
ghost use Rattle.serde.specs.Event.{WritesSeq};
ghost use Rattle.rpds_serde.specs.Reading.{Anything, ReadsSeq};

use crate::Saved;
use crate::read::{Lent, Owned, read_sequence};
use crate::write::write_sequence;
use rpds_list::list::List;
use serde::{
    Described, Deserialize, DeserializeOwned, Deserializer, Format, Serialize, Serializer,
};
use std::alloc::{Allocator, Global};

/// Writes the items, the first one first.
pub fn serialize<T: Serialize, A: Allocator, S: Serializer>(
    list: &List<T, A>,
    out: &mut S,
) -> Result<(), S::Error>
    ensures { OnOk result
        (WritesSeq T.Described.writes list.now (S.written out.old) (S.written out.new)) }
{
    write_sequence(list.iter(), list.len(), out)
}

/// Reads a list. Errors as of [`read_sequence`](crate::read::read_sequence).
pub fn deserialize<'de, T: Deserialize<'de>, F: Format>(
    alloc: Global,
    from: &mut Deserializer<'de, '_, F>,
) -> Result<List<T>, F::Error>
    ensures { IfOk result (λ l. ReadsSeq F.gives F.stays Anything from.old l from.new) }
{
    read_sequence::<T, List<T>, Lent, Global, F>(alloc, alloc, from)
}

impl<T: Described, A: Allocator> Described for Saved<List<T, A>> {
    ghost writes = { λ s. WritesSeq T.writes s.0 };
}

impl<T: Serialize, A: Allocator> Serialize for Saved<List<T, A>> {
    fn serialize<S: Serializer>(&self, out: &mut S) -> Result<(), S::Error> {
        serialize(&self.0, out)
    }
}

impl<'de, T: Deserialize<'de>> Deserialize<'de> for Saved<List<T>> {
    fn deserialize<F: Format>(
        alloc: Global,
        from: &mut Deserializer<'de, '_, F>,
    ) -> Result<Saved<List<T>>, F::Error> {
        Ok(Saved(deserialize(alloc, from)?))
    }
}

impl<T: DeserializeOwned> DeserializeOwned for Saved<List<T>> {
    fn deserialize_owned<F: Format>(
        alloc: Global,
        from: &mut Deserializer<'_, '_, F>,
    ) -> Result<Saved<List<T>>, F::Error> {
        Ok(Saved(read_sequence::<T, List<T>, Owned, Global, F>(alloc, alloc, from)?))
    }
}
