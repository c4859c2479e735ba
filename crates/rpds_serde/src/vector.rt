//! Vectors, as sequences of their items.
ghost use Rattle.std.specs.Prelude.{◌≡◌, IfOk, OnOk};
ghost use Rattle.serde.specs.Event.{WritesSeq};
ghost use Rattle.rpds_serde.specs.Reading.{Anything, ReadsSeq};

use crate::Saved;
use crate::read::{Lent, Owned, read_sequence};
use crate::write::write_sequence;
use rpds_vector::vector::Vector;
use serde::{
    Described, Deserialize, DeserializeOwned, Deserializer, Format, Serialize, Serializer,
};
use std::alloc::{Allocator, Global};

/// Writes the items in order.
pub fn serialize<T: Serialize, A: Allocator, S: Serializer>(
    vector: &Vector<T, A>,
    out: &mut S,
) -> Result<(), S::Error>
    ensures { OnOk result
        (WritesSeq T.Described.writes vector.now.items (S.written out.old) (S.written out.new)) }
{
    write_sequence(vector.iter(), vector.len(), out)
}

/// Reads a vector of 5 bits. Errors as of [`read_sequence`](crate::read::read_sequence).
pub fn deserialize<'de, T: Deserialize<'de>, F: Format>(
    alloc: Global,
    from: &mut Deserializer<'de, '_, F>,
) -> Result<Vector<T>, F::Error>
    ensures items { IfOk result (λ v. ReadsSeq F.gives F.stays Anything from.old v.items from.new) }
    ensures bits { IfOk result (λ v. v.bits ≡ 5) }
{
    read_sequence::<T, Vector<T>, Lent, Global, F>(alloc, alloc, from)
}

impl<T: Described, A: Allocator> Described for Saved<Vector<T, A>> {
    ghost writes = { λ s. WritesSeq T.writes s.0.items };
}

impl<T: Serialize, A: Allocator> Serialize for Saved<Vector<T, A>> {
    fn serialize<S: Serializer>(&self, out: &mut S) -> Result<(), S::Error> {
        serialize(&self.0, out)
    }
}

impl<'de, T: Deserialize<'de>> Deserialize<'de> for Saved<Vector<T>> {
    fn deserialize<F: Format>(
        alloc: Global,
        from: &mut Deserializer<'de, '_, F>,
    ) -> Result<Saved<Vector<T>>, F::Error> {
        Ok(Saved(deserialize(alloc, from)?))
    }
}

impl<T: DeserializeOwned> DeserializeOwned for Saved<Vector<T>> {
    fn deserialize_owned<F: Format>(
        alloc: Global,
        from: &mut Deserializer<'_, '_, F>,
    ) -> Result<Saved<Vector<T>>, F::Error> {
        Ok(Saved(read_sequence::<T, Vector<T>, Owned, Global, F>(alloc, alloc, from)?))
    }
}
