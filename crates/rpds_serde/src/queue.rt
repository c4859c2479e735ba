//! Queues, as sequences of their items.
ghost use Rattle.std.specs.Prelude.{◌≡◌, IfOk, OnOk};
ghost use Rattle.serde.specs.Event.{WritesSeq};
ghost use Rattle.rpds_serde.specs.Reading.{Anything, ReadsSeq};

use crate::Saved;
use crate::read::{Lent, Owned, read_sequence};
use crate::write::write_sequence;
use rpds_list::queue::Queue;
use serde::{
    Described, Deserialize, DeserializeOwned, Deserializer, Format, Serialize, Serializer,
};
use std::alloc::{Allocator, Global};

/// Writes the items, the front first. With n items that wait it takes about n log n steps, and no memory.
pub fn serialize<T: Serialize, A: Allocator, S: Serializer>(
    queue: &Queue<T, A>,
    out: &mut S,
) -> Result<(), S::Error>
    ensures { OnOk result
        (WritesSeq T.Described.writes queue.now.items (S.written out.old) (S.written out.new)) }
{
    write_sequence(queue.from_front(), queue.len(), out)
}

/// Reads a queue: the first item that comes is at the front, and none of them waits. Errors as of
/// [`read_sequence`](crate::read::read_sequence).
pub fn deserialize<'de, T: Deserialize<'de>, F: Format>(
    alloc: Global,
    from: &mut Deserializer<'de, '_, F>,
) -> Result<Queue<T>, F::Error>
    ensures items { IfOk result (λ q. ReadsSeq F.gives F.stays Anything from.old q.items from.new) }
    ensures waiting { IfOk result (λ q. q.waiting ≡ 0) }
{
    read_sequence::<T, Queue<T>, Lent, Global, F>(alloc, alloc, from)
}

impl<T: Described, A: Allocator> Described for Saved<Queue<T, A>> {
    ghost writes = { λ s. WritesSeq T.writes s.0.items };
}

impl<T: Serialize, A: Allocator> Serialize for Saved<Queue<T, A>> {
    fn serialize<S: Serializer>(&self, out: &mut S) -> Result<(), S::Error> {
        serialize(&self.0, out)
    }
}

impl<'de, T: Deserialize<'de>> Deserialize<'de> for Saved<Queue<T>> {
    fn deserialize<F: Format>(
        alloc: Global,
        from: &mut Deserializer<'de, '_, F>,
    ) -> Result<Saved<Queue<T>>, F::Error> {
        Ok(Saved(deserialize(alloc, from)?))
    }
}

impl<T: DeserializeOwned> DeserializeOwned for Saved<Queue<T>> {
    fn deserialize_owned<F: Format>(
        alloc: Global,
        from: &mut Deserializer<'_, '_, F>,
    ) -> Result<Saved<Queue<T>>, F::Error> {
        Ok(Saved(read_sequence::<T, Queue<T>, Owned, Global, F>(alloc, alloc, from)?))
    }
}
