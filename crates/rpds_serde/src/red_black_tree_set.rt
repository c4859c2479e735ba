//! Ordered sets, as sequences of their members.
ghost use Rattle.std.specs.Prelude.{◌≡◌, ◌≤◌, [], List, length, IfOk, OnOk};
ghost use Rattle.serde.specs.Event.{WritesSeq};
ghost use Rattle.rpds_red_black.specs.Logarithm.{most_levels};
ghost use Rattle.rpds_tree.specs.OrderedSet.{put_members};
ghost use Rattle.rpds_serde.specs.Reading.{Anything, ReadsSeq};

use crate::Saved;
use crate::read::{Lent, Owned, read_sequence};
use crate::write::write_sequence;
use rpds_tree::set::red_black_tree_set::RedBlackTreeSet;
use serde::{
    Described, Deserialize, DeserializeOwned, Deserializer, Format, Serialize, Serializer,
};
use std::alloc::{Allocator, Global};

/// Writes the members, from the least to the greatest.
pub fn serialize<T: Serialize + Ord, A: Allocator, S: Serializer>(
    set: &RedBlackTreeSet<T, A>,
    out: &mut S,
) -> Result<(), S::Error>
    ensures { OnOk result
        (WritesSeq T.Described.writes set.now.members (S.written out.old) (S.written out.new)) }
{
    write_sequence(set.iter(), set.len(), out)
}

/// Reads a set: of equal members the last one stays. Errors as of [`read_sequence`](crate::read::read_sequence).
pub fn deserialize<'de, T: Deserialize<'de> + Ord, F: Format>(
    alloc: Global,
    from: &mut Deserializer<'de, '_, F>,
) -> Result<RedBlackTreeSet<T>, F::Error>
    ensures members { IfOk result (λ s. (items : List T)
        × ReadsSeq F.gives F.stays Anything from.old items from.new × (s.members ≡ put_members T.cmp [] items)) }
    ensures depth { IfOk result (λ s. s.depth ≤ most_levels (length s.members)) }
{
    read_sequence::<T, RedBlackTreeSet<T>, Lent, Global, F>(alloc, alloc, from)
}

impl<T: Described + Ord, A: Allocator> Described for Saved<RedBlackTreeSet<T, A>> {
    ghost writes = { λ s. WritesSeq T.writes s.0.members };
}

impl<T: Serialize + Ord, A: Allocator> Serialize for Saved<RedBlackTreeSet<T, A>> {
    fn serialize<S: Serializer>(&self, out: &mut S) -> Result<(), S::Error> {
        serialize(&self.0, out)
    }
}

impl<'de, T: Deserialize<'de> + Ord> Deserialize<'de> for Saved<RedBlackTreeSet<T>> {
    fn deserialize<F: Format>(
        alloc: Global,
        from: &mut Deserializer<'de, '_, F>,
    ) -> Result<Saved<RedBlackTreeSet<T>>, F::Error> {
        Ok(Saved(deserialize(alloc, from)?))
    }
}

impl<T: DeserializeOwned + Ord> DeserializeOwned for Saved<RedBlackTreeSet<T>> {
    fn deserialize_owned<F: Format>(
        alloc: Global,
        from: &mut Deserializer<'_, '_, F>,
    ) -> Result<Saved<RedBlackTreeSet<T>>, F::Error> {
        Ok(Saved(read_sequence::<T, RedBlackTreeSet<T>, Owned, Global, F>(alloc, alloc, from)?))
    }
}
