//! Hashed sets, as sequences of their members.
ghost use Rattle.std.specs.Prelude.{◌≡◌, List, IfOk, OnOk};
ghost use Rattle.serde.specs.Event.{WritesSeq};
ghost use Rattle.rpds_hash.specs.HashedSet.{HoldLast};
ghost use Rattle.rpds_serde.specs.Reading.{Anything, ReadsSeq};

use crate::Saved;
use crate::read::{Lent, Owned, read_sequence};
use crate::write::write_sequence;
use rpds_hash::map::hash_trie_map::DefaultBuildHasher;
use rpds_hash::set::hash_trie_set::HashTrieSet;
use serde::{
    Described, Deserialize, DeserializeOwned, Deserializer, Format, Serialize, Serializer,
};
use std::alloc::{Allocator, Global};
use std::hash::{BuildHasher, Hash};

/// Writes the members in the order of `iter`.
pub fn serialize<T: Serialize + Eq + Hash, H: BuildHasher, A: Allocator, S: Serializer>(
    set: &HashTrieSet<T, H, A>,
    out: &mut S,
) -> Result<(), S::Error>
    ensures { OnOk result
        (WritesSeq T.Described.writes set.now.members (S.written out.old) (S.written out.new)) }
{
    write_sequence(set.iter(), set.len(), out)
}

/// Reads a set: of equal members the last one stays. Errors as of [`read_sequence`](crate::read::read_sequence).
///
/// The default hasher has a fixed seed: keys that others choose are read into an ordered set.
pub fn deserialize<'de, T: Deserialize<'de> + Eq + Hash, F: Format>(
    alloc: Global,
    from: &mut Deserializer<'de, '_, F>,
) -> Result<HashTrieSet<T>, F::Error>
    ensures members { IfOk result (λ s. (items : List T)
        × ReadsSeq F.gives F.stays Anything from.old items from.new × HoldLast T.eq items s.members) }
    ensures degree { IfOk result (λ s. s.degree ≡ 64) }
    ensures hasher { IfOk result (λ s. ⟦<DefaultBuildHasher as Default>⟧.is_default s.hasher) }
{
    read_sequence::<T, HashTrieSet<T>, Lent, Global, F>(alloc, alloc, from)
}

impl<T: Described + Eq + Hash, H: BuildHasher, A: Allocator> Described
    for Saved<HashTrieSet<T, H, A>> {
    ghost writes = { λ s. WritesSeq T.writes s.0.members };
}

impl<T: Serialize + Eq + Hash, H: BuildHasher, A: Allocator> Serialize
    for Saved<HashTrieSet<T, H, A>> {
    fn serialize<S: Serializer>(&self, out: &mut S) -> Result<(), S::Error> {
        serialize(&self.0, out)
    }
}

impl<'de, T: Deserialize<'de> + Eq + Hash> Deserialize<'de> for Saved<HashTrieSet<T>> {
    fn deserialize<F: Format>(
        alloc: Global,
        from: &mut Deserializer<'de, '_, F>,
    ) -> Result<Saved<HashTrieSet<T>>, F::Error> {
        Ok(Saved(deserialize(alloc, from)?))
    }
}

impl<T: DeserializeOwned + Eq + Hash> DeserializeOwned for Saved<HashTrieSet<T>> {
    fn deserialize_owned<F: Format>(
        alloc: Global,
        from: &mut Deserializer<'_, '_, F>,
    ) -> Result<Saved<HashTrieSet<T>>, F::Error> {
        Ok(Saved(read_sequence::<T, HashTrieSet<T>, Owned, Global, F>(alloc, alloc, from)?))
    }
}
