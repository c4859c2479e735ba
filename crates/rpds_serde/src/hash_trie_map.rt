//! Hashed maps, as maps of their pairs.
ghost use Rattle.std.specs.Prelude.{◌≡◌, List, IfOk, OnOk};
ghost use Rattle.serde.specs.Event.{WritesMap};
ghost use Rattle.rpds_hash_trie.specs.HashChanges.{AreCollected};
ghost use Rattle.rpds_serde.specs.Reading.{Anything, ReadsMap};

use crate::Saved;
use crate::read::{Lent, Owned, read_map};
use crate::write::write_map;
use rpds_hash::map::hash_trie_map::{DefaultBuildHasher, HashTrieMap};
use serde::{
    Described, Deserialize, DeserializeOwned, Deserializer, Format, Serialize, Serializer,
};
use std::alloc::{Allocator, Global};
use std::hash::{BuildHasher, Hash};

/// Writes the pairs in the order of `iter`.
pub fn serialize<
    K: Serialize + Eq + Hash,
    V: Serialize,
    H: BuildHasher,
    A: Allocator,
    S: Serializer,
>(map: &HashTrieMap<K, V, H, A>, out: &mut S) -> Result<(), S::Error>
    ensures { OnOk result (WritesMap K.Described.writes V.Described.writes map.now.entries
        (S.written out.old) (S.written out.new)) }
{
    write_map(map.iter(), map.len(), out)
}

/// Reads a map: of pairs with equal keys the last one stays. Errors as of [`read_map`](crate::read::read_map).
///
/// The default hasher has a fixed seed: keys that others choose are read into an ordered map.
pub fn deserialize<'de, K: Deserialize<'de> + Eq + Hash, V: Deserialize<'de>, F: Format>(
    alloc: Global,
    from: &mut Deserializer<'de, '_, F>,
) -> Result<HashTrieMap<K, V>, F::Error>
    ensures entries { IfOk result (λ m. (pairs : List (K × V))
        × ReadsMap F.gives Anything Anything from.old pairs from.new × AreCollected K.eq pairs m.entries) }
    ensures degree { IfOk result (λ m. m.degree ≡ 64) }
    ensures hasher { IfOk result (λ m. ⟦<DefaultBuildHasher as Default>⟧.is_default m.hasher) }
{
    read_map::<K, V, HashTrieMap<K, V>, Lent, Lent, Global, F>(alloc, alloc, from)
}

impl<K: Described + Eq + Hash, V: Described, H: BuildHasher, A: Allocator> Described
    for Saved<HashTrieMap<K, V, H, A>> {
    ghost writes = { λ s. WritesMap K.writes V.writes s.0.entries };
}

impl<K: Serialize + Eq + Hash, V: Serialize, H: BuildHasher, A: Allocator> Serialize
    for Saved<HashTrieMap<K, V, H, A>> {
    fn serialize<S: Serializer>(&self, out: &mut S) -> Result<(), S::Error> {
        serialize(&self.0, out)
    }
}

impl<'de, K: Deserialize<'de> + Eq + Hash, V: Deserialize<'de>> Deserialize<'de>
    for Saved<HashTrieMap<K, V>> {
    fn deserialize<F: Format>(
        alloc: Global,
        from: &mut Deserializer<'de, '_, F>,
    ) -> Result<Saved<HashTrieMap<K, V>>, F::Error> {
        Ok(Saved(deserialize(alloc, from)?))
    }
}

impl<K: DeserializeOwned + Eq + Hash, V: DeserializeOwned> DeserializeOwned
    for Saved<HashTrieMap<K, V>> {
    fn deserialize_owned<F: Format>(
        alloc: Global,
        from: &mut Deserializer<'_, '_, F>,
    ) -> Result<Saved<HashTrieMap<K, V>>, F::Error> {
        Ok(Saved(read_map::<K, V, HashTrieMap<K, V>, Owned, Owned, Global, F>(alloc, alloc, from)?))
    }
}
