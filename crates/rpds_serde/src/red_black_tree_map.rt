//! Ordered maps, as maps of their pairs.
ghost use Rattle.std.specs.Prelude.{◌≡◌, ◌≤◌, [], List, length, IfOk, OnOk};
ghost use Rattle.serde.specs.Event.{WritesMap};
ghost use Rattle.rpds_red_black.specs.Logarithm.{most_levels};
ghost use Rattle.rpds_red_black.specs.Pairs.{put_all};
ghost use Rattle.rpds_serde.specs.Reading.{Anything, ReadsMap};

use crate::Saved;
use crate::read::{Lent, Owned, read_map};
use crate::write::write_map;
use rpds_tree::map::red_black_tree_map::RedBlackTreeMap;
use serde::{
    Described, Deserialize, DeserializeOwned, Deserializer, Format, Serialize, Serializer,
};
use std::alloc::{Allocator, Global};

/// Writes the pairs, from the least key to the greatest.
pub fn serialize<K: Serialize + Ord, V: Serialize, A: Allocator, S: Serializer>(
    map: &RedBlackTreeMap<K, V, A>,
    out: &mut S,
) -> Result<(), S::Error>
    ensures { OnOk result (WritesMap K.Described.writes V.Described.writes map.now.entries
        (S.written out.old) (S.written out.new)) }
{
    write_map(map.iter(), map.len(), out)
}

/// Reads a map: of pairs with equal keys the last one stays. Errors as of [`read_map`](crate::read::read_map).
pub fn deserialize<'de, K: Deserialize<'de> + Ord, V: Deserialize<'de>, F: Format>(
    alloc: Global,
    from: &mut Deserializer<'de, '_, F>,
) -> Result<RedBlackTreeMap<K, V>, F::Error>
    ensures entries { IfOk result (λ m. (pairs : List (K × V))
        × ReadsMap F.gives Anything Anything from.old pairs from.new × (m.entries ≡ put_all K.cmp [] pairs)) }
    ensures depth { IfOk result (λ m. m.depth ≤ most_levels (length m.entries)) }
{
    read_map::<K, V, RedBlackTreeMap<K, V>, Lent, Lent, Global, F>(alloc, alloc, from)
}

impl<K: Described + Ord, V: Described, A: Allocator> Described for Saved<RedBlackTreeMap<K, V, A>> {
    ghost writes = { λ s. WritesMap K.writes V.writes s.0.entries };
}

impl<K: Serialize + Ord, V: Serialize, A: Allocator> Serialize for Saved<RedBlackTreeMap<K, V, A>> {
    fn serialize<S: Serializer>(&self, out: &mut S) -> Result<(), S::Error> {
        serialize(&self.0, out)
    }
}

impl<'de, K: Deserialize<'de> + Ord, V: Deserialize<'de>> Deserialize<'de>
    for Saved<RedBlackTreeMap<K, V>> {
    fn deserialize<F: Format>(
        alloc: Global,
        from: &mut Deserializer<'de, '_, F>,
    ) -> Result<Saved<RedBlackTreeMap<K, V>>, F::Error> {
        Ok(Saved(deserialize(alloc, from)?))
    }
}

impl<K: DeserializeOwned + Ord, V: DeserializeOwned> DeserializeOwned
    for Saved<RedBlackTreeMap<K, V>> {
    fn deserialize_owned<F: Format>(
        alloc: Global,
        from: &mut Deserializer<'_, '_, F>,
    ) -> Result<Saved<RedBlackTreeMap<K, V>>, F::Error> {
        Ok(Saved(read_map::<K, V, RedBlackTreeMap<K, V>, Owned, Owned, Global, F>(
            alloc, alloc, from,
        )?))
    }
}
