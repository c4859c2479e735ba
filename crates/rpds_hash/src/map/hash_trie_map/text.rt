//! `Display` and `Debug` of maps.
ghost use Rattle.rpds_core.specs.MapText.{map_text};

use crate::map::hash_trie_map::HashTrieMap;
use rpds_core::debug;
use rpds_core::map::pair_text::write_pairs;
use std::alloc::Allocator;
use std::fmt;
use std::fmt::{Debug, Display, Formatter};
use std::hash::{BuildHasher, Hash};

/// As `{1: 2, 3: 4}` in the order of the iterator, each key and value with the options of the whole.
impl<K: Eq + Hash + Display, V: Display, H: BuildHasher, A: Allocator> Display
    for HashTrieMap<K, V, H, A> {
    ghost output = { λ map. map_text K.output V.output map.entries };

    ghost styled_output = { λ map spec. map_text (λ key. K.styled_output key spec) (λ value. V.styled_output value spec) map.entries };

    fn fmt<W: fmt::Write>(&self, f: &mut Formatter<W>) -> fmt::Result {
        write_pairs(self.iter(), f)
    }
}

/// As `{1: 2, 3: 4}` in the order of the iterator, and under `{:#?}` each pair on lines of its own.
impl<K: Eq + Hash + Debug, V: Debug, H: BuildHasher, A: Allocator> Debug
    for HashTrieMap<K, V, H, A> {
    ghost debug_output = { λ map. map_text K.debug_output V.debug_output map.entries };

    fn fmt<W: fmt::Write>(&self, f: &mut Formatter<W>) -> fmt::Result {
        debug::write_map(self.iter(), f)
    }
}
