//! `Display` and `Debug` of maps.
ghost use Rattle.rpds_core.specs.MapText.{map_text};

use crate::map::red_black_tree_map::RedBlackTreeMap;
use rpds_core::debug;
use rpds_core::map::pair_text::write_pairs;
use std::alloc::Allocator;
use std::fmt;
use std::fmt::{Debug, Display, Formatter};

/// As `{1: 2, 3: 4}` in the order of the keys, each key and value with the options of the whole.
impl<K: Ord + Display, V: Display, A: Allocator> Display for RedBlackTreeMap<K, V, A> {
    ghost output = { λ map. map_text K.output V.output map.entries };

    ghost styled_output = { λ map spec. map_text (λ key. K.styled_output key spec) (λ value. V.styled_output value spec) map.entries };

    fn fmt<W: fmt::Write>(&self, f: &mut Formatter<W>) -> fmt::Result {
        write_pairs(self.iter(), f)
    }
}

/// As `{1: 2, 3: 4}` in the order of the keys, and under `{:#?}` each pair on lines of its own.
impl<K: Ord + Debug, V: Debug, A: Allocator> Debug for RedBlackTreeMap<K, V, A> {
    ghost debug_output = { λ map. map_text K.debug_output V.debug_output map.entries };

    fn fmt<W: fmt::Write>(&self, f: &mut Formatter<W>) -> fmt::Result {
        debug::write_map(self.iter(), f)
    }
}
