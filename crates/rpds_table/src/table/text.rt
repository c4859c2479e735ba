//! `Debug` of tables.
ghost use Rattle.std.specs.Fmt.{debug_list};
ghost use Rattle.rpds_table.specs.Texts.{debug_text_of};

use super::Table;
use std::alloc::Allocator;
use std::fmt;
use std::fmt::{Debug, Formatter};
use std::hash::{BuildHasher, Hash};

/// As the list of its versions: `[[1, 2], {1: 2}]`, and under `{:#?}` each item on lines of its own.
impl<K: Ord + Hash + Debug, V: Debug, H: BuildHasher, A: Allocator> Debug for Table<K, V, H, A> {
    ghost debug_output = { λ table. debug_list (debug_text_of K.debug_output V.debug_output) table.versions };

    fn fmt<W: fmt::Write>(&self, f: &mut Formatter<W>) -> fmt::Result {
        Debug::fmt(&self.versions, f)
    }
}
