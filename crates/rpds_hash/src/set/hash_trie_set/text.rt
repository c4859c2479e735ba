//! `Display` and `Debug` of sets.
ghost use Rattle.rpds_core.specs.SetText.{set_text};

use crate::set::hash_trie_set::HashTrieSet;
use rpds_core::debug;
use rpds_core::sequence::write_between;
use std::alloc::Allocator;
use std::fmt;
use std::fmt::{Debug, Display, Formatter};
use std::hash::{BuildHasher, Hash};

/// As `{1, 2}` in the order of the iterator, each member with the options of the whole.
impl<T: Eq + Hash + Display, H: BuildHasher, A: Allocator> Display for HashTrieSet<T, H, A> {
    ghost output = { λ set. set_text T.output set.members };

    ghost styled_output = { λ set spec. set_text (λ member. T.styled_output member spec) set.members };

    fn fmt<W: fmt::Write>(&self, f: &mut Formatter<W>) -> fmt::Result {
        write_between::<T, &T, _, W>("{", self.iter(), "}", f)
    }
}

/// As `{1, 2}` in the order of the iterator, and under `{:#?}` each member on lines of its own.
impl<T: Eq + Hash + Debug, H: BuildHasher, A: Allocator> Debug for HashTrieSet<T, H, A> {
    ghost debug_output = { λ set. set_text T.debug_output set.members };

    fn fmt<W: fmt::Write>(&self, f: &mut Formatter<W>) -> fmt::Result {
        debug::write_set::<T, &T, _, W>(self.iter(), f)
    }
}
