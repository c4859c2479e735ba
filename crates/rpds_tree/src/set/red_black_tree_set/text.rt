//! `Display` and `Debug` of sets.
ghost use Rattle.rpds_core.specs.SetText.{set_text};

use crate::set::red_black_tree_set::RedBlackTreeSet;
use rpds_core::debug;
use rpds_core::sequence::write_between;
use std::alloc::Allocator;
use std::fmt;
use std::fmt::{Debug, Display, Formatter};

/// As `{1, 2}` in ascending order, each member with the options of the whole. It allocates nothing.
impl<T: Ord + Display, A: Allocator> Display for RedBlackTreeSet<T, A> {
    ghost output = { λ set. set_text T.output set.members };

    ghost styled_output = { λ set spec. set_text (λ x. T.styled_output x spec) set.members };

    fn fmt<W: fmt::Write>(&self, f: &mut Formatter<W>) -> fmt::Result {
        write_between::<T, &T, _, W>("{", self.iter(), "}", f)
    }
}

/// As `{1, 2}` in ascending order, and under `{:#?}` each member on lines of its own.
impl<T: Ord + Debug, A: Allocator> Debug for RedBlackTreeSet<T, A> {
    ghost debug_output = { λ set. set_text T.debug_output set.members };

    fn fmt<W: fmt::Write>(&self, f: &mut Formatter<W>) -> fmt::Result {
        debug::write_set::<T, &T, _, W>(self.iter(), f)
    }
}
