//! `Display` and `Debug` of versions.
ghost use Rattle.rpds_table.specs.Kinds.{version_of_ref};
ghost use Rattle.rpds_table.specs.Texts.{debug_text_of, text_of};

use super::{Version, VersionRef};
use crate::table::version::{each_kind, of_its_kind};
use std::alloc::Allocator;
use std::fmt;
use std::fmt::{Debug, Display, Formatter};
use std::hash::{BuildHasher, Hash};

/// As the container is displayed: each key and value with the options of the whole. It allocates nothing.
impl<K: Ord + Hash + Display, V: Display, H: BuildHasher, A: Allocator> Display
    for VersionRef<'_, K, V, H, A> {
    ghost output = { λ version. text_of K.output V.output (version_of_ref version) };

    ghost styled_output = { λ version spec. text_of (λ key. K.styled_output key spec)
        (λ value. V.styled_output value spec) (version_of_ref version) };

    fn fmt<W: fmt::Write>(&self, f: &mut Formatter<W>) -> fmt::Result {
        each_kind!(of_its_kind: *self, VersionRef(container) => Display::fmt(container, f))
    }
}

/// As the container: `[1, 2]`, `{1, 2}` or `{1: 2}`, and under `{:#?}` each item on lines of its own.
impl<K: Ord + Hash + Debug, V: Debug, H: BuildHasher, A: Allocator> Debug
    for VersionRef<'_, K, V, H, A> {
    ghost debug_output = { λ version. debug_text_of K.debug_output V.debug_output (version_of_ref version) };

    fn fmt<W: fmt::Write>(&self, f: &mut Formatter<W>) -> fmt::Result {
        each_kind!(of_its_kind: *self, VersionRef(container) => Debug::fmt(container, f))
    }
}

impl<K: Ord + Hash + Debug, V: Debug, H: BuildHasher, A: Allocator> Debug for Version<K, V, H, A> {
    ghost debug_output = { λ version. debug_text_of K.debug_output V.debug_output version };

    fn fmt<W: fmt::Write>(&self, f: &mut Formatter<W>) -> fmt::Result {
        Debug::fmt(&self.as_ref(), f)
    }
}
