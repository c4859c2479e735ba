//! A container without a field.

/// A container where there is no field to write `with` at: in another container, as in `Vector<Saved<List<u64>>>`, or at the
/// top of a text.
#[derive(Clone, Debug, Drop, PartialEq, Eq, PartialOrd, Ord, Hash)]
pub struct Saved<C>(pub C);
