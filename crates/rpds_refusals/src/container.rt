//! The containers of the library.
use crate::looks::Looks;
use crate::subject::Subject;

/// A container of the library, which is looked at, too.
pub trait Container<'t, K, C>: Subject<'t, K, C> {
    /// Looks at it and goes over it in each way. It holds the numbers 1, 2 and 3. The other one is greater and holds 1 and 5;
    /// a hashed one holds the same.
    fn looks(&self, other: &Self, empty: &Self, looks: &mut Looks<'_, 't>);
}
