//! What differs between two versions of a map or a set.

/// One difference between two versions of a map, the older and the newer one.
#[derive(Clone, Copy, Debug, PartialEq, Eq, Drop)]
pub enum MapChange<'a, K, V> {
    /// The key is in the newer one alone, with this value.
    Added(&'a K, &'a V),
    /// The key is in the older one alone, with this value.
    Removed(&'a K, &'a V),
    /// The key, as the newer one stores it, has another value: the older one, and the newer one.
    Changed(&'a K, &'a V, &'a V),
}

/// One difference between two versions of a set, the older and the newer one.
#[derive(Clone, Copy, Debug, PartialEq, Eq, Drop)]
pub enum SetChange<'a, T> {
    /// It is in the newer one alone.
    Added(&'a T),
    /// It is in the older one alone.
    Removed(&'a T),
}
