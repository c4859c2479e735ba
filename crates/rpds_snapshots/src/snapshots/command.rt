//! The commands: changes of the map, snapshots of it, and the way back.

/// A command to a map with snapshots.
#[derive(Debug, Drop)]
pub enum SnapCommand<K, V> {
    /// Puts a key and its value into the map: they replace a stored key that is equal, and its value.
    Put(K, V),
    /// Takes a key and its value out of the map.
    TakeOut(K),
    /// Keeps a snapshot of the map.
    Take,
    /// Makes the map what it was at the snapshot of this number. All snapshots stay.
    GoBack(usize),
}
