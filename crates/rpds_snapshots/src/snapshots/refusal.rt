//! Why a command on the map or its snapshots is refused, and the number under which that is reported.
ghost use Rattle.std.specs.Prelude.{◌≡◌};

/// Why a command was refused.
#[derive(Clone, Copy, Debug, PartialEq, Eq)]
pub enum SnapRefusal {
    /// There is no snapshot of this number.
    NoSnapshot,
    /// The map would pass the greatest size, or the snapshots the greatest number.
    Full,
    /// An allocation failed, or the count of a shared part's owners is full.
    NoMemory,
}

impl SnapRefusal {
    ghost use Rattle.rpds_snapshots.specs.SnapshotRefusal.{number_of};

    /// The number under which it is reported.
    pub fn number(self) -> u8
        ensures { result ≡ number_of self }
    {
        match self {
            SnapRefusal::NoSnapshot => 9,
            SnapRefusal::Full => 6,
            SnapRefusal::NoMemory => 7,
        }
    }
}
