//! `Debug` of maps with snapshots.
ghost use Rattle.rpds_snapshots.specs.SnapshotText.{debug_text};

use super::Snapshots;
use std::alloc::Allocator;
use std::fmt;
use std::fmt::{Debug, Formatter};

/// As `Snapshots { current: {1: 2}, taken: [{}, {1: 2}] }`, and under `{:#?}` each item on lines of its own.
impl<K: Ord + Debug, V: Debug, A: Allocator> Debug for Snapshots<K, V, A> {
    ghost debug_output = { λ snapshots. debug_text K.debug_output V.debug_output snapshots };

    fn fmt<W: fmt::Write>(&self, f: &mut Formatter<W>) -> fmt::Result {
        if f.alternate() {
            return f
                .debug_struct("Snapshots")
                .field("current", &self.current)
                .field("taken", &self.taken)
                .finish();
        }
        f.write_str("Snapshots { current: ")?;
        Debug::fmt(&self.current, f)?;
        f.write_str(", taken: ")?;
        Debug::fmt(&self.taken, f)?;
        f.write_str(" }")
    }
}
