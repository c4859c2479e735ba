//! `Display` and `Debug` of queues.
ghost use Rattle.std.specs.Fmt.{debug_list};
ghost use Rattle.rpds_list.specs.QueueText.{queue_text};

use super::Queue;
use rpds_core::debug;
use rpds_core::sequence::write_between;
use std::alloc::Allocator;
use std::fmt;
use std::fmt::{Debug, Display, Formatter};

/// As `Queue(1, 2)`, the front first, each item with the options of the whole. It allocates nothing, and takes about
/// n log n steps where n items wait.
impl<T: Display, A: Allocator> Display for Queue<T, A> {
    ghost output = { λ queue. queue_text T.output queue.items };

    ghost styled_output = { λ queue spec. queue_text (λ x. T.styled_output x spec) queue.items };

    fn fmt<W: fmt::Write>(&self, f: &mut Formatter<W>) -> fmt::Result {
        write_between::<T, &T, _, W>("Queue(", self.from_front(), ")", f)
    }
}

/// As `[1, 2]`, the front first, and under `{:#?}` each item on lines of its own. It allocates nothing, and takes about n log n steps where n
/// items wait.
impl<T: Debug, A: Allocator> Debug for Queue<T, A> {
    ghost debug_output = { λ queue. debug_list T.debug_output queue.items };

    fn fmt<W: fmt::Write>(&self, f: &mut Formatter<W>) -> fmt::Result {
        debug::write_list::<T, &T, _, W>(self.from_front(), f)
    }
}
