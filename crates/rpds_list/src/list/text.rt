//! `Display` and `Debug` of lists.
ghost use Rattle.std.specs.Fmt.{debug_list};

use super::List;
use rpds_core::debug;
use rpds_core::sequence::write_between;
use std::alloc::Allocator;
use std::fmt;
use std::fmt::{Debug, Display, Formatter};

/// As `[1, 2]`, each item with the options of the whole.
impl<T: Display, A: Allocator> Display for List<T, A> {
    ghost output = { debug_list T.output };

    ghost styled_output = { λ list spec. debug_list (λ x. T.styled_output x spec) list };

    fn fmt<W: fmt::Write>(&self, f: &mut Formatter<W>) -> fmt::Result {
        write_between::<T, &T, _, W>("[", self.iter(), "]", f)
    }
}

/// As `[1, 2]`, and under `{:#?}` each item on lines of its own.
impl<T: Debug, A: Allocator> Debug for List<T, A> {
    ghost debug_output = { λ list. debug_list T.debug_output list };

    fn fmt<W: fmt::Write>(&self, f: &mut Formatter<W>) -> fmt::Result {
        debug::write_list::<T, &T, _, W>(self.iter(), f)
    }
}
