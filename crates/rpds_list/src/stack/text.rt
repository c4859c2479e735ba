//! `Display` and `Debug` of stacks.
ghost use Rattle.std.specs.Fmt.{debug_list};
ghost use Rattle.rpds_list.specs.StackText.{stack_text};

use super::Stack;
use rpds_core::debug;
use rpds_core::sequence::write_between;
use std::alloc::Allocator;
use std::fmt;
use std::fmt::{Debug, Display, Formatter};

/// As `Stack(1, 2)` from the top down, each item with the options of the whole.
impl<T: Display, A: Allocator> Display for Stack<T, A> {
    ghost output = { stack_text T.output };

    ghost styled_output = { λ stack spec. stack_text (λ x. T.styled_output x spec) stack };

    fn fmt<W: fmt::Write>(&self, f: &mut Formatter<W>) -> fmt::Result {
        write_between::<T, &T, _, W>("Stack(", self.iter(), ")", f)
    }
}

/// As `[1, 2]` from the top down, and under `{:#?}` each item on lines of its own.
impl<T: Debug, A: Allocator> Debug for Stack<T, A> {
    ghost debug_output = { λ stack. debug_list T.debug_output stack };

    fn fmt<W: fmt::Write>(&self, f: &mut Formatter<W>) -> fmt::Result {
        debug::write_list::<T, &T, _, W>(self.iter(), f)
    }
}
