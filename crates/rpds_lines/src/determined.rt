//! What the lines of a session determine. The function has no code: a caller's proof cites its clause.
ghost use Rattle.std.specs.Prelude.{◌≡◌, All, List, ℕ};
ghost use Rattle.rpds_lines.specs.Printed.{HadMemory};
ghost use Rattle.rpds_lines.specs.Sessions.{AnswersLines};
ghost use Rattle.rpds_lines.specs.SessionState.{SessionState, empty_state};

use std::alloc::Allocator;

/// Two sessions of the same lines print the same, unless memory is refused to one of them: then it answers a line by
/// `refused 7`.
pub fn session_is_lawful<A: Allocator>()
    ensures { (lines xs ys : List (List ℕ)) → (s t : SessionState A)
        → AnswersLines empty_state lines xs s → AnswersLines empty_state lines ys t
        → All HadMemory xs → All HadMemory ys → xs ≡ ys }
{}
