//! The search for a board with a queen in every row.
ghost use Rattle.std.specs.Prelude.{◌<◌, ◌≤◌, All, length, IfNone, IfOk, IfSome};
ghost use Rattle.example_queens.specs.Queens.{GoesOn, IsDeadEnd, IsSolution, IsUnsolvable};

use crate::board::{Board, MOST_ROWS};
use rpds::List;
use std::alloc::{AllocError, Global};

/// The columns of the queens on a board of this size, one in each row, none of which attacks another, the last row first;
/// `None` where there is no such board.
pub fn solved(alloc: Global, size: u32) -> Result<Option<List<u32>>, AllocError>
    requires { size ≤ MOST_ROWS }
    ensures found { IfOk result (λ found. IfSome found (IsSolution size)) }
    ensures none { IfOk result (λ found. IfNone found (IsUnsolvable size)) }
{
    solved_from(&Board::new(alloc), size)
}

// The same, of the boards that go on from this one.
fn solved_from(board: &Board, size: u32) -> Result<Option<List<u32>>, AllocError>
    requires fits { size ≤ MOST_ROWS }
    requires room { length board.now ≤ size }
    requires on_board { All (λ column. column < size) board.now }
    ensures found { IfOk result (λ found. IfSome found (GoesOn size board.now)) }
    ensures none { IfOk result (λ found. IfNone found (IsDeadEnd size board.now)) }
{
    if board.rows() == size {
        return Ok(Some(board.queens()?));
    }
    for column in 0..size {
        if board.is_free(column) {
            let found = solved_from(&board.with_queen(column)?, size);
            let Ok(None) = found else {
                return found;
            };
        }
    }
    Ok(None)
}
