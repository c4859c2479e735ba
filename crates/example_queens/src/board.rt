//! A board with queens in its first rows.
ghost use Rattle.std.specs.Prelude.{◌≡◌, ◌+◌, ◌-◌, ◌<◌, ◌≤◌, [], ◌∷◌, length, IfOk};
ghost use Rattle.std.specs.Bool.{MatchBool};
ghost use Rattle.example_queens.specs.Queens.{ArePeaceful};

use rpds::laws::ordered::put_member_is_lawful;
use rpds::{List, RedBlackTreeSet};
use std::alloc::{AllocError, Global};
use std::marker::Model;

/// The most rows that a board may have.
pub const MOST_ROWS: u32 = 64;

/// A queen in each of the first rows, none of which attacks another: their columns, that in the last row first, and the
/// lines on which they stand.
#[derive(Drop)]
pub struct Board {
    queens: List<u32>,
    columns: RedBlackTreeSet<u32>,
    rising: RedBlackTreeSet<u32>,
    falling: RedBlackTreeSet<u32>,
}

impl Model for Board {
    ghost use Rattle.std.specs.Prelude.{ℕ, List};

    ghost Value = { List ℕ };

    ghost use Rattle.example_queens.specs.Lines.{IsMarked};

    ghost view = { λ b. b.queens };

    ghost invariant = { λ b.
        IsMarked b.queens b.columns.members b.rising.members b.falling.members };
}

impl Board {
    /// The board without queens.
    pub fn new(alloc: Global) -> Board
        ensures { result ≡ [] }
    {
        Board {
            queens: List::new(alloc),
            columns: RedBlackTreeSet::new(alloc),
            rising: RedBlackTreeSet::new(alloc),
            falling: RedBlackTreeSet::new(alloc),
        }
    }

    /// How many rows have a queen.
    pub fn rows(&self) -> u32
        ensures rows { result ≡ length self.now }
        ensures most { result ≤ MOST_ROWS }
    {
        self.queens.len() as u32
    }

    /// The columns of the queens, that in the last row first.
    pub fn queens(&self) -> Result<List<u32>, AllocError>
        ensures queens { IfOk result (λ queens. queens ≡ self.now) }
        ensures peaceful { ArePeaceful self.now }
    {
        self.queens.clone()
    }

    // The diagonal through this column of the next row along which column and row rise together.
    fn rising_line(&self, column: u32) -> u32
        requires { column < MOST_ROWS }
        ensures { result ≡ column + (MOST_ROWS - length self.now) }
    {
        column + (MOST_ROWS - self.rows())
    }

    // The other diagonal, along which the column falls as the row rises.
    fn falling_line(&self, column: u32) -> u32
        requires { column < MOST_ROWS }
        ensures { result ≡ column + length self.now }
    {
        column + self.rows()
    }

    /// Whether a queen in this column of the next row attacks no other.
    pub fn is_free(&self, column: u32) -> bool
        requires room { length self.now < MOST_ROWS }
        requires column { column < MOST_ROWS }
        ensures { MatchBool result
            (ArePeaceful (column ∷ self.now)) (¬ ArePeaceful (column ∷ self.now)) }
    {
        put_member_is_lawful::<u32>();
        !self.columns.contains(&column)
            && !self.rising.contains(&self.rising_line(column))
            && !self.falling.contains(&self.falling_line(column))
    }

    /// The board with a queen in this column of the next row.
    pub fn with_queen(&self, column: u32) -> Result<Board, AllocError>
        requires room { length self.now < MOST_ROWS }
        requires column { column < MOST_ROWS }
        requires free { ArePeaceful (column ∷ self.now) }
        ensures { IfOk result (λ board. board ≡ column ∷ self.now) }
    {
        Ok(Board {
            queens: self.queens.push_front(column)?,
            columns: self.columns.insert(column)?,
            rising: self.rising.insert(self.rising_line(column))?,
            falling: self.falling.insert(self.falling_line(column))?,
        })
    }
}
