//! A level: full rows, which are the items of the levels above it, and behind them a row that has room.
#![tactic(auto, using(rpds_core::proofs::Rows::behind_length))]

ghost use Rattle.std.specs.Prelude.{◌≡◌};
ghost use Rattle.rpds_nest.specs.Level.{level_items, IsLevel};

use crate::nest_vector::Row;
use crate::nest_vector::levels::{ChangeLevels, Levels};
use crate::nest_vector::row::{DEGREE, shared};
use rpds_core::row;
use std::alloc::{AllocError, Allocator};
use std::rc::Rc;

#[derive(Drop)]
pub(crate) struct Level<R, T, A: Allocator> {
    rows: R,
    tail: Row<T, A>,
}

impl<T, A: Allocator, R: Levels<Row<T, A>>> Levels<T> for Level<R, T, A> {
    ghost items = { level_items R.items };

    ghost IsSound = { IsLevel R.items R.IsSound };

    fn get(&self, index: usize, len: usize) -> &T {
        let before = len - self.tail.len();
        if index < before {
            let row = self.rows.get(index / DEGREE, before / DEGREE);
            &row[index % DEGREE]
        } else {
            &self.tail[index - before]
        }
    }
}

impl<T: Drop, A: Allocator + Copy, R: ChangeLevels<Row<T, A>, A> + Drop> ChangeLevels<T, A>
    for Level<R, T, A> {
    fn new(alloc: A) -> Level<R, T, A> {
        Level {
            rows: R::new(alloc),
            tail: Vec::new(alloc),
        }
    }

    fn copied(&self, alloc: A) -> Result<Level<R, T, A>, AllocError> {
        let rows = self.rows.copied(alloc)?;
        let tail = row::copied(alloc, &self.tail)?;
        Ok(Level { rows, tail })
    }

    fn push(&mut self, alloc: A, item: &Rc<T, A>) -> Result<(), AllocError> {
        let item = shared(item)?;
        if self.tail.len() < DEGREE {
            self.tail.push(item)?;
            return Ok(());
        }
        let next = row::of_one(alloc, item)?;
        let full = Rc::new(alloc, row::copied(alloc, &self.tail)?)?;
        self.rows.push(alloc, &full)?;
        self.tail = next;
        Ok(())
    }

    fn set(
        &mut self,
        alloc: A,
        index: usize,
        len: usize,
        item: &Rc<T, A>,
    ) -> Result<(), AllocError> {
        let item = shared(item)?;
        let before = len - self.tail.len();
        if index < before {
            let row = self.rows.get(index / DEGREE, before / DEGREE);
            let changed = row::with_changed(alloc, row, index % DEGREE, item)?;
            let changed_row = Rc::new(alloc, changed)?;
            self.rows
                .set(alloc, index / DEGREE, before / DEGREE, &changed_row)?;
        } else {
            self.tail[index - before] = item;
        }
        Ok(())
    }

    fn drop_last(&mut self, alloc: A, len: usize) -> Result<(), AllocError> {
        let tail_len = self.tail.len();
        if tail_len > 0 {
            self.tail.truncate(tail_len - 1);
            return Ok(());
        }
        let rows = len / DEGREE;
        let last = self.rows.get(rows - 1, rows);
        let tail = row::with_first(alloc, last, DEGREE - 1)?;
        self.rows.drop_last(alloc, rows)?;
        self.tail = tail;
        Ok(())
    }
}
