//! A row, which is the topmost level.
#![tactic(auto, using(rpds_core::proofs::Rows::behind_length, rpds_core::proofs::Rows::behind_append))]

ghost use Rattle.std.specs.Prelude.{◌≡◌, IfOk};
ghost use Rattle.rpds_nest.specs.Level.{contents, IsRow};

use crate::nest_vector::Row;
use crate::nest_vector::levels::{ChangeLevels, Levels};
use rpds_core::row;
use std::alloc::{AllocError, Allocator};
use std::rc::Rc;

// How many items a row has room for.
pub(crate) const DEGREE: usize = 64;

impl<T, A: Allocator> Levels<T> for Row<T, A> {
    ghost items = { contents };

    ghost IsSound = { IsRow };

    fn get(&self, index: usize, _len: usize) -> &T {
        &self[index]
    }
}

impl<T: Drop, A: Allocator + Copy> ChangeLevels<T, A> for Row<T, A> {
    fn new(alloc: A) -> Row<T, A> {
        Vec::new(alloc)
    }

    fn copied(&self, alloc: A) -> Result<Row<T, A>, AllocError> {
        row::copied(alloc, self)
    }

    fn push(&mut self, _alloc: A, item: &Rc<T, A>) -> Result<(), AllocError> {
        if self.len() >= DEGREE {
            return Err(AllocError);
        }
        let item = shared(item)?;
        Vec::push(self, item)?;
        Ok(())
    }

    fn set(
        &mut self,
        _alloc: A,
        index: usize,
        _len: usize,
        item: &Rc<T, A>,
    ) -> Result<(), AllocError> {
        let item = shared(item)?;
        self[index] = item;
        Ok(())
    }

    fn drop_last(&mut self, _alloc: A, len: usize) -> Result<(), AllocError> {
        self.truncate(len - 1);
        Ok(())
    }
}

// One more pointer to the same.
pub(crate) fn shared<T: Drop, A: Allocator>(item: &Rc<T, A>) -> Result<Rc<T, A>, AllocError>
    ensures { IfOk result (λ copy. copy.value ≡ item.now.value) }
{
    let copy = item.clone()?;
    Ok(copy)
}
