//! Rows of pointers, and copies of them. Each is made to fit, in one allocation, and a copy shares what the pointers point to.
ghost use Rattle.std.specs.Prelude.{◌≡◌, ◌<◌, ◌≤◌, ◌++◌, ◌∷◌, [], IfOk, length, set, take, vec_len, vec_capacity};
ghost use Rattle.rpds_core.specs.Rows.{behind};

use std::alloc::{AllocError, Allocator};
use std::rc::Rc;

/// A row of one pointer.
pub fn of_one<X: Drop, A: Allocator + Copy>(
    alloc: A,
    only: Rc<X, A>,
) -> Result<Vec<Rc<X, A>, A>, AllocError>
    ensures { IfOk result (λ v. behind v.items ≡ only.value ∷ []) }
{
    let mut row = Vec::with_capacity(alloc, 1)?;
    row.push_reserved(only);
    Ok(row)
}

/// A row of two pointers.
pub fn of_two<X: Drop, A: Allocator + Copy>(
    alloc: A,
    first: Rc<X, A>,
    second: Rc<X, A>,
) -> Result<Vec<Rc<X, A>, A>, AllocError>
    ensures { IfOk result (λ v. behind v.items ≡ first.value ∷ second.value ∷ []) }
{
    let mut row = Vec::with_capacity(alloc, 2)?;
    row.push_reserved(first);
    row.push_reserved(second);
    Ok(row)
}

/// A copy with room for `room` pointers.
#[inline(always)]
pub fn with_room<X: Drop, A: Allocator + Copy>(
    alloc: A,
    row: &[Rc<X, A>],
    room: usize,
) -> Result<Vec<Rc<X, A>, A>, AllocError>
    requires { length row.now ≤ room }
    ensures same { IfOk result (λ v. behind v.items ≡ behind row.now) }
    ensures len { IfOk result (λ v. vec_len v ≡ length row.now) }
    ensures room { IfOk result (λ v. room ≤ vec_capacity v) }
{
    let mut copy = Vec::with_capacity(alloc, room)?;
    copy.extend_with_clones(row)?;
    Ok(copy)
}

/// A copy that fits.
#[inline(always)]
pub fn copied<X: Drop, A: Allocator + Copy>(
    alloc: A,
    row: &[Rc<X, A>],
) -> Result<Vec<Rc<X, A>, A>, AllocError>
    ensures same { IfOk result (λ v. behind v.items ≡ behind row.now) }
    ensures len { IfOk result (λ v. vec_len v ≡ length row.now) }
{
    let copy = Vec::from_clones(alloc, row)?;
    Ok(copy)
}

/// A copy with one pointer changed.
#[tactic(auto, using(crate::proofs::Rows::behind_set))]
#[inline(always)]
pub fn with_changed<X: Drop, A: Allocator + Copy>(
    alloc: A,
    row: &[Rc<X, A>],
    at: usize,
    changed: Rc<X, A>,
) -> Result<Vec<Rc<X, A>, A>, AllocError>
    requires { at < length row.now }
    ensures { IfOk result (λ v. behind v.items ≡ set (behind row.now) at changed.value) }
{
    let mut copy = copied(alloc, row)?;
    copy[at] = changed;
    Ok(copy)
}

/// A copy with one pointer more.
#[tactic(auto, using(crate::proofs::Rows::behind_append))]
#[inline(always)]
pub fn with_more<X: Drop, A: Allocator + Copy>(
    alloc: A,
    row: &[Rc<X, A>],
    more: Rc<X, A>,
) -> Result<Vec<Rc<X, A>, A>, AllocError>
    requires { length row.now < usize.MAX }
    ensures { IfOk result (λ v. behind v.items ≡ behind row.now ++ more.value ∷ []) }
{
    let mut copy = with_room(alloc, row, row.len() + 1)?;
    copy.push_reserved(more);
    Ok(copy)
}

/// A copy of the first pointers.
#[tactic(auto, using(crate::proofs::Rows::behind_take))]
#[inline(always)]
pub fn with_first<X: Drop, A: Allocator + Copy>(
    alloc: A,
    row: &[Rc<X, A>],
    kept: usize,
) -> Result<Vec<Rc<X, A>, A>, AllocError>
    requires { kept ≤ length row.now }
    ensures { IfOk result (λ v. behind v.items ≡ take kept (behind row.now)) }
{
    copied(alloc, &row[..kept])
}

/// A copy of the first pointers, and one more behind them.
#[tactic(auto, using(crate::proofs::Rows::behind_append, crate::proofs::Rows::behind_take))]
#[inline(always)]
pub fn with_first_and<X: Drop, A: Allocator + Copy>(
    alloc: A,
    row: &[Rc<X, A>],
    kept: usize,
    last: Rc<X, A>,
) -> Result<Vec<Rc<X, A>, A>, AllocError>
    requires { kept < length row.now }
    ensures { IfOk result (λ v. behind v.items ≡ take kept (behind row.now) ++ last.value ∷ []) }
{
    let mut copy = with_room(alloc, &row[..kept], kept + 1)?;
    copy.push_reserved(last);
    Ok(copy)
}
