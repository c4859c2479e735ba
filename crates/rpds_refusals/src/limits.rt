//! How much memory a call asks for among many entries.
use crate::failure::{Failure, Part, check_freed};
use crate::plan::{LargeContainer, MemoryRow, Plan, Sharing};
use crate::row::Came;
use crate::subject::Subject;
use rpds_faults::{Faults, clones, requests};
use std::alloc::AllocError;

// The container, filled.
fn large_container<'t, K, C: Copy, S: Subject<'t, K, C>>(
    faults: &'t Faults,
    put: C,
    large: &LargeContainer,
) -> Result<S, AllocError> {
    let mut container = S::start(large.variant, faults)?;
    for index in 0..large.count {
        let number = index.wrapping_mul(large.step) % large.limit.max(1);
        container.perform(put, number, faults)?;
    }
    Ok(container)
}

// What one call on the container itself answers and asks for.
fn asked_of<'t, K, C: Copy, S: Subject<'t, K, C>>(
    faults: &'t Faults,
    container: &mut S,
    call: C,
    number: u64,
) -> Result<Came, AllocError> {
    requests(&faults.alloc);
    clones(&faults.counts);
    let bytes = faults.alloc.bytes();
    let answer = container.perform(call, number, faults)?;
    Ok(Came {
        answer,
        requests: requests(&faults.alloc),
        bytes: faults.alloc.bytes().wrapping_sub(bytes),
        clones: clones(&faults.counts),
    })
}

// The same on another handle to the container, if it hands out one, or on the container itself.
fn asked_on<'t, K, C: Copy, S: Subject<'t, K, C>>(
    faults: &'t Faults,
    sharing: &Sharing,
    container: &mut S,
    call: C,
    number: u64,
) -> Result<Came, AllocError> {
    let other = match sharing {
        Sharing::Alone => None,
        Sharing::Alike | Sharing::Shared => container.share(faults)?,
    };
    match other {
        Some(mut other) => asked_of::<K, C, S>(faults, &mut other, call, number),
        None => asked_of::<K, C, S>(faults, container, call, number),
    }
}

// Whether a call asked for as much as the row says, as much as its like if it has one, and answered as the row says.
fn is_within<C>(came: Came, first: Came, row: &MemoryRow<'_, C>) -> bool {
    let is_alike = match row.sharing {
        Sharing::Alike => came.requests == first.requests && came.bytes == first.bytes,
        Sharing::Shared | Sharing::Alone => true,
    };
    is_alike
        && came.answer == row.answer
        && came.requests <= row.limit.requests
        && came.bytes <= row.limit.bytes
        && came.clones <= row.clones
}

// Counts what the calls of a row ask for at one of its numbers.
fn check_row<'r, 't, K, C: Copy, S: Subject<'t, K, C>>(
    faults: &'t Faults,
    container: &mut S,
    row: &MemoryRow<'r, C>,
    number: u64,
) -> Result<(), Failure<'r, C>> {
    let mut first = None;
    for call in row.calls {
        let came = asked_on::<K, C, S>(faults, &row.sharing, container, *call, number)?;
        if !is_within(came, *first.get_or_insert(came), row) {
            return Err(Failure::OverLimit {
                call: *call,
                number,
                came,
            });
        }
    }
    Ok(())
}

// Counts what the calls of each row ask for at each of its numbers, one after another on one container.
fn check_rows<'r, 't, K, C: Copy, S: Subject<'t, K, C>>(
    faults: &'t Faults,
    container: &mut S,
    rows: &[MemoryRow<'r, C>],
) -> Result<(), Failure<'r, C>> {
    for row in rows {
        for number in row.numbers {
            check_row::<K, C, S>(faults, container, row, *number)?;
        }
    }
    Ok(())
}

/// Counts what the calls of each row ask for on a large container. None asks for more than the row says.
pub fn check_large<'r, 't, K, C: Copy, S: Subject<'t, K, C>>(
    faults: &'t Faults,
    put: C,
    large: &LargeContainer,
    rows: &[MemoryRow<'r, C>],
) -> Result<(), Failure<'r, C>> {
    check_rows_of::<K, C, S>(faults, put, large, rows)?;
    check_freed(faults, Part::Limits)
}

// Makes the container, which is dropped at the end.
fn check_rows_of<'r, 't, K, C: Copy, S: Subject<'t, K, C>>(
    faults: &'t Faults,
    put: C,
    large: &LargeContainer,
    rows: &[MemoryRow<'r, C>],
) -> Result<(), Failure<'r, C>> {
    let mut container = large_container::<K, C, S>(faults, put, large)?;
    check_rows::<K, C, S>(faults, &mut container, rows)
}

/// The same of each large container of the plan.
pub fn check_limits<'r, 't, K, C: Copy, S: Subject<'t, K, C>>(
    faults: &'t Faults,
    plan: &Plan<'r, C>,
) -> Result<(), Failure<'r, C>> {
    for (large, rows) in plan.limits {
        check_large::<K, C, S>(faults, plan.put, large, rows)?;
    }
    Ok(())
}
