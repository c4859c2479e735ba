//! Each request for memory, and each clone, of each call refused in turn.
use crate::failure::Failure;
use crate::plan::{Plan, Receiver};
use crate::row::{Outcome, Row};
use crate::subject::{Subject, filled};
use rpds_faults::{Faults, Refused};
use std::alloc::AllocError;

// The receiver of a row, and what shares its nodes, if anything does.
fn made<'t, K, C: Copy, S: Subject<'t, K, C>>(
    faults: &'t Faults,
    row: &Row<'_, C>,
) -> Result<(S, Option<S>), AllocError> {
    let mut subject = filled::<K, C, S>(faults, row.put, row.receiver)?;
    let sharer = if row.is_shared {
        subject.share(faults)?
    } else {
        None
    };
    Ok((subject, sharer))
}

// Makes the call with the request or clone number `nth` refused, on a receiver that is as its twin.
fn performed<'t, K, C: Copy, S: Subject<'t, K, C>>(
    faults: &'t Faults,
    row: &Row<'_, C>,
    nth: u64,
    subject: &mut S,
    sharer: Option<&S>,
    twin: &S,
) -> Outcome {
    let living = faults.counts.living();
    faults.refuse(row.refused, nth);
    let answer = subject.perform(row.call, row.number, faults);
    let was_refused = faults.was_refused(row.refused, nth);
    let is_living = faults.counts.living() == living;
    Outcome {
        was_refused,
        is_reported: answer.is_err() == was_refused,
        is_kept: match answer {
            Ok(true) => true,
            Ok(false) => subject.is_as(twin, faults),
            Err(_) => is_living && subject.is_as(twin, faults),
        },
        is_sharer_kept: match sharer {
            Some(sharer) => sharer.is_as(twin, faults),
            None => true,
        },
        is_held: false,
        is_all_freed: false,
    }
}

// Makes a twin of the receiver, and the call. The twin and what shares the receiver's nodes are dropped at the end.
fn performed_beside_twin<'t, K, C: Copy, S: Subject<'t, K, C>>(
    faults: &'t Faults,
    row: &Row<'_, C>,
    nth: u64,
    subject: &mut S,
    sharer: Option<S>,
) -> Result<Outcome, AllocError> {
    let (twin, _twin_sharer) = made::<K, C, S>(faults, row)?;
    Ok(performed::<K, C, S>(faults, row, nth, subject, sharer.as_ref(), &twin))
}

// Makes a receiver and its twin, and the call. All that was made is dropped at the end, the receiver last.
fn tried<'t, K, C: Copy, S: Subject<'t, K, C>>(
    faults: &'t Faults,
    row: &Row<'_, C>,
    nth: u64,
) -> Result<Outcome, AllocError> {
    let (mut subject, sharer) = made::<K, C, S>(faults, row)?;
    let mut outcome = performed_beside_twin::<K, C, S>(faults, row, nth, &mut subject, sharer)?;
    outcome.is_held = match subject.held() {
        Some(held) => faults.counts.living() == held,
        None => true,
    };
    Ok(outcome)
}

// Refuses each request or clone of the call in turn, and tells how many were refused.
fn refused_in_turn<'r, 't, K, C: Copy, S: Subject<'t, K, C>>(
    faults: &'t Faults,
    row: Row<'r, C>,
) -> Result<u64, Failure<'r, C>> {
    for nth in 1..1000u64 {
        let mut outcome = tried::<K, C, S>(faults, &row, nth)?;
        outcome.is_all_freed = faults.is_all_freed();
        if !outcome.is_right() {
            return Err(Failure::Refused { row, nth, outcome });
        }
        if !outcome.was_refused {
            return Ok(nth - 1);
        }
    }
    Err(Failure::Endless(row))
}

// Makes the call on the one receiver at the one number, on one that shares its nodes and on one that doesn't.
fn refused_at<'r, 't, K, C: Copy, S: Subject<'t, K, C>>(
    faults: &'t Faults,
    plan: &Plan<'r, C>,
    call: C,
    receiver: &'r Receiver<'r>,
    number: u64,
) -> Result<u64, Failure<'r, C>> {
    let mut count = 0u64;
    for is_shared in [false, true] {
        for refused in [Refused::Request, Refused::Clone] {
            let row = Row {
                call,
                put: plan.put,
                receiver,
                number,
                is_shared,
                refused,
            };
            count = count.wrapping_add(refused_in_turn::<K, C, S>(faults, row)?);
        }
    }
    Ok(count)
}

/// Makes the call on each receiver at each number, on one that shares its nodes and on one that doesn't, with each request
/// and each clone refused in turn. A call that was refused one answers so, the receiver and what shares its nodes are as
/// before, what was handed in is dropped once, and all memory is given back. Tells how many were refused.
pub fn refusals<'r, 't, K, C: Copy, S: Subject<'t, K, C>>(
    faults: &'t Faults,
    plan: &Plan<'r, C>,
    call: C,
) -> Result<u64, Failure<'r, C>> {
    let mut count = 0u64;
    for receiver in plan.receivers {
        for number in plan.numbers {
            let refused = refused_at::<K, C, S>(faults, plan, call, receiver, *number)?;
            count = count.wrapping_add(refused);
        }
    }
    Ok(count)
}

/// Makes each of the calls so, which are refused some.
pub fn check_some_refused<'r, 't, K, C: Copy, S: Subject<'t, K, C>>(
    faults: &'t Faults,
    plan: &Plan<'r, C>,
    calls: &[C],
) -> Result<(), Failure<'r, C>> {
    for call in calls {
        if refusals::<K, C, S>(faults, plan, *call)? == 0 {
            return Err(Failure::NoneRefused(*call));
        }
    }
    Ok(())
}

/// Makes each call of the plan so. Those that need memory or a clone are refused some, the others none.
pub fn check_refused<'r, 't, K, C: Copy, S: Subject<'t, K, C>>(
    faults: &'t Faults,
    plan: &Plan<'r, C>,
) -> Result<(), Failure<'r, C>> {
    check_some_refused::<K, C, S>(faults, plan, plan.calls)?;
    for call in plan.never_refused {
        if refusals::<K, C, S>(faults, plan, *call)? != 0 {
            return Err(Failure::SomeRefused(*call));
        }
    }
    Ok(())
}
