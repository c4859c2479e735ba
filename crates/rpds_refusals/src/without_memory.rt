//! Calls for which no memory is needed.
use crate::failure::{Failure, Part, check_freed};
use crate::plan::{NoMemoryRow, Plan};
use crate::subject::{Subject, filled};
use rpds_faults::Faults;

// Makes a receiver, and one of the calls of a row.
fn check_call<'r, 't, K, C: Copy, S: Subject<'t, K, C>>(
    faults: &'t Faults,
    put: C,
    row: &NoMemoryRow<'r, C>,
    call: C,
) -> Result<(), Failure<'r, C>> {
    let mut subject = filled::<K, C, S>(faults, put, &row.receiver)?;
    check_call_on::<K, C, S>(faults, &mut subject, call, row.number, row.answer)
}

// Makes the call with the next request refused and the next clone that isn't of a hasher. It asks for neither.
fn check_call_on<'r, 't, K, C: Copy, S: Subject<'t, K, C>>(
    faults: &'t Faults,
    subject: &mut S,
    call: C,
    number: u64,
    wanted: bool,
) -> Result<(), Failure<'r, C>> {
    faults.alloc.refuse(1);
    faults.counts.refuse(if wanted { 2 } else { 1 });
    let answer = subject.perform(call, number, faults);
    let is_right = matches!(answer, Ok(answer) if answer == wanted);
    if faults.none_came() && is_right {
        Ok(())
    } else {
        Err(Failure::AskedForMemory {
            call,
            number,
            answer,
        })
    }
}

/// Makes the calls without memory, each on a receiver of its own. None asks for memory, nor for a clone but of a hasher.
pub fn check_without_memory<'r, 't, K, C: Copy, S: Subject<'t, K, C>>(
    faults: &'t Faults,
    plan: &Plan<'r, C>,
) -> Result<(), Failure<'r, C>> {
    for row in plan.without_memory {
        for call in row.calls {
            check_call::<K, C, S>(faults, plan.put, row, *call)?;
        }
    }
    check_freed(faults, Part::WithoutMemory)
}

// Makes an empty receiver of each variant that needs no memory, with the next request and the next clone refused.
pub(crate) fn check_empty<'r, 't, K, C: Copy, S: Subject<'t, K, C>>(
    faults: &'t Faults,
    plan: &Plan<'r, C>,
) -> Result<(), Failure<'r, C>> {
    for variant in plan.empty_without_memory {
        faults.refuse_next();
        let is_made = S::start(*variant, faults).is_ok();
        if !faults.none_came() || !is_made {
            return Err(Failure::EmptyAskedForMemory(*variant));
        }
    }
    check_freed(faults, Part::Empty)
}
