//! All that is checked of a subject, and of a container.
use crate::container::Container;
use crate::failure::{Failure, Part, check_freed};
use crate::limits::check_limits;
use crate::looks::Looks;
use crate::plan::{Plan, Receiver};
use crate::receiver;
use crate::refused::check_refused;
use crate::subject::{Subject, filled};
use crate::without_memory::{check_empty, check_without_memory};
use rpds_faults::Faults;

/// Makes the calls of the plan, those without memory too, and empty receivers, and counts requests and bytes.
pub fn check_calls<'r, 't, K, C: Copy, S: Subject<'t, K, C>>(
    faults: &'t Faults,
    plan: &Plan<'r, C>,
) -> Result<(), Failure<'r, C>> {
    check_refused::<K, C, S>(faults, plan)?;
    check_without_memory::<K, C, S>(faults, plan)?;
    check_empty::<K, C, S>(faults, plan)?;
    check_limits::<K, C, S>(faults, plan)
}

/// Makes the calls of the plan, looks at the one receiver together with the other, and has the call `clear` take all items out
/// of one.
pub fn check_container<'r, 't, K, C: Copy, S: Container<'t, K, C>>(
    faults: &'t Faults,
    plan: &Plan<'r, C>,
    clear: C,
    receiver: &Receiver<'r>,
    other: &Receiver<'r>,
) -> Result<(), Failure<'r, C>> {
    check_calls::<K, C, S>(faults, plan)?;
    check_looks::<K, C, S>(faults, plan.put, receiver, other)?;
    check_freed(faults, Part::Looks)?;
    check_cleared::<K, C, S>(faults, plan.put, clear, receiver)?;
    check_freed(faults, Part::Cleared)
}

// Makes the containers that are looked at.
fn check_looks<'r, 't, K, C: Copy, S: Container<'t, K, C>>(
    faults: &'t Faults,
    put: C,
    receiver: &Receiver<'r>,
    other: &Receiver<'r>,
) -> Result<(), Failure<'r, C>> {
    let some = filled::<K, C, S>(faults, put, receiver)?;
    let other = filled::<K, C, S>(faults, put, other)?;
    let empty = filled::<K, C, S>(faults, put, &receiver!(&[]))?;
    check_looks_of::<K, C, S>(faults, &some, &other, &empty)
}

// Looks at containers with the next request and the next clone refused. None asks for either.
fn check_looks_of<'r, 't, K, C: Copy, S: Container<'t, K, C>>(
    faults: &'t Faults,
    some: &S,
    other: &S,
    empty: &S,
) -> Result<(), Failure<'r, C>> {
    let mut looks = Looks::new(faults);
    some.looks(other, empty, &mut looks);
    match looks.wrong() {
        None => Ok(()),
        Some(look) => Err(Failure::Looks(look)),
    }
}

// Makes a container that shares its nodes, and clears it.
fn check_cleared<'r, 't, K, C: Copy, S: Container<'t, K, C>>(
    faults: &'t Faults,
    put: C,
    clear: C,
    receiver: &Receiver<'r>,
) -> Result<(), Failure<'r, C>> {
    let mut cleared = filled::<K, C, S>(faults, put, receiver)?;
    let older = cleared.share(faults)?;
    check_clearing::<K, C, S>(faults, put, clear, &mut cleared)?;
    check_filled::<K, C, S>(
        faults,
        put,
        older.as_ref(),
        receiver,
        Failure::SharerCleared,
    )
}

// Clears the container, which can be filled again.
fn check_clearing<'r, 't, K, C: Copy, S: Container<'t, K, C>>(
    faults: &'t Faults,
    put: C,
    clear: C,
    container: &mut S,
) -> Result<(), Failure<'r, C>> {
    if !is_cleared::<K, C, S>(faults, clear, container) {
        return Err(Failure::NotCleared);
    }
    container.perform(put, 7, faults)?;
    check_filled::<K, C, S>(
        faults,
        put,
        Some(container),
        &receiver!(&[7]),
        Failure::NotRefilled,
    )
}

// Clears the container with the next request and the next clone refused, which doesn't ask for either.
fn is_cleared<'t, K, C: Copy, S: Container<'t, K, C>>(
    faults: &'t Faults,
    clear: C,
    container: &mut S,
) -> bool {
    faults.refuse_next();
    let answer = container.perform(clear, 0, faults);
    faults.none_came() && matches!(answer, Ok(true))
}

// That there is a container, which is as this receiver is made.
fn check_filled<'r, 't, K, C: Copy, S: Container<'t, K, C>>(
    faults: &'t Faults,
    put: C,
    container: Option<&S>,
    receiver: &Receiver<'_>,
    failure: Failure<'r, C>,
) -> Result<(), Failure<'r, C>> {
    let twin = filled::<K, C, S>(faults, put, receiver)?;
    match container {
        Some(container) if container.is_as(&twin, faults) => Ok(()),
        _ => Err(failure),
    }
}
