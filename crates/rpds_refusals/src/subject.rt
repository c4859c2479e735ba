//! What is checked.
use crate::plan::Receiver;
use rpds_faults::Faults;
use std::alloc::AllocError;

/// What is tested, a container or what holds containers, of which calls of the type `C` are made.
///
/// `K` is a type of the tests' own crate, which an `impl` of this trait for a type of another crate has to name.
pub trait Subject<'t, K, C>: Sized + Drop {
    /// One of this variant, before anything is put into it. It shares nothing.
    fn start(variant: u8, faults: &'t Faults) -> Result<Self, AllocError>;

    /// Has its nodes shared: by another handle, which it hands out, or by what it holds itself.
    fn share(&mut self, faults: &'t Faults) -> Result<Option<Self>, AllocError>;

    /// Whether both hold the same, and look-ups in both take the same steps.
    fn is_as(&self, twin: &Self, faults: &'t Faults) -> bool;

    /// How many items it holds where nothing shares its nodes, if that can be known.
    fn held(&self) -> Option<u64>;

    /// Makes the call. What it hands out takes the receiver's place. Answers whether there was something to do.
    fn perform(&mut self, call: C, number: u64, faults: &'t Faults) -> Result<bool, AllocError>;
}

// One that is made as this receiver.
pub(crate) fn filled<'t, K, C: Copy, S: Subject<'t, K, C>>(
    faults: &'t Faults,
    put: C,
    receiver: &Receiver<'_>,
) -> Result<S, AllocError> {
    let mut subject = S::start(receiver.variant, faults)?;
    for number in receiver.numbers {
        subject.perform(put, *number, faults)?;
    }
    Ok(subject)
}
