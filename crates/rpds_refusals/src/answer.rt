//! What calls answer and look-ups find, as the checks and long runs take it.
use rpds_core::lend::ValueMutError;
use rpds_faults::FailingItem;
use std::alloc::AllocError;
use std::hash::{DefaultHasher, Hash, Hasher};

/// Whether one is below the other by each comparison, and what they feed to a hasher differs.
pub fn is_below<T: Ord + Hash>(lesser: &T, greater: &T) -> bool {
    let mut state = DefaultHasher::new();
    lesser.hash(&mut state);
    let fed = state.finish();
    greater.hash(&mut state);
    *lesser != *greater
        && *lesser < *greater
        && lesser.cmp(greater).is_lt()
        && state.finish() != fed
}

/// An item or a value that is a number.
pub trait Numbered {
    /// Which number it is.
    fn number(&self) -> u64;

    /// Makes it this number.
    fn set_number(&mut self, number: u64);
}

impl Numbered for u64 {
    fn number(&self) -> u64 {
        *self
    }

    fn set_number(&mut self, number: u64) {
        *self = number;
    }
}

impl Numbered for FailingItem<'_> {
    fn number(&self) -> u64 {
        self.number
    }

    fn set_number(&mut self, number: u64) {
        self.number = number;
    }
}

/// Whether there is an item, which has this number.
pub fn has_number<T: Numbered>(found: Option<&T>, number: u64) -> bool {
    match found {
        Some(item) => item.number() == number,
        None => false,
    }
}

/// What a call handed out that always has something to do.
pub fn always_some<S: Drop>(made: Result<S, AllocError>) -> Result<Option<S>, AllocError> {
    match made {
        Ok(made) => Ok(Some(made)),
        Err(error) => Err(error),
    }
}

/// What a call answered that always has something to do.
pub fn always_true(answer: Result<(), AllocError>) -> Result<bool, AllocError> {
    match answer {
        Ok(()) => Ok(true),
        Err(error) => Err(error),
    }
}

/// What a call answered whose closure fails once it is called: then there was nothing to do. An error before that is handed on. That
/// the closure's error got lost is an error too: the checks name the call, which was refused nothing.
pub fn handed_on<S: Drop>(
    made: Result<S, AllocError>,
    was_called: bool,
) -> Result<bool, AllocError> {
    if made.is_err() == was_called {
        Ok(false)
    } else {
        Err(AllocError)
    }
}

/// What a call handed out takes the receiver's place.
pub fn put_in_place<S: Drop>(
    receiver: &mut S,
    made: Result<S, AllocError>,
) -> Result<bool, AllocError> {
    match made {
        Ok(made) => {
            *receiver = made;
            Ok(true)
        }
        Err(error) => Err(error),
    }
}

/// The same of a call that hands out something only where there is something to do.
pub fn put_if_some<S: Drop>(
    receiver: &mut S,
    made: Result<Option<S>, AllocError>,
) -> Result<bool, AllocError> {
    match made {
        Ok(Some(made)) => {
            *receiver = made;
            Ok(true)
        }
        Ok(None) => Ok(false),
        Err(error) => Err(error),
    }
}

/// Writes through a lent value, and tells whether there was one.
pub fn write_number<T: Numbered>(found: Option<&mut T>, number: u64) -> bool {
    match found {
        Some(value) => {
            value.set_number(number);
            true
        }
        None => false,
    }
}

/// The same of `item_mut` and `value_mut`.
pub fn write_number_if_lent<T: Numbered>(
    found: Result<&mut T, ValueMutError>,
    number: u64,
) -> Result<bool, AllocError> {
    match found {
        Ok(value) => {
            value.set_number(number);
            Ok(true)
        }
        Err(ValueMutError::Absent) => Ok(false),
        Err(ValueMutError::NoMemory) => Err(AllocError),
    }
}
