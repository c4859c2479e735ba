//! How containers are printed.
use std::alloc::{AllocError, Global};
use std::fmt::{Debug, Display};

/// Whether an empty container, one with items, and that or another one with three places for each item have these texts: as
/// `Display` writes them, and as `Debug` does, the last one on lines of its own.
pub fn texts_are<T: Display + Debug>(
    alloc: Global,
    (none, some, last): (&T, &T, &T),
    shown: &str,
    debugged: &str,
) -> Result<bool, AllocError> {
    let text = format!(in alloc; "{none} {some} {last:3}")?;
    if text.as_str() != shown {
        return Ok(false);
    }
    let text = format!(in alloc; "{none:?} {some:?} {last:#?}")?;
    Ok(text.as_str() == debugged)
}
