//! Lists in ascending order, of which ordered maps and sets are built.
ghost use Rattle.std.specs.Prelude.{◌≡◌, ◌↔◌, ℕ, Some, None, List, map};
ghost use Rattle.std.specs.IoError.{error_kind};
ghost use Rattle.std.specs.List.Sorted.{IsStrictlySortedBy};
ghost use Rattle.std.specs.Map.{keys_of};
ghost use Rattle.rpds_tree.specs.Sorted.{error_text, first_out_of_order, kind_of_error, IsFirstOutOfOrder};
ghost use Rattle.rpds_tree.specs.declared.sorted.SortedError.TheVariants.{NoMemory};

use rpds_red_black::sorted_item::SortedItem;
use std::alloc::{AllocError, Allocator};
use std::error::Error;
use std::{fmt, io};

/// Why no container was built of a list.
#[derive(Clone, Copy, Debug, PartialEq, Eq)]
pub enum SortedError {
    /// The item at this position, counted from 0, is the first that isn't above the one before it.
    NotAscending(usize),
    /// An allocation failed.
    NoMemory,
}

impl fmt::Display for SortedError {
    ghost output = { λ error. Some (error_text error) };

    fn fmt<W: fmt::Write>(&self, f: &mut fmt::Formatter<W>) -> fmt::Result {
        match self {
            SortedError::NotAscending(position) => {
                write!(f, "item {position} isn't above the one before it")
            }
            SortedError::NoMemory => f.write_str("no memory"),
        }
    }
}

impl Error for SortedError {}

impl From<AllocError> for SortedError {
    ghost from_gives = { λ _ error. error ≡ NoMemory };

    fn from(_error: AllocError) -> SortedError {
        SortedError::NoMemory
    }
}

/// For `?` in a function that returns an `io::Result`: `InvalidInput`, without the position, or `OutOfMemory`. Match the error where
/// the position is wanted.
impl From<SortedError> for io::Error {
    ghost from_gives = { λ error e. error_kind e ≡ kind_of_error error };

    fn from(error: SortedError) -> io::Error {
        io::Error::from(match error {
            SortedError::NotAscending(_) => io::ErrorKind::InvalidInput,
            SortedError::NoMemory => io::ErrorKind::OutOfMemory,
        })
    }
}

// The position of the first item whose key isn't above the one before it.
#[tactic(auto, unfolding(crate::specs::Sorted::first_out_of_order))]
pub(crate) fn first_out_of_order<K: Ord, V, A: Allocator, X: SortedItem<K, V, A>>(
    items: &[X],
) -> Option<usize>
    ensures { result ≡ first_out_of_order K.cmp (keys_of (map X.pair items.now)) }
{
    let (first, rest) = items.split_first()?;
    let mut last = first.key();
    for (passed, item) in rest.iter().enumerate() {
        let key = item.key();
        if !last.cmp(key).is_lt() {
            return Some(passed + 1);
        }
        last = key;
    }
    None
}

/// `first_out_of_order` says where keys stop ascending: nowhere exactly where they ascend to the end, and else at the
/// position up to which they do. The call has no code: a caller's proof cites its clauses.
pub fn first_out_of_order_is_lawful<K: Ord>()
    ensures nowhere { (keys : List K) →
        (first_out_of_order K.cmp keys ≡ None) ↔ IsStrictlySortedBy K.cmp keys }
    ensures somewhere { (position : ℕ) → (keys : List K) →
        (first_out_of_order K.cmp keys ≡ Some position) ↔ IsFirstOutOfOrder K.cmp position keys }
{}
