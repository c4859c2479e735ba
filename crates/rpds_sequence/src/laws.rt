//! Laws of the words that the contracts of sequences and vectors speak in. A caller cites a law by calling it; the functions have
//! no code.
ghost use Rattle.std.specs.Prelude.{◌≡◌, ◌≤◌, ℕ, List, Some, length, slice_get};
ghost use Rattle.std.specs.List.{insert, remove};

/// To take out what was put in at an index is to be as before, and so is to put in again what was taken out.
pub fn insert_is_lawful<T>()
    ensures removed { (items : List T) → (i : ℕ) → (item : T) → i ≤ length items
        → remove (insert items i item) i ≡ items }
    ensures restored { (items : List T) → (i : ℕ) → (item : T) → slice_get items i ≡ Some item
        → insert (remove items i) i item ≡ items }
{}
