//! Laws of the words that the contracts of histories speak in. A caller cites a law by calling it; the functions have no code.
ghost use Rattle.std.specs.Prelude.{◌≡◌, ◌+◌, ◌-◌, ◌<◌, ◌++◌, ◌∷◌, [], ℕ, Some, drop, length, slice_get, take};
ghost use Rattle.rpds_history.specs.HistoryContents.{Contents, recorded, redone, undone, versions_of};

/// To undo what was recorded is to be where one was, and what was undone before it stays forgotten. To redo what was undone,
/// or to undo what was redone, changes nothing in all.
#[tactic(auto, using(crate::proofs::Versions::forth_back, crate::proofs::Versions::back_forth))]
pub fn undo_is_lawful<T>()
    ensures back { (next : T) → (h : Contents T) → undone (recorded next h) ≡ record h { future = next ∷ [] } }
    ensures forgets { (next : T) → (h : Contents T) → redone (recorded next h) ≡ recorded next h }
    ensures redo { (h : Contents T) → 0 < length h.past → redone (undone h) ≡ h }
    ensures undo { (h : Contents T) → 0 < length h.future → undone (redone h) ≡ h }
{}

/// The versions stay the same in an undo and a redo, and the present one is that of its number. A record puts a version behind
/// those up to the present one, and a limit leaves the oldest out. Two histories of the same versions at the same number are
/// the same.
pub fn go_to_is_lawful<T>()
    ensures size { (h : Contents T) → length (versions_of h) ≡ length h.past + 1 + length h.future }
    ensures present { (h : Contents T) → slice_get (versions_of h) (length h.past) ≡ Some h.present }
    ensures undo { (h : Contents T) → versions_of (undone h) ≡ versions_of h }
    ensures redo { (h : Contents T) → versions_of (redone h) ≡ versions_of h }
    ensures more { (next : T) → (h : Contents T) →
        versions_of (recorded next h) ≡ take (length h.past + 1) (versions_of h) ++ next ∷ [] }
    ensures limit { (most : ℕ) → (h : Contents T) →
        versions_of (record h { past = take most h.past }) ≡ drop (length h.past - most) (versions_of h) }
    ensures same { (g h : Contents T) → versions_of g ≡ versions_of h → length g.past ≡ length h.past → g ≡ h }
{}
