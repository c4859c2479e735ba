//! Laws of the words that the contracts of hashed maps and sets speak in: what a caller needs from one call to the next.
//!
//! The functions have no code. A caller cites a law by calling it, as `put_is_lawful::<u64, u64, RandomState>();`: its clauses
//! are then among the facts of the caller's proof. `docs/CALLING.md` lists them.
ghost use Rattle.std.specs.Prelude.{◌≡◌, ◌≤◌, ◌+◌, ◌||◌, if◌then◌else◌, ℕ, Bool, true, false, List, [], ◌∷◌, Some, None};
ghost use Rattle.std.specs.Prelude.{IsPermutation, IsSome, filter, is_some, length, slice_get};
ghost use Rattle.std.specs.List.{IsDistinct};
ghost use Rattle.std.specs.Map.{keys_of};
ghost use Rattle.std.specs.Option.{option_map, option_or};
ghost use Rattle.rpds_hash_trie.specs.HashChanges.{IsPut};
ghost use Rattle.rpds_hash_trie.specs.HashedMap.{HashedMap, find, without};
ghost use Rattle.rpds_hash.specs.HashDifferences.{differences};
ghost use Rattle.rpds_hash.specs.HashMerges.{differ, value_of};
ghost use Rattle.rpds_hash.specs.HashedSet.{HashedSet, IsPutMember, find_member, is_disjoint, is_subset, without_member};
ghost use Rattle.rpds_hash.specs.PairsEqual.{pairs_equal};

use rpds_core::key::HashKey;
use std::hash::Hash;

/// Looking up among pairs of distinct keys, as those of each map are: their order doesn't matter, and where each key finds
/// the same pair they differ in their order alone; each pair is found by its key, equal keys find the same pair, and its key
/// is equal to them.
pub fn find_is_lawful<K: Eq, V>()
    ensures permuted { (es fs : List (K × V)) → IsPermutation es fs → IsDistinct K.eq (keys_of fs)
        → (k : K) → find K.eq k fs ≡ find K.eq k es }
    ensures alike { (es fs : List (K × V)) → IsDistinct K.eq (keys_of es) → IsDistinct K.eq (keys_of fs)
        → ((k : K) → find K.eq k es ≡ find K.eq k fs) → IsPermutation es fs }
    ensures at { (es : List (K × V)) → (i : ℕ) → (p : K × V) → IsDistinct K.eq (keys_of es) → slice_get es i ≡ Some p
        → find K.eq p.0 es ≡ Some p }
    ensures same { (j k : K) → (es : List (K × V)) → K.eq j k ≡ true
        → find K.eq j es ≡ find K.eq k es }
    ensures tied { (k : K) → (es : List (K × V)) → (p : K × V) → find K.eq k es ≡ Some p
        → K.eq p.0 k ≡ true }
{}

/// A form of a key, as a `&str` for a `String`, finds what a key finds that it is a form of, and without it the same is left.
/// What was taken out by a form isn't found by it.
pub fn form_is_lawful<K: Eq + Hash, V, Q: HashKey<K>>()
    ensures found { (form : Q) → (k : K) → (es : List (K × V)) → Q.same k (Q.seen form) ≡ true
        → find Q.same (Q.seen form) es ≡ find K.eq k es }
    ensures left { (form : Q) → (k : K) → (es : List (K × V)) → Q.same k (Q.seen form) ≡ true
        → without Q.same (Q.seen form) es ≡ without K.eq k es }
    ensures absent { (form : Q) → (es : List (K × V))
        → find Q.same (Q.seen form) (without Q.same (Q.seen form) es) ≡ None }
{}

/// The same among the members of a set.
pub fn member_form_is_lawful<T: Eq + Hash, Q: HashKey<T>>()
    ensures found { (form : Q) → (x : T) → (ms : List T) → Q.same x (Q.seen form) ≡ true
        → find_member Q.same (Q.seen form) ms ≡ find_member T.eq x ms }
    ensures left { (form : Q) → (x : T) → (ms : List T) → Q.same x (Q.seen form) ≡ true
        → without_member Q.same (Q.seen form) ms ≡ without_member T.eq x ms }
    ensures absent { (form : Q) → (ms : List T)
        → find_member Q.same (Q.seen form) (without_member Q.same (Q.seen form) ms) ≡ None }
{}

/// A form of this key, as a `&str` that reads as a `String`, finds what the key finds, also once the key was put in. Any other form
/// finds then what it found before. A key is equal to itself. To be called with a key that is put in next.
pub fn put_form_is_lawful<K: Eq + Hash, V, Q: HashKey<K>>(key: &K, form: Q)
    ensures found { Q.same key.now (Q.seen form) ≡ true → (es : List (K × V))
        → find Q.same (Q.seen form) es ≡ find K.eq key.now es }
    ensures others { Q.same key.now (Q.seen form) ≡ false → (value : V) → (old new : List (K × V))
        → ((k : K) → find K.eq k new ≡ find K.eq k ((key.now, value) ∷ old))
        → find Q.same (Q.seen form) new ≡ find Q.same (Q.seen form) old }
    ensures itself { K.eq key.now key.now ≡ true }
{}

/// Two maps, of pairs with distinct keys each, are equal by `==` where each key finds the same pair in both.
pub fn equal_is_lawful<K: Eq, V: Eq>()
    ensures { (es fs : List (K × V)) → IsDistinct K.eq (keys_of es) → IsDistinct K.eq (keys_of fs)
        → ((k : K) → find K.eq k es ≡ find K.eq k fs) → pairs_equal K.eq V.eq es fs ≡ true }
{}

/// A map with a pair put in, whose keys are distinct as those of each map: the pair is found, each other key is found as
/// before, and there is one more unless an equal key was there.
pub fn put_is_lawful<K: Eq, V, H>()
    ensures found { (p : K × V) → (old new : HashedMap K V H) → IsPut K.eq p old new → IsDistinct K.eq (keys_of new.entries)
        → find K.eq p.0 new.entries ≡ Some p }
    ensures others { (p : K × V) → (old new : HashedMap K V H) → IsPut K.eq p old new → IsDistinct K.eq (keys_of new.entries)
        → (k : K) → K.eq p.0 k ≡ false → find K.eq k new.entries ≡ find K.eq k old.entries }
    ensures all { (p : K × V) → (old new : HashedMap K V H) → IsPut K.eq p old new → IsDistinct K.eq (keys_of new.entries)
        → (k : K) → find K.eq k new.entries ≡ find K.eq k (p ∷ old.entries) }
    ensures has { (p : K × V) → (old new : HashedMap K V H) → IsPut K.eq p old new → IsDistinct K.eq (keys_of new.entries)
        → (k : K) → is_some (find K.eq k new.entries) ≡ (K.eq p.0 k || is_some (find K.eq k old.entries)) }
    ensures size { (p : K × V) → (old new : HashedMap K V H) → IsPut K.eq p old new → IsDistinct K.eq (keys_of old.entries)
        → length new.entries ≡ length old.entries + (if is_some (find K.eq p.0 old.entries) then 0 else 1) }
{}

/// Without a key it isn't found, each other key is found as before, the keys are distinct still, and there is one less where
/// it was there.
pub fn without_is_lawful<K: Eq, V>()
    ensures absent { (k : K) → (es : List (K × V)) → find K.eq k (without K.eq k es) ≡ None }
    ensures others { (j k : K) → (es : List (K × V)) → K.eq k j ≡ false
        → find K.eq j (without K.eq k es) ≡ find K.eq j es }
    ensures distinct { (k : K) → (es : List (K × V)) → IsDistinct K.eq (keys_of es)
        → IsDistinct K.eq (keys_of (without K.eq k es)) }
    ensures size { (k : K) → (es : List (K × V)) → IsDistinct K.eq (keys_of es)
        → length (without K.eq k es) + (if is_some (find K.eq k es) then 1 else 0) ≡ length es }
{}

/// In the differences of two maps, of pairs with distinct keys each, a key is found exactly where its values differ, with the one
/// before and the one after. Their keys are distinct.
pub fn diff_is_lawful<K: Eq, V: PartialEq>()
    ensures found { (k : K) → (old new : List (K × V)) → IsDistinct K.eq (keys_of old)
        → option_map (λ d. d.1) (find K.eq k (differences K.eq V.eq old new))
        ≡ (let before = value_of K.eq k old in let after = value_of K.eq k new in
        if differ V.eq before after then Some (before, after) else None) }
    ensures distinct { (old new : List (K × V)) → IsDistinct K.eq (keys_of old) → IsDistinct K.eq (keys_of new)
        → IsDistinct K.eq (keys_of (differences K.eq V.eq old new)) }
{}

/// From a map to itself nothing changed.
pub fn unchanged_is_lawful<K: Eq, V: Eq>()
    ensures { (es : List (K × V)) → IsDistinct K.eq (keys_of es) → differences K.eq V.eq es es ≡ [] }
{}

/// A union and what the maps have in common, which an `intersection` has, are together as large as both maps. It is no smaller than
/// the first.
pub fn union_is_lawful<K: Eq, V>()
    ensures size { (es others united : List (K × V)) → IsDistinct K.eq (keys_of es) → IsDistinct K.eq (keys_of others)
        → IsDistinct K.eq (keys_of united)
        → ((k : K) → find K.eq k united ≡ option_or (find K.eq k es) (find K.eq k others))
        → length united + length (filter (λ p. is_some (find K.eq p.0 others)) es) ≡ length es + length others }
    ensures least { (es others united : List (K × V)) → IsDistinct K.eq (keys_of es) → IsDistinct K.eq (keys_of united)
        → ((k : K) → find K.eq k united ≡ option_or (find K.eq k es) (find K.eq k others))
        → length es ≤ length united }
{}

/// Looking up among distinct members, as those of each set are: their order doesn't matter, and where each value finds the
/// same member they differ in their order alone; each member is found by itself, and a member that is found is equal to the
/// value.
pub fn find_member_is_lawful<T: Eq>()
    ensures permuted { (ms ns : List T) → IsPermutation ms ns → IsDistinct T.eq ns
        → (x : T) → find_member T.eq x ns ≡ find_member T.eq x ms }
    ensures alike { (ms ns : List T) → IsDistinct T.eq ms → IsDistinct T.eq ns
        → ((x : T) → find_member T.eq x ms ≡ find_member T.eq x ns) → IsPermutation ms ns }
    ensures at { (ms : List T) → (i : ℕ) → (m : T) → IsDistinct T.eq ms → slice_get ms i ≡ Some m
        → find_member T.eq m ms ≡ Some m }
    ensures tied { (x : T) → (ms : List T) → (m : T) → find_member T.eq x ms ≡ Some m
        → T.eq m x ≡ true }
{}

/// A set with a value put in, whose members are distinct as those of each set: the value is found, each other value is found
/// as before, and there is one more unless an equal one was there.
pub fn put_member_is_lawful<T: Eq, H>()
    ensures found { (x : T) → (old new : HashedSet T H) → IsPutMember T.eq x old new → IsDistinct T.eq new.members
        → find_member T.eq x new.members ≡ Some x }
    ensures others { (x : T) → (old new : HashedSet T H) → IsPutMember T.eq x old new → IsDistinct T.eq new.members
        → (y : T) → T.eq x y ≡ false → find_member T.eq y new.members ≡ find_member T.eq y old.members }
    ensures has { (x : T) → (old new : HashedSet T H) → IsPutMember T.eq x old new → IsDistinct T.eq new.members
        → (y : T) → is_some (find_member T.eq y new.members) ≡ (T.eq x y || is_some (find_member T.eq y old.members)) }
    ensures size { (x : T) → (old new : HashedSet T H) → IsPutMember T.eq x old new → IsDistinct T.eq old.members
        → length new.members ≡ length old.members + (if is_some (find_member T.eq x old.members) then 0 else 1) }
{}

/// Without a value it isn't found, each other value is found as before, the members are distinct still, and there is one less
/// where it was there.
pub fn without_member_is_lawful<T: Eq>()
    ensures absent { (x : T) → (ms : List T)
        → find_member T.eq x (without_member T.eq x ms) ≡ None }
    ensures others { (x y : T) → (ms : List T) → T.eq x y ≡ false
        → find_member T.eq y (without_member T.eq x ms) ≡ find_member T.eq y ms }
    ensures distinct { (x : T) → (ms : List T) → IsDistinct T.eq ms
        → IsDistinct T.eq (without_member T.eq x ms) }
    ensures size { (x : T) → (ms : List T) → IsDistinct T.eq ms
        → length (without_member T.eq x ms) + (if is_some (find_member T.eq x ms) then 1 else 0) ≡ length ms }
{}

/// A set is a subset of another exactly where each value that is found in it is found in the other. Two sets are disjoint
/// exactly where none that is found in the first is found in the second. Equal values find the same member.
pub fn subset_is_lawful<T: Eq>()
    ensures found { (ms others : List T) → is_subset T.eq ms others ≡ true
        → (x : T) → IsSome (find_member T.eq x ms) → IsSome (find_member T.eq x others) }
    ensures subset { (ms others : List T) → ((x : T) → IsSome (find_member T.eq x ms) → IsSome (find_member T.eq x others))
        → is_subset T.eq ms others ≡ true }
    ensures absent { (ms others : List T) → is_disjoint T.eq ms others ≡ true
        → (x : T) → IsSome (find_member T.eq x ms) → find_member T.eq x others ≡ None }
    ensures disjoint { (ms others : List T) → ((x : T) → IsSome (find_member T.eq x ms) → find_member T.eq x others ≡ None)
        → is_disjoint T.eq ms others ≡ true }
    ensures same { (x y : T) → (ms : List T) → T.eq x y ≡ true
        → find_member T.eq x ms ≡ find_member T.eq y ms }
{}

/// A union of two sets and what they have in common, which an `intersection` has, are together as large as both sets. It is no
/// smaller than the first.
pub fn union_of_sets_is_lawful<T: Eq>()
    ensures size { (ms others united : List T) → IsDistinct T.eq ms → IsDistinct T.eq others → IsDistinct T.eq united
        → ((x : T) → find_member T.eq x united ≡ option_or (find_member T.eq x ms) (find_member T.eq x others))
        → length united + length (filter (λ m. is_some (find_member T.eq m others)) ms) ≡ length ms + length others }
    ensures least { (ms others united : List T) → IsDistinct T.eq ms → IsDistinct T.eq united
        → ((x : T) → find_member T.eq x united ≡ option_or (find_member T.eq x ms) (find_member T.eq x others))
        → length ms ≤ length united }
{}
