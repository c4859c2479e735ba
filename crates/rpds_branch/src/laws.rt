//! Laws of the words that the contracts of branches and merges speak in. A caller cites a law by calling it; the functions have no
//! code.
ghost use Rattle.std.specs.Prelude.{◌≡◌, if◌then◌else◌, false, true, [], List, option_map};
ghost use Rattle.std.specs.Ordering.{is_eq};
ghost use Rattle.std.specs.declared.cmp.Ordering.TheVariants.{Equal};
ghost use Rattle.rpds_tree.specs.Altered.{with_found};
ghost use Rattle.rpds_tree.specs.Differences.{differ, differences, value_of};
ghost use Rattle.rpds_tree.specs.Merges.{is_conflict_at, merged_at};
ghost use Rattle.rpds_tree.specs.Pairs.{IsAscending, find, put, without};

use rpds_core::key::OrdKey;

/// A key that is copied from other pairs finds what it finds there, and each other key finds what it found. The keys still ascend.
/// A change and its revert is no change: a pair that was put in, or a key that was taken out, is as before once its key is copied
/// from the pairs that there were.
pub fn copy_is_lawful<K: Ord, V, Q: OrdKey<K>>()
    ensures found { (q : Q) → (k : K) → (others es : List (K × V)) →
        find K.cmp k (with_found K.cmp (Q.order (Q.seen q)) (find Q.order (Q.seen q) others) es)
        ≡ (if is_eq (Q.order (Q.seen q) k) then find K.cmp k others else find K.cmp k es) }
    ensures ascending { (q : Q) → (others es : List (K × V)) → IsAscending K.cmp es
        → IsAscending K.cmp (with_found K.cmp (Q.order (Q.seen q)) (find Q.order (Q.seen q) others) es) }
    ensures put_back { (q : Q) → (p : K × V) → (es : List (K × V)) → IsAscending K.cmp es → Q.order (Q.seen q) p.0 ≡ Equal
        → with_found K.cmp (Q.order (Q.seen q)) (find Q.order (Q.seen q) es) (put K.cmp p es) ≡ es }
    ensures taken_back { (q : Q) → (es : List (K × V)) → IsAscending K.cmp es
        → with_found K.cmp (Q.order (Q.seen q)) (find Q.order (Q.seen q) es) (without Q.order (Q.seen q) es) ≡ es }
{}

/// Pairs in which each key finds the same are the same.
pub fn same_is_lawful<K: Ord, V>()
    ensures { (es others : List (K × V)) → IsAscending K.cmp es → IsAscending K.cmp others
        → ((k : K) → find K.cmp k es ≡ find K.cmp k others) → es ≡ others }
{}

/// From pairs to themselves nothing changed, as in a branch that is new. Where nothing changed, no key has another value.
pub fn unchanged_is_lawful<K: Ord, V: Eq>()
    ensures none { (es : List (K × V)) → differences K.cmp V.eq es es ≡ [] }
    ensures same { (base es : List (K × V)) → IsAscending K.cmp base → differences K.cmp V.eq base es ≡ []
        → (k : K) → differ V.eq (value_of K.cmp k base) (value_of K.cmp k es) ≡ false }
{}

/// A key that they didn't change is as ours has it in a merge, and one that they alone changed is as theirs has it. One that both
/// changed alike is no conflict, one that both changed otherwise is one, and is as ours has it. A conflict is one from either side.
pub fn merge_is_lawful<K: Ord, V: Eq>()
    ensures ours { (base ours theirs : List (K × V)) → (k : K)
        → differ V.eq (value_of K.cmp k base) (value_of K.cmp k theirs) ≡ false
        → (merged_at K.cmp V.eq base ours theirs k ≡ find K.cmp k ours)
        × (is_conflict_at K.cmp V.eq base ours theirs k ≡ false) }
    ensures theirs { (base ours theirs : List (K × V)) → (k : K)
        → differ V.eq (value_of K.cmp k base) (value_of K.cmp k ours) ≡ false
        → differ V.eq (value_of K.cmp k base) (value_of K.cmp k theirs) ≡ true
        → (merged_at K.cmp V.eq base ours theirs k ≡ find K.cmp k theirs)
        × (is_conflict_at K.cmp V.eq base ours theirs k ≡ false) }
    ensures alike { (base ours theirs : List (K × V)) → (k : K)
        → differ V.eq (value_of K.cmp k ours) (value_of K.cmp k theirs) ≡ false
        → is_conflict_at K.cmp V.eq base ours theirs k ≡ false }
    ensures apart { (base ours theirs : List (K × V)) → (k : K)
        → differ V.eq (value_of K.cmp k base) (value_of K.cmp k ours) ≡ true
        → differ V.eq (value_of K.cmp k base) (value_of K.cmp k theirs) ≡ true
        → differ V.eq (value_of K.cmp k ours) (value_of K.cmp k theirs) ≡ true
        → (merged_at K.cmp V.eq base ours theirs k ≡ find K.cmp k ours)
        × (is_conflict_at K.cmp V.eq base ours theirs k ≡ true) }
    ensures turned { (base ours theirs : List (K × V)) → (k : K) →
        is_conflict_at K.cmp V.eq base theirs ours k ≡ is_conflict_at K.cmp V.eq base ours theirs k }
{}

/// A merge with a branch that changed nothing is as ours. A merge of a branch that changed nothing is as theirs: no key has another
/// value. Neither has a conflict.
pub fn merge_with_unchanged_is_lawful<K: Ord, V: Eq>()
    ensures ours { (base ours : List (K × V)) → (k : K) →
        merged_at K.cmp V.eq base ours base k ≡ find K.cmp k ours }
    ensures theirs { (base theirs : List (K × V)) → (k : K) →
        differ V.eq (option_map (λ p. p.1) (merged_at K.cmp V.eq base base theirs k)) (value_of K.cmp k theirs) ≡ false }
    ensures settled { (base ours theirs : List (K × V)) → (k : K) →
        (is_conflict_at K.cmp V.eq base ours base k ≡ false) × (is_conflict_at K.cmp V.eq base base theirs k ≡ false) }
{}
