//! Laws of the words that the contracts of ordered maps and sets speak in: what a caller needs from one call to the next.
//!
//! The functions have no code. A caller cites a law by calling it, as `put_is_lawful::<u64, u64>();`: its clauses are then
//! among the facts of the caller's proof. `docs/API.md` lists them.
ghost use Rattle.std.specs.Prelude.{◌≡◌, ◌≢◌, ◌+◌, ◌&&◌, ◌||◌, if◌then◌else◌, ℕ, Bool, false, true, List, [], ◌∷◌, ◌++◌, Some, None};
ghost use Rattle.std.specs.Prelude.{IsSome, IsTrue, is_none, is_some, length, not, reverse, slice_get, sum_by, option_map, unwrap_or};
ghost use Rattle.std.specs.List.Sorted.{IsStrictlySortedBy};
ghost use Rattle.std.specs.Map.{keys_of};
ghost use Rattle.std.specs.Option.{option_or};
ghost use Rattle.std.specs.Ordering.{is_eq, is_le};
ghost use Rattle.std.specs.declared.cmp.Ordering.TheVariants.{Equal};
ghost use Rattle.std.specs.declared.ops.Bound.{Bound};
ghost use Rattle.std.specs.declared.ops.Bound.TheVariants.{Excluded, Included, Unbounded};
ghost use Rattle.rpds_tree.specs.Algebra.{both_in, members_of_both, members_of_union, members_only_in, only_in, union_of};
ghost use Rattle.rpds_tree.specs.Differences.{differ, differences, value_of};
ghost use Rattle.rpds_red_black.specs.Neighbors.{IsCeiling, IsFloor, ceiling, floor};
ghost use Rattle.rpds_tree.specs.NearMembers.{IsCeilingMember, IsFloorMember};
ghost use Rattle.rpds_tree.specs.OrderedSet.{ceiling_member, find_member, floor_member, is_disjoint, is_subset, members_outside, members_within};
ghost use Rattle.rpds_tree.specs.OrderedSet.{put_member, put_members, without_member};
ghost use Rattle.rpds_red_black.specs.Pairs.{IsAscending, find, put, put_all, without};
ghost use Rattle.rpds_red_black.specs.Positions.{rank, rank_member};
ghost use Rattle.rpds_red_black.specs.Ranges.{is_from, is_up_to, outside, within};

pub use crate::sorted::first_out_of_order_is_lawful;
use rpds_core::key::OrdKey;

/// Looking up: equal keys find the same pair, whose key is equal to them; where keys ascend, each pair is found by its key.
pub fn find_is_lawful<K: Ord, V>()
    ensures same { (j k : K) → (es : List (K × V)) → K.cmp j k ≡ Equal
        → find K.cmp j es ≡ find K.cmp k es }
    ensures tied { (k : K) → (es : List (K × V)) → (p : K × V) → find K.cmp k es ≡ Some p
        → K.cmp k p.0 ≡ Equal }
    ensures at { (es : List (K × V)) → (i : ℕ) → (p : K × V) → IsAscending K.cmp es → slice_get es i ≡ Some p
        → find K.cmp p.0 es ≡ Some p }
    ensures keys { (es : List (K × V)) → IsAscending K.cmp es
        → IsStrictlySortedBy K.cmp (keys_of es) }
{}

/// After an insertion the new pair is found, each other key is found as before, and all other pairs are as before. The keys
/// still ascend, and there is one more unless an equal one was there. A replaced value leaves the keys as they are.
pub fn put_is_lawful<K: Ord, V>()
    ensures found { (p : K × V) → (es : List (K × V)) → find K.cmp p.0 (put K.cmp p es) ≡ Some p }
    ensures others { (p : K × V) → (es : List (K × V)) → (j : K) → K.cmp p.0 j ≢ Equal
        → find K.cmp j (put K.cmp p es) ≡ find K.cmp j es }
    ensures has { (p : K × V) → (es : List (K × V)) → (j : K) →
        is_some (find K.cmp j (put K.cmp p es)) ≡ (is_eq (K.cmp j p.0) || is_some (find K.cmp j es)) }
    ensures rest { (p : K × V) → (es : List (K × V)) →
        without K.cmp p.0 (put K.cmp p es) ≡ without K.cmp p.0 es }
    ensures ascending { (p : K × V) → (es : List (K × V)) →
        IsAscending K.cmp es → IsAscending K.cmp (put K.cmp p es) }
    ensures size { (p : K × V) → (es : List (K × V)) → IsAscending K.cmp es
        → length (put K.cmp p es) ≡ length es + (if is_some (find K.cmp p.0 es) then 0 else 1) }
    ensures keys { (k : K) → (value : V) → (es : List (K × V)) → (p : K × V) → IsAscending K.cmp es
        → find K.cmp k es ≡ Some p → keys_of (put K.cmp (p.0, value) es) ≡ keys_of es }
{}

/// After insertions, one after another, a key finds the last of the new pairs that have it, and else what it found before.
pub fn put_all_is_lawful<K: Ord, V>()
    ensures { (k : K) → (es more : List (K × V)) →
        find K.cmp k (put_all K.cmp es more) ≡ find K.cmp k (reverse more ++ es) }
{}

/// In pairs that come after others a key is found as in the first, and where it isn't there, as in the second.
pub fn append_is_lawful<K: Ord, V>()
    ensures { (k : K) → (es others : List (K × V)) → find K.cmp k (es ++ others)
        ≡ option_or (find K.cmp k es) (find K.cmp k others) }
{}

/// What a function of the pairs sums up to after an insertion: it has gained the new pair, and lost the one of an equal key.
pub fn sum_of_put_is_lawful<K: Ord, V>()
    ensures { (f : K × V → ℕ) → (p : K × V) → (es : List (K × V)) → IsAscending K.cmp es
        → sum_by f (put K.cmp p es) + unwrap_or (option_map f (find K.cmp p.0 es)) 0 ≡ sum_by f es + f p }
{}

/// After a removal the key isn't found, and each other key is found as before. The keys still ascend, and there is one less
/// where it was there.
pub fn without_is_lawful<K: Ord, V>()
    ensures absent { (k : K) → (es : List (K × V)) → find K.cmp k (without K.cmp k es) ≡ None }
    ensures others { (j k : K) → (es : List (K × V)) →
        K.cmp k j ≢ Equal → find K.cmp j (without K.cmp k es) ≡ find K.cmp j es }
    ensures ascending { (k : K) → (es : List (K × V)) →
        IsAscending K.cmp es → IsAscending K.cmp (without K.cmp k es) }
    ensures size { (k : K) → (es : List (K × V)) → IsAscending K.cmp es
        → length (without K.cmp k es) + (if is_some (find K.cmp k es) then 1 else 0) ≡ length es }
{}

/// Looking up by a form of a key, as by `&str` among `String`s: it finds what a key finds that it is tied with. After an insertion
/// it finds the new pair where it is tied with its key, and else what it found before. After a removal by it, it finds nothing, and
/// each key that it isn't tied with is found as before.
pub fn form_is_lawful<K: Ord, V, Q: OrdKey<K>>()
    ensures same { (q : Q) → (k : K) → (es : List (K × V)) → Q.order (Q.seen q) k ≡ Equal
        → find Q.order (Q.seen q) es ≡ find K.cmp k es }
    ensures tied { (q : Q) → (es : List (K × V)) → (p : K × V) → find Q.order (Q.seen q) es ≡ Some p
        → Q.order (Q.seen q) p.0 ≡ Equal }
    ensures put { (q : Q) → (p : K × V) → (es : List (K × V)) → find Q.order (Q.seen q) (put K.cmp p es)
        ≡ (if is_eq (Q.order (Q.seen q) p.0) then Some p else find Q.order (Q.seen q) es) }
    ensures absent { (q : Q) → (es : List (K × V)) → find Q.order (Q.seen q) (without Q.order (Q.seen q) es) ≡ None }
    ensures others { (q : Q) → (k : K) → (es : List (K × V)) → Q.order (Q.seen q) k ≢ Equal
        → find K.cmp k (without Q.order (Q.seen q) es) ≡ find K.cmp k es }
{}

/// A form of this key, as a `&str` that reads as a `String`, finds the pair that is put in at the key. Any other form finds then
/// what it found before. A key is tied with itself. To be called with a key that is put in next.
pub fn put_form_is_lawful<K: Ord, V, Q: OrdKey<K>>(key: &K, form: Q)
    ensures found { Q.order (Q.seen form) key.now ≡ Equal → (value : V) → (es : List (K × V))
        → find Q.order (Q.seen form) (put K.cmp (key.now, value) es) ≡ Some (key.now, value) }
    ensures others { Q.order (Q.seen form) key.now ≢ Equal → (value : V) → (es : List (K × V))
        → find Q.order (Q.seen form) (put K.cmp (key.now, value) es) ≡ find Q.order (Q.seen form) es }
    ensures itself { K.cmp key.now key.now ≡ Equal }
{}

/// In a range each key within its bounds is found as in the whole, and no other. The keys of a range ascend.
pub fn within_is_lawful<K: Ord, V>()
    ensures found { (start end : Bound K) → (k : K) → (es : List (K × V)) → find K.cmp k (within K.cmp start end es)
        ≡ (if is_from K.cmp start k && is_up_to K.cmp end k then find K.cmp k es else None) }
    ensures ascending { (start end : Bound K) → (es : List (K × V)) →
        IsAscending K.cmp es → IsAscending K.cmp (within K.cmp start end es) }
{}

/// Outside a range each key beyond its bounds is found as in the whole, and no other. The keys ascend. A range and what is outside
/// are together as long as the whole, and their union is the whole.
pub fn outside_is_lawful<K: Ord, V>()
    ensures found { (start end : Bound K) → (k : K) → (es : List (K × V)) → find K.cmp k (outside K.cmp start end es)
        ≡ (if not (is_from K.cmp start k && is_up_to K.cmp end k) then find K.cmp k es else None) }
    ensures ascending { (start end : Bound K) → (es : List (K × V)) →
        IsAscending K.cmp es → IsAscending K.cmp (outside K.cmp start end es) }
    ensures size { (start end : Bound K) → (es : List (K × V)) →
        length (within K.cmp start end es) + length (outside K.cmp start end es) ≡ length es }
    ensures united { (start end : Bound K) → (es : List (K × V)) → IsAscending K.cmp es
        → union_of K.cmp (within K.cmp start end es) (outside K.cmp start end es) ≡ es }
{}

/// What is below a key and then what is above it, as both parts of a `split`, is the whole without the key. What is below it and
/// then what comes from it on is the whole.
pub fn cut_is_lawful<K: Ord, V>()
    ensures apart { (k : K) → (es : List (K × V)) → IsAscending K.cmp es
        → within K.cmp Unbounded (Excluded k) es ++ within K.cmp (Excluded k) Unbounded es ≡ without K.cmp k es }
    ensures whole { (k : K) → (es : List (K × V)) → IsAscending K.cmp es
        → within K.cmp Unbounded (Excluded k) es ++ within K.cmp (Included k) Unbounded es ≡ es }
{}

/// The rank of a key that is there is its pair's position, and each pair's position is its key's rank.
pub fn rank_is_lawful<K: Ord, V>()
    ensures at { (k : K) → (es : List (K × V)) → (p : K × V) → IsAscending K.cmp es → find K.cmp k es ≡ Some p
        → slice_get es (rank K.cmp k es) ≡ Some p }
    ensures found { (es : List (K × V)) → (i : ℕ) → (p : K × V) → IsAscending K.cmp es → slice_get es i ≡ Some p
        → rank K.cmp p.0 es ≡ i }
{}

/// The rank of a key, whether it is there or not, and the pairs from it on are together as many as all. The ranks of two keys
/// differ by the pairs from the lower one on that are below the other.
pub fn range_len_is_lawful<K: Ord, V>()
    ensures from { (k : K) → (es : List (K × V)) →
        rank K.cmp k es + length (within K.cmp (Included k) Unbounded es) ≡ length es }
    ensures between { (j k : K) → (es : List (K × V)) → IsTrue (is_le (K.cmp j k))
        → rank K.cmp j es + length (within K.cmp (Included j) (Excluded k) es) ≡ rank K.cmp k es }
{}

/// The last pair of the range up to a key, which `floor` gives, is the nearest one at or below it; where that range is empty,
/// there is none. A key that is there is its own floor: `floor` gives its pair.
pub fn floor_is_lawful<K: Ord, V>()
    ensures last { (k : K) → (es before : List (K × V)) → (p : K × V) → IsAscending K.cmp es
        → within K.cmp Unbounded (Included k) es ≡ before ++ p ∷ [] → IsFloor K.cmp k es p }
    ensures none { (k : K) → (es : List (K × V)) → within K.cmp Unbounded (Included k) es ≡ []
        → (j : K) → IsTrue (is_le (K.cmp j k)) → find K.cmp j es ≡ None }
    ensures nearest { (k : K) → (es : List (K × V)) → (p : K × V) → IsAscending K.cmp es
        → floor K.cmp k es ≡ Some p → IsFloor K.cmp k es p }
    ensures absent { (k : K) → (es : List (K × V)) → floor K.cmp k es ≡ None
        → (j : K) → IsTrue (is_le (K.cmp j k)) → find K.cmp j es ≡ None }
    ensures own { (k : K) → (es : List (K × V)) → (p : K × V) → IsAscending K.cmp es
        → find K.cmp k es ≡ Some p → floor K.cmp k es ≡ Some p }
{}

/// The first pair of the range from a key on, which `ceiling` gives, is the nearest one at or above it; where that range is
/// empty, there is none. A key that is there is its own ceiling: `ceiling` gives its pair.
pub fn ceiling_is_lawful<K: Ord, V>()
    ensures first { (k : K) → (es after : List (K × V)) → (p : K × V) → IsAscending K.cmp es
        → within K.cmp (Included k) Unbounded es ≡ p ∷ after → IsCeiling K.cmp k es p }
    ensures none { (k : K) → (es : List (K × V)) → within K.cmp (Included k) Unbounded es ≡ []
        → (j : K) → IsTrue (is_le (K.cmp k j)) → find K.cmp j es ≡ None }
    ensures nearest { (k : K) → (es : List (K × V)) → (p : K × V) → IsAscending K.cmp es
        → ceiling K.cmp k es ≡ Some p → IsCeiling K.cmp k es p }
    ensures absent { (k : K) → (es : List (K × V)) → ceiling K.cmp k es ≡ None
        → (j : K) → IsTrue (is_le (K.cmp k j)) → find K.cmp j es ≡ None }
    ensures own { (k : K) → (es : List (K × V)) → (p : K × V) → IsAscending K.cmp es
        → find K.cmp k es ≡ Some p → ceiling K.cmp k es ≡ Some p }
{}

/// In a union a key is found as in the first map, and where it isn't there, as in the second one. The keys ascend. A union and
/// what the maps have in common are together as long as both maps.
pub fn union_is_lawful<K: Ord, V>()
    ensures found { (k : K) → (es others : List (K × V)) → IsAscending K.cmp es
        → find K.cmp k (union_of K.cmp es others) ≡ option_or (find K.cmp k es) (find K.cmp k others) }
    ensures ascending { (es others : List (K × V)) → IsAscending K.cmp others → IsAscending K.cmp (union_of K.cmp es others) }
    ensures size { (es others : List (K × V)) → IsAscending K.cmp es → IsAscending K.cmp others
        → length (union_of K.cmp es others) + length (both_in K.cmp es others) ≡ length es + length others }
{}

/// In an intersection a key is found as in the first map, if the second one has it. The keys ascend. It is as long as that of the
/// maps the other way round.
pub fn intersection_is_lawful<K: Ord, V>()
    ensures found { (k : K) → (es others : List (K × V)) → find K.cmp k (both_in K.cmp es others)
        ≡ (if is_some (find K.cmp k others) then find K.cmp k es else None) }
    ensures ascending { (es others : List (K × V)) → IsAscending K.cmp es → IsAscending K.cmp (both_in K.cmp es others) }
    ensures turned { (es others : List (K × V)) → IsAscending K.cmp es → IsAscending K.cmp others
        → length (both_in K.cmp es others) ≡ length (both_in K.cmp others es) }
{}

/// In a difference a key is found as in the first map, if the second one lacks it. The keys ascend. A difference and what the
/// maps have in common are together as long as the first map.
pub fn difference_is_lawful<K: Ord, V>()
    ensures found { (k : K) → (es others : List (K × V)) → find K.cmp k (only_in K.cmp es others)
        ≡ (if is_none (find K.cmp k others) then find K.cmp k es else None) }
    ensures ascending { (es others : List (K × V)) → IsAscending K.cmp es → IsAscending K.cmp (only_in K.cmp es others) }
    ensures size { (es others : List (K × V))
        → length (both_in K.cmp es others) + length (only_in K.cmp es others) ≡ length es }
{}

/// In the differences of two maps a key is found exactly where its values differ, with the one before and the one after. Their
/// keys ascend.
pub fn diff_is_lawful<K: Ord, V: PartialEq>()
    ensures found { (k : K) → (old new : List (K × V)) → IsAscending K.cmp old
        → option_map (λ d. d.1) (find K.cmp k (differences K.cmp V.eq old new))
        ≡ (let before = value_of K.cmp k old in let after = value_of K.cmp k new in
        if differ V.eq before after then Some (before, after) else None) }
    ensures ascending { (old new : List (K × V)) → IsAscending K.cmp old
        → IsAscending K.cmp (differences K.cmp V.eq old new) }
{}

/// From a map to itself nothing changed. Where nothing changed, no key has another value.
pub fn unchanged_is_lawful<K: Ord, V: Eq>()
    ensures none { (es : List (K × V)) → differences K.cmp V.eq es es ≡ [] }
    ensures same { (old new : List (K × V)) → IsAscending K.cmp old → differences K.cmp V.eq old new ≡ []
        → (k : K) → differ V.eq (value_of K.cmp k old) (value_of K.cmp k new) ≡ false }
{}

/// Looking up a member: equal values find the same one, which is equal to them; where members ascend, each is found by
/// itself.
pub fn find_member_is_lawful<T: Ord>()
    ensures same { (x y : T) → (ms : List T) → T.cmp x y ≡ Equal
        → find_member T.cmp x ms ≡ find_member T.cmp y ms }
    ensures tied { (x : T) → (ms : List T) → (m : T) → find_member T.cmp x ms ≡ Some m
        → T.cmp x m ≡ Equal }
    ensures at { (ms : List T) → (i : ℕ) → (m : T) → IsStrictlySortedBy T.cmp ms → slice_get ms i ≡ Some m
        → find_member T.cmp m ms ≡ Some m }
{}

/// After an insertion into a set the value is found, and each other value is found as before. The members still ascend, and
/// there is one more unless an equal one was there.
pub fn put_member_is_lawful<T: Ord>()
    ensures found { (x : T) → (ms : List T) → find_member T.cmp x (put_member T.cmp x ms) ≡ Some x }
    ensures others { (x y : T) → (ms : List T) → T.cmp x y ≢ Equal
        → find_member T.cmp y (put_member T.cmp x ms) ≡ find_member T.cmp y ms }
    ensures has { (x y : T) → (ms : List T) → is_some (find_member T.cmp y (put_member T.cmp x ms))
        ≡ (is_eq (T.cmp y x) || is_some (find_member T.cmp y ms)) }
    ensures ascending { (x : T) → (ms : List T) →
        IsStrictlySortedBy T.cmp ms → IsStrictlySortedBy T.cmp (put_member T.cmp x ms) }
    ensures size { (x : T) → (ms : List T) → IsStrictlySortedBy T.cmp ms
        → length (put_member T.cmp x ms) ≡ length ms + (if is_some (find_member T.cmp x ms) then 0 else 1) }
{}

/// After a removal from a set the value isn't found, and each other value is found as before. The members still ascend, and
/// there is one less where it was there.
pub fn without_member_is_lawful<T: Ord>()
    ensures absent { (x : T) → (ms : List T)
        → find_member T.cmp x (without_member T.cmp x ms) ≡ None }
    ensures others { (x y : T) → (ms : List T) → T.cmp x y ≢ Equal
        → find_member T.cmp y (without_member T.cmp x ms) ≡ find_member T.cmp y ms }
    ensures ascending { (x : T) → (ms : List T) →
        IsStrictlySortedBy T.cmp ms → IsStrictlySortedBy T.cmp (without_member T.cmp x ms) }
    ensures size { (x : T) → (ms : List T) → IsStrictlySortedBy T.cmp ms
        → length (without_member T.cmp x ms) + (if is_some (find_member T.cmp x ms) then 1 else 0) ≡ length ms }
{}

/// After insertions into a set, one after another, a value finds the last of the new ones that are equal to it, and else what it
/// found before.
pub fn put_members_is_lawful<T: Ord>()
    ensures { (x : T) → (ms more : List T) →
        find_member T.cmp x (put_members T.cmp ms more) ≡ find_member T.cmp x (reverse more ++ ms) }
{}

/// In a range of a set each value within its bounds is found as in the whole, and no other. A range and what is outside are
/// together as large as the whole, and their union is the whole.
pub fn members_within_is_lawful<T: Ord>()
    ensures found { (start end : Bound T) → (x : T) → (ms : List T) → find_member T.cmp x (members_within T.cmp start end ms)
        ≡ (if is_from T.cmp start x && is_up_to T.cmp end x then find_member T.cmp x ms else None) }
    ensures size { (start end : Bound T) → (ms : List T) →
        length (members_within T.cmp start end ms) + length (members_outside T.cmp start end ms) ≡ length ms }
    ensures united { (start end : Bound T) → (ms : List T) → IsStrictlySortedBy T.cmp ms
        → members_of_union T.cmp (members_within T.cmp start end ms) (members_outside T.cmp start end ms) ≡ ms }
{}

/// What is below a value and then what is above it, as both parts of a `split`, is the set without the value. What is below it and
/// then what comes from it on is the set.
pub fn cut_of_set_is_lawful<T: Ord>()
    ensures apart { (x : T) → (ms : List T) → IsStrictlySortedBy T.cmp ms
        → members_within T.cmp Unbounded (Excluded x) ms ++ members_within T.cmp (Excluded x) Unbounded ms
        ≡ without_member T.cmp x ms }
    ensures whole { (x : T) → (ms : List T) → IsStrictlySortedBy T.cmp ms
        → members_within T.cmp Unbounded (Excluded x) ms ++ members_within T.cmp (Included x) Unbounded ms ≡ ms }
{}

/// The rank of a value that is there is its member's position, and each member's position is its rank.
pub fn rank_member_is_lawful<T: Ord>()
    ensures at { (x : T) → (ms : List T) → (m : T) → IsStrictlySortedBy T.cmp ms → find_member T.cmp x ms ≡ Some m
        → slice_get ms (rank_member T.cmp x ms) ≡ Some m }
    ensures found { (ms : List T) → (i : ℕ) → (m : T) → IsStrictlySortedBy T.cmp ms → slice_get ms i ≡ Some m
        → rank_member T.cmp m ms ≡ i }
{}

/// The rank of a value, whether it is there or not, and the members from it on are together as many as all. The ranks of two
/// values differ by the members from the lower one on that are below the other.
pub fn range_len_of_set_is_lawful<T: Ord>()
    ensures from { (x : T) → (ms : List T) →
        rank_member T.cmp x ms + length (members_within T.cmp (Included x) Unbounded ms) ≡ length ms }
    ensures between { (x y : T) → (ms : List T) → IsTrue (is_le (T.cmp x y))
        → rank_member T.cmp x ms + length (members_within T.cmp (Included x) (Excluded y) ms) ≡ rank_member T.cmp y ms }
{}

/// What `floor` gives of a set is the nearest member at or below the value, and none is there where it gives none. A member is its
/// own floor.
pub fn floor_of_set_is_lawful<T: Ord>()
    ensures nearest { (x : T) → (ms : List T) → (m : T) → IsStrictlySortedBy T.cmp ms
        → floor_member T.cmp x ms ≡ Some m → IsFloorMember T.cmp x ms m }
    ensures absent { (x : T) → (ms : List T) → floor_member T.cmp x ms ≡ None
        → (y : T) → IsTrue (is_le (T.cmp y x)) → find_member T.cmp y ms ≡ None }
    ensures own { (x : T) → (ms : List T) → (m : T) → IsStrictlySortedBy T.cmp ms
        → find_member T.cmp x ms ≡ Some m → floor_member T.cmp x ms ≡ Some m }
{}

/// What `ceiling` gives of a set is the nearest member at or above the value, and none is there where it gives none. A member
/// is its own ceiling.
pub fn ceiling_of_set_is_lawful<T: Ord>()
    ensures nearest { (x : T) → (ms : List T) → (m : T) → IsStrictlySortedBy T.cmp ms
        → ceiling_member T.cmp x ms ≡ Some m → IsCeilingMember T.cmp x ms m }
    ensures absent { (x : T) → (ms : List T) → ceiling_member T.cmp x ms ≡ None
        → (y : T) → IsTrue (is_le (T.cmp x y)) → find_member T.cmp y ms ≡ None }
    ensures own { (x : T) → (ms : List T) → (m : T) → IsStrictlySortedBy T.cmp ms
        → find_member T.cmp x ms ≡ Some m → ceiling_member T.cmp x ms ≡ Some m }
{}

/// A set is a subset of another exactly where each value that is found in it is found in the other. Two sets are disjoint
/// exactly where none that is found in the first is found in the second. Equal values find the same member.
pub fn subset_is_lawful<T: Ord>()
    ensures found { (ms others : List T) → is_subset T.cmp ms others ≡ true
        → (x : T) → IsSome (find_member T.cmp x ms) → IsSome (find_member T.cmp x others) }
    ensures subset { (ms others : List T) → ((x : T) → IsSome (find_member T.cmp x ms) → IsSome (find_member T.cmp x others))
        → is_subset T.cmp ms others ≡ true }
    ensures absent { (ms others : List T) → is_disjoint T.cmp ms others ≡ true
        → (x : T) → IsSome (find_member T.cmp x ms) → find_member T.cmp x others ≡ None }
    ensures disjoint { (ms others : List T) → ((x : T) → IsSome (find_member T.cmp x ms) → find_member T.cmp x others ≡ None)
        → is_disjoint T.cmp ms others ≡ true }
    ensures same { (x y : T) → (ms : List T) → T.cmp x y ≡ Equal
        → find_member T.cmp x ms ≡ find_member T.cmp y ms }
{}

/// In a union of two sets a value is found as in the first one, and where it isn't there, as in the second one. The members
/// ascend. A union and what the sets have in common are together as large as both sets.
pub fn union_of_sets_is_lawful<T: Ord>()
    ensures found { (x : T) → (ms others : List T) → IsStrictlySortedBy T.cmp ms
        → find_member T.cmp x (members_of_union T.cmp ms others)
        ≡ option_or (find_member T.cmp x ms) (find_member T.cmp x others) }
    ensures ascending { (ms others : List T) → IsStrictlySortedBy T.cmp others
        → IsStrictlySortedBy T.cmp (members_of_union T.cmp ms others) }
    ensures size { (ms others : List T) → IsStrictlySortedBy T.cmp ms → IsStrictlySortedBy T.cmp others
        → length (members_of_union T.cmp ms others) + length (members_of_both T.cmp ms others)
        ≡ length ms + length others }
{}

/// In an intersection of two sets a value is found as in the first one, if the second one has it. The members ascend. It is as
/// large as that of the sets the other way round.
pub fn intersection_of_sets_is_lawful<T: Ord>()
    ensures found { (x : T) → (ms others : List T) → find_member T.cmp x (members_of_both T.cmp ms others)
        ≡ (if is_some (find_member T.cmp x others) then find_member T.cmp x ms else None) }
    ensures ascending { (ms others : List T) → IsStrictlySortedBy T.cmp ms
        → IsStrictlySortedBy T.cmp (members_of_both T.cmp ms others) }
    ensures turned { (ms others : List T) → IsStrictlySortedBy T.cmp ms → IsStrictlySortedBy T.cmp others
        → length (members_of_both T.cmp ms others) ≡ length (members_of_both T.cmp others ms) }
{}

/// In a difference of two sets a value is found as in the first one, if the second one lacks it. The members ascend. A
/// difference and what the sets have in common are together as large as the first set.
pub fn difference_of_sets_is_lawful<T: Ord>()
    ensures found { (x : T) → (ms others : List T) → find_member T.cmp x (members_only_in T.cmp ms others)
        ≡ (if is_none (find_member T.cmp x others) then find_member T.cmp x ms else None) }
    ensures ascending { (ms others : List T) → IsStrictlySortedBy T.cmp ms
        → IsStrictlySortedBy T.cmp (members_only_in T.cmp ms others) }
    ensures size { (ms others : List T)
        → length (members_of_both T.cmp ms others) + length (members_only_in T.cmp ms others) ≡ length ms }
{}
