//! Laws of the words that the table's contracts speak in. The functions have no code: a caller's proof cites their clauses.
ghost use Rattle.std.specs.Prelude.{◌≡◌, ◌≢◌, ℕ, Bool, true, false, All, List, Option, None, Some, length, slice_get, take};
ghost use Rattle.rpds_hash.specs.HashedMap.{key_hash};
ghost use Rattle.rpds_table.specs.Compared.{compared};
ghost use Rattle.rpds_table.specs.History.{SameOption};
ghost use Rattle.rpds_table.specs.Kinds.{IsInOrder, map_of_pairs};
ghost use Rattle.rpds_table.specs.Kinds.RedBlackTreeMaps.{pairs_after};
ghost use Rattle.rpds_table.specs.TableContents.{Contents};
ghost use Rattle.rpds_table.specs.Transitions.{Run, Transition};
ghost use Rattle.rpds_table.specs.Types.{Command, Change, Copy, InPlace, Op, Refusal, Reply, Done, Made, Refused, Version};
ghost use Rattle.rpds_table.specs.declared.table.op.Op.TheVariants.{Remove};
ghost use Rattle.rpds_table.specs.declared.table.version.Version.TheVariants.{RedBlackTreeMap, RedBlackTreeSet};
ghost use Rattle.rpds_tree.specs.OrderedMap.{IsOrdered, OrderedMap};
ghost use Rattle.rpds_tree.specs.OrderedSet.{IsOrderedSet, OrderedSet};
ghost use Rattle.rpds_tree.specs.Pairs.{find};

use std::alloc::Allocator;
use std::hash::{BuildHasher, Hash};

/// Where each version of a table is in the order of its kind, each is so after a command, and after a run. So each version
/// of a table that began without versions is.
pub fn transition_is_lawful<K: Ord + Hash, V, H: BuildHasher, A: Allocator>()
    ensures step { let keys = compared K.eq K.cmp in
        let hash = key_hash H.BuildHasher H.Hasher.Hasher K.hash_input in
        (t t' : Contents K V H A H.Hasher) → (command : Command K V A) → (reply : Reply)
        → All (IsInOrder keys hash) t.versions → Transition keys hash t command reply t'
        → All (IsInOrder keys hash) t'.versions }
    ensures run { let keys = compared K.eq K.cmp in
        let hash = key_hash H.BuildHasher H.Hasher.Hasher K.hash_input in
        (t t' : Contents K V H A H.Hasher) → (commands : List (Command K V A)) → (replies : List Reply)
        → All (IsInOrder keys hash) t.versions → Run keys hash t commands replies t'
        → All (IsInOrder keys hash) t'.versions }
{}

/// Where each version of a table is in the order of its kind, the keys of each ordered map ascend, the members of each
/// ordered set do, and their trees have at most `2 floor(log2(n + 1))` levels, of n pairs or members.
pub fn order_is_lawful<K: Ord + Hash, V, H: BuildHasher, A: Allocator>()
    ensures map { let keys = compared K.eq K.cmp in
        let hash = key_hash H.BuildHasher H.Hasher.Hasher K.hash_input in
        (t : Contents K V H A H.Hasher) → (i : ℕ) → (m : OrderedMap K V)
        → All (IsInOrder keys hash) t.versions → slice_get t.versions i ≡ Some (RedBlackTreeMap m)
        → IsOrdered K.cmp m }
    ensures set { let keys = compared K.eq K.cmp in
        let hash = key_hash H.BuildHasher H.Hasher.Hasher K.hash_input in
        (t : Contents K V H A H.Hasher) → (i : ℕ) → (s : OrderedSet K)
        → All (IsInOrder keys hash) t.versions → slice_get t.versions i ≡ Some (RedBlackTreeSet s)
        → IsOrderedSet K.cmp s }
{}

/// A version is the same as itself, and as what a version is that is the same as it. So is what isn't there.
#[tactic(auto, using(crate::proofs::Respects::same_option, crate::proofs::Respects::same_option_then))]
pub fn same_is_lawful<K: Ord + Hash, V, H: BuildHasher, A: Allocator>()
    ensures reflexive { (v : Option (Version K V H A H.Hasher)) → SameOption v v }
    ensures transitive { (u v w : Option (Version K V H A H.Hasher))
        → SameOption u v → SameOption v w → SameOption u w }
{}

/// A copy is the version that it is made of, and comes behind all others, which stay. A copy that is refused changes no
/// version, and there is no third reply.
#[tactic(auto, using(crate::proofs::ChangeLaws::copied, crate::proofs::ChangeLaws::copy_refused, crate::proofs::ChangeLaws::copy_is_made))]
pub fn copy_is_lawful<K: Ord + Hash, V, H: BuildHasher, A: Allocator>()
    ensures made { let keys = compared K.eq K.cmp in
        let hash = key_hash H.BuildHasher H.Hasher.Hasher K.hash_input in
        (t t' : Contents K V H A H.Hasher) → (i n : ℕ) → Transition keys hash t (Copy i) (Made n) t'
        → (n ≡ length t.versions) × (take n t'.versions ≡ t.versions)
        × SameOption (slice_get t.versions i) (slice_get t'.versions n) }
    ensures refused { let keys = compared K.eq K.cmp in
        let hash = key_hash H.BuildHasher H.Hasher.Hasher K.hash_input in
        (t t' : Contents K V H A H.Hasher) → (i : ℕ) → (r : Refusal)
        → Transition keys hash t (Copy i) (Refused r) t' → t'.versions ≡ t.versions }
    ensures done { let keys = compared K.eq K.cmp in
        let hash = key_hash H.BuildHasher H.Hasher.Hasher K.hash_input in
        (t t' : Contents K V H A H.Hasher) → (i : ℕ) → (found : Bool)
        → Transition keys hash t (Copy i) (Done found) t' → ⊥ }
{}

/// A change in place leaves all other versions, and makes no version.
#[tactic(auto, using(crate::proofs::ChangeLaws::others_stay, crate::proofs::ChangeLaws::before_stay, crate::proofs::ChangeLaws::none_made))]
pub fn change_in_place_is_lawful<K: Ord + Hash, V, H: BuildHasher, A: Allocator>()
    ensures others { let keys = compared K.eq K.cmp in
        let hash = key_hash H.BuildHasher H.Hasher.Hasher K.hash_input in
        (t t' : Contents K V H A H.Hasher) → (i j : ℕ) → (op : Op K V) → (reply : Reply) → i ≢ j
        → Transition keys hash t (Change i InPlace op) reply t'
        → slice_get t'.versions j ≡ slice_get t.versions j }
    ensures before { let keys = compared K.eq K.cmp in
        let hash = key_hash H.BuildHasher H.Hasher.Hasher K.hash_input in
        (t t' : Contents K V H A H.Hasher) → (i : ℕ) → (op : Op K V) → (reply : Reply)
        → Transition keys hash t (Change i InPlace op) reply t'
        → take i t'.versions ≡ take i t.versions }
    ensures made { let keys = compared K.eq K.cmp in
        let hash = key_hash H.BuildHasher H.Hasher.Hasher K.hash_input in
        (t t' : Contents K V H A H.Hasher) → (i n : ℕ) → (op : Op K V)
        → Transition keys hash t (Change i InPlace op) (Made n) t' → ⊥ }
{}

/// A change in place of an ordered map of these pairs: where something was done the map has the pairs after the change, and
/// where nothing was, a key was to be taken out that isn't there.
#[tactic(auto, using(crate::proofs::ChangeLaws::map_changed, crate::proofs::ChangeLaws::nothing_changed))]
pub fn map_change_is_lawful<K: Ord + Hash, V, H: BuildHasher, A: Allocator>()
    ensures done { let keys = compared K.eq K.cmp in
        let hash = key_hash H.BuildHasher H.Hasher.Hasher K.hash_input in
        (t t' : Contents K V H A H.Hasher) → (i : ℕ) → (op : Op K V) → (pairs after : List (K × V))
        → after ≡ pairs_after K.cmp pairs op
        → SameOption (Some (map_of_pairs pairs)) (slice_get t.versions i)
        → Transition keys hash t (Change i InPlace op) (Done true) t'
        → SameOption (Some (map_of_pairs after)) (slice_get t'.versions i) }
    ensures nothing { let keys = compared K.eq K.cmp in
        let hash = key_hash H.BuildHasher H.Hasher.Hasher K.hash_input in
        (t t' : Contents K V H A H.Hasher) → (i : ℕ) → (op : Op K V) → (pairs : List (K × V))
        → SameOption (Some (map_of_pairs pairs)) (slice_get t.versions i)
        → Transition keys hash t (Change i InPlace op) (Done false) t'
        → (key : K) × (op ≡ Remove key) × (find K.cmp key pairs ≡ None) }
{}
