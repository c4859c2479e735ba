//! Laws of what a table's contents determine. The functions have no code: a caller's proof cites their clauses.
ghost use Rattle.std.specs.Prelude.{◌≡◌, ◌≢◌, All, List};
ghost use Rattle.rpds_hash.specs.HashedMap.{key_hash};
ghost use Rattle.rpds_table.specs.Compared.{compared};
ghost use Rattle.rpds_table.specs.Kinds.{IsInOrder};
ghost use Rattle.rpds_table.specs.Questions.{answer};
ghost use Rattle.rpds_table.specs.SameTables.{SameTables};
ghost use Rattle.rpds_table.specs.TableContents.{Contents};
ghost use Rattle.rpds_table.specs.Transitions.{Run, Transition};
ghost use Rattle.rpds_table.specs.Types.{Command, NoMemory, Question, Refused, Reply};

use std::alloc::Allocator;
use std::hash::{BuildHasher, Hash};

/// Tables with the same versions give a command the same reply, and have the same versions after it, unless memory was
/// refused. So do they after a run.
pub fn reply_is_lawful<K: Ord + Hash, V, H: BuildHasher, A: Allocator>()
    ensures step { let keys = compared K.eq K.cmp in
        let hash = key_hash H.BuildHasher H.Hasher.Hasher K.hash_input in
        (t u t' u' : Contents K V H A H.Hasher) → (command : Command K V A) → (x y : Reply) → SameTables t u
        → Transition keys hash t command x t' → Transition keys hash u command y u'
        → x ≢ Refused NoMemory → y ≢ Refused NoMemory → (x ≡ y) × SameTables t' u' }
    ensures run { let keys = compared K.eq K.cmp in
        let hash = key_hash H.BuildHasher H.Hasher.Hasher K.hash_input in
        (t u t' u' : Contents K V H A H.Hasher) → (commands : List (Command K V A)) → (xs ys : List Reply)
        → SameTables t u → Run keys hash t commands xs t' → Run keys hash u commands ys u'
        → All (λ x. x ≢ Refused NoMemory) xs → All (λ y. y ≢ Refused NoMemory) ys
        → (xs ≡ ys) × SameTables t' u' }
{}

/// Tables with the same versions, each in the order of its kind, give a question the same answer.
pub fn answer_is_lawful<K: Ord + Hash, V: Ord, H: BuildHasher, A: Allocator>()
    ensures { let keys = compared K.eq K.cmp in let values = compared V.eq V.cmp in
        let hash = key_hash H.BuildHasher H.Hasher.Hasher K.hash_input in
        (t u : Contents K V H A H.Hasher) → (question : Question K)
        → All (IsInOrder keys hash) t.versions → All (IsInOrder keys hash) u.versions
        → SameTables t u → answer keys values t question ≡ answer keys values u question }
{}
