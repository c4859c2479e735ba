//! Changes of the entries of one hash in place. They are looked through first, and made the trie's own where they change.
ghost use Rattle.std.specs.Prelude.{◌≡◌, ◌+◌, ◌<◌, ◌≤◌, ◌^◌, length, map, IfOk, OnErr};
ghost use Rattle.std.specs.List.{remove};
ghost use Rattle.rpds_hash_trie.specs.HashTrie.{matches, unmatched};
ghost use Rattle.rpds_hash_trie.specs.HashNode.{stored, shown};
ghost use Rattle.rpds_hash_trie.specs.HashLent.{index_of};
ghost use Rattle.rpds_hash_trie.specs.HashInPlace.{IsPutAmong};
ghost use Rattle.rpds_hash_trie.specs.HashRemovalInPlace.{IsRemoved};

use crate::in_place::Removed;
use crate::node::{Collision, EntryWithHash};
use rpds_core::key::HashKey;
use rpds_core::own::own;
use std::alloc::{AllocError, Allocator};
use std::hash::Hash;
use std::rc::Rc;

// Where the entry of the key stands: past the end where it is absent.
pub(crate) fn index_in<K: Eq + Hash, V, A: Allocator, Q: HashKey<K>>(
    entries: &[EntryWithHash<K, V, A>],
    key: Q,
    hash: u64,
) -> usize
    ensures { result ≡ index_of (matches Q.same (Q.seen key) hash) (map stored entries.now) }
{
    let mut at = 0;
    for entry in entries {
        if entry.matches(key, hash) {
            return at;
        }
        at += 1;
    }
    at
}

impl<K: Eq + Hash, V, A: Allocator> Collision<K, V, A> {
    // Where the entry of the key stands, the front one first: past the last where it is absent. Out of line, as all of
    // this file: a descent that meets no collision is to cost nothing more for them.
    #[inline(never)]
    fn index_of<Q: HashKey<K>>(&self, key: Q, hash: u64) -> usize
        ensures { result ≡ index_of (matches Q.same (Q.seen key) hash) (shown self.now) }
    {
        if self.front.matches(key, hash) {
            0
        } else {
            index_in(&self.others, key, hash) + 1
        }
    }
}

impl<K: Eq + Hash + Drop, V: Drop, A: Allocator + Copy> Collision<K, V, A> {
    // Puts the entry in, in place of the one that has its key or behind the last, and returns whether the key is new.
    fn put(&mut self, entry: EntryWithHash<K, V, A>) -> Result<bool, AllocError>
        ensures ok { IfOk result (λ added.
            IsPutAmong (matches K.eq entry.entry.value.key entry.key_hash) (stored entry)
            (shown self.old) (shown self.new) added) }
        ensures err { OnErr result (shown self.new ≡ shown self.old) }
    {
        let at = self.index_of(&entry.entry.key, entry.key_hash);
        if at == 0 {
            self.front = entry;
            Ok(false)
        } else if at <= self.others.len() {
            self.others[at - 1] = entry;
            Ok(false)
        } else {
            self.others.push(entry)?;
            Ok(true)
        }
    }

    // Removes the entry that stands there.
    #[inline(never)]
    fn remove(&mut self, at: usize)
        requires within { at ≤ length self.old.others.items }
        requires several { 1 ≤ length self.old.others.items }
        ensures { shown self.new ≡ remove (shown self.old) at }
    {
        if at == 0 {
            self.front = self.others.remove(0);
        } else {
            self.others.remove(at - 1);
        }
    }
}

// Puts the entry among those of its hash, in place of the one that has its key, and returns whether the key is new.
#[inline(never)]
pub(crate) fn put_colliding<K: Eq + Hash + Drop, V: Drop, A: Allocator + Copy>(
    collision: &mut Rc<Collision<K, V, A>, A>,
    entry: EntryWithHash<K, V, A>,
) -> Result<bool, AllocError>
    ensures ok { IfOk result (λ added.
        IsPutAmong (matches K.eq entry.entry.value.key entry.key_hash) (stored entry)
        (shown collision.old.value) (shown collision.new.value) added) }
    ensures err { OnErr result (shown collision.new.value ≡ shown collision.old.value) }
    ensures range { collision.old.value.front.key_hash < 2 ^ 64 }
{
    // For its clause: the hash is below 2^64.
    let _front_hash = collision.front.key_hash;
    let collision = own(collision)?;
    collision.put(entry)
}

// Removes the entry of the key from the entries of one hash. It asks for memory only where they change and are shared.
// Inlined, since a result by value that comes from a call costs each descent more.
#[inline(always)]
pub(crate) fn remove_colliding<K: Eq + Hash + Drop, V: Drop, A: Allocator + Copy, Q: HashKey<K>>(
    collision: &mut Rc<Collision<K, V, A>, A>,
    key: Q,
    hash: u64,
) -> Result<Removed<K, V, A>, AllocError>
    requires several { 1 ≤ length (map stored collision.old.value.others.items) }
    requires once { length (shown collision.old.value)
        ≤ length (unmatched (matches Q.same (Q.seen key) hash) (shown collision.old.value)) + 1 }
    ensures ok { IfOk result (λ removed.
        IsRemoved (matches Q.same (Q.seen key) hash) (shown collision.old.value)
        (shown collision.new.value) removed) }
    ensures err { OnErr result (shown collision.new.value ≡ shown collision.old.value) }
{
    let held: &Collision<K, V, A> = collision;
    let at = held.index_of(key, hash);
    let others = held.others.len();
    if at > others {
        return Ok(Removed::NotFound);
    }
    if others == 1 {
        let stays = if at == 0 {
            &held.others[0]
        } else {
            &held.front
        };
        let stays = stays.share()?;
        return Ok(Removed::OneLeft(stays));
    }
    let collision = own(collision)?;
    collision.remove(at);
    Ok(Removed::Done)
}
