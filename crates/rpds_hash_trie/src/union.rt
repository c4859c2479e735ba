//! The entries of two tries in one. What one of them alone has at a place is shared whole.
ghost use Rattle.std.specs.Prelude.{◌≡◌, ℕ, ◌+◌, ◌*◌, ◌/◌, ◌^◌, ◌≤◌, ◌<◌, ◌∷◌, [], IfOk, IfSome, OnOk, Some, length, slice_get, true};
ghost use Rattle.std.specs.Option.{option_map};
ghost use Rattle.rpds_hash_trie.specs.HashNode.{stored, shown, branch_of, leaf_of};
ghost use Rattle.rpds_hash_trie.specs.HashTrie.{hashes_in, IsBranch, IsSound};
ghost use Rattle.rpds_hash_trie.specs.HashUnion.{AllOnce, AreSameLeaves, CanUnite, IsUnited, children_or, node_or, put_or};
ghost use Rattle.rpds_hash_trie.specs.Places.{seen};

use crate::node::{Collision, EntryWithHash, Kind, Node, place_of};
use crate::root::Root;
use crate::sparse_array_usize::SparseArrayUsize;
use rpds_core::steps::Steps;
use std::alloc::{AllocError, Allocator};
use std::hash::Hash;
use std::rc::Rc;

// What the levels above a depth leave of a hash.
pub(crate) fn left_at(hash: u64, depth: u8, bits: u8) -> u64
    requires bits_in { bits ≤ 6 }
    requires deep { depth ≤ 64 }
    ensures { result ≡ hash / 2 ^ (depth * bits) }
{
    let shift = depth as u32 * bits as u32;
    if shift >= 64 { 0 } else { hash >> shift }
}

impl<K, V, A: Allocator> Node<K, V, A> {
    // The hash of the first entry.
    fn first_hash(&self) -> u64
        ensures { slice_get (hashes_in self.now.entries) 0 ≡ Some result }
    {
        match &self.kind {
            Kind::Branch(children) => {
                let child: &Node<K, V, A> = children.first().unwrap();
                child.prove_sound();
                child.first_hash()
            }
            Kind::Leaf(entry) => entry.key_hash,
            Kind::Collision(collision) => collision.front.key_hash,
        }
    }
}

// The children as they are now.
fn children_now<'a, K, V, A: Allocator>(
    old: &'a SparseArrayUsize<Rc<Node<K, V, A>, A>, A>,
    changed: &'a Option<SparseArrayUsize<Rc<Node<K, V, A>, A>, A>>,
) -> &'a SparseArrayUsize<Rc<Node<K, V, A>, A>, A>
    ensures { seen result.now ≡ children_or (seen old.now) changed.now }
{
    match changed {
        None => old,
        Some(children) => children,
    }
}

// Puts a child in, where there is one. The old children are copied at the first change.
#[inline(always)]
fn put_child<K: Drop, V: Drop, A: Allocator + Copy>(
    alloc: A,
    old: &SparseArrayUsize<Rc<Node<K, V, A>, A>, A>,
    changed: &mut Option<SparseArrayUsize<Rc<Node<K, V, A>, A>, A>>,
    place: usize,
    child: Option<Rc<Node<K, V, A>, A>>,
) -> Result<(), AllocError>
    requires small { place < 64 }
    ensures ok { OnOk result (children_or (seen old.now) changed.new
        ≡ put_or place child (children_or (seen old.now) changed.old)) }
    ensures sound { IfSome child (λ c. IsSound c.value) }
{
    let Some(child) = child else {
        return Ok(());
    };
    child.prove_sound();
    match changed {
        None => {
            *changed = Some(old.with_child(alloc, place, child)?);
            Ok(())
        }
        Some(children) => children.set(place, child),
    }
}

// The branch of the changed children; None where none has changed.
#[inline(always)]
fn changed_branch<K: Drop, V: Drop, A: Allocator + Copy>(
    alloc: A,
    depth: u8,
    bits: u8,
    changed: Option<SparseArrayUsize<Rc<Node<K, V, A>, A>, A>>,
) -> Result<Option<Rc<Node<K, V, A>, A>>, AllocError>
    requires { IfSome changed (λ children. IsBranch bits depth (seen children)) }
    ensures ok { IfOk result (λ more. option_map (λ n. n.value) more
        ≡ option_map (λ children. branch_of bits depth (seen children)) changed) }
{
    let Some(children) = changed else {
        return Ok(None);
    };
    let node = Node::branch(alloc, depth, bits, children, &mut Steps::new())?;
    Ok(Some(node))
}

// The node as it is now.
fn node_now<'a, K, V, A: Allocator>(
    old: &'a Node<K, V, A>,
    changed: &'a Option<Rc<Node<K, V, A>, A>>,
) -> &'a Node<K, V, A>
    ensures { result.now ≡ node_or old.now changed.now }
{
    match changed {
        None => old,
        Some(node) => node,
    }
}

impl<K: Eq + Hash, V, A: Allocator> Node<K, V, A> {
    // Whether both are leaves of one key.
    #[inline(always)]
    fn is_same_leaf(&self, other: &Node<K, V, A>) -> bool
        ensures { result ≡ true → AreSameLeaves K.eq self.now.entries other.now.entries }
    {
        match (&self.kind, &other.kind) {
            (Kind::Leaf(mine), Kind::Leaf(theirs)) => mine.matches(
                &theirs.entry.key,
                theirs.key_hash,
            ),
            _ => false,
        }
    }
}

impl<K: Eq + Hash + Drop, V: Drop, A: Allocator + Copy> Node<K, V, A> {
    // With the entry where its key is absent; None where it is there, and counted in `common`.
    fn with_absent(
        &self,
        alloc: A,
        entry: &EntryWithHash<K, V, A>,
        common: &mut usize,
    ) -> Result<Option<Rc<Node<K, V, A>, A>>, AllocError>
        requires can { CanUnite K.eq self.now (stored entry.now ∷ []) common.old }
        ensures ok { IfOk result (λ more. IsUnited K.eq self.now (stored entry.now ∷ [])
            (node_or self.now more) common.old common.new) }
    {
        self.prove_sound();
        let left = left_at(entry.key_hash, self.depth, self.bits);
        match self.get(&entry.entry.key, entry.key_hash, left, &mut Steps::new()) {
            Some(_) => {
                *common += 1;
                Ok(None)
            }
            None => {
                let entry = entry.share()?;
                let more = self.insert(alloc, entry, left, &mut false, &mut Steps::new())?;
                Ok(Some(more))
            }
        }
    }

    // With the entry, in place of the one that has its key, which is counted in `common`.
    fn with_first(
        &self,
        alloc: A,
        entry: &EntryWithHash<K, V, A>,
        common: &mut usize,
    ) -> Result<Option<Rc<Node<K, V, A>, A>>, AllocError>
        requires can { CanUnite K.eq (leaf_of self.now.bits self.now.depth (stored entry.now)) self.now.entries common.old }
        ensures ok { let leaf = leaf_of self.now.bits self.now.depth (stored entry.now) in
            IfOk result (λ more. IsUnited K.eq leaf self.now.entries (node_or leaf more) common.old common.new) }
    {
        self.prove_sound();
        let left = left_at(entry.key_hash, self.depth, self.bits);
        let mut fresh = false;
        let entry = entry.share()?;
        let more = self.insert(alloc, entry, left, &mut fresh, &mut Steps::new())?;
        if !fresh {
            *common += 1;
        }
        Ok(Some(more))
    }

    // With the entries of one hash whose keys are absent; None where all are there.
    #[inline(never)]
    fn with_colliding(
        &self,
        alloc: A,
        collision: &Collision<K, V, A>,
        common: &mut usize,
    ) -> Result<Option<Rc<Node<K, V, A>, A>>, AllocError>
        requires can { CanUnite K.eq self.now (shown collision.now) common.old }
        ensures ok { IfOk result (λ more. IsUnited K.eq self.now (shown collision.now)
            (node_or self.now more) common.old common.new) }
    {
        let mut more = self.with_absent(alloc, &collision.front, common)?;
        let others = collision.others.as_slice();
        for entry in others {
            let next = node_now(self, &more).with_absent(alloc, entry, common)?;
            if next.is_some() {
                more = next;
            }
        }
        Ok(more)
    }

    // The entries of both nodes, of two with equal keys this one's; None where the other one has no key that is new.
    // `common` counts the keys that are in both.
    pub(crate) fn union(
        &self,
        alloc: A,
        other: &Node<K, V, A>,
        common: &mut usize,
    ) -> Result<Option<Rc<Node<K, V, A>, A>>, AllocError>
        requires bits { other.now.bits ≡ self.now.bits }
        requires depth { other.now.depth ≡ self.now.depth }
        requires can { CanUnite K.eq self.now other.now.entries common.old }
        ensures ok { IfOk result (λ more. IsUnited K.eq self.now other.now.entries
            (node_or self.now more) common.old common.new) }
    {
        match &other.kind {
            Kind::Leaf(entry) => self.with_absent(alloc, entry, common),
            Kind::Collision(collision) => self.with_colliding(alloc, collision, common),
            Kind::Branch(theirs) => match &self.kind {
                Kind::Leaf(entry) => other.with_first(alloc, entry, common),
                Kind::Collision(_) => unreachable!(),
                Kind::Branch(mine) => {
                    let (depth, bits) = (self.depth, self.bits);
                    let row = theirs.as_slice();
                    let mut changed = None;
                    for child in row {
                        let place = place_of(left_at(child.first_hash(), depth, bits), bits);
                        let more = match children_now(mine, &changed).get(place) {
                            None => Some(child.clone()?),
                            Some(own) => {
                                let own: &Node<K, V, A> = own;
                                if own.is_same_leaf(child) {
                                    *common += 1;
                                    None
                                } else {
                                    own.union(alloc, child, common)?
                                }
                            }
                        };
                        put_child(alloc, mine, &mut changed, place, more)?;
                    }
                    changed_branch(alloc, depth, bits, changed)
                }
            },
        }
    }
}

impl<K: Eq + Hash + Drop, V: Drop, A: Allocator + Copy> Root<K, V, A> {
    /// The entries of both tries, of two with equal keys this one's. `common` counts the keys that are in both. An error means
    /// that memory ran out.
    pub fn union(
        &self,
        alloc: A,
        other: &Root<K, V, A>,
        common: &mut usize,
    ) -> Result<Root<K, V, A>, AllocError>
        requires bits { other.now.bits ≡ self.now.bits }
        requires once { AllOnce K.eq self.now.entries }
        requires once_others { AllOnce K.eq other.now.entries }
        requires room { common.old + length other.now.entries < 2 ^ 64 }
        ensures ok { IfOk result (λ r. IsUnited K.eq self.now other.now.entries r common.old common.new) }
    {
        let Some(theirs) = &other.node else {
            return self.share();
        };
        let Some(mine) = &self.node else {
            return other.share();
        };
        let own: &Node<K, V, A> = mine;
        match own.union(alloc, theirs, common)? {
            None => self.share(),
            Some(node) => Ok(Root {
                node: Some(node),
                bits: self.bits,
            }),
        }
    }
}
