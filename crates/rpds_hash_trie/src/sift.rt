//! The entries of a trie whose keys another trie has, or those whose keys it lacks. What stays whole is shared.
ghost use Rattle.std.specs.Prelude.{◌≡◌, ℕ, ◌+◌, ◌*◌, ◌/◌, ◌≤◌, ◌<◌, ◌^◌, ◌∷◌, ◌++◌, [], if◌then◌else◌, true, false, IfOk, IfSome, OnOk, length, map};
ghost use Rattle.std.specs.Option.{option_copied, option_map};
ghost use Rattle.rpds_hash_trie.specs.HashNode.{collision_of, leaf_of, shown, stored};
ghost use Rattle.rpds_hash_trie.specs.HashSift.{AreCounted, AreKeptOn, IsBranchLeft, IsMadeOf, IsSifted, IsSoundLeft, PlacesAscend, children_below, goes};
ghost use Rattle.rpds_hash_trie.specs.HashTrie.{AllAgree, AllHash, IsCollision, IsLeaf, IsLoose, found, level_count, matches, unmatched};
ghost use Rattle.rpds_hash_trie.specs.HashUnion.{AllOnce, CanUnite};
ghost use Rattle.rpds_hash_trie.specs.Places.{seen};
ghost use Rattle.rpds_hash_trie.specs.declared.remove.Removal.TheVariants.{Absent, Empty};

use crate::node::{Collision, EntryWithHash, Kind, Node};
use crate::remove::Removal;
use crate::root::Root;
use crate::sparse_array_usize::SparseArrayUsize;
use crate::union::left_at;
use rpds_core::steps::Steps;
use std::alloc::{AllocError, Allocator};
use std::hash::Hash;
use std::rc::Rc;

impl<K, V, A: Allocator> Node<K, V, A> {
    // What the levels above leave of a hash.
    fn hash_left(&self, hash: u64) -> u64
        ensures { result ≡ hash / 2 ^ (self.now.depth * self.now.bits) }
    {
        self.prove_sound();
        left_at(hash, self.depth, self.bits)
    }
}

impl<K: Eq + Hash, V, A: Allocator> Node<K, V, A> {
    // The entry that has this one's key.
    fn entry_like(&self, entry: &EntryWithHash<K, V, A>) -> Option<&EntryWithHash<K, V, A>>
        requires alike { AllAgree self.now.bits self.now.depth entry.now.key_hash self.now.entries }
        requires once { AllOnce K.eq self.now.entries }
        ensures { let e = stored entry.now in
            option_map stored (option_copied result) ≡ found (matches K.eq e.1.0 e.0) self.now.entries }
    {
        let left = self.hash_left(entry.key_hash);
        self.get(&entry.entry.key, entry.key_hash, left, &mut Steps::new())
    }

    // What is left of a leaf of the entry, which stays where its key is here, if `both`, and else where it isn't.
    fn sift_leaf(
        &self,
        entry: &EntryWithHash<K, V, A>,
        both: bool,
        common: &mut usize,
    ) -> Removal<K, V, A>
        requires { CanUnite K.eq self.now (stored entry.now ∷ []) common.old }
        ensures { let leaf = leaf_of self.now.bits self.now.depth (stored entry.now) in
            IsSifted K.eq both leaf self.now.entries result common.old common.new }
    {
        let is_common = self.entry_like(entry).is_some();
        if is_common {
            *common += 1;
        }
        if is_common == both {
            Removal::Absent
        } else {
            Removal::Empty
        }
    }
}

impl<K: Eq + Hash + Drop, V: Drop, A: Allocator + Copy> Node<K, V, A> {
    // The entry that has this one's key, as all that is left.
    fn left_like(
        &self,
        alloc: A,
        entry: &EntryWithHash<K, V, A>,
        common: &mut usize,
    ) -> Result<Removal<K, V, A>, AllocError>
        requires { CanUnite K.eq self.now (stored entry.now ∷ []) common.old }
        ensures { IfOk result (λ r.
            IsSifted K.eq true self.now (stored entry.now ∷ []) r common.old common.new) }
    {
        self.prove_sound();
        match self.entry_like(entry) {
            None => Ok(Removal::Empty),
            Some(like) => {
                *common += 1;
                let leaf = Node::leaf(
                    alloc,
                    self.depth,
                    self.bits,
                    like.share()?,
                    &mut Steps::new(),
                )?;
                Ok(Removal::Left(leaf))
            }
        }
    }

    // What is left without the key of the entry.
    fn left_without(
        &self,
        alloc: A,
        entry: &EntryWithHash<K, V, A>,
        common: &mut usize,
    ) -> Result<Removal<K, V, A>, AllocError>
        requires { CanUnite K.eq self.now (stored entry.now ∷ []) common.old }
        ensures { IfOk result (λ r.
            IsSifted K.eq false self.now (stored entry.now ∷ []) r common.old common.new) }
    {
        let hash = entry.key_hash;
        let left = self.hash_left(hash);
        match self.remove(alloc, &entry.entry.key, hash, left, &mut Steps::new())? {
            Removal::Absent => Ok(Removal::Absent),
            Removal::Empty => {
                *common += 1;
                Ok(Removal::Empty)
            }
            Removal::Left(fewer) => {
                *common += 1;
                Ok(Removal::Left(fewer))
            }
        }
    }
}

// Puts one more owner of the entry behind those that are kept, where it stays.
fn keep_entry<K: Eq + Hash + Drop, V: Drop, A: Allocator + Copy>(
    entry: &EntryWithHash<K, V, A>,
    other: &Node<K, V, A>,
    both: bool,
    kept: &mut Vec<EntryWithHash<K, V, A>, A>,
    common: &mut usize,
) -> Result<(), AllocError>
    requires alike { AllAgree other.now.bits other.now.depth entry.now.key_hash other.now.entries }
    requires once { AllOnce K.eq other.now.entries }
    requires room { common.old + 1 < 2 ^ 64 }
    ensures kept { OnOk result (map stored kept.new.items ≡ map stored kept.old.items ++
        unmatched (goes K.eq both other.now.entries) (stored entry.now ∷ [])) }
    ensures counted { AreCounted K.eq (stored entry.now ∷ []) other.now.entries common.old common.new }
{
    let is_common = other.entry_like(entry).is_some();
    if is_common {
        *common += 1;
    }
    if is_common == both {
        kept.push(entry.share()?)?;
    }
    Ok(())
}

// What some entries of one hash are, where no digit is left.
fn left_of<K: Drop, V: Drop, A: Allocator + Copy>(
    alloc: A,
    depth: u8,
    bits: u8,
    kept: Vec<EntryWithHash<K, V, A>, A>,
) -> Result<Removal<K, V, A>, AllocError>
    requires { (hash : ℕ) × AllHash hash (map stored kept.items) × IsLeaf bits depth × (depth ≡ level_count bits) }
    ensures { IfOk result (λ r. IsMadeOf bits depth (map stored kept.items) r) }
{
    let mut kept = kept;
    if kept.is_empty() {
        return Ok(Removal::Empty);
    }
    let front = kept.remove(0);
    let node = if kept.is_empty() {
        Node::leaf(alloc, depth, bits, front, &mut Steps::new())?
    } else {
        Node::collision(alloc, depth, bits, front, kept, &mut Steps::new())?
    };
    Ok(Removal::Left(node))
}

// What is left of the entries of one hash.
#[inline(never)]
fn sift_collision<K: Eq + Hash + Drop, V: Drop, A: Allocator + Copy>(
    alloc: A,
    depth: u8,
    bits: u8,
    mine: &Collision<K, V, A>,
    other: &Node<K, V, A>,
    both: bool,
    common: &mut usize,
) -> Result<Removal<K, V, A>, AllocError>
    requires sound { IsCollision bits depth mine.now.front.key_hash (map stored mine.now.others.items) }
    requires can { CanUnite K.eq other.now (shown mine.now) common.old }
    ensures { let all = collision_of bits depth (stored mine.now.front) (map stored mine.now.others.items) in
        IfOk result (λ r. IsSifted K.eq both all other.now.entries r common.old common.new) }
{
    let others = mine.others.as_slice();
    let mut kept = Vec::with_capacity(alloc, others.len().saturating_add(1))?;
    keep_entry(&mine.front, other, both, &mut kept, common)?;
    for entry in others {
        keep_entry(entry, other, both, &mut kept, common)?;
    }
    if kept.len() > others.len() {
        return Ok(Removal::Absent);
    }
    left_of(alloc, depth, bits, kept)
}

// Puts the child at the place, if there is one, behind those at places below.
fn keep_first<K: Drop, V: Drop, A: Allocator + Copy>(
    children: &SparseArrayUsize<Rc<Node<K, V, A>, A>, A>,
    at: usize,
    kept: &mut SparseArrayUsize<Rc<Node<K, V, A>, A>, A>,
) -> Result<(), AllocError>
    requires small { at < 64 }
    requires ascend { PlacesAscend 0 (seen children.now) }
    requires first { seen kept.old ≡ children_below at (seen children.now) }
    ensures { OnOk result (seen kept.new ≡ children_below (at + 1) (seen children.now)) }
{
    match children.get(at) {
        None => Ok(()),
        Some(child) => kept.set(at, child.clone()?),
    }
}

// The first children, those at places below one. There will be room for so many.
fn first_children<K: Drop, V: Drop, A: Allocator + Copy>(
    alloc: A,
    children: &SparseArrayUsize<Rc<Node<K, V, A>, A>, A>,
    place: usize,
    room: usize,
) -> Result<SparseArrayUsize<Rc<Node<K, V, A>, A>, A>, AllocError>
    requires small { place ≤ 64 }
    requires ascend { PlacesAscend 0 (seen children.now) }
    ensures { IfOk result (λ kept. seen kept ≡ children_below place (seen children.now)) }
{
    let mut kept = SparseArrayUsize::with_capacity(alloc, room)?;
    for at in 0..place {
        keep_first(children, at, &mut kept)?;
    }
    Ok(kept)
}

// Puts what is left of the child at the place behind the children that are kept. They are listed once a child
// loses an entry.
#[inline(always)]
fn keep_child<K: Drop, V: Drop, A: Allocator + Copy>(
    alloc: A,
    mine: &SparseArrayUsize<Rc<Node<K, V, A>, A>, A>,
    kept: &mut Option<SparseArrayUsize<Rc<Node<K, V, A>, A>, A>>,
    place: usize,
    child: &Rc<Node<K, V, A>, A>,
    left: Removal<K, V, A>,
    room: usize,
) -> Result<(), AllocError>
    requires small { place < 64 }
    requires ascend { PlacesAscend 0 (seen mine.now) }
    ensures ok { OnOk result (AreKeptOn place (seen mine.now) child.now.value left kept.old kept.new) }
    ensures sound { IsSoundLeft left }
{
    match kept {
        None => match left {
            Removal::Absent => Ok(()),
            Removal::Empty => {
                *kept = Some(first_children(alloc, mine, place, room)?);
                Ok(())
            }
            Removal::Left(node) => {
                node.prove_sound();
                let mut first = first_children(alloc, mine, place, room)?;
                first.set(place, node)?;
                *kept = Some(first);
                Ok(())
            }
        },
        Some(children) => match left {
            Removal::Absent => children.set(place, child.clone()?),
            Removal::Empty => Ok(()),
            Removal::Left(node) => {
                node.prove_sound();
                children.set(place, node)
            }
        },
    }
}

// How many places a branch has.
fn degree_of(bits: u8) -> usize
    requires { (1 ≤ bits) × (bits ≤ 6) }
    ensures value { result ≡ 2 ^ bits }
    ensures within { result ≤ 64 }
{
    match bits {
        1 => 2,
        2 => 4,
        3 => 8,
        4 => 16,
        5 => 32,
        _ => 64,
    }
}

// What is left of a node beside nothing.
fn left_beside_none<K, V, A: Allocator>(both: bool) -> Removal<K, V, A>
    ensures { result ≡ (if both then Empty else Absent) }
{
    if both {
        Removal::Empty
    } else {
        Removal::Absent
    }
}

// What the children that are kept are.
#[inline(always)]
fn left_branch<K: Drop, V: Drop, A: Allocator + Copy>(
    alloc: A,
    depth: u8,
    bits: u8,
    kept: Option<SparseArrayUsize<Rc<Node<K, V, A>, A>, A>>,
) -> Result<Removal<K, V, A>, AllocError>
    requires { IfSome kept (λ children. 0 < length children → IsLoose bits depth (seen children)) }
    ensures { IfOk result (λ r. IsBranchLeft bits depth kept r) }
{
    let Some(children) = kept else {
        return Ok(Removal::Absent);
    };
    if children.size() == 0 {
        return Ok(Removal::Empty);
    }
    let node = Node::compressed(alloc, depth, bits, children, &mut Steps::new())?;
    Ok(Removal::Left(node))
}

impl<K: Eq + Hash + Drop, V: Drop, A: Allocator + Copy> Node<K, V, A> {
    // What is left of the entries: those whose keys the other node has too, if `both`, and else those whose keys it lacks.
    // `common` counts the keys that are in both.
    pub(crate) fn sift(
        &self,
        alloc: A,
        other: &Node<K, V, A>,
        both: bool,
        common: &mut usize,
    ) -> Result<Removal<K, V, A>, AllocError>
        requires bits { other.now.bits ≡ self.now.bits }
        requires depth { other.now.depth ≡ self.now.depth }
        requires can { CanUnite K.eq other.now self.now.entries common.old }
        ensures { IfOk result (λ r. IsSifted K.eq both self.now other.now.entries r common.old common.new) }
    {
        let (depth, bits) = (self.depth, self.bits);
        match &self.kind {
            Kind::Leaf(entry) => Ok(other.sift_leaf(entry, both, common)),
            Kind::Collision(mine) => {
                let mine: &Collision<K, V, A> = mine;
                sift_collision(alloc, depth, bits, mine, other, both, common)
            }
            Kind::Branch(mine) => match &other.kind {
                Kind::Leaf(entry) => if both {
                    self.left_like(alloc, entry, common)
                } else {
                    self.left_without(alloc, entry, common)
                },
                Kind::Collision(_) => unreachable!(),
                Kind::Branch(theirs) => {
                    let room = if both { 0 } else { mine.size() };
                    let end = degree_of(bits);
                    let mut kept = None;
                    for place in 0..end {
                        let Some(child) = mine.get(place) else {
                            continue;
                        };
                        let left = match theirs.get(place) {
                            None => left_beside_none(both),
                            Some(like) => {
                                let own: &Node<K, V, A> = child;
                                let like: &Node<K, V, A> = like;
                                own.sift(alloc, like, both, common)?
                            }
                        };
                        keep_child(alloc, mine, &mut kept, place, child, left, room)?;
                    }
                    left_branch(alloc, depth, bits, kept)
                }
            },
        }
    }
}

impl<K: Eq + Hash + Drop, V: Drop, A: Allocator + Copy> Root<K, V, A> {
    // What is left beside nothing.
    fn sift_beside_none(&self, both: bool) -> Result<Root<K, V, A>, AllocError>
        ensures { IfOk result (λ r. r ≡ record self.now { entries = if both then [] else self.now.entries }) }
    {
        self.prove_sound();
        if both {
            Ok(Root::new(self.bits()))
        } else {
            self.share()
        }
    }

    /// The entries whose keys the other trie has too, if `both`, and else those whose keys it lacks, in the order that they have.
    /// `common` counts the keys that are in both. An error means that memory ran out.
    pub fn sift(
        &self,
        alloc: A,
        other: &Root<K, V, A>,
        both: bool,
        common: &mut usize,
    ) -> Result<Root<K, V, A>, AllocError>
        requires bits { other.now.bits ≡ self.now.bits }
        requires once { AllOnce K.eq self.now.entries }
        requires once_others { AllOnce K.eq other.now.entries }
        requires room { common.old + length self.now.entries < 2 ^ 64 }
        ensures rest { IfOk result (λ r. r ≡ record self.now { entries = unmatched (goes K.eq both other.now.entries) self.now.entries }) }
        ensures counted { OnOk result
            (AreCounted K.eq self.now.entries other.now.entries common.old common.new) }
    {
        let Some(mine) = &self.node else {
            return self.share();
        };
        match &other.node {
            None => self.sift_beside_none(both),
            Some(theirs) => {
                let own: &Node<K, V, A> = mine;
                match own.sift(alloc, theirs, both, common)? {
                    Removal::Absent => self.share(),
                    Removal::Empty => Ok(Root::new(self.bits)),
                    Removal::Left(node) => Ok(Root {
                        node: Some(node),
                        bits: self.bits,
                    }),
                }
            }
        }
    }
}
