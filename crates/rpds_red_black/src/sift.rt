//! What is kept of a tree's entries, and of those of equal keys in another tree.
ghost use Rattle.std.specs.Prelude.{if◌then◌else◌, ◌≡◌, ◌≢◌, ◌+◌, ◌*◌, ◌<◌, ◌≤◌, ◌++◌, [], false, map, vec_len, IfOk, OnOk, length};
ghost use Rattle.rpds_core.specs.Counts.{IsWithin};
ghost use Rattle.rpds_red_black.specs.Cuts.{items_of, sifted, IsCombined};
ghost use Rattle.rpds_red_black.specs.Join.{pair_lent, rank};
ghost use Rattle.rpds_red_black.specs.Logarithm.{floor_log2};
ghost use Rattle.rpds_red_black.specs.Pairs.{IsAscending};
ghost use Rattle.rpds_red_black.specs.TreeNode.{pair_of, pairs_of};
ghost use Rattle.rpds_red_black.specs.declared.tree.Color.TheVariants.{Black};

use crate::combine::{Kept, choice, choose};
use crate::join::Measured;
use crate::tree::{Link, Node, Tree};
use rpds_core::map::entry::Entry;
use rpds_core::steps::Steps;
use std::alloc::{AllocError, Allocator};
use std::rc::Rc;

impl Kept {
    /// How many pairs a tree has at most where each of its keys is looked up. That shares no node with it, so the number is small
    /// where its pairs may stay. It decides nothing but the time.
    #[inline(always)]
    pub fn most_looked_up(self) -> u32
        ensures { result ≡ (if self.walked then 16 else 512) }
    {
        if self.walked { 16 } else { 512 }
    }
}

// A tree that keys are looked up in, what is kept then, and how many entries that may be.
#[derive(Drop)]
struct Search<'a, K, V, A: Allocator> {
    other: &'a Tree<K, V, A>,
    kept: Kept,
    most: usize,
}

// Makes room for so many entries where there is none yet.
fn make_room<T, A: Allocator>(chosen: &mut Vec<T, A>, most: usize) -> Result<(), AllocError>
    ensures items { chosen.new.items ≡ chosen.old.items }
    ensures len { vec_len chosen.new ≡ vec_len chosen.old }
{
    if chosen.capacity() != 0 {
        return Ok(());
    }
    chosen.reserve_exact(most)
}

// Puts one more owner of the entry that is kept, if one is, behind what was chosen. The first one asks for the room of all.
#[inline(always)]
fn push_kept<K: Drop, V: Drop, A: Allocator>(
    chosen: &mut Vec<Rc<Entry<K, V>, A>, A>,
    most: usize,
    kept: Option<&Rc<Entry<K, V>, A>>,
) -> Result<(), AllocError>
    ensures ok { let held = map (λ e. pair_of e.value) in
        OnOk result (held chosen.new.items ≡ held chosen.old.items ++ items_of (pair_lent kept.entry)) }
    ensures few { OnOk result (vec_len chosen.new ≤ vec_len chosen.old + 1) }
{
    match kept {
        None => Ok(()),
        Some(entry) => {
            make_room(chosen, most)?;
            chosen.push(entry.clone()?)?;
            Ok(())
        }
    }
}

// Without code, for its clauses: two trees are no higher than the logarithms of their numbers of entries.
#[tactic(auto, using(crate::proofs::Ranks::black_log))]
fn prove_low<K, V, A: Allocator>(left: &Measured<K, V, A>, right: &Measured<K, V, A>)
    ensures left { left.now.black ≤ floor_log2 (length left.now.entries + 1) }
    ensures right { right.now.black ≤ floor_log2 (length right.now.entries + 1) }
{
    left.tree.prove_sound();
    right.tree.prove_sound();
}

impl<K: Ord + Drop, V: Drop, A: Allocator + Copy> Tree<K, V, A> {
    /// What is kept of this tree, whose height is passed in, and of the entries of equal keys in the other one, whose other entries
    /// aren't kept.
    ///
    /// It walks the upper nodes of this tree, and cuts the other one at each: a tree whose keys lie between two neighboring keys of
    /// the other is done at once. Below them each key is looked up in its piece. The error means that memory ran out.
    pub fn sift(
        &self,
        alloc: A,
        kept: Kept,
        height: usize,
        cut: &Measured<K, V, A>,
        steps: &mut Steps,
    ) -> Result<Measured<K, V, A>, AllocError>
        requires alone { kept.cut ≡ false }
        requires height { height ≡ self.now.black }
        requires ascending { IsAscending K.cmp self.now.entries }
        requires cut_ascending { IsAscending K.cmp cut.now.entries }
        requires fits { length self.now.entries + length cut.now.entries ≤ 2 * usize.MAX }
        ensures ok { IfOk result (λ t. IsCombined K.cmp kept self.now.entries cut.now.entries t.entries) }
        ensures steps { let count = length self.now.entries in
            let most = floor_log2 (count + length cut.now.entries + 1) in
            IsWithin (count * rank cut.now) (count * (4 * rank cut.now + 10 * most + 3)) steps.old steps.new }
        ensures compares { OnOk result (self.now.entries ≢ [] → cut.now.entries ≢ []
            → steps.old.compared < steps.new.compared) }
    {
        match &self.root {
            Link::Leaf => Ok(Measured::empty()),
            Link::Branch(color, count, node) => {
                let node: &Node<K, V, A> = node;
                if cut.tree.is_leaf() {
                    return Measured::share_if(kept.walked, self, height);
                }
                cut.tree.prove_sound();
                if *count <= kept.most_looked_up() {
                    return self.looked_up(alloc, kept, &cut.tree, steps);
                }
                let below = node.height_below(*color, height);
                let split = cut.tree.split(alloc, cut.height, &node.entry.key, steps)?;
                let left = node.left.sift(alloc, kept, below, &split.before, steps)?;
                let right = node.right.sift(alloc, kept, below, &split.after, steps)?;
                prove_low(&left, &right);
                let middle = choose(kept, &node.entry, split.found)?;
                Tree::join_around(alloc, left, middle, right, steps)
            }
        }
    }

    /// What is kept of this tree and of the entries of equal keys in the other one, where each key is looked up. The tree that is
    /// built of them has a black root. The error means that memory ran out.
    pub fn look_up_all(
        &self,
        alloc: A,
        kept: Kept,
        other: &Tree<K, V, A>,
        steps: &mut Steps,
    ) -> Result<Tree<K, V, A>, AllocError>
        requires { IsAscending K.cmp other.now.entries }
        ensures ok { IfOk result (λ t. t.entries ≡ sifted K.cmp kept other.now.entries self.now.entries) }
        ensures color { IfOk result (λ t. t.color ≡ Black) }
        ensures steps { let count = length self.now.entries in
            IsWithin (count * other.now.depth) count steps.old steps.new }
        ensures compares { OnOk result (self.now.entries ≢ [] → other.now.entries ≢ []
            → steps.old.compared < steps.new.compared) }
    {
        let mut chosen = Vec::new(alloc);
        let search = Search {
            other,
            kept,
            most: self.count() as usize,
        };
        self.choose_into(&search, &mut chosen, steps)?;
        Tree::from_items(alloc, chosen, steps)
    }

    // The same, with the height of the tree that is built.
    fn looked_up(
        &self,
        alloc: A,
        kept: Kept,
        other: &Tree<K, V, A>,
        steps: &mut Steps,
    ) -> Result<Measured<K, V, A>, AllocError>
        requires ascending { IsAscending K.cmp other.now.entries }
        requires fits { length self.now.entries ≤ 2 * usize.MAX }
        ensures ok { IfOk result (λ t. t.entries ≡ sifted K.cmp kept other.now.entries self.now.entries) }
        ensures steps { let count = length self.now.entries in
            IsWithin (count * other.now.depth) count steps.old steps.new }
        ensures compares { OnOk result (self.now.entries ≢ [] → other.now.entries ≢ []
            → steps.old.compared < steps.new.compared) }
    {
        let tree = self.look_up_all(alloc, kept, other, steps)?;
        let height = tree.height();
        Ok(Measured { tree, height })
    }

    // Looks each key up, and puts what is kept behind what was chosen.
    #[cycle(choose)]
    #[inline(always)]
    fn choose_into(
        &self,
        search: &Search<'_, K, V, A>,
        chosen: &mut Vec<Rc<Entry<K, V>, A>, A>,
        steps: &mut Steps,
    ) -> Result<(), AllocError>
        requires { IsAscending K.cmp search.now.other.now.entries }
        ensures ok { let held = map (λ e. pair_of e.value) in
            OnOk result (held chosen.new.items
            ≡ held chosen.old.items ++ sifted K.cmp search.now.kept search.now.other.now.entries self.now.entries) }
        ensures few { OnOk result (vec_len chosen.new ≤ vec_len chosen.old + length self.now.entries) }
        ensures steps { IsWithin (length self.now.entries * search.now.other.now.depth) 0 steps.old steps.new }
        ensures compares { OnOk result (self.now.entries ≢ [] → search.now.other.now.entries ≢ []
            → steps.old.compared < steps.new.compared) }
    {
        match &self.root {
            Link::Leaf => Ok(()),
            Link::Branch(_, _, node) => node.choose_into(search, chosen, steps),
        }
    }
}

impl<K: Ord + Drop, V: Drop, A: Allocator + Copy> Node<K, V, A> {
    // The same of the node's entry and those of its sides.
    #[cycle(choose)]
    fn choose_into(
        &self,
        search: &Search<'_, K, V, A>,
        chosen: &mut Vec<Rc<Entry<K, V>, A>, A>,
        steps: &mut Steps,
    ) -> Result<(), AllocError>
        requires { IsAscending K.cmp search.now.other.now.entries }
        ensures ok { let held = map (λ e. pair_of e.value) in
            OnOk result (held chosen.new.items
            ≡ held chosen.old.items ++ sifted K.cmp search.now.kept search.now.other.now.entries (pairs_of self.now)) }
        ensures few { OnOk result (vec_len chosen.new ≤ vec_len chosen.old + length (pairs_of self.now)) }
        ensures steps { IsWithin (length (pairs_of self.now) * search.now.other.now.depth) 0 steps.old steps.new }
        ensures compares { OnOk result (search.now.other.now.entries ≢ []
            → steps.old.compared < steps.new.compared) }
    {
        self.left.choose_into(search, chosen, steps)?;
        let found = search.other.entry_counted(&self.entry.key, steps);
        push_kept(chosen, search.most, choice(search.kept, &self.entry, found))?;
        self.right.choose_into(search, chosen, steps)
    }
}
