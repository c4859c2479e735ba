//! A tree, combined with few entries, which lie in a slice.
ghost use Rattle.std.specs.Prelude.{◌≡◌, ◌≢◌, ◌+◌, ◌*◌, ◌≤◌, ◌<◌, ◌∷◌, ◌++◌, [], false, true, MatchOption, None, IfOk, OnOk, length};
ghost use Rattle.rpds_core.specs.Counts.{IsWithin};
ghost use Rattle.rpds_red_black.specs.Combined.{or_same, IsCombination};
ghost use Rattle.rpds_red_black.specs.Cuts.{IsCutAt};
ghost use Rattle.rpds_red_black.specs.Join.{pair_lent, pairs_lent, rank};
ghost use Rattle.rpds_red_black.specs.Logarithm.{most_levels};
ghost use Rattle.rpds_red_black.specs.Pairs.{IsAscending};
ghost use Rattle.rpds_red_black.specs.Shape.{leaf};
ghost use Rattle.rpds_red_black.specs.TreeNode.{pair_of};

use crate::combine::Kept;
use crate::join::Measured;
use crate::tree::{Link, Node, Tree};
use rpds_core::map::entry::Entry;
use rpds_core::steps::Steps;
use std::alloc::{AllocError, Allocator};
use std::rc::Rc;

// So few entries are cut as a slice. The number decides nothing but the time.
const FEW: u32 = 64;

// The entries of a slice before a key and after it, and the one at it.
#[derive(Drop)]
struct CutSlice<'s, 'a, K, V, A: Allocator> {
    before: &'s [&'a Rc<Entry<K, V>, A>],
    found: Option<&'a Rc<Entry<K, V>, A>>,
    after: &'s [&'a Rc<Entry<K, V>, A>],
}

// Whether the slice has no entry.
fn are_none<K, V, A: Allocator>(few: &[&Rc<Entry<K, V>, A>]) -> bool
    ensures yes { result ≡ true → pairs_lent few.now ≡ [] }
    ensures no { result ≡ false → 0 < length (pairs_lent few.now) }
{
    few.is_empty()
}

// The entry of a slice that has no other.
fn only_one<'a, K, V, A: Allocator>(
    few: &[&'a Rc<Entry<K, V>, A>],
) -> Option<&'a Rc<Entry<K, V>, A>>
    requires { 0 < length (pairs_lent few.now) }
    ensures { MatchOption result (2 ≤ length (pairs_lent few.now))
        (λ e. pairs_lent few.now ≡ pair_of e.now.value ∷ []) }
{
    match few {
        [one] => Some(*one),
        _ => None,
    }
}

// Cuts a slice at a key, which it compares with each entry, from the first one on, up to where that isn't below it.
fn cut_slice<'s, 'a, K: Ord, V, A: Allocator>(
    few: &'s [&'a Rc<Entry<K, V>, A>],
    key: &K,
    steps: &mut Steps,
) -> CutSlice<'s, 'a, K, V, A>
    requires { IsAscending K.cmp (pairs_lent few.now) }
    ensures cut { IsCutAt K.cmp key.now (pairs_lent few.now)
        (pairs_lent result.before.now) (pair_lent result.found) (pairs_lent result.after.now) }
    ensures steps { IsWithin (length (pairs_lent few.now)) 0 steps.old steps.new }
    ensures compares { pairs_lent few.now ≢ [] → steps.old.compared < steps.new.compared }
{
    for (place, one) in few.iter().enumerate() {
        let order = steps.compare(&one.key, key);
        if order.is_eq() {
            return CutSlice {
                before: &few[..place],
                found: Some(*one),
                after: &few[place + 1..],
            };
        }
        if order.is_gt() {
            return CutSlice {
                before: &few[..place],
                found: None,
                after: &few[place..],
            };
        }
    }
    CutSlice {
        before: few,
        found: None,
        after: &[],
    }
}

impl<K: Drop, V: Drop, A: Allocator + Copy> Measured<K, V, A> {
    // A tree of the entries.
    fn of_slice(
        alloc: A,
        few: &[&Rc<Entry<K, V>, A>],
        steps: &mut Steps,
    ) -> Result<Measured<K, V, A>, AllocError>
        ensures pairs { IfOk result (λ t. t.entries ≡ pairs_lent few.now) }
        ensures low { IfOk result (λ t. rank t ≤ most_levels (length t.entries)) }
        ensures steps { IsWithin 0 (length (pairs_lent few.now)) steps.old steps.new }
    {
        let items = Vec::from_slice(alloc, few)?;
        let tree = Tree::from_items(alloc, items, steps)?;
        tree.prove_sound();
        let height = tree.height();
        Ok(Measured { tree, height })
    }
}

impl<K: Ord + Drop, V: Drop, A: Allocator + Copy> Measured<K, V, A> {
    // Makes a tree of the entries, where they are kept and nothing was walked.
    fn of_cut(
        alloc: A,
        kept: &Kept,
        few: &[&Rc<Entry<K, V>, A>],
        made: &mut Option<Measured<K, V, A>>,
        steps: &mut Steps,
    ) -> Result<(), AllocError>
        requires ascending { IsAscending K.cmp (pairs_lent few.now) }
        requires none { made.old ≡ None }
        ensures ok { OnOk result
            (IsCombination K.cmp kept.now leaf (pairs_lent few.now) (or_same leaf made.new)) }
        ensures steps { IsWithin 0 (length (pairs_lent few.now)) steps.old steps.new }
    {
        if !kept.cut {
            return Ok(());
        }
        let tree = Measured::of_slice(alloc, few, steps)?;
        *made = Some(tree);
        Ok(())
    }
}

impl<K, V, A: Allocator> Tree<K, V, A> {
    // Whether it has few entries, or a count of few, which wraps.
    pub(crate) fn has_few(&self) -> bool
        ensures { result ≡ false → 2 ≤ length self.now.entries }
    {
        self.count() <= FEW
    }

    // Puts references to its entries behind those that are there.
    fn lend_into<'a>(&'a self, lent: &mut Vec<&'a Rc<Entry<K, V>, A>, A>) -> Result<(), AllocError>
        ensures { OnOk result (pairs_lent lent.new.items ≡ pairs_lent lent.old.items ++ self.now.entries) }
    {
        match &self.root {
            Link::Leaf => Ok(()),
            Link::Branch(_, _, node) => {
                let node: &Node<K, V, A> = node;
                node.left.lend_into(lent)?;
                lent.push(&node.entry)?;
                node.right.lend_into(lent)
            }
        }
    }
}

impl<K: Ord + Drop, V: Drop, A: Allocator + Copy> Tree<K, V, A> {
    // This tree, whose height is passed in and whose entries are kept, combined with the entries of a tree that has few. None
    // means that this tree stays as it is.
    pub(crate) fn combine_small(
        &self,
        alloc: A,
        kept: Kept,
        height: usize,
        small: &Tree<K, V, A>,
        steps: &mut Steps,
    ) -> Result<Option<Measured<K, V, A>>, AllocError>
        requires walked { kept.walked ≡ true }
        requires height { height ≡ self.now.black }
        requires ascending { IsAscending K.cmp self.now.entries }
        requires small_ascending { IsAscending K.cmp small.now.entries }
        requires fits { length self.now.entries + length small.now.entries ≤ 2 * usize.MAX }
        ensures ok { IfOk result (λ m. IsCombination K.cmp kept self.now small.now.entries (or_same self.now m)) }
        ensures steps { let few = length small.now.entries in
            IsWithin (few * self.now.depth) (few * (9 * rank self.now + 3)) steps.old steps.new }
        ensures compares { OnOk result (self.now.entries ≢ [] → small.now.entries ≢ []
            → steps.old.compared < steps.new.compared) }
    {
        let mut lent = Vec::with_capacity(alloc, small.count() as usize)?;
        small.lend_into(&mut lent)?;
        let mut made = None;
        self.combine_few(alloc, &kept, height, &lent, &mut made, steps)?;
        Ok(made)
    }

    // This tree, combined with the entries of a slice. What is made goes to `made`, as by `combine_one`.
    #[cycle(combine_few)]
    #[inline(always)]
    fn combine_few<'a>(
        &'a self,
        alloc: A,
        kept: &Kept,
        height: usize,
        few: &[&'a Rc<Entry<K, V>, A>],
        made: &mut Option<Measured<K, V, A>>,
        steps: &mut Steps,
    ) -> Result<(), AllocError>
        requires walked { kept.now.walked ≡ true }
        requires height { height ≡ self.now.black }
        requires ascending { IsAscending K.cmp self.now.entries }
        requires few_ascending { IsAscending K.cmp (pairs_lent few.now) }
        requires fits { length self.now.entries + length (pairs_lent few.now) ≤ 2 * usize.MAX }
        requires none { made.old ≡ None }
        ensures ok { OnOk result
            (IsCombination K.cmp kept.now self.now (pairs_lent few.now) (or_same self.now made.new)) }
        ensures steps { let count = length (pairs_lent few.now) in
            IsWithin (count * self.now.depth) (count * (9 * rank self.now + 3)) steps.old steps.new }
        ensures compares { self.now.entries ≢ [] → pairs_lent few.now ≢ [] → steps.old.compared < steps.new.compared }
    {
        if are_none(few) {
            return Ok(());
        }
        match only_one(few) {
            Some(one) => self.combine_one(alloc, kept, height, one, made, steps),
            None => self.combine_many(alloc, kept, height, few, made, steps),
        }
    }

    // The same of two entries or more, of which each side of a node gets a part.
    #[cycle(combine_few)]
    fn combine_many<'a>(
        &'a self,
        alloc: A,
        kept: &Kept,
        height: usize,
        many: &[&'a Rc<Entry<K, V>, A>],
        made: &mut Option<Measured<K, V, A>>,
        steps: &mut Steps,
    ) -> Result<(), AllocError>
        requires walked { kept.now.walked ≡ true }
        requires height { height ≡ self.now.black }
        requires ascending { IsAscending K.cmp self.now.entries }
        requires many_ascending { IsAscending K.cmp (pairs_lent many.now) }
        requires many { 2 ≤ length (pairs_lent many.now) }
        requires fits { length self.now.entries + length (pairs_lent many.now) ≤ 2 * usize.MAX }
        requires none { made.old ≡ None }
        ensures ok { OnOk result
            (IsCombination K.cmp kept.now self.now (pairs_lent many.now) (or_same self.now made.new)) }
        ensures steps { let count = length (pairs_lent many.now) in
            IsWithin (count * self.now.depth) (count * (9 * rank self.now + 3)) steps.old steps.new }
        ensures compares { self.now.entries ≢ [] → steps.old.compared < steps.new.compared }
    {
        match &self.root {
            Link::Leaf => Measured::of_cut(alloc, kept, many, made, steps),
            Link::Branch(color, _, node) => {
                let node: &Node<K, V, A> = node;
                let below = node.height_below(*color, height);
                let CutSlice {
                    before,
                    found,
                    after,
                } = cut_slice(many, &node.entry.key, steps);
                let mut left = None;
                let mut right = None;
                node.left
                    .combine_few(alloc, kept, below, before, &mut left, steps)?;
                node.right
                    .combine_few(alloc, kept, below, after, &mut right, steps)?;
                node.combine_into(alloc, kept, *color, below, left, found, right, made, steps)
            }
        }
    }
}
