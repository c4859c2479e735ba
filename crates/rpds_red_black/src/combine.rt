//! Two trees, combined by their keys: one is walked, and the other one cut at each of its keys.
ghost use Rattle.std.specs.Prelude.{◌≡◌, ◌≢◌, ◌+◌, ◌*◌, ◌<◌, ◌≤◌, ◌∷◌, [], true, max, if◌then◌else◌, IfOk, IsSome, None, OnOk, Some, length};
ghost use Rattle.rpds_core.specs.Counts.{IsWithin};
ghost use Rattle.rpds_red_black.specs.Combined.{or_same, rank_over, IsCombination, IsLinked};
ghost use Rattle.rpds_red_black.specs.Cuts.{kept_of_both, pick, turned};
ghost use Rattle.rpds_red_black.specs.Join.{gap, pair_held, pair_lent, rank};
ghost use Rattle.rpds_red_black.specs.Pairs.{IsAscending};
ghost use Rattle.rpds_red_black.specs.Shape.{branch, leaf, MayStandOver};
ghost use Rattle.rpds_red_black.specs.TreeNode.{painted, pair_of, shape_of, IsEven};
ghost use Rattle.rpds_red_black.specs.declared.tree.Color.TheVariants.{Red};

use crate::join::{Measured, TakenOff};
use crate::tree::{Color, Link, Node, Tree};
use rpds_core::map::entry::Entry;
use rpds_core::steps::Steps;
use std::alloc::{AllocError, Allocator};
use std::rc::Rc;

/// Whose entry is kept where both trees have an equal key.
#[derive(Clone, Copy, Drop)]
pub enum Common {
    /// That of the tree that is walked.
    Walked,
    /// That of the other tree, which is cut or looked into.
    Cut,
    /// None is kept.
    Neither,
}

/// What is kept: entries that the walked tree alone has, those that the other one alone has, and one of those in both.
#[derive(Clone, Copy, Drop)]
pub struct Kept {
    /// Whether those are kept that the walked tree alone has.
    pub walked: bool,
    /// Whether those are kept that the other tree alone has.
    pub cut: bool,
    /// Which are kept of those in both.
    pub common: Common,
}

impl Kept {
    /// The same, said of the trees the other way round.
    pub fn turned(self) -> Kept
        ensures { result ≡ turned self }
    {
        Kept {
            walked: self.cut,
            cut: self.walked,
            common: match self.common {
                Common::Walked => Common::Cut,
                Common::Cut => Common::Walked,
                Common::Neither => Common::Neither,
            },
        }
    }
}

// Which entry is kept of one that is in the walked tree, and one of an equal key in the other, if there is one.
#[inline(always)]
pub(crate) fn choice<'a, K, V, A: Allocator>(
    kept: Kept,
    walked: &'a Rc<Entry<K, V>, A>,
    found: Option<&'a Rc<Entry<K, V>, A>>,
) -> Option<&'a Rc<Entry<K, V>, A>>
    ensures { pair_lent result ≡ pick kept (Some (pair_of walked.now.value)) (pair_lent found.entry) }
{
    match found {
        None if kept.walked => Some(walked),
        None => None,
        Some(cut) => match kept.common {
            Common::Walked => Some(walked),
            Common::Cut => Some(cut),
            Common::Neither => None,
        },
    }
}

// One more owner of the entry that is kept, if one is.
pub(crate) fn choose<K: Drop, V: Drop, A: Allocator>(
    kept: Kept,
    walked: &Rc<Entry<K, V>, A>,
    found: Option<&Rc<Entry<K, V>, A>>,
) -> Result<Option<Rc<Entry<K, V>, A>>, AllocError>
    ensures { IfOk result (λ m.
        pair_held m ≡ pick kept (Some (pair_of walked.now.value)) (pair_lent found.entry)) }
{
    match choice(kept, walked, found) {
        None => Ok(None),
        Some(entry) => {
            let entry = entry.clone()?;
            Ok(Some(entry))
        }
    }
}

// Whether the walked entry is kept, whose key another entry may have.
fn keeps_walked<K, V, A: Allocator>(kept: Kept, found: Option<&Rc<Entry<K, V>, A>>) -> bool
    requires { kept.walked ≡ true }
    ensures { result ≡ true → (p : K × V) → pick kept (Some p) (pair_lent found.entry) ≡ Some p }
{
    match found {
        None => true,
        Some(_) => match kept.common {
            Common::Walked => true,
            Common::Cut => false,
            Common::Neither => false,
        },
    }
}

// Whether a node of the color may stand over both trees.
#[inline(always)]
fn may_stand_over<K, V, A: Allocator>(
    color: Color,
    left: &Tree<K, V, A>,
    right: &Tree<K, V, A>,
) -> bool
    ensures { result ≡ true → MayStandOver color left.now × MayStandOver color right.now }
{
    match color {
        Color::Red => !left.has_red_root() && !right.has_red_root(),
        Color::Black => true,
    }
}

// Both trees in one, with the entry between them. Where they are as high as the sides of a node of the color were, a node of that
// color is put over them.
#[inline(always)]
fn relink<K: Drop, V: Drop, A: Allocator + Copy>(
    alloc: A,
    color: Color,
    below: usize,
    left: Measured<K, V, A>,
    entry: Rc<Entry<K, V>, A>,
    right: Measured<K, V, A>,
    steps: &mut Steps,
) -> Result<Measured<K, V, A>, AllocError>
    requires fits { length left.entries + length right.entries < 2 * usize.MAX }
    ensures ok { IfOk result (IsLinked (Some (pair_of entry.value)) (rank_over color below) left right) }
    ensures steps { IsWithin 0 (2 * gap left.black right.black + 2) steps.old steps.new }
{
    let level = left.height == below && right.height == below;
    if !level || !may_stand_over(color, &left.tree, &right.tree) {
        return Tree::join(alloc, left, entry, right, steps);
    }
    left.tree.prove_sound();
    let height = match color {
        Color::Red => left.height,
        Color::Black => left.height + 1,
    };
    let node = Node {
        left: left.tree,
        entry,
        right: right.tree,
    };
    let tree = Tree::from_node(alloc, color, node, steps)?;
    Ok(Measured { tree, height })
}

// Both trees in one, with the entry between them, if there is one.
#[inline(always)]
fn link<K: Drop, V: Drop, A: Allocator + Copy>(
    alloc: A,
    color: Color,
    below: usize,
    left: Measured<K, V, A>,
    middle: Option<Rc<Entry<K, V>, A>>,
    right: Measured<K, V, A>,
    steps: &mut Steps,
) -> Result<Measured<K, V, A>, AllocError>
    requires fits { length left.entries + length right.entries < 2 * usize.MAX }
    ensures ok { IfOk result (IsLinked (pair_held middle) (rank_over color below) left right) }
    ensures made { IsSome middle → steps.new.made ≤ steps.old.made + (2 * gap left.black right.black + 2) }
    ensures steps { IsWithin 0 (10 * max left.black right.black + 3) steps.old steps.new }
{
    if let Some(entry) = middle {
        return relink(alloc, color, below, left, entry, right, steps);
    }
    if right.tree.is_leaf() {
        return Ok(left);
    }
    if left.tree.is_leaf() {
        return Ok(right);
    }
    let TakenOff { first, rest } = right.take_off_first(alloc, steps)?;
    relink(alloc, color, below, left, first, rest, steps)
}

impl<K: Drop, V: Drop, A: Allocator + Copy> Measured<K, V, A> {
    // This tree, or one more owner of the other one, whose height is passed in.
    #[inline(always)]
    fn or_share(
        made: Option<Measured<K, V, A>>,
        tree: &Tree<K, V, A>,
        height: usize,
    ) -> Result<Measured<K, V, A>, AllocError>
        requires { height ≡ tree.now.black }
        ensures { IfOk result (λ m. m ≡ or_same tree.now made) }
    {
        match made {
            Some(made) => Ok(made),
            None => Measured::share(tree, height),
        }
    }

    // Makes a tree of one entry, where it is kept.
    fn of_one(
        alloc: A,
        kept: bool,
        one: &Rc<Entry<K, V>, A>,
        made: &mut Option<Measured<K, V, A>>,
        steps: &mut Steps,
    ) -> Result<(), AllocError>
        requires { made.old ≡ None }
        ensures ok { OnOk result
            (made.new ≡ (if kept then Some (branch Red leaf (pair_of one.now.value) leaf) else None)) }
        ensures steps { IsWithin 0 1 steps.old steps.new }
    {
        if !kept {
            return Ok(());
        }
        let entry = one.clone()?;
        let tree = Tree::of_entry(alloc, Color::Red, entry, steps)?;
        *made = Some(Measured { tree, height: 0 });
        Ok(())
    }
}

impl<K: Drop, V: Drop, A: Allocator + Copy> Node<K, V, A> {
    // This node over its sides, or over what came in their place, with what is kept of its entry and of one of an equal key. None
    // means that it stays as it is.
    #[inline(always)]
    pub(crate) fn combined<'a>(
        &'a self,
        alloc: A,
        kept: Kept,
        color: Color,
        below: usize,
        left: Option<Measured<K, V, A>>,
        found: Option<&'a Rc<Entry<K, V>, A>>,
        right: Option<Measured<K, V, A>>,
        steps: &mut Steps,
    ) -> Result<Option<Measured<K, V, A>>, AllocError>
        requires walked { kept.walked ≡ true }
        requires even { IsEven (painted color self.now) }
        requires below { below ≡ self.now.left.black }
        requires fits { length (or_same self.now.left left).entries + length (or_same self.now.right right).entries
            < 2 * usize.MAX }
        ensures ok { let old = shape_of (painted color self.now) in
            let middle = pick kept (Some (pair_of self.now.entry.value)) (pair_lent found.entry) in
            IfOk result (λ m.
            IsLinked middle (rank old) (or_same self.now.left left) (or_same self.now.right right) (or_same old m)) }
        ensures made { pair_lent found.entry ≡ None → steps.new.made ≤ steps.old.made
            + (2 * gap (or_same self.now.left left).black (or_same self.now.right right).black + 2) }
        ensures steps { IsWithin 0
            (10 * max (or_same self.now.left left).black (or_same self.now.right right).black + 3) steps.old steps.new }
    {
        if left.is_none() && right.is_none() && keeps_walked(kept, found) {
            return Ok(None);
        }
        let middle = choose(kept, &self.entry, found)?;
        let left = Measured::or_share(left, &self.left, below)?;
        let right = Measured::or_share(right, &self.right, below)?;
        let made = link(alloc, color, below, left, middle, right, steps)?;
        Ok(Some(made))
    }

    // The same, with what is made apart.
    #[inline(always)]
    pub(crate) fn combine_into<'a>(
        &'a self,
        alloc: A,
        kept: &Kept,
        color: Color,
        below: usize,
        left: Option<Measured<K, V, A>>,
        found: Option<&'a Rc<Entry<K, V>, A>>,
        right: Option<Measured<K, V, A>>,
        made: &mut Option<Measured<K, V, A>>,
        steps: &mut Steps,
    ) -> Result<(), AllocError>
        requires walked { kept.now.walked ≡ true }
        requires even { IsEven (painted color self.now) }
        requires below { below ≡ self.now.left.black }
        requires fits { length (or_same self.now.left left).entries + length (or_same self.now.right right).entries
            < 2 * usize.MAX }
        ensures ok { let old = shape_of (painted color self.now) in
            let middle = pick kept.now (Some (pair_of self.now.entry.value)) (pair_lent found.entry) in
            OnOk result
            (IsLinked middle (rank old) (or_same self.now.left left) (or_same self.now.right right) (or_same old made.new)) }
        ensures made { pair_lent found.entry ≡ None → steps.new.made ≤ steps.old.made
            + (2 * gap (or_same self.now.left left).black (or_same self.now.right right).black + 2) }
        ensures steps { IsWithin 0
            (10 * max (or_same self.now.left left).black (or_same self.now.right right).black + 3) steps.old steps.new }
    {
        *made = self.combined(alloc, *kept, color, below, left, found, right, steps)?;
        Ok(())
    }

    // This node with what is kept of its entry and of one of an equal key. Nothing is made where it stays as it is.
    //
    // It isn't inlined, as what links a node: where no node is made, a descent to one entry has few registers to save.
    #[inline(never)]
    fn combine_own(
        &self,
        alloc: A,
        kept: &Kept,
        color: Color,
        below: usize,
        one: &Rc<Entry<K, V>, A>,
        made: &mut Option<Measured<K, V, A>>,
        steps: &mut Steps,
    ) -> Result<(), AllocError>
        requires walked { kept.now.walked ≡ true }
        requires even { IsEven (painted color self.now) }
        requires below { below ≡ self.now.left.black }
        requires fits { length self.now.left.entries + length self.now.right.entries < 2 * usize.MAX }
        ensures ok { let old = shape_of (painted color self.now) in
            let middle = kept_of_both kept.now.common (pair_of self.now.entry.value) (pair_of one.now.value) in
            OnOk result (IsLinked middle (rank old) self.now.left self.now.right (or_same old made.new)) }
        ensures steps { IsWithin 0 (10 * max self.now.left.black self.now.right.black + 3) steps.old steps.new }
    {
        self.combine_into(
            alloc,
            kept,
            color,
            below,
            None,
            Some(one),
            None,
            made,
            steps,
        )
    }

    // This node over what came in place of its left side.
    #[inline(never)]
    fn link_left(
        &self,
        alloc: A,
        color: Color,
        below: usize,
        made: &mut Option<Measured<K, V, A>>,
        steps: &mut Steps,
    ) -> Result<(), AllocError>
        requires even { IsEven (painted color self.now) }
        requires below { below ≡ self.now.left.black }
        requires fits { length (or_same self.now.left made.old).entries + length self.now.right.entries < 2 * usize.MAX }
        ensures ok { let old = shape_of (painted color self.now) in
            let middle = Some (pair_of self.now.entry.value) in
            OnOk result (IsLinked middle (rank old) (or_same self.now.left made.old) self.now.right (or_same old made.new)) }
        ensures steps { IsWithin 0
            (2 * gap (or_same self.now.left made.old).black self.now.right.black + 2) steps.old steps.new }
    {
        match made.take() {
            None => Ok(()),
            Some(left) => {
                let entry = self.entry.clone()?;
                let right = Measured::share(&self.right, below)?;
                let linked = relink(alloc, color, below, left, entry, right, steps)?;
                *made = Some(linked);
                Ok(())
            }
        }
    }

    // The same where something came in its place. Else this node stays as it is.
    #[inline(always)]
    fn over_left(
        &self,
        alloc: A,
        color: Color,
        below: usize,
        made: &mut Option<Measured<K, V, A>>,
        steps: &mut Steps,
    ) -> Result<(), AllocError>
        requires even { IsEven (painted color self.now) }
        requires below { below ≡ self.now.left.black }
        requires fits { length (or_same self.now.left made.old).entries + length self.now.right.entries < 2 * usize.MAX }
        ensures ok { let old = shape_of (painted color self.now) in
            let middle = Some (pair_of self.now.entry.value) in
            OnOk result (IsLinked middle (rank old) (or_same self.now.left made.old) self.now.right (or_same old made.new)) }
        ensures steps { IsWithin 0
            (2 * gap (or_same self.now.left made.old).black self.now.right.black + 2) steps.old steps.new }
    {
        if made.is_none() {
            return Ok(());
        }
        self.link_left(alloc, color, below, made, steps)
    }

    // This node over what came in place of its right side.
    #[inline(never)]
    fn link_right(
        &self,
        alloc: A,
        color: Color,
        below: usize,
        made: &mut Option<Measured<K, V, A>>,
        steps: &mut Steps,
    ) -> Result<(), AllocError>
        requires even { IsEven (painted color self.now) }
        requires below { below ≡ self.now.left.black }
        requires fits { length self.now.left.entries + length (or_same self.now.right made.old).entries < 2 * usize.MAX }
        ensures ok { let old = shape_of (painted color self.now) in
            let middle = Some (pair_of self.now.entry.value) in
            OnOk result (IsLinked middle (rank old) self.now.left (or_same self.now.right made.old) (or_same old made.new)) }
        ensures steps { IsWithin 0
            (2 * gap self.now.left.black (or_same self.now.right made.old).black + 2) steps.old steps.new }
    {
        match made.take() {
            None => Ok(()),
            Some(right) => {
                let entry = self.entry.clone()?;
                let left = Measured::share(&self.left, below)?;
                let linked = relink(alloc, color, below, left, entry, right, steps)?;
                *made = Some(linked);
                Ok(())
            }
        }
    }

    // The same where something came in its place. Else this node stays as it is.
    #[inline(always)]
    fn over_right(
        &self,
        alloc: A,
        color: Color,
        below: usize,
        made: &mut Option<Measured<K, V, A>>,
        steps: &mut Steps,
    ) -> Result<(), AllocError>
        requires even { IsEven (painted color self.now) }
        requires below { below ≡ self.now.left.black }
        requires fits { length self.now.left.entries + length (or_same self.now.right made.old).entries < 2 * usize.MAX }
        ensures ok { let old = shape_of (painted color self.now) in
            let middle = Some (pair_of self.now.entry.value) in
            OnOk result (IsLinked middle (rank old) self.now.left (or_same self.now.right made.old) (or_same old made.new)) }
        ensures steps { IsWithin 0
            (2 * gap self.now.left.black (or_same self.now.right made.old).black + 2) steps.old steps.new }
    {
        if made.is_none() {
            return Ok(());
        }
        self.link_right(alloc, color, below, made, steps)
    }
}

impl<K: Ord + Drop, V: Drop, A: Allocator + Copy> Tree<K, V, A> {
    /// This tree, whose height is passed in and whose entries are kept, combined with the other one, which is cut at each node on
    /// the way down, until there is little left of it, or nothing left to cut it at. None means that this tree stays as it is; the
    /// error, that memory ran out. After Blelloch, Ferizovic, Sun (Just Join for Parallel Ordered Sets, 2016).
    pub fn combine(
        &self,
        alloc: A,
        kept: Kept,
        height: usize,
        cut: &Measured<K, V, A>,
        steps: &mut Steps,
    ) -> Result<Option<Measured<K, V, A>>, AllocError>
        requires walked { kept.walked ≡ true }
        requires height { height ≡ self.now.black }
        requires ascending { IsAscending K.cmp self.now.entries }
        requires cut_ascending { IsAscending K.cmp cut.now.entries }
        requires fits { length self.now.entries + length cut.now.entries ≤ 2 * usize.MAX }
        ensures ok { IfOk result (λ m. IsCombination K.cmp kept self.now cut.now.entries (or_same self.now m)) }
        ensures steps { let few = length cut.now.entries in
            IsWithin (few * self.now.depth) (few * (9 * rank self.now + 3)) steps.old steps.new }
        ensures compares { OnOk result (self.now.entries ≢ [] → cut.now.entries ≢ []
            → steps.old.compared < steps.new.compared) }
    {
        if cut.tree.is_leaf() {
            return Ok(None);
        }
        cut.tree.prove_low_rank();
        match &self.root {
            Link::Leaf => cut.share_kept(kept.cut),
            Link::Branch(color, _, node) => {
                let node: &Node<K, V, A> = node;
                if cut.tree.has_few() {
                    return self.combine_small(alloc, kept, height, &cut.tree, steps);
                }
                let below = node.height_below(*color, height);
                let split = cut.tree.split(alloc, cut.height, &node.entry.key, steps)?;
                let left = node.left.combine(alloc, kept, below, &split.before, steps)?;
                let right = node.right.combine(alloc, kept, below, &split.after, steps)?;
                node.combined(alloc, kept, *color, below, left, split.found, right, steps)
            }
        }
    }

    // This tree, whose height is passed in and whose entries are kept, combined with one entry. What is made goes to `made`, which
    // is None at first, and stays so where this tree stays as it is: a value of it and of an error would be moved at each node.
    pub(crate) fn combine_one(
        &self,
        alloc: A,
        kept: &Kept,
        height: usize,
        one: &Rc<Entry<K, V>, A>,
        made: &mut Option<Measured<K, V, A>>,
        steps: &mut Steps,
    ) -> Result<(), AllocError>
        requires walked { kept.now.walked ≡ true }
        requires height { height ≡ self.now.black }
        requires ascending { IsAscending K.cmp self.now.entries }
        requires fits { length self.now.entries < 2 * usize.MAX }
        requires none { made.old ≡ None }
        ensures ok { OnOk result
            (IsCombination K.cmp kept.now self.now (pair_of one.now.value ∷ []) (or_same self.now made.new)) }
        ensures steps { IsWithin self.now.depth (9 * rank self.now + 3) steps.old steps.new }
        ensures compares { self.now.entries ≢ [] → steps.old.compared < steps.new.compared }
    {
        match &self.root {
            Link::Leaf => Measured::of_one(alloc, kept.cut, one, made, steps),
            Link::Branch(color, _, node) => {
                let node: &Node<K, V, A> = node;
                let below = node.height_below(*color, height);
                let order = steps.compare(&one.key, &node.entry.key);
                if order.is_eq() {
                    return node.combine_own(alloc, kept, *color, below, one, made, steps);
                }
                if order.is_lt() {
                    node.left.combine_one(alloc, kept, below, one, made, steps)?;
                    node.over_left(alloc, *color, below, made, steps)
                } else {
                    node.right
                        .combine_one(alloc, kept, below, one, made, steps)?;
                    node.over_right(alloc, *color, below, made, steps)
                }
            }
        }
    }
}
