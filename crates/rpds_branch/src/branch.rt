//! A map, and the map that it branched off.
ghost use Rattle.std.specs.Prelude.{◌≡◌, ◌↔◌, ◌≢◌, ◌+◌, ◌*◌, ◌≤◌, [], Ok, Option, is_some, length, map, IfOk, IsTrue, OnOk, OnErr};
ghost use Rattle.std.specs.Map.Iter.{ShowsInOrder};
ghost use Rattle.std.specs.Option.{option_map, option_or};
ghost use Rattle.rpds_branch.specs.Branches.{fewest_compared, touched_with};
ghost use Rattle.rpds_core.specs.Calls.{FnOnceReturnsAtOption};
ghost use Rattle.rpds_core.specs.Counts.{IsWithin};
ghost use Rattle.rpds_red_black.specs.Logarithm.{most_levels};
ghost use Rattle.rpds_tree.specs.Altered.{with_found};
ghost use Rattle.rpds_tree.specs.Differences.{change_value, differences};
ghost use Rattle.rpds_tree.specs.OrderedSet.{put_member};
ghost use Rattle.rpds_tree.specs.Pairs.{find, put, without};

mod changes;
mod merge;

pub use crate::branch::changes::Changes;
use crate::branch::changes::list_of_changes;
pub use crate::branch::merge::Merged;
use rpds_core::key::OrdKey;
use rpds_core::map::entry::Entry;
use rpds_core::steps::Steps;
use rpds_tree::map::red_black_tree_map::{MapChange, RedBlackTreeMap};
use std::alloc::{AllocError, Allocator, Global};
use std::marker::Model;
use std::rc::Rc;

/// A map, and the map that it branched off. It keeps the keys that were put in or taken out since, so that changes are
/// found and merged by these keys alone.
///
/// ```
/// let base = RedBlackTreeMap::new(alloc).insert(1, "one")?;
/// let mut ours = Branch::new(&base)?;
/// ours.insert_mut(2, "two")?;
/// let mut theirs = Branch::new(&base)?;
/// theirs.remove_mut(&1)?;
/// let merged = ours.merge_ours(&theirs)?;
/// println!(rt; "{}", merged.branch.current())?;    // {2: two}
/// ```
///
/// | call | cost in nodes | allocations |
/// |---|---|---|
/// | `new`, `base`, `current`, `clone` | constant | none |
/// | `insert`, `remove`, `update`, `copy_from` | a few paths of the map, and one of the changed keys | those of `insert` or `remove` on the map, and of `insert_shared` on the changed keys |
/// | `insert_mut`, `remove_mut`, `update_mut`, `copy_from_mut` | a few paths of the map, and one of the changed keys | those of `insert_mut` or `remove_mut` on the map, and of `insert_shared` on the changed keys |
/// | `revert` | a path of each map | those of `copy_from` on the map |
/// | `revert_mut` | a path of each map | those of `copy_from_mut` on the map |
/// | `changes`, `is_changed` | each changed key once, and a path of both maps for each | none |
/// | `list_changes` | as `changes` | those of the list |
/// | `merge`, `merge_ours` | a few paths for each key that they changed, and those of a `union` of the changed keys | a few for each key that is taken over, and those of that `union` |
/// | `rebase` | a few paths for each changed key | a few for each key that is taken over |
///
/// Neither a key nor a value is cloned, but for a key in `merge`: the maps share their pairs. A key that is changed back stays among
/// the changed keys, and so costs what they cost, but it is no change. After a merge those of both sides are among them.
/// `Branch::new(branch.current())` forgets them all. A pair that was taken out is held as long as the branch is.
#[derive(Drop)]
#[must_use = "a change returns a new branch, and leaves the old one as it is"]
pub struct Branch<K: Ord, V, A: Allocator = Global> {
    base: RedBlackTreeMap<K, V, A>,
    current: RedBlackTreeMap<K, V, A>,
    // A pair of each key that was put in or taken out: the one that came, or the one that went.
    touched: RedBlackTreeMap<K, V, A>,
}

impl<K: Ord, V, A: Allocator> Model for Branch<K, V, A> {
    ghost use Rattle.std.specs.Map.{keys_of};
    ghost use Rattle.rpds_branch.specs.Branches.{Branched, SparesOthers, branched};

    ghost Value = { Branched K V };

    ghost view = { λ b. branched b.base b.current (keys_of b.touched.entries) };

    ghost invariant = { λ b. SparesOthers K.cmp b.touched.entries b.base.entries b.current.entries };
}

impl<K: Ord, V, A: Allocator> Branch<K, V, A> {
    /// The map that it branched off.
    pub fn base(&self) -> &RedBlackTreeMap<K, V, A>
        ensures { result.now ≡ self.now.base }
    {
        &self.base
    }

    /// The map as it is now.
    pub fn current(&self) -> &RedBlackTreeMap<K, V, A>
        ensures { result.now ≡ self.now.current }
    {
        &self.current
    }
}

impl<K: Ord, V: Eq, A: Allocator> Branch<K, V, A> {
    /// What changed since it branched off, in the order of the keys: the [`diff`](RedBlackTreeMap::diff) of both maps, but from the
    /// changed keys alone.
    pub fn changes(&self) -> Changes<'_, K, V, A>
        ensures rest { result ≡ differences K.cmp V.eq self.now.base.entries self.now.current.entries }

        // `next` gives them in this order.
        ensures runs { ShowsInOrder (change_value {K = K} {V = V}) }
    {
        Changes::new(&self.base, &self.current, &self.touched)
    }

    /// Whether something changed since it branched off.
    pub fn is_changed(&self) -> bool
        ensures { IsTrue result
            ↔ (differences K.cmp V.eq self.now.base.entries self.now.current.entries ≢ []) }
    {
        self.changes().next().is_some()
    }
}

impl<K: Ord, V: Eq, A: Allocator + Copy> Branch<K, V, A> {
    /// The [`changes`](Branch::changes) in a list.
    ///
    /// The error means that memory ran out.
    pub fn list_changes(&self) -> Result<Vec<MapChange<'_, K, V>, A>, AllocError>
        ensures { IfOk result (λ changes. map change_value changes.items
            ≡ differences K.cmp V.eq self.now.base.entries self.now.current.entries) }
    {
        self.list_changes_counted(&mut Steps::new())
    }

    /// [`list_changes`](Branch::list_changes) with counts: at most `4 log2(n + 1)` comparisons for each key that was put in or taken
    /// out, and at least one in each of both maps that has a pair.
    pub fn list_changes_counted(
        &self,
        steps: &mut Steps,
    ) -> Result<Vec<MapChange<'_, K, V>, A>, AllocError>
        ensures all { IfOk result (λ changes. map change_value changes.items
            ≡ differences K.cmp V.eq self.now.base.entries self.now.current.entries) }
        ensures steps { let levels = most_levels (length self.now.base.entries) + most_levels (length self.now.current.entries) in
            IsWithin (length self.now.touched * levels) 0 steps.old steps.new }
        ensures compares { let fewest = fewest_compared self.now.base.entries + fewest_compared self.now.current.entries in
            OnOk result (steps.old.compared + length self.now.touched * fewest ≤ steps.new.compared) }
    {
        list_of_changes(&self.base, &self.current, &self.touched, steps)
    }
}

impl<K: Ord + Drop, V: Drop, A: Allocator + Copy> Branch<K, V, A> {
    // Puts a pair in that other maps may have too.
    fn insert_shared_mut(&mut self, entry: Rc<Entry<K, V>, A>) -> Result<(), AllocError>
        ensures base { self.new.base ≡ self.old.base }
        ensures ok { OnOk result (self.new.current.entries
            ≡ put K.cmp (entry.value.key, entry.value.value) self.old.current.entries) }
        ensures touched { OnOk result (self.new.touched ≡ put_member K.cmp entry.value.key self.old.touched) }
        ensures err { OnErr result (self.new ≡ self.old) }
    {
        let touched = self.touched.insert_shared(entry.clone()?)?;
        self.current.insert_shared_mut(entry)?;
        self.touched = touched;
        Ok(())
    }

    /// A branch of the map, at which nothing has changed.
    pub fn new(base: &RedBlackTreeMap<K, V, A>) -> Result<Branch<K, V, A>, AllocError>
        ensures base { IfOk result (λ branch. branch.base ≡ base.now) }
        ensures current { IfOk result (λ branch. branch.current ≡ base.now) }
        ensures touched { IfOk result (λ branch. branch.touched ≡ []) }
    {
        Ok(Branch {
            base: base.clone()?,
            current: base.clone()?,
            touched: RedBlackTreeMap::new(*base.allocator()),
        })
    }

    /// Another handle to the same branch: what is done to one leaves the other as it is. It allocates nothing, and fails only on a
    /// reference count overflow.
    pub fn clone(&self) -> Result<Branch<K, V, A>, AllocError>
        ensures { IfOk result (λ copy. copy ≡ self.now) }
    {
        Ok(Branch {
            base: self.base.clone()?,
            current: self.current.clone()?,
            touched: self.touched.clone()?,
        })
    }

    /// The branch with the pair in it, which replaces an equal key and its value.
    ///
    /// The error means that memory ran out; it comes, too, where there are `usize::MAX` pairs.
    pub fn insert(&self, key: K, value: V) -> Result<Branch<K, V, A>, AllocError>
        ensures base { IfOk result (λ branch. branch.base ≡ self.now.base) }
        ensures ok { IfOk result (λ branch. branch.current.entries
            ≡ put K.cmp (key, value) self.now.current.entries) }
        ensures touched { IfOk result (λ branch. branch.touched ≡ put_member K.cmp key self.now.touched) }
    {
        let mut branch = self.clone()?;
        branch.insert_mut(key, value)?;
        Ok(branch)
    }

    /// [`insert`](Branch::insert), in place. An error leaves the branch as it is.
    pub fn insert_mut(&mut self, key: K, value: V) -> Result<(), AllocError>
        ensures base { self.new.base ≡ self.old.base }
        ensures ok { OnOk result (self.new.current.entries
            ≡ put K.cmp (key, value) self.old.current.entries) }
        ensures touched { OnOk result (self.new.touched ≡ put_member K.cmp key self.old.touched) }
        ensures err { OnErr result (self.new ≡ self.old) }
    {
        let entry = Rc::new(*self.current.allocator(), Entry::new(key, value))?;
        self.insert_shared_mut(entry)
    }

    /// The branch without the key and its value.
    ///
    /// The error means that memory ran out.
    pub fn remove<Q: OrdKey<K>>(&self, key: Q) -> Result<Branch<K, V, A>, AllocError>
        ensures base { IfOk result (λ branch. branch.base ≡ self.now.base) }
        ensures ok { IfOk result (λ branch. branch.current.entries
            ≡ without Q.order (Q.seen key) self.now.current.entries) }
        ensures touched { IfOk result (λ branch. branch.touched
            ≡ touched_with K.cmp (find Q.order (Q.seen key) self.now.current.entries) self.now.touched) }
    {
        let mut branch = self.clone()?;
        branch.remove_mut(key)?;
        Ok(branch)
    }

    /// [`remove`](Branch::remove), in place. It returns whether the key was there. An error leaves the branch as it is.
    pub fn remove_mut<Q: OrdKey<K>>(&mut self, key: Q) -> Result<bool, AllocError>
        ensures base { self.new.base ≡ self.old.base }
        ensures found { IfOk result (λ there.
            there ≡ is_some (find Q.order (Q.seen key) self.old.current.entries)) }
        ensures ok { OnOk result (self.new.current.entries
            ≡ without Q.order (Q.seen key) self.old.current.entries) }
        ensures touched { OnOk result (self.new.touched
            ≡ touched_with K.cmp (find Q.order (Q.seen key) self.old.current.entries) self.old.touched) }
        ensures err { OnErr result (self.new ≡ self.old) }
    {
        let Some(entry) = self.current.shared_entry(key)? else {
            return Ok(false);
        };
        let touched = self.touched.insert_shared(entry)?;
        self.current.remove_mut(key)?;
        self.touched = touched;
        Ok(true)
    }

    /// The branch with what `change` answers as the value of the key, which takes the place of an equal key. `change` is handed the
    /// value that the key has, or `None` where it is absent, and an error of it is handed on.
    ///
    /// The error means that `change` failed or that memory ran out; it comes, too, where there are `usize::MAX` pairs.
    pub fn update<F: FnOnce(Option<&V>) -> Result<V, AllocError>>(
        &self,
        key: K,
        change: F,
    ) -> Result<Branch<K, V, A>, AllocError>
        requires { F.IsAlwaysCallable change }
        ensures base { IfOk result (λ branch. branch.base ≡ self.now.base) }
        ensures ok { let old = option_map (λ p. p.1) (find K.cmp key self.now.current.entries) in
            IfOk result (λ branch. (value : V) × FnOnceReturnsAtOption F.FnOnce change old (Ok value)
            × (branch.current.entries ≡ put K.cmp (key, value) self.now.current.entries)) }
        ensures touched { IfOk result (λ branch. branch.touched ≡ put_member K.cmp key self.now.touched) }
    {
        let mut branch = self.clone()?;
        branch.update_mut(key, change)?;
        Ok(branch)
    }

    /// [`update`](Branch::update), in place. An error leaves the branch as it is.
    pub fn update_mut<F: FnOnce(Option<&V>) -> Result<V, AllocError>>(
        &mut self,
        key: K,
        change: F,
    ) -> Result<(), AllocError>
        requires { F.IsAlwaysCallable change }
        ensures base { self.new.base ≡ self.old.base }
        ensures ok { let old = option_map (λ p. p.1) (find K.cmp key self.old.current.entries) in
            OnOk result ((value : V) × FnOnceReturnsAtOption F.FnOnce change old (Ok value)
            × (self.new.current.entries ≡ put K.cmp (key, value) self.old.current.entries)) }
        ensures touched { OnOk result (self.new.touched ≡ put_member K.cmp key self.old.touched) }
        ensures err { OnErr result (self.new ≡ self.old) }
    {
        let value = change(self.current.get(&key))?;
        self.insert_mut(key, value)
    }

    /// The branch in which the key has what it has in the base: the pair there, or nothing.
    ///
    /// The error means that memory ran out; it comes, too, where a pair comes and there are `usize::MAX` pairs.
    pub fn revert<Q: OrdKey<K>>(&self, key: Q) -> Result<Branch<K, V, A>, AllocError>
        ensures base { IfOk result (λ branch. branch.base ≡ self.now.base) }
        ensures ok { let seek = Q.order (Q.seen key) in
            IfOk result (λ branch. branch.current.entries
            ≡ with_found K.cmp seek (find Q.order (Q.seen key) self.now.base.entries) self.now.current.entries) }
        ensures touched { IfOk result (λ branch. branch.touched ≡ self.now.touched) }
    {
        let mut branch = self.clone()?;
        branch.revert_mut(key)?;
        Ok(branch)
    }

    /// [`revert`](Branch::revert), in place. An error leaves the branch as it is.
    pub fn revert_mut<Q: OrdKey<K>>(&mut self, key: Q) -> Result<(), AllocError>
        ensures base { self.new.base ≡ self.old.base }
        ensures ok { let seek = Q.order (Q.seen key) in
            OnOk result (self.new.current.entries
            ≡ with_found K.cmp seek (find Q.order (Q.seen key) self.old.base.entries) self.old.current.entries) }
        ensures touched { self.new.touched ≡ self.old.touched }
        ensures err { OnErr result (self.new ≡ self.old) }
    {
        self.revert_mut_counted(key, &mut Steps::new())
    }

    /// [`revert_mut`](Branch::revert_mut) with counts: at most `4 log2(n + 1)` comparisons and `8 log2(n + 1) + 1` new nodes.
    pub fn revert_mut_counted<Q: OrdKey<K>>(
        &mut self,
        key: Q,
        steps: &mut Steps,
    ) -> Result<(), AllocError>
        ensures base { self.new.base ≡ self.old.base }
        ensures ok { let seek = Q.order (Q.seen key) in
            OnOk result (self.new.current.entries
            ≡ with_found K.cmp seek (find Q.order (Q.seen key) self.old.base.entries) self.old.current.entries) }
        ensures touched { self.new.touched ≡ self.old.touched }
        ensures err { OnErr result (self.new ≡ self.old) }
        ensures steps { let levels = most_levels (length self.old.current.entries) in
            IsWithin (most_levels (length self.old.base.entries) + levels) (4 * levels + 1) steps.old steps.new }
    {
        self.current.copy_from_mut_counted(&self.base, key, steps)
    }

    /// The branch in which the key has what it has in the other map: the stored pair there, which both maps then share, or nothing.
    ///
    /// The error means that memory ran out; it comes, too, where a pair comes and there are `usize::MAX` pairs.
    pub fn copy_from<Q: OrdKey<K>>(
        &self,
        other: &RedBlackTreeMap<K, V, A>,
        key: Q,
    ) -> Result<Branch<K, V, A>, AllocError>
        ensures base { IfOk result (λ branch. branch.base ≡ self.now.base) }
        ensures ok { let seek = Q.order (Q.seen key) in
            IfOk result (λ branch. branch.current.entries
            ≡ with_found K.cmp seek (find Q.order (Q.seen key) other.now.entries) self.now.current.entries) }
        ensures touched { let found = option_or (find Q.order (Q.seen key) other.now.entries)
            (find Q.order (Q.seen key) self.now.current.entries) in
            IfOk result (λ branch. branch.touched ≡ touched_with K.cmp found self.now.touched) }
    {
        let mut branch = self.clone()?;
        branch.copy_from_mut(other, key)?;
        Ok(branch)
    }

    /// [`copy_from`](Branch::copy_from), in place. An error leaves the branch as it is.
    pub fn copy_from_mut<Q: OrdKey<K>>(
        &mut self,
        other: &RedBlackTreeMap<K, V, A>,
        key: Q,
    ) -> Result<(), AllocError>
        ensures base { self.new.base ≡ self.old.base }
        ensures ok { let seek = Q.order (Q.seen key) in
            OnOk result (self.new.current.entries
            ≡ with_found K.cmp seek (find Q.order (Q.seen key) other.now.entries) self.old.current.entries) }
        ensures touched { let found = option_or (find Q.order (Q.seen key) other.now.entries)
            (find Q.order (Q.seen key) self.old.current.entries) in
            OnOk result (self.new.touched ≡ touched_with K.cmp found self.old.touched) }
        ensures err { OnErr result (self.new ≡ self.old) }
    {
        match other.shared_entry(key)? {
            Some(entry) => self.insert_shared_mut(entry),
            None => {
                self.remove_mut(key)?;
                Ok(())
            }
        }
    }
}

impl<K: Ord + Drop, V: Drop, A: Allocator + Copy> Clone for Branch<K, V, A> {
    ghost is_clone = { λ branch copy. copy ≡ branch };

    fn clone(&self) -> Result<Branch<K, V, A>, AllocError> {
        Branch::clone(self)
    }
}
