//! Sequences put together and cut.
ghost use Rattle.std.specs.Prelude.{◌≡◌, ◌+◌, ◌*◌, ◌≤◌, ◌++◌, max, IfOk, OnOk, OnErr, length, take, drop};
ghost use Rattle.rpds_red_black.specs.Logarithm.{most_levels};

use crate::sequence::Sequence;
use rpds_core::size::total;
use rpds_core::steps::Steps;
use rpds_red_black::join::Measured;
use rpds_red_black::tree::Tree;
use std::alloc::{AllocError, Allocator};
use std::ops::Range;

impl<T: Drop, A: Allocator + Copy> Sequence<T, A> {
    /// The items of this sequence and then those of the other. Both share all nodes with it but those on one path of each. More
    /// items than `usize::MAX` are an error too.
    pub fn append(&self, other: &Sequence<T, A>) -> Result<Sequence<T, A>, AllocError>
        ensures { IfOk result (λ s. s ≡ self.now ++ other.now) }
    {
        self.append_counted(other, &mut Steps::new())
    }

    /// [`append`](Sequence::append), which counts the nodes that it makes.
    #[tactic(auto, using(crate::proofs::Items::item_rules))]
    pub fn append_counted(
        &self,
        other: &Sequence<T, A>,
        steps: &mut Steps,
    ) -> Result<Sequence<T, A>, AllocError>
        ensures ok { IfOk result (λ s. s ≡ self.now ++ other.now) }

        ensures made { let most = most_levels (max (length self.now) (length other.now)) in
            steps.new.made ≤ steps.old.made + 5 * most + 3 }
        ensures least { steps.old.made ≤ steps.new.made }
    {
        let size = total(self.size, other.size)?;
        self.tree.prove_sound();
        other.tree.prove_sound();
        let left = Measured::share(&self.tree, self.tree.height())?;
        let right = Measured::share(&other.tree, other.tree.height())?;
        let joined = Tree::join_around(self.alloc, left, None, right, steps)?;
        let tree = joined.tree.into_black();
        Ok(Sequence::of_tree(self.alloc, tree, size))
    }

    /// The first `index` items, and those behind them: all and none where there are no more.
    pub fn split_at(&self, index: usize) -> Result<(Sequence<T, A>, Sequence<T, A>), AllocError>
        ensures before { IfOk result (λ s. s.0 ≡ take index self.now) }
        ensures after { IfOk result (λ s. s.1 ≡ drop index self.now) }
    {
        self.split_at_counted(index, &mut Steps::new())
    }

    /// [`split_at`](Sequence::split_at), which counts the nodes that it makes.
    #[tactic(auto, using(crate::proofs::Items::item_rules))]
    pub fn split_at_counted(
        &self,
        index: usize,
        steps: &mut Steps,
    ) -> Result<(Sequence<T, A>, Sequence<T, A>), AllocError>
        ensures before { IfOk result (λ s. s.0 ≡ take index self.now) }
        ensures after { IfOk result (λ s. s.1 ≡ drop index self.now) }

        ensures made { steps.new.made ≤ steps.old.made + 4 * most_levels (length self.now) }
        ensures least { steps.old.made ≤ steps.new.made }
    {
        if index >= self.size {
            return Ok((self.clone()?, Sequence::new(self.alloc)));
        }
        self.tree.prove_sound();
        let (before, after) = self.tree.cut_at(self.alloc, self.size, index, steps)?;
        let after = Sequence::of_tree(self.alloc, after.tree.into_black(), self.size - index);
        let before = Sequence::of_tree(self.alloc, before.tree.into_black(), index);
        Ok((before, after))
    }

    /// The first `count` items, or all where there are no more.
    pub fn take(&self, count: usize) -> Result<Sequence<T, A>, AllocError>
        ensures { IfOk result (λ s. s ≡ take count self.now) }
    {
        let (before, _) = self.split_at(count)?;
        Ok(before)
    }

    /// Drops what comes behind the first `count` items, as [`take`](Sequence::take). An error leaves the sequence as it was.
    pub fn truncate(&mut self, count: usize) -> Result<(), AllocError>
        ensures ok { OnOk result (self.new ≡ take count self.old) }
        ensures err { OnErr result (self.new ≡ self.old) }
    {
        *self = self.take(count)?;
        Ok(())
    }

    /// The sequence without its first `count` items, and the empty one where it has no more than those.
    pub fn skip(&self, count: usize) -> Result<Sequence<T, A>, AllocError>
        ensures { IfOk result (λ s. s ≡ drop count self.now) }
    {
        let (_, after) = self.split_at(count)?;
        Ok(after)
    }

    /// The items of the range, as far as there are such: from its start up to its end, which isn't in it. A range that ends before
    /// it starts has none.
    pub fn slice(&self, range: Range<usize>) -> Result<Sequence<T, A>, AllocError>
        ensures { IfOk result (λ s. s ≡ drop range.start (take range.end self.now)) }
    {
        self.take(range.end)?.skip(range.start)
    }

    /// The items but those of the range: all where it ends before it starts.
    pub fn without_range(&self, range: Range<usize>) -> Result<Sequence<T, A>, AllocError>
        ensures { IfOk result (λ s. s ≡ take range.start self.now ++ drop (max range.start range.end) self.now) }
    {
        let before = self.take(range.start)?;
        let after = self.skip(range.start.max(range.end))?;
        before.append(&after)
    }

    /// The items with those of the other sequence in the place of those of the range. Where the range is empty, they are put in at
    /// its start.
    pub fn splice(
        &self,
        range: Range<usize>,
        other: &Sequence<T, A>,
    ) -> Result<Sequence<T, A>, AllocError>
        ensures { IfOk result (λ s. s ≡ take range.start self.now ++ other.now ++ drop (max range.start range.end) self.now) }
    {
        let before = self.take(range.start)?;
        let after = self.skip(range.start.max(range.end))?;
        before.append(other)?.append(&after)
    }
}
