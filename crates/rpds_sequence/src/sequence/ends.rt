//! Changes at the ends of a sequence.
ghost use Rattle.std.specs.Prelude.{◌≡◌, ◌+◌, ◌*◌, ◌<◌, ◌≤◌, [], ◌∷◌, ◌++◌, None, Ok, IfOk, MatchOption, OnErr, OnOk, length};
ghost use Rattle.rpds_red_black.specs.Logarithm.{most_levels};
ghost use Rattle.rpds_red_black.specs.Sides.{is_right};
ghost use Rattle.rpds_sequence.specs.Contents.{IsWithoutEnd};

use crate::sequence::Sequence;
use rpds_core::size::one_more;
use rpds_core::steps::Steps;
use rpds_red_black::remove_in_place::Loss;
use rpds_red_black::rotation::Side;
use std::alloc::{AllocError, Allocator};

impl<T: Drop, A: Allocator + Copy> Sequence<T, A> {
    /// The sequence with the item before its first.
    ///
    /// The error means that there is no memory, or that there are `usize::MAX` items.
    pub fn push_front(&self, item: T) -> Result<Sequence<T, A>, AllocError>
        ensures { IfOk result (λ s. s ≡ item ∷ self.now) }
    {
        self.push_front_counted(item, &mut Steps::new())
    }

    /// [`push_front`](Sequence::push_front), which counts the nodes that it makes.
    pub fn push_front_counted(
        &self,
        item: T,
        steps: &mut Steps,
    ) -> Result<Sequence<T, A>, AllocError>
        ensures ok { IfOk result (λ s. s ≡ item ∷ self.now) }

        ensures made { steps.new.made ≤ steps.old.made + most_levels (length self.now) + 1 }
        ensures makes { OnOk result (steps.old.made < steps.new.made) }
        ensures least { steps.old.made ≤ steps.new.made }
    {
        let mut longer = self.clone()?;
        longer.push_front_mut_counted(item, steps)?;
        Ok(longer)
    }

    /// The sequence with the item behind its last.
    ///
    /// The error means that there is no memory, or that there are `usize::MAX` items.
    pub fn push_back(&self, item: T) -> Result<Sequence<T, A>, AllocError>
        ensures { IfOk result (λ s. s ≡ self.now ++ item ∷ []) }
    {
        self.push_back_counted(item, &mut Steps::new())
    }

    /// [`push_back`](Sequence::push_back), which counts the nodes that it makes.
    pub fn push_back_counted(
        &self,
        item: T,
        steps: &mut Steps,
    ) -> Result<Sequence<T, A>, AllocError>
        ensures ok { IfOk result (λ s. s ≡ self.now ++ item ∷ []) }

        ensures made { steps.new.made ≤ steps.old.made + most_levels (length self.now) + 1 }
        ensures makes { OnOk result (steps.old.made < steps.new.made) }
        ensures least { steps.old.made ≤ steps.new.made }
    {
        let mut longer = self.clone()?;
        longer.push_back_mut_counted(item, steps)?;
        Ok(longer)
    }

    /// Puts the item before the first, as [`insert_mut`](Sequence::insert_mut). An error leaves the sequence as it was.
    pub fn push_front_mut(&mut self, item: T) -> Result<(), AllocError>
        ensures ok { OnOk result (self.new ≡ item ∷ self.old) }
        ensures err { OnErr result (self.new ≡ self.old) }
    {
        self.push_front_mut_counted(item, &mut Steps::new())
    }

    /// [`push_front_mut`](Sequence::push_front_mut), which counts the nodes that it makes.
    #[tactic(auto, using(crate::proofs::Items::item_rules))]
    pub fn push_front_mut_counted(&mut self, item: T, steps: &mut Steps) -> Result<(), AllocError>
        ensures ok { OnOk result (self.new ≡ item ∷ self.old) }
        ensures err { OnErr result (self.new ≡ self.old) }

        ensures made { steps.new.made ≤ steps.old.made + most_levels (length self.old) + 1 }
        ensures makes { OnOk result (steps.old.made < steps.new.made) }
        ensures least { steps.old.made ≤ steps.new.made }
    {
        let longer = one_more(self.size)?;
        self.tree.insert_first(self.alloc, item, (), steps)?;
        self.tree.prove_sound();
        self.size = longer;
        Ok(())
    }

    /// Puts the item behind the last, as [`insert_mut`](Sequence::insert_mut). An error leaves the sequence as it was.
    pub fn push_back_mut(&mut self, item: T) -> Result<(), AllocError>
        ensures ok { OnOk result (self.new ≡ self.old ++ item ∷ []) }
        ensures err { OnErr result (self.new ≡ self.old) }
    {
        self.push_back_mut_counted(item, &mut Steps::new())
    }

    /// [`push_back_mut`](Sequence::push_back_mut), which counts the nodes that it makes.
    #[tactic(auto, using(crate::proofs::Items::item_rules))]
    pub fn push_back_mut_counted(&mut self, item: T, steps: &mut Steps) -> Result<(), AllocError>
        ensures ok { OnOk result (self.new ≡ self.old ++ item ∷ []) }
        ensures err { OnErr result (self.new ≡ self.old) }

        ensures made { steps.new.made ≤ steps.old.made + most_levels (length self.old) + 1 }
        ensures makes { OnOk result (steps.old.made < steps.new.made) }
        ensures least { steps.old.made ≤ steps.new.made }
    {
        let longer = one_more(self.size)?;
        self.tree.insert_last(self.alloc, item, (), steps)?;
        self.tree.prove_sound();
        self.size = longer;
        Ok(())
    }

    // The sequence without the item at the end of the side, or `None` where there is none.
    fn without_end(
        &self,
        side: Side,
        steps: &mut Steps,
    ) -> Result<Option<Sequence<T, A>>, AllocError>
        ensures ok { IfOk result (λ left. MatchOption left (self.now ≡ []) (IsWithoutEnd (is_right side) self.now)) }
        ensures empty { self.now ≡ [] → result ≡ Ok None }

        ensures made { steps.new.made ≤ steps.old.made + 4 * most_levels (length self.now) }
        ensures least { steps.old.made ≤ steps.new.made }
        ensures unmade { self.now ≡ [] → steps.new ≡ steps.old }
    {
        if self.size == 0 {
            return Ok(None);
        }
        self.tree.prove_sound();
        let mut loss = Loss::Absent;
        let tree = self.tree.remove_end(self.alloc, side, &mut loss, steps)?;
        Ok(Some(Sequence::of_tree(self.alloc, tree.into_black(), self.size - 1)))
    }

    /// The first item and the sequence without it, or `None` where there is no item.
    pub fn pop_front(&self) -> Result<Option<(&T, Sequence<T, A>)>, AllocError>
        ensures ok { IfOk result (λ popped. MatchOption popped (self.now ≡ [])
            (λ p. self.now ≡ p.0.now ∷ p.1)) }
        ensures empty { self.now ≡ [] → result ≡ Ok None }
    {
        self.pop_front_counted(&mut Steps::new())
    }

    /// [`pop_front`](Sequence::pop_front), which counts the nodes that it makes.
    pub fn pop_front_counted(
        &self,
        steps: &mut Steps,
    ) -> Result<Option<(&T, Sequence<T, A>)>, AllocError>
        ensures ok { IfOk result (λ popped. MatchOption popped (self.now ≡ [])
            (λ p. self.now ≡ p.0.now ∷ p.1)) }
        ensures empty { self.now ≡ [] → result ≡ Ok None }

        ensures made { steps.new.made ≤ steps.old.made + 4 * most_levels (length self.now) }
        ensures least { steps.old.made ≤ steps.new.made }
        ensures unmade { self.now ≡ [] → steps.new ≡ steps.old }
    {
        match (self.first(), self.without_end(Side::Left, steps)?) {
            (Some(first), Some(rest)) => Ok(Some((first, rest))),
            _ => Ok(None),
        }
    }

    /// The last item and the sequence without it, or `None` where there is no item.
    pub fn pop_back(&self) -> Result<Option<(&T, Sequence<T, A>)>, AllocError>
        ensures ok { IfOk result (λ popped. MatchOption popped (self.now ≡ [])
            (λ p. self.now ≡ p.1 ++ p.0.now ∷ [])) }
        ensures empty { self.now ≡ [] → result ≡ Ok None }
    {
        self.pop_back_counted(&mut Steps::new())
    }

    /// [`pop_back`](Sequence::pop_back), which counts the nodes that it makes.
    pub fn pop_back_counted(
        &self,
        steps: &mut Steps,
    ) -> Result<Option<(&T, Sequence<T, A>)>, AllocError>
        ensures ok { IfOk result (λ popped. MatchOption popped (self.now ≡ [])
            (λ p. self.now ≡ p.1 ++ p.0.now ∷ [])) }
        ensures empty { self.now ≡ [] → result ≡ Ok None }

        ensures made { steps.new.made ≤ steps.old.made + 4 * most_levels (length self.now) }
        ensures least { steps.old.made ≤ steps.new.made }
        ensures unmade { self.now ≡ [] → steps.new ≡ steps.old }
    {
        match (self.last(), self.without_end(Side::Right, steps)?) {
            (Some(last), Some(rest)) => Ok(Some((last, rest))),
            _ => Ok(None),
        }
    }
}
