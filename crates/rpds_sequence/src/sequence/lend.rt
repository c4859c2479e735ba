//! An item lent out of a sequence, to write to: the path to it is made the sequence's own first.
ghost use Rattle.std.specs.Prelude.{◌≡◌, ◌+◌, ◌≤◌, Ok, Err, None, IfOk, length, slice_get};
ghost use Rattle.std.specs.Option.{option_map};
ghost use Rattle.std.specs.Borrow.{sem};
ghost use Rattle.rpds_core.specs.ValueLends.{Tells};
ghost use Rattle.rpds_red_black.specs.Logarithm.{most_levels};
ghost use Rattle.rpds_core.specs.declared.lend.ValueMutError.TheVariants.{Absent};

use crate::sequence::Sequence;
use rpds_core::lend::{Twice, ValueMutError, absent_as_none, lend_within_64};
use rpds_core::steps::Steps;
use rpds_red_black::lend::{ByPosition, PositionLeaf, PositionLevel};
use rpds_red_black::seek::At;
use rpds_red_black::tree::Tree;
use std::alloc::{AllocError, Allocator};

impl<T: Clone + Drop, A: Allocator + Copy> Sequence<T, A> {
    ghost use Rattle.rpds_sequence.specs.SequenceLends.{lends_item};

    /// The item at the index, to write to. Once the reference ends that item alone differs.
    ///
    /// Each node on the way to it that another sequence shares is copied, and so is the item where that is shared, in one allocation
    /// each. A sequence that shares none of them takes no memory.
    ///
    /// # Errors
    ///
    /// `Absent` where the index is out of range, which takes no memory, and `NoMemory` where a copy or the item's clone failed.
    /// Either leaves the items.
    pub fn item_mut<'a>(&'a mut self, index: usize) -> Result<&'a mut T, ValueMutError>
        requires clones { (x y : T) → T.is_clone x y → y ≡ x }

        // That one item is what was written through the reference, and nothing else differs.
        ensures* writes_back { sem 𝓛 (lends_item T.row A.row A.Allocator self.entry index result) }
        ensures returned { Tells (slice_get self.old index) result }
        ensures out_of_range { length self.old ≤ index → result ≡ Err Absent }
    {
        self.item_mut_counted(index, &mut Steps::new())
    }

    /// [`item_mut`](Sequence::item_mut), which counts the nodes that it makes unique.
    #[tactic(auto, using(crate::proofs::Items::item_rules))]
    pub fn item_mut_counted<'a>(
        &'a mut self,
        index: usize,
        steps: &mut Steps,
    ) -> Result<&'a mut T, ValueMutError>
        requires clones { (x y : T) → T.is_clone x y → y ≡ x }

        ensures* writes_back { sem 𝓛 (lends_item T.row A.row A.Allocator self.entry index result) }
        ensures returned { Tells (slice_get self.old index) result }
        ensures out_of_range { length self.old ≤ index → (result ≡ Err Absent) × (steps.new ≡ steps.old) }

        ensures made { steps.new.made ≤ steps.old.made + most_levels (length self.old) }
        ensures least { steps.old.made ≤ steps.new.made }
    {
        if index >= self.size {
            return Err(ValueMutError::Absent);
        }
        let place = At {
            size: self.size,
            position: index,
        };
        let tree = &mut self.tree;
        lend_within_64::<Tree<T, (), A>, At, T, ByPosition, Twice<PositionLevel>, PositionLeaf>(
            tree, place, steps,
        )
    }

    /// The item at the index, to write to, or `None` where that is out of range. The error means a failed allocation or clone.
    ///
    /// With this return type no contract can say what the sequence holds after the write. A proof that needs this calls
    /// `item_mut`: a write changes that item alone, and after an error the sequence is as it was.
    pub fn get_mut<'a>(&'a mut self, index: usize) -> Result<Option<&'a mut T>, AllocError>
        requires clones { (x y : T) → T.is_clone x y → y ≡ x }
        ensures found { IfOk result (λ item. option_map (λ x. x.now) item ≡ slice_get self.old index) }
        ensures out_of_range { length self.old ≤ index → result ≡ Ok None }
    {
        absent_as_none(self.item_mut(index))
    }
}
