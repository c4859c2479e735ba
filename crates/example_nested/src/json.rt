//! Values that hold lists of values.
ghost use Rattle.std.specs.Prelude.{◌≡◌, ◌∷◌, IfOk};
ghost use Rattle.example_nested.specs.Holds.{holds_below, holds_number, items_of};

use std::alloc::{AllocError, Global};
use std::rc::Rc;

/// A number, or a list of such values.
#[cycle(json)]
#[derive(Drop)]
pub enum Json {
    Number(u64),
    Array(Items),
}

/// A list that shares its tails, as the library's `List` does.
#[cycle(json)]
#[derive(Drop)]
pub enum Items {
    End,
    More(Rc<Cell>),
}

#[cycle(json)]
#[derive(Drop)]
pub struct Cell {
    first: Json,
    rest: Items,
}

impl Json {
    /// Whether the number stands in it, however deep.
    #[cycle(holds)]
    #[tactic(auto, unfolding(crate::specs::Holds::holds_number, crate::specs::Holds::holds_below))]
    pub fn holds(&self, number: u64) -> bool
        ensures { result ≡ holds_number number self.now }
    {
        match self {
            Json::Number(own) => *own == number,
            Json::Array(items) => items.holds(number),
        }
    }
}

impl Items {
    /// Another handle to the same items.
    pub fn share(&self) -> Result<Items, AllocError>
        ensures { IfOk result (λ r. items_of r ≡ items_of self.now) }
    {
        match self {
            Items::End => Ok(Items::End),
            Items::More(cell) => Ok(Items::More(cell.clone()?)),
        }
    }

    /// A list of this value and then these items, which the two share.
    pub fn push(&self, alloc: Global, first: Json) -> Result<Items, AllocError>
        ensures { IfOk result (λ r. items_of r ≡ first ∷ items_of self.now) }
    {
        let rest = self.share()?;
        Ok(Items::More(Rc::new(alloc, Cell { first, rest })?))
    }

    /// Whether the number stands in one of them, however deep.
    #[cycle(holds)]
    #[tactic(auto, unfolding(crate::specs::Holds::holds_number, crate::specs::Holds::holds_below))]
    pub fn holds(&self, number: u64) -> bool
        ensures { result ≡ holds_below number self.now }
    {
        match self {
            Items::End => false,
            Items::More(cell) => {
                let cell = cell.as_ref();
                cell.first.holds(number) || cell.rest.holds(number)
            }
        }
    }
}
