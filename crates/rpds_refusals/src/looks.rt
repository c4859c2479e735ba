//! What is looked at, and the first look that went wrong.
use rpds_faults::Faults;

/// The looks at a container, none of which asks for memory or for a clone.
#[derive(Drop)]
pub struct Looks<'n, 't> {
    /// What counts the keys that are looked for.
    pub faults: &'t Faults,
    wrong: Option<&'n str>,
}

impl<'n, 't> Looks<'n, 't> {
    /// From now on the next request and the next clone are refused.
    pub fn new(faults: &'t Faults) -> Looks<'n, 't> {
        faults.refuse_next();
        Looks {
            faults,
            wrong: None,
        }
    }

    /// Whether the look of this name found what is there.
    pub fn see(&mut self, look: &'n str, is_right: bool) {
        if self.wrong.is_none() && !(is_right && self.faults.none_came_yet()) {
            self.wrong = Some(look);
        }
    }

    /// The first that didn't, or that asked for memory or for a clone. From now on nothing is refused.
    pub fn wrong(&self) -> Option<&'n str> {
        self.faults.none_came();
        self.wrong
    }
}
