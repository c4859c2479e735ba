//! Lists.
use crate::cases::Cases;
use crate::sequence::{self, Names, Sequence};
use crate::subject::{Start, Subject};
use rpds_list::list::List;
use std::alloc::{AllocError, Global};
use std::io;

impl Subject for List<u64> {
    fn empty(alloc: Global) -> Self {
        List::new(alloc)
    }

    fn put(&mut self, number: u64) -> Result<(), AllocError> {
        self.push_front_mut(number)
    }

    fn copied(&self) -> Result<Self, AllocError> {
        self.clone()
    }
}

impl Sequence for List<u64> {
    fn push(&self, item: u64) -> Result<Self, AllocError> {
        self.push_front(item)
    }

    fn pop(&self) -> Result<Option<Self>, AllocError> {
        self.drop_first()
    }

    fn pop_mut(&mut self) -> Result<bool, AllocError> {
        self.drop_first_mut()
    }

    fn sum(&self) -> Result<u64, AllocError> {
        let mut sum = 0u64;
        for item in self.iter() {
            sum = sum.wrapping_add(*item);
        }
        Ok(sum)
    }
}

/// The cases of lists.
pub fn run(cases: &Cases<'_>) -> io::Result<()> {
    let names = Names {
        push: "push_front",
        push_mut: "push_front_mut",
        pop: "drop_first",
        pop_mut: "drop_first_mut",
    };
    sequence::run::<List<u64>>(cases, &names)
        .and(cases.whole("reverse", &[], |list: &mut List<u64>, _| list.reverse()))
        .and(cases.whole("reverse_mut", &[], |list: &mut List<u64>, _| {
            list.reverse_mut()
        }))
        .and(cases.whole(
            "append",
            &cases.keys.stored,
            |list: &mut List<u64>, other| {
                if list.len().checked_add(other.len()).is_none() {
                    return Err(AllocError);
                }
                list.append(other)
            },
        ))
}
