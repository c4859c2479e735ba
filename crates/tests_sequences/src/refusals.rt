//! Lists that do one thing wrong.
use crate::Tests;
use rpds_faults::{FailingAllocator, FailingItem, Faults};
use rpds_list::list::List;
use rpds_refusals::answer::has_number;
use rpds_refusals::check::check_container;
use rpds_refusals::container::Container;
use rpds_refusals::failure::Failure;
use rpds_refusals::looks::Looks;
use rpds_refusals::plan::Sharing::{Alone, Shared};
use rpds_refusals::plan::{LargeContainer, MemoryRow, NOTHING, Plan};
use rpds_refusals::subject::Subject;
use rpds_refusals::{memory, receiver};
use std::alloc::AllocError;

type FailingList<'t> = List<FailingItem<'t>, &'t FailingAllocator>;

// What a list does wrong.
#[derive(Clone, Copy, Debug, PartialEq, Eq)]
enum Wrong {
    // Nothing.
    Nothing,
    // Two items that are put in together stop half way where the second is refused.
    HalfWay,
    // What is cleared is never given back.
    Leaks,
    // What is taken out stays until the list is let go.
    Keeps,
    // Another handle copies all.
    Copies,
    // A push asks for a buffer that it has no use for.
    Spends,
    // The look at its first item asks for memory.
    LookAsks,
    // It finds no last item.
    LooksWrong,
    // A push clones its item.
    Doubles,
    // To take an item out fails, though nothing was refused.
    Fails,
    // Anything else.
    Other,
}

const WRONGS: [Wrong; 10] = [
    Wrong::Nothing,
    Wrong::HalfWay,
    Wrong::Leaks,
    Wrong::Keeps,
    Wrong::Copies,
    Wrong::Spends,
    Wrong::LookAsks,
    Wrong::LooksWrong,
    Wrong::Doubles,
    Wrong::Fails,
];

// A call of a list.
#[derive(Clone, Copy, Debug)]
enum WrongCall {
    Put,
    PutTwo,
    Take,
    Share,
    Clear,
}

// A list, and what is kept of it.
#[derive(Drop, PartialEq)]
struct WrongList<'t> {
    list: FailingList<'t>,
    kept: FailingList<'t>,
    wrong: Wrong,
}

impl<'t> WrongList<'t> {
    fn put(&mut self, number: u64, faults: &'t Faults) -> Result<(), AllocError> {
        if self.wrong == Wrong::Spends {
            let _buffer: Vec<u64, _> = Vec::with_capacity(&faults.alloc, 1_000)?;
        }
        let item = FailingItem::new(number, &faults.counts);
        if self.wrong == Wrong::Doubles {
            let _double = item.clone()?;
        }
        self.list.push_front_mut(item)
    }

    fn put_two(&mut self, number: u64, faults: &'t Faults) -> Result<(), AllocError> {
        let before = self.list.clone()?;
        self.put(number, faults)?;
        let answer = self.put(number, faults);
        if answer.is_err() && self.wrong != Wrong::HalfWay {
            self.list = before;
        }
        answer
    }

    fn take(&mut self) -> Result<bool, AllocError> {
        match self.wrong {
            Wrong::Fails => Err(AllocError),
            Wrong::Keeps => {
                self.kept = self.list.clone()?;
                self.list.drop_first_mut()
            }
            _ => self.list.drop_first_mut(),
        }
    }

    fn clear(&mut self, faults: &'t Faults) {
        let list = std::mem::replace(&mut self.list, List::new(&faults.alloc));
        if self.wrong == Wrong::Leaks {
            std::mem::forget(list);
        }
    }

    fn shared(&self, faults: &'t Faults) -> Result<WrongList<'t>, AllocError> {
        let list = if self.wrong == Wrong::Copies {
            self.list.reverse()?.reverse()?
        } else {
            self.list.clone()?
        };
        Ok(WrongList {
            list,
            kept: List::new(&faults.alloc),
            wrong: self.wrong,
        })
    }

    // Looks at the first item.
    fn first(&self, number: u64) -> bool {
        if self.wrong == Wrong::LookAsks {
            let _copy = self.list.reverse();
        }
        has_number(self.list.first(), number)
    }
}

impl<'t> Subject<'t, Tests, WrongCall> for WrongList<'t> {
    // What it does wrong.
    fn start(variant: u8, faults: &'t Faults) -> Result<Self, AllocError> {
        Ok(WrongList {
            list: List::new(&faults.alloc),
            kept: List::new(&faults.alloc),
            wrong: WRONGS[usize::from(variant % 10)],
        })
    }

    fn share(&mut self, faults: &'t Faults) -> Result<Option<Self>, AllocError> {
        Ok(Some(self.shared(faults)?))
    }

    fn is_as(&self, twin: &Self, _faults: &'t Faults) -> bool {
        *self == *twin
    }

    fn held(&self) -> Option<u64> {
        Some(self.list.len() as u64)
    }

    fn perform(
        &mut self,
        call: WrongCall,
        number: u64,
        faults: &'t Faults,
    ) -> Result<bool, AllocError> {
        match call {
            WrongCall::Put => {
                self.put(number, faults)?;
                Ok(true)
            }
            WrongCall::PutTwo => {
                self.put_two(number, faults)?;
                Ok(true)
            }
            WrongCall::Take => self.take(),
            WrongCall::Share => {
                *self = self.shared(faults)?;
                Ok(true)
            }
            WrongCall::Clear => {
                self.clear(faults);
                Ok(true)
            }
        }
    }
}

impl<'t> Container<'t, Tests, WrongCall> for WrongList<'t> {
    fn looks(&self, _other: &Self, _empty: &Self, looks: &mut Looks<'_, 't>) {
        looks.see("len", self.list.len() == 3);
        looks.see("first", self.first(3));
        looks.see(
            "last",
            has_number(self.list.last(), 1) && self.wrong != Wrong::LooksWrong,
        );
    }
}

// A cell of 48 bytes and its item of 40 for a push, and none for another handle.
const ROWS: &[MemoryRow<'static, WrongCall>] = &[
    memory!(Shared, calls: &[WrongCall::Put], at: &[7], clones: 0, requests: 3, bytes: 88),
    memory!(Alone, calls: &[WrongCall::Share], at: &[7], limit: NOTHING),
];

// What the checks find of a list that does this wrong.
fn found(faults: &Faults, variant: u8) -> Wrong {
    let large = LargeContainer {
        variant,
        count: 10_000,
        step: 1,
        limit: 10_000,
    };
    let plan = Plan {
        put: WrongCall::Put,
        receivers: &[
            receiver!(variant: variant, &[]),
            receiver!(variant: variant, &[1, 2]),
        ],
        numbers: &[9],
        calls: &[WrongCall::Put, WrongCall::PutTwo],
        never_refused: &[WrongCall::Take, WrongCall::Clear],
        empty_without_memory: &[variant],
        without_memory: &[],
        limits: &[(large, ROWS)],
    };
    match check_container::<Tests, WrongCall, WrongList>(
        faults,
        &plan,
        WrongCall::Clear,
        &receiver!(variant: variant, &[1, 2, 3]),
        &receiver!(variant: variant, &[1, 5]),
    ) {
        Ok(()) => Wrong::Nothing,
        Err(failure) => named(&failure),
    }
}

// What is wrong by the words of the failure.
fn named(failure: &Failure<'_, WrongCall>) -> Wrong {
    match failure {
        Failure::Refused { row, nth, outcome } => match row.call {
            WrongCall::PutTwo if *nth == 3 && !outcome.is_kept => Wrong::HalfWay,
            WrongCall::Clear if outcome.is_kept && !outcome.is_held => Wrong::Leaks,
            WrongCall::Take if !outcome.is_reported => Wrong::Fails,
            WrongCall::Take if outcome.is_all_freed && !outcome.is_held => Wrong::Keeps,
            _ => Wrong::Other,
        },
        Failure::OverLimit { call, came, .. } => match call {
            WrongCall::Share if came.requests == 20_000 => Wrong::Copies,
            WrongCall::Put if came.bytes == 8_088 => Wrong::Spends,
            WrongCall::Put if came.clones == 1 => Wrong::Doubles,
            _ => Wrong::Other,
        },
        Failure::Looks("first") => Wrong::LookAsks,
        Failure::Looks("last") => Wrong::LooksWrong,
        _ => Wrong::Other,
    }
}

#[test]
fn each_mistake_is_found(rt: HostRuntime) {
    for variant in 0..10u8 {
        let faults = Faults::new(rt.alloc());
        let found = found(&faults, variant);
        let wrong = WRONGS[usize::from(variant)];
        assert!(rt; found == wrong, "{found:?} for {wrong:?}");
    }
}
