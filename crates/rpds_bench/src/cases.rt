//! The cases of one container: those that are asked for are run.
use crate::keys::Keys;
use crate::measured;
use crate::subject::{Start, Subject};
use std::alloc::AllocError;
use std::io;
use std::time::Instant;

// How many calls a round makes at least, so that the clock's own time doesn't count.
const CALLS: usize = 10_000;

/// The cases of one container.
#[derive(Clone, Copy, Drop)]
pub struct Cases<'a> {
    /// Where the name of a case that was run is printed.
    pub rt: &'a HostRuntime,
    /// The container and the call of the one case that is asked for, or `None` for all.
    pub asked: Option<(&'a str, &'a str)>,
    /// How many rounds a case is timed in, or `None` where it is run once.
    pub rounds: Option<usize>,
    /// What the cases work on.
    pub keys: &'a Keys,
    /// The container's name.
    pub container: &'a str,
}

impl<'a> Cases<'a> {
    /// Those of another container.
    pub fn of(&self, container: &'a str) -> Cases<'a> {
        Cases { container, ..*self }
    }

    /// Whether a case is asked for that has these words in its name, so that what it needs has to be made.
    pub fn asks_for(&self, words: &str) -> bool {
        match self.asked {
            Some((_, call)) => call.split_once(words).is_some(),
            None => true,
        }
    }

    fn is_asked(&self, case: &str) -> bool {
        match self.asked {
            Some((container, call)) => container == self.container && call == case,
            None => true,
        }
    }

    // Prints a case that was run once, or the nanoseconds of its round.
    fn tell(&self, case: &str, count: usize, since: Instant) -> io::Result<()> {
        match self.rounds {
            Some(_) => {
                let time = since.elapsed(self.rt)?.as_nanos();
                println!(self.rt; "{time} {}::{case}", self.container)
            }
            None => println!(self.rt; "{count} {}::{case}", self.container),
        }
    }

    fn rounds(&self) -> usize {
        self.rounds.unwrap_or(1)
    }

    // How often a round repeats the case, each time on a container of its own.
    fn repeats(&self) -> usize {
        match self.rounds {
            Some(_) => (CALLS / self.keys.stored.len().max(1)).max(1),
            None => 1,
        }
    }

    fn full<S: Subject>(&self) -> Result<S, AllocError> {
        S::of_numbers(self.keys.alloc, &self.keys.stored)
    }

    // What a case begins with, and what shares it.
    fn start<S: Subject>(&self, start: Start) -> Result<(S, S), AllocError> {
        let alloc = self.keys.alloc;
        match start {
            Start::Empty => Ok((S::empty(alloc), S::empty(alloc))),
            Start::Own => Ok((self.full()?, S::empty(alloc))),
            Start::Shared => {
                let kept = self.full::<S>()?;
                Ok((kept.copied()?, kept))
            }
        }
    }

    // What the repeats of a round begin with.
    fn starts<S: Subject>(&self, start: Start) -> Result<Vec<(S, S)>, AllocError> {
        let mut starts = Vec::new(self.keys.alloc);
        for _ in 0..self.repeats() {
            starts.push(self.start(start)?)?;
        }
        Ok(starts)
    }

    /// One change in place with each of these keys.
    pub fn changes<S: Subject, K: Copy, F: Fn(&mut S, K) -> Result<(), AllocError>>(
        &self,
        case: &str,
        start: Start,
        keys: &[K],
        change: F,
    ) -> io::Result<()>
        requires { F.IsAlwaysCallable change }
    {
        if self.is_asked(case) {
            for _ in 0..self.rounds() {
                let mut starts = self.starts::<S>(start)?;
                let since = Instant::now(self.rt)?;
                for (subject, _) in &mut starts {
                    measured::changes(subject, keys, &change)?;
                }
                self.tell(case, keys.len(), since)?;
            }
        }
        Ok(())
    }

    /// One version with each of these keys.
    pub fn versions<S: Subject, K: Copy, F: Fn(&S, K) -> Result<Option<S>, AllocError>>(
        &self,
        case: &str,
        start: Start,
        keys: &[K],
        change: F,
    ) -> io::Result<()>
        requires { F.IsAlwaysCallable change }
    {
        if self.is_asked(case) {
            for _ in 0..self.rounds() {
                let mut starts = self.starts::<S>(start)?;
                let since = Instant::now(self.rt)?;
                for (subject, _) in &mut starts {
                    measured::versions(subject, keys, &change)?;
                }
                self.tell(case, keys.len(), since)?;
            }
        }
        Ok(())
    }

    /// One look-up of each of these keys in a container of all stored ones.
    pub fn looks<S: Subject, K, F: Fn(&S, &K) -> u64>(
        &self,
        case: &str,
        keys: &[K],
        look: F,
    ) -> io::Result<()>
        requires { F.IsAlwaysCallable look }
    {
        if self.is_asked(case) {
            for _ in 0..self.rounds() {
                let starts = self.starts::<S>(Start::Own)?;
                let mut sums = Vec::with_capacity(self.keys.alloc, starts.len())?;
                let since = Instant::now(self.rt)?;
                for (subject, _) in &starts {
                    sums.push(measured::looks(subject, keys, &look))?;
                }
                self.tell(case, keys.len(), since)?;
            }
        }
        Ok(())
    }

    /// One call on a container of all stored keys, which stays, and on another that was made of these.
    pub fn whole<S: Subject, R: Drop, F: Fn(&mut S, &S) -> Result<R, AllocError>>(
        &self,
        case: &str,
        others: &[u64],
        call: F,
    ) -> io::Result<()>
        requires { F.IsAlwaysCallable call }
    {
        if self.is_asked(case) {
            let other = S::of_numbers(self.keys.alloc, others)?;
            for _ in 0..self.rounds() {
                let mut starts = self.starts::<S>(Start::Own)?;
                let mut ends = Vec::with_capacity(self.keys.alloc, starts.len())?;
                let since = Instant::now(self.rt)?;
                for (subject, _) in &mut starts {
                    ends.push(measured::whole(subject, &other, &call)?)?;
                }
                self.tell(case, self.keys.stored.len(), since)?;
            }
        }
        Ok(())
    }

    /// One call that takes a container of all stored keys, and another that was made of these by reference.
    pub fn call<S: Subject, R: Drop, F: Fn(S, &S) -> Result<R, AllocError>>(
        &self,
        case: &str,
        others: &[u64],
        call: F,
    ) -> io::Result<()>
        requires { F.IsAlwaysCallable call }
    {
        if self.is_asked(case) {
            let other = S::of_numbers(self.keys.alloc, others)?;
            for _ in 0..self.rounds() {
                let starts = self.starts::<S>(Start::Own)?;
                let mut ends = Vec::with_capacity(self.keys.alloc, starts.len())?;
                let since = Instant::now(self.rt)?;
                for (subject, _) in starts {
                    ends.push(measured::call(subject, &other, &call)?)?;
                }
                self.tell(case, self.keys.stored.len(), since)?;
            }
        }
        Ok(())
    }

    /// One call on what is made of the keys.
    pub fn once<
        S: Drop,
        R: Drop,
        M: Fn(&Keys) -> Result<S, AllocError>,
        F: Fn(&S) -> Result<R, AllocError>,
    >(&self, case: &str, make: M, call: F) -> io::Result<()>
        requires make { M.IsAlwaysCallable make }
        requires call { F.IsAlwaysCallable call }
    {
        if self.is_asked(case) {
            let subject = make(self.keys)?;
            for _ in 0..self.rounds() {
                let since = Instant::now(self.rt)?;
                let _end = measured::once(&subject, &call)?;
                self.tell(case, 1, since)?;
            }
        }
        Ok(())
    }
}
