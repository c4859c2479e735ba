//! What is checked of a subject, in rows.

/// A receiver of calls: how it is made, and the numbers that are put in then.
#[derive(Debug, Drop)]
pub struct Receiver<'r> {
    /// How it is made: of what form, hasher or kind. Each test says what its variants are.
    pub variant: u8,
    /// The numbers that are put in, one by one.
    pub numbers: &'r [u64],
}

/// Calls for which a receiver needs no memory.
#[derive(Drop)]
pub struct NoMemoryRow<'r, C> {
    /// On what each of the calls is made.
    pub receiver: Receiver<'r>,
    /// The calls.
    pub calls: &'r [C],
    /// The item or key at which they are made.
    pub number: u64,
    /// Whether there is something to do: then another receiver is handed out, for which a hasher is cloned.
    pub answer: bool,
}

/// The most that a call asks for.
#[derive(Drop)]
pub struct Limit {
    /// How many requests it makes.
    pub requests: u64,
    /// How many bytes it asks for by them.
    pub bytes: u64,
}

/// A call that asks for no memory.
pub const NOTHING: Limit = Limit {
    requests: 0,
    bytes: 0,
};

/// Calls that ask for memory, and the most that one of them asks for.
#[derive(Drop)]
pub struct MemoryRow<'r, C> {
    /// On what the calls are made.
    pub sharing: Sharing,
    /// The calls.
    pub calls: &'r [C],
    /// The items or keys at which each of them is made, one after another.
    pub numbers: &'r [u64],
    /// Whether there is something to do.
    pub answer: bool,
    /// The most clones of items and hashers that one of them makes.
    pub clones: u64,
    /// The most that one of them asks for.
    pub limit: Limit,
}

/// The receivers of calls, and where the calls are made.
#[derive(Drop)]
pub struct Plan<'r, C> {
    /// The call that puts a number in.
    pub put: C,
    /// The receivers.
    pub receivers: &'r [Receiver<'r>],
    /// The items or keys at which the calls are made.
    pub numbers: &'r [u64],
    /// The calls that ask for memory or for a clone, each on one of the receivers at least, but for those that a test checks by
    /// itself.
    pub calls: &'r [C],
    /// The calls that ask for neither, on any receiver.
    pub never_refused: &'r [C],
    /// The variants of which an empty receiver is made without memory.
    pub empty_without_memory: &'r [u8],
    /// Calls for which no memory is needed.
    pub without_memory: &'r [NoMemoryRow<'r, C>],
    /// Large receivers, and the calls on each of which requests and bytes are counted.
    pub limits: &'r [(LargeContainer, &'r [MemoryRow<'r, C>])],
}

/// On what the calls of a row are made, and what is asked of the numbers of their requests and bytes.
#[derive(Drop)]
pub enum Sharing {
    /// On another handle each, and they make equally many requests, of equally many bytes.
    Alike,
    /// On another handle each.
    Shared,
    /// On the container itself, which shares nothing.
    Alone,
}

/// A container of many numbers, put in one by one: the first multiples of `step`, modulo `limit`.
#[derive(Drop)]
pub struct LargeContainer {
    /// How the container is made.
    pub variant: u8,
    /// How many numbers are put in: 10,000, but where the shape that matters takes fewer.
    pub count: u64,
    /// How far each number is above the one before.
    pub step: u64,
    /// What all numbers are below.
    pub limit: u64,
}

/// A receiver that holds these numbers: `receiver!(&[1, 2])` of the variant 0, `receiver!(variant: 5, &[1, 2])` of another.
#[macro_export]
macro_rules! receiver {
    (variant: $variant:expr, $numbers:expr) => {
        $crate::plan::Receiver {
            variant: $variant,
            numbers: $numbers,
        }
    };
    ($numbers:expr) => {
        $crate::receiver!(variant: 0, $numbers)
    };
}

/// Receivers of the variant 0 that hold these numbers: `receivers![&[], &[1, 2]]`.
#[macro_export]
macro_rules! receivers {
    ($($numbers:expr),* $(,)?) => {
        &[$($crate::receiver!($numbers)),*]
    };
}

/// Calls on a receiver that need no memory: `no_memory!(receiver!(&[]), calls: TAKES, at: 3, answer: false)`.
#[macro_export]
macro_rules! no_memory {
    ($receiver:expr, calls: $calls:expr, at: $number:expr, answer: $answer:expr) => {
        $crate::plan::NoMemoryRow {
            receiver: $receiver,
            calls: $calls,
            number: $number,
            answer: $answer,
        }
    };
}

/// Calls, and the most that one asks for: `memory!(Shared, calls: PUTS, at: &[7], requests: 2, bytes: CELL + ITEM)`, or
/// `limit: NOTHING` at the end. The calls have something to do, unless `answer: false` stands before that. They make as many clones
/// as they like, unless `clones: 1` stands before the limit.
#[macro_export]
macro_rules! memory {
    (
        $sharing:expr, calls: $calls:expr, at: $numbers:expr, $(answer: $answer:expr,)?
        clones: $clones:expr, limit: $limit:expr
    ) => {
        $crate::plan::MemoryRow {
            sharing: $sharing,
            calls: $calls,
            numbers: $numbers,
            answer: true $(&& $answer)?,
            clones: $clones,
            limit: $limit,
        }
    };
    ($sharing:expr, calls: $calls:expr, at: $numbers:expr, $(answer: $answer:expr,)? limit: $limit:expr) => {
        $crate::memory!($sharing, calls: $calls, at: $numbers, $(answer: $answer,)? clones: u64::MAX, limit: $limit)
    };
    (
        $sharing:expr, calls: $calls:expr, at: $numbers:expr, $(answer: $answer:expr,)?
        clones: $clones:expr, requests: $requests:expr, bytes: $bytes:expr
    ) => {
        $crate::memory!($sharing, calls: $calls, at: $numbers, $(answer: $answer,)? clones: $clones,
            limit: $crate::plan::Limit {
                requests: $requests,
                bytes: $bytes,
            })
    };
    (
        $sharing:expr, calls: $calls:expr, at: $numbers:expr, $(answer: $answer:expr,)?
        requests: $requests:expr, bytes: $bytes:expr
    ) => {
        $crate::memory!($sharing, calls: $calls, at: $numbers, $(answer: $answer,)? clones: u64::MAX,
            requests: $requests, bytes: $bytes)
    };
}
