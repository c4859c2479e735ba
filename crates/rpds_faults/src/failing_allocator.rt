//! An allocator that counts what it is asked for and given back, and refuses one request.
ghost use Rattle.std.specs.Prelude.{◌≡◌};

use std::alloc::{AllocError, Allocator, Global};
use std::cell::Cell;

/// What an allocator was asked for, and what of it isn't given back yet.
#[derive(Clone, Copy, Debug, PartialEq, Eq)]
pub struct Counts {
    /// How many requests there are until one is refused, that one included.
    pub until_failure: u64,
    /// How many bytes were handed out.
    pub bytes: u64,
    /// How many blocks were handed out and aren't given back.
    pub blocks_held: u64,
    /// How many bytes were handed out and aren't given back.
    pub bytes_held: u64,
}

/// An allocator that passes each request for memory on to another one, and refuses one of them.
///
/// A container takes a `&` to it: `List::new(&alloc)`. A request is a call of `allocate`; a buffer that grows makes one too,
/// and giving memory back is none. Make what a call needs first, call [`refuse`](FailingAllocator::refuse) just before it,
/// and compare afterwards. To count the requests of a call, call `alloc.refuse(u64::MAX)` before it:
/// `u64::MAX - alloc.until_failure()` is their number. What is let go has given all back:
/// [`holds_nothing`](FailingAllocator::holds_nothing).
pub struct FailingAllocator<B: Allocator = Global> {
    inner: B,
    counts: Cell<Counts>,
}

impl<B: Allocator> FailingAllocator<B> {
    /// An allocator over `inner` that refuses no request of its own.
    pub fn new(inner: B) -> FailingAllocator<B>
        ensures { result.inner ≡ inner }
    {
        FailingAllocator {
            inner,
            counts: Cell::new(Counts {
                until_failure: u64::MAX,
                bytes: 0,
                blocks_held: 0,
                bytes_held: 0,
            }),
        }
    }

    /// Has the request number `nth` from now on refused, from 1, and no other. At 0 none is refused.
    pub fn refuse(&self, nth: u64) {
        let mut counts = self.counts.get();
        counts.until_failure = nth;
        self.counts.set(counts);
    }

    /// How many requests there are until one is refused, that one included. It falls by one with each request.
    pub fn until_failure(&self) -> u64 {
        self.counts.get().until_failure
    }

    /// How many bytes were handed out, those that were given back too.
    pub fn bytes(&self) -> u64 {
        self.counts.get().bytes
    }

    /// Whether all blocks that were handed out, and all their bytes, were given back.
    pub fn holds_nothing(&self) -> bool {
        let counts = self.counts.get();
        counts.blocks_held == 0 && counts.bytes_held == 0
    }
}

impl<B: Allocator> Drop for FailingAllocator<B> {
    fn drop(self) {
        let Self {
            inner: _,
            counts: _,
        } = self;
    }
}

// Counts a request of this size, and answers whether it is the one to be refused.
fn fails_now(cell: &Cell<Counts>, size: usize) -> bool {
    let mut counts = cell.get();
    counts.until_failure = counts.until_failure.wrapping_sub(1);
    let fails = counts.until_failure == 0;
    if !fails {
        counts.bytes = counts.bytes.wrapping_add(size as u64);
        counts.blocks_held = counts.blocks_held.wrapping_add(1);
        counts.bytes_held = counts.bytes_held.wrapping_add(size as u64);
    }
    cell.set(counts);
    fails
}

// Counts a block of this size that is given back.
fn count_freed(cell: &Cell<Counts>, size: usize) {
    let mut counts = cell.get();
    counts.blocks_held = counts.blocks_held.wrapping_sub(1);
    counts.bytes_held = counts.bytes_held.wrapping_sub(size as u64);
    cell.set(counts);
}

unsafe impl<B: Allocator> Allocator for FailingAllocator<B> {
    ghost dealloc_token = { λ alloc ty ptr. B.dealloc_token alloc.inner ty ptr };

    fn allocate(&self, size: usize, align: usize) -> Result<*mut u8, AllocError> {
        if fails_now(&self.counts, size) {
            return Err(AllocError);
        }
        self.inner.allocate(size, align)
    }

    unsafe fn deallocate(&self, ptr: *mut u8, size: usize, align: usize) {
        count_freed(&self.counts, size);
        self.inner.deallocate(ptr, size, align);
    }
}
