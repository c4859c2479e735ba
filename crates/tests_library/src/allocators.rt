//! What two containers make has the first one's allocator, and asks it for its memory.
use rpds::{HashTrieMap, HashTrieSet, List, RedBlackTreeMap, RedBlackTreeSet, Sequence, Vector};
use rpds_faults::FailingAllocator;
use rpds_hash::map::hash_trie_map::DefaultBuildHasher;
use std::alloc::{AllocError, Global};
use std::process::Abort;

// The other container's allocator refuses the next request, and the first one's a late one.
fn is_first(alloc: &FailingAllocator) -> bool {
    alloc.until_failure() > 1
}

// Containers of which two make others.
trait Joined<'t>: Drop + Sized {
    // The container of these numbers.
    fn of(alloc: &'t FailingAllocator, numbers: &[u64]) -> Result<Self, AllocError>;

    // Whether each that the two make has the first one's allocator.
    fn keeps_the_first(&self, other: &Self) -> Result<bool, AllocError>;
}

impl<'t> Joined<'t> for List<u64, &'t FailingAllocator> {
    fn of(alloc: &'t FailingAllocator, numbers: &[u64]) -> Result<Self, AllocError> {
        List::from_iter(alloc, numbers.iter().copied())
    }

    fn keeps_the_first(&self, other: &Self) -> Result<bool, AllocError> {
        let mut list = self.clone()?;
        list.append_mut(other)?;
        let made = self.append(other)?;
        Ok(is_first(list.allocator()) && is_first(made.allocator()))
    }
}

impl<'t> Joined<'t> for Vector<u64, &'t FailingAllocator> {
    fn of(alloc: &'t FailingAllocator, numbers: &[u64]) -> Result<Self, AllocError> {
        Vector::from_iter(alloc, numbers.iter().copied())
    }

    fn keeps_the_first(&self, other: &Self) -> Result<bool, AllocError> {
        let made = self.append(other)?;
        Ok(is_first(made.allocator()))
    }
}

impl<'t> Joined<'t> for Sequence<u64, &'t FailingAllocator> {
    fn of(alloc: &'t FailingAllocator, numbers: &[u64]) -> Result<Self, AllocError> {
        Sequence::from_iter(alloc, numbers.iter().copied())
    }

    fn keeps_the_first(&self, other: &Self) -> Result<bool, AllocError> {
        let made = self.append(other)?;
        let spliced = self.splice(0..3, other)?;
        Ok(is_first(made.allocator()) && is_first(spliced.allocator()))
    }
}

impl<'t> Joined<'t> for RedBlackTreeSet<u64, &'t FailingAllocator> {
    fn of(alloc: &'t FailingAllocator, numbers: &[u64]) -> Result<Self, AllocError> {
        RedBlackTreeSet::from_iter(alloc, numbers.iter().copied())
    }

    fn keeps_the_first(&self, other: &Self) -> Result<bool, AllocError> {
        let both = (self | other)?;
        let common = (self & other)?;
        let left = (self - other)?;
        let unlike = (self ^ other)?;
        let is_kept = is_first(both.allocator()) && is_first(common.allocator());
        Ok(is_kept && is_first(left.allocator()) && is_first(unlike.allocator()))
    }
}

impl<'t> Joined<'t> for RedBlackTreeMap<u64, u64, &'t FailingAllocator> {
    fn of(alloc: &'t FailingAllocator, numbers: &[u64]) -> Result<Self, AllocError> {
        RedBlackTreeMap::from_iter(alloc, numbers.iter().map(|number| (*number, 1)))
    }

    fn keeps_the_first(&self, other: &Self) -> Result<bool, AllocError> {
        let united = self.union_with(other, |_key, ours, _theirs| Ok(*ours))?;
        let merged = self.merge(
            self,
            other,
            |_key, _base, _ours, theirs| Ok(theirs.copied()),
        )?;
        Ok(is_first(united.allocator()) && is_first(merged.allocator()))
    }
}

// `^` isn't here: of the other's members, it takes a set that the other's allocator makes.
impl<'t> Joined<'t> for HashTrieSet<u64, DefaultBuildHasher, &'t FailingAllocator> {
    fn of(alloc: &'t FailingAllocator, numbers: &[u64]) -> Result<Self, AllocError> {
        HashTrieSet::from_iter(alloc, numbers.iter().copied())
    }

    fn keeps_the_first(&self, other: &Self) -> Result<bool, AllocError> {
        let both = (self | other)?;
        let common = (self & other)?;
        let left = (self - other)?;
        let is_kept = is_first(both.allocator()) && is_first(common.allocator());
        Ok(is_kept && is_first(left.allocator()))
    }
}

impl<'t> Joined<'t> for HashTrieMap<u64, u64, DefaultBuildHasher, &'t FailingAllocator> {
    fn of(alloc: &'t FailingAllocator, numbers: &[u64]) -> Result<Self, AllocError> {
        HashTrieMap::from_iter(alloc, numbers.iter().map(|number| (*number, 1)))
    }

    fn keeps_the_first(&self, other: &Self) -> Result<bool, AllocError> {
        let united = self.union_with(other, |_key, ours, _theirs| Ok(*ours))?;
        let merged = self.merge(
            self,
            other,
            |_key, _base, _ours, theirs| Ok(theirs.copied()),
        )?;
        Ok(is_first(united.allocator()) && is_first(merged.allocator()))
    }
}

// The other container's numbers: some of the first one's, none of them, all, none at all, and more.
const OTHERS: [&[u64]; 5] = [
    &[3, 4, 5],
    &[6, 7, 8],
    &[1, 2, 3],
    &[],
    &[0, 1, 2, 3, 4, 5, 6, 7],
];

fn assert_joined<'t, C: Joined<'t>>(
    rt: &impl Abort,
    ours: &'t FailingAllocator,
    theirs: &'t FailingAllocator,
) {
    ours.refuse(u64::MAX);
    let one = C::of(ours, &[1, 2, 3]).expect(rt, "ample memory");
    for numbers in &OTHERS {
        theirs.refuse(u64::MAX);
        let other = C::of(theirs, numbers).expect(rt, "ample memory");
        theirs.refuse(1);
        let is_kept = one.keeps_the_first(&other);
        assert!(rt; is_kept.expect(rt, "no request to the other's allocator"));
        assert!(rt; theirs.until_failure() == 1);
    }
}

// The allocator of the first container, and that of the other.
fn two_allocators(alloc: Global) -> (FailingAllocator, FailingAllocator) {
    (FailingAllocator::new(alloc), FailingAllocator::new(alloc))
}

#[test]
fn lists(rt: HostRuntime) {
    let (ours, theirs) = two_allocators(rt.alloc());
    assert_joined::<List<u64, &FailingAllocator>>(&rt, &ours, &theirs);
}

#[test]
fn vectors(rt: HostRuntime) {
    let (ours, theirs) = two_allocators(rt.alloc());
    assert_joined::<Vector<u64, &FailingAllocator>>(&rt, &ours, &theirs);
}

#[test]
fn sequences(rt: HostRuntime) {
    let (ours, theirs) = two_allocators(rt.alloc());
    assert_joined::<Sequence<u64, &FailingAllocator>>(&rt, &ours, &theirs);
}

#[test]
fn ordered_sets(rt: HostRuntime) {
    let (ours, theirs) = two_allocators(rt.alloc());
    assert_joined::<RedBlackTreeSet<u64, &FailingAllocator>>(&rt, &ours, &theirs);
}

#[test]
fn ordered_maps(rt: HostRuntime) {
    let (ours, theirs) = two_allocators(rt.alloc());
    assert_joined::<RedBlackTreeMap<u64, u64, &FailingAllocator>>(&rt, &ours, &theirs);
}

#[test]
fn hashed_sets(rt: HostRuntime) {
    let (ours, theirs) = two_allocators(rt.alloc());
    assert_joined::<HashTrieSet<u64, DefaultBuildHasher, &FailingAllocator>>(&rt, &ours, &theirs);
}

#[test]
fn hashed_maps(rt: HostRuntime) {
    let (ours, theirs) = two_allocators(rt.alloc());
    assert_joined::<HashTrieMap<u64, u64, DefaultBuildHasher, &FailingAllocator>>(
        &rt, &ours, &theirs,
    );
}
