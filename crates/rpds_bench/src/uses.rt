//! Uses of many versions: an undo store, the scopes of an interpreter, a search. And containers that are kept, so that the
//! memory they take can be told from outside.
use crate::cases::Cases;
use crate::keyed::{Keyed, Set};
use crate::keys::Keys;
use crate::subject::Subject;
use rpds_hash::identity_build::IdentityBuild;
use rpds_hash::map::hash_trie_map::HashTrieMap;
use rpds_hash::set::hash_trie_set::HashTrieSet;
use rpds_list::list::List;
use rpds_list::queue::Queue;
use rpds_sequence::sequence::Sequence;
use rpds_tree::map::red_black_tree_map::RedBlackTreeMap;
use rpds_tree::set::red_black_tree_set::RedBlackTreeSet;
use rpds_vector::vector::Vector;
use std::alloc::AllocError;
use std::io;

type OrderedMap = RedBlackTreeMap<u64, u64>;

type OrderedSet = RedBlackTreeSet<u64>;

type HashedMap = HashTrieMap<u64, u64, IdentityBuild>;

type HashedSet = HashTrieSet<u64, IdentityBuild>;

// How many versions of a sequence are kept at most.
const VERSIONS: usize = 10_000;

/// The cases of all uses.
pub fn run(cases: &Cases<'_>) -> io::Result<()> {
    let keys = cases.keys;
    let scopes = cases.of("scopes");
    let queens = cases.of("queens");
    run_kept(&cases.of("kept"))
        .and(run_undo(&cases.of("undo")))
        .and(scopes.call(
            "RedBlackTreeMap",
            &[],
            |map: OrderedMap, _| entered(&map, keys),
        ))
        .and(scopes.call("HashTrieMap", &[], |map: HashedMap, _| entered(&map, keys)))
        .and(queens.call(
            "RedBlackTreeSet",
            &[],
            |_: OrderedSet, empty| placed(empty, keys),
        ))
        .and(queens.call(
            "HashTrieSet",
            &[],
            |_: HashedSet, empty| placed(empty, keys),
        ))
}

// Each container by itself.
fn run_kept(kept: &Cases<'_>) -> io::Result<()> {
    kept.call("List", &[], keep::<List<u64>>)
        .and(kept.call("Queue", &[], keep::<Queue<u64>>))
        .and(kept.call("Vector", &[], keep::<Vector<u64>>))
        .and(kept.call("Sequence", &[], keep::<Sequence<u64>>))
        .and(kept.call("RedBlackTreeMap", &[], keep::<OrderedMap>))
        .and(kept.call("RedBlackTreeSet", &[], keep::<OrderedSet>))
        .and(kept.call("HashTrieMap", &[], keep::<HashedMap>))
        .and(kept.call("HashTrieSet", &[], keep::<HashedSet>))
}

// The versions that an undo store keeps.
fn run_undo(undo: &Cases<'_>) -> io::Result<()> {
    let keys = undo.keys;
    undo.call(
        "RedBlackTreeMap",
        &[],
        |map: OrderedMap, _| edited(map, keys),
    )
    .and(undo.call("HashTrieMap", &[], |map: HashedMap, _| edited(map, keys)))
    .and(undo.call(
        "Vector",
        &[],
        |vector: Vector<u64>, _| written(vector, keys),
    ))
    .and(undo.call(
        "Sequence",
        &[],
        |sequence: Sequence<u64>, _| lengthened(sequence, keys),
    ))
}

fn keep<S: Subject>(subject: S, _: &S) -> Result<S, AllocError> {
    Ok(subject)
}

// Puts a key in or takes one out as often as the map has keys, and keeps each version. Then looks a key up in each.
fn edited<S: Keyed>(map: S, keys: &Keys) -> Result<(Vec<S>, u64), AllocError> {
    let mut versions = Vec::with_capacity(keys.alloc, keys.stored.len())?;
    let mut now = map;
    for (stored, absent) in keys.shuffled.iter().zip(&keys.absent) {
        let next = if *stored % 2 == 0 {
            now.insert(*absent)?
        } else {
            now.remove(stored)?
        };
        versions.push(now)?;
        now = next;
    }
    let mut sum = now.find(&0);
    for (version, key) in versions.iter().zip(&keys.stored) {
        sum = sum.wrapping_add(version.find(key));
    }
    Ok((versions, sum))
}

// Writes to each position of the vector, and keeps each version.
fn written(vector: Vector<u64>, keys: &Keys) -> Result<Vec<Vector<u64>>, AllocError> {
    let mut versions = Vec::with_capacity(keys.alloc, keys.stored.len())?;
    let mut now = vector;
    for position in &keys.shuffled_positions {
        if let Some(next) = now.set(*position, 7)? {
            versions.push(now)?;
            now = next;
        }
    }
    Ok(versions)
}

// Puts an item in at some positions of the sequence, and keeps each version.
fn lengthened(sequence: Sequence<u64>, keys: &Keys) -> Result<Vec<Sequence<u64>>, AllocError> {
    let positions = keys.some_positions(VERSIONS);
    let mut versions = Vec::with_capacity(keys.alloc, positions.len())?;
    let mut now = sequence;
    for position in positions {
        if let Some(next) = now.insert(*position, 7)? {
            versions.push(now)?;
            now = next;
        }
    }
    Ok(versions)
}

// Enters a scope of five names in the scope before it, up to eight of them, and then leaves all. In each it looks its own
// names up, and five of the outermost.
fn entered<S: Keyed>(map: &S, keys: &Keys) -> Result<u64, AllocError> {
    let mut open: Vec<S> = Vec::new(keys.alloc);
    let mut sum = 0u64;
    for (own, outer) in keys.absent.chunks(5).zip(keys.shuffled.chunks(5)) {
        let mut scope = open.last().unwrap_or(map).copied()?;
        for name in own {
            scope.put(*name)?;
        }
        for name in own.iter().chain(outer) {
            sum = sum.wrapping_add(scope.find(name));
        }
        if open.len() == 8 {
            open.clear();
        }
        open.push(scope)?;
    }
    Ok(sum)
}

// Queens on the first rows of a board of eight, as what they attack.
#[derive(Drop)]
struct Board<S> {
    columns: S,
    rising: S,
    falling: S,
}

impl<S: Set> Board<S> {
    // With a queen in the next row, or `None` where it is attacked.
    fn with(&self, row: u64, column: u64) -> Result<Option<Board<S>>, AllocError> {
        let rising = row.wrapping_add(column);
        let falling = row.wrapping_add(8).wrapping_sub(column);
        if self.columns.find(&column) > 0
            || self.rising.find(&rising) > 0
            || self.falling.find(&falling) > 0
        {
            return Ok(None);
        }
        Ok(Some(Board {
            columns: self.columns.insert(column)?,
            rising: self.rising.insert(rising)?,
            falling: self.falling.insert(falling)?,
        }))
    }
}

// How many ways there are to place eight queens, none of which attacks another.
fn placed<S: Set>(empty: &S, keys: &Keys) -> Result<usize, AllocError> {
    let mut boards = Vec::new(keys.alloc);
    boards.push(Board {
        columns: empty.copied()?,
        rising: empty.copied()?,
        falling: empty.copied()?,
    })?;
    for row in 0..8 {
        let mut longer = Vec::new(keys.alloc);
        for board in &boards {
            for column in 0..8 {
                if let Some(next) = board.with(row, column)? {
                    longer.push(next)?;
                }
            }
        }
        boards = longer;
    }
    Ok(boards.len())
}
