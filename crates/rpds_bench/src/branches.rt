//! Branches of an ordered map, and two of them in one.
use crate::cases::Cases;
use crate::keys::Keys;
use crate::subject::Subject;
use rpds_branch::branch::Branch;
use rpds_tree::map::red_black_tree_map::RedBlackTreeMap;
use std::alloc::AllocError;
use std::io;

type Map = RedBlackTreeMap<u64, u64>;

type Side = Branch<u64, u64>;

// How many keys a side changes.
const CHANGED: usize = 100;

// A map of all stored keys, and two branches of it that changed some.
#[derive(Drop)]
struct Sides {
    base: Map,
    ours: Side,
    theirs: Side,
}

impl Sides {
    // Ours takes keys out, and theirs gives others another value.
    fn new(keys: &Keys) -> Result<Sides, AllocError> {
        let base = Map::of_numbers(keys.alloc, &keys.stored)?;
        let mut ours = Branch::new(&base)?;
        for key in keys.shuffled.iter().take(CHANGED) {
            ours.remove_mut(key)?;
        }
        let mut theirs = Branch::new(&base)?;
        for key in keys.shuffled.iter().skip(CHANGED).take(CHANGED) {
            theirs.insert_mut(*key, 7)?;
        }
        Ok(Sides { base, ours, theirs })
    }
}

/// The cases of branches, and of the maps that they hold.
pub fn run(cases: &Cases<'_>) -> io::Result<()> {
    let branch = cases.of("Branch");
    let map = cases.of("RedBlackTreeMap");
    branch
        .once("changes of 100", Sides::new, |sides: &Sides| {
            let mut count = 0u64;
            for _ in sides.ours.changes() {
                count = count.wrapping_add(1);
            }
            Ok(count)
        })
        .and(branch.once("merge_ours of 100", Sides::new, |sides: &Sides| {
            let merged = sides.ours.merge_ours(&sides.theirs)?;
            Ok(merged.branch)
        }))
        .and(branch.once("merge of 100", Sides::new, |sides: &Sides| {
            sides
                .ours
                .merge(&sides.theirs, |_, _, ours, _| Ok(ours.copied()))
        }))
        .and(branch.once("rebase of 100", Sides::new, |sides: &Sides| {
            let merged = sides.ours.rebase(sides.theirs.current())?;
            Ok(merged.branch)
        }))
        .and(map.once("diff of 100", Sides::new, |sides: &Sides| {
            let mut count = 0u64;
            for _ in sides.base.diff(sides.ours.current()) {
                count = count.wrapping_add(1);
            }
            Ok(count)
        }))
        .and(map.once("merge_ours of 100", Sides::new, |sides: &Sides| {
            let merged = sides
                .base
                .merge_ours(sides.ours.current(), sides.theirs.current())?;
            Ok(merged.map)
        }))
        .and(map.once("merge of 100", Sides::new, |sides: &Sides| {
            sides.base.merge(
                sides.ours.current(),
                sides.theirs.current(),
                |_, _, ours, _| Ok(ours.copied()),
            )
        }))
}
