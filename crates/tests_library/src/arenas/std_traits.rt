//! What std's traits make of arenas, and of interners.
use rpds_arena::arena::Arena;
use rpds_arena::interner::Interner;
use std::collections::BTreeMap;
use std::iter::Extend;
use std::mem;

#[test]
fn collected(rt: HostRuntime) {
    let mut arena: Arena<u64> = (3u64..6).collect(rt.alloc()).expect(&rt, "ample memory");
    Extend::extend(&mut arena, [9, 3]).expect(&rt, "ample memory");
    Extend::extend(&mut arena, &[8, 9]).expect(&rt, "ample memory");
    assert!(rt; arena.iter().copied().eq([3, 4, 5, 9, 3, 8, 9]));
    let id = arena.put(7).expect(&rt, "ample memory");
    assert!(rt; id.number() == 7 && arena.get(id) == Some(&7));
}

#[test]
fn emptied(rt: HostRuntime) {
    let mut arena: Arena<u64> = (0u64..3).collect(rt.alloc()).expect(&rt, "ample memory");
    let taken = mem::try_take(&mut arena).expect(&rt, "ample memory");
    assert!(rt; arena.is_empty() && taken.len() == 3);
    let mut texts: Interner<u64> = Interner::new(rt.alloc());
    let _id = texts.intern(7).expect(&rt, "ample memory");
    let taken = mem::try_take(&mut texts).expect(&rt, "ample memory");
    assert!(rt; texts.arena().is_empty() && taken.id_of(&7).is_some());
}

#[test]
fn made_with_an_allocator(rt: HostRuntime) {
    let mut arenas: BTreeMap<u64, Arena<u64>> = BTreeMap::new(rt.alloc());
    let entry = arenas.entry(7).expect(&rt, "ample memory");
    let _id = entry.or_default().put(1).expect(&rt, "ample memory");
    assert!(rt; arenas.get(&7).map(|arena| arena.len()) == Some(1));
}
