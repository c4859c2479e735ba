//! Containers that are built and dropped, once over the kit's arena and once over the allocator of the program.
use crate::cases::Cases;
use crate::keys::Keys;
use bumpalo::Bump;
use rpds_hash::identity_build::IdentityBuild;
use rpds_hash::map::hash_trie_map::HashTrieMap;
use rpds_list::list::List;
use rpds_tree::map::red_black_tree_map::RedBlackTreeMap;
use rpds_vector::vector::Vector;
use std::alloc::{AllocError, Allocator};
use std::io;

/// The cases of both allocators.
pub fn run(cases: &Cases<'_>) -> io::Result<()> {
    let keys = cases.keys;
    let bump = cases.of("Bump");
    let global = cases.of("Global");
    bump.call(
        "List",
        &[],
        |_: List<u64>, _| listed(&Bump::new(keys.alloc), keys),
    )
    .and(global.call("List", &[], |_: List<u64>, _| listed(keys.alloc, keys)))
    .and(bump.call(
        "Vector",
        &[],
        |_: List<u64>, _| rowed(&Bump::new(keys.alloc), keys),
    ))
    .and(global.call("Vector", &[], |_: List<u64>, _| rowed(keys.alloc, keys)))
    .and(bump.call(
        "HashTrieMap",
        &[],
        |_: List<u64>, _| hashed(&Bump::new(keys.alloc), keys),
    ))
    .and(global.call(
        "HashTrieMap",
        &[],
        |_: List<u64>, _| hashed(keys.alloc, keys),
    ))
    .and(bump.call(
        "RedBlackTreeMap",
        &[],
        |_: List<u64>, _| ordered(&Bump::new(keys.alloc), keys),
    ))
    .and(global.call(
        "RedBlackTreeMap",
        &[],
        |_: List<u64>, _| ordered(keys.alloc, keys),
    ))
}

fn listed<A: Allocator + Copy>(alloc: A, keys: &Keys) -> Result<usize, AllocError> {
    let mut list = List::new(alloc);
    for key in &keys.stored {
        list.push_front_mut(*key)?;
    }
    Ok(list.len())
}

fn rowed<A: Allocator + Copy>(alloc: A, keys: &Keys) -> Result<usize, AllocError> {
    let mut vector = Vector::new(alloc);
    for key in &keys.stored {
        vector.push_back_mut(*key)?;
    }
    Ok(vector.len())
}

fn hashed<A: Allocator + Copy>(alloc: A, keys: &Keys) -> Result<usize, AllocError> {
    let mut map = HashTrieMap::new_with_hasher(alloc, IdentityBuild {});
    for key in &keys.stored {
        map.insert_mut(*key, *key)?;
    }
    Ok(map.size())
}

// All versions are kept until the end.
fn ordered<A: Allocator + Copy>(alloc: A, keys: &Keys) -> Result<usize, AllocError> {
    let mut versions = Vec::new(keys.alloc);
    let mut map = RedBlackTreeMap::new(alloc);
    for key in &keys.stored {
        let next = map.insert(*key, *key)?;
        versions.push(map)?;
        map = next;
    }
    Ok(map.size())
}
