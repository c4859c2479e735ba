//! Containers that are made of an array.
use crate::cases::Cases;
use crate::keys::Keys;
use rpds_hash::identity_build::IdentityBuild;
use rpds_hash::map::hash_trie_map::HashTrieMap;
use rpds_list::list::List;
use rpds_sequence::sequence::Sequence;
use rpds_tree::map::red_black_tree_map::RedBlackTreeMap;
use rpds_vector::vector::Vector;
use std::alloc::AllocError;
use std::io;

type Hashed = HashTrieMap<u64, u64, IdentityBuild>;

// The first hundred numbers that are stored, and zeros where there are fewer.
fn hundred(keys: &Keys) -> Result<[u64; 100], AllocError> {
    let mut numbers = [0u64; 100];
    for (number, key) in numbers.iter_mut().zip(&keys.stored) {
        *number = *key;
    }
    Ok(numbers)
}

// The same, each with itself.
fn hundred_pairs(keys: &Keys) -> Result<[(u64, u64); 100], AllocError> {
    let mut pairs = [(0u64, 0u64); 100];
    for (pair, key) in pairs.iter_mut().zip(&keys.stored) {
        *pair = (*key, *key);
    }
    Ok(pairs)
}

/// The cases of arrays.
pub fn run(cases: &Cases<'_>) -> io::Result<()> {
    let alloc = cases.keys.alloc;
    cases
        .of("List")
        .once("from_array of 100", hundred, |numbers: &[u64; 100]| {
            List::from_array(alloc, *numbers)
        })
        .and(
            cases
                .of("Vector")
                .once("from_array of 100", hundred, |numbers: &[u64; 100]| {
                    Vector::from_array(alloc, *numbers)
                }),
        )
        .and(
            cases
                .of("Sequence")
                .once("from_array of 100", hundred, |numbers: &[u64; 100]| {
                    Sequence::from_array(alloc, *numbers)
                }),
        )
        .and(
            cases.of("RedBlackTreeMap").once(
                "from_array of 100",
                hundred_pairs,
                |pairs: &[(u64, u64); 100]| RedBlackTreeMap::from_array(alloc, *pairs),
            ),
        )
        .and(
            cases.of("HashTrieMap").once(
                "from_array of 100",
                hundred_pairs,
                |pairs: &[(u64, u64); 100]| Hashed::from_array(alloc, *pairs),
            ),
        )
}
