//! Maps of texts to numbers: a key that is sought by a `&str`, and by a reference to a key.
use crate::cases::Cases;
use crate::subject::{Start, Subject};
use rpds_hash::map::hash_trie_map::HashTrieMap;
use rpds_tree::map::red_black_tree_map::RedBlackTreeMap;
use std::alloc::{AllocError, Global};
use std::io;

// A map whose keys are the numbers in decimal digits.
trait Texts: Subject {
    fn get_by_str(&self, key: &str) -> u64;

    fn get_by_key(&self, key: &String) -> u64;

    fn remove_by_str(&self, key: &str) -> Result<Self, AllocError>;

    fn remove_by_key(&self, key: &String) -> Result<Self, AllocError>;
}

impl Subject for RedBlackTreeMap<String, u64> {
    fn empty(alloc: Global) -> Self {
        RedBlackTreeMap::new(alloc)
    }

    fn put(&mut self, number: u64) -> Result<(), AllocError> {
        self.insert_mut(text_of(*self.allocator(), number)?, number)
    }

    fn copied(&self) -> Result<Self, AllocError> {
        self.clone()
    }
}

impl Texts for RedBlackTreeMap<String, u64> {
    fn get_by_str(&self, key: &str) -> u64 {
        self.get(key).copied().unwrap_or(0)
    }

    fn get_by_key(&self, key: &String) -> u64 {
        self.get(key).copied().unwrap_or(0)
    }

    fn remove_by_str(&self, key: &str) -> Result<Self, AllocError> {
        self.remove(key)
    }

    fn remove_by_key(&self, key: &String) -> Result<Self, AllocError> {
        self.remove(key)
    }
}

impl Subject for HashTrieMap<String, u64> {
    fn empty(alloc: Global) -> Self {
        HashTrieMap::new(alloc)
    }

    fn put(&mut self, number: u64) -> Result<(), AllocError> {
        self.insert_mut(text_of(*self.allocator(), number)?, number)
    }

    fn copied(&self) -> Result<Self, AllocError> {
        self.clone()
    }
}

impl Texts for HashTrieMap<String, u64> {
    fn get_by_str(&self, key: &str) -> u64 {
        self.get(key).copied().unwrap_or(0)
    }

    fn get_by_key(&self, key: &String) -> u64 {
        self.get(key).copied().unwrap_or(0)
    }

    fn remove_by_str(&self, key: &str) -> Result<Self, AllocError> {
        self.remove(key)
    }

    fn remove_by_key(&self, key: &String) -> Result<Self, AllocError> {
        self.remove(key)
    }
}

fn text_of(alloc: Global, number: u64) -> Result<String, AllocError> {
    format!(in alloc; "{number}")
}

/// The cases of both.
pub fn run(cases: &Cases<'_>) -> io::Result<()> {
    if !cases.asks_for(" by ") {
        return Ok(());
    }
    let mut keys = Vec::new(cases.keys.alloc);
    for number in &cases.keys.shuffled {
        keys.push(text_of(cases.keys.alloc, *number)?)?;
    }
    run_map::<RedBlackTreeMap<String, u64>>(&cases.of("RedBlackTreeMap"), &keys).and(run_map::<
        HashTrieMap<String, u64>,
    >(&cases.of("HashTrieMap"), &keys))
}

fn run_map<S: Texts>(cases: &Cases<'_>, keys: &[String]) -> io::Result<()> {
    let mut lent = Vec::new(cases.keys.alloc);
    for key in keys {
        lent.push(key)?;
    }
    cases
        .looks(
            "get by str",
            keys,
            |map: &S, key| map.get_by_str(key.as_str()),
        )
        .and(cases.looks("get by String", keys, |map: &S, key| map.get_by_key(key)))
        .and(cases.versions("remove by str", Start::Shared, &lent, |map: &S, key| {
            Ok(Some(map.remove_by_str(key.as_str())?))
        }))
        .and(cases.versions("remove by String", Start::Shared, &lent, |map: &S, key| {
            Ok(Some(map.remove_by_key(key)?))
        }))
}
