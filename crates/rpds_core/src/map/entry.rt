//! A key and its value, as the maps store them.
ghost use Rattle.std.specs.Prelude.{◌≡◌, IfOk};

use std::alloc::AllocError;

/// A key and its value, as both maps store them.
#[derive(Drop)]
pub struct Entry<K, V> {
    /// What the pair is found by.
    pub key: K,
    /// What is stored there.
    pub value: V,
}

impl<K, V> Entry<K, V> {
    /// The pair of the two.
    pub fn new(key: K, value: V) -> Entry<K, V>
        ensures key { result.key ≡ key }
        ensures value { result.value ≡ value }
    {
        Entry { key, value }
    }
}

impl<K: Clone + Drop, V: Clone + Drop> Entry<K, V> {
    /// The same pair. Clones the key, then the value; the error is that one of the two failed.
    pub fn clone(&self) -> Result<Entry<K, V>, AllocError>
        requires clone_keys { (x y : K) → K.is_clone x y → y ≡ x }
        requires clone_values { (x y : V) → V.is_clone x y → y ≡ x }
        ensures { IfOk result (λ copy. copy ≡ self.now) }
    {
        <Entry<K, V> as Clone>::clone(self)
    }
}

impl<K: Clone + Drop, V: Clone + Drop> Clone for Entry<K, V> {
    ghost is_clone = { λ entry copy. K.is_clone entry.key copy.key × V.is_clone entry.value copy.value };

    fn clone(&self) -> Result<Entry<K, V>, AllocError> {
        Ok(Entry {
            key: self.key.clone()?,
            value: self.value.clone()?,
        })
    }
}
