//! Scopes, by number.
ghost use Rattle.std.specs.Prelude.{◌≡◌, ◌⊎◌, None, length, slice_get, take, IfOk, MatchResult};
ghost use Rattle.std.specs.Result.{result_ok};
ghost use Rattle.example_scopes.specs.InScopes.{Binds, HasNames, value_of};
ghost use Rattle.example_scopes.specs.Meaning.{nothing};

use crate::expr::Fault;
use crate::value::Value;
use rpds::{HashTrieMap, Vector};
use std::alloc::{AllocError, Global};

/// All scopes that were made, by number: each new one shares with the one around it what they have in common.
#[derive(Drop)]
pub struct Scopes<'e> {
    all: Vector<HashTrieMap<String, Value<'e>>>,
}

impl<'e> Scopes<'e> {
    /// One scope, of the number 0, in which no name stands for anything.
    pub fn new(alloc: Global) -> Result<Scopes<'e>, AllocError>
        ensures { IfOk result (λ scopes. HasNames scopes.all.items nothing 0) }
    {
        Ok(Scopes {
            all: Vector::new(alloc).push_back(HashTrieMap::new(alloc))?,
        })
    }

    /// What a name stands for in the scope of this number. It takes no memory.
    pub fn look_up(&self, scope: usize, name: &str) -> Result<Value<'e>, Fault>
        ensures { result_ok result ≡ value_of self.now.all.items scope name.now }
    {
        let names = self.all.get(scope).ok_or(Fault::Unbound)?;
        names.get(name).copied().ok_or(Fault::Unbound)
    }

    /// Makes a scope inside another one, in which the name stands for the value, and returns its number.
    pub fn bind(&mut self, outer: usize, name: &str, value: Value<'e>) -> Result<usize, Fault>
        ensures stay { take (length self.old.all.items) self.new.all.items ≡ self.old.all.items }
        ensures binds { MatchResult result (Binds self.new.all.items outer name.now value.entry)
            (λ fault. (fault ≡ Fault.NoMemory) ⊎ (slice_get self.old.all.items outer ≡ None)) }
    {
        let number = self.all.len();
        let around = self.all.get(outer).ok_or(Fault::Unbound)?;
        let name = String::from_str(*around.allocator(), name)?;
        let inner = around.insert(name, value)?;
        self.all.push_back_mut(inner)?;
        Ok(number)
    }
}
