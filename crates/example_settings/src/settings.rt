//! A setting's values, each with the day from which it is in force.
ghost use Rattle.std.specs.Prelude.{◌≡◌, ◌≢◌, ◌≤◌, ℕ, [], Some, IfOk, MatchOption, nat_eq};
ghost use Rattle.std.specs.Option.{option_or};
ghost use Rattle.std.specs.Ordering.{nat_cmp};
ghost use Rattle.std.specs.declared.ops.Bound.TheVariants.{Included};
ghost use Rattle.rpds.specs.Algebra.{union_of};
ghost use Rattle.rpds.specs.Differences.{differences};
ghost use Rattle.rpds.specs.Pairs.{find, put};
ghost use Rattle.rpds.specs.Ranges.{within};
ghost use Rattle.example_settings.specs.InForce.{IsInForce, IsNoneInForce};

use rpds::RedBlackTreeMap;
use rpds::laws::ordered::{floor_is_lawful, put_is_lawful};
use rpds::map::red_black_tree_map::{Diff, RangeIter};
use serde::{Deserialize, Serialize};
use std::alloc::{AllocError, Global};
use std::marker::Model;
use std::ops::Bound;

/// The changes of a setting. Each new version shares what it has in common with the one it was made of.
#[derive(Drop, Serialize, Deserialize)]
#[serde(transparent)]
pub struct Settings {
    #[serde(with = "rpds_serde::red_black_tree_map")]
    changes: RedBlackTreeMap<u32, u64>,
}

impl Model for Settings {
    ghost use Rattle.std.specs.Prelude.{ℕ, List};

    ghost Value = { List (ℕ × ℕ) };

    ghost view = { λ s. s.changes.entries };
}

impl Settings {
    /// No change yet.
    pub fn new(alloc: Global) -> Settings
        ensures { result ≡ [] }
    {
        Settings {
            changes: RedBlackTreeMap::new(alloc),
        }
    }

    /// The settings with this value from that day on, until the next change.
    pub fn changed(&self, day: u32, value: u64) -> Result<Settings, AllocError>
        ensures pairs { IfOk result (λ s. s ≡ put nat_cmp (day, value) self.now) }
        ensures set { IfOk result (λ s. find nat_cmp day s ≡ Some (day, value)) }
        ensures others { IfOk result (λ s. (other : ℕ) → other ≢ day →
            find nat_cmp other s ≡ find nat_cmp other self.now) }
    {
        put_is_lawful::<u32, u64>();
        Ok(Settings {
            changes: self.changes.insert(day, value)?,
        })
    }

    /// What is in force on a day, and since when: the last change at or before it.
    pub fn on(&self, day: u32) -> Option<(u32, u64)>
        ensures { MatchOption result (IsNoneInForce day self.now) (IsInForce day self.now) }
    {
        floor_is_lawful::<u32, u64>();
        let (since, value) = self.changes.floor(&day)?;
        Some((*since, *value))
    }

    /// The changes from a day to another, in their order.
    pub fn between(&self, from: u32, to: u32) -> RangeIter<'_, u32, u64>
        requires { from ≤ to }
        ensures { result ≡ within nat_cmp (Included from) (Included to) self.now }
    {
        self.changes
            .range(Bound::Included(&from), Bound::Included(&to))
    }

    /// The changes of both versions. On a day on which both have one, that of this version stays.
    pub fn merged(&self, other: &Settings) -> Result<Settings, AllocError>
        ensures all { IfOk result (λ s. s ≡ union_of nat_cmp self.now other.now) }
        ensures found { IfOk result (λ s. (day : ℕ) →
            find nat_cmp day s ≡ option_or (find nat_cmp day self.now) (find nat_cmp day other.now)) }
    {
        Ok(Settings {
            changes: self.changes.union(&other.changes)?,
        })
    }

    /// What differs from this version to the other, in the order of the days.
    pub fn diff<'a>(&'a self, other: &'a Settings) -> Diff<'a, u32, u64>
        ensures { result ≡ differences nat_cmp nat_eq self.now other.now }
    {
        self.changes.diff(&other.changes)
    }
}
