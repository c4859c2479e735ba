//! An ordered map and snapshots of it, changed by commands.
ghost use Rattle.std.specs.Prelude.{◌≡◌, ◌+◌, ◌<◌, ◌↔◌, [], length, slice_get, IfOk, IsTrue, OnErr};
ghost use Rattle.std.specs.Option.{option_copied};
ghost use Rattle.rpds_snapshots.specs.SnapshotHistory.{HoldsOwn, KeepsSnapshots};
ghost use Rattle.rpds_snapshots.specs.Snapshots.{Run, Step, greatest};
ghost use Rattle.rpds_snapshots.specs.declared.snapshots.command.SnapCommand.TheVariants.{GoBack, Take};

use rpds_tree::map::red_black_tree_map::RedBlackTreeMap;
use std::alloc::{AllocError, Allocator, Global};
use std::marker::Model;

mod command;
mod refusal;
mod reply;
mod text;

pub use command::SnapCommand;
pub use refusal::SnapRefusal;
pub use reply::SnapReply;

/// An ordered map, and snapshots of it, numbered from 0. A snapshot shares the map's nodes, and is neither changed nor
/// removed by any command.
///
/// ```
/// let mut snapshots = Snapshots::new(rt.alloc());
/// let _ = snapshots.apply(SnapCommand::Put(1, "one"));
/// assert!(rt; snapshots.apply(SnapCommand::Take) == SnapReply::Taken(0));
/// assert!(rt; snapshots.apply(SnapCommand::TakeOut(1)) == SnapReply::Done(true));
/// assert!(rt; snapshots.apply(SnapCommand::GoBack(0)) == SnapReply::Done(true));
/// assert!(rt; snapshots.current().get(&1) == Some(&"one"));
/// ```
///
/// | call | cost in nodes | allocations |
/// |---|---|---|
/// | `new`, `current`, `len`, `is_empty`, `count`, `at` | none | none |
/// | `apply` of `Put` | one path | at most two, and one for each node of it that a snapshot shares |
/// | `apply` of `TakeOut` | one path | one for each node that a snapshot shares, on the path or next to it where a rotation could need it |
/// | `apply` of `Take` | none | none, or one where the list of snapshots grows |
/// | `apply` of `GoBack` | each that no snapshot shares is freed | none |
/// | `run` | those of each command | one for the replies, and those of each command |
///
/// Keys and values are neither cloned nor hashed.
#[derive(Drop)]
pub struct Snapshots<K: Ord, V, A: Allocator = Global> {
    alloc: A,
    current: RedBlackTreeMap<K, V, A>,
    taken: Vec<RedBlackTreeMap<K, V, A>, A>,
}

impl<K: Ord, V, A: Allocator> Model for Snapshots<K, V, A> {
    ghost use Rattle.rpds_snapshots.specs.SnapshotContents.{Contents};

    ghost Value = { Contents K V };

    ghost view = { λ s. record { current = s.current; taken = s.taken.items } };
}

impl<K: Ord, V, A: Allocator + Copy> Snapshots<K, V, A> {
    /// The empty map, without snapshots. Takes no memory.
    pub fn new(alloc: A) -> Snapshots<K, V, A>
        ensures current { result.current.entries ≡ [] }
        ensures depth { result.current.depth ≡ 0 }
        ensures taken { result.taken ≡ [] }
    {
        Snapshots {
            alloc,
            current: RedBlackTreeMap::new(alloc),
            taken: Vec::new(alloc),
        }
    }
}

impl<K: Ord, V, A: Allocator> Snapshots<K, V, A> {
    /// The map as it is now.
    pub fn current(&self) -> &RedBlackTreeMap<K, V, A>
        ensures { result.now ≡ self.now.current }
    {
        &self.current
    }

    /// The number of snapshots.
    pub fn count(&self) -> usize
        ensures { result ≡ length self.now.taken }
    {
        self.taken.len()
    }

    /// The number of snapshots, as [`count`](Snapshots::count).
    pub fn len(&self) -> usize
        ensures { result ≡ length self.now.taken }
    {
        self.count()
    }

    /// Whether there is no snapshot.
    pub fn is_empty(&self) -> bool
        ensures { IsTrue result ↔ (self.now.taken ≡ []) }
    {
        self.taken.is_empty()
    }

    /// The snapshot of this number, if there is one.
    pub fn at(&self, index: usize) -> Option<&RedBlackTreeMap<K, V, A>>
        ensures { option_copied result ≡ slice_get self.now.taken index }
    {
        self.taken.get(index)
    }
}

impl<K: Ord + Drop, V: Drop, A: Allocator + Copy> Snapshots<K, V, A> {
    /// Applies one command. A refused one changes nothing.
    ///
    /// | refusal | when |
    /// |---|---|
    /// | [`SnapRefusal::NoSnapshot`] | exactly where the map is to go back to a number without a snapshot |
    /// | [`SnapRefusal::Full`] | exactly where a pair is put into a map of the greatest size, or a snapshot is taken where there are `usize::MAX` |
    /// | [`SnapRefusal::NoMemory`] | where neither holds, if an allocation failed or the count of a shared node's owners is full; never where a key is taken out of the empty map |
    pub fn apply(&mut self, command: SnapCommand<K, V>) -> SnapReply
        ensures { Step K.cmp self.old command result self.new }
    {
        match command {
            SnapCommand::Put(key, value) => {
                if self.current.size() == usize::MAX {
                    return SnapReply::Refused(SnapRefusal::Full);
                }
                match self.current.insert_mut(key, value) {
                    Ok(()) => SnapReply::Done(true),
                    Err(_) => SnapReply::Refused(SnapRefusal::NoMemory),
                }
            }
            SnapCommand::TakeOut(key) => match self.current.remove_mut(&key) {
                Ok(found) => SnapReply::Done(found),
                Err(_) => SnapReply::Refused(SnapRefusal::NoMemory),
            },
            SnapCommand::Take => self.take(),
            SnapCommand::GoBack(index) => self.go_back(index),
        }
    }

    /// Applies the commands in order, and returns their replies. Memory for the replies is allocated first: an error
    /// means that no command was applied.
    pub fn run(
        &mut self,
        commands: Vec<SnapCommand<K, V>, A>,
    ) -> Result<Vec<SnapReply, A>, AllocError>
        ensures run { IfOk result (λ replies.
            Run K.cmp self.old commands.items replies.items self.new) }
        // The map and each snapshot are what their own commands make: a snapshot is what the map was when it was taken.
        ensures own { IfOk result (λ replies.
            HoldsOwn K.cmp self.old commands.items replies.items self.new) }
        ensures kept { KeepsSnapshots self.old self.new }
        ensures err { OnErr result (self.new ≡ self.old) }
    {
        let mut replies = Vec::with_capacity(self.alloc, commands.len())?;
        for command in commands {
            let reply = self.apply(command);
            let Ok(()) = replies.push(reply) else {
                unreachable!();
            };
        }
        Ok(replies)
    }

    // Keeps a snapshot of the map as it is now.
    fn take(&mut self) -> SnapReply
        ensures { Step K.cmp self.old Take result self.new }
    {
        let number = self.taken.len();
        if number == usize::MAX {
            return SnapReply::Refused(SnapRefusal::Full);
        }
        let Ok(kept) = self.current.clone() else {
            return SnapReply::Refused(SnapRefusal::NoMemory);
        };
        match self.taken.push(kept) {
            Ok(()) => SnapReply::Taken(number),
            Err(_) => SnapReply::Refused(SnapRefusal::NoMemory),
        }
    }

    // Makes the map what it was at the snapshot of this number. All snapshots stay.
    fn go_back(&mut self, index: usize) -> SnapReply
        ensures { Step K.cmp self.old (GoBack index) result self.new }
    {
        let Some(kept) = self.at(index) else {
            return SnapReply::Refused(SnapRefusal::NoSnapshot);
        };
        let Ok(map) = kept.clone() else {
            return SnapReply::Refused(SnapRefusal::NoMemory);
        };
        self.current = map;
        SnapReply::Done(true)
    }
}
