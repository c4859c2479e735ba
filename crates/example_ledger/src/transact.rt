//! Several changes as one.
ghost use Rattle.std.specs.Prelude.{◌≡◌, ℕ, List, length, take, IfErr, IfOk};
ghost use Rattle.example_ledger.specs.Changed.{FindsNothing, IsMapAt, changed};

use rpds::laws::{change_in_place_is_lawful, copy_is_lawful, map_change_is_lawful, same_is_lawful};
use rpds::steps::Steps;
use rpds::table::{Command, IdentityBuild, Mode, Op, Refusal, Reply, Table};
use std::alloc::Global;

/// Why a transaction failed.
#[derive(Drop)]
pub enum Failure {
    /// The table refused a change.
    Refused(Refusal),
    /// A change found nothing to do.
    Nothing,
}

/// Makes the changes in a copy of the version, in their order, and returns its number. Where one is refused or finds
/// nothing to do, the copy isn't to be used. All versions that were there stay.
pub fn transact(
    table: &mut Table<u64, u64, IdentityBuild>,
    version: usize,
    ops: Vec<Op<u64, u64>>,
) -> Result<usize, Failure>
    ensures stay { take (length table.old.versions) table.new.versions ≡ table.old.versions }
    ensures made { IfOk result (λ number. number ≡ length table.old.versions) }
    ensures changed { IfOk result (λ number. (pairs : List (ℕ × ℕ)) →
        IsMapAt version pairs table.old → IsMapAt number (changed pairs ops.items) table.new) }
    ensures nothing { IfErr result (λ failure. failure ≡ Failure.Nothing → (pairs : List (ℕ × ℕ)) →
        IsMapAt version pairs table.old → FindsNothing pairs ops.items) }
{
    same_is_lawful::<u64, u64, IdentityBuild, Global>();
    copy_is_lawful::<u64, u64, IdentityBuild, Global>();
    change_in_place_is_lawful::<u64, u64, IdentityBuild, Global>();
    map_change_is_lawful::<u64, u64, IdentityBuild, Global>();
    let mut steps = Steps::new();
    let draft = match table.apply(Command::Copy(version), &mut steps) {
        Reply::Made(number) => number,
        Reply::Refused(refusal) => return Err(Failure::Refused(refusal)),
        Reply::Done(_) => unreachable!(),
    };
    for op in ops {
        match table.apply(Command::Change(draft, Mode::InPlace, op), &mut steps) {
            Reply::Done(true) => {}
            Reply::Refused(refusal) => return Err(Failure::Refused(refusal)),
            Reply::Done(false) => return Err(Failure::Nothing),
            Reply::Made(_) => unreachable!(),
        }
    }
    Ok(draft)
}
