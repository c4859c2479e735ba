//! What an arena has for an item that was put in.
ghost use Rattle.std.specs.Prelude.{◌≡◌, Some, IfOk};

use rpds::Arena;
use rpds::laws::arenas;
use std::alloc::AllocError;

/// The item of the number that it was given.
pub fn look_up_by_number(arena: &mut Arena<u64>, item: u64) -> Result<Option<u64>, AllocError>
    ensures { IfOk result (λ found. found ≡ Some item) }
{
    arenas::get_is_lawful::<u64>();
    let id = arena.put(item)?;
    Ok(arena.get(id).copied())
}
