// The members of the list that follows another.
ghost use Rattle.std.specs.Prelude.{◌≡◌, ◌+◌, ◌<◌, ◌++◌, ◌∷◌, [], length, drop, IfOk};

use std::alloc::Global;
use sv_model::{MemId, OutOfMemory};

/// The greatest number of members of a list.
pub const MAX_MEMBERS: usize = 64;

// The members and one more, in no more memory than they need.
pub fn with_last(alloc: Global, members: &[MemId], mem: MemId) -> Result<Vec<MemId>, OutOfMemory>
    requires { length members.now < MAX_MEMBERS }
    ensures { IfOk result (λ v. v.items ≡ members.now ++ mem ∷ []) }
{
    let mut more = Vec::with_capacity(alloc, members.len() + 1)?;
    more.extend_from_slice(members)?;
    more.push(mem)?;
    Ok(more)
}

// The members without the oldest ones.
pub fn without_oldest(
    alloc: Global,
    members: &[MemId],
    count: u8,
) -> Result<Vec<MemId>, OutOfMemory>
    ensures { IfOk result (λ v. v.items ≡ drop count members.now) }
{
    let flushed = usize::from(count).min(members.len());
    Ok(Vec::from_slice(alloc, &members[flushed..])?)
}
