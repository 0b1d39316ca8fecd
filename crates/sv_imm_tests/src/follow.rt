// A list that follows another, with ample memory.
use std::alloc::Global;
use sv_imm::ImmLists;
use sv_model::{MemId, OutOfMemory};

// A list without members, one with memtable 7, and one from which it was flushed.
pub fn lists_follow(alloc: Global) -> Result<usize, OutOfMemory> {
    let mut lists = ImmLists::new(alloc);
    let empty = lists.first()?;
    let one = lists.push(empty, MemId(7))?;
    let freed = lists.release(one);
    Ok(freed.len())
}
