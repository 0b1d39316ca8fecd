// How a list follows another, and which memtables a list lets go.
ghost use Rattle.std.specs.Prelude.{◌≡◌, IfOk};
ghost use Rattle.sv_imm_tests.specs.Made.{three_lists};

use arrayvec::ArrayVec;
use std::alloc::Global;
use std::rt::HostRuntime;
use std::test::Fail;
use sv_imm::ImmLists;
use sv_model::{ListId, MemId, OutOfMemory};

// A list without members, one with memtable 7, and one with memtables 7 and 8.
fn three(alloc: Global) -> Result<ImmLists, OutOfMemory>
    ensures { IfOk result (λ lists. lists ≡ three_lists) }
{
    let mut lists = ImmLists::new(alloc);
    let _empty = lists.first()?;
    let _one = lists.push(ListId(1), MemId(7))?;
    let _two = lists.push(ListId(2), MemId(8))?;
    Ok(lists)
}

// The members of the third list, and of the one that follows it once its oldest was flushed.
fn flushed(alloc: Global) -> Result<(Vec<MemId>, Vec<MemId>), OutOfMemory> {
    let mut lists = three(alloc)?;
    let all = Vec::from_slice(alloc, lists.members(ListId(3)))?;
    let newest = lists.pop_flushed(ListId(3), 1)?;
    let left = Vec::from_slice(alloc, lists.members(newest))?;
    Ok((all, left))
}

// Whether memtable 8 is named before and after the third list is taken back, and the id given next.
fn taken_back(alloc: Global) -> Result<(bool, bool, ListId), OutOfMemory> {
    let mut lists = three(alloc)?;
    let before = lists.named_by(MemId(8));
    lists.take_back();
    let after = lists.named_by(MemId(8));
    let again = lists.push(ListId(2), MemId(9))?;
    Ok((before, after, again))
}

// What the third list lets go, and then the second.
fn let_go(alloc: Global) -> Result<(ArrayVec<MemId, 64>, ArrayVec<MemId, 64>), OutOfMemory> {
    let mut lists = three(alloc)?;
    let newest = lists.release(ListId(3));
    let shared = lists.release(ListId(2));
    Ok((newest, shared))
}

#[test]
fn lists(rt: HostRuntime) -> Result<(), Fail> {
    let (all, left) = flushed(rt.alloc())?;
    assert_eq!(rt; all.as_slice(), [MemId(7), MemId(8)].as_slice());
    assert_eq!(rt; left.as_slice(), [MemId(8)].as_slice());
    assert_eq!(rt; taken_back(rt.alloc())?, (true, false, ListId(3)));
    let (newest, shared) = let_go(rt.alloc())?;
    assert_eq!(rt; newest.as_slice(), [MemId(8)].as_slice());
    assert_eq!(rt; shared.as_slice(), [MemId(7)].as_slice());
    Ok(())
}
