// The memtables: their limit, their cells, and what stands of those that ended.
use std::rt::HostRuntime;
use sv_cells::MemtableRegister;
use sv_model::{FamilyId, MAX_CELLS, MemId, Memtable, Refusal};

fn make(memtables: &mut MemtableRegister, family: u8, first: u64) -> Result<MemId, Refusal> {
    if memtables.made() >= u32::MAX as u64 {
        return Err(Refusal::RegisterFull);
    }
    memtables.make(FamilyId(family), first)
}

// Ends the memtable if it is one that is not Gone, and says whether it was.
fn ends(memtables: &mut MemtableRegister, id: u32) -> bool {
    let Some(record) = memtables.record(MemId(id)) else {
        return false;
    };
    if !record.live {
        return false;
    }
    memtables.end(MemId(id));
    true
}

fn stands_at(memtables: &MemtableRegister, id: u32) -> Option<u8> {
    let record = memtables.record(MemId(id))?;
    if !record.live {
        return None;
    }
    Some(record.cell)
}

#[test]
fn has_a_cell_for_each(rt: HostRuntime) {
    let mut memtables = MemtableRegister::new(rt.alloc());
    for cell in 0..MAX_CELLS as u32 {
        assert!(rt; !memtables.is_full());
        assert_eq!(rt; make(&mut memtables, 0, 0), Ok(MemId(cell + 1)));
        assert_eq!(rt; stands_at(&memtables, cell + 1), Some(cell as u8));
    }
    assert!(rt; memtables.is_full());
    assert_eq!(rt; make(&mut memtables, 0, 0), Err(Refusal::TooManyMemtables));
    for (id, again, cell) in [(33, 65, 32), (65, 66, 32), (1, 67, 0), (64, 68, 63)] {
        assert!(rt; ends(&mut memtables, id));
        assert!(rt; !ends(&mut memtables, id) && !memtables.is_full());
        assert_eq!(rt; make(&mut memtables, 0, 0), Ok(MemId(again)));
        assert_eq!(rt; stands_at(&memtables, again), Some(cell));
        assert!(rt; memtables.is_full());
    }
    assert_eq!(rt; make(&mut memtables, 0, 0), Err(Refusal::TooManyMemtables));
    assert_eq!(rt; memtables.made(), 68);
    assert_eq!(rt; memtables.gone(), 4);
}

#[test]
fn gives_the_least_free_cell(rt: HostRuntime) {
    let mut memtables = MemtableRegister::new(rt.alloc());
    for id in 1..=5 {
        assert_eq!(rt; make(&mut memtables, 0, 0), Ok(MemId(id)));
    }
    assert!(rt; ends(&mut memtables, 4) && ends(&mut memtables, 2));
    for (id, cell) in [(6, 1), (7, 3), (8, 5)] {
        assert_eq!(rt; make(&mut memtables, 0, 0), Ok(MemId(id)));
        assert_eq!(rt; stands_at(&memtables, id), Some(cell));
    }
}

#[test]
fn makes_and_ends_in_turn(rt: HostRuntime) {
    let mut memtables = MemtableRegister::new(rt.alloc());
    for id in 1..=100_000u32 {
        assert_eq!(rt; make(&mut memtables, 3, id as u64), Ok(MemId(id)));
        assert_eq!(rt; stands_at(&memtables, id), Some(0));
        assert!(rt; ends(&mut memtables, id));
        assert_eq!(rt; memtables.gone(), id as u64);
    }
    assert_eq!(rt; memtables.made(), 100_000);
}

#[test]
fn keeps_every_record(rt: HostRuntime) {
    let mut memtables = MemtableRegister::new(rt.alloc());
    assert!(rt; memtables.record(MemId(0)).is_none() && memtables.record(MemId(1)).is_none());
    assert_eq!(rt; make(&mut memtables, 15, 700), Ok(MemId(1)));
    assert_eq!(rt; make(&mut memtables, 2, 9), Ok(MemId(2)));
    assert!(rt; ends(&mut memtables, 1));
    let ended = Memtable {
        family: FamilyId(15),
        first: 700,
        cell: 0,
        live: false,
    };
    let stands = Memtable {
        family: FamilyId(2),
        first: 9,
        cell: 1,
        live: true,
    };
    assert!(rt; memtables.record(MemId(1)) == Some(&ended));
    assert!(rt; memtables.record(MemId(2)) == Some(&stands));
    assert!(rt; memtables.record(MemId(0)).is_none() && memtables.record(MemId(3)).is_none());
}

// The id of a memtable that was made and taken back.
fn taken_back(memtables: &mut MemtableRegister) -> Result<MemId, Refusal> {
    if memtables.made() >= u32::MAX as u64 {
        return Err(Refusal::RegisterFull);
    }
    let made = memtables.make(FamilyId(9), 9)?;
    memtables.take_back();
    Ok(made)
}

#[test]
fn gives_the_id_again(rt: HostRuntime) {
    let mut memtables = MemtableRegister::new(rt.alloc());
    for id in 1..=MAX_CELLS as u32 {
        assert_eq!(rt; taken_back(&mut memtables), Ok(MemId(id)));
        assert!(rt; memtables.record(MemId(id)).is_none() && !memtables.is_full());
        assert_eq!(rt; make(&mut memtables, 0, 0), Ok(MemId(id)));
        assert_eq!(rt; stands_at(&memtables, id), Some(id as u8 - 1));
    }
    assert_eq!(rt; taken_back(&mut memtables), Err(Refusal::TooManyMemtables));
    assert_eq!(rt; memtables.gone(), 0);
}
