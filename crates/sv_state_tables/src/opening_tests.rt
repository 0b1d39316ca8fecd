// The state of a store that was kept.
use crate::tables::totals;
use std::alloc::Global;
use std::rt::HostRuntime;
use std::test::*;
use sv_model::Refusal::{NoFamily, NotOpen};
use sv_model::{End, FamilyId, FileNumber, Name};
use sv_state::State;
use sv_state_bench::kept_store;

fn name_of(word: &str) -> Result<Name, Fail> {
    Ok(Name::new(word.as_bytes()).ok_or("a name")?)
}

fn opened(alloc: Global) -> Result<State, Fail> {
    Ok(State::from_opening(alloc, kept_store(alloc)?, FileNumber(5))?)
}

#[test]
fn counts_what_was_kept(rt: HostRuntime) -> Result<(), Fail> {
    let state = opened(rt.alloc())?;
    let summary = state.summary(End::Clean)?;
    assert_eq!(rt; summary.made, totals((2, 2, 1)));
    assert_eq!(rt; summary.gone, totals((0, 0, 0)));
    assert_eq!(rt; state.next(), FileNumber(5));
    Ok(())
}

#[test]
fn has_the_families_that_were_kept(rt: HostRuntime) -> Result<(), Fail> {
    let summary = opened(rt.alloc())?.summary(End::Clean)?;
    let [first, second] = summary.families.as_slice() else {
        panic!(rt; "two families");
    };
    assert_eq!(rt; first.writes, 1);
    assert_eq!(rt; first.files.as_slice(), [FileNumber(3)].as_slice());
    assert_eq!(rt; second.name.as_bytes(), b"a".as_slice());
    assert_eq!(rt; second.writes, 0);
    assert_eq!(rt; second.files.as_slice().len(), 0);
    Ok(())
}

#[test]
fn opens_what_was_kept(rt: HostRuntime) -> Result<(), Fail> {
    let mut state = opened(rt.alloc())?;
    assert_eq!(rt; state.find(7, &name_of("default")?), Ok(FamilyId(0)));
    assert_eq!(rt; state.find(7, &name_of("a")?), Err(NotOpen));
    assert_eq!(rt; state.find(7, &name_of("b")?), Err(NoFamily));
    assert_eq!(rt; state.open_family(7, &name_of("a")?), Ok(FamilyId(1)));
    Ok(())
}
