// Families at the state: who is answered what, in turn.
use crate::bench::Bench;
use std::rt::HostRuntime;
use std::test::Fail;
use sv_model::FamilyId;
use sv_model::Refusal::{NameTaken, TooManyFamilies};

const NAMES: [&str; 16] = [
    "c1", "c2", "c3", "c4", "c5", "c6", "c7", "c8", "c9", "c10", "c11", "c12", "c13", "c14", "c15",
    "c16",
];

#[test]
fn makes_fifteen_more(rt: HostRuntime) -> Result<(), Fail> {
    let mut bench = Bench::new(rt.alloc(), 1)?;
    let mut id = 1;
    for name in NAMES {
        let made = bench.create(1, name.as_bytes());
        if id < 16 {
            assert_eq!(rt; made, Ok(FamilyId(id)));
            assert_eq!(rt; bench.create(1, name.as_bytes()), Err(NameTaken));
            id += 1;
        } else {
            assert_eq!(rt; made, Err(TooManyFamilies));
        }
    }
    Ok(())
}
