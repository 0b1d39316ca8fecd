// SuperVersions that are made and go.
use crate::bench::Bench;
use std::rt::HostRuntime;
use std::test::Fail;
use sv_model::OptionName::MaxImmutable;
use sv_model::Refusal::TooManyLive;
use sv_model::{Pack, SvSerial};

fn pack(serial: u32, place: u8) -> Pack {
    Pack {
        serial: SvSerial(serial),
        place,
    }
}

#[test]
fn has_a_place_for_each_live_one(rt: HostRuntime) -> Result<(), Fail> {
    let mut bench = Bench::new(rt.alloc(), 1)?;
    for n in 1..=255u32 {
        let set = bench.set(0, b"default", MaxImmutable, 2);
        assert_eq!(rt; set, Ok(pack(n + 1, n as u8)));
    }
    assert_eq!(rt; bench.set(0, b"default", MaxImmutable, 2), Err(TooManyLive));
    assert_eq!(rt; bench.clean(), Some(0));
    assert_eq!(rt; bench.clean(), None);
    assert_eq!(rt; bench.set(0, b"default", MaxImmutable, 2), Ok(pack(257, 0)));
    Ok(())
}

#[test]
fn makes_and_reclaims_many(rt: HostRuntime) -> Result<(), Fail> {
    let mut bench = Bench::new(rt.alloc(), 1)?;
    for n in 2..=1_048_576u32 {
        let set = bench.set(0, b"default", MaxImmutable, 2)?;
        assert_eq!(rt; set.serial, SvSerial(n));
        assert_eq!(rt; bench.clean(), Some(0));
    }
    Ok(())
}
