// The registry of SuperVersions: its limits, its places, and what a reclaimed one gives back.
use std::rt::HostRuntime;
use sv_model::{
    Descriptor, FamilyId, ListId, MAX_PLACES, MAX_SUPERS, MemId, Options, Pack, Refusal, SvSerial,
    VersionId,
};
use sv_registry::{Freed, Registry};

fn descriptor(active: u32, list: u32, version: u32) -> Descriptor {
    Descriptor {
        family: FamilyId(0),
        active: MemId(active),
        list: ListId(list),
        version: VersionId(version),
        base: 0,
        options: Options::FIRST,
    }
}

fn pack(serial: u32, place: u8) -> Pack {
    Pack {
        serial: SvSerial(serial),
        place,
    }
}

#[test]
fn makes_as_many_as_there_are_serials(rt: HostRuntime) {
    let mut registry = Registry::new(rt.alloc());
    for serial in 1..=MAX_SUPERS as u32 {
        let Ok(made) = registry.make(descriptor(serial, 1, 1)) else {
            panic!(rt; "serial {serial} was not made");
        };
        assert!(rt; made == pack(serial, 0) && registry.is_live(made));
        let freed = registry.reclaim(made);
        assert!(rt; freed.active == Some(MemId(serial)));
    }
    assert_eq!(rt;
        registry.make(descriptor(1, 1, 1)),
        Err(Refusal::RegisterFull)
    );
}

#[test]
fn has_a_place_for_each_live_one(rt: HostRuntime) {
    let mut registry = Registry::new(rt.alloc());
    for place in 0..MAX_PLACES {
        let made = registry.make(descriptor(1, 1, 1));
        assert_eq!(rt; made, Ok(pack(place as u32 + 1, place as u8)));
    }
    assert_eq!(rt;
        registry.make(descriptor(1, 1, 1)),
        Err(Refusal::TooManyLive)
    );
    for (serial, place) in [(8, 7), (4, 3), (256, 255)] {
        let ended = pack(serial, place);
        assert!(rt; registry.is_live(ended));
        let freed = registry.reclaim(ended);
        assert!(rt; freed.active.is_none() && freed.list.is_none() && freed.version.is_none());
        assert!(rt; !registry.is_live(ended));
    }
    for (serial, place) in [(257, 3), (258, 7), (259, 255)] {
        assert_eq!(rt; registry.make(descriptor(1, 1, 1)), Ok(pack(serial, place)));
    }
    assert_eq!(rt; registry.made(), 259);
    assert_eq!(rt; registry.gone(), 3);
    assert_eq!(rt;
        registry.make(descriptor(1, 1, 1)),
        Err(Refusal::TooManyLive)
    );
}

#[test]
fn frees_what_no_other_names(rt: HostRuntime) {
    let mut registry = Registry::new(rt.alloc());
    for (active, list, version) in [(1, 1, 1), (1, 2, 1), (2, 3, 1)] {
        assert!(rt; registry.make(descriptor(active, list, version)).is_ok());
    }
    let freed_by = [
        (1, None, Some(ListId(1)), None),
        (2, Some(MemId(1)), Some(ListId(2)), None),
        (3, Some(MemId(2)), Some(ListId(3)), Some(VersionId(1))),
    ];
    for (serial, active, list, version) in freed_by {
        let ended = pack(serial, serial as u8 - 1);
        assert!(rt; registry.is_live(ended));
        assert_eq!(rt;
            registry.reclaim(ended),
            Freed {
                active,
                list,
                version
            }
        );
        assert_eq!(rt; registry.has_active(MemId(1)), serial == 1);
    }
}

#[test]
fn keeps_every_record(rt: HostRuntime) {
    let mut registry = Registry::new(rt.alloc());
    assert!(rt; registry.make(descriptor(5, 6, 7)).is_ok());
    for (serial, is_made) in [(0, false), (1, true), (2, false)] {
        let named = registry.descriptor(SvSerial(serial));
        assert_eq!(rt; named.is_some(), is_made);
        assert_eq!(rt; registry.record(SvSerial(serial)).is_some(), is_made);
    }
    assert!(rt; registry.descriptor(SvSerial(1)) == Some(&descriptor(5, 6, 7)));
    assert!(rt; !registry.is_live(pack(1, 1)) && registry.is_live(pack(1, 0)));
}

// The pack of a SuperVersion that was made and taken back.
fn taken_back(registry: &mut Registry, named: Descriptor) -> Result<Pack, Refusal> {
    let made = registry.make(named)?;
    registry.take_back();
    Ok(made)
}

#[test]
fn gives_the_serial_again(rt: HostRuntime) {
    let mut registry = Registry::new(rt.alloc());
    for serial in 1..=3u32 {
        let place = serial as u8 - 1;
        assert_eq!(rt;
            taken_back(&mut registry, descriptor(50, 60, 70)),
            Ok(pack(serial, place))
        );
        assert!(rt; !registry.is_live(pack(serial, place)) && !registry.has_active(MemId(50)));
        assert!(rt; registry.record(SvSerial(serial)).is_none());
        assert_eq!(rt;
            registry.make(descriptor(serial, 2, 3)),
            Ok(pack(serial, place))
        );
        assert!(rt; registry.is_live(pack(serial, place)) && registry.has_active(MemId(serial)));
        let named = registry.descriptor(SvSerial(serial));
        assert!(rt; named == Some(&descriptor(serial, 2, 3)));
    }
    let last = registry.record(SvSerial(3));
    assert!(rt; matches!(last, Some(record) if record.place == 2 && record.live));
    assert!(rt; registry.descriptor(SvSerial(4)).is_none());
}
