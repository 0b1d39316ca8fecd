// The lanes of a new table.
ghost use Rattle.std.specs.Prelude.{◌≡◌, ◌+◌, ◌*◌, IfOk};
ghost use Rattle.sv_slots.specs.Known.{table_of};
ghost use Rattle.sv_slots_tests.specs.Unused.{IsAlone, IsUnused};

use crate::openings::open;
use crate::world::{Shared, World};
use std::alloc::Global;
use std::sync::Arc;
use sv_model::{OutOfMemory, Pack, SvRef, SvSerial};
use sv_slots::{Core, LaneSeat};

/// The table of a single lane, with its seat.
pub fn single(alloc: Global) -> Result<(Core<World>, LaneSeat<World>), OutOfMemory>
    ensures unused { IfOk result (λ t. IsUnused (table_of t.0) t.1) }
    ensures alone { IfOk result (λ t. IsAlone 1 t.1) }
{
    let (core, mut seats) = open(alloc, 1)?;
    let seat = seats.remove(0);
    Ok((core, seat))
}

/// The table of two lanes, with their seats.
pub fn double(alloc: Global) -> Result<(Core<World>, LaneSeat<World>, LaneSeat<World>), OutOfMemory>
    ensures first { IfOk result (λ t. IsUnused (table_of t.0) t.1 × IsAlone 2 t.1) }
    ensures second { IfOk result (λ t. IsUnused (table_of t.0) t.2 × IsAlone 2 t.2) }
{
    let (core, mut seats) = open(alloc, 2)?;
    let first = seats.remove(0);
    let second = seats.remove(0);
    Ok((core, first, second))
}

/// A reference of a SuperVersion, of whose parts only the family matters here.
pub fn reference(
    alloc: Global,
    serial: u32,
    place: u8,
    family: u8,
) -> Result<SvRef<Shared>, OutOfMemory>
    ensures pack { IfOk result (λ r. r.pack ≡ serial * 256 + place) }
    ensures body { IfOk result (λ r. r.body.value.family ≡ family) }
{
    let Ok(body) = Arc::new(alloc, Shared { family }) else {
        return Err(OutOfMemory);
    };
    let pack = Pack {
        serial: SvSerial(serial),
        place,
    };
    Ok(SvRef { pack, body })
}
