// The table of the tests, with the seats of its lanes.
ghost use Rattle.std.specs.Prelude.{◌≡◌, ◌<◌, ◌≤◌, IfOk, length};
ghost use Rattle.sv_slots.specs.Closings.{CanClose};
ghost use Rattle.sv_slots.specs.Known.{table_of};
ghost use Rattle.sv_slots.specs.Openings.{FirstCells};
ghost use Rattle.sv_slots_tests.specs.Unused.{AreAlone, AreUnused};
ghost use Rattle.sv_slots_tests.specs.World.{cell_at};

use crate::stages::Stage;
use crate::world::{FAMILIES, Nowhere, Place, World};
use std::alloc::{AllocError, Global};
use sv_model::OutOfMemory;
use sv_slots::{Core, LaneSeat};

const CELLS: u8 = 64;

fn cells(alloc: Global) -> Result<Vec<Place>, AllocError>
    ensures { IfOk result (λ v. FirstCells (λ place. cell_at place.number) 4 v.items) }
{
    let mut cells = Vec::new(alloc);
    for number in 0..CELLS {
        cells.push(Place { number })?;
    }
    Ok(cells)
}

/// A table with so many lanes.
pub fn open(alloc: Global, lanes: u8) -> Result<(Core<World>, Vec<LaneSeat<World>>), OutOfMemory>
    requires { (0 < lanes) × (lanes ≤ 32) }
    ensures ready { IfOk result (λ t. AreUnused (table_of t.0) t.1.items) }
    ensures alone { IfOk result (λ t. AreAlone lanes t.1.items) }
    ensures whole { IfOk result (λ t. CanClose (table_of t.0) t.1.items) }
    ensures count { IfOk result (λ t. length t.1.items ≡ lanes) }
{
    let Ok(cells) = cells(alloc) else {
        return Err(OutOfMemory);
    };
    match Core::<World>::new(alloc, lanes, FAMILIES, Stage::Opened, Nowhere, cells) {
        Ok(opened) => Ok(opened),
        Err(_) => Err(OutOfMemory),
    }
}
