// Whether a Live SuperVersion names a memtable, a list or a Version. At most the places are looked at.
ghost use Rattle.std.specs.Prelude.{◌↔◌, IsTrue};
ghost use Rattle.sv_model.specs.Registers.{Has};
ghost use Rattle.sv_registry.specs.Parts.{Names, NamesPart};

use sv_model::{Descriptor, ListId, MAX_PLACES, MemId, PlacedRegister, SuperVersion, VersionId};

/// One of the three that a SuperVersion names.
#[derive(Clone, Copy)]
pub enum Part {
    Active(MemId),
    List(ListId),
    Version(VersionId),
}

fn names(descriptor: &Descriptor, part: &Part) -> bool
    ensures { IsTrue result ↔ Names part.now descriptor.now }
{
    match part {
        Part::Active(mem) => descriptor.active == *mem,
        Part::List(list) => descriptor.list == *list,
        Part::Version(version) => descriptor.version == *version,
    }
}

/// Whether a Live SuperVersion names the part.
pub fn is_named(supers: &PlacedRegister<SuperVersion, MAX_PLACES>, part: &Part) -> bool
    ensures { IsTrue result ↔ Has (NamesPart part.now) supers.now }
{
    for place in 0..supers.places() {
        if let Some(record) = supers.at(place) {
            if names(&record.descriptor, part) {
                return true;
            }
        }
    }
    false
}
