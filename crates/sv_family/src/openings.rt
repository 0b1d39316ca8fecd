// The families of a store that was kept.
ghost use Rattle.std.specs.Prelude.{◌≡◌, IfOk};
ghost use Rattle.sv_model.specs.Families.{AreFamilies};
ghost use Rattle.sv_family.specs.Openings.{AreOpen, open_families, open_family};

use crate::families::Families;
use std::alloc::Global;
use sv_model::{Family, OpenFamily, OutOfMemory};

impl Families {
    /// The families of a store that was kept, by id. Of the first, `default`, each of the 32 lanes has a handle; of the
    /// others none has.
    pub fn from_open(alloc: Global, kept: &[OpenFamily]) -> Result<Families, OutOfMemory>
        requires { AreOpen kept.now }
        ensures families { IfOk result (λ families. families ≡ open_families kept.now) }
        ensures lawful { IfOk result (λ families. AreFamilies families) }
    {
        let Some((default, others)) = kept.split_first() else {
            unreachable!();
        };
        let mut families = Vec::new(alloc);
        families.push(family_of(default, true)?)?;
        for other in others {
            families.push(family_of(other, false)?)?;
        }
        Ok(Families { families })
    }
}

// The family, of which each lane has a handle, or none has.
fn family_of(kept: &OpenFamily, held: bool) -> Result<Family, OutOfMemory>
    ensures { IfOk result (λ family. family ≡ open_family held kept.now) }
{
    Ok(Family {
        name: kept.name.clone()?,
        options: kept.options,
        dropped: false,
        handles: [held; 32],
    })
}
