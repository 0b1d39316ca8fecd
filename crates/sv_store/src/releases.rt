// A handle of a family is given back.
ghost use Rattle.std.specs.Prelude.{◌≡◌, OnErr, OnOk};
ghost use Rattle.sv_model.specs.Refusals.{RefusesExactly};
ghost use Rattle.sv_family.specs.Refused.{release_refusal};
ghost use Rattle.sv_state.specs.Follows.{Follows};
ghost use Rattle.sv_store.specs.Releasing.{Releases};

use crate::appends::LANE;
use crate::installs::obey;
use crate::store::Store;
use sv_model::{Name, Refusal};

impl Store {
    /// Takes the lane's handle of the name back. A dropped family is retired by it: the SuperVersion that was its
    /// current is Gone. Refused as `IsDefault` where the name is `default`, then as `NotOpen` or `NoFamily` without a
    /// handle. Takes no memory.
    pub fn release(&mut self, name: &Name) -> Result<(), Refusal>
        ensures released { OnOk result (Releases self.old.books self.new.books name.now) }
        ensures refused { RefusesExactly (release_refusal self.old.books.families 0 name.now) result }
        ensures kept { OnErr result (self.new ≡ self.old) }
        ensures follows { Follows self.old.books self.new.books }
    {
        let install = match self.state.release(LANE, name) {
            Ok(install) => install,
            Err(refusal) => return Err(refusal),
        };
        let Some(install) = install else {
            return Ok(());
        };
        // It makes no memtable.
        obey(
            self.alloc,
            &mut self.state,
            &mut self.cells,
            None,
            install.old,
        );
        Ok(())
    }
}
