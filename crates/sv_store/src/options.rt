// An option is set.
ghost use Rattle.std.specs.Prelude.{◌≡◌, ◌∷◌, [], IfOk, OnErr};
ghost use Rattle.sv_model.specs.Refusals.{Refuses, first_due};
ghost use Rattle.sv_registry.specs.Calls.{make_refusal};
ghost use Rattle.sv_family.specs.Refused.{set_refusal};
ghost use Rattle.sv_state.specs.Follows.{Follows};
ghost use Rattle.sv_store.specs.Setting.{Sets};

use crate::appends::LANE;
use crate::installs::obey;
use crate::store::Store;
use sv_model::{Name, OptionName, Refusal, SvSerial};

impl Store {
    /// Sets an option of the family of the lane's handle of the name, and gives its new current, also where the value
    /// is the same; the one before is Gone. Refused as `BadOption` where the value is outside the option's range, then
    /// as `NotOpen` or `NoFamily` without a handle, then as `Dropped`, `RegisterFull` and `TooManyLive`.
    pub fn set(&mut self, name: &Name, option: OptionName, value: u64) -> Result<SvSerial, Refusal>
        ensures set { IfOk result (Sets self.old.books self.new.books name.now option value) }
        ensures refused { Refuses (first_due (set_refusal self.old.books.families 0 name.now option value ∷ make_refusal self.old.books.supers ∷ [])) result }
        ensures kept { OnErr result (self.new ≡ self.old) }
        ensures follows { Follows self.old.books self.new.books }
    {
        let install = match self.state.set_option(LANE, name, option, value) {
            Ok(install) => install,
            Err(refusal) => return Err(refusal),
        };
        let new = install.new;
        // It makes no memtable.
        obey(
            self.alloc,
            &mut self.state,
            &mut self.cells,
            None,
            install.old,
        );
        Ok(new.serial)
    }
}
