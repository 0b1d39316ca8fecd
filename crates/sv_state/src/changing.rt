// An option is set, and a family is made.
ghost use Rattle.std.specs.Prelude.{◌≡◌, ◌<◌, ◌∷◌, [], ℕ, IfOk, OnErr, None, Some, length};
ghost use Rattle.sv_model.specs.Refusals.{Refuses, first_due};
ghost use Rattle.sv_cells.specs.Calls.{memtables_refusal};
ghost use Rattle.sv_registry.specs.Calls.{make_refusal};
ghost use Rattle.sv_family.specs.Calls.{new_family};
ghost use Rattle.sv_family.specs.Refused.{create_refusal, set_refusal};
ghost use Rattle.sv_laws.specs.NewCurrents.{IsFamilyMade};
ghost use Rattle.sv_state.specs.Changing.{IsSet};
ghost use Rattle.sv_state.specs.Currents.{OwnHaveCurrents};
ghost use Rattle.sv_state.specs.Follows.{Follows};
ghost use Rattle.sv_state.specs.Writing.{Tells, TellsSwitch};

use crate::installs::{Install, body_at, put_current, top_of};
use crate::state::State;
use sv_family::with_option;
use sv_model::{Descriptor, Name, OptionName, Options, Refusal};
use sv_objects::Held;

impl State {
    /// Sets an option of the family of the lane's handle of the name; it has a new current SuperVersion, also where the
    /// value is the same. Refused as `BadOption` where the value is outside the option's range, then as `find`, then as
    /// `Dropped`, `RegisterFull` and `TooManyLive`. The lane is below 32.
    pub fn set_option(
        &mut self,
        lane: u8,
        name: &Name,
        option: OptionName,
        value: u64,
    ) -> Result<Install, Refusal>
        requires lane { lane < 32 }
        requires current { OwnHaveCurrents self.old.books lane name.now }
        ensures set { IfOk result (λ install. IsSet self.old.books self.new.books lane name.now option value install.family) }
        ensures tells { IfOk result (λ install. Tells self.old.books self.new.books install.family install) }
        ensures vacant { IfOk result (λ install. install.vacant ≡ None) }
        ensures refused { Refuses (first_due (set_refusal self.old.books.families lane name.now option value ∷ make_refusal self.old.books.supers ∷ [])) result }
        ensures kept { OnErr result (self.new ≡ self.old) }
        ensures spare { self.new.spare ≡ self.old.spare }
        ensures follows { Follows self.old.books self.new.books }
    {
        let family = match self.families.check_option(lane, name, option, value) {
            Ok(family) => family,
            Err(refusal) => return Err(refusal),
        };
        let options = with_option(self.families.options(family), option, value);
        let body = body_at(&self.held, family);
        let cell = body.cell;
        let descriptor = renewed(&body.descriptor, options);
        let held = Held::of(self.alloc, body, 0)?;
        let made = self
            .objects
            .make_renewed(self.alloc, descriptor, cell, held)?;
        let Ok(_) = self.families.set_option(lane, name, option, value) else {
            unreachable!();
        };
        let new = made.pack;
        let old = put_current(&mut self.tops, &mut self.held, family, made);
        Ok(Install {
            family,
            new,
            old,
            vacant: None,
        })
    }

    /// Makes a family of this name, of which the lane alone has a handle, with its first memtable, list, Version and
    /// SuperVersion. Refused as `NameTaken`, `AlreadyOpen`, `TooManyFamilies`, `TooManyMemtables`, `RegisterFull` and
    /// `TooManyLive`, in this order. The lane is below 32.
    pub fn create(&mut self, lane: u8, name: &Name) -> Result<Install, Refusal>
        requires { lane < 32 }
        ensures made { IfOk result (λ _. IsFamilyMade self.old.books self.new.books (new_family lane name.now)) }
        ensures tells { IfOk result (TellsSwitch self.old.books self.new.books (length self.old.books.families)) }
        ensures first { IfOk result (λ install. install.old ≡ None) }
        ensures refused { Refuses (first_due (create_refusal self.old.books.families lane name.now ∷ memtables_refusal self.old.books.memtables ∷ make_refusal self.old.books.supers ∷ [])) result }
        ensures kept { OnErr result (self.new ≡ self.old) }
        ensures spare { self.new.spare ≡ self.old.spare }
        ensures follows { Follows self.old.books self.new.books }
    {
        let Ok(()) = self.tops.reserve(1) else {
            return Err(Refusal::OutOfMemory);
        };
        let Ok(()) = self.held.reserve(1) else {
            return Err(Refusal::OutOfMemory);
        };
        let family = self.families.create(lane, name)?;
        let made = match self.objects.make_family(self.alloc, family, Options::FIRST) {
            Ok(made) => made,
            Err(refusal) => {
                self.families.take_back();
                return Err(refusal);
            }
        };
        let new = made.pack;
        let vacant = Some((made.body.cell, made.body.descriptor.active));
        self.tops.push_reserved(top_of(&made));
        self.held.push_reserved(Some(made));
        Ok(Install {
            family,
            new,
            old: None,
            vacant,
        })
    }
}

fn renewed(descriptor: &Descriptor, options: Options) -> Descriptor
    ensures { result ≡ record descriptor.now { options = options } }
{
    Descriptor {
        options,
        ..*descriptor
    }
}
