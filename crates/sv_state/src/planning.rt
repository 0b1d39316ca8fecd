// What a write and a flush meet, told before anything is done.
ghost use Rattle.std.specs.Prelude.{◌≡◌, ◌<◌, ◌≤◌, ◌-◌, ◌∷◌, [], ℕ, Some, None, Err, cond, nat_lt, IfOk, OnOk, slice_get, length};
ghost use Rattle.sv_model.specs.declared.refusals.Refusal.TheVariants.{OutOfMemory};
ghost use Rattle.sv_model.specs.Refusals.{RefusesExactly};
ghost use Rattle.sv_state.specs.Currents.{OwnHaveCurrents};
ghost use Rattle.sv_state.specs.Planning.{IsFlushPlan, IsPlanOf, Planned, flush_due, flush_refusal, is_switch_due, switch_due, write_due, write_refusal};
ghost use Rattle.sv_state.specs.declared.planning.Plan.TheVariants.{Add, Switch};

use crate::installs::body_at;
use crate::state::State;
use sv_files::FileBook;
use sv_journal::Journal;
use sv_model::{FamilyId, Name, Options, Refusal};
use sv_objects::Objects;

/// What comes of a write.
#[derive(Drop)]
pub enum Plan {
    /// Its row is added to the family's active memtable, which is in this cell.
    Add { family: FamilyId, cell: u8 },
    /// That memtable is frozen first, and the family switches.
    Switch { family: FamilyId, cell: u8 },
}

/// What comes of a flush: where the family switches first, the cell of its active memtable.
#[derive(Drop)]
pub struct FlushPlan {
    pub family: FamilyId,
    pub cell: Option<u8>,
}

impl State {
    /// What a write of the lane is to do in the family of its handle of the name. Makes room for it in the journal.
    /// Refused as `find`, then as `Dropped`, `JournalFull`, and where a switch is due as `Stalled`, `TooManyMemtables`,
    /// `RegisterFull` and `TooManyLive`, in this order. The lane is below 32.
    pub fn write_plan(&mut self, lane: u8, name: &Name) -> Result<Plan, Refusal>
        requires lane { lane < 32 }
        requires current { OwnHaveCurrents self.old.books lane name.now }
        ensures planned { Planned self.old.books lane name.now (write_refusal self.old.books) (IsPlanOf self.old.books) result }
        ensures books { self.new.books ≡ self.old.books }
        ensures room { OnOk result (0 < self.new.spare) }
        ensures more { self.old.spare ≤ self.new.spare }
    {
        let family = match self.families.find_undropped(lane, name) {
            Ok(family) => family,
            Err(refusal) => return Err(refusal),
        };
        let body = body_at(&self.held, family);
        let cell = body.cell;
        let rows = self.journal.written(family) - body.descriptor.base;
        let members = body.frozen.as_slice().len();
        let options = self.families.options(family);
        let switches = match due_write(&self.journal, &self.objects, rows, members, options) {
            Ok(switches) => switches,
            Err(refusal) => return Err(refusal),
        };
        let Ok(()) = self.journal.reserve() else {
            return Err(Refusal::OutOfMemory);
        };
        Ok(plan_of(family, cell, switches))
    }

    /// What a flush is to do in the family of the lane's handle of the name. Refused as `find`, then as `Dropped`, `Busy`,
    /// `NothingToFlush`, `RegisterFull`, and where a switch is due as `TooManyMemtables` and `TooManyLive`, in this
    /// order. The lane is below 32. Takes no memory.
    pub fn flush_plan(&self, lane: u8, name: &Name) -> Result<FlushPlan, Refusal>
        requires lane { lane < 32 }
        requires current { OwnHaveCurrents self.now.books lane name.now }
        ensures planned { Planned self.now.books lane name.now (flush_refusal self.now.books) (IsFlushPlan self.now.books) result }
        ensures memory { result ≡ Err OutOfMemory → ⊥ }
    {
        let family = match self.families.find_undropped(lane, name) {
            Ok(family) => family,
            Err(refusal) => return Err(refusal),
        };
        let body = body_at(&self.held, family);
        let rows = self.journal.written(family) - body.descriptor.base;
        let members = body.frozen.as_slice().len();
        let switches = match due_flush(&self.objects, family, rows, members) {
            Ok(switches) => switches,
            Err(refusal) => return Err(refusal),
        };
        let cell = cell_if(switches, body.cell);
        Ok(FlushPlan { family, cell })
    }
}

fn plan_of(family: FamilyId, cell: u8, switches: bool) -> Plan
    ensures { result ≡ cond switches (Switch family cell) (Add family cell) }
{
    if switches {
        return Plan::Switch { family, cell };
    }
    Plan::Add { family, cell }
}

fn cell_if(switches: bool, cell: u8) -> Option<u8>
    ensures { result ≡ cond switches (Some cell) None }
{
    if switches {
        return Some(cell);
    }
    None
}

// What a write meets; whether a switch is due.
fn due_write(
    journal: &Journal,
    objects: &Objects,
    rows: u64,
    members: usize,
    options: Options,
) -> Result<bool, Refusal>
    ensures refused { RefusesExactly (write_due journal.now.writes objects.now.supers objects.now.memtables rows members options) result }
    ensures switches { IfOk result (λ switches. switches ≡ is_switch_due rows options) }
{
    if journal.is_full() {
        return Err(Refusal::JournalFull);
    }
    if rows < options.memtable_rows as u64 {
        return Ok(false);
    }
    match due_switch(objects, members, options.max_immutable as usize) {
        Ok(()) => Ok(true),
        Err(refusal) => Err(refusal),
    }
}

// What a switch of a write meets.
fn due_switch(objects: &Objects, members: usize, most: usize) -> Result<(), Refusal>
    ensures { RefusesExactly (switch_due objects.now.supers objects.now.memtables members most) result }
{
    if members >= most {
        return Err(Refusal::Stalled);
    }
    if objects.memtables.is_full() {
        return Err(Refusal::TooManyMemtables);
    }
    if objects.supers.all_made() {
        return Err(Refusal::RegisterFull);
    }
    if objects.supers.is_full() {
        return Err(Refusal::TooManyLive);
    }
    Ok(())
}

// What a flush meets; whether a switch is due.
fn due_flush(
    objects: &Objects,
    family: FamilyId,
    rows: u64,
    members: usize,
) -> Result<bool, Refusal>
    requires { family < 16 }
    ensures refused { RefusesExactly (flush_due objects.now.files family objects.now.supers objects.now.memtables rows members) result }
    ensures switches { IfOk result (λ switches. switches ≡ nat_lt 0 rows) }
{
    if let Some(number) = objects.files.busy(family) {
        return Err(Refusal::Busy { number: number.0 });
    }
    if rows == 0 && members == 0 {
        return Err(Refusal::NothingToFlush);
    }
    if objects.files.is_full() {
        return Err(Refusal::RegisterFull);
    }
    if rows == 0 {
        return Ok(false);
    }
    if objects.supers.all_made() {
        return Err(Refusal::RegisterFull);
    }
    if objects.memtables.is_full() {
        return Err(Refusal::TooManyMemtables);
    }
    if objects.supers.is_full() {
        return Err(Refusal::TooManyLive);
    }
    Ok(true)
}
