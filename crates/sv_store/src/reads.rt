// Reads through the family's current SuperVersion: its active memtable, then its frozen ones, then its files.
ghost use Rattle.std.specs.Prelude.{◌≡◌, ◌∷◌, [], ℕ, IfErr, IfOk, length};
ghost use Rattle.std.specs.Option.{option_copied};
ghost use Rattle.sv_model.specs.declared.records.Version.{Version};
ghost use Rattle.sv_model.specs.Journal.{of_family};
ghost use Rattle.sv_model.specs.Refusals.{first_due};
ghost use Rattle.sv_family.specs.Refused.{find_refusal};
ghost use Rattle.sv_file_checks.specs.Faults.{CountsFault};
ghost use Rattle.sv_journal.specs.Calls.{snapshot_refusal};
ghost use Rattle.sv_state.specs.Currents.{HasCurrentAt};
ghost use Rattle.sv_state.specs.Taken.{IsCut};
ghost use Rattle.sv_store.specs.Reading.{CanReadAt, Finds, GetStops, Gets, IsEnd, IsThrough, RefusesOr, Stops, newest_unfiled};

use crate::appends::LANE;
use crate::store::Store;
use sv_dir::Dir;
use sv_model::{FamilyId, Key, Name, Op, Refusal, SvSerial, Value};
use sv_reads::{find_active, find_frozen, find_in_files, into_value, value_left};

/// What a read found: the value, how many writes of the family it looked at, and through which SuperVersion.
#[derive(Drop, Debug)]
pub struct Got {
    pub value: Option<Value>,
    pub cut: u64,
    pub sv: SvSerial,
}

impl Store {
    /// The value of the key after all writes of the family of the lane's handle of the name. The memtables of the
    /// family's current SuperVersion are looked in, the newest first, and then its files are read, the newest first,
    /// until one has a row of the key. Refused as `NotOpen` or `NoFamily` without a handle, then as `DirFault` where
    /// the directory fails at a file, and as `BadFile` where a file is not there or is not the one that was written.
    pub fn get<D: Dir>(&self, dir: &mut D, name: &Name, key: &Key) -> Result<Got, Refusal>
        ensures found { IfOk result (Gets self.now.books (D.files dir.old) name.now key.now (IsEnd self.now.books)) }
        ensures refused { RefusesOr (find_refusal self.now.books.families 0 name.now) (GetStops self.now.books (D.files dir.old) name.now key.now (IsEnd self.now.books)) result }
        ensures same { D.files dir.new ≡ D.files dir.old }
        ensures faults { CountsFault result (D.faults dir.old) (D.faults dir.new) }
    {
        let family = match self.state.find(LANE, name) {
            Ok(family) => family,
            Err(refusal) => return Err(refusal),
        };
        let cut = self.end(family);
        self.read_at(dir, family, key, cut)
    }

    /// The value of the key where the Live snapshot of this number reads the family: else as `get`. Refused as
    /// `NotOpen` or `NoFamily` without a handle, then as `NoSnapshot` exactly where the number is that of no Live
    /// snapshot, then as `get` at files.
    pub fn gets<D: Dir>(
        &self,
        dir: &mut D,
        snapshot: u64,
        name: &Name,
        key: &Key,
    ) -> Result<Got, Refusal>
        ensures found { IfOk result (Gets self.now.books (D.files dir.old) name.now key.now (IsCut self.now.books snapshot)) }
        ensures refused { RefusesOr (first_due (find_refusal self.now.books.families 0 name.now ∷ snapshot_refusal self.now.books.snapshots snapshot ∷ [])) (GetStops self.now.books (D.files dir.old) name.now key.now (IsCut self.now.books snapshot)) result }
        ensures same { D.files dir.new ≡ D.files dir.old }
        ensures faults { CountsFault result (D.faults dir.old) (D.faults dir.new) }
    {
        let family = match self.state.find(LANE, name) {
            Ok(family) => family,
            Err(refusal) => return Err(refusal),
        };
        let cut = match self.state.cut_at(snapshot, family) {
            Ok(cut) => cut,
            Err(refusal) => return Err(refusal),
        };
        self.read_at(dir, family, key, cut)
    }

    // The number of the family's writes.
    fn end(&self, family: FamilyId) -> u64
        requires { HasCurrentAt self.now.books family }
        ensures { result ≡ length (of_family family self.now.books.journal) }
    {
        let body = &self.state.current(family).body;
        let active = self.cells.memtable(body.cell);
        body.descriptor.base + u64::from(active.len())
    }

    // The serial of the family's current.
    fn serial(&self, family: FamilyId) -> SvSerial
        requires { HasCurrentAt self.now.books family }
        ensures { (at : HasCurrentAt self.now.books family) → result ≡ at.serial }
    {
        let pack = self.state.current(family).pack;
        pack.serial
    }

    // The value of the key in the family at the cut.
    fn read_at<D: Dir>(
        &self,
        dir: &mut D,
        family: FamilyId,
        key: &Key,
        cut: u64,
    ) -> Result<Got, Refusal>
        requires { CanReadAt self.now.books family cut }
        ensures found { IfOk result (λ got. (got.cut ≡ cut) × Finds self.now.books (D.files dir.old) family key.now cut got.value got.sv) }
        ensures stops { IfErr result (Stops self.now.books (D.files dir.old) family key.now cut) }
        ensures same { D.files dir.new ≡ D.files dir.old }
        ensures faults { CountsFault result (D.faults dir.old) (D.faults dir.new) }
    {
        let value = self.look_up(dir, family, key, cut)?;
        let sv = self.serial(family);
        Ok(Got { value, cut, sv })
    }

    // What the memtables or else the files have of the key.
    fn look_up<D: Dir>(
        &self,
        dir: &mut D,
        family: FamilyId,
        key: &Key,
        cut: u64,
    ) -> Result<Option<Value>, Refusal>
        requires { CanReadAt self.now.books family cut }
        ensures found { IfOk result (λ value. (at : HasCurrentAt self.now.books family) → Finds self.now.books (D.files dir.old) family key.now cut value at.serial) }
        ensures stops { IfErr result (Stops self.now.books (D.files dir.old) family key.now cut) }
        ensures same { D.files dir.new ≡ D.files dir.old }
        ensures faults { CountsFault result (D.faults dir.old) (D.faults dir.new) }
    {
        let body = &self.state.current(family).body;
        if let Some(op) = self.find_in_memory(family, key, cut) {
            return Ok(value_left(op)?);
        }
        match find_in_files(self.alloc, dir, body, key, cut) {
            Ok(found) => Ok(into_value(found)),
            Err(refusal) => Err(refusal),
        }
    }

    // What the newest row of the key in the memtables does, of those at or below the cut.
    fn find_in_memory(&self, family: FamilyId, key: &Key, cut: u64) -> Option<&Op>
        requires { CanReadAt self.now.books family cut }
        ensures { (serial : ℕ) (version : Version) → IsThrough self.now.books family serial version → option_copied result ≡ newest_unfiled self.now.books family version key.now cut }
    {
        let body = &self.state.current(family).body;
        let active = self.cells.memtable(body.cell);
        match find_active(active, body.descriptor.base, key, cut) {
            Some(op) => Some(op),
            None => find_frozen(body, key, cut),
        }
    }
}
