// A SuperVersion goes, and with it all that nothing names any more.
ghost use Rattle.std.specs.Prelude.{◌≡◌, ◌+◌, ◌<◌, ◌≤◌, ◌++◌, ◌∷◌, [], ℕ, List, Bool, None, Some, cond, length, IfSome};
ghost use Rattle.std.specs.Option.{option_to_list};
ghost use Rattle.arrayvec.specs.ArrayVec.{array_vec_len};
ghost use Rattle.sv_model.specs.declared.records.FileStatus.TheVariants.{Live};
ghost use Rattle.sv_model.specs.declared.records.Memtable.{Memtable};
ghost use Rattle.sv_model.specs.declared.records.RegisteredFile.{RegisteredFile};
ghost use Rattle.sv_model.specs.declared.records.Version.{Version};
ghost use Rattle.sv_model.specs.Lists.{Distinct, In, bit, total};
ghost use Rattle.sv_model.specs.Named.{IsLiveList, IsLiveVersion, NamedFile, NamedMemtable};
ghost use Rattle.sv_model.specs.Numbers.{IsRegistered, registered};
ghost use Rattle.sv_laws.specs.Midst.{EndsList, EndsVersion, Midst, MidstFiles};
ghost use Rattle.sv_registry.specs.Calls.{IsLivePack};
ghost use Rattle.sv_objects.specs.Cleanups.{AreApart, CanClean, Cleaned};

use crate::objects::Objects;
use arrayvec::ArrayVec;
use std::alloc::Global;
use sv_cells::MemtableRegister;
use sv_files::FileBook;
use sv_imm::ImmLists;
use sv_model::{FileNumber, ListId, MemId, Pack, VersionId};
use sv_registry::Registry;
use sv_version::Versions;

// Ends the memtable, where it is Live and nothing names it any more. Gives its cell.
fn end_unnamed(
    memtables: &mut MemtableRegister,
    lists: &ImmLists,
    supers: &Registry,
    mem: MemId,
    cells: &mut ArrayVec<u8, 64>,
)
    requires room { array_vec_len cells.old + total (λ m. bit m.live) memtables.old ≤ 64 }
    ensures midst { (all : List Memtable) (left : List ℕ) → AreApart all → Midst (NamedMemtable supers.now lists.now) all memtables.old (mem ∷ left) cells.old.items → Midst (NamedMemtable supers.now lists.now) all memtables.new left cells.new.items }
    ensures room { array_vec_len cells.new + total (λ m. bit m.live) memtables.new ≤ 64 }
{
    let Some(record) = memtables.record(mem) else {
        return;
    };
    let (live, cell) = (record.live, record.cell);
    if !live {
        return;
    }
    if supers.has_active(mem) {
        return;
    }
    if lists.named_by(mem) {
        return;
    }
    memtables.end(mem);
    cells.push(cell);
}

// Ends those of the memtables that are Live and that nothing names any more.
fn sweep(
    memtables: &mut MemtableRegister,
    lists: &ImmLists,
    supers: &Registry,
    mems: &[MemId],
    cells: &mut ArrayVec<u8, 64>,
)
    requires room { array_vec_len cells.old + total (λ m. bit m.live) memtables.old ≤ 64 }
    ensures midst { (all : List Memtable) (left : List ℕ) → AreApart all → Midst (NamedMemtable supers.now lists.now) all memtables.old (mems.now ++ left) cells.old.items → Midst (NamedMemtable supers.now lists.now) all memtables.new left cells.new.items }
    ensures room { array_vec_len cells.new + total (λ m. bit m.live) memtables.new ≤ 64 }
{
    for mem in mems {
        end_unnamed(memtables, lists, supers, *mem, cells);
    }
}

// Ends the memtable, where one is freed, if it is Live and nothing names it any more.
fn end_active(
    memtables: &mut MemtableRegister,
    lists: &ImmLists,
    supers: &Registry,
    active: Option<MemId>,
    cells: &mut ArrayVec<u8, 64>,
)
    requires room { array_vec_len cells.old + total (λ m. bit m.live) memtables.old ≤ 64 }
    ensures midst { (all : List Memtable) (left : List ℕ) → AreApart all → Midst (NamedMemtable supers.now lists.now) all memtables.old (option_to_list active ++ left) cells.old.items → Midst (NamedMemtable supers.now lists.now) all memtables.new left cells.new.items }
{
    let Some(active) = active else {
        return;
    };
    end_unnamed(memtables, lists, supers, active, cells);
}

// The list, where one is freed, is Gone. Gives its members that no other list names.
fn release_list(lists: &mut ImmLists, list: Option<ListId>) -> ArrayVec<MemId, 64>
    requires { IfSome list (IsLiveList lists.old) }
    ensures { EndsList lists.old list lists.new result.items }
{
    match list {
        Some(list) => lists.release(list),
        None => ArrayVec::new(),
    }
}

// The Version, where one is let go, is Gone. Gives its files that no other Version names.
fn release_version(
    versions: &mut Versions,
    alloc: Global,
    version: Option<VersionId>,
) -> Vec<FileNumber>
    requires { IfSome version (IsLiveVersion versions.old) }
    ensures { EndsVersion versions.old version versions.new result.items }
{
    match version {
        Some(version) => versions.release(version),
        None => Vec::new(alloc),
    }
}

// The Version that goes: the one that is freed, unless it is a family's last.
fn gone_version(freed: Option<VersionId>, last: bool) -> Option<VersionId>
    ensures { result ≡ cond last None freed }
{
    if last {
        return None;
    }
    freed
}

// Makes each of the numbers Obsolete.
fn retire_all(files: &mut FileBook, numbers: &[FileNumber])
    requires live { (n : ℕ) → In n numbers.now → IsRegistered files.old.numbers n Live }
    requires once { Distinct numbers.now }
    ensures midst { (versions : List Version) (all : List RegisteredFile) → ((n : ℕ) → registered n all ≤ 1) → ((n : ℕ) → In n numbers.now → NamedFile versions n → ⊥) → MidstFiles (NamedFile versions) all files.old.numbers numbers.now → MidstFiles (NamedFile versions) all files.new.numbers [] }
    ensures rest { files.new ≡ record files.old { numbers = files.new.numbers } }
{
    for number in numbers {
        files.retire(*number);
    }
}

impl Objects {
    /// The SuperVersion, which is current of no family, is Gone, with all that it alone named; its Version stays where
    /// it is the last one of a family that is not retired, as `last` says. Gives the cells of the memtables that went.
    /// Takes no memory.
    pub fn clean(&mut self, alloc: Global, pack: Pack, last: bool) -> ArrayVec<u8, 64>
        requires { CanClean self.old pack last }
        ensures { (can : CanClean self.old pack last) → Cleaned can self.new result.items }
    {
        let freed = self.supers.reclaim(pack);
        let mut cells = ArrayVec::new();
        let members = release_list(&mut self.lists, freed.list);
        sweep(
            &mut self.memtables,
            &self.lists,
            &self.supers,
            members.as_slice(),
            &mut cells,
        );
        end_active(
            &mut self.memtables,
            &self.lists,
            &self.supers,
            freed.active,
            &mut cells,
        );
        let gone = gone_version(freed.version, last);
        let numbers = release_version(&mut self.versions, alloc, gone);
        retire_all(&mut self.files, numbers.as_slice());
        cells
    }
}
