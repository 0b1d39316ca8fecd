// The registers of what SuperVersions name.
ghost use Rattle.std.specs.Prelude.{◌≡◌, ◌≤◌, [], length};
ghost use Rattle.sv_files.specs.Calls.{opened};

use std::alloc::Global;
use sv_cells::MemtableRegister;
use sv_files::FileBook;
use sv_imm::ImmLists;
use sv_registry::Registry;
use sv_version::Versions;

/// The SuperVersions ever made, and the memtables, lists, Versions and file numbers that they name.
#[derive(Drop)]
pub struct Objects {
    pub supers: Registry,
    pub memtables: MemtableRegister,
    pub lists: ImmLists,
    pub versions: Versions,
    pub files: FileBook,
}

impl Objects {
    /// None but these file numbers. Takes no memory.
    pub fn new(alloc: Global, files: FileBook) -> Objects
        ensures supers { result.supers ≡ [] }
        ensures memtables { result.memtables ≡ [] }
        ensures lists { result.lists ≡ [] }
        ensures versions { result.versions ≡ [] }
        ensures files { result.files ≡ files }
    {
        Objects {
            supers: Registry::new(alloc),
            memtables: MemtableRegister::new(alloc),
            lists: ImmLists::new(alloc),
            versions: Versions::new(alloc),
            files,
        }
    }
}
