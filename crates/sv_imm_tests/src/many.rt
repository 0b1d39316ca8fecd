// Many lists and Versions, each released at once.
use std::alloc::Global;
use sv_imm::ImmLists;
use sv_model::OutOfMemory;
use sv_version::Versions;

pub fn many_lists(alloc: Global) -> Result<(), OutOfMemory> {
    let mut lists = ImmLists::new(alloc);
    for _i in 0..100_000u32 {
        let list = lists.first()?;
        lists.release(list);
    }
    Ok(())
}

pub fn many_versions(alloc: Global) -> Result<(), OutOfMemory> {
    let mut versions = Versions::new(alloc);
    for _i in 0..100_000u32 {
        let version = versions.first()?;
        versions.release(version);
    }
    Ok(())
}
