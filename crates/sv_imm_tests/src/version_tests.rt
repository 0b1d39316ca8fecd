// How a Version follows another, and which files a Version lets go.
ghost use Rattle.std.specs.Prelude.{◌≡◌, IfOk};
ghost use Rattle.sv_imm_tests.specs.Made.{older_file, newer_file, merged_file, three_versions};

use std::alloc::Global;
use std::rt::HostRuntime;
use std::test::Fail;
use sv_model::{Bottom, Cuts, FileMeta, FileNumber, OutOfMemory, VersionId};
use sv_version::Versions;

fn older() -> FileMeta
    ensures { result ≡ older_file }
{
    FileMeta {
        number: FileNumber(1),
        from: 0,
        to: 10,
        bottom: Bottom::plain(),
    }
}

fn newer() -> FileMeta
    ensures { result ≡ newer_file }
{
    FileMeta {
        number: FileNumber(2),
        from: 10,
        to: 20,
        bottom: Bottom::plain(),
    }
}

fn merged() -> FileMeta
    ensures { result ≡ merged_file }
{
    FileMeta {
        number: FileNumber(3),
        from: 0,
        to: 20,
        bottom: Bottom {
            last: true,
            cuts: Cuts::none(),
        },
    }
}

// A Version without files, one with the older file, and one with both.
fn three(alloc: Global) -> Result<Versions, OutOfMemory>
    ensures { IfOk result (λ versions. versions ≡ three_versions) }
{
    let mut versions = Versions::new(alloc);
    let _empty = versions.first()?;
    let _one = versions.add_file(VersionId(1), older())?;
    let _two = versions.add_file(VersionId(2), newer())?;
    Ok(versions)
}

// The files of the third Version, and of the one in which a merged file replaces them.
fn replaced(alloc: Global) -> Result<(Vec<FileMeta>, Vec<FileMeta>), OutOfMemory> {
    let mut versions = three(alloc)?;
    let all = Vec::from_slice(alloc, versions.files(VersionId(3)))?;
    let merged = versions.replace_all(VersionId(3), merged())?;
    let left = Vec::from_slice(alloc, versions.files(merged))?;
    Ok((all, left))
}

// What the second Version lets go once the third is taken back.
fn taken_back(alloc: Global) -> Result<Vec<FileNumber>, OutOfMemory> {
    let mut versions = three(alloc)?;
    versions.take_back();
    Ok(versions.release(VersionId(2)))
}

// What the third Version lets go, and then the second.
fn let_go(alloc: Global) -> Result<(Vec<FileNumber>, Vec<FileNumber>), OutOfMemory> {
    let mut versions = three(alloc)?;
    let newest = versions.release(VersionId(3));
    let shared = versions.release(VersionId(2));
    Ok((newest, shared))
}

#[test]
fn versions(rt: HostRuntime) -> Result<(), Fail> {
    let (all, left) = replaced(rt.alloc())?;
    assert_eq!(rt; all.as_slice(), [older(), newer()].as_slice());
    assert_eq!(rt; left.as_slice(), [merged()].as_slice());
    assert_eq!(rt;
        taken_back(rt.alloc())?.as_slice(),
        [FileNumber(1)].as_slice()
    );
    let (newest, shared) = let_go(rt.alloc())?;
    assert_eq!(rt; newest.as_slice(), [FileNumber(2)].as_slice());
    assert_eq!(rt; shared.as_slice(), [FileNumber(1)].as_slice());
    Ok(())
}
