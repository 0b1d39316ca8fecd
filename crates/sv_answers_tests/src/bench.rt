// A store with the directory in memory beside it, and the texts of its answers.
ghost use Rattle.std.specs.Prelude.{◌≤◌, IfOk};
ghost use Rattle.sv_script.specs.Built.{IsBuilt};

use std::alloc::Global;
use std::process::Abort;
use std::test::*;
use sv_answers::answer;
use sv_dir::MemDir;
use sv_model::{Items, Name, OptionName};
use sv_script::{Command, reply_text};
use sv_store::Store;

/// A command of the tests.
#[derive(Clone, Copy)]
pub enum Deed {
    Put(&'static str, &'static str, &'static str),
    Delete(&'static str, &'static str),
    Get(&'static str, &'static str),
    Gets(u64, &'static str, &'static str),
    Create(&'static str),
    Open(&'static str),
    Release(&'static str),
    Drop(&'static str),
    Rows(&'static str, u64),
    Lists(&'static str, u64),
    Flush(&'static str),
    Compact(&'static str),
    Purge,
    Scan,
    Hold,
    Unhold,
    Live,
    Snap,
    Unsnap(u64),
}

fn name_of(word: &str) -> Result<Name, Fail> {
    Ok(Name::new(word.as_bytes()).ok_or("a name")?)
}

fn bytes_of(alloc: Global, word: &str) -> Result<Items<u8>, Fail> {
    Ok(Items::from_vec(word.as_bytes().to_vec(alloc)?))
}

fn command_of(alloc: Global, deed: Deed) -> Result<Command, Fail>
    ensures { IfOk result IsBuilt }
{
    Ok(match deed {
        Deed::Put(name, key, value) => Command::Put {
            family: name_of(name)?,
            key: bytes_of(alloc, key)?,
            value: bytes_of(alloc, value)?,
        },
        Deed::Delete(name, key) => Command::Delete {
            family: name_of(name)?,
            key: bytes_of(alloc, key)?,
        },
        Deed::Get(name, key) => Command::Get {
            family: name_of(name)?,
            key: bytes_of(alloc, key)?,
        },
        Deed::Gets(snapshot, name, key) => Command::Gets {
            snapshot,
            family: name_of(name)?,
            key: bytes_of(alloc, key)?,
        },
        Deed::Create(name) => Command::Create(name_of(name)?),
        Deed::Open(name) => Command::Open(name_of(name)?),
        Deed::Release(name) => Command::Release(name_of(name)?),
        Deed::Drop(name) => Command::Drop(name_of(name)?),
        Deed::Rows(name, value) => Command::Set {
            family: name_of(name)?,
            option: OptionName::MemtableRows,
            value,
        },
        Deed::Lists(name, value) => Command::Set {
            family: name_of(name)?,
            option: OptionName::MaxImmutable,
            value,
        },
        Deed::Flush(name) => Command::Flush(name_of(name)?),
        Deed::Compact(name) => Command::Compact(name_of(name)?),
        Deed::Purge => Command::Purge,
        Deed::Scan => Command::Scan,
        Deed::Hold => Command::Hold,
        Deed::Unhold => Command::Unhold,
        Deed::Live => Command::Live,
        Deed::Snap => Command::Snap,
        Deed::Unsnap(snapshot) => Command::Unsnap(snapshot),
    })
}

/// Does these deeds one after the other over this directory, and compares the answer to each. `next` is the number of
/// the first file.
pub fn expect_over(
    rt: &impl Abort,
    alloc: Global,
    dir: &mut MemDir,
    next: u64,
    deeds: &[(Deed, &str)],
) -> Result<(), Fail>
    requires { 1 ≤ next }
{
    let mut store = Store::new(alloc, next)?;
    for (deed, text) in deeds {
        let command = command_of(alloc, *deed)?;
        let reply = answer(alloc, &mut store, dir, &command);
        let told = reply_text(alloc, 1, &reply)?;
        let wanted = format!(in alloc; "1 {text}\n")?;
        assert_eq!(rt; told.as_slice(), wanted.as_bytes());
    }
    Ok(())
}

/// The same of a store that opens over an empty directory.
pub fn expect(rt: &impl Abort, alloc: Global, deeds: &[(Deed, &str)]) -> Result<(), Fail> {
    let mut dir = MemDir::new(alloc, Vec::new(alloc), Vec::new(alloc))?;
    expect_over(rt, alloc, &mut dir, 1, deeds)
}
