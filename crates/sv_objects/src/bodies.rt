// What all references of a SuperVersion share.
ghost use Rattle.std.specs.Prelude.{◌≡◌, ◌≤◌, ◌<◌, ◌++◌, ◌∷◌, ◌+◌, [], IfOk, OnErr, length, drop};
ghost use Rattle.std.specs.Arc.{arc_value};
ghost use Rattle.sv_objects.specs.Shown.{shown};

use std::alloc::Global;
use std::sync::Arc;
use sv_memtable::Frozen;
use sv_model::{Descriptor, FileMeta, Items, OutOfMemory};

/// What all references of a SuperVersion share.
#[derive(Drop)]
pub struct Body {
    pub descriptor: Descriptor,
    /// The cell of the active memtable.
    pub cell: u8,
    /// The cell and the rows of each frozen memtable of the list, the oldest first.
    pub frozen: Items<(u8, Arc<Frozen>)>,
    /// The files, the oldest first.
    pub files: Items<FileMeta>,
}

/// The frozen memtables and the files of a body that is to be made.
#[derive(Drop)]
pub struct Held {
    pub frozen: Vec<(u8, Arc<Frozen>)>,
    pub files: Vec<FileMeta>,
}

impl Held {
    /// None. Takes no memory.
    pub fn none(alloc: Global) -> Held
        ensures frozen { result.frozen.items ≡ [] }
        ensures files { result.files.items ≡ [] }
    {
        Held {
            frozen: Vec::new(alloc),
            files: Vec::new(alloc),
        }
    }

    /// What the body has, but for the oldest frozen memtables, as many as `flushed`.
    pub fn of(alloc: Global, body: &Body, flushed: usize) -> Result<Held, OutOfMemory>
        requires { flushed ≤ length body.now.frozen }
        ensures frozen { IfOk result (λ held. shown held.frozen.items ≡ shown (drop flushed body.now.frozen)) }
        ensures files { IfOk result (λ held. held.files.items ≡ body.now.files) }
    {
        let frozen = copies(alloc, &body.frozen.as_slice()[flushed..])?;
        let files = Vec::from_slice(alloc, body.files.as_slice())?;
        Ok(Held { frozen, files })
    }

    /// The frozen memtables of the body, and this file alone.
    pub fn alone(alloc: Global, body: &Body, file: FileMeta) -> Result<Held, OutOfMemory>
        ensures frozen { IfOk result (λ held. shown held.frozen.items ≡ shown body.now.frozen) }
        ensures files { IfOk result (λ held. held.files.items ≡ file ∷ []) }
    {
        let frozen = copies(alloc, body.frozen.as_slice())?;
        let mut files = Vec::new(alloc);
        files.push(file)?;
        Ok(Held { frozen, files })
    }

    /// One more frozen memtable, the newest. A refusal leaves them as they were.
    pub fn push(&mut self, cell: u8, rows: Arc<Frozen>) -> Result<(), OutOfMemory>
        ensures frozen { IfOk result (λ _. shown self.new.frozen.items ≡ shown self.old.frozen.items ++ (cell, arc_value rows) ∷ []) }
        ensures files { self.new.files ≡ self.old.files }
    {
        self.frozen.push((cell, rows))?;
        Ok(())
    }

    /// One more file, the newest. A refusal leaves them as they were.
    pub fn push_file(&mut self, file: FileMeta) -> Result<(), OutOfMemory>
        ensures files { IfOk result (λ _. self.new.files.items ≡ self.old.files.items ++ file ∷ []) }
        ensures frozen { self.new.frozen ≡ self.old.frozen }
    {
        self.files.push(file)?;
        Ok(())
    }
}

// The same frozen memtables.
fn copies(
    alloc: Global,
    frozen: &[(u8, Arc<Frozen>)],
) -> Result<Vec<(u8, Arc<Frozen>)>, OutOfMemory>
    ensures { IfOk result (λ v. shown v.items ≡ shown frozen.now) }
{
    let mut copies = Vec::with_capacity(alloc, frozen.len())?;
    for (cell, rows) in frozen {
        let rows = Arc::try_clone(rows)?;
        copies.push((*cell, rows))?;
    }
    Ok(copies)
}
