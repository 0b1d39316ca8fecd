// Every file number ever registered, with its status.
ghost use Rattle.std.specs.Prelude.{◌≡◌, ◌+◌, ◌<◌, ◌≤◌, ◌↔◌, ◌++◌, ◌∷◌, [], ℕ, Some, IsTrue, IsSome, IfOk, OnOk, OnErr, MatchOption, length, take};
ghost use Rattle.std.specs.Ordering.{nat_cmp};
ghost use Rattle.std.specs.BTreeMap.{get};
ghost use Rattle.std.specs.VecDeque.{deque_len, deque_capacity};
ghost use Rattle.sv_model.specs.declared.records.FileStatus.TheVariants.{Obsolete};
ghost use Rattle.sv_model.specs.Numbers.{AreInOrder, IsMarked, IsRegistered, registered};
ghost use Rattle.sv_model.specs.Summaries.{is_obsolete};

use crate::queue;
use std::alloc::Global;
use std::collections::{BTreeMap, VecDeque};
use std::marker::Model;
use sv_model::{FamilyId, FileNumber, FileStatus, OutOfMemory, RegisteredFile};

/// Every file number ever registered, in that order. Contracts see the list.
#[derive(Drop)]
pub(crate) struct Numbers {
    files: Vec<RegisteredFile>,
    /// By number, where it stands in `files`.
    places: BTreeMap<u64, usize>,
    /// The Obsolete numbers, ascending. There is room for every number, as `files` has it, so that a
    /// change of status takes no memory.
    obsolete: VecDeque<u64>,
}

impl Model for Numbers {
    ghost use Rattle.std.specs.Prelude.{List};
    ghost use Rattle.std.specs.VecDeque.{deque_capacity};
    ghost use Rattle.sv_model.specs.declared.records.RegisteredFile.{RegisteredFile};
    ghost use Rattle.sv_files.specs.Kept.{AreKept};

    ghost Value = { List RegisteredFile };

    ghost view = { λ k. k.files.items };

    ghost invariant = { λ k. AreKept k.files.items k.places k.obsolete.items (deque_capacity k.obsolete) };
}

impl Numbers {
    pub(crate) fn new(alloc: Global) -> Numbers
        ensures { result ≡ [] }
    {
        Numbers {
            files: Vec::new(alloc),
            places: BTreeMap::new(alloc),
            obsolete: VecDeque::new(alloc),
        }
    }

    pub(crate) fn alloc(&self) -> Global {
        *self.files.allocator()
    }

    pub(crate) fn as_slice(&self) -> &[RegisteredFile]
        ensures { result.now ≡ self.now }
    {
        self.files.as_slice()
    }

    pub(crate) fn is_registered(&self, number: u64) -> bool
        ensures { IsTrue result ↔ (0 < registered number self.now) }
    {
        self.places.contains_key(&number)
    }

    pub(crate) fn status(&self, number: u64) -> Option<FileStatus>
        ensures { MatchOption result (registered number self.now ≡ 0) (λ status. IsRegistered self.now number status) }
    {
        match self.places.get(&number) {
            Some(at) => Some(self.files[*at].status),
            None => None,
        }
    }

    pub(crate) fn is_obsolete(&self, number: u64) -> bool
        ensures { IsTrue result ↔ IsRegistered self.now number Obsolete }
    {
        queue::has(&self.obsolete, number)
    }

    /// The Obsolete numbers below the bound, ascending. Takes no memory where there are none.
    pub(crate) fn obsolete_below(&self, bound: u64) -> Result<Vec<FileNumber>, OutOfMemory>
        ensures found { IfOk result (λ found. AreInOrder (λ n. IsRegistered self.now n Obsolete × (n < bound)) found.items) }
        ensures none { OnErr result ((n : ℕ) × IsRegistered self.now n Obsolete × (n < bound)) }
    {
        let count = queue::count_below(&self.obsolete, bound);
        first(self.alloc(), &self.obsolete, count)
    }

    /// Registers one number more, which is new.
    pub(crate) fn push(
        &mut self,
        number: u64,
        status: FileStatus,
        family: Option<FamilyId>,
    ) -> Result<(), OutOfMemory>
        requires { registered number self.old ≡ 0 }
        ensures ok { OnOk result
            (self.new ≡ self.old ++ record { number = number; status = status; family = family } ∷ []) }
        ensures err { OnErr result (self.new ≡ self.old) }
    {
        let at = self.files.len();
        let waiting = self.obsolete.len();
        self.files.reserve(1)?;
        let room = self.files.capacity();
        self.obsolete.reserve(room - waiting)?;
        if self.places.insert(number, at).is_err() {
            return Err(OutOfMemory);
        }
        self.files.push_reserved(RegisteredFile {
            number: FileNumber(number),
            status,
            family,
        });
        queue::set(&mut self.obsolete, number, false, is_obsolete(status));
        Ok(())
    }

    /// Takes back the registration of the last number.
    pub(crate) fn take_back(&mut self)
        requires { 0 < length self.old }
        ensures { (last : RegisteredFile) × (self.old ≡ self.new ++ last ∷ []) }
    {
        let last = self.files.take_last();
        let (number, waited) = (number_of(&last), is_obsolete(last.status));
        let _ = self.places.remove(&number);
        queue::set(&mut self.obsolete, number, waited, false);
    }

    /// Gives a registered number another status. Answers what it was. Takes no memory.
    pub(crate) fn mark(&mut self, number: u64, now: FileStatus) -> RegisteredFile
        requires { 0 < registered number self.old }
        ensures once { registered number self.old ≤ 1 }
        ensures marked { (m : IsMarked number result.status now self.old self.new) × (m.it ≡ result) }
    {
        let at = position(&self.places, number);
        let was = self.files[at];
        let file = &mut self.files[at];
        file.status = now;
        queue::set(
            &mut self.obsolete,
            number,
            is_obsolete(was.status),
            is_obsolete(now),
        );
        was
    }
}

fn is_obsolete(status: FileStatus) -> bool
    ensures { result ≡ is_obsolete status }
{
    matches!(status, FileStatus::Obsolete)
}

fn number_of(file: &RegisteredFile) -> u64
    ensures { result ≡ file.now.number }
{
    file.number.0
}

fn position(places: &BTreeMap<u64, usize>, number: u64) -> usize
    requires { IsSome (get nat_cmp places.now number) }
    ensures { get nat_cmp places.now number ≡ Some result }
{
    places[&number]
}

// The first numbers of the queue, as many as this.
fn first(alloc: Global, queue: &VecDeque<u64>, count: usize) -> Result<Vec<FileNumber>, OutOfMemory>
    requires { count ≤ deque_len queue.now }
    ensures first { IfOk result (λ found. found.items ≡ take count queue.now.items) }
    ensures none { OnErr result (0 < count) }
{
    if count == 0 {
        return Ok(Vec::new(alloc));
    }
    let found = queue
        .range(..count)
        .map(|number| FileNumber(*number))
        .collect(alloc)?;
    Ok(found)
}
