// The lists ever made, and how many live ones name each memtable.
ghost use Rattle.std.specs.Prelude.{◌≡◌, ◌+◌, ◌<◌, ◌≤◌, ◌++◌, ◌∷◌, [], List, length, drop, Some, IsTrue, ◌↔◌, OnErr, IfOk};
ghost use Rattle.sv_model.specs.declared.records.MemtableList.{MemtableList};
ghost use Rattle.sv_model.specs.Named.{IsLiveList, HasMember};
ghost use Rattle.sv_model.specs.Registers.{entry, Has};
ghost use Rattle.sv_imm.specs.Changes.{IsMade, IsReleased};

use crate::kept_list::KeptList;
use crate::members::{MAX_MEMBERS, with_last, without_oldest};
use arrayvec::ArrayVec;
use std::alloc::Global;
use std::marker::Model;
use sv_model::{HolderRegister, ListId, MemId, OutOfMemory};

/// The greatest number of lists ever made.
pub const MAX_LISTS: usize = 4_294_967_295;

/// The lists of immutable memtables ever made. Contracts see them in the order of their ids, from 1. A list
/// that was released is kept, since its id is never used again.
#[derive(Drop)]
pub struct ImmLists {
    lists: HolderRegister<KeptList>,
    alloc: Global,
}

impl Model for ImmLists {
    ghost use Rattle.std.specs.Prelude.{List};
    ghost use Rattle.sv_model.specs.declared.records.MemtableList.{MemtableList};

    ghost Value = { List MemtableList };

    ghost view = { λ s. s.lists };
}

impl ImmLists {
    /// No list. Takes no memory.
    pub fn new(alloc: Global) -> ImmLists
        ensures { result ≡ [] }
    {
        ImmLists {
            lists: HolderRegister::new(alloc),
            alloc,
        }
    }

    /// A new list without members.
    pub fn first(&mut self) -> Result<ListId, OutOfMemory>
        requires { length self.old < MAX_LISTS }
        ensures ok { IfOk result (IsMade self.old [] self.new) }
        ensures err { OnErr result (self.new ≡ self.old) }
    {
        let members = Vec::new(self.alloc);
        self.append(members)
    }

    /// A new list with the memtable last. The list that it follows stays.
    pub fn push(&mut self, list: ListId, mem: MemId) -> Result<ListId, OutOfMemory>
        requires live { IsLiveList self.old list }
        requires short { (l : MemtableList) → entry self.old list ≡ Some l → length l.members < MAX_MEMBERS }
        requires few { length self.old < MAX_LISTS }
        ensures ok { IfOk result (λ id. (l : MemtableList) → entry self.old list ≡ Some l → IsMade self.old (l.members ++ mem ∷ []) self.new id) }
        ensures err { OnErr result (self.new ≡ self.old) }
    {
        let members = with_last(self.alloc, self.members(list), mem)?;
        self.append(members)
    }

    /// A new list without the oldest `count` members, which were flushed. The list that it follows stays.
    pub fn pop_flushed(&mut self, list: ListId, count: u8) -> Result<ListId, OutOfMemory>
        requires live { IsLiveList self.old list }
        requires few { length self.old < MAX_LISTS }
        ensures ok { IfOk result (λ id. (l : MemtableList) → entry self.old list ≡ Some l → IsMade self.old (drop count l.members) self.new id) }
        ensures err { OnErr result (self.new ≡ self.old) }
    {
        let kept = self.lists.get(list.0);
        let members = without_oldest(self.alloc, kept.members(), count)?;
        self.append(members)
    }

    /// Undoes the making of the last list, which was not released. Takes no memory.
    pub fn take_back(&mut self)
        requires { IsLiveList self.old (length self.old) }
        ensures { (last : MemtableList) × (self.old ≡ self.new ++ last ∷ []) }
    {
        self.lists.take_back();
    }

    /// The members of the list, the oldest first. Takes no memory.
    pub fn members(&self, list: ListId) -> &[MemId]
        requires { IsLiveList self.now list }
        ensures { (l : MemtableList) → entry self.now list ≡ Some l → result.now ≡ l.members }
    {
        self.lists.get(list.0).members()
    }

    /// Whether a list that was not released names the memtable. Takes no memory.
    pub fn named_by(&self, mem: MemId) -> bool
        ensures { IsTrue result ↔ Has (HasMember mem) self.now }
    {
        self.lists.is_named(u64::from(mem.0))
    }

    /// The list is Gone. Gives its members that no other list names, the oldest first, each once. Takes no
    /// memory.
    pub fn release(&mut self, list: ListId) -> ArrayVec<MemId, 64>
        requires { IsLiveList self.old list }
        ensures { IsReleased self.old list self.new result.items }
    {
        self.lists.release(list.0)
    }

    // A list with these members.
    fn append(&mut self, members: Vec<MemId>) -> Result<ListId, OutOfMemory>
        requires short { length members.items ≤ MAX_MEMBERS }
        requires few { length self.old < MAX_LISTS }
        ensures ok { IfOk result (IsMade self.old members.items self.new) }
        ensures err { OnErr result (self.new ≡ self.old) }
    {
        Ok(ListId(self.lists.add(KeptList::new(members))?))
    }
}
