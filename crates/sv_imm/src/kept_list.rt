// A list as a record of a register of holders: it names its members.
ghost use Rattle.std.specs.Prelude.{◌≡◌, ◌<◌, true};
ghost use Rattle.sv_imm.specs.Changes.{live_list};

use arrayvec::ArrayVec;
use std::marker::Model;
use sv_model::{Holder, Items, MemId, MemtableList};

/// A list of the register. Contracts see the list.
#[derive(Drop)]
pub struct KeptList {
    list: MemtableList,
}

impl Model for KeptList {
    ghost use Rattle.sv_model.specs.declared.records.MemtableList.{MemtableList};

    ghost Value = { MemtableList };

    ghost view = { λ s. s.list };
}

impl KeptList {
    /// A Live list with these members. Takes no memory.
    pub fn new(members: Vec<MemId>) -> KeptList
        ensures { result ≡ live_list members.items }
    {
        let list = MemtableList {
            members: Items::from_vec(members),
            live: true,
        };
        KeptList { list }
    }

    /// Its members, the oldest first. Takes no memory.
    pub fn members(&self) -> &[MemId]
        ensures { result.now ≡ self.now.members }
    {
        self.list.members.as_slice()
    }
}

impl Holder for KeptList {
    ghost use Rattle.sv_imm.specs.Changes.{gone_list};
    ghost use Rattle.sv_imm.specs.KeptLists.{IsShort, short_seldom, gone_short};

    type Freed = ArrayVec<MemId, 64>;

    ghost numbers = { λ l. l.members };

    ghost lives = { λ l. l.live };

    ghost sound = { IsShort };

    ghost gone = { gone_list };

    ghost handed = { λ freed. freed.items };

    ghost room = { λ freed. 64 };

    fn count(&self) -> usize {
        self.members().len()
    }

    fn number(&self, at: usize) -> u64 {
        let mem = self.members()[at];
        u64::from(mem.0)
    }

    fn end(&mut self) -> ArrayVec<MemId, 64> {
        self.list.live = false;
        ArrayVec::new()
    }

    fn give(&self, at: usize, freed: &mut ArrayVec<MemId, 64>) {
        freed.push(self.members()[at]);
    }

    ghost seldom = { short_seldom };

    ghost gone_is = { gone_short };
}
