// Calls drawn by a fixed rule.
ghost use Rattle.std.specs.Prelude.{◌<◌};

use crate::plain::Plain;
use sv_model::OptionName;
use sv_state_bench::{Call, Deed};

const NAMES: [&str; 8] = [
    "default", "default", "default", "default", "a", "a", "b", "c",
];

/// Numbers that look drawn by chance, each from the one before; the first is not 0.
#[derive(Drop)]
pub struct Draws {
    word: u64,
}

impl Draws {
    pub fn new(seed: u64) -> Draws {
        Draws { word: seed }
    }

    fn word(&mut self) -> u64 {
        let mut word = self.word;
        word ^= word << 13;
        word ^= word >> 7;
        word ^= word << 17;
        self.word = word;
        word
    }

    // A number below the limit.
    fn below(&mut self, limit: u64) -> u64
        requires { 0 < limit }
        ensures { result < limit }
    {
        (self.word() >> 11) % limit
    }

    // A place near the end of so many.
    fn near_end(&mut self, many: usize) -> usize {
        many.saturating_sub(self.below(6) as usize + 1)
    }

    // Mostly the place of an output under way.
    fn output(&mut self, plain: &Plain) -> usize {
        let first = self.near_end(plain.outputs.len());
        if self.below(4) == 0 {
            return first;
        }
        for (place, output) in plain.outputs.iter().enumerate() {
            if output.is_some() {
                return place;
            }
        }
        first
    }

    fn option(&mut self) -> Deed {
        if self.below(2) == 0 {
            return Deed::Set(OptionName::MemtableRows, self.below(7));
        }
        Deed::Set(OptionName::MaxImmutable, self.below(10))
    }

    fn deed(&mut self) -> Deed {
        match self.below(60) {
            0..=2 => Deed::Create,
            3 => Deed::Find,
            4..=6 => Deed::Open,
            7 => Deed::Drop,
            8 | 9 => Deed::Release,
            10..=12 => self.option(),
            13..=15 => Deed::BeginFlush,
            16..=20 => Deed::Flush,
            21..=23 => Deed::BeginCompaction,
            24..=28 => Deed::Compact,
            _ => Deed::Put("key"),
        }
    }

    fn by_name(&mut self) -> Call {
        let lane = self.below(3) as u8;
        let name = NAMES[self.below(8) as usize];
        Call::By(lane, name, self.deed())
    }

    fn snapshots(&mut self, plain: &Plain) -> Call {
        let many = plain.snapshots.len();
        let id = self.near_end(many.saturating_add(2)) as u64;
        match self.below(4) {
            0 => Call::Snap,
            1 | 2 => Call::Unsnap(id),
            _ => Call::Cut(id, self.below(16) as u8),
        }
    }

    /// A call; where it names a place or a number, often one that the state has.
    pub fn call(&mut self, plain: &Plain) -> Call {
        match self.below(50) {
            0 => Call::Keep(self.below(2) == 0),
            1..=3 => Call::End(self.output(plain)),
            4 => Call::GiveUp(self.output(plain)),
            5 => Call::Cuts(self.output(plain)),
            6 | 7 => Call::Clean(self.near_end(plain.waiting.len())),
            8 => Call::Hold(self.below(2) as u8),
            9..=11 => Call::Unhold(self.below(2) as u8),
            12 => Call::Live(self.below(2) as u8),
            13 | 14 => Call::Purge(self.near_end(plain.stages.len()) as u64),
            15 | 16 => self.snapshots(plain),
            _ => self.by_name(),
        }
    }
}
