// Snapshots: each reads what the writes before it leave. What a file keeps for the Live ones.
ghost use Rattle.std.specs.Prelude.{◌≡◌, ◌<◌, ◌≤◌, ◌∷◌, ◌++◌, [], IfOk, MatchOption, OnOk, OnErr, length};
ghost use Rattle.sv_model.specs.declared.records.FileMeta.{FileMeta};
ghost use Rattle.sv_model.specs.Refusals.{Refuses, RefusesExactly};
ghost use Rattle.sv_laws.specs.Snapping.{HasLiveCuts};
ghost use Rattle.sv_journal.specs.Calls.{AreEnded, IsCutAt, IsNewest, IsSnapped, IsUnsnapped, are_live_cuts, is_live_cut, is_live_snapshot, snap_refusal, snapshot_refusal};

use crate::journal::{FAMILIES, Journal};
use crate::live::{LiveSnapshot, place_of};
use sv_model::{Cuts, FamilyId, MAX_SNAPSHOTS, MAX_SNAPSHOTS_LIVE, Refusal, Snapshot};

impl Journal {
    /// A snapshot more, at the end of the journal. Gives its number and its place. Refused as `RegisterFull` where
    /// 1,048,576 were made, then as `TooManySnapshots` where 64 are Live; a refusal leaves the journal as it was.
    pub fn snap(&mut self) -> Result<(u32, u64), Refusal>
        ensures made { IfOk result (λ made. IsSnapped self.old made.0 made.1 self.new) }
        ensures refused { Refuses (snap_refusal self.old.snapshots) result }
        ensures kept { OnErr result (self.new ≡ self.old) }
    {
        if self.snapshots.len() >= MAX_SNAPSHOTS {
            return Err(Refusal::RegisterFull);
        }
        if self.live.len() >= MAX_SNAPSHOTS_LIVE {
            return Err(Refusal::TooManySnapshots);
        }
        let Ok(()) = self.snapshots.reserve(1) else {
            return Err(Refusal::OutOfMemory);
        };
        let Ok(()) = self.live.reserve(1) else {
            return Err(Refusal::OutOfMemory);
        };
        let at = self.writes.len() as u64;
        let id = self.snapshots.len() as u64 + 1;
        self.snapshots.push_reserved(Snapshot { at, live: true });
        self.live.push_reserved(LiveSnapshot {
            id,
            at,
            cuts: self.counts,
        });
        Ok((id as u32, at))
    }

    /// Ends a Live snapshot. Refused as `NoSnapshot` exactly where the number is that of none; a refusal leaves the
    /// journal as it was. Takes no memory.
    pub fn unsnap(&mut self, id: u64) -> Result<(), Refusal>
        ensures ended { OnOk result (IsUnsnapped self.old id self.new) }
        ensures refused { RefusesExactly (snapshot_refusal self.old.snapshots id) result }
        ensures kept { OnErr result (self.new ≡ self.old) }
    {
        let Some(place) = place_of(self.live.as_slice(), id) else {
            return Err(Refusal::NoSnapshot);
        };
        let _ = self.live.remove(place);
        let snapshot = &mut self.snapshots[id as usize - 1];
        snapshot.live = false;
        Ok(())
    }

    /// The number of the Live snapshot that was taken last; none exactly where none is Live. Takes no memory.
    pub fn live_snapshot(&self) -> Option<u64>
        ensures { MatchOption result (AreEnded self.now.snapshots) (IsNewest self.now.snapshots) }
    {
        let count = self.live.len();
        if count < 1 {
            return None;
        }
        Some(self.live[count - 1].id)
    }

    /// Where a Live snapshot reads the family: at so many of its writes. Refused as `NoSnapshot` exactly where the
    /// number is that of no Live snapshot. Takes no memory.
    pub fn cut_at(&self, id: u64, family: FamilyId) -> Result<u64, Refusal>
        requires { family < FAMILIES }
        ensures cut { IfOk result (IsCutAt self.now id family) }
        ensures refused { RefusesExactly (snapshot_refusal self.now.snapshots id) result }
    {
        let Some(place) = place_of(self.live.as_slice(), id) else {
            return Err(Refusal::NoSnapshot);
        };
        Ok(self.live[place].cuts[family.0 as usize])
    }

    /// The cuts that a file of this range is to keep: those of the Live snapshots that lie inside it, each once,
    /// ascending. Takes no memory.
    pub fn live_cuts(&self, family: FamilyId, from: u64, to: u64) -> Cuts
        requires { family < FAMILIES }
        ensures { (file : FileMeta) → file.from ≡ from → file.to ≡ to → file.bottom.cuts ≡ result → HasLiveCuts self.now.writes self.now.snapshots family file }
    {
        let mut cuts = Cuts::none();
        let mut last = from;
        for snapshot in &self.live {
            let cut = snapshot.cuts[family.0 as usize];
            if cut <= last {
                continue;
            }
            if to <= cut {
                continue;
            }
            cuts.push(cut);
            last = cut;
        }
        cuts
    }

    /// Whether each of the cuts is that of a Live snapshot for the family. Takes no memory.
    pub fn are_live_cuts(&self, family: FamilyId, cuts: &[u64]) -> bool
        requires { family < FAMILIES }
        ensures { result ≡ are_live_cuts self.now.writes self.now.snapshots family cuts.now }
    {
        for cut in cuts {
            if !self.is_live_cut(family, *cut) {
                return false;
            }
        }
        true
    }

    // Whether a Live snapshot has this cut for the family.
    fn is_live_cut(&self, family: FamilyId, cut: u64) -> bool
        requires { family < FAMILIES }
        ensures { result ≡ is_live_cut self.now.writes self.now.snapshots family cut }
    {
        for snapshot in &self.live {
            if snapshot.cuts[family.0 as usize] == cut {
                return true;
            }
        }
        false
    }
}
