// SuperVersions that are no family's current any more are cleaned up.
ghost use Rattle.std.specs.Prelude.{◌≡◌};
ghost use Rattle.std.specs.Option.{option_map};

use crate::bench::Bench;
use sv_model::{Pack, SvRef};
use sv_objects::Body;

// The pack of the reference.
pub(crate) fn pack_of(old: &Option<SvRef<Body>>) -> Option<Pack>
    ensures { result ≡ option_map (λ r. r.pack) old.now }
{
    let Some(old) = old else {
        return None;
    };
    Some(old.pack)
}

impl Bench {
    /// Cleans up the SuperVersion that waits at this place. Tells how many memtables went with it; none where none
    /// waits there.
    pub fn clean(&mut self, place: usize) -> Option<u64> {
        if place >= self.waiting.len() {
            return None;
        }
        let pack = self.waiting[place]?;
        self.waiting[place] = None;
        let cells = self.state.cleanup(pack);
        Some(cells.len() as u64)
    }

    // Cleans up the SuperVersion that waits since last, unless such wait for now.
    pub(crate) fn settle(&mut self) {
        if self.keeps {
            return;
        }
        let Some(Some(pack)) = self.waiting.pop() else {
            return;
        };
        let _ = self.state.cleanup(pack);
    }
}
