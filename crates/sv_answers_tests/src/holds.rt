// Holds and snapshots.
use crate::bench::{Deed, expect};
use std::rt::HostRuntime;
use std::test::*;

#[test]
fn holds_are_counted(rt: HostRuntime) -> Result<(), Fail> {
    expect(
        &rt,
        rt.alloc(),
        &[
            (Deed::Unhold, "refused 13 NoHold"),
            (Deed::Live, "refused 13 NoHold"),
            (Deed::Hold, "ok hold 1"),
            (Deed::Hold, "ok hold 2"),
            (Deed::Live, "ok live"),
            (Deed::Unhold, "ok unhold 1"),
        ],
    )
}

#[test]
fn snapshots_end_once(rt: HostRuntime) -> Result<(), Fail> {
    expect(
        &rt,
        rt.alloc(),
        &[
            (Deed::Put("default", "a", "1"), "ok put 1"),
            (Deed::Snap, "ok snap 1 at 1"),
            (Deed::Put("default", "a", "2"), "ok put 2"),
            (Deed::Gets(1, "default", "a"), "found 1 cut 1 sv 1"),
            (Deed::Gets(2, "default", "a"), "refused 27 NoSnapshot"),
            (Deed::Unsnap(2), "refused 27 NoSnapshot"),
            (Deed::Unsnap(1), "ok unsnap"),
            (Deed::Unsnap(1), "refused 27 NoSnapshot"),
        ],
    )
}
