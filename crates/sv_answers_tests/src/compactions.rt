// Compactions: of files with deletes, and under a snapshot.
use crate::bench::{Deed, expect};
use std::rt::HostRuntime;
use std::test::*;

#[test]
fn files_become_one(rt: HostRuntime) -> Result<(), Fail> {
    expect(
        &rt,
        rt.alloc(),
        &[
            (Deed::Compact("cold"), "refused 7 NoFamily"),
            (Deed::Compact("default"), "refused 24 NothingToCompact"),
            (Deed::Put("default", "a", "1"), "ok put 1"),
            (Deed::Put("default", "b", "2"), "ok put 2"),
            (Deed::Flush("default"), "ok flush file 1 from 0 to 2"),
            (Deed::Delete("default", "a"), "ok delete 3"),
            (Deed::Flush("default"), "ok flush file 2 from 2 to 3"),
            (Deed::Compact("default"), "ok compact file 3 from 0 to 3"),
            (Deed::Compact("default"), "refused 24 NothingToCompact"),
            (Deed::Get("default", "a"), "absent cut 3 sv 6"),
            (Deed::Get("default", "b"), "found 2 cut 3 sv 6"),
            (Deed::Purge, "ok purge 1 2"),
            (Deed::Get("default", "b"), "found 2 cut 3 sv 6"),
        ],
    )
}

#[test]
fn a_snapshot_keeps_what_it_reads(rt: HostRuntime) -> Result<(), Fail> {
    expect(
        &rt,
        rt.alloc(),
        &[
            (Deed::Put("default", "a", "1"), "ok put 1"),
            (Deed::Snap, "ok snap 1 at 1"),
            (Deed::Put("default", "a", "2"), "ok put 2"),
            (Deed::Flush("default"), "ok flush file 1 from 0 to 2"),
            (Deed::Compact("default"), "ok compact file 2 from 0 to 2"),
            (Deed::Compact("default"), "refused 24 NothingToCompact"),
            (Deed::Gets(1, "default", "a"), "found 1 cut 1 sv 4"),
            (Deed::Unsnap(1), "ok unsnap"),
            (Deed::Compact("default"), "ok compact file 3 from 0 to 2"),
            (Deed::Get("default", "a"), "found 2 cut 2 sv 5"),
        ],
    )
}
