// Flushes and purges.
use crate::bench::{Deed, expect};
use std::rt::HostRuntime;
use std::test::*;

#[test]
fn files_go_with_their_family(rt: HostRuntime) -> Result<(), Fail> {
    expect(
        &rt,
        rt.alloc(),
        &[
            (Deed::Create("cold"), "ok create 1"),
            (Deed::Put("cold", "a", "1"), "ok put 1"),
            (Deed::Flush("cold"), "ok flush file 1 from 0 to 1"),
            (Deed::Flush("cold"), "refused 16 NothingToFlush"),
            (Deed::Get("cold", "a"), "found 1 cut 1 sv 4"),
            (Deed::Hold, "ok hold 1"),
            (Deed::Live, "ok live 1"),
            (Deed::Purge, "refused 14 Disabled 1"),
            (Deed::Unhold, "ok unhold 0"),
            (Deed::Purge, "ok purge"),
            (Deed::Drop("cold"), "ok drop"),
            (Deed::Release("cold"), "ok release"),
            (Deed::Purge, "ok purge 1"),
        ],
    )
}
