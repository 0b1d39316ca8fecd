// Families: made, opened, written, dropped and released.
use crate::bench::{Deed, expect};
use std::rt::HostRuntime;
use std::test::*;

#[test]
fn families_are_made_and_retired(rt: HostRuntime) -> Result<(), Fail> {
    expect(
        &rt,
        rt.alloc(),
        &[
            (Deed::Create("cold"), "ok create 1"),
            (Deed::Create("cold"), "refused 5 NameTaken"),
            (Deed::Open("cold"), "refused 8 AlreadyOpen"),
            (Deed::Open("warm"), "refused 7 NoFamily"),
            (Deed::Put("cold", "a", "1"), "ok put 1"),
            (Deed::Drop("cold"), "ok drop"),
            (Deed::Drop("cold"), "refused 11 Dropped"),
            (Deed::Put("cold", "a", "2"), "refused 11 Dropped"),
            (Deed::Get("cold", "a"), "found 1 cut 1 sv 2"),
            (Deed::Release("cold"), "ok release"),
            (Deed::Get("cold", "a"), "refused 7 NoFamily"),
            (Deed::Create("cold"), "ok create 2"),
            (Deed::Get("cold", "a"), "absent cut 0 sv 3"),
            (Deed::Drop("default"), "refused 10 IsDefault"),
            (Deed::Release("default"), "refused 10 IsDefault"),
        ],
    )
}
