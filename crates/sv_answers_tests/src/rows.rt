// Rows, and the options by which memtables switch.
use crate::bench::{Deed, expect};
use std::rt::HostRuntime;
use std::test::*;

#[test]
fn the_newest_row_is_read(rt: HostRuntime) -> Result<(), Fail> {
    expect(
        &rt,
        rt.alloc(),
        &[
            (Deed::Get("default", "a"), "absent cut 0 sv 1"),
            (Deed::Put("default", "a", "1"), "ok put 1"),
            (Deed::Put("default", "", "1"), "refused 1 KeyLength 0"),
            (Deed::Get("default", "a"), "found 1 cut 1 sv 1"),
            (Deed::Delete("default", "a"), "ok delete 2"),
            (Deed::Get("default", "a"), "absent cut 2 sv 1"),
        ],
    )
}

#[test]
fn a_full_memtable_is_frozen(rt: HostRuntime) -> Result<(), Fail> {
    expect(
        &rt,
        rt.alloc(),
        &[
            (Deed::Rows("default", 1), "ok set sv 2"),
            (Deed::Lists("default", 1), "ok set sv 3"),
            (Deed::Lists("default", 9), "refused 12 BadOption 9 1 8"),
            (Deed::Put("default", "a", "1"), "ok put 1"),
            (Deed::Put("default", "b", "2"), "ok put 2"),
            (Deed::Put("default", "c", "3"), "refused 15 Stalled"),
            (Deed::Get("default", "a"), "found 1 cut 2 sv 4"),
        ],
    )
}
