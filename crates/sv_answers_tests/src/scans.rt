// Scans: strays are removed, and what is left after a failure.
use crate::bench::{Deed, expect, expect_over};
use std::alloc::Global;
use std::rt::HostRuntime;
use std::test::*;
use sv_dir::{Dir, Fail as Failing, How, MemDir};

// A directory with two strays and two foreign files, of which these calls fail.
fn with_strays(alloc: Global, calls: &[u64]) -> Result<MemDir, Fail> {
    let mut files = Vec::new(alloc);
    for name in ["000001.sst", "1.sst", "000009.sst", "notes"] {
        files.push((String::from_str(alloc, name)?, b"x".to_vec(alloc)?))?;
    }
    let mut fails = Vec::new(alloc);
    for call in calls {
        fails.push(Failing {
            call: *call,
            how: How::Before,
        })?;
    }
    Ok(MemDir::new(alloc, files, fails)?)
}

#[test]
fn strays_are_removed_by_a_scan_alone(rt: HostRuntime) -> Result<(), Fail> {
    let mut dir = with_strays(rt.alloc(), &[])?;
    expect_over(
        &rt,
        rt.alloc(),
        &mut dir,
        10,
        &[
            (Deed::Put("default", "a", "1"), "ok put 1"),
            (Deed::Flush("default"), "ok flush file 10 from 0 to 1"),
            (Deed::Purge, "ok purge"),
            (Deed::Hold, "ok hold 1"),
            (Deed::Scan, "refused 14 Disabled 1"),
            (Deed::Unhold, "ok unhold 0"),
            (Deed::Scan, "ok scan 1 9"),
            (Deed::Scan, "ok scan"),
        ],
    )?;
    let mut left = String::new(rt.alloc());
    for name in dir.list()? {
        left.push_str(name.as_str())?;
        left.push_str(" ")?;
    }
    assert_eq!(rt; left.as_str(), "000010.sst 1.sst notes ");
    Ok(())
}

#[test]
fn a_failed_scan_may_be_tried_again(rt: HostRuntime) -> Result<(), Fail> {
    let mut dir = with_strays(rt.alloc(), &[1, 3])?;
    expect_over(
        &rt,
        rt.alloc(),
        &mut dir,
        10,
        &[
            (Deed::Scan, "refused 21 DirFault 0"),
            (Deed::Scan, "refused 21 DirFault 1"),
            (Deed::Purge, "ok purge 1"),
            (Deed::Scan, "ok scan"),
        ],
    )
}

#[test]
fn an_empty_directory_has_no_strays(rt: HostRuntime) -> Result<(), Fail> {
    expect(&rt, rt.alloc(), &[(Deed::Scan, "ok scan")])
}
