// With ample memory the calls succeed, and a release costs no more however many were made.
use crate::follow::lists_follow;
use crate::many::{many_lists, many_versions};

#[test]
fn many(rt: HostRuntime) {
    assert!(rt; many_lists(rt.alloc()).is_ok());
    assert!(rt; many_versions(rt.alloc()).is_ok());
}

#[test]
fn follow(rt: HostRuntime) {
    assert!(rt; matches!(lists_follow(rt.alloc()), Ok(1)));
}
