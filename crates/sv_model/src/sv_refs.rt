// References to SuperVersions.
use crate::ids::Pack;
use std::sync::Arc;

/// A reference to a SuperVersion, with what all its references share. It is moved and never copied. Whether the
/// table counts it is a fact of the lane that has it.
#[derive(Drop)]
pub struct SvRef<B> {
    pub pack: Pack,
    pub body: Arc<B>,
}
