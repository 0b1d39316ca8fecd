// The commands of a script.
use sv_model::{Items, Name, OptionName};

/// A command of a lane. Keys and values are the bytes of its items, of any length; a family is one that the lane has a
/// handle of under this name.
#[derive(Drop, Debug)]
pub enum Command {
    Put {
        family: Name,
        key: Items<u8>,
        value: Items<u8>,
    },
    Delete {
        family: Name,
        key: Items<u8>,
    },
    Get {
        family: Name,
        key: Items<u8>,
    },
    /// A get through the SuperVersion of a pin of the lane.
    Getp {
        pin: u64,
        key: Items<u8>,
    },
    Flush(Name),
    Compact(Name),
    Create(Name),
    Open(Name),
    Release(Name),
    Drop(Name),
    /// The value may be outside the option's range.
    Set {
        family: Name,
        option: OptionName,
        value: u64,
    },
    Pin(Name),
    Unpin(u64),
    Hold,
    Unhold,
    Live,
    Purge,
    Scan,
    Rest,
    Snap,
    /// A get at a snapshot, which any lane may have taken.
    Gets {
        snapshot: u64,
        family: Name,
        key: Items<u8>,
    },
    Unsnap(u64),
}
