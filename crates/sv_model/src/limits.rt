// How much there may be of each thing.

/// How many families are made at most, dropped ones included.
pub const MAX_FAMILIES: usize = 16;

/// How many lanes there are at most.
pub const MAX_LANES: u8 = 32;

/// How many writes are accepted at most.
pub const MAX_WRITES: usize = 262_144;

/// How many rows a memtable has at most.
pub const MAX_ROWS: u32 = 65_536;

/// How many memtables are Live at most: each stands in a cell of its own.
pub const MAX_CELLS: usize = 64;

/// How many SuperVersions are made at most.
pub const MAX_SUPERS: u64 = 1_048_576;

/// How many SuperVersions are Live at most: each stands at a place of its own.
pub const MAX_PLACES: usize = 256;

/// How many snapshots are taken at most.
pub const MAX_SNAPSHOTS: usize = 1_048_576;

/// How many snapshots are Live at most.
pub const MAX_SNAPSHOTS_LIVE: usize = 64;

/// How many file numbers are captured at most.
pub const MAX_CAPTURED: usize = 1_048_576;

/// How many holds a lane has at most.
pub const MAX_HOLDS: u8 = 255;

/// How many jobs are under way at most: each lane has one.
pub const MAX_JOBS: u32 = 32;
