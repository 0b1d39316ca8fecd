// The bytes of small files, worked out by hand from the rules of the formats.

/// Format 1: from 0 to 1, a put of `1` under the key `a`.
pub const PLAIN: [u8; 35] = [
    0x53, 0x56, 0x54, 0x41, 0x42, 0x4c, 0x45, 0x31, 0, 0, 0, 0, 0, 0, 0, 0, 1, 0, 0, 0, 0, 0, 0, 0,
    0, 1, 0, 0, 0, 1, 0x61, 1, 1, 0, 0x31,
];

/// Format 2: the same with nothing below it.
pub const LAST: [u8; 39] = [
    0x53, 0x56, 0x54, 0x41, 0x42, 0x4c, 0x45, 0x32, 0, 0, 0, 0, 0, 0, 0, 0, 1, 0, 0, 0, 0, 0, 0, 0,
    1, 1, 0, 0, 0, 1, 0x61, 1, 1, 0, 0x31, 1, 0x61, 1, 0x61,
];

/// Format 2: from 0 to 1, no row.
pub const EMPTY: [u8; 29] = [
    0x53, 0x56, 0x54, 0x41, 0x42, 0x4c, 0x45, 0x32, 0, 0, 0, 0, 0, 0, 0, 0, 1, 0, 0, 0, 0, 0, 0, 0,
    1, 0, 0, 0, 0,
];

/// Format 3: from 0 to 2 with the cut 1, under `a` a put of `2` up to 2 and a put of `1` up to 1.
pub const CUT: [u8; 52] = [
    0x53, 0x56, 0x54, 0x41, 0x42, 0x4c, 0x45, 0x33, 0, 0, 0, 0, 0, 0, 0, 0, 2, 0, 0, 0, 0, 0, 0, 0,
    0, 1, 1, 0, 0, 0, 0, 0, 0, 0, 2, 0, 0, 0, 1, 0x61, 1, 1, 1, 0, 0x32, 1, 0x61, 0, 1, 1, 0, 0x31,
];

/// Format 1, and nothing below it: from 2 to 9, a put of nothing under `a`, and of `xy` under `ab`. Such files were
/// once written.
pub const OLD: [u8; 42] = [
    0x53, 0x56, 0x54, 0x41, 0x42, 0x4c, 0x45, 0x31, 2, 0, 0, 0, 0, 0, 0, 0, 9, 0, 0, 0, 0, 0, 0, 0,
    1, 2, 0, 0, 0, 1, 0x61, 1, 0, 0, 2, 0x61, 0x62, 1, 2, 0, 0x78, 0x79,
];

/// The same in format 2, as it is written today.
pub const RENEWED: [u8; 47] = [
    0x53, 0x56, 0x54, 0x41, 0x42, 0x4c, 0x45, 0x32, 2, 0, 0, 0, 0, 0, 0, 0, 9, 0, 0, 0, 0, 0, 0, 0,
    1, 2, 0, 0, 0, 1, 0x61, 1, 0, 0, 2, 0x61, 0x62, 1, 2, 0, 0x78, 0x79, 1, 0x61, 2, 0x61, 0x62,
];

/// Format 1: from 0 to 3, a delete of `a`, and a put of `1` under `b`.
pub const DELETES: [u8; 38] = [
    0x53, 0x56, 0x54, 0x41, 0x42, 0x4c, 0x45, 0x31, 0, 0, 0, 0, 0, 0, 0, 0, 3, 0, 0, 0, 0, 0, 0, 0,
    0, 2, 0, 0, 0, 1, 0x61, 0, 1, 0x62, 1, 1, 0, 0x31,
];

/// Format 3, and nothing below it: from 1 to 9 with the cuts 3 and 6. Under `a` a delete up to 9, a delete up to 6
/// and a put of `1` up to 3; under `b` a put of `2` up to 6.
pub const COVERED: [u8; 68] = [
    0x53, 0x56, 0x54, 0x41, 0x42, 0x4c, 0x45, 0x33, 1, 0, 0, 0, 0, 0, 0, 0, 9, 0, 0, 0, 0, 0, 0, 0,
    1, 2, 3, 0, 0, 0, 0, 0, 0, 0, 6, 0, 0, 0, 0, 0, 0, 0, 4, 0, 0, 0, 1, 0x61, 2, 0, 1, 0x61, 1, 0,
    1, 0x61, 0, 1, 1, 0, 0x31, 1, 0x62, 1, 1, 1, 0, 0x32,
];
