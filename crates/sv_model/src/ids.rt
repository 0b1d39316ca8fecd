// The ids of objects. Contracts see each as its number; ids of registers begin at 1, families at 0.
ghost use Rattle.std.specs.Prelude.{ℕ, ◌+◌, ◌*◌, ◌/◌, ◌%◌, ◌<◌};

use std::marker::Model;

/// A column family, 0 to 15; 0 is `default`. Never used again for another family.
#[derive(Clone, Copy, Debug, Default, PartialEq, Eq)]
pub struct FamilyId(pub u8);

impl Model for FamilyId {
    ghost Value = { ℕ };

    ghost view = { λ id. id.0 };

    ghost inverse = { λ n. record { 0 = n } };
}

/// A memtable, from 1.
#[derive(Clone, Copy, Debug, Default, PartialEq, Eq)]
pub struct MemId(pub u32);

impl Model for MemId {
    ghost Value = { ℕ };

    ghost view = { λ id. id.0 };

    ghost inverse = { λ n. record { 0 = n } };
}

/// A list of immutable memtables, from 1.
#[derive(Clone, Copy, Debug, Default, PartialEq, Eq)]
pub struct ListId(pub u32);

impl Model for ListId {
    ghost Value = { ℕ };

    ghost view = { λ id. id.0 };

    ghost inverse = { λ n. record { 0 = n } };
}

/// A Version, which is a list of table files, from 1.
#[derive(Clone, Copy, Debug, Default, PartialEq, Eq)]
pub struct VersionId(pub u32);

impl Model for VersionId {
    ghost Value = { ℕ };

    ghost view = { λ id. id.0 };

    ghost inverse = { λ n. record { 0 = n } };
}

/// The serial of a SuperVersion, from 1. Never used again.
#[derive(Clone, Copy, Debug, Default, PartialEq, Eq)]
pub struct SvSerial(pub u32);

impl Model for SvSerial {
    ghost Value = { ℕ };

    ghost view = { λ id. id.0 };

    ghost inverse = { λ n. record { 0 = n } };
}

/// The number of a table file, from 1.
#[derive(Clone, Copy, Debug, Default, PartialEq, Eq)]
pub struct FileNumber(pub u64);

impl Model for FileNumber {
    ghost Value = { ℕ };

    ghost view = { λ id. id.0 };

    ghost inverse = { λ n. record { 0 = n } };
}

/// A SuperVersion with the place of its reference word. Contracts see it as `serial * 256 + place`,
/// the word by which the table knows it.
#[derive(Clone, Copy, Debug, Default, PartialEq, Eq)]
pub struct Pack {
    pub serial: SvSerial,
    pub place: u8,
}

impl Model for Pack {
    ghost Value = { ℕ };

    ghost view = { λ p. p.serial * 256 + p.place };

    ghost invariant = { λ p. p.place < 256 };

    ghost inverse = { λ n. record { serial = n / 256; place = n % 256 } };
}
