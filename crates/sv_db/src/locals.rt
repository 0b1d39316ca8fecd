// A database and what each of its lanes has of it.
ghost use Rattle.std.specs.Prelude.{None, replicate, ◌≡◌};
ghost use Rattle.sv_db.specs.Opening.{first_handles};
ghost use Rattle.sv_model.specs.Families.{default_name};

use sv_borrows::{Database, Seat, Table};
use sv_dir::Dir;
use sv_model::{Name, SvRef};
use sv_objects::Body;
use sv_rule::Parts;

/// How many pins a lane may have.
pub const MAX_PINS: usize = 16;

/// A database, which its lanes share.
#[derive(Drop)]
pub struct Db<D: Dir + Drop>
where
    Database<D>: Parts,
{
    pub(crate) core: Table<D>,
    pub(crate) lanes: u8,
}

/// What one lane has of a database: its seat at the table; by family, the name of each of which it has a handle; and by
/// number, its pins.
#[derive(Drop)]
pub struct Local<D: Dir + Drop>
where
    Database<D>: Parts,
{
    pub(crate) lane: u8,
    pub(crate) seat: Seat<D>,
    pub(crate) handles: [Option<Name>; 16],
    pub(crate) pins: [Option<SvRef<Body>>; 16],
}

fn default_name() -> Name
    ensures { result ≡ default_name }
{
    let Some(name) = Name::new(b"default") else {
        unreachable!()
    };
    name
}

// A handle of the first family alone, which is `default`.
fn first_handles() -> [Option<Name>; 16]
    ensures { result ≡ first_handles }
{
    let first = Some(default_name());
    [
        first, None, None, None, None, None, None, None, None, None, None, None, None, None, None,
        None,
    ]
}

fn no_pins() -> [Option<SvRef<Body>>; 16]
    ensures { result ≡ replicate 16 None }
{
    [
        None, None, None, None, None, None, None, None, None, None, None, None, None, None, None,
        None,
    ]
}

impl<D: Dir + Drop> Local<D> {
    // The lane of this number as a database opens.
    pub(crate) fn new(lane: u8, seat: Seat<D>) -> Local<D>
        ensures { (result.lane ≡ lane) × (result.seat ≡ seat) × (result.handles ≡ first_handles) × (result.pins ≡ replicate 16 None) }
    {
        Local {
            lane,
            seat,
            handles: first_handles(),
            pins: no_pins(),
        }
    }
}
