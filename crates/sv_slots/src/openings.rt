// The table at its opening, with the seats of its lanes.
ghost use Rattle.std.specs.Prelude.{◌≡◌, ◌<◌, ◌≤◌, ◌+◌, ◌++◌, [], IfErr, IfOk, length, map, replicate, vec_capacity, vec_len};
ghost use Rattle.sv_rule.specs.Begins.{FirstBooks, FirstWords};
ghost use Rattle.sv_rule.specs.Blanks.{new_view};
ghost use Rattle.sv_slots.specs.Known.{CameWith, table_of, view_of};
ghost use Rattle.sv_slots.specs.Openings.{AreOpened, AreOthers, FirstCells, IsFirstWord, StartsWith, first_slots};

use crate::counters::Counts;
use crate::refs::COUNTS;
use crate::table::{Core, LaneSeat};
use arrayvec::ArrayVec;
use atomic_table::{Refused, Table};
use std::alloc::{AllocError, Global};
use std::snapshot::Snapshot;
use sv_rule::{Opening, Parts, Stored, StoredOf};

const WORDS: usize = 851;

const SLOTS: usize = 578;

/// There was no memory. The state and the directory come back.
#[derive(Drop)]
pub struct CoreError<P: Parts> {
    pub state: P::State,
    pub dir: P::Dir,
}

/// The memory of an opening: the words, and room for the slots and for the seats.
struct Room<P: Parts> {
    words: Vec<u64>,
    slots: Vec<StoredOf<P>>,
    seats: Vec<LaneSeat<P>>,
}

fn first_word(families: usize, index: usize) -> u64
    requires { families ≤ 16 }
    ensures { IsFirstWord families index result }
{
    if 66 <= index && index < 66 + families {
        return (index - 65) as u64 * 256 + (index - 66) as u64;
    }
    if 83 <= index && index < 83 + families {
        return (index - 82) as u64 * COUNTS + 1;
    }
    0
}

fn first_words(alloc: Global, families: usize) -> Result<Vec<u64>, AllocError>
    requires { families ≤ 16 }
    ensures { IfOk result (λ v. FirstWords families v.items) }
{
    let mut words = Vec::new(alloc);
    for index in 0..WORDS {
        words.push(first_word(families, index))?;
    }
    Ok(words)
}

fn make_room<P: Parts>(alloc: Global, families: u8, lanes: u8) -> Result<Room<P>, AllocError>
    requires { families ≤ 16 }
    ensures words { IfOk result (λ r. FirstWords families r.words.items) }
    ensures slots { IfOk result (λ r. (r.slots.items ≡ []) × (578 ≤ vec_capacity r.slots)) }
    ensures seats { IfOk result (λ r. (r.seats.items ≡ []) × (lanes ≤ vec_capacity r.seats)) }
{
    let words = first_words(alloc, usize::from(families))?;
    let slots = Vec::with_capacity(alloc, SLOTS)?;
    let seats = Vec::with_capacity(alloc, usize::from(lanes))?;
    Ok(Room {
        words,
        slots,
        seats,
    })
}

fn lay_cells<S: Drop, D: Drop, C: Drop, B: Drop>(
    slots: &mut Vec<Stored<S, D, C, B>>,
    mut cells: Vec<C>,
)
    requires room { vec_len slots.old + vec_len cells ≤ vec_capacity slots.old }
    ensures items { slots.new.items ≡ slots.old.items ++ map (λ c. Stored.Cell c) cells.items }
    ensures len { vec_len slots.new ≡ vec_len slots.old + vec_len cells }
    ensures room { vec_capacity slots.new ≡ vec_capacity slots.old }
{
    while !cells.is_empty() {
        let cell = cells.remove(0);
        slots.push_reserved(Stored::Cell(cell));
    }
}

fn lay_nothing<S: Drop, D: Drop, C: Drop, B: Drop>(
    slots: &mut Vec<Stored<S, D, C, B>>,
    count: usize,
)
    requires room { vec_len slots.old + count ≤ vec_capacity slots.old }
    ensures items { slots.new.items ≡ slots.old.items ++ replicate count Stored.Nothing }
{
    let mut left = count;
    while left > 0 {
        slots.push_reserved(Stored::Nothing);
        left -= 1;
    }
}

// The slots at the opening.
fn lay<S: Drop, D: Drop, C: Drop, B: Drop>(
    slots: &mut Vec<Stored<S, D, C, B>>,
    state: S,
    dir: D,
    cells: Vec<C>,
)
    requires empty { slots.old.items ≡ [] }
    requires room { (vec_len cells ≡ 64) × (578 ≤ vec_capacity slots.old) }
    ensures { slots.new.items ≡ first_slots state dir cells.items }
{
    slots.push_reserved(Stored::State(state));
    slots.push_reserved(Stored::Dir(dir));
    lay_cells(slots, cells);
    lay_nothing(slots, 512);
}

fn take_back<P: Parts>(
    _about: &Opening<P::State, P::Dir>,
    mut slots: Vec<StoredOf<P>>,
) -> CoreError<P>
    requires { StartsWith _about.now.state.value _about.now.dir.value slots.items }
    ensures { (result.state ≡ _about.now.state.value) × (result.dir ≡ _about.now.dir.value) }
{
    let Stored::State(state) = slots.remove(0) else {
        unreachable!()
    };
    let Stored::Dir(dir) = slots.remove(0) else {
        unreachable!()
    };
    CoreError { state, dir }
}

impl<P: Parts> Core<P> {
    // The seats of all lanes, made by that of lane 0.
    fn seat_lanes(
        &self,
        mut first: LaneSeat<P>,
        lanes: u8,
        mut seats: Vec<LaneSeat<P>>,
    ) -> Vec<LaneSeat<P>>
        requires table { (CameWith (table_of self.now) first) × (first.lane ≡ 0) }
        requires first { view_of first ≡ new_view 0 lanes 1 (view_of first).known.start }
        requires room { (seats.items ≡ []) × (0 < lanes) × (lanes ≤ 32) × (lanes ≤ vec_capacity seats) }
        ensures { AreOpened (table_of self.now) lanes (view_of first).known.start result.items }
    {
        for lane in 1..lanes {
            let other = self.split(&mut first, lane);
            seats.push_reserved(other);
        }
        let Ok(()) = seats.insert(0, first) else {
            unreachable!()
        };
        seats
    }

    /// The table of a database that begins with these books, of so many families, and the seats of its lanes.
    pub fn new(
        alloc: Global,
        lanes: u8,
        families: u8,
        state: P::State,
        dir: P::Dir,
        cells: Vec<P::Cell>,
    ) -> Result<(Core<P>, Vec<LaneSeat<P>>), CoreError<P>>
        requires lanes { (0 < lanes) × (lanes ≤ 32) }
        requires books { (families ≡ length (P.books state).families) × FirstBooks (P.books state) (P.disk dir) }
        requires cells { FirstCells P.cell families cells.items }
        ensures ok { IfOk result (λ t. AreOpened (table_of t.0) lanes (record { disk = P.disk dir; books = P.books state }) t.1.items) }
        ensures err { IfErr result (λ e. (e.state ≡ state) × (e.dir ≡ dir)) }
    {
        let about = Opening {
            lanes,
            state: Snapshot::of(&state),
            dir: Snapshot::of(&dir),
        };
        let Ok(
            Room {
                words,
                mut slots,
                seats,
            },
        ) = make_room::<P>(alloc, families, lanes)
        else {
            return Err(CoreError { state, dir });
        };
        lay(&mut slots, state, dir, cells);
        match Table::new(alloc, words.as_slice(), slots, &about) {
            Ok((table, seat)) => {
                let core = Core { table };
                let first = LaneSeat {
                    lane: 0,
                    seat,
                    out: ArrayVec::new(),
                    counts: Counts::none(),
                };
                let seats = core.seat_lanes(first, lanes, seats);
                Ok((core, seats))
            }
            Err(Refused { slots }) => Err(take_back::<P>(&about, slots)),
        }
    }
}
