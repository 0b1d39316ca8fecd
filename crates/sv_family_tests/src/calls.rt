// The calls by name, for tables of tests.
use sv_family::Families;
use sv_model::{FamilyId, MAX_LANES, Name, OptionName, Options, Refusal};

#[derive(Clone, Copy)]
pub enum Call {
    Create,
    Find,
    Open,
    Release,
    Drop,
}

fn named(bytes: &[u8]) -> Result<Name, Refusal> {
    Name::new(bytes).ok_or(Refusal::NoFamily)
}

// What the lane is answered.
pub fn answer(
    families: &mut Families,
    lane: u8,
    call: Call,
    bytes: &[u8],
) -> Result<FamilyId, Refusal> {
    if lane >= MAX_LANES {
        return Err(Refusal::NoHold);
    }
    let name = named(bytes)?;
    match call {
        Call::Create => families.create(lane, &name),
        Call::Find => families.find(lane, &name),
        Call::Open => families.open_family(lane, &name),
        Call::Release => families.release(lane, &name),
        Call::Drop => families.drop_family(lane, &name),
    }
}

// What the lane is answered where it sets an option, if a look beforehand is answered the same.
pub fn set(
    families: &mut Families,
    lane: u8,
    bytes: &[u8],
    option: OptionName,
    value: u64,
) -> Result<FamilyId, Refusal> {
    if lane >= MAX_LANES {
        return Err(Refusal::NoHold);
    }
    let name = named(bytes)?;
    let looked = families.check_option(lane, &name, option, value);
    let answered = families.set_option(lane, &name, option, value);
    if looked != answered {
        return Err(Refusal::NoHold);
    }
    answered
}

// Whether the family of this id was made, is dropped, and has no handle any more.
pub fn may_retire(families: &Families, id: u8) -> bool {
    (id as usize) < families.len() && families.may_retire(FamilyId(id))
}

// The options of the family of this id; none where it was not made.
pub fn options(families: &Families, id: u8) -> Option<Options> {
    if id as usize >= families.len() {
        return None;
    }
    Some(families.options(FamilyId(id)))
}
