// How large a slot of the table is where the state, the directory and the cells lie in boxes.
use std::mem::size_of;
use sv_rule::Stored;

/// A value in a box, as wide as the state, the directory and the cells of a database.
type Boxed = Box<[u64; 64]>;

const _: () = prove!(size_of::<Stored<Boxed, Boxed, Boxed, [u64; 64]>>() <= 40);
