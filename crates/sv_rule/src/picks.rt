// What a step is about, where its words alone do not tell it. Each call picks it.
ghost use Rattle.std.specs.Prelude.{ℕ, List, []};
ghost use Rattle.sv_model.specs.declared.writes.Write.{Write};
ghost use Rattle.sv_model.specs.Books.{Books};
ghost use Rattle.sv_rule.specs.Blanks.{bare_task, no_bodied, no_books, no_desk};
ghost use Rattle.sv_rule.specs.Views.{Bodied, Desk, FileRead};
ghost use Rattle.sv_model.specs.Tasks.{Task};

use std::marker::Brand;

/// A SuperVersion, by its pack.
pub trait Named {
    ghost pack: { ℕ };
}

impl Named for Brand {
    ghost pack = { 0 };
}

/// A family.
pub trait Placed {
    ghost family: { ℕ };
}

impl Placed for Brand {
    ghost family = { 0 };
}

/// How much a step adds to a count of the lane.
pub trait Counting {
    ghost count: { ℕ };
}

impl Counting for Brand {
    ghost count = { 0 };
}

/// A SuperVersion with its body.
pub trait Embodied {
    ghost bodied: { Bodied };
}

impl Embodied for Brand {
    ghost bodied = { no_bodied };
}

/// What the books have of the lane's own after the step.
pub trait Tasked {
    ghost task: { Task };
}

impl Tasked for Brand {
    ghost task = { bare_task [] };
}

/// A SuperVersion that is made, and the books in hand before and after.
pub trait Creates {
    ghost family: { ℕ };

    ghost bodied: { Bodied };

    ghost books: { Books };

    ghost task: { Task };

    ghost desk: { Desk };
}

impl Creates for Brand {
    ghost family = { 0 };

    ghost bodied = { no_bodied };

    ghost books = { no_books };

    ghost task = { bare_task [] };

    ghost desk = { no_desk };
}

/// A SuperVersion that becomes Gone, the cells that it leaves, and the books in hand before and after.
pub trait Cleans {
    ghost pack: { ℕ };

    ghost books: { Books };

    ghost task: { Task };

    ghost cells: { List ℕ };

    ghost desk: { Desk };
}

impl Cleans for Brand {
    ghost pack = { 0 };

    ghost books = { no_books };

    ghost task = { bare_task [] };

    ghost cells = { [] };

    ghost desk = { no_desk };
}

/// The family of a work, and the desk of the lane.
pub trait Begun {
    ghost family: { ℕ };

    ghost desk: { Desk };
}

impl Begun for Brand {
    ghost family = { 0 };

    ghost desk = { no_desk };
}

/// A family whose current ends, and the books in hand before and after.
pub trait Ends {
    ghost family: { ℕ };

    ghost books: { Books };

    ghost task: { Task };

    ghost desk: { Desk };
}

impl Ends for Brand {
    ghost family = { 0 };

    ghost books = { no_books };

    ghost task = { bare_task [] };

    ghost desk = { no_desk };
}

/// A family, its new current, and the bodies of the old one.
pub trait Swaps {
    ghost family: { ℕ };

    ghost pack: { ℕ };

    ghost olds: { List Bodied };

    ghost desk: { Desk };
}

impl Swaps for Brand {
    ghost family = { 0 };

    ghost pack = { 0 };

    ghost olds = { [] };

    ghost desk = { no_desk };
}

/// How far a sweep is: its family, the old pack, the lane in turn, and the references taken.
pub trait At {
    ghost desk: { Desk };

    ghost family: { ℕ };

    ghost old: { ℕ };

    ghost lane: { ℕ };

    ghost taken: { ℕ };
}

impl At for Brand {
    ghost desk = { no_desk };

    ghost family = { 0 };

    ghost old = { 0 };

    ghost lane = { 0 };

    ghost taken = { 0 };
}

/// A cell.
pub trait Celled {
    ghost cell: { ℕ };
}

impl Celled for Brand {
    ghost cell = { 0 };
}

/// The family and the cut of a read.
pub trait Cuts {
    ghost family: { ℕ };

    ghost cut: { ℕ };
}

impl Cuts for Brand {
    ghost family = { 0 };

    ghost cut = { 0 };
}

/// A cell that is given by the lane that has the DB lock, and the books in hand before and after.
pub trait Writes {
    ghost desk: { Desk };

    ghost cell: { ℕ };

    ghost books: { Books };

    ghost task: { Task };

    ghost more: { List Write };

    ghost family: { ℕ };

    ghost seen: { ℕ };
}

impl Writes for Brand {
    ghost desk = { no_desk };

    ghost cell = { 0 };

    ghost books = { no_books };

    ghost task = { bare_task [] };

    ghost more = { [] };

    ghost family = { 0 };

    ghost seen = { 0 };
}

/// What the lane did to the directory while it had its lock.
pub trait Reports {
    ghost task: { Task };

    ghost reads: { List FileRead };

    ghost names: { List (List ℕ) };

    ghost lists: { ℕ };

    ghost rise: { ℕ };
}

impl Reports for Brand {
    ghost task = { bare_task [] };

    ghost reads = { [] };

    ghost names = { [] };

    ghost lists = { 0 };

    ghost rise = { 0 };
}
