// What a lane knows.
ghost use Rattle.std.specs.Coded.{codes};
ghost use Rattle.std.specs.Borrow.{ftrue};
ghost use Rattle.sv_rule.specs.Views.{LaneView};
ghost use Rattle.sv_rule.specs.Codes.{files_code};

use std::marker::Model;

/// What a lane knows and has in hand. No value of it is made.
pub struct View {
    pub ghost it: { LaneView } by { Prim.hlevel (codes, files_code) },
}

impl Model for View {
    ghost Value = { LaneView };

    ghost coded = { Prim.hlevel (codes, files_code) };

    ghost view = { λ v. v.it };

    ghost also_owns = { λ _. ftrue };
}
