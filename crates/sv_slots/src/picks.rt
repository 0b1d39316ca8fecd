// What a call is about, where its words do not tell it. Each caller picks it.
ghost use Rattle.std.specs.Prelude.{List, [], ℕ};
ghost use Rattle.sv_rule.specs.Blanks.{bare_task};
ghost use Rattle.sv_rule.specs.Views.{Bodied};
ghost use Rattle.sv_model.specs.Tasks.{Task};

use std::marker::Brand;

/// What the books have of the lane's own after an install or a retirement, and the bodies of the old SuperVersion.
pub trait Installing {
    ghost task: { Task };

    ghost olds: { List Bodied };
}

impl Installing for Brand {
    ghost task = { bare_task [] };

    ghost olds = { [] };
}

/// What the books have of the lane's own after a cleanup, and the cells that are to be made vacant.
pub trait Settling {
    ghost task: { Task };

    ghost cells: { List ℕ };
}

impl Settling for Brand {
    ghost task = { bare_task [] };

    ghost cells = { [] };
}
