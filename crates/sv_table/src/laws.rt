// Laws of tables, for all tables.
ghost use Rattle.std.specs.Prelude.{◌≡◌, ℕ, List};
ghost use Rattle.sv_model.specs.declared.writes.Kept.{Kept};
ghost use Rattle.sv_model.specs.declared.cuts.Bottom.{Bottom};
ghost use Rattle.sv_model.specs.TableText.{IsTextOf};

/// No two tables have a text in common, be it one that is written or an old one. So what `encode` writes is decoded
/// to that table alone.
pub fn one_text()
    ensures { (bytes : List ℕ) (from to other_from other_to : ℕ) (bottom other_bottom : Bottom) (rows other_rows : List Kept) → IsTextOf bytes from to bottom rows → IsTextOf bytes other_from other_to other_bottom other_rows
        → (from ≡ other_from) × (to ≡ other_to) × (bottom ≡ other_bottom) × (rows ≡ other_rows) }
{}
