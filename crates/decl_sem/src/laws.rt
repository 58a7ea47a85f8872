//! A law on rows as a layout gives them, the contract of a function that does nothing.
ghost use Rattle.std.specs.Prelude.{List};
ghost use Rattle.m2_base.specs.Lists.{HasNoRepeats};
ghost use Rattle.m2_base.specs.Statics.Shapes.{Shape};
ghost use Rattle.m2_base.specs.declared.rows.Row.{Row};
ghost use Rattle.m2_base.specs.Statics.Contexts.{Layout};
ghost use Rattle.decl_sem.specs.LaidRows.{AreLaid};

/// Rows that are as a layout gives them have no name twice, in every unit.
pub fn laid_rows_differ()
    ensures { (layout : Layout) (shapes : List Shape) (rows : List Row) → AreLaid layout 0 shapes rows
        → HasNoRepeats (λ r. r.name) rows }
{}
