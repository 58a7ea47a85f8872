//! Laws on the definitions, each the contract of a function that does nothing.
ghost use Rattle.std.specs.Prelude.{◌≡◌, false, List, []};
ghost use Rattle.m2_base.specs.Standard.{broken};
ghost use Rattle.m2_base.specs.Statics.Contexts.{Context};
ghost use Rattle.m2_base.specs.Statics.Operands.{is_bad};
ghost use Rattle.m2_base.specs.Statics.Types.{meaning_at};
ghost use Rattle.m2_base.specs.Trees.{Designator, Expr, Exprs};
ghost use Rattle.m2_base.specs.declared.rows.Place.{Place};
ghost use Rattle.m2_base.specs.declared.rows.RowMeaning.TheVariants.{Broken};
ghost use Rattle.block_code.specs.Expressions.{call_alone, designated, expression, value};

/// What isn't in error was refused nowhere: where a diagnostic is noted, no operand comes out. It is asked that the
/// row of the type of parts in error is where it belongs: were it that of a set or of an ordinal type, what gets that
/// type after a refusal would pass for a value.
pub fn diagnostics_leave_nothing()
    ensures expressions { (c : Context) (withs : List Place) (e : Expr) → meaning_at c.scene broken ≡ Broken
        → is_bad (expression c withs e).value.operand ≡ false → (expression c withs e).diags ≡ [] }
    ensures values { (c : Context) (withs : List Place) (e : Expr) → meaning_at c.scene broken ≡ Broken
        → is_bad (value c withs e).value.operand ≡ false → (value c withs e).diags ≡ [] }
    ensures designators { (c : Context) (withs : List Place) (d : Designator) → meaning_at c.scene broken ≡ Broken
        → is_bad (designated c withs d).value.operand ≡ false → (designated c withs d).diags ≡ [] }
    ensures calls { (c : Context) (withs : List Place) (d : Designator) (args : Exprs) → meaning_at c.scene broken
        ≡ Broken → is_bad (call_alone c withs d args).value.operand ≡ false → (call_alone c withs d args).diags ≡ [] }
{}
