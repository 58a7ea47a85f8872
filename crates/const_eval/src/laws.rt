//! Laws on the definitions, each the contract of a function that does nothing.
ghost use Rattle.std.specs.Prelude.{◌≡◌, ◌≢◌, [], None};
ghost use Rattle.m2_base.specs.Lists.{Each};
ghost use Rattle.m2_base.specs.Standard.{broken};
ghost use Rattle.m2_base.specs.Statics.Constants.{constant_of, designator_in, operand_in};
ghost use Rattle.m2_base.specs.Statics.Contexts.{Context};
ghost use Rattle.m2_base.specs.Statics.Types.{meaning_at};
ghost use Rattle.m2_base.specs.Trees.{Designator, Expr};
ghost use Rattle.m2_base.specs.declared.operands.Operand.TheVariants.{InError};
ghost use Rattle.m2_base.specs.declared.rows.RowMeaning.TheVariants.{Broken};
ghost use Rattle.const_eval.specs.Causes.{IsSoundUse, IsWholeUse};
ghost use Rattle.const_eval.specs.Standard.{HasStandardRows};

/// What isn't in error was refused nowhere, and no constant comes out where a diagnostic is noted. What is no constant
/// is in no error: it is noted of a whole expression alone. It is asked that the row of the type of parts in error is
/// where it belongs: were it that of a set or of an ordinal type,
/// what gets that type after a refusal would pass for a value.
pub fn diagnostics_leave_nothing()
    ensures expressions { (c : Context) (e : Expr) → meaning_at c.scene broken ≡ Broken
        → (operand_in c e).value ≢ InError → (operand_in c e).diags ≡ [] }
    ensures designators { (c : Context) (d : Designator) → meaning_at c.scene broken ≡ Broken
        → (designator_in c d).value ≢ InError → (designator_in c d).diags ≡ [] }
    ensures constants { (c : Context) (e : Expr) → meaning_at c.scene broken ≡ Broken → (constant_of c e).value ≢ None
        → (constant_of c e).diags ≡ [] }
{}

/// Where no constant comes out, there is a cause of it: a diagnostic was noted, or a row that is used has a part in
/// error. And where one comes out, no row that is used is in error. A set's type whose base is in error has a part in
/// error, but isn't in error itself: there are no sets of it, and it has a size.
/// It is asked that the standard rows are where they belong.
pub fn missing_constants_have_a_cause()
    ensures caused { (c : Context) (e : Expr) → HasStandardRows c → (constant_of c e).value ≡ None
        → Each (IsWholeUse c.scene) (constant_of c e).answers → (constant_of c e).diags ≢ [] }
    ensures unspoilt { (c : Context) (e : Expr) → meaning_at c.scene broken ≡ Broken → (constant_of c e).value ≢ None
        → Each (IsSoundUse c.scene) (constant_of c e).answers }
{}
