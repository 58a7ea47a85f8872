//! Laws on the code of expressions, each the contract of a function that does nothing.
ghost use Rattle.std.specs.Prelude.{◌≡◌, false, true, ℕ, List, [], ◌+◌};
ghost use Rattle.m2_base.specs.Statics.Contexts.{Context};
ghost use Rattle.m2_base.specs.Statics.Operands.{is_bad};
ghost use Rattle.m2_base.specs.Statics.ReadTrees.{AreReadExprs, IsReadDesignator, IsReadExpr};
ghost use Rattle.m2_base.specs.Trees.{Designator, Expr, Exprs};
ghost use Rattle.m2_base.specs.declared.rows.Place.{Place};
ghost use Rattle.block_code.specs.Coded.{value_code};
ghost use Rattle.block_code.specs.Expressions.{call_alone, designated, expression, value};
ghost use Rattle.m2_base.specs.declared.operands.Operand.TheVariants.{InError, NotConstant};
ghost use Rattle.block_code.specs.Heights.{IsAddressed, Moves};
ghost use Rattle.block_code.specs.Lengths.{IsShortFor};
ghost use Rattle.block_code.specs.Parts.{none};
ghost use Rattle.block_code.specs.Tokens.{designator_tokens, expr_tokens, exprs_tokens};
ghost use Rattle.block_code.specs.Whole.{AreWhole};

/// Wherever it stands, the code of a value leaves one operand more, and that of a variable its address; a call as a
/// statement leaves the height as it was. None takes what was there before, and its jumps stay in the code.
pub fn heights_are_right()
    ensures values { (c : Context) (withs : List Place) (e : Expr) → is_bad (value c withs e).value.operand ≡ false
        → Moves 0 (value_code c (value c withs e).value) 1 }
    ensures variables { (c : Context) (withs : List Place) (d : Designator)
        → IsAddressed (designated c withs d).value }
    ensures calls { (c : Context) (withs : List Place) (d : Designator) (args : Exprs)
        → is_bad (call_alone c withs d args).value.operand ≡ false → Moves 0 (call_alone c withs d args).value.code 0 }
{}

/// What an expression or a designator of a statement stands for is known, or it is in error: it is never what only a
/// constant expression can leave open.
pub fn operands_are_known()
    ensures expressions { (c : Context) (withs : List Place) (e : Expr)
        → (expression c withs e).value.operand ≡ NotConstant → ⊥ }
    ensures designators { (c : Context) (withs : List Place) (d : Designator)
        → (designated c withs d).value.operand ≡ NotConstant → ⊥ }
{}

/// A law: an expression or a designator in error has no code, and so takes no temporary cells and no data. What
/// follows it in its block stands where it would stand without it.
pub fn errors_have_no_code()
    ensures expressions { (c : Context) (withs : List Place) (e : Expr)
        → (expression c withs e).value.operand ≡ InError → (expression c withs e).value.code ≡ none }
    ensures values { (c : Context) (withs : List Place) (e : Expr) → (value c withs e).value.operand ≡ InError
        → (value c withs e).value.code ≡ none }
    ensures designators { (c : Context) (withs : List Place) (d : Designator)
        → (designated c withs d).value.operand ≡ InError → (designated c withs d).value.code ≡ none }
{}

/// A law: wherever it stands, the code of a value, of a variable or of a call alone has at most 64 bytes for each
/// token that its tree is made of (`specs/Tokens`). The law of this name in stmt_sem is on statements and blocks.
pub fn code_is_short()
    ensures values { (c : Context) (withs : List Place) (e : Expr)
        → IsShortFor (expr_tokens e) (value_code c (value c withs e).value) }
    ensures variables { (c : Context) (withs : List Place) (d : Designator)
        → IsShortFor (designator_tokens d) (designated c withs d).value.code }
    ensures calls { (c : Context) (withs : List Place) (d : Designator) (args : Exprs)
        → IsShortFor (designator_tokens d + exprs_tokens args) (call_alone c withs d args).value.code }
{}

/// What is in error was refused, where no row in sight has a part in error. The names in the trees aren't empty: rows
/// without a name are found by the empty one.
pub fn errors_have_a_cause()
    ensures expressions { (names : List (List ℕ)) (c : Context) (withs : List Place) (e : Expr) → AreWhole c.scene
        → IsReadExpr names e → is_bad (expression c withs e).value.operand ≡ true → (expression c withs e).diags ≡ []
        → ⊥ }
    ensures values { (names : List (List ℕ)) (c : Context) (withs : List Place) (e : Expr) → AreWhole c.scene
        → IsReadExpr names e → is_bad (value c withs e).value.operand ≡ true → (value c withs e).diags ≡ [] → ⊥ }
    ensures designators { (names : List (List ℕ)) (c : Context) (withs : List Place) (d : Designator)
        → AreWhole c.scene → IsReadDesignator names d → is_bad (designated c withs d).value.operand ≡ true
        → (designated c withs d).diags ≡ [] → ⊥ }
    ensures calls { (names : List (List ℕ)) (c : Context) (withs : List Place) (d : Designator) (args : Exprs)
        → AreWhole c.scene → IsReadDesignator names d → AreReadExprs names args
        → is_bad (call_alone c withs d args).value.operand ≡ true → (call_alone c withs d args).diags ≡ [] → ⊥ }
{}
