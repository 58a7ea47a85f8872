//! The row of a constant.
ghost use Rattle.std.specs.Prelude.{◌≡◌, ◌∷◌, []};
ghost use Rattle.m2_base.specs.Rows.{HasSmallNumbers, HasSmallOrdinals, const_kind};
ghost use Rattle.m2_base.specs.Statics.NameRows.{const_meaning as spec_meaning, const_rows as spec_rows};
ghost use Rattle.m2_base.specs.Statics.ReadTrees.{IsReadExpr, IsReadName};
ghost use Rattle.m2_base.specs.Statics.Shapes.{named};
ghost use Rattle.m2_base.specs.Views.{expr_view};
ghost use Rattle.decl_sem.specs.Pieces.{Declares, IsBehind, IsMaking, kind_number};

use crate::making::Made;
use crate::names::small_place;
use crate::putting::name_row;
use const_eval::constant;
use m2_base::{Ask, Expr, Ident, Memory, Operand, Place, RowMeaning, Scopes, Site};
use type_rules::{BROKEN, TEXT};

/// What the row of a constant says, by its operand. Without a constant its type is in error.
fn meaning_of(constant: Option<Operand>) -> RowMeaning
    ensures told { result ≡ spec_meaning constant }
    ensures kind { kind_number result ≡ const_kind }
    ensures ordinals { HasSmallOrdinals result }
    ensures numbers { HasSmallNumbers result }
{
    match constant {
        Some(Operand::Constant(of, value)) => RowMeaning::Const(small_place(of), value, 0),
        Some(Operand::StringConstant(text, length)) => RowMeaning::Const(TEXT, text as i64, length),
        _ => RowMeaning::Const(BROKEN, 0, 0),
    }
}

/// The row of a constant.
pub(crate) fn const_rows<S: Scopes>(
    scopes: &mut S,
    site: &Site,
    name: Ident,
    value: &Expr,
    made: &mut Made,
) -> Result<Ask<Place>, Memory>
    requires making { IsMaking (S.state scopes.old).frame site.now made.old (named const_kind name ∷ []) }
    requires read { IsReadExpr site.now.texts.now.names (expr_view value.now) }
    requires named { IsReadName site.now.texts.now.names name }
    ensures { Declares (S.state scopes.old) (S.state scopes.new) made.old made.new site.now result
        (named const_kind name ∷ []) IsBehind (λ c. spec_rows c name (expr_view value.now)) }
{
    let operand = analysed!(constant(scopes, site, value, &mut made.notes));
    let meaning = meaning_of(operand);
    let place = put!(name_row(scopes, site, made, name, meaning));
    Ok(Ask::Known(place))
}
