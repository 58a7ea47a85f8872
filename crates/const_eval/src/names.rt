//! What a name stands for that is bound to a row.
ghost use Rattle.std.specs.Prelude.{◌≡◌, ◌≢◌, ◌<◌, ◌^◌, if◌then◌else◌};
ghost use Rattle.std.specs.Option.{IfSome};
ghost use Rattle.m2_base.specs.Rows.{is_same_place, natural as spec_natural, row_meaning};
ghost use Rattle.m2_base.specs.Standard.{text_type};
ghost use Rattle.m2_base.specs.States.{Waits, fills_of};
ghost use Rattle.m2_base.specs.Statics.Constants.{name_operand as spec_name};
ghost use Rattle.m2_base.specs.Statics.NamedOperands.{is_in_error as spec_in_error};
ghost use Rattle.m2_base.specs.Statics.NamedOperands.{operand_by};
ghost use Rattle.m2_base.specs.Statics.Types.{is_broken as spec_broken};
ghost use Rattle.const_eval.specs.Analyses.{Analysed};
ghost use Rattle.const_eval.specs.Sites.{IsOperand};
ghost use Rattle.type_rules.specs.Asks.{Reads, WhereKnown, WhereWaiting};
ghost use Rattle.type_rules.specs.Scenes.{IsRowOf, IsThere, Suits, scene_of, WhereTold};
ghost use Rattle.type_rules.specs.Sites.{SuitsSite};

use crate::structures::is_broken;
use crate::values::in_constant;
use m2_base::{
    Around, Ask, Ident, Memory, Notes, Operand, Place, Row, RowMeaning, Scopes, Site, read_row,
};
use type_rules::{TEXT, stand, use_name};

/// Whether a type is that of parts in error, or an open array of such elements: a variable of it is in error. It waits
/// for the row of the type, and for that of the elements' type.
#[tactic(auto, using(type_rules::proofs::Reading::reading))]
pub fn is_in_error<S: Scopes>(scopes: &mut S, around: &Around, of: Place) -> Ask<bool>
    requires suits { Suits (S.state scopes.old).frame around.now }
    requires there { IsThere (S.state scopes.old).frame of }
    ensures reads { Reads (S.state scopes.old) (S.state scopes.new) }
    ensures waits { WhereWaiting result (λ head. Waits (S.state scopes.old) (S.state scopes.new) head) }
    ensures told { WhereTold (S.state scopes.old).frame (λ made.
        WhereKnown result (λ holds. holds ≡ spec_in_error (scene_of (S.state scopes.old).frame made around.now) of)) }
{
    if known!(is_broken(scopes, around, of)) {
        return Ask::Known(true);
    }
    let (_, meaning) = known!(stand(scopes, around, of));
    match meaning {
        RowMeaning::OpenArray(element) => is_broken(scopes, around, element),
        _ => Ask::Known(false),
    }
}

/// The operand of a constant's row whose type isn't in error: one of the type of strings is a string.
fn constant_operand(of: Place, value: i64, length: u32) -> Operand
    requires { of ≡ text_type → spec_natural value < 2 ^ 32 }
    ensures { result ≡ (if is_same_place of text_type then Operand.StringConstant (spec_natural value) length
        else Operand.Constant of value) }
{
    if of != TEXT {
        return Operand::Constant(of, value);
    }
    let name = if value < 0 { 0 } else { value as u32 };
    Operand::StringConstant(name, length)
}

/// An operand of this type, in error where the type is.
#[tactic(auto, using(type_rules::proofs::Reading::reading))]
fn unless_broken<S: Scopes>(
    scopes: &mut S,
    around: &Around,
    of: Place,
    operand: Operand,
) -> Ask<Operand>
    requires suits { Suits (S.state scopes.old).frame around.now }
    requires there { IsThere (S.state scopes.old).frame of }
    requires operand { IsOperand (S.state scopes.old).frame operand }
    ensures reads { Reads (S.state scopes.old) (S.state scopes.new) }
    ensures waits { WhereWaiting result (λ head. Waits (S.state scopes.old) (S.state scopes.new) head) }
    ensures told { WhereTold (S.state scopes.old).frame (λ made.
        WhereKnown result (λ given. given ≡ (if spec_broken (scene_of (S.state scopes.old).frame made around.now)
        of then Operand.InError else operand))) }
    ensures there { WhereKnown result (λ given. IsOperand (S.state scopes.old).frame given) }
{
    if known!(is_broken(scopes, around, of)) {
        Ask::Known(Operand::InError)
    } else {
        Ask::Known(operand)
    }
}

/// What a name stands for that is bound to this row at this place. A constant, a type or a variable is in error where
/// its type is, and so is every row that no expression can name. It waits for the type's row.
#[tactic(auto, using(type_rules::proofs::Reading::reading))]
pub fn operand_of<S: Scopes>(
    scopes: &mut S,
    around: &Around,
    place: Place,
    row: Row,
) -> Ask<Operand>
    requires suits { Suits (S.state scopes.old).frame around.now }
    requires row { IsRowOf (S.state scopes.old).frame place row }
    ensures reads { Reads (S.state scopes.old) (S.state scopes.new) }
    ensures waits { WhereWaiting result (λ head. Waits (S.state scopes.old) (S.state scopes.new) head) }
    ensures told { WhereTold (S.state scopes.old).frame (λ made.
        WhereKnown result (λ given.
        given ≡ operand_by (scene_of (S.state scopes.old).frame made around.now) row.name (row_meaning row))) }
    ensures there { WhereKnown result (λ given. IsOperand (S.state scopes.old).frame given) }
{
    let _place = place.scope;
    match read_row(&row) {
        RowMeaning::Const(of, value, length) => {
            unless_broken(scopes, around, of, constant_operand(of, value, length))
        }
        RowMeaning::TypeName(of) => unless_broken(scopes, around, of, Operand::NamedType(of)),
        RowMeaning::Var(of, _, _) => {
            if known!(is_in_error(scopes, around, of)) {
                Ask::Known(Operand::InError)
            } else {
                Ask::Known(Operand::Variable(of))
            }
        }
        RowMeaning::Proc(of, number, scope) => {
            Ask::Known(Operand::Procedure(row.name, of, number, scope))
        }
        RowMeaning::Module(scope) => Ask::Known(Operand::ModuleName(scope)),
        RowMeaning::Standard(name) => Ask::Known(Operand::StandardProcedure(name)),
        _ => Ask::Known(Operand::InError),
    }
}

/// What a name stands for in a constant; `within` is the scope of the module before its point, if there is one. Its
/// use is noted, or refused, and in error then; a variable is no constant. It waits for the name and its type.
pub fn name_operand<S: Scopes>(
    scopes: &mut S,
    site: &Site,
    within: Option<u32>,
    ident: Ident,
    notes: &mut Notes,
) -> Result<Ask<Operand>, Memory>
    requires suits { SuitsSite (S.state scopes.old).frame site.now }
    requires within { IfSome within (λ scope. scope < fills_of (S.state scopes.old)) }
    requires named { ident.name ≢ 0 }
    ensures { Analysed (S.state scopes.old) (S.state scopes.new) notes.old notes.new site.now result IsOperand
        (λ c. spec_name c within ident) }
{
    let bound = analysed!(use_name(scopes, site, within, ident.name, ident.at, notes));
    match bound {
        Some((place, row)) => match operand_of(scopes, site.around, place, row) {
            Ask::Known(operand) => Ok(Ask::Known(in_constant(operand))),
            Ask::DontKnowYet(head) => Ok(Ask::DontKnowYet(head)),
        },
        None => Ok(Ask::Known(Operand::InError)),
    }
}
