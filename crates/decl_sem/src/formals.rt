//! The rows of a procedure type.
ghost use Rattle.std.specs.Prelude.{flat_map};
ghost use Rattle.m2_base.specs.Statics.Makes.{make_then, makes_row};
ghost use Rattle.m2_base.specs.Statics.ProcedureTypes.{formal_rows, parameter_type as spec_type};
ghost use Rattle.m2_base.specs.Statics.Shapes.{formal_shapes};
ghost use Rattle.m2_base.specs.declared.rows.RowMeaning.TheVariants as meanings;
ghost use Rattle.decl_sem.specs.Pieces.{Declares, IsAny, IsBehind, IsMaking};
ghost use Rattle.m2_base.specs.Statics.ReadTrees.{AreReadFormals, IsReadQual};

use crate::making::{Made, put_plain};
use crate::section_rows::parameter_type;
use m2_base::{Ask, Formal, Memory, Place, RowMeaning, Scopes, Site};

/// A parameter of a procedure type whose row has this ordinal.
pub(crate) fn formal_in<S: Scopes>(
    scopes: &mut S,
    site: &Site,
    own: u32,
    formal: &Formal,
    made: &mut Made,
) -> Result<Ask<Place>, Memory>
    requires making { IsMaking (S.state scopes.old).frame site.now made.old (formal_shapes formal.now) }
    requires read { IsReadQual site.now.texts.now.names formal.now.of }
    ensures { Declares (S.state scopes.old) (S.state scopes.new) made.old made.new site.now result
        (formal_shapes formal.now) IsBehind (λ c. make_then c (spec_type c formal.now.is_open formal.now.of)
        (λ d t. makes_row d formal.now.of.first.at (meanings.Param t formal.now.by_ref own))) }
{
    let of = analysed!(parameter_type(scopes, site, made, formal.is_open, formal.of));
    let meaning = RowMeaning::Param(of, formal.by_ref, own);
    let row = put!(put_plain(site, made, formal.of.first.at, meaning));
    Ok(Ask::Known(row))
}

/// The parameters of a procedure type whose row has this ordinal.
pub(crate) fn formals_in<S: Scopes>(
    scopes: &mut S,
    site: &Site,
    own: u32,
    formals: &[Formal],
    made: &mut Made,
) -> Result<Ask<()>, Memory>
    requires making { IsMaking (S.state scopes.old).frame site.now made.old (flat_map formal_shapes formals.now) }
    requires read { AreReadFormals site.now.texts.now.names formals.now }
    ensures { Declares (S.state scopes.old) (S.state scopes.new) made.old made.new site.now result
        (flat_map formal_shapes formals.now) IsAny (λ c. formal_rows c own formals.now) }
{
    for formal in formals {
        analysed!(formal_in(scopes, site, own, formal, made));
    }
    Ok(Ask::Known(()))
}
