//! The rows of a procedure type.
ghost use Rattle.std.specs.Prelude.{◌≡◌, ◌<◌, ◌≤◌, ◌+◌, ◌^◌, ◌∷◌, [], length};
ghost use Rattle.m2_base.specs.Rows.{proc_type_kind};
ghost use Rattle.m2_base.specs.Statics.Makes.{make_then, makes_row, only_gives};
ghost use Rattle.m2_base.specs.Statics.ProcedureTypes.{formals_length, result_type};
ghost use Rattle.m2_base.specs.Statics.Shapes.{form_shapes, formal_shapes, nameless};
ghost use Rattle.m2_base.specs.Statics.TypeRows.{form_rows};
ghost use Rattle.m2_base.specs.Trees.{proc_type};
ghost use Rattle.m2_base.specs.declared.rows.RowMeaning.TheVariants as meanings;
ghost use Rattle.decl_sem.specs.Making.{next_ordinal};
ghost use Rattle.decl_sem.specs.Pieces.{Declares, IsBehind, IsMaking};
ghost use Rattle.m2_base.specs.Statics.ReadTrees.{AreReadFormals, IsReadQualOption};

use crate::formals::formals_in;
use crate::making::{Made, next_row, put_plain};
use crate::outcomes::result_in;
use m2_base::{Ask, Formal, Memory, Place, Qual, RowMeaning, Scopes, Site};

/// The number of rows of a parameter.
fn rows_of_formal(formal: &Formal) -> u32
    ensures { result ≡ length (formal_shapes formal.now) }
{
    if formal.is_open { 2 } else { 1 }
}

/// The ordinal of a procedure type's row, where the first of its parameters' rows has this one.
fn own_after(first: u32, formals: &[Formal]) -> u32
    requires { first + formals_length formals.now < 2 ^ 32 }
    ensures { result ≡ first + formals_length formals.now }
{
    let mut own = first;
    for formal in formals {
        own += rows_of_formal(formal);
    }
    own
}

/// The row of a procedure type with this result, behind its parameters.
pub(crate) fn proc_row<S: Scopes>(
    scopes: &mut S,
    site: &Site,
    at: u32,
    first: u32,
    count: u32,
    qual: Option<Qual>,
    made: &mut Made,
) -> Result<Ask<Place>, Memory>
    requires making { IsMaking (S.state scopes.old).frame site.now made.old (nameless proc_type_kind at ∷ []) }
    requires read { IsReadQualOption site.now.texts.now.names qual }
    requires first { first ≤ next_ordinal made.old }
    ensures { Declares (S.state scopes.old) (S.state scopes.new) made.old made.new site.now result
        (nameless proc_type_kind at ∷ []) IsBehind (λ c.
        make_then c (only_gives (result_type c qual)) (λ e r. makes_row e at (meanings.ProcType r count first))) }
{
    let of = analysed!(result_in(scopes, site, qual, made));
    let meaning = RowMeaning::ProcType(of, count, first);
    let row = put!(put_plain(site, made, at, meaning));
    Ok(Ask::Known(row))
}

/// Makes the rows of a procedure type.
pub(crate) fn proc_in<S: Scopes>(
    scopes: &mut S,
    site: &Site,
    at: u32,
    formals: &[Formal],
    qual: Option<Qual>,
    made: &mut Made,
) -> Result<Ask<Place>, Memory>
    requires making { IsMaking (S.state scopes.old).frame site.now made.old
        (form_shapes at (proc_type formals.now qual)) }
    requires formals { AreReadFormals site.now.texts.now.names formals.now }
    requires read { IsReadQualOption site.now.texts.now.names qual }
    ensures { Declares (S.state scopes.old) (S.state scopes.new) made.old made.new site.now result
        (form_shapes at (proc_type formals.now qual)) IsBehind (λ c. form_rows c at (proc_type formals.now qual)) }
{
    let first = next_row(made);
    let count = formals.len() as u32;
    let own = own_after(first, formals);
    analysed!(formals_in(scopes, site, own, formals, made));
    proc_row(scopes, site, at, first, count, qual, made)
}
