//! The variables of parameters in the procedure's own scope.
ghost use Rattle.std.specs.Prelude.{◌≡◌, ◌∷◌, [], map};
ghost use Rattle.m2_base.specs.Rows.{var_kind};
ghost use Rattle.m2_base.specs.Statics.HeadingRows.{parameter_row, parameter_rows};
ghost use Rattle.m2_base.specs.Statics.ProcedureTypes.{is_structured as spec_structured};
ghost use Rattle.m2_base.specs.Statics.ReadTrees.{AreReadNames, IsReadName};
ghost use Rattle.m2_base.specs.Statics.Shapes.{named};
ghost use Rattle.m2_base.specs.Statics.Types.{size_by, size_of};
ghost use Rattle.m2_base.specs.Views.{section_view};
ghost use Rattle.decl_sem.specs.Making.{next_ordinal};
ghost use Rattle.decl_sem.specs.OwnParameters.{AreCells, IsPlaced, open_row, placed_row, ref_row, value_row};
ghost use Rattle.decl_sem.specs.Pieces.{Declares, IsBehind, IsMaking, known_of};

use crate::making::Made;
use crate::outcomes::is_structured;
use crate::placings::Placing;
use crate::putting::name_row;
use crate::standing::stand_in;
use m2_base::{Ask, Ident, Memory, Mode, Place, RowMeaning, Scopes, Section, Site};

/// The cells of a type by what its row says.
fn cells_by(meaning: RowMeaning) -> u32
    ensures { result ≡ size_by meaning }
{
    match meaning {
        RowMeaning::Array(_, _, size) | RowMeaning::Record(_, size) => size,
        _ => 1,
    }
}

/// The variable of a parameter in this cell. The value is where the next parameter is.
fn put_parameter<S: Scopes>(
    scopes: &S,
    site: &Site,
    made: &mut Made,
    name: Ident,
    of: Place,
    mode: Mode,
    cell: u32,
    next: Placing,
) -> Result<Placing, Memory>
    requires making { IsMaking (S.state scopes.now).frame site.now made.old (named var_kind name ∷ []) }
    requires of { IsBehind (S.state scopes.now).frame (next_ordinal made.old) of }
    requires read { IsReadName site.now.texts.now.names name }
    requires cells { AreCells next }
    ensures { Declares (S.state scopes.now) (S.state scopes.now) made.old made.new site.now (known_of result)
        (named var_kind name ∷ []) IsPlaced (placed_row name of mode cell next) }
{
    let meaning = RowMeaning::Var(of, mode, cell);
    match name_row(scopes, site, made, name, meaning) {
        Ok(_) => Ok(next),
        Err(memory) => Err(memory),
    }
}

/// A VAR parameter: an open array in two cells, any other by its address.
fn put_by_ref<S: Scopes>(
    scopes: &S,
    site: &Site,
    made: &mut Made,
    is_open: bool,
    name: Ident,
    of: Place,
    from: Placing,
) -> Result<Placing, Memory>
    requires making { IsMaking (S.state scopes.now).frame site.now made.old (named var_kind name ∷ []) }
    requires of { IsBehind (S.state scopes.now).frame (next_ordinal made.old) of }
    requires read { IsReadName site.now.texts.now.names name }
    requires cells { AreCells from }
    ensures { Declares (S.state scopes.now) (S.state scopes.now) made.old made.new site.now (known_of result)
        (named var_kind name ∷ []) IsPlaced (ref_row is_open name of from) }
{
    let cell = from.cell();
    if is_open {
        let next = from.after_cells(2);
        put_parameter(scopes, site, made, name, of, Mode::Open, cell, next)
    } else {
        let next = from.after_cells(1);
        put_parameter(scopes, site, made, name, of, Mode::ByAddress, cell, next)
    }
}

/// A value of a type of this size: a structured one has cells of its own, where the body copies it, any other is in
/// its cell.
fn put_value<S: Scopes>(
    scopes: &S,
    site: &Site,
    made: &mut Made,
    name: Ident,
    of: Place,
    structured: bool,
    size: u32,
    from: Placing,
) -> Result<Placing, Memory>
    requires making { IsMaking (S.state scopes.now).frame site.now made.old (named var_kind name ∷ []) }
    requires of { IsBehind (S.state scopes.now).frame (next_ordinal made.old) of }
    requires read { IsReadName site.now.texts.now.names name }
    requires cells { AreCells from }
    ensures { Declares (S.state scopes.now) (S.state scopes.now) made.old made.new site.now (known_of result)
        (named var_kind name ∷ []) IsPlaced (value_row structured size name of from) }
{
    if structured {
        let own = from.own();
        let next = put!(from.after_own(size));
        put_parameter(scopes, site, made, name, of, Mode::Plain, own, next)
    } else {
        let cell = from.cell();
        let next = from.after_cells(1);
        put_parameter(scopes, site, made, name, of, Mode::Plain, cell, next)
    }
}

/// An open array by value, with elements of this type: the body copies it.
fn open_value<S: Scopes>(
    scopes: &mut S,
    site: &Site,
    made: &mut Made,
    name: Ident,
    elem: Place,
    of: Place,
    from: Placing,
) -> Result<Ask<Placing>, Memory>
    requires making { IsMaking (S.state scopes.old).frame site.now made.old (named var_kind name ∷ []) }
    requires elem { IsBehind (S.state scopes.old).frame (next_ordinal made.old) elem }
    requires of { IsBehind (S.state scopes.old).frame (next_ordinal made.old) of }
    requires read { IsReadName site.now.texts.now.names name }
    requires cells { AreCells from }
    ensures { Declares (S.state scopes.old) (S.state scopes.new) made.old made.new site.now result
        (named var_kind name ∷ []) IsPlaced (λ c. open_row (size_of c.scene elem) name of from c) }
{
    let stood = asked!(stand_in(scopes, site, made, elem));
    let size = cells_by(stood.1);
    let cell = from.cell();
    let behind = put!(from.after_open(size));
    let next = put!(put_parameter(scopes, site, made, name, of, Mode::Open, cell, behind));
    Ok(Ask::Known(next))
}

/// A value of a type that is no open array.
fn value_in<S: Scopes>(
    scopes: &mut S,
    site: &Site,
    made: &mut Made,
    name: Ident,
    of: Place,
    from: Placing,
) -> Result<Ask<Placing>, Memory>
    requires making { IsMaking (S.state scopes.old).frame site.now made.old (named var_kind name ∷ []) }
    requires of { IsBehind (S.state scopes.old).frame (next_ordinal made.old) of }
    requires read { IsReadName site.now.texts.now.names name }
    requires cells { AreCells from }
    ensures { Declares (S.state scopes.old) (S.state scopes.new) made.old made.new site.now result (named var_kind name
        ∷ []) IsPlaced (λ c. value_row (spec_structured c of) (size_of c.scene of) name of from c) }
{
    match stand_in(scopes, site, made, of) {
        Ask::Known(stood) => {
            let structured = is_structured(stood.1);
            let size = cells_by(stood.1);
            match put_value(scopes, site, made, name, of, structured, size, from) {
                Ok(next) => Ok(Ask::Known(next)),
                Err(memory) => Err(memory),
            }
        }
        Ask::DontKnowYet(head) => Ok(Ask::DontKnowYet(head)),
    }
}

/// A parameter of a section, whose type and type of elements are these.
fn parameter_in<S: Scopes>(
    scopes: &mut S,
    site: &Site,
    made: &mut Made,
    section: &Section,
    elem: Place,
    of: Place,
    from: Placing,
    name: Ident,
) -> Result<Ask<Placing>, Memory>
    requires making { IsMaking (S.state scopes.old).frame site.now made.old (named var_kind name ∷ []) }
    requires elem { IsBehind (S.state scopes.old).frame (next_ordinal made.old) elem }
    requires of { IsBehind (S.state scopes.old).frame (next_ordinal made.old) of }
    requires read { IsReadName site.now.texts.now.names name }
    requires cells { AreCells from }
    ensures { Declares (S.state scopes.old) (S.state scopes.new) made.old made.new site.now result
        (named var_kind name ∷ []) IsPlaced (λ c. parameter_row c (section_view section.now) elem of from name) }
{
    if section.by_ref {
        match put_by_ref(scopes, site, made, section.is_open, name, of, from) {
            Ok(next) => Ok(Ask::Known(next)),
            Err(memory) => Err(memory),
        }
    } else if section.is_open {
        open_value(scopes, site, made, name, elem, of, from)
    } else {
        value_in(scopes, site, made, name, of, from)
    }
}

/// The parameters of a section, whose type and type of elements are these.
pub(crate) fn parameters_in<S: Scopes>(
    scopes: &mut S,
    site: &Site,
    made: &mut Made,
    section: &Section,
    elem: Place,
    of: Place,
    from: Placing,
    names: &[Ident],
) -> Result<Ask<Placing>, Memory>
    requires making { IsMaking (S.state scopes.old).frame site.now made.old (map (named var_kind) names.now) }
    requires elem { IsBehind (S.state scopes.old).frame (next_ordinal made.old) elem }
    requires of { IsBehind (S.state scopes.old).frame (next_ordinal made.old) of }
    requires read { AreReadNames site.now.texts.now.names names.now }
    requires cells { AreCells from }
    ensures { Declares (S.state scopes.old) (S.state scopes.new) made.old made.new site.now result
        (map (named var_kind) names.now) IsPlaced
        (λ c. parameter_rows c (section_view section.now) elem of from names.now) }
{
    let mut next = from;
    for name in names {
        next = analysed!(parameter_in(scopes, site, made, section, elem, of, next, *name));
    }
    Ok(Ask::Known(next))
}
