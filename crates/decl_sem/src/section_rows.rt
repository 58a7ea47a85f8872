//! The parameters of a procedure, in the scope round it.
ghost use Rattle.std.specs.Prelude.{flat_map, map};
ghost use Rattle.m2_base.specs.Lists.{Each};
ghost use Rattle.m2_base.specs.Rows.{param_kind};
ghost use Rattle.m2_base.specs.Statics.Makes.{make_then};
ghost use Rattle.m2_base.specs.Statics.ProcedureRows.{param_rows as spec_params, section_rows as spec_sections};
ghost use Rattle.m2_base.specs.Statics.ProcedureTypes.{open_array_row as spec_open, parameter_type as spec_type};
ghost use Rattle.m2_base.specs.Statics.Shapes.{nameless, open_shapes, section_shapes};
ghost use Rattle.m2_base.specs.Views.{section_view};
ghost use Rattle.decl_sem.specs.Making.{next_ordinal};
ghost use Rattle.decl_sem.specs.Pieces.{Declares, IsAny, IsBehind, IsMaking, known_of};
ghost use Rattle.m2_base.specs.Statics.ReadTrees.{IsReadSection};
ghost use Rattle.m2_base.specs.Statics.ReadTrees.{IsReadQual};

use crate::making::Made;
use crate::names::{small_place, type_of_qual};
use crate::putting::plain_row;
use m2_base::{Ask, Ident, Memory, Place, Qual, RowMeaning, Scopes, Section, Site};

/// Parameters of one type, of the procedure type whose row has this ordinal.
pub(crate) fn put_parameters<S: Scopes>(
    scopes: &S,
    site: &Site,
    made: &mut Made,
    own: u32,
    by_ref: bool,
    of: Place,
    names: &[Ident],
) -> Result<(), Memory>
    requires making { IsMaking (S.state scopes.now).frame site.now made.old
        (map (λ i. nameless param_kind i.at) names.now) }
    requires of { IsBehind (S.state scopes.now).frame (next_ordinal made.old) of }
    ensures { Declares (S.state scopes.now) (S.state scopes.now) made.old made.new site.now (known_of result)
        (map (λ i. nameless param_kind i.at) names.now) IsAny (λ c. spec_params c own by_ref of names.now) }
{
    for name in names {
        let meaning = RowMeaning::Param(of, by_ref, own);
        match plain_row(scopes, site, made, name.at, meaning) {
            Ok(_) => {}
            Err(memory) => return Err(memory),
        }
    }
    Ok(())
}

/// An open array has a row of its own.
pub(crate) fn put_open<S: Scopes>(
    scopes: &S,
    site: &Site,
    made: &mut Made,
    is_open: bool,
    qual: Qual,
    of: Place,
) -> Result<Place, Memory>
    requires making { IsMaking (S.state scopes.now).frame site.now made.old (open_shapes is_open qual) }
    requires of { IsBehind (S.state scopes.now).frame (next_ordinal made.old) of }
    ensures { Declares (S.state scopes.now) (S.state scopes.now) made.old made.new site.now (known_of result)
        (open_shapes is_open qual) IsBehind (λ c. spec_open c qual.first.at is_open of) }
{
    if is_open {
        plain_row(scopes, site, made, qual.first.at, RowMeaning::OpenArray(of))
    } else {
        Ok(of)
    }
}

/// The type of a parameter; an open array has a row of its own.
pub(crate) fn parameter_type<S: Scopes>(
    scopes: &mut S,
    site: &Site,
    made: &mut Made,
    is_open: bool,
    qual: Qual,
) -> Result<Ask<Place>, Memory>
    requires making { IsMaking (S.state scopes.old).frame site.now made.old (open_shapes is_open qual) }
    requires read { IsReadQual site.now.texts.now.names qual }
    ensures { Declares (S.state scopes.old) (S.state scopes.new) made.old made.new site.now result
        (open_shapes is_open qual) IsBehind (λ c. spec_type c is_open qual) }
{
    match type_of_qual(scopes, site, qual, &mut made.notes) {
        Ok(Ask::Known(of)) => {
            match put_open(scopes, site, made, is_open, qual, small_place(of)) {
                Ok(place) => Ok(Ask::Known(place)),
                Err(memory) => Err(memory),
            }
        }
        Ok(Ask::DontKnowYet(head)) => Ok(Ask::DontKnowYet(head)),
        Err(memory) => Err(memory),
    }
}

/// The parameters of one section.
fn section_in<S: Scopes>(
    scopes: &mut S,
    site: &Site,
    made: &mut Made,
    own: u32,
    section: &Section,
) -> Result<Ask<()>, Memory>
    requires making { IsMaking (S.state scopes.old).frame site.now made.old
        (section_shapes (section_view section.now)) }
    requires read { IsReadSection site.now.texts.now.names (section_view section.now) }
    ensures { Declares (S.state scopes.old) (S.state scopes.new) made.old made.new site.now result
        (section_shapes (section_view section.now)) IsAny
        (λ c. make_then c (spec_type c section.now.is_open section.now.of)
        (λ d t. spec_params d own section.now.by_ref t section.now.names.items)) }
{
    match parameter_type(scopes, site, made, section.is_open, section.of) {
        Ok(Ask::Known(of)) => {
            match put_parameters(scopes, site, made, own, section.by_ref, of, &section.names) {
                Ok(done) => Ok(Ask::Known(done)),
                Err(memory) => Err(memory),
            }
        }
        Ok(Ask::DontKnowYet(head)) => Ok(Ask::DontKnowYet(head)),
        Err(memory) => Err(memory),
    }
}

/// The parameters of a procedure whose type's row has this ordinal.
pub(crate) fn sections_rows<S: Scopes>(
    scopes: &mut S,
    site: &Site,
    made: &mut Made,
    own: u32,
    sections: &[Section],
) -> Result<Ask<()>, Memory>
    requires making { IsMaking (S.state scopes.old).frame site.now made.old
        (flat_map section_shapes (map section_view sections.now)) }
    requires read { Each (IsReadSection site.now.texts.now.names) (map section_view sections.now) }
    ensures { Declares (S.state scopes.old) (S.state scopes.new) made.old made.new site.now result
        (flat_map section_shapes (map section_view sections.now)) IsAny
        (λ c. spec_sections c own (map section_view sections.now)) }
{
    for section in sections {
        analysed!(section_in(scopes, site, made, own, section));
    }
    Ok(Ask::Known(()))
}
