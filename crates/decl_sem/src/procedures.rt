//! The rows of a procedure's heading in the scope round it.
ghost use Rattle.std.specs.Prelude.{◌≡◌, ◌≤◌, ◌∷◌, ◌++◌, [], filter, flat_map, length};
ghost use Rattle.m2_base.specs.Rows.{proc_kind, proc_type_kind};
ghost use Rattle.m2_base.specs.Statics.Makes.{make_then, makes_named, makes_row, only_gives};
ghost use Rattle.m2_base.specs.Statics.ProcedureRows.{is_proc, proc_rows as spec_rows};
ghost use Rattle.m2_base.specs.Statics.ProcedureTypes.{result_type};
ghost use Rattle.m2_base.specs.Statics.Shapes.{named, nameless, section_shapes};
ghost use Rattle.m2_base.specs.Views.{heading_view};
ghost use Rattle.m2_base.specs.declared.rows.RowMeaning.TheVariants as meanings;
ghost use Rattle.decl_sem.specs.Making.{next_ordinal};
ghost use Rattle.decl_sem.specs.Pieces.{Declares, IsAny, IsBehind, IsMaking};
ghost use Rattle.m2_base.specs.Statics.ReadTrees.{IsReadHeading};

use crate::heading_sizes::{heading_note, heading_sizes};
use crate::making::{Made, next_row};
use crate::meanings::{proc_number, proc_scope};
use crate::procedure_types::proc_row;
use crate::putting::name_row;
use crate::section_rows::sections_rows;
use m2_base::{Ask, Heading, HeadingNote, Memory, Place, RowMeaning, Scopes, Site, StreamKind};

/// The procedure's type, whose parameters' rows begin with the first, and the procedure.
fn typed_proc<S: Scopes>(
    scopes: &mut S,
    site: &Site,
    made: &mut Made,
    heading: &Heading,
    first: u32,
    count: u32,
    number: u32,
    scope: u32,
) -> Result<Ask<Place>, Memory>
    requires making { IsMaking (S.state scopes.old).frame site.now made.old
        (nameless proc_type_kind heading.now.name.at ∷ named proc_kind heading.now.name ∷ []) }
    requires read { IsReadHeading site.now.texts.now.names (heading_view heading.now) }
    requires first { first ≤ next_ordinal made.old }
    ensures { Declares (S.state scopes.old) (S.state scopes.new) made.old made.new site.now result
        (nameless proc_type_kind heading.now.name.at ∷ named proc_kind heading.now.name ∷ []) IsBehind
        (λ c. make_then c (make_then c (only_gives (result_type c heading.now.result))
        (λ e r. makes_row e heading.now.name.at (meanings.ProcType r count first)))
        (λ f t. makes_named f heading.now.name.name heading.now.name.at (meanings.Proc t number scope))) }
{
    let name = heading.name;
    let of = analysed!(proc_row(scopes, site, name.at, first, count, heading.result, made));
    let meaning = RowMeaning::Proc(of, number, scope);
    let place = put!(name_row(scopes, site, made, name, meaning));
    Ok(Ask::Known(place))
}

/// Open arrays and parameters, the procedure's type, and the procedure. `procedures` is the number of those before it.
pub(crate) fn proc_rows<S: Scopes>(
    scopes: &mut S,
    site: &Site,
    kind: StreamKind,
    heading: &Heading,
    stream: u32,
    procedures: u32,
    made: &mut Made,
) -> Result<Ask<Option<HeadingNote>>, Memory>
    requires making { IsMaking (S.state scopes.old).frame site.now made.old
        (flat_map section_shapes (heading_view heading.now).sections ++ nameless proc_type_kind heading.now.name.at
        ∷ named proc_kind heading.now.name ∷ []) }
    requires begun { made.old.rows.items ≡ [] }
    requires read { IsReadHeading site.now.texts.now.names (heading_view heading.now) }
    requires number { procedures ≡ length (filter is_proc (S.state scopes.old).frame.entered) }
    ensures { Declares (S.state scopes.old) (S.state scopes.new) made.old made.new site.now result
        (flat_map section_shapes (heading_view heading.now).sections ++ nameless proc_type_kind heading.now.name.at
        ∷ named proc_kind heading.now.name ∷ []) IsAny (λ c. spec_rows c kind (heading_view heading.now) stream) }
{
    let first = next_row(made);
    let number = proc_number(kind, stream, site.around.module, procedures);
    let scope = proc_scope(kind, stream);
    let sizes = heading_sizes(&heading.sections);
    let own = first + sizes.rows;
    analysed!(sections_rows(scopes, site, made, own, &heading.sections));
    match typed_proc(
        scopes,
        site,
        made,
        heading,
        first,
        sizes.count,
        number,
        scope,
    ) {
        Ok(Ask::Known(_)) => Ok(Ask::Known(heading_note(kind, heading, number, sizes.cells))),
        Ok(Ask::DontKnowYet(head)) => Ok(Ask::DontKnowYet(head)),
        Err(memory) => Err(memory),
    }
}
