//! The rows of a type, and its name.
ghost use Rattle.std.specs.Prelude.{◌∷◌, ◌++◌, [], option_map};
ghost use Rattle.m2_base.specs.Rows.{type_name_kind};
ghost use Rattle.m2_base.specs.Statics.NameRows.{declared_type as spec_declared, type_name_rows as spec_rows};
ghost use Rattle.m2_base.specs.Statics.Shapes.{named, type_item_shapes};
ghost use Rattle.m2_base.specs.Views.{type_view};
ghost use Rattle.decl_sem.specs.Pieces.{Declares, IsBehind, IsMaking};
ghost use Rattle.m2_base.specs.Statics.ReadTrees.{IsReadName, IsReadTypeOption};

use crate::making::Made;
use crate::putting::{name_row, plain_row};
use crate::types::type_in;
use m2_base::{Ask, Ident, Memory, Place, RowMeaning, Scopes, Site, TypeExpr};
use std::alloc::Global;

/// The type that is declared. Without a type expression it is opaque.
fn declared_type<S: Scopes>(
    alloc: Global,
    scopes: &mut S,
    site: &Site,
    name: Ident,
    typ: &Option<TypeExpr>,
    made: &mut Made,
) -> Result<Ask<Place>, Memory>
    requires making { IsMaking (S.state scopes.old).frame site.now made.old
        (type_item_shapes name (option_map type_view typ.now)) }
    requires read { IsReadTypeOption site.now.texts.now.names (option_map type_view typ.now) }
    ensures { Declares (S.state scopes.old) (S.state scopes.new) made.old made.new site.now result
        (type_item_shapes name (option_map type_view typ.now)) IsBehind
        (λ c. spec_declared c name (option_map type_view typ.now)) }
{
    match typ {
        Some(typ) => type_in(alloc, scopes, site, typ, made),
        None => match plain_row(scopes, site, made, name.at, RowMeaning::Opaque) {
            Ok(place) => Ok(Ask::Known(place)),
            Err(memory) => Err(memory),
        },
    }
}

/// The rows of a type, and its name.
pub(crate) fn type_name_rows<S: Scopes>(
    alloc: Global,
    scopes: &mut S,
    site: &Site,
    name: Ident,
    typ: &Option<TypeExpr>,
    made: &mut Made,
) -> Result<Ask<Place>, Memory>
    requires making { IsMaking (S.state scopes.old).frame site.now made.old
        (type_item_shapes name (option_map type_view typ.now) ++ named type_name_kind name ∷ []) }
    requires read { IsReadTypeOption site.now.texts.now.names (option_map type_view typ.now) }
    requires named { IsReadName site.now.texts.now.names name }
    ensures { Declares (S.state scopes.old) (S.state scopes.new) made.old made.new site.now result
        (type_item_shapes name (option_map type_view typ.now) ++ named type_name_kind name ∷ []) IsBehind
        (λ c. spec_rows c name (option_map type_view typ.now)) }
{
    let of = analysed!(declared_type(alloc, scopes, site, name, typ, made));
    let place = put!(name_row(scopes, site, made, name, RowMeaning::TypeName(of)));
    Ok(Ask::Known(place))
}
