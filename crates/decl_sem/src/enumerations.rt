//! The rows of an enumeration.
ghost use Rattle.std.specs.Prelude.{◌+◌, ◌<◌, ◌≤◌, ◌^◌, length, map};
ghost use Rattle.m2_base.specs.Rows.{IsSmallScope, const_kind};
ghost use Rattle.m2_base.specs.States.{State};
ghost use Rattle.m2_base.specs.Statics.Enumerations.{constant_rows};
ghost use Rattle.m2_base.specs.Statics.Shapes.{form_shapes, named};
ghost use Rattle.m2_base.specs.Statics.TypeRows.{form_rows};
ghost use Rattle.m2_base.specs.Trees.{enum_type};
ghost use Rattle.decl_sem.specs.Making.{next_ordinal};
ghost use Rattle.decl_sem.specs.Pieces.{Declares, IsBehind, IsMaking, IsOwnType, known_of};
ghost use Rattle.m2_base.specs.Statics.ReadTrees.{AreReadNames};

use crate::making::{Made, put_named, put_plain};
use m2_base::{Ident, Memory, Place, RowMeaning, Site};

/// The constants of an enumeration, each with its value.
fn make_constants(site: &Site, made: &mut Made, of: Place, names: &[Ident]) -> Result<Place, Memory>
    requires room { next_ordinal made.old + length names.now ≤ 2 ^ 32 }
    requires scope { IsSmallScope of }
    ensures { (a : State) → IsMaking a.frame site.now made.old (map (named const_kind) names.now)
        → AreReadNames a.frame.setting.texts.names names.now → IsOwnType a.frame (next_ordinal made.old) of
        → Declares a a made.old made.new site.now (known_of result) (map (named const_kind) names.now) IsBehind
        (λ c. constant_rows c of 0 names.now) }
{
    for (value, name) in names.iter().enumerate() {
        let meaning = RowMeaning::Const(of, value as i64, 0);
        put!(put_named(site, made, *name, meaning));
    }
    Ok(of)
}

/// The type of an enumeration, and its constants.
pub(crate) fn make_enumeration(
    site: &Site,
    made: &mut Made,
    at: u32,
    names: &[Ident],
) -> Result<Place, Memory>
    requires room { next_ordinal made.old + 1 + length names.now < 2 ^ 32 }
    requires small { site.now.around.now.scope < 2 ^ 31 }
    ensures { (a : State) → IsMaking a.frame site.now made.old (form_shapes at (enum_type names.now))
        → AreReadNames a.frame.setting.texts.names names.now → Declares a a made.old made.new site.now
        (known_of result) (form_shapes at (enum_type names.now)) IsBehind (λ c. form_rows c at (enum_type names.now)) }
{
    let count = names.len() as u32;
    let of = put!(put_plain(site, made, at, RowMeaning::Enum(count)));
    make_constants(site, made, of, names)
}
