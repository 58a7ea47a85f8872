//! Rows of an item in the making, while the scopes are at hand.
ghost use Rattle.std.specs.Prelude.{◌≡◌, ◌∷◌, [], ◌<◌, ◌^◌};
ghost use Rattle.m2_base.specs.Statics.Makes.{makes_named as spec_named, makes_row as spec_row};
ghost use Rattle.m2_base.specs.Statics.Shapes.{named, nameless};
ghost use Rattle.decl_sem.specs.Making.{next_ordinal};
ghost use Rattle.decl_sem.specs.Pieces.{Declares, IsBehind, IsMaking, IsNewMeaning, kind_number, known_of};
ghost use Rattle.m2_base.specs.Statics.ReadTrees.{IsReadName};

use crate::making::{Made, put_named, put_plain};
use m2_base::{Ident, Memory, Place, RowMeaning, Scopes, Site};

/// A row without a name.
pub(crate) fn plain_row<S: Scopes>(
    _scopes: &S,
    site: &Site,
    made: &mut Made,
    at: u32,
    meaning: RowMeaning,
) -> Result<Place, Memory>
    requires making { IsMaking (S.state _scopes.now).frame site.now made.old (nameless (kind_number meaning) at ∷ []) }
    requires meaning { IsNewMeaning (S.state _scopes.now).frame site.now (next_ordinal made.old) meaning }
    ensures { Declares (S.state _scopes.now) (S.state _scopes.now) made.old made.new site.now (known_of result)
        (nameless (kind_number meaning) at ∷ []) IsBehind (λ c. spec_row c at meaning) }
{
    put_plain(site, made, at, meaning)
}

/// A row with a name.
pub(crate) fn name_row<S: Scopes>(
    _scopes: &S,
    site: &Site,
    made: &mut Made,
    ident: Ident,
    meaning: RowMeaning,
) -> Result<Place, Memory>
    requires making { IsMaking (S.state _scopes.now).frame site.now made.old (named (kind_number meaning) ident ∷ []) }
    requires read { IsReadName site.now.texts.now.names ident }
    requires meaning { IsNewMeaning (S.state _scopes.now).frame site.now (next_ordinal made.old) meaning }
    ensures { Declares (S.state _scopes.now) (S.state _scopes.now) made.old made.new site.now (known_of result)
        (named (kind_number meaning) ident ∷ []) IsBehind (λ c. spec_named c ident.name ident.at meaning) }
{
    put_named(site, made, ident, meaning)
}
