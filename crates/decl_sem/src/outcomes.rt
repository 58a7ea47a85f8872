//! The result of a procedure type.
ghost use Rattle.std.specs.Prelude.{◌≡◌, ◌<◌, [], Some, if◌then◌else◌};
ghost use Rattle.m2_base.specs.Gives.{gives};
ghost use Rattle.m2_base.specs.Standard.{broken};
ghost use Rattle.m2_base.specs.States.{State};
ghost use Rattle.m2_base.specs.Statics.Contexts.{refuse as refuses};
ghost use Rattle.m2_base.specs.Statics.Diagnostics.{result_not_scalar};
ghost use Rattle.m2_base.specs.Statics.Makes.{only_gives};
ghost use Rattle.m2_base.specs.Statics.ProcedureTypes.{is_structured_kind};
ghost use Rattle.m2_base.specs.Statics.ProcedureTypes.{result_type};
ghost use Rattle.decl_sem.specs.Making.{next_ordinal};
ghost use Rattle.decl_sem.specs.Pieces.{Declares, IsBehind, IsMaking, IsOptionBehind, known_of};
ghost use Rattle.m2_base.specs.Statics.ReadTrees.{IsReadQualOption};

use crate::making::Made;
use crate::names::refuse;
use crate::standing::stand_in;
use crate::types::name_in;
use m2_base::{Ask, Diagnostic, Memory, Place, Qual, RowMeaning, Scopes, Site};
use type_rules::BROKEN;

/// Whether a row is an array's or a record's.
pub(crate) fn is_structured(meaning: RowMeaning) -> bool
    ensures { result ≡ is_structured_kind meaning }
{
    matches!(meaning, RowMeaning::Array(..) | RowMeaning::Record(..))
}

/// A result that is kept, or refused and then in error.
fn scalar_or_refuse(
    site: &Site,
    at: u32,
    structured: bool,
    of: Place,
    made: &mut Made,
) -> Result<Option<Place>, Memory>
    ensures { (a : State) → IsMaking a.frame site.now made.old [] → IsBehind a.frame (next_ordinal made.old) of
        → Declares a a made.old made.new site.now (known_of result) [] IsOptionBehind
        (λ c. only_gives (if structured then refuses c at result_not_scalar (Some broken) else gives (Some of))) }
{
    if structured {
        put!(refuse(site, at, Diagnostic::ResultNotScalar, &mut made.notes));
        return Ok(Some(BROKEN));
    }
    Ok(Some(of))
}

/// A result is no array and no record: a structured one is refused at its first token, and in error.
pub(crate) fn result_in<S: Scopes>(
    scopes: &mut S,
    site: &Site,
    qual: Option<Qual>,
    made: &mut Made,
) -> Result<Ask<Option<Place>>, Memory>
    requires making { IsMaking (S.state scopes.old).frame site.now made.old [] }
    requires read { IsReadQualOption site.now.texts.now.names qual }
    ensures { Declares (S.state scopes.old) (S.state scopes.new) made.old made.new site.now result [] IsOptionBehind
        (λ c. only_gives (result_type c qual)) }
{
    let Some(qual) = qual else {
        return Ok(Ask::Known(None));
    };
    let of = analysed!(name_in(scopes, site, qual, made));
    let stood = asked!(stand_in(scopes, site, made, of));
    let structured = is_structured(stood.1);
    let scalar = put!(scalar_or_refuse(site, qual.first.at, structured, of, made));
    Ok(Ask::Known(scalar))
}
