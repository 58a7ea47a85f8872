//! The row of a record, where its variants stand, and their labels.
ghost use Rattle.std.specs.Prelude.{◌≤◌, ◌∷◌, ◌<◌, ◌^◌, [], map, ◌+◌};
ghost use Rattle.m2_base.specs.Rows.{record_kind};
ghost use Rattle.m2_base.specs.States.{State};
ghost use Rattle.m2_base.specs.Statics.CaseLabels.{labels_of};
ghost use Rattle.m2_base.specs.Statics.Cells.{most_cells};
ghost use Rattle.m2_base.specs.Statics.Makes.{only_gives};
ghost use Rattle.m2_base.specs.Statics.ReadTrees.{AreReadLabels, IsReadOption, IsReadQual};
ghost use Rattle.m2_base.specs.Statics.Shapes.{nameless, tag_shapes};
ghost use Rattle.m2_base.specs.Trees.{labels as plain_labels};
ghost use Rattle.m2_base.specs.Views.{label_view};
ghost use Rattle.decl_sem.specs.Making.{next_ordinal};
ghost use Rattle.decl_sem.specs.Pieces.{Declares, IsAny, IsBehind, IsMaking, known_of};
ghost use Rattle.decl_sem.specs.Records.{AreVariantsOf, IsOwner, covered_of, record_row, tag_made};
ghost use Rattle.type_rules.specs.Scenes.{IsThere};

use crate::cells::fit;
use crate::fields::{put_tag, tag_in};
use crate::making::{Made, put_plain};
use case_labels::{Coverage, Covered, case_labels};
use m2_base::{Ask, Ident, Label, Memory, Place, Qual, RowMeaning, Scopes, Site};

/// Where the variants behind a tag stand: the ordinal of their record's row, the offset at which each begins, and the
/// type of the tag.
#[derive(Clone, Copy)]
pub(crate) struct Variants {
    pub(crate) own: u32,
    pub(crate) offset: u32,
    pub(crate) tag: Place,
}

/// The tag of a variant part, at this offset of the record whose row has this ordinal, and where its variants stand.
pub(crate) fn begin_variants<S: Scopes>(
    scopes: &mut S,
    site: &Site,
    own: u32,
    offset: u32,
    tag: Option<Ident>,
    of: Qual,
    made: &mut Made,
) -> Result<Ask<Variants>, Memory>
    requires making { IsMaking (S.state scopes.old).frame site.now made.old (tag_shapes tag) }
    requires owner { IsOwner site.now made.old (tag_shapes tag) own }
    requires offset { offset ≤ most_cells + 1 }
    requires tag { IsReadOption site.now.texts.now.names tag }
    requires read { IsReadQual site.now.texts.now.names of }
    ensures { Declares (S.state scopes.old) (S.state scopes.new) made.old made.new site.now result (tag_shapes tag)
        (AreVariantsOf own) (λ c. tag_made c own offset tag of) }
{
    let typ = analysed!(tag_in(scopes, site, of, made));
    let begin = put!(put_tag(scopes, site, made, own, typ, offset, tag));
    Ok(Ask::Known(Variants {
        own,
        offset: begin,
        tag: typ,
    }))
}

/// The labels of one variant, beside the type of its tag, some of whose values earlier variants cover. The value is
/// what is covered with them.
pub(crate) fn labels_in<S: Scopes>(
    scopes: &mut S,
    site: &Site,
    coverage: Coverage,
    labels: &[Label],
    made: &mut Made,
) -> Result<Ask<Covered>, Memory>
    requires making { IsMaking (S.state scopes.old).frame site.now made.old [] }
    requires of { IsThere (S.state scopes.old).frame coverage.of }
    requires read { AreReadLabels site.now.texts.now.names (plain_labels (map label_view labels.now)) }
    ensures { Declares (S.state scopes.old) (S.state scopes.new) made.old made.new site.now result [] IsAny
        (λ c. only_gives (covered_of
        (labels_of c coverage.of coverage.covered (plain_labels (map label_view labels.now))))) }
{
    let found = analysed!(case_labels(scopes, site, coverage, labels, &mut made.notes));
    Ok(Ask::Known(found.covered))
}

/// The row of a record whose first row has this ordinal and whose fields end at this offset. It has at least one cell,
/// and one of too many is refused.
pub(crate) fn put_record(
    site: &Site,
    at: u32,
    first: u32,
    end: u32,
    made: &mut Made,
) -> Result<Place, Memory>
    requires room { next_ordinal made.old < 2 ^ 32 }
    requires first { first ≤ next_ordinal made.old }
    ensures { (a : State) → IsMaking a.frame site.now made.old (nameless record_kind at ∷ []) → Declares a a made.old
        made.new site.now (known_of result) (nameless record_kind at ∷ []) IsBehind (λ c. record_row c at first end) }
{
    let size = end.max(1);
    let row = put!(put_plain(site, made, at, RowMeaning::Record(first, size)));
    fit(site, at, size, row, made)
}
