//! The rows of a procedure's heading in its own scope, and where its parameters are.
ghost use Rattle.std.specs.Prelude.{flat_map, map};
ghost use Rattle.m2_base.specs.Lists.{Each};
ghost use Rattle.m2_base.specs.Statics.HeadingRows.{heading_rows as spec_rows, own_section_rows as spec_section};
ghost use Rattle.m2_base.specs.Statics.HeadingRows.{own_sections_rows as spec_sections};
ghost use Rattle.m2_base.specs.Statics.Shapes.{own_section_shapes};
ghost use Rattle.m2_base.specs.Views.{heading_view, section_view};
ghost use Rattle.decl_sem.specs.Items.{IsLoneEffect};
ghost use Rattle.decl_sem.specs.OwnParameters.{AreCells, IsPlaced};
ghost use Rattle.decl_sem.specs.Pieces.{Declares, IsMaking};
ghost use Rattle.m2_base.specs.Statics.ReadTrees.{IsReadHeading, IsReadSection};

use crate::cells::capped;
use crate::effects::Effect;
use crate::heading_sizes::heading_sizes;
use crate::making::Made;
use crate::outcomes::result_in;
use crate::own_parameters::parameters_in;
use crate::placings::Placing;
use crate::section_rows::put_open;
use crate::types::name_in;
use m2_base::{Ask, Heading, Memory, Scopes, Section, Site};
use std::alloc::Global;

/// The parameters of one section.
fn section_in<S: Scopes>(
    scopes: &mut S,
    site: &Site,
    made: &mut Made,
    section: &Section,
    from: Placing,
) -> Result<Ask<Placing>, Memory>
    requires making { IsMaking (S.state scopes.old).frame site.now made.old
        (own_section_shapes (section_view section.now)) }
    requires read { IsReadSection site.now.texts.now.names (section_view section.now) }
    requires cells { AreCells from }
    ensures { Declares (S.state scopes.old) (S.state scopes.new) made.old made.new site.now result
        (own_section_shapes (section_view section.now)) IsPlaced
        (λ c. spec_section c from (section_view section.now)) }
{
    let elem = analysed!(name_in(scopes, site, section.of, made));
    let of = put!(put_open(scopes, site, made, section.is_open, section.of, elem));
    parameters_in(scopes, site, made, section, elem, of, from, &section.names)
}

/// The parameters of all sections.
fn sections_in<S: Scopes>(
    scopes: &mut S,
    site: &Site,
    made: &mut Made,
    sections: &[Section],
    from: Placing,
) -> Result<Ask<Placing>, Memory>
    requires making { IsMaking (S.state scopes.old).frame site.now made.old
        (flat_map own_section_shapes (map section_view sections.now)) }
    requires read { Each (IsReadSection site.now.texts.now.names) (map section_view sections.now) }
    requires cells { AreCells from }
    ensures { Declares (S.state scopes.old) (S.state scopes.new) made.old made.new site.now result
        (flat_map own_section_shapes (map section_view sections.now)) IsPlaced
        (λ c. spec_sections c from (map section_view sections.now)) }
{
    let mut next = from;
    for section in sections {
        next = analysed!(section_in(scopes, site, made, section, next));
    }
    Ok(Ask::Known(next))
}

/// The heading of the block itself: a variable for each parameter.
pub(crate) fn heading_rows<S: Scopes>(
    alloc: Global,
    scopes: &mut S,
    site: &Site,
    heading: &Heading,
    made: &mut Made,
) -> Result<Ask<Effect>, Memory>
    requires making { IsMaking (S.state scopes.old).frame site.now made.old
        (flat_map own_section_shapes (heading_view heading.now).sections) }
    requires read { IsReadHeading site.now.texts.now.names (heading_view heading.now) }
    ensures { Declares (S.state scopes.old) (S.state scopes.new) made.old made.new site.now result
        (flat_map own_section_shapes (heading_view heading.now).sections) IsLoneEffect
        (λ c. spec_rows c (heading_view heading.now)) }
{
    let sizes = heading_sizes(&heading.sections);
    let first = Placing::new(alloc, capped(sizes.cells as u64));
    let behind = analysed!(sections_in(scopes, site, made, &heading.sections, first));
    let of = analysed!(result_in(scopes, site, heading.result, made));
    Ok(Ask::Known(behind.into_effect(alloc, of)))
}
