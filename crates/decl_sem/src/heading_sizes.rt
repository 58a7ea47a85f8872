//! How many parameters, cells and rows a heading has, by its syntax.
ghost use Rattle.std.specs.Prelude.{◌≡◌, ◌+◌, ◌*◌, ◌<◌, ◌≤◌, ◌^◌, if◌then◌else◌, length, map};
ghost use Rattle.m2_base.specs.Statics.ProcedureRows.{heading_note as spec_note, parameter_cells, parameter_count};
ghost use Rattle.m2_base.specs.Statics.ProcedureRows.{result_cells as spec_result, section_cells, sections_length};
ghost use Rattle.m2_base.specs.Statics.Shapes.{section_shapes};
ghost use Rattle.m2_base.specs.Views.{heading_view, section_view};

use m2_base::{Heading, HeadingNote, Qual, Section, StreamKind};

/// The numbers of the parameters, of the cells in which they arrive,
/// and of their rows in the scope round the procedure.
#[derive(Clone, Copy)]
pub(crate) struct HeadingSizes {
    pub(crate) count: u32,
    pub(crate) cells: u32,
    pub(crate) rows: u32,
}

/// The cells of parameters of one type: an open array takes two.
fn cells_of(is_open: bool, count: u32) -> u32
    requires { (if is_open then 2 * count else count) < 2 ^ 32 }
    ensures { result ≡ (if is_open then 2 * count else count) }
{
    if is_open { 2 * count } else { count }
}

/// With the parameters of one more section.
fn with_section(sizes: HeadingSizes, section: &Section) -> HeadingSizes
    requires cells { sizes.cells + section_cells (section_view section.now) < 2 ^ 32 }
    requires count { sizes.count + length section.now.names.items < 2 ^ 32 }
    requires rows { sizes.rows + length (section_shapes (section_view section.now)) < 2 ^ 32 }
    ensures count { result.count ≡ sizes.count + length section.now.names.items }
    ensures cells { result.cells ≡ sizes.cells + section_cells (section_view section.now) }
    ensures rows { result.rows ≡ sizes.rows + length (section_shapes (section_view section.now)) }
{
    let names = section.names.len() as u32;
    let rows = names + u32::from(section.is_open);
    HeadingSizes {
        count: sizes.count + names,
        cells: sizes.cells + cells_of(section.is_open, names),
        rows: sizes.rows + rows,
    }
}

/// The sizes of a heading that has not too many rows.
pub(crate) fn heading_sizes(sections: &[Section]) -> HeadingSizes
    requires { sections_length (map section_view sections.now) ≤ 2 ^ 31 }
    ensures count { result.count ≡ parameter_count (map section_view sections.now) }
    ensures cells { result.cells ≡ parameter_cells (map section_view sections.now) }
    ensures rows { result.rows ≡ sections_length (map section_view sections.now) }
{
    let mut sizes = HeadingSizes {
        count: 0,
        cells: 0,
        rows: 0,
    };
    for section in sections {
        sizes = with_section(sizes, section);
    }
    sizes
}

/// The cells of a result.
fn result_cells(of: &Option<Qual>) -> u32
    ensures { result ≡ spec_result of.now }
{
    match of {
        Some(_) => 1,
        None => 0,
    }
}

/// Definitions and modules note the headings of their procedures.
pub(crate) fn heading_note(
    kind: StreamKind,
    heading: &Heading,
    number: u32,
    params: u32,
) -> Option<HeadingNote>
    requires { params ≡ parameter_cells (heading_view heading.now).sections }
    ensures { result ≡ spec_note kind (heading_view heading.now) number }
{
    let name = heading.name.name;
    let result = result_cells(&heading.result);
    match kind {
        StreamKind::Procedure => None,
        _ => Some(HeadingNote {
            name,
            number,
            params,
            result,
        }),
    }
}
