//! The code of a procedure, from what its block made.
ghost use Rattle.std.specs.Prelude.{◌≡◌, IfOk, IfSome, map, option_map};
ghost use Rattle.std.specs.List.{flat_map};
ghost use Rattle.code_form.specs.Bytes.{spelling};
ghost use Rattle.code_form.specs.Heights.{greatest};
ghost use Rattle.expr_sem.specs.Fragments.{step_view};
ghost use Rattle.m2_base.specs.Statics.ProcedureRows.{parameter_cells as spec_cells, section_cells as spec_section};
ghost use Rattle.m2_base.specs.Views.{heading_view, section_view, stream_view};
ghost use Rattle.block_code.specs.BlockCode.{code_of_run, outer_of as spec_outer, params_of as spec_params};
ghost use Rattle.block_code.specs.BlockCode.{results_of as spec_results};
ghost use Rattle.stmt_sem.specs.Bodies.{whole_in, whole_of};
ghost use Rattle.block_code.specs.Flows.{Run};
ghost use Rattle.block_code.specs.ProcedureCodes.{code_view};
ghost use Rattle.type_rules.specs.Scenes.{block_of};

use code_form::encode;
use expr_sem::{Piece, Step};
use m2_base::{Around, Heading, Memory, ProcCode, Section, Stream};
use std::alloc::Global;

/// The bytes of instructions one after another. One whose operands are out of their ranges finds no memory.
#[tactic(auto, using(crate::proofs::ProcedureCodes::spelling_on))]
fn encoded(alloc: Global, steps: &[Step]) -> Result<Vec<u8>, Memory>
    ensures { IfOk result (λ code. code.items ≡ flat_map (λ s. spelling s.instr) steps.now) }
{
    let mut code = Vec::new(alloc);
    for step in steps {
        if !step.instr.has_valid_operands() {
            return Err(Memory);
        }
        encode(&step.instr, &mut code)?;
    }
    Ok(code)
}

/// The greatest height that steps reach from an empty stack. One of more than 32 bits finds no memory.
#[tactic(auto, using(crate::proofs::ProcedureCodes::heightening))]
fn greatest_height(steps: &[Step]) -> Result<u32, Memory>
    ensures { IfOk result (λ high. high ≡ greatest 0 (map step_view steps.now)) }
{
    let mut height: u64 = 0;
    let mut high: u64 = 0;
    for step in steps {
        let Some(after) = height.saturating_sub(step.takes).checked_add(step.leaves) else {
            return Err(Memory);
        };
        height = after;
        high = high.max(height);
    }
    match u32::try_from(high) {
        Ok(high) => Ok(high),
        Err(_) => Err(Memory),
    }
}

/// The cells of parameters of one type: an open array takes two.
fn section_cells(section: &Section) -> Option<u32>
    ensures { IfSome result (λ cells. cells ≡ spec_section (section_view section.now)) }
{
    let count = u32::try_from(section.names.len()).ok()?;
    if section.is_open {
        count.checked_mul(2)
    } else {
        Some(count)
    }
}

/// The cells in which parameters arrive. More of them than numbers find no memory.
#[tactic(auto, using(crate::proofs::ProcedureCodes::counting_on))]
fn parameter_cells(sections: &[Section]) -> Result<u32, Memory>
    ensures { IfOk result (λ cells. cells ≡ spec_cells (map section_view sections.now)) }
{
    let mut cells: u32 = 0;
    for section in sections {
        let Some(more) = section_cells(section) else {
            return Err(Memory);
        };
        let Some(sum) = cells.checked_add(more) else {
            return Err(Memory);
        };
        cells = sum;
    }
    Ok(cells)
}

/// The cells of the parameters of a block.
fn params_of(heading: &Option<Heading>) -> Result<u32, Memory>
    ensures { IfOk result (λ cells. cells ≡ spec_params (option_map heading_view heading.now)) }
{
    match heading {
        None => Ok(0),
        Some(heading) => parameter_cells(&heading.sections),
    }
}

/// The cells of the result of a block.
pub fn results_of(heading: &Option<Heading>) -> u32
    ensures { result ≡ spec_results (option_map heading_view heading.now) }
{
    match heading {
        None => 0,
        Some(heading) => match &heading.result {
            None => 0,
            Some(_) => 1,
        },
    }
}

/// The number of the procedure round a block: 0 of a module and of a procedure of module level.
fn outer_of(around: &Around) -> u32
    ensures { result ≡ spec_outer (block_of around.now) }
{
    if around.level == 0 {
        return 0;
    }
    match around.chain.scopes.get(1) {
        Some(scope) => scope.saturating_sub(around.module),
        None => 0,
    }
}

/// The code of a block as its object has it, by the piece that its `Body` ended as: the instructions in bytes, the
/// data, and the numbers beside them. An operand or a number out of its range fails as if memory were wanted.
#[tactic(auto, using(crate::proofs::ProcedureCodes::bytes_of_steps))]
pub fn procedure_code(
    alloc: Global,
    around: &Around,
    stream: &Stream,
    piece: Piece,
) -> Result<ProcCode, Memory>
    ensures { IfOk result (λ code. (r : Run) → whole_in piece ≡ whole_of r
        → code_view code ≡ code_of_run (record { block = block_of around.now; tree = stream_view stream.now }) r) }
{
    let params = params_of(&stream.heading)?;
    let high = greatest_height(&piece.steps)?;
    let code = encoded(alloc, &piece.steps)?;
    let Piece { bytes, cell, .. } = piece;
    Ok(ProcCode {
        outer: outer_of(around),
        params,
        result: results_of(&stream.heading),
        locals: cell,
        high,
        bytes,
        code,
    })
}
