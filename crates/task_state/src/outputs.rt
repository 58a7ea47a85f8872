//! What is left of a stream in the end.
ghost use Rattle.std.specs.Prelude.{◌≡◌, ◌++◌, [], IfOk, None, Some, length};
ghost use Rattle.m2_base.specs.States.{State};
ghost use Rattle.task_state.specs.Steps.{IsStating, Leaves};

use crate::collecting::Collected;
use crate::stages::{Block, Stating};
use m2_base::{Answer, Diag, HeadingNote, Memory, Output, ProcCode, StreamFault};
use std::alloc::Global;
use stmt_sem::{Stated, procedure_code};

/// The diagnostics of the items, of the complete block and of the body, one after another.
fn diags_of(
    alloc: Global,
    items: &[Diag],
    closing: &[Diag],
    body: &[Diag],
) -> Result<Vec<Diag>, Memory>
    ensures { IfOk result (λ diags. diags.items ≡ items.now ++ closing.now ++ body.now) }
{
    let mut diags = Vec::new(alloc);
    diags.extend_from_slice(items)?;
    diags.extend_from_slice(closing)?;
    diags.extend_from_slice(body)?;
    Ok(diags)
}

/// The answers of the items and of the body.
fn answers_of(alloc: Global, items: &[Answer], body: &[Answer]) -> Result<Vec<Answer>, Memory>
    ensures { IfOk result (λ answers. answers.items ≡ items.now ++ body.now) }
{
    let mut answers = Vec::new(alloc);
    answers.extend_from_slice(items)?;
    answers.extend_from_slice(body)?;
    Ok(answers)
}

/// The notes of headings, once more.
fn headings_of(alloc: Global, noted: &[HeadingNote]) -> Result<Vec<HeadingNote>, Memory>
    ensures { IfOk result (λ headings. headings.items ≡ noted.now) }
{
    let mut headings = Vec::new(alloc);
    headings.extend_from_slice(noted)?;
    Ok(headings)
}

/// What a block leaves all of whose statements are made.
pub(crate) fn output_of(
    alloc: Global,
    block: &Block,
    collected: &Collected,
    stating: Stating,
) -> Result<Output, Memory>
    requires { stating.body.count ≡ length block.now.tree.now.body.items }
    ensures { IfOk result (λ output. (st : State) → IsStating st block.now collected.now stating
        → Leaves st block.now.around.now block.now.tree.now output) }
{
    let Stating { closing, body } = stating;
    let Stated { piece, notes } = body.end(block.around, block.tree)?;
    let code = procedure_code(alloc, block.around, block.tree, piece)?;
    let diags = diags_of(alloc, &collected.notes.diags, &closing, &notes.diags)?;
    let answers = answers_of(alloc, &collected.notes.answers, &notes.answers)?;
    let headings = headings_of(alloc, &collected.headings)?;
    Ok(Output {
        stream: block.around.scope,
        fault: None,
        diags,
        answers,
        code,
        cells: collected.before.cell,
        headings,
    })
}

/// The code of a stream that has no tree: none.
fn no_code(alloc: Global) -> ProcCode {
    ProcCode {
        outer: 0,
        params: 0,
        result: 0,
        locals: 0,
        high: 0,
        bytes: Vec::new(alloc),
        code: Vec::new(alloc),
    }
}

/// What a stream leaves that has this fault.
pub(crate) fn refused(alloc: Global, stream: u32, fault: StreamFault) -> Output
    ensures stream { result.stream ≡ stream }
    ensures fault { result.fault ≡ Some fault }
    ensures answers { result.answers.items ≡ [] }
{
    Output {
        stream,
        fault: Some(fault),
        diags: Vec::new(alloc),
        answers: Vec::new(alloc),
        code: no_code(alloc),
        cells: 0,
        headings: Vec::new(alloc),
    }
}
