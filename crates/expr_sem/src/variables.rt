//! Where a variable is.
ghost use Rattle.std.specs.Prelude.{◌≡◌};
ghost use Rattle.std.specs.Option.{IfSome};
ghost use Rattle.m2_base.specs.Gives.{gives};
ghost use Rattle.m2_base.specs.States.{State};
ghost use Rattle.m2_base.specs.declared.notes.Notes.{Notes};
ghost use Rattle.type_rules.specs.Scenes.{IsRowOf, block_of};
ghost use Rattle.type_rules.specs.Sites.{SuitsSite};
ghost use Rattle.const_eval.specs.Sites.{IsOperand};
ghost use Rattle.expr_sem.specs.Codings.{Coding, IsCoded, coded_in};
ghost use Rattle.block_code.specs.Variables.{cell_instr as spec_cell, entry_coded as spec_entry};
ghost use Rattle.block_code.specs.Variables.{links_out as spec_links, with_address as spec_with};

use crate::answers::answered_as;
use crate::chains::pair;
use crate::coded::Coded;
use crate::fragments::Fragments;
use crate::levels::level_of;
use crate::procedure_names::{import_number, is_own};
use code_form::Instr;
use const_eval::operand_of;
use m2_base::{Around, Ask, Memory, Mode, Operand, Place, Row, RowMeaning, Scopes, Site, read_row};

/// How many static links lead from a block out to the block of a scope.
pub fn links_out(around: &Around, scope: u32) -> u32
    ensures { result ≡ spec_links (block_of around.now) scope }
{
    around.level.saturating_sub(level_of(around, scope))
}

/// The address of the cell of a scope at this offset.
pub fn cell_instr(around: &Around, scope: u32, offset: u32) -> Instr
    ensures { result ≡ spec_cell (block_of around.now) scope offset }
{
    if is_own(around, scope) {
        return Instr::Global(0, offset);
    }
    if level_of(around, scope) == 0 {
        return Instr::Global(import_number(around, scope), offset);
    }
    Instr::Local(links_out(around, scope), offset)
}

/// An operand with the address of the variable that the row's meaning tells of. What is no variable has none, nor has
/// a variable in error.
fn with_address(
    site: &Site,
    scope: u32,
    meaning: RowMeaning,
    operand: Operand,
    fragments: &mut Fragments,
) -> Result<Ask<Coded>, Memory>
    ensures { (state : State) (notes : Notes) → IsOperand state.frame operand
        → Coding state state notes notes fragments.old.nodes.items fragments.new.nodes.items site.now result IsCoded
        coded_in (λ c. gives (spec_with c.scene.block scope meaning operand)) }
{
    let Operand::Variable(of) = operand else {
        return Ok(Ask::Known(Coded::bare(operand)));
    };
    let RowMeaning::Var(_, mode, offset) = meaning else {
        return Ok(Ask::Known(Coded::bare(operand)));
    };
    let cell = cell_instr(site.around, scope, offset);
    match mode {
        Mode::Plain => answered_as(Operand::Variable(of), fragments.one(cell)),
        Mode::ByAddress => answered_as(Operand::Variable(of), pair(cell, Instr::Load, fragments)),
        Mode::Open => {
            let Some(next) = offset.checked_add(1) else {
                return Err(Memory);
            };
            let second = cell_instr(site.around, scope, next);
            let high = pair(second, Instr::Load, fragments)?;
            let code = pair(cell, Instr::Load, fragments)?;
            Ok(Ask::Known(Coded {
                operand,
                code,
                high: Some(high),
            }))
        }
    }
}

/// What a name stands for that is bound to this entry, a row at its place: its operand, and beside a variable the code
/// that leaves its address. A name that is bound to nothing is in error. It waits for the row of its type.
pub fn entry_coded<S: Scopes>(
    scopes: &mut S,
    site: &Site,
    entry: Option<(Place, Row)>,
    fragments: &mut Fragments,
) -> Result<Ask<Coded>, Memory>
    requires suits { SuitsSite (S.state scopes.old).frame site.now }
    requires entry { IfSome entry (λ e. IsRowOf (S.state scopes.old).frame e.0 e.1) }
    ensures { (notes : Notes) → Coding (S.state scopes.old) (S.state scopes.new) notes notes fragments.old.nodes.items
        fragments.new.nodes.items site.now result IsCoded coded_in (λ c. gives (spec_entry c entry)) }
{
    match entry {
        Some(entry) => {
            let operand = asked!(operand_of(scopes, site.around, entry.0, entry.1));
            with_address(site, entry.0.scope, read_row(&entry.1), operand, fragments)
        }
        None => Ok(Ask::Known(Coded::in_error())),
    }
}
