//! Which procedure the code names where a procedure is called or is a value.
ghost use Rattle.std.specs.Prelude.{◌≡◌, option_map};
ghost use Rattle.std.specs.Option.{IfSome};
ghost use Rattle.m2_base.specs.Asks.{IfKnown, IfWaits};
ghost use Rattle.m2_base.specs.Gives.{gives};
ghost use Rattle.m2_base.specs.States.{Waits};
ghost use Rattle.m2_base.specs.declared.notes.Notes.{Notes};
ghost use Rattle.expr_sem.specs.Codings.{Coding, IsFragment};
ghost use Rattle.expr_sem.specs.Fragments.{part};
ghost use Rattle.block_code.specs.ProcedureNames.{import_number as spec_import_number, import_of_target as spec_import};
ghost use Rattle.block_code.specs.ProcedureNames.{is_foreign as spec_foreign, is_own as spec_own};
ghost use Rattle.block_code.specs.ProcedureNames.{is_own_definition as spec_own_definition};
ghost use Rattle.block_code.specs.ProcedureNames.{procedure_code as spec_code, target_of_procedure as spec_target};
ghost use Rattle.expr_sem.specs.Targets.{target_view};
ghost use Rattle.type_rules.specs.Asks.{Reads};
ghost use Rattle.type_rules.specs.Scenes.{IsThere, WhereTold, block_of, scene_of};
ghost use Rattle.type_rules.specs.Sites.{SuitsSite};

use crate::answers::answered;
use crate::fragments::{Fragment, Fragments};
use crate::levels::level_of;
use code_form::Instr;
use m2_base::{Around, Ask, Memory, Place, Reply, RowMeaning, Scopes, Site, read_row};

/// A procedure as code names it: its type, and its number in its module.
#[derive(Clone, Copy)]
pub struct Target {
    pub of: Place,
    pub number: u32,
}

/// Whether a scope is that of the own definition.
fn is_own_definition(own: Option<u32>, scope: u32) -> bool
    ensures { result ≡ spec_own_definition own scope }
{
    own == Some(scope)
}

/// Whether a scope is the module's, or that of its own definition.
pub fn is_own(around: &Around, scope: u32) -> bool
    ensures { result ≡ spec_own (block_of around.now) scope }
{
    scope == around.module || is_own_definition(around.own, scope)
}

/// The number of a definition module among the imports, from 1: all of them in the order of their scopes, without the
/// own definition.
pub fn import_number(around: &Around, scope: u32) -> u32
    ensures { result ≡ spec_import_number (block_of around.now) scope }
{
    match around.own {
        Some(own) if own < scope => scope - 1,
        _ => scope,
    }
}

/// Whether a procedure is of an imported definition.
pub fn is_foreign(around: &Around, target: Target) -> bool
    ensures { result ≡ spec_foreign (block_of around.now) (target_view target) }
{
    level_of(around, target.of.scope) == 0 && !is_own(around, target.of.scope)
}

/// The number of the import that a procedure is of, 0 for the module itself.
pub fn import_of_target(around: &Around, target: Target) -> u32
    ensures { result ≡ spec_import (block_of around.now) (target_view target) }
{
    if is_foreign(around, target) {
        import_number(around, target.of.scope)
    } else {
        0
    }
}

/// The procedure that code names for one of this name. A heading of the own definition is the module's own procedure
/// of that name, if there is one; any other procedure is itself. Only statements name procedures, and each procedure
/// has a name: otherwise the error is that memory is wanted, which comes about in no module.
#[tactic(auto, using(type_rules::proofs::Reading::reading))]
pub fn target_of_procedure<S: Scopes>(
    scopes: &mut S,
    site: &Site,
    name: u32,
    named: Target,
) -> Result<Ask<Option<Target>>, Memory>
    requires suits { SuitsSite (S.state scopes.old).frame site.now }
    requires named { IsThere (S.state scopes.old).frame named.of }
    ensures reads { Reads (S.state scopes.old) (S.state scopes.new) }
    ensures waits { IfWaits result (λ head. Waits (S.state scopes.old) (S.state scopes.new) head) }
    ensures told { WhereTold (S.state scopes.old).frame (λ made.
        IfKnown result (λ given. option_map target_view given
        ≡ spec_target (scene_of (S.state scopes.old).frame made site.now.around.now) name named.of named.number)) }
    ensures there { IfKnown result (λ given. IfSome given (λ target. IsThere (S.state scopes.old).frame target.of)) }
{
    if !is_own_definition(site.around.own, named.of.scope) {
        return Ok(Ask::Known(Some(named)));
    }
    if name == 0 || site.item.is_some() {
        return Err(Memory);
    }
    match scopes.search(0, &[site.around.module], name) {
        Reply::Found(_, row) => match read_row(&row) {
            RowMeaning::Proc(of, number, _) => Ok(Ask::Known(Some(Target { of, number }))),
            _ => Ok(Ask::Known(None)),
        },
        Reply::Absent => Ok(Ask::Known(None)),
        Reply::DontKnowYet(head) if head.scope == site.around.scope => Ok(Ask::Known(None)),
        Reply::DontKnowYet(head) => Ok(Ask::DontKnowYet(head)),
    }
}

/// The code of a procedure as a value. Where the module lacks the procedure, its definition isn't implemented, which
/// is refused elsewhere.
pub fn procedure_code<S: Scopes>(
    scopes: &mut S,
    site: &Site,
    name: u32,
    named: Target,
    fragments: &mut Fragments,
) -> Result<Ask<Fragment>, Memory>
    requires suits { SuitsSite (S.state scopes.old).frame site.now }
    requires named { IsThere (S.state scopes.old).frame named.of }
    ensures { (notes : Notes) → Coding (S.state scopes.old) (S.state scopes.new) notes notes
        fragments.old.nodes.items fragments.new.nodes.items site.now result IsFragment part
        (λ c. gives (spec_code c.scene (spec_target c.scene name named.of named.number))) }
{
    match analysed!(target_of_procedure(scopes, site, name, named)) {
        Some(target) => {
            let import = import_of_target(site.around, target);
            answered(fragments.one(Instr::Proc(import, target.number)))
        }
        None => answered(fragments.one(Instr::Proc(0, 0))),
    }
}
