//! The variable of a FOR.
ghost use Rattle.std.specs.Prelude.{◌≡◌, ◌≢◌, List};
ghost use Rattle.m2_base.specs.Rows.{row_meaning};
ghost use Rattle.m2_base.specs.States.{Waits};
ghost use Rattle.expr_sem.specs.Codings.{Coding, IsCoded, coded_in};
ghost use Rattle.expr_sem.specs.declared.fragments.Node.{Node};
ghost use Rattle.type_rules.specs.Asks.{Reads, WhereKnown, WhereWaiting};
ghost use Rattle.type_rules.specs.Scenes.{IsRowOf, Suits, WhereTold, scene_of};
ghost use Rattle.type_rules.specs.Sites.{SuitsSite};
ghost use Rattle.block_code.specs.Counting.{can_control as spec_can, control_variable as spec_variable, controls_by};
ghost use Rattle.stmt_sem.specs.Stands.{IsStand};
ghost use Rattle.stmt_sem.specs.Walkers.{Codes, Keeps, frame_of, nodes_of};

use crate::stands::Stand;
use crate::walker::Walker;
use expr_sem::{Coded, Placed, entry_coded, field_of_withs, refused};
use m2_base::{
    Around, Ask, Diagnostic, Ident, Memory, Mode, Notes, Operand, Place, Row, RowMeaning, Scopes,
    Site, read_row,
};
use type_rules::{range_of, use_name};

/// Whether an entry is an ordinal variable of the block itself whose cell holds it.
#[tactic(auto, using(type_rules::proofs::Reading::reading))]
fn can_control<S: Scopes>(scopes: &mut S, around: &Around, entry: (Place, Row)) -> Ask<bool>
    requires suits { Suits (S.state scopes.old).frame around.now }
    requires entry { IsRowOf (S.state scopes.old).frame entry.0 entry.1 }
    ensures reads { Reads (S.state scopes.old) (S.state scopes.new) }
    ensures waits { WhereWaiting result (λ head. Waits (S.state scopes.old) (S.state scopes.new) head) }
    ensures told { WhereTold (S.state scopes.old).frame (λ made.
        WhereKnown result (λ holds.
        holds ≡ spec_can (scene_of (S.state scopes.old).frame made around.now) entry.0.scope (row_meaning entry.1))) }
{
    match read_row(&entry.1) {
        RowMeaning::Var(of, Mode::Plain, _) => {
            if entry.0.scope != around.scope {
                return Ask::Known(false);
            }
            Ask::Known(known!(range_of(scopes, around, of)).is_some())
        }
        _ => Ask::Known(false),
    }
}

/// The variable of a FOR that is bound to this entry and has this operand.
fn check_control<S: Scopes>(
    scopes: &mut S,
    site: &Site,
    entry: (Place, Row),
    x: Placed,
    notes: &mut Notes,
) -> Result<Ask<Coded>, Memory>
    requires suits { SuitsSite (S.state scopes.old).frame site.now }
    requires entry { IsRowOf (S.state scopes.old).frame entry.0 entry.1 }
    ensures { (nodes : List Node) → IsCoded (S.state scopes.old).frame nodes x.coded
        → Coding (S.state scopes.old) (S.state scopes.new) notes.old notes.new nodes nodes site.now result IsCoded
        coded_in (λ c. controls_by c x.at entry (coded_in nodes x.coded) x.coded.operand) }
{
    match x.coded.operand {
        Operand::InError => Ok(Ask::Known(Coded::in_error())),
        Operand::Variable(_) => {
            let holds = asked!(can_control(scopes, site.around, entry));
            if holds {
                return Ok(Ask::Known(x.coded));
            }
            refused(site, x.at, Diagnostic::NotAControlVariable, notes)
        }
        _ => refused(site, x.at, Diagnostic::NotAVariable, notes),
    }
}

impl<S: Scopes> Walker<'_, S> {
    /// The variable of a FOR; a field of an open WITH is none.
    pub(crate) fn control_variable(
        &mut self,
        stand: &Stand,
        ident: Ident,
    ) -> Result<Ask<Coded>, Memory>
        requires stand { IsStand (frame_of S.state self.old) stand.now }
        requires named { ident.name ≢ 0 }
        ensures keeps { Keeps self.old self.new }
        ensures codes { Codes S.state self.old self.new stand.now result IsCoded coded_in
            (λ s. spec_variable s.context s.withs ident) }
    {
        let (site, at) = (stand.site, ident.at);
        let field = asked!(field_of_withs(self.scopes, site.around, stand.withs, ident.name));
        if field.is_some() {
            return refused(site, at, Diagnostic::NotAControlVariable, self.notes);
        }
        let entry = analysed!(use_name(self.scopes, site, None, ident.name, at, self.notes));
        let Some(entry) = entry else {
            return Ok(Ask::Known(Coded::in_error()));
        };
        let coded = analysed!(entry_coded(self.scopes, site, Some(entry), self.fragments));
        check_control(self.scopes, site, entry, Placed { at, coded }, self.notes)
    }
}
