//! The statements of a block's body, each by itself.
ghost use Rattle.std.specs.Prelude.{◌≡◌, None};
ghost use Rattle.std.specs.Option.{IfSome};
ghost use Rattle.m2_base.specs.Views.{statement_view};
ghost use Rattle.block_code.specs.BlockCode.{in_statements};
ghost use Rattle.stmt_sem.specs.Flowings.{Flowing, IsFlow};
ghost use Rattle.expr_sem.specs.Fragments.{AreSound};
ghost use Rattle.stmt_sem.specs.FlowTrees.{flow_in};
ghost use Rattle.m2_base.specs.Statics.ReadStatements.{IsReadStatement};
ghost use Rattle.stmt_sem.specs.Stands.{at_first};
ghost use Rattle.block_code.specs.Statements.{statement_flow};
ghost use Rattle.type_rules.specs.Scenes.{IsThere};
ghost use Rattle.type_rules.specs.Sites.{SuitsSite};

use crate::flows::Flow;
use crate::stands::Stand;
use crate::statements::statement;
use expr_sem::{Fragments, Piece};
use m2_base::{Ask, Layout, Memory, Notes, Place, Scopes, Site, Statement};

/// A statement of a body, and the result of the body's procedure.
#[derive(Clone, Copy)]
pub struct TopStatement<'a> {
    pub of: &'a Statement,
    pub result: Option<Place>,
}

/// What the statements of a body make, and what they note.
#[derive(Drop)]
pub struct Stated {
    pub piece: Piece,
    pub notes: Notes,
}

/// What one statement of a body makes. All rows of the own scope count there, so the site's layout isn't asked.
pub fn top_statement<S: Scopes>(
    scopes: &mut S,
    site: &Site,
    top: &TopStatement,
    fragments: &mut Fragments,
    notes: &mut Notes,
) -> Result<Ask<Flow>, Memory>
    requires suits { SuitsSite (S.state scopes.old).frame site.now }
    requires item { site.now.item ≡ None }
    requires sound { AreSound fragments.old.nodes.items }
    requires read { IsReadStatement site.now.texts.now.names (statement_view top.now.of.now) }
    requires there { IfSome top.now.result (λ t. IsThere (S.state scopes.old).frame t) }
    ensures { Flowing (S.state scopes.old) (S.state scopes.new) notes.old notes.new
        fragments.old.nodes.items fragments.new.nodes.items site.now result IsFlow flow_in
        (λ c. statement_flow (at_first (in_statements c) top.now.result) (statement_view top.now.of.now)) }
{
    let texts = site.texts;
    let alloc = *texts.order.allocator();
    let layout = Layout::new(alloc, Vec::new(alloc), Vec::new(alloc))?;
    let place = Site {
        texts,
        around: site.around,
        layout: &layout,
        item: None,
    };
    let stand = Stand {
        site: &place,
        result: top.result,
        withs: &[],
        looped: false,
    };
    statement(scopes, &stand, top.of, fragments, notes)
}
