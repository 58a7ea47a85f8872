//! What is checked when the scope of a block is complete: its closing name, and in an implementation module that it
//! has all that its definition promises.
ghost use Rattle.std.specs.Prelude.{◌≡◌, ◌<◌, ◌++◌, ◌||◌, [], IfOk, None, Some, true};
ghost use Rattle.m2_base.specs.Asks.{IfKnown, IfWaits};
ghost use Rattle.m2_base.specs.States.{Waits, fills_of};
ghost use Rattle.m2_base.specs.Statics.Closing.{all_implemented, block_name as spec_block_name, closing_diags};
ghost use Rattle.m2_base.specs.Statics.Closing.{implementation_diags, name_diags, own_diags};
ghost use Rattle.m2_base.specs.Statics.Contexts.{Context};
ghost use Rattle.m2_base.specs.Tables.{rows_at};
ghost use Rattle.m2_base.specs.Views.{stream_view};
ghost use Rattle.type_rules.specs.Asks.{Reads};
ghost use Rattle.type_rules.specs.Scenes.{IsRowOf, Suits, WhereTold, rows_of};
ghost use Rattle.type_rules.specs.Sites.{SuitsSite, context_of};
ghost use Rattle.decl_sem.specs.Closing.{AreChecked, row_implemented};

use crate::implementing::{Implemented, implementation_of};
use m2_base::{Ask, Diag, Diagnostic, Ident, Memory, Notes, Place, Row, Scopes, Site, Stream};
use std::alloc::Global;
use type_rules::row_before;

/// The name of a block: its procedure's, or its module's.
fn block_name(stream: &Stream) -> Option<Ident>
    ensures { result ≡ spec_block_name (stream_view stream.now) }
{
    match &stream.heading {
        Some(heading) => Some(heading.name),
        None => stream.name,
    }
}

/// A block is closed by its own name.
fn check_name(
    text: u32,
    close: Ident,
    name: Option<Ident>,
    diags: &mut Vec<Diag>,
) -> Result<(), Memory>
    ensures { IfOk result (λ _.
        (c : Context) → c.scene.block.text ≡ text → diags.new.items ≡ diags.old.items ++ name_diags c close name) }
{
    let Some(name) = name else {
        return Ok(());
    };
    if name.name != close.name {
        let at = close.at;
        let code = Diagnostic::ClosingNameDiffers.code();
        diags.push(Diag { text, at, code })?;
    }
    Ok(())
}

/// Checks a row of the definition: whether nothing implements it. A procedure that differs from its heading is refused
/// at its name.
#[tactic(auto, using(type_rules::proofs::Reading::reading))]
fn check_row<S: Scopes>(
    scopes: &mut S,
    site: &Site,
    place: Place,
    row: &Row,
    notes: &mut Notes,
) -> Result<Ask<bool>, Memory>
    requires suits { Suits (S.state scopes.old).frame site.now.around.now }
    requires complete { (S.state scopes.old).frame.closed ≡ true }
    requires row { IsRowOf (S.state scopes.old).frame place row.now }
    ensures reads { Reads (S.state scopes.old) (S.state scopes.new) }
    ensures waits { IfWaits result (λ head. Waits (S.state scopes.old) (S.state scopes.new) head) }
    ensures told { WhereTold (S.state scopes.old).frame (λ made.
        let c = context_of (S.state scopes.old).frame made site.now in IfKnown result (λ missing.
        AreChecked c (row_implemented c place row.now) notes.old.diags.items notes.new.diags.items missing)) }
    ensures answers { notes.new.answers.items ≡ notes.old.answers.items }
{
    if row.name == 0 {
        return Ok(Ask::Known(false));
    }
    match asked!(implementation_of(scopes, site.around, place, row)) {
        Implemented::Fully => Ok(Ask::Known(false)),
        Implemented::Missing => Ok(Ask::Known(true)),
        Implemented::Differs(at) => {
            notes.refuse(site.around.text, at, Diagnostic::HeadingDiffers)?;
            Ok(Ask::Known(false))
        }
    }
}

/// Whether one of two holds.
fn either(one: bool, other: bool) -> bool
    ensures { result ≡ (one || other) }
{
    one || other
}

/// Checks all rows of the definition: whether nothing implements one of them.
#[tactic(auto, using(type_rules::proofs::Reading::reading))]
fn check_rows<S: Scopes>(
    scopes: &mut S,
    site: &Site,
    own: u32,
    notes: &mut Notes,
) -> Result<Ask<bool>, Memory>
    requires suits { Suits (S.state scopes.old).frame site.now.around.now }
    requires complete { (S.state scopes.old).frame.closed ≡ true }
    requires before { own < fills_of (S.state scopes.old) }
    ensures reads { Reads (S.state scopes.old) (S.state scopes.new) }
    ensures waits { IfWaits result (λ head. Waits (S.state scopes.old) (S.state scopes.new) head) }
    ensures told { WhereTold (S.state scopes.old).frame (λ made.
        let c = context_of (S.state scopes.old).frame made site.now in
        IfKnown result (λ missing. AreChecked c (all_implemented c.scene own 0 (rows_at c.scene.tables own))
        notes.old.diags.items notes.new.diags.items missing)) }
    ensures answers { notes.new.answers.items ≡ notes.old.answers.items }
{
    let mut missing = false;
    for ordinal in 0..u32::MAX {
        let place = Place {
            scope: own,
            ordinal,
        };
        let Some(row) = asked!(row_before(scopes, site.around, place)) else {
            return Ok(Ask::Known(missing));
        };
        let lacks = analysed!(check_row(scopes, site, place, &row, notes));
        missing = either(missing, lacks);
    }
    Ok(Ask::Known(missing))
}

/// Checks a module against its definition. What is missing is refused once, at the module's name.
#[tactic(auto, using(type_rules::proofs::Reading::reading))]
fn check_own<S: Scopes>(
    scopes: &mut S,
    site: &Site,
    name: Ident,
    own: u32,
    notes: &mut Notes,
) -> Result<Ask<()>, Memory>
    requires suits { Suits (S.state scopes.old).frame site.now.around.now }
    requires complete { (S.state scopes.old).frame.closed ≡ true }
    requires before { own < fills_of (S.state scopes.old) }
    ensures reads { Reads (S.state scopes.old) (S.state scopes.new) }
    ensures waits { IfWaits result (λ head. Waits (S.state scopes.old) (S.state scopes.new) head) }
    ensures told { WhereTold (S.state scopes.old).frame (λ made.
        let c = context_of (S.state scopes.old).frame made site.now in
        IfKnown result (λ _. notes.new.diags.items ≡ notes.old.diags.items
        ++ implementation_diags c (Some name) (all_implemented c.scene own 0 (rows_at c.scene.tables own)))) }
    ensures answers { notes.new.answers.items ≡ notes.old.answers.items }
{
    let missing = analysed!(check_rows(scopes, site, own, notes));
    if missing {
        notes.refuse(site.around.text, name.at, Diagnostic::NotImplemented)?;
        return Ok(Ask::Known(()));
    }
    Ok(Ask::Known(()))
}

/// Checks a module against its own definition, where it has one. A procedure is not checked.
#[tactic(auto, using(type_rules::proofs::Reading::reading))]
fn check_definition<S: Scopes>(
    scopes: &mut S,
    site: &Site,
    stream: &Stream,
    notes: &mut Notes,
) -> Result<Ask<()>, Memory>
    requires suits { Suits (S.state scopes.old).frame site.now.around.now }
    requires complete { (S.state scopes.old).frame.closed ≡ true }
    ensures reads { Reads (S.state scopes.old) (S.state scopes.new) }
    ensures waits { IfWaits result (λ head. Waits (S.state scopes.old) (S.state scopes.new) head) }
    ensures told { WhereTold (S.state scopes.old).frame (λ made.
        let c = context_of (S.state scopes.old).frame made site.now in IfKnown result (λ _. notes.new.diags.items
        ≡ notes.old.diags.items ++ own_diags c (stream_view stream.now) site.now.around.now.own)) }
    ensures answers { notes.new.answers.items ≡ notes.old.answers.items }
{
    if site.around.level != 0 {
        return Ok(Ask::Known(()));
    }
    let Some(own) = site.around.own else {
        return Ok(Ask::Known(()));
    };
    let Some(name) = stream.name else {
        return Ok(Ask::Known(()));
    };
    check_own(scopes, site, name, own, notes)
}

/// What is noted of the closing name of a block.
fn check_closing(alloc: Global, text: u32, stream: &Stream) -> Result<Notes, Memory>
    ensures told { IfOk result (λ notes. (c : Context) → c.scene.block.text ≡ text
        → notes.diags.items ≡ name_diags c stream.now.close (spec_block_name (stream_view stream.now))) }
    ensures answers { IfOk result (λ notes. notes.answers.items ≡ []) }
{
    let mut notes = Notes::new(alloc);
    check_name(text, stream.close, block_name(stream), &mut notes.diags)?;
    Ok(notes)
}

/// Checks a block whose scope is complete: it is closed by its own name, and an implementation module has all that its
/// definition promises. It waits until that is complete.
#[tactic(auto, using(type_rules::proofs::Reading::reading))]
pub fn close_check<S: Scopes>(
    alloc: Global,
    scopes: &mut S,
    site: &Site,
    stream: &Stream,
) -> Result<Ask<Notes>, Memory>
    requires suits { SuitsSite (S.state scopes.old).frame site.now }
    requires statements { site.now.item ≡ None }
    ensures reads { Reads (S.state scopes.old) (S.state scopes.new) }
    ensures waits { IfWaits result (λ head. Waits (S.state scopes.old) (S.state scopes.new) head) }
    ensures told { WhereTold (S.state scopes.old).frame (λ made.
        IfKnown result (λ notes. notes.diags.items
        ≡ closing_diags (context_of (S.state scopes.old).frame made site.now) (stream_view stream.now))) }
    ensures answers { IfKnown result (λ notes. notes.answers.items ≡ []) }
{
    let mut notes = check_closing(alloc, site.around.text, stream)?;
    analysed!(check_definition(scopes, site, stream, &mut notes));
    Ok(Ask::Known(notes))
}
