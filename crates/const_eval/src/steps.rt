//! What one step of an expression gives, with its diagnostic.
ghost use Rattle.std.specs.Prelude.{◌≡◌, ◌<◌, ◌^◌, [], length, slice_index_or};
ghost use Rattle.m2_base.specs.States.{Frame, State};
ghost use Rattle.m2_base.specs.Statics.Constants.{selected as spec_selected};
ghost use Rattle.m2_base.specs.Statics.Contexts.{Source};
ghost use Rattle.m2_base.specs.Statics.Operands.{string_length as spec_length};
ghost use Rattle.m2_base.specs.Statics.Operations.{apply_one as spec_apply, operate as spec_operate};
ghost use Rattle.m2_base.specs.Statics.Sets.{element_of as spec_element};
ghost use Rattle.const_eval.specs.Analyses.{Analysed};
ghost use Rattle.const_eval.specs.Sites.{IsOperand};
ghost use Rattle.type_rules.specs.Scenes.{IsThere};
ghost use Rattle.type_rules.specs.Sites.{SuitsSite};

use crate::noting::note;
use crate::operands::{Argument, PlacedOperator};
use crate::operators::{apply_one, operate};
use crate::sets::element_of;
use crate::values::selected;
use m2_base::{Ask, Memory, Notes, Operand, Place, Scopes, Site};

/// What a string in the text stands for, by its number among the unit's names: an operand that has its length too, in
/// characters. The empty string has one, of code 0.
pub fn string_constant(site: &Site, name: u32) -> Operand
    requires named { name < length site.now.texts.now.names }
    requires short { length (slice_index_or site.now.texts.now.names name []) < 2 ^ 32 }
    ensures told { (source : Source) → source.spellings ≡ site.now.texts.now.names
        → result ≡ Operand.StringConstant name (spec_length source name) }
    ensures there { (f : Frame) → site.now.texts.now ≡ f.setting.texts → IsOperand f result }
{
    let texts = site.texts;
    let bytes = texts.names.bytes(name);
    if bytes.is_empty() {
        Operand::StringConstant(name, 1)
    } else {
        Operand::StringConstant(name, bytes.len() as u32)
    }
}

/// A selector on what isn't a module.
pub fn picked(
    site: &Site,
    at: u32,
    operand: Operand,
    notes: &mut Notes,
) -> Result<Ask<Operand>, Memory>
    ensures { (state : State)
        → Analysed state state notes.old notes.new site.now result IsOperand (λ c. spec_selected c at operand) }
{
    note(site.around.text, Ask::Known(selected(at, operand)), notes)
}

/// An operator applied to the one operand behind it: what `apply_one` judges. A fault is noted in the site's text, and
/// then the result is in error. It waits for the operand's type.
pub fn applied_one<S: Scopes>(
    scopes: &mut S,
    site: &Site,
    operator: PlacedOperator,
    operand: Operand,
    notes: &mut Notes,
) -> Result<Ask<Operand>, Memory>
    requires suits { SuitsSite (S.state scopes.old).frame site.now }
    requires operand { IsOperand (S.state scopes.old).frame operand }
    ensures { Analysed (S.state scopes.old) (S.state scopes.new) notes.old notes.new site.now result IsOperand
        (λ c. spec_apply c operator.operator operator.at operand) }
{
    let given = apply_one(scopes, site, operator, operand);
    note(site.around.text, given, notes)
}

/// An operator applied to the operands on both sides: what `operate` judges. A fault is noted in the site's text, and
/// then the result is in error. It waits for both types.
pub fn operated<S: Scopes>(
    scopes: &mut S,
    site: &Site,
    operator: PlacedOperator,
    sides: (Argument, Argument),
    notes: &mut Notes,
) -> Result<Ask<Operand>, Memory>
    requires suits { SuitsSite (S.state scopes.old).frame site.now }
    requires x { IsOperand (S.state scopes.old).frame sides.0.operand }
    requires y { IsOperand (S.state scopes.old).frame sides.1.operand }
    ensures { Analysed (S.state scopes.old) (S.state scopes.new) notes.old notes.new site.now result IsOperand
        (λ c. spec_operate c operator.operator operator.at sides.0.operand sides.0.at sides.1.operand sides.1.at) }
{
    let given = operate(scopes, site, operator, sides.0, sides.1);
    note(site.around.text, given, notes)
}

/// An operand taken as an element into a set with this base: what `element_of` judges. A fault is noted in the site's
/// text, and then the element is in error. It waits for both types.
pub fn taken<S: Scopes>(
    scopes: &mut S,
    site: &Site,
    base: Place,
    x: Argument,
    notes: &mut Notes,
) -> Result<Ask<Operand>, Memory>
    requires suits { SuitsSite (S.state scopes.old).frame site.now }
    requires base { IsThere (S.state scopes.old).frame base }
    requires x { IsOperand (S.state scopes.old).frame x.operand }
    ensures { Analysed (S.state scopes.old) (S.state scopes.new) notes.old notes.new site.now result IsOperand
        (λ c. spec_element c base x.at x.operand) }
{
    let given = element_of(scopes, site, base, x.at, x.operand);
    note(site.around.text, given, notes)
}
