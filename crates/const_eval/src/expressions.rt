//! What an expression stands for in a constant.
ghost use Rattle.std.specs.Prelude.{map};
ghost use Rattle.m2_base.specs.Statics.Constants.{designator_in as spec_designator, element_in as spec_element};
ghost use Rattle.m2_base.specs.Statics.Constants.{elements_in as spec_elements, indices_in as spec_indices};
ghost use Rattle.m2_base.specs.Statics.Constants.{many_in as spec_many};
ghost use Rattle.m2_base.specs.Statics.Constants.{operand_in as spec_operand, selector_in as spec_selector};
ghost use Rattle.m2_base.specs.Statics.Sets.{no_elements as spec_none, set_base as spec_base};
ghost use Rattle.m2_base.specs.Trees.{exprs, labels, nexts};
ghost use Rattle.m2_base.specs.Views.{designator_view, expr_view, label_view, next_view, selector_view};
ghost use Rattle.const_eval.specs.Analyses.{Analysed};
ghost use Rattle.const_eval.specs.Parts.{called_in as spec_called};
ghost use Rattle.const_eval.specs.Parts.{member_in as spec_member, value_in as spec_value};
ghost use Rattle.m2_base.specs.Statics.ReadTrees.{AreReadExprs, AreReadLabels, AreReadNexts};
ghost use Rattle.m2_base.specs.Statics.ReadTrees.{IsReadDesignator, IsReadExpr, IsReadLabel};
ghost use Rattle.m2_base.specs.Statics.ReadTrees.{IsReadSelector};
ghost use Rattle.const_eval.specs.Sites.{IsOperand};
ghost use Rattle.type_rules.specs.Scenes.{IsThere};
ghost use Rattle.type_rules.specs.Sites.{SuitsSite};

use crate::arguments::Arguments;
use crate::calls::{call_with, value_noted};
use crate::names::name_operand;
use crate::noting::note_type;
use crate::operands::{Argument, BasedSet, PlacedOperator};
use crate::set_bits::with_elements;
use crate::sets::{no_elements, set_base, set_type_of};
use crate::steps::{applied_one, operated, picked, string_constant, taken};
use crate::values::spoilt_by;
use m2_base::{
    Ask, Designator, Expr, ExprForm, Label, Memory, Next, Notes, Operand, Place, Scopes, Selector,
    Site,
};
use type_rules::{BITSET, CHARACTER, WHOLE};

/// The operand of an expression.
#[cycle(expressions)]
fn operand_in<S: Scopes>(
    scopes: &mut S,
    site: &Site,
    e: &Expr,
    notes: &mut Notes,
) -> Result<Ask<Operand>, Memory>
    requires suits { SuitsSite (S.state scopes.old).frame site.now }
    requires read { IsReadExpr site.now.texts.now.names (expr_view e.now) }
    ensures { Analysed (S.state scopes.old) (S.state scopes.new) notes.old notes.new site.now result IsOperand
        (λ c. spec_operand c (expr_view e.now)) }
{
    match &e.form {
        ExprForm::Number(value) => Ok(Ask::Known(Operand::Constant(WHOLE, *value as i64))),
        ExprForm::Char(value) => Ok(Ask::Known(Operand::Constant(CHARACTER, *value as i64))),
        ExprForm::Str(name) => Ok(Ask::Known(string_constant(site, *name))),
        ExprForm::Set { of, items } => match of {
            None => set_in(scopes, site, BITSET, items, notes),
            Some(name) => {
                let operand = analysed!(designator_in(scopes, site, name, notes));
                let given = set_type_of(scopes, site, name.first.at, operand);
                let place = analysed!(note_type(site.around.text, given, notes));
                set_in(scopes, site, place, items, notes)
            }
        },
        ExprForm::Name(name) => designator_in(scopes, site, name, notes),
        ExprForm::Call { to, args } => {
            let operand = analysed!(designator_in(scopes, site, to, notes));
            let called = Argument {
                at: to.first.at,
                operand,
            };
            called_in(scopes, site, called, args, notes)
        }
        ExprForm::One { op, op_at, of } => {
            let x = analysed!(value_in(scopes, site, of, notes));
            let operator = PlacedOperator {
                at: *op_at,
                operator: *op,
            };
            applied_one(scopes, site, operator, x, notes)
        }
        ExprForm::Many { first, rest } => {
            let operand = analysed!(value_in(scopes, site, first, notes));
            let left = Argument { at: e.at, operand };
            nexts_in(scopes, site, left, rest, notes)
        }
    }
}

/// The operand of an expression where a value is wanted.
#[cycle(expressions)]
pub fn value_in<S: Scopes>(
    scopes: &mut S,
    site: &Site,
    e: &Expr,
    notes: &mut Notes,
) -> Result<Ask<Operand>, Memory>
    requires suits { SuitsSite (S.state scopes.old).frame site.now }
    requires read { IsReadExpr site.now.texts.now.names (expr_view e.now) }
    ensures { Analysed (S.state scopes.old) (S.state scopes.new) notes.old notes.new site.now result IsOperand
        (λ c. spec_value c (expr_view e.now)) }
{
    let operand = analysed!(operand_in(scopes, site, e, notes));
    value_noted(site, e.at, operand, notes)
}

/// The operators of one sum, one term or one relation, each with the operand behind it.
#[cycle(expressions)]
fn nexts_in<S: Scopes>(
    scopes: &mut S,
    site: &Site,
    first: Argument,
    rest: &[Next],
    notes: &mut Notes,
) -> Result<Ask<Operand>, Memory>
    requires suits { SuitsSite (S.state scopes.old).frame site.now }
    requires first { IsOperand (S.state scopes.old).frame first.operand }
    requires read { AreReadNexts site.now.texts.now.names (nexts (map next_view rest.now)) }
    ensures { Analysed (S.state scopes.old) (S.state scopes.new) notes.old notes.new site.now result IsOperand
        (λ c. spec_many c first.at first.operand (nexts (map next_view rest.now))) }
{
    let at = first.at;
    let mut operand = first.operand;
    for next in rest.iter() {
        let behind = analysed!(value_in(scopes, site, &next.right, notes));
        let left = Argument { at, operand };
        let right = Argument {
            at: next.right.at,
            operand: behind,
        };
        let operator = PlacedOperator {
            at: next.op_at,
            operator: next.op,
        };
        operand = analysed!(operated(scopes, site, operator, (left, right), notes));
    }
    Ok(Ask::Known(operand))
}

/// A set of this type with these elements.
#[cycle(expressions)]
fn set_in<S: Scopes>(
    scopes: &mut S,
    site: &Site,
    of: Place,
    items: &[Label],
    notes: &mut Notes,
) -> Result<Ask<Operand>, Memory>
    requires suits { SuitsSite (S.state scopes.old).frame site.now }
    requires of { IsThere (S.state scopes.old).frame of }
    requires read { AreReadLabels site.now.texts.now.names (labels (map label_view items.now)) }
    ensures { Analysed (S.state scopes.old) (S.state scopes.new) notes.old notes.new site.now result IsOperand
        (λ c. spec_elements c (spec_base c of) (spec_none c of) (labels (map label_view items.now))) }
{
    let base = match set_base(scopes, site, of) {
        Ask::Known(base) => base,
        Ask::DontKnowYet(head) => return Ok(Ask::DontKnowYet(head)),
    };
    let set = match no_elements(scopes, site, of) {
        Ask::Known(set) => set,
        Ask::DontKnowYet(head) => return Ok(Ask::DontKnowYet(head)),
    };
    elements_in(scopes, site, BasedSet { base, set }, items, notes)
}

/// A set with further elements.
#[cycle(expressions)]
fn elements_in<S: Scopes>(
    scopes: &mut S,
    site: &Site,
    of: BasedSet,
    items: &[Label],
    notes: &mut Notes,
) -> Result<Ask<Operand>, Memory>
    requires suits { SuitsSite (S.state scopes.old).frame site.now }
    requires base { IsThere (S.state scopes.old).frame of.base }
    requires set { IsOperand (S.state scopes.old).frame of.set }
    requires read { AreReadLabels site.now.texts.now.names (labels (map label_view items.now)) }
    ensures { Analysed (S.state scopes.old) (S.state scopes.new) notes.old notes.new site.now result IsOperand
        (λ c. spec_elements c of.base of.set (labels (map label_view items.now))) }
{
    let base = of.base;
    let mut set = of.set;
    for label in items.iter() {
        set = analysed!(element_in(scopes, site, BasedSet { base, set }, label, notes));
    }
    Ok(Ask::Known(set))
}

/// A set with one further element, or with those of a range.
#[cycle(expressions)]
fn element_in<S: Scopes>(
    scopes: &mut S,
    site: &Site,
    of: BasedSet,
    label: &Label,
    notes: &mut Notes,
) -> Result<Ask<Operand>, Memory>
    requires suits { SuitsSite (S.state scopes.old).frame site.now }
    requires base { IsThere (S.state scopes.old).frame of.base }
    requires set { IsOperand (S.state scopes.old).frame of.set }
    requires read { IsReadLabel site.now.texts.now.names (label_view label.now) }
    ensures { Analysed (S.state scopes.old) (S.state scopes.new) notes.old notes.new site.now result IsOperand
        (λ c. spec_element c of.base of.set (label_view label.now)) }
{
    let low = analysed!(member_in(scopes, site, of.base, &label.low, notes));
    match &label.high {
        None => Ok(Ask::Known(with_elements(of.set, low, low))),
        Some(high) => {
            let high = analysed!(member_in(scopes, site, of.base, high, notes));
            Ok(Ask::Known(with_elements(of.set, low, high)))
        }
    }
}

/// An expression as it is taken into a set.
#[cycle(expressions)]
fn member_in<S: Scopes>(
    scopes: &mut S,
    site: &Site,
    base: Place,
    e: &Expr,
    notes: &mut Notes,
) -> Result<Ask<Operand>, Memory>
    requires suits { SuitsSite (S.state scopes.old).frame site.now }
    requires base { IsThere (S.state scopes.old).frame base }
    requires read { IsReadExpr site.now.texts.now.names (expr_view e.now) }
    ensures { Analysed (S.state scopes.old) (S.state scopes.new) notes.old notes.new site.now result IsOperand
        (λ c. spec_member c base (expr_view e.now)) }
{
    let operand = analysed!(value_in(scopes, site, e, notes));
    taken(scopes, site, base, Argument { at: e.at, operand }, notes)
}

/// What a designator stands for.
#[cycle(expressions)]
fn designator_in<S: Scopes>(
    scopes: &mut S,
    site: &Site,
    of: &Designator,
    notes: &mut Notes,
) -> Result<Ask<Operand>, Memory>
    requires suits { SuitsSite (S.state scopes.old).frame site.now }
    requires read { IsReadDesignator site.now.texts.now.names (designator_view of.now) }
    ensures { Analysed (S.state scopes.old) (S.state scopes.new) notes.old notes.new site.now result IsOperand
        (λ c. spec_designator c (designator_view of.now)) }
{
    let at = of.first.at;
    let mut operand = analysed!(name_operand(scopes, site, None, of.first, notes));
    for selector in of.rest.iter() {
        operand = analysed!(selector_in(scopes, site, Argument { at, operand }, selector, notes));
    }
    Ok(Ask::Known(operand))
}

/// What a selector selects: a name behind a point is, of a module, that name in it.
#[cycle(expressions)]
fn selector_in<S: Scopes>(
    scopes: &mut S,
    site: &Site,
    of: Argument,
    selector: &Selector,
    notes: &mut Notes,
) -> Result<Ask<Operand>, Memory>
    requires suits { SuitsSite (S.state scopes.old).frame site.now }
    requires of { IsOperand (S.state scopes.old).frame of.operand }
    requires read { IsReadSelector site.now.texts.now.names (selector_view selector.now) }
    ensures { Analysed (S.state scopes.old) (S.state scopes.new) notes.old notes.new site.now result IsOperand
        (λ c. spec_selector c of.at of.operand (selector_view selector.now)) }
{
    match selector {
        Selector::Field(ident, _) => match of.operand {
            Operand::ModuleName(scope) => name_operand(scopes, site, Some(scope), *ident, notes),
            _ => picked(site, of.at, of.operand, notes),
        },
        Selector::Index(es, _) => indices_in(scopes, site, of, es, notes),
        Selector::Deref(_) => picked(site, of.at, of.operand, notes),
    }
}

/// Index expressions are looked at for their own sake.
#[cycle(expressions)]
fn indices_in<S: Scopes>(
    scopes: &mut S,
    site: &Site,
    of: Argument,
    es: &[Expr],
    notes: &mut Notes,
) -> Result<Ask<Operand>, Memory>
    requires suits { SuitsSite (S.state scopes.old).frame site.now }
    requires of { IsOperand (S.state scopes.old).frame of.operand }
    requires read { AreReadExprs site.now.texts.now.names (exprs (map expr_view es.now)) }
    ensures { Analysed (S.state scopes.old) (S.state scopes.new) notes.old notes.new site.now result IsOperand
        (λ c. spec_indices c of.at of.operand (exprs (map expr_view es.now))) }
{
    let at = of.at;
    let mut operand = of.operand;
    for e in es.iter() {
        let index = analysed!(value_in(scopes, site, e, notes));
        let part = analysed!(picked(site, at, operand, notes));
        operand = spoilt_by(index, part);
    }
    Ok(Ask::Known(operand))
}

/// A call of an operand; its arguments are summed up first.
#[cycle(expressions)]
fn called_in<S: Scopes>(
    scopes: &mut S,
    site: &Site,
    to: Argument,
    es: &[Expr],
    notes: &mut Notes,
) -> Result<Ask<Operand>, Memory>
    requires suits { SuitsSite (S.state scopes.old).frame site.now }
    requires to { IsOperand (S.state scopes.old).frame to.operand }
    requires read { AreReadExprs site.now.texts.now.names (exprs (map expr_view es.now)) }
    ensures { Analysed (S.state scopes.old) (S.state scopes.new) notes.old notes.new site.now result IsOperand
        (λ c. spec_called c to.at to.operand (exprs (map expr_view es.now))) }
{
    let mut args = Arguments::new();
    for e in es.iter() {
        let operand = analysed!(operand_in(scopes, site, e, notes));
        args = args.with(Argument { at: e.at, operand });
    }
    call_with(scopes, site, to, args, notes)
}
