//! Reading expressions. `depth` is the number of levels that are left.
ghost use Rattle.std.specs.Prelude.{◌≡◌, [], ◌∷◌, map, length, IfOk};
ghost use Rattle.m2_base.specs.Trees.{with_operators as spec_with_operators};
ghost use Rattle.m2_base.specs.Views.{expr_view, next_view, designator_view, selector_view, label_view};
ghost use Rattle.m2_parse.specs.Reading.{Gives, depth_fault, until};
ghost use Rattle.m2_parse.specs.ReadExpressions.{begins_factor as spec_begins_factor, begins_expr as spec_begins_expr};
ghost use Rattle.m2_parse.specs.ReadExpressions.{begins_selector as spec_begins_selector, number_at, char_at};
ghost use Rattle.m2_parse.specs.ReadExpressions.{string_at, next_factor_with, factors_with, term_with, next_term_with};
ghost use Rattle.m2_parse.specs.ReadExpressions.{terms_with, first_term_with, sum_with, relation_with, expr_with};
ghost use Rattle.m2_parse.specs.ReadExpressions.{exprs_with, upper_with, label_with_upper, labels_with, elements_with};
ghost use Rattle.m2_parse.specs.ReadExpressions.{set_with, arguments_with, actuals_with, selector_with};
ghost use Rattle.m2_parse.specs.ReadExpressions.{selectors_with, designator_with, selection_with, designated_with};
ghost use Rattle.m2_parse.specs.ReadExpressions.{plain_set_with, bracketed_with, negated_with};
ghost use Rattle.m2_parse.specs.ReadExpressions.{inner_factor as spec_inner_factor, factor_at};

use crate::faults::{ReadFault, Refusal};
use crate::lists::{list_of, listed, repeated};
use crate::names::ident;
use crate::operators::{
    expect_adding, expect_multiplying, expect_relation, expect_sign, is_adding, is_multiplying,
    is_relation, is_sign,
};
use crate::tokens::Tokens;
use m2_base::{Designator, Expr, ExprForm, Label, Next, Operator, Selector, TokenKind};
use std::alloc::{AllocError, Global};

fn begins_factor(tokens: &Tokens) -> bool
    ensures { result ≡ spec_begins_factor tokens.now.list.now }
{
    tokens.next_in(&[
        TokenKind::Number,
        TokenKind::Character,
        TokenKind::String,
        TokenKind::LeftBrace,
        TokenKind::Identifier,
        TokenKind::LeftParenthesis,
        TokenKind::Not,
    ])
}

pub fn begins_expr(tokens: &Tokens) -> bool
    ensures { result ≡ spec_begins_expr tokens.now.list.now }
{
    tokens.next_in(&[
        TokenKind::Plus,
        TokenKind::Minus,
        TokenKind::Number,
        TokenKind::Character,
        TokenKind::String,
        TokenKind::LeftBrace,
        TokenKind::Identifier,
        TokenKind::LeftParenthesis,
        TokenKind::Not,
    ])
}

fn begins_selector(tokens: &Tokens) -> bool
    ensures { result ≡ spec_begins_selector tokens.now.list.now }
{
    tokens.next_in(&[TokenKind::Period, TokenKind::LeftBracket, TokenKind::Arrow])
}

/// No token of a counted rule may stand here: it is too deep where one would begin.
pub fn too_deep(begins: bool, tokens: &Tokens) -> ReadFault
    ensures { result ≡ depth_fault begins tokens.now.list.now }
{
    if begins {
        ReadFault::Refused(Refusal::TooDeep { at: tokens.place() })
    } else {
        tokens.refused()
    }
}

/// An expression with the operators behind it.
#[tactic(auto, using(std::proofs::lemmas::Grind::common_steps, m2_base::proofs::Seen::expr_seen, m2_base::proofs::Seen::many_seen))]
fn with_operators(alloc: Global, first: Expr, rest: Vec<Next>) -> Result<Expr, AllocError>
    ensures { IfOk result (λ e. expr_view e ≡ spec_with_operators (expr_view first) (map next_view rest.items)) }
{
    if rest.is_empty() {
        return Ok(first);
    }
    let at = first.at;
    let first = Box::new(alloc, first)?;
    Ok(Expr {
        at,
        form: ExprForm::Many { first, rest },
    })
}

/// An expression with the operator behind it.
fn with_operator(alloc: Global, first: Expr, next: Next) -> Result<Expr, AllocError>
    ensures { IfOk result (λ e. expr_view e ≡ spec_with_operators (expr_view first) (next_view next ∷ [])) }
{
    let rest = list_of(alloc, next)?;
    with_operators(alloc, first, rest)
}

#[tactic(auto, using(std::proofs::lemmas::Grind::common_steps, m2_base::proofs::Seen::expr_seen, m2_base::proofs::Seen::number_seen), unfolding(crate::specs::ReadExpressions::number_at))]
fn number(tokens: &mut Tokens) -> Result<Expr, ReadFault>
    ensures { Gives (λ x. (expr_view x, tokens.new.list.now)) result (number_at tokens.old.list.now) }
{
    let t = tokens.expect(TokenKind::Number)?;
    let form = ExprForm::Number(t.value);
    Ok(Expr { at: t.at, form })
}

#[tactic(auto, using(std::proofs::lemmas::Grind::common_steps, m2_base::proofs::Seen::expr_seen, m2_base::proofs::Seen::char_seen), unfolding(crate::specs::ReadExpressions::char_at))]
fn character(tokens: &mut Tokens) -> Result<Expr, ReadFault>
    ensures { Gives (λ x. (expr_view x, tokens.new.list.now)) result (char_at tokens.old.list.now) }
{
    let t = tokens.expect(TokenKind::Character)?;
    let form = ExprForm::Char(t.value);
    Ok(Expr { at: t.at, form })
}

#[tactic(auto, using(std::proofs::lemmas::Grind::common_steps, m2_base::proofs::Seen::expr_seen, m2_base::proofs::Seen::string_seen), unfolding(crate::specs::ReadExpressions::string_at))]
fn string(tokens: &mut Tokens) -> Result<Expr, ReadFault>
    ensures { Gives (λ x. (expr_view x, tokens.new.list.now)) result (string_at tokens.old.list.now) }
{
    let t = tokens.expect(TokenKind::String)?;
    let form = ExprForm::Str(t.value as u32);
    Ok(Expr { at: t.at, form })
}

/// A factor, one level deeper.
#[cycle(expressions)]
#[tactic(auto, unfolding(crate::specs::ReadExpressions::factor_at))]
fn factor(alloc: Global, tokens: &mut Tokens, depth: usize) -> Result<Expr, ReadFault>
    ensures { Gives (λ x. (expr_view x, tokens.new.list.now)) result (factor_at depth tokens.old.list.now) }
{
    if depth == 0 {
        return Err(too_deep(begins_factor(tokens), tokens));
    }
    inner_factor(alloc, tokens, depth - 1)
}

/// Factor = number | char | string | Set | Designator [Set | Actuals] | "(" Expr ")" | NOT Factor
#[cycle(expressions)]
#[tactic(auto, unfolding(crate::specs::ReadExpressions::inner_factor))]
fn inner_factor(alloc: Global, tokens: &mut Tokens, depth: usize) -> Result<Expr, ReadFault>
    ensures { Gives (λ x. (expr_view x, tokens.new.list.now)) result
        (spec_inner_factor (factor_at depth) tokens.old.list.now) }
{
    if tokens.next_is(TokenKind::Number) {
        return number(tokens);
    }
    if tokens.next_is(TokenKind::Character) {
        return character(tokens);
    }
    if tokens.next_is(TokenKind::String) {
        return string(tokens);
    }
    if tokens.next_is(TokenKind::LeftBrace) {
        return plain_set(alloc, tokens, depth);
    }
    if tokens.next_is(TokenKind::Identifier) {
        return designated(alloc, tokens, depth);
    }
    if tokens.next_is(TokenKind::LeftParenthesis) {
        return bracketed(alloc, tokens, depth);
    }
    negated(alloc, tokens, depth)
}

/// A set with no type before it.
#[cycle(expressions)]
fn plain_set(alloc: Global, tokens: &mut Tokens, depth: usize) -> Result<Expr, ReadFault>
    ensures { Gives (λ x. (expr_view x, tokens.new.list.now)) result
        (plain_set_with (factor_at depth) tokens.old.list.now) }
{
    let (at, items) = set(alloc, tokens, depth)?;
    let form = ExprForm::Set { of: None, items };
    Ok(Expr { at, form })
}

/// "(" Expr ")"
#[cycle(expressions)]
fn bracketed(alloc: Global, tokens: &mut Tokens, depth: usize) -> Result<Expr, ReadFault>
    ensures { Gives (λ x. (expr_view x, tokens.new.list.now)) result
        (bracketed_with (factor_at depth) tokens.old.list.now) }
{
    let open = tokens.expect(TokenKind::LeftParenthesis)?;
    let mut inner = expr(alloc, tokens, depth)?;
    tokens.expect(TokenKind::RightParenthesis)?;
    inner.at = open.at;
    Ok(inner)
}

/// NOT Factor
#[cycle(expressions)]
fn negated(alloc: Global, tokens: &mut Tokens, depth: usize) -> Result<Expr, ReadFault>
    ensures { Gives (λ x. (expr_view x, tokens.new.list.now)) result
        (negated_with (factor_at depth) tokens.old.list.now) }
{
    let not = tokens.expect(TokenKind::Not)?;
    let of = factor(alloc, tokens, depth)?;
    let form = ExprForm::One {
        op: Operator::Not,
        op_at: not.at,
        of: Box::new(alloc, of)?,
    };
    Ok(Expr { at: not.at, form })
}

/// Designator [Set | Actuals]
#[cycle(expressions)]
fn designated(alloc: Global, tokens: &mut Tokens, depth: usize) -> Result<Expr, ReadFault>
    ensures { Gives (λ x. (expr_view x, tokens.new.list.now)) result
        (designated_with (factor_at depth) tokens.old.list.now) }
{
    let of = designator(alloc, tokens, depth)?;
    let at = of.first.at;
    if tokens.next_is(TokenKind::LeftBrace) {
        let (_at, items) = set(alloc, tokens, depth)?;
        let form = ExprForm::Set {
            of: Some(of),
            items,
        };
        return Ok(Expr { at, form });
    }
    if tokens.next_is(TokenKind::LeftParenthesis) {
        let args = actuals(alloc, tokens, depth)?;
        let form = ExprForm::Call { to: of, args };
        return Ok(Expr { at, form });
    }
    let form = ExprForm::Name(of);
    Ok(Expr { at, form })
}

/// Set = "{" [Element {"," Element}] "}", with its first token
#[cycle(expressions)]
fn set(alloc: Global, tokens: &mut Tokens, depth: usize) -> Result<(u32, Vec<Label>), ReadFault>
    ensures { Gives (λ x. ((x.0, map label_view x.1.items), tokens.new.list.now)) result
        (set_with (factor_at depth) tokens.old.list.now) }
{
    let open = tokens.expect(TokenKind::LeftBrace)?;
    if !begins_expr(tokens) {
        tokens.expect(TokenKind::RightBrace)?;
        return Ok((open.at, Vec::new(alloc)));
    }
    let items = labels(alloc, tokens, depth)?;
    tokens.expect(TokenKind::RightBrace)?;
    Ok((open.at, items))
}

/// Labels = Label {"," Label}
#[cycle(expressions)]
pub fn labels(alloc: Global, tokens: &mut Tokens, depth: usize) -> Result<Vec<Label>, ReadFault>
    ensures { Gives (λ x. (map label_view x.items, tokens.new.list.now)) result
        (labels_with (factor_at depth) tokens.old.list.now) }
{
    listed!(alloc, tokens, TokenKind::Comma, label(alloc, tokens, depth))
}

/// Label = Expr [".." Expr]
#[cycle(expressions)]
fn label(alloc: Global, tokens: &mut Tokens, depth: usize) -> Result<Label, ReadFault>
    ensures { Gives (λ x. (label_view x, tokens.new.list.now)) result
        (label_with_upper (factor_at depth) tokens.old.list.now) }
{
    let low = expr(alloc, tokens, depth)?;
    let Some(_) = tokens.next_if(TokenKind::Ellipsis) else {
        return Ok(Label { low, high: None });
    };
    let high = expr(alloc, tokens, depth)?;
    let high = Some(high);
    Ok(Label { low, high })
}

/// Actuals = "(" [Expr {"," Expr}] ")"
#[cycle(expressions)]
pub fn actuals(alloc: Global, tokens: &mut Tokens, depth: usize) -> Result<Vec<Expr>, ReadFault>
    ensures { Gives (λ x. (map expr_view x.items, tokens.new.list.now)) result
        (actuals_with (factor_at depth) tokens.old.list.now) }
{
    tokens.expect(TokenKind::LeftParenthesis)?;
    if !begins_expr(tokens) {
        tokens.expect(TokenKind::RightParenthesis)?;
        return Ok(Vec::new(alloc));
    }
    let items = exprs(alloc, tokens, depth)?;
    tokens.expect(TokenKind::RightParenthesis)?;
    Ok(items)
}

/// Expr {"," Expr}
#[cycle(expressions)]
fn exprs(alloc: Global, tokens: &mut Tokens, depth: usize) -> Result<Vec<Expr>, ReadFault>
    ensures { Gives (λ x. (map expr_view x.items, tokens.new.list.now)) result
        (exprs_with (factor_at depth) tokens.old.list.now) }
{
    listed!(alloc, tokens, TokenKind::Comma, expr(alloc, tokens, depth))
}

/// Designator = ident {"." ident | "[" Expr {"," Expr} "]" | "^"}
#[cycle(expressions)]
pub fn designator(alloc: Global, tokens: &mut Tokens, depth: usize) -> Result<Designator, ReadFault>
    ensures { Gives (λ x. (designator_view x, tokens.new.list.now)) result
        (designator_with (factor_at depth) tokens.old.list.now) }
{
    let first = ident(tokens)?;
    let others = selectors(alloc, tokens, depth)?;
    let found = Designator {
        first,
        rest: others,
    };
    Ok(found)
}

/// {"." ident | "[" Expr {"," Expr} "]" | "^"}
#[cycle(expressions)]
#[tactic(auto, using(ll_grammar::proofs::Loops::repeat_starts))]
fn selectors(alloc: Global, tokens: &mut Tokens, depth: usize) -> Result<Vec<Selector>, ReadFault>
    ensures { Gives (λ x. (map selector_view x.items, tokens.new.list.now)) result
        (selectors_with (factor_at depth) tokens.old.list.now) }
{
    repeated!(
        alloc,
        tokens,
        begins_selector(tokens),
        selector(alloc, tokens, depth)
    )
}

/// "." ident | "[" Expr {"," Expr} "]" | "^"
#[cycle(expressions)]
fn selector(alloc: Global, tokens: &mut Tokens, depth: usize) -> Result<Selector, ReadFault>
    ensures { Gives (λ x. (selector_view x, tokens.new.list.now)) result
        (selector_with (factor_at depth) tokens.old.list.now) }
{
    if let Some(period) = tokens.next_if(TokenKind::Period) {
        let name = ident(tokens)?;
        return Ok(Selector::Field(name, period.at));
    }
    if let Some(open) = tokens.next_if(TokenKind::LeftBracket) {
        let items = exprs(alloc, tokens, depth)?;
        tokens.expect(TokenKind::RightBracket)?;
        return Ok(Selector::Index(items, open.at));
    }
    let arrow = tokens.expect(TokenKind::Arrow)?;
    Ok(Selector::Deref(arrow.at))
}

/// Term = Factor {("*"|"/"|DIV|MOD|AND) Factor}
#[cycle(expressions)]
fn term(alloc: Global, tokens: &mut Tokens, depth: usize) -> Result<Expr, ReadFault>
    ensures { Gives (λ x. (expr_view x, tokens.new.list.now)) result
        (term_with (factor_at depth) tokens.old.list.now) }
{
    let first = factor(alloc, tokens, depth)?;
    let others = factors(alloc, tokens, depth)?;
    Ok(with_operators(alloc, first, others)?)
}

/// {("*"|"/"|DIV|MOD|AND) Factor}
#[cycle(expressions)]
#[tactic(auto, using(ll_grammar::proofs::Loops::repeat_starts))]
fn factors(alloc: Global, tokens: &mut Tokens, depth: usize) -> Result<Vec<Next>, ReadFault>
    ensures { Gives (λ x. (map next_view x.items, tokens.new.list.now)) result
        (factors_with (factor_at depth) tokens.old.list.now) }
{
    repeated!(
        alloc,
        tokens,
        is_multiplying(tokens),
        next_factor(alloc, tokens, depth)
    )
}

/// ("*"|"/"|DIV|MOD|AND) Factor
#[cycle(expressions)]
fn next_factor(alloc: Global, tokens: &mut Tokens, depth: usize) -> Result<Next, ReadFault>
    ensures { Gives (λ x. (next_view x, tokens.new.list.now)) result
        (next_factor_with (factor_at depth) tokens.old.list.now) }
{
    let sign = expect_multiplying(tokens)?;
    let right = factor(alloc, tokens, depth)?;
    let next = Next {
        op: Operator::of(sign.kind),
        op_at: sign.at,
        right,
    };
    Ok(next)
}

/// ["+"|"-"] Term
#[cycle(expressions)]
fn first_term(alloc: Global, tokens: &mut Tokens, depth: usize) -> Result<Expr, ReadFault>
    ensures { Gives (λ x. (expr_view x, tokens.new.list.now)) result
        (first_term_with (factor_at depth) tokens.old.list.now) }
{
    if !is_sign(tokens) {
        return term(alloc, tokens, depth);
    }
    let sign = expect_sign(tokens)?;
    let of = term(alloc, tokens, depth)?;
    let form = ExprForm::One {
        op: Operator::of(sign.kind),
        op_at: sign.at,
        of: Box::new(alloc, of)?,
    };
    Ok(Expr { at: sign.at, form })
}

/// Sum = ["+"|"-"] Term {("+"|"-"|OR) Term}
#[cycle(expressions)]
fn sum(alloc: Global, tokens: &mut Tokens, depth: usize) -> Result<Expr, ReadFault>
    ensures { Gives (λ x. (expr_view x, tokens.new.list.now)) result (sum_with (factor_at depth) tokens.old.list.now) }
{
    let first = first_term(alloc, tokens, depth)?;
    let others = terms(alloc, tokens, depth)?;
    Ok(with_operators(alloc, first, others)?)
}

/// {("+"|"-"|OR) Term}
#[cycle(expressions)]
#[tactic(auto, using(ll_grammar::proofs::Loops::repeat_starts))]
fn terms(alloc: Global, tokens: &mut Tokens, depth: usize) -> Result<Vec<Next>, ReadFault>
    ensures { Gives (λ x. (map next_view x.items, tokens.new.list.now)) result
        (terms_with (factor_at depth) tokens.old.list.now) }
{
    repeated!(
        alloc,
        tokens,
        is_adding(tokens),
        next_term(alloc, tokens, depth)
    )
}

/// ("+"|"-"|OR) Term
#[cycle(expressions)]
fn next_term(alloc: Global, tokens: &mut Tokens, depth: usize) -> Result<Next, ReadFault>
    ensures { Gives (λ x. (next_view x, tokens.new.list.now)) result
        (next_term_with (factor_at depth) tokens.old.list.now) }
{
    let sign = expect_adding(tokens)?;
    let right = term(alloc, tokens, depth)?;
    let next = Next {
        op: Operator::of(sign.kind),
        op_at: sign.at,
        right,
    };
    Ok(next)
}

/// Expr = Sum [("="|"#"|"<"|"<="|">"|">="|IN) Sum]
#[cycle(expressions)]
pub fn expr(alloc: Global, tokens: &mut Tokens, depth: usize) -> Result<Expr, ReadFault>
    ensures { Gives (λ x. (expr_view x, tokens.new.list.now)) result
        (expr_with (factor_at depth) tokens.old.list.now) }
{
    let first = sum(alloc, tokens, depth)?;
    if !is_relation(tokens) {
        return Ok(first);
    }
    let sign = expect_relation(tokens)?;
    let right = sum(alloc, tokens, depth)?;
    let next = Next {
        op: Operator::of(sign.kind),
        op_at: sign.at,
        right,
    };
    Ok(with_operator(alloc, first, next)?)
}

/// Expr, with a token of this kind behind it
pub fn expr_until(
    alloc: Global,
    tokens: &mut Tokens,
    depth: usize,
    kind: TokenKind,
) -> Result<Expr, ReadFault>
    ensures { Gives (λ x. (expr_view x, tokens.new.list.now)) result
        (until kind (expr_with (factor_at depth) tokens.old.list.now)) }
{
    let found = expr(alloc, tokens, depth)?;
    tokens.expect(kind)?;
    Ok(found)
}
