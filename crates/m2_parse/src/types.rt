//! Reading types. `depth` is the number of levels that are left.
ghost use Rattle.std.specs.Prelude.{◌≡◌, map, length};
ghost use Rattle.m2_base.specs.Views.{expr_view, type_view, type_form_view, field_list_view, variant_arm_view};
ghost use Rattle.m2_parse.specs.Reading.{Gives};
ghost use Rattle.m2_parse.specs.ReadExpressions.{factor_at};
ghost use Rattle.m2_parse.specs.ReadTypes.{begins_type as spec_begins_type, begins_field as spec_begins_field};
ghost use Rattle.m2_parse.specs.ReadTypes.{begins_formal as spec_begins_formal, begins_simple as spec_begins_simple};
ghost use Rattle.m2_parse.specs.ReadTypes.{by_reference_at, open_array_at, formal_at, some_formals_at, result_at};
ghost use Rattle.m2_parse.specs.ReadTypes.{formals_at, range_with, named_with, enumeration_at, simple_with};
ghost use Rattle.m2_parse.specs.ReadTypes.{simples_with, optional_field_with, fields_with, variant_with};
ghost use Rattle.m2_parse.specs.ReadTypes.{variants_with, other_fields_with, tag_at, plain_fields_with};
ghost use Rattle.m2_parse.specs.ReadTypes.{case_fields_with, inner_field as spec_inner_field, array_with, record_with};
ghost use Rattle.m2_parse.specs.ReadTypes.{set_of_with, pointer_with, proc_type_at, inner_type as spec_inner_type};
ghost use Rattle.m2_parse.specs.ReadTypes.{type_at, field_at};

use crate::expressions::{begins_expr, expr_until, labels, too_deep};
use crate::faults::ReadFault;
use crate::lists::{all_listed, list_of, listed};
use crate::names::{ident, idents, qual};
use crate::tokens::Tokens;
use m2_base::{Expr, FieldList, Formal, Ident, Qual, TokenKind, TypeExpr, TypeForm, VariantArm};
use std::alloc::Global;

fn begins_type(tokens: &Tokens) -> bool
    ensures { result ≡ spec_begins_type tokens.now.list.now }
{
    tokens.next_in(&[
        TokenKind::Identifier,
        TokenKind::LeftParenthesis,
        TokenKind::LeftBracket,
        TokenKind::Array,
        TokenKind::Record,
        TokenKind::Set,
        TokenKind::Pointer,
        TokenKind::Procedure,
    ])
}

fn begins_field(tokens: &Tokens) -> bool
    ensures { result ≡ spec_begins_field tokens.now.list.now }
{
    tokens.next_in(&[TokenKind::Identifier, TokenKind::Case])
}

fn begins_formal(tokens: &Tokens) -> bool
    ensures { result ≡ spec_begins_formal tokens.now.list.now }
{
    tokens.next_in(&[TokenKind::Var, TokenKind::Array, TokenKind::Identifier])
}

fn begins_simple(tokens: &Tokens) -> bool
    ensures { result ≡ (spec_begins_simple) tokens.now.list.now }
{
    tokens.next_in(&[
        TokenKind::Identifier,
        TokenKind::LeftParenthesis,
        TokenKind::LeftBracket,
    ])
}

/// [VAR]
#[tactic(auto, unfolding(crate::specs::ReadTypes::by_reference_at))]
pub fn by_reference(tokens: &mut Tokens) -> Result<bool, ReadFault>
    ensures { Gives (λ x. (x, tokens.new.list.now)) result (by_reference_at tokens.old.list.now) }
{
    let Some(_) = tokens.next_if(TokenKind::Var) else {
        return Ok(false);
    };
    Ok(true)
}

/// [ARRAY OF]
#[tactic(auto, unfolding(crate::specs::ReadTypes::open_array_at))]
pub fn open_array(tokens: &mut Tokens) -> Result<bool, ReadFault>
    ensures { Gives (λ x. (x, tokens.new.list.now)) result (open_array_at tokens.old.list.now) }
{
    let Some(_) = tokens.next_if(TokenKind::Array) else {
        return Ok(false);
    };
    tokens.expect(TokenKind::Of)?;
    Ok(true)
}

/// Formal = [VAR] [ARRAY OF] Qual
#[tactic(auto, unfolding(crate::specs::ReadTypes::formal_at))]
fn formal(tokens: &mut Tokens) -> Result<Formal, ReadFault>
    ensures { Gives (λ x. (x, tokens.new.list.now)) result (formal_at tokens.old.list.now) }
{
    let by_ref = by_reference(tokens)?;
    let is_open = open_array(tokens)?;
    let of = qual(tokens)?;
    let found = Formal {
        by_ref,
        is_open,
        of,
    };
    Ok(found)
}

/// Formal {"," Formal}
fn some_formals(alloc: Global, tokens: &mut Tokens) -> Result<Vec<Formal>, ReadFault>
    ensures { Gives (λ x. (x.items, tokens.new.list.now)) result (some_formals_at tokens.old.list.now) }
{
    listed!(alloc, tokens, TokenKind::Comma, formal(tokens))
}

/// [":" Qual]
#[tactic(auto, unfolding(crate::specs::ReadTypes::result_at))]
pub fn result_type(tokens: &mut Tokens) -> Result<Option<Qual>, ReadFault>
    ensures { Gives (λ x. (x, tokens.new.list.now)) result (result_at tokens.old.list.now) }
{
    let Some(_) = tokens.next_if(TokenKind::Colon) else {
        return Ok(None);
    };
    let of = qual(tokens)?;
    Ok(Some(of))
}

/// ["(" [Formal {"," Formal}] ")" [":" Qual]]
fn formals(alloc: Global, tokens: &mut Tokens) -> Result<TypeForm, ReadFault>
    ensures { Gives (λ x. (type_form_view x, tokens.new.list.now)) result (formals_at tokens.old.list.now) }
{
    let Some(_) = tokens.next_if(TokenKind::LeftParenthesis) else {
        let formals = Vec::new(alloc);
        let result = None;
        return Ok(TypeForm::Proc { formals, result });
    };
    if !begins_formal(tokens) {
        tokens.expect(TokenKind::RightParenthesis)?;
        let result = result_type(tokens)?;
        let formals = Vec::new(alloc);
        return Ok(TypeForm::Proc { formals, result });
    }
    let formals = some_formals(alloc, tokens)?;
    tokens.expect(TokenKind::RightParenthesis)?;
    let result = result_type(tokens)?;
    Ok(TypeForm::Proc { formals, result })
}

/// Range = "[" Expr ".." Expr "]", with its first token
#[tactic(auto, using(std::proofs::lemmas::Grind::common_steps), unfolding(crate::specs::ReadTypes::range_with))]
fn range(alloc: Global, tokens: &mut Tokens, depth: usize) -> Result<(u32, Expr, Expr), ReadFault>
    ensures { Gives (λ x. ((x.0, expr_view x.1, expr_view x.2), tokens.new.list.now)) result
        (range_with (factor_at depth) tokens.old.list.now) }
{
    let open = tokens.expect(TokenKind::LeftBracket)?;
    let low = expr_until(alloc, tokens, depth, TokenKind::Ellipsis)?;
    let high = expr_until(alloc, tokens, depth, TokenKind::RightBracket)?;
    Ok((open.at, low, high))
}

/// Qual [Range]
#[tactic(auto, using(std::proofs::lemmas::Grind::common_steps, m2_base::proofs::Seen::type_seen, m2_base::proofs::Seen::named_seen, m2_base::proofs::Seen::sub_seen), unfolding(crate::specs::ReadTypes::named_with, crate::specs::ReadTypes::optional_range_with))]
fn named(alloc: Global, tokens: &mut Tokens, depth: usize) -> Result<TypeExpr, ReadFault>
    ensures { Gives (λ x. (type_view x, tokens.new.list.now)) result
        (named_with (factor_at depth) tokens.old.list.now) }
{
    let of = qual(tokens)?;
    let at = of.first.at;
    if !tokens.next_is(TokenKind::LeftBracket) {
        let form = TypeForm::Named(of);
        return Ok(TypeExpr { at, form });
    }
    let (_at, low, high) = range(alloc, tokens, depth)?;
    let form = TypeForm::Sub {
        base: Some(of),
        low,
        high,
    };
    Ok(TypeExpr { at, form })
}

/// "(" Idents ")"
fn enumeration(alloc: Global, tokens: &mut Tokens) -> Result<TypeExpr, ReadFault>
    ensures { Gives (λ x. (type_view x, tokens.new.list.now)) result (enumeration_at tokens.old.list.now) }
{
    let open = tokens.expect(TokenKind::LeftParenthesis)?;
    let names = idents(alloc, tokens)?;
    tokens.expect(TokenKind::RightParenthesis)?;
    let form = TypeForm::Enum(names);
    Ok(TypeExpr { at: open.at, form })
}

/// Simple = Qual [Range] | "(" Idents ")" | Range
#[tactic(auto, using(std::proofs::lemmas::Grind::common_steps, m2_base::proofs::Seen::type_seen, m2_base::proofs::Seen::sub_seen), unfolding(crate::specs::ReadTypes::simple_with))]
fn simple(alloc: Global, tokens: &mut Tokens, depth: usize) -> Result<TypeExpr, ReadFault>
    ensures { Gives (λ x. (type_view x, tokens.new.list.now)) result
        (simple_with (factor_at depth) tokens.old.list.now) }
{
    if tokens.next_is(TokenKind::Identifier) {
        return named(alloc, tokens, depth);
    }
    if tokens.next_is(TokenKind::LeftParenthesis) {
        return enumeration(alloc, tokens);
    }
    let (at, low, high) = range(alloc, tokens, depth)?;
    let form = TypeForm::Sub {
        base: None,
        low,
        high,
    };
    Ok(TypeExpr { at, form })
}

/// Simple {"," Simple}
fn simples(alloc: Global, tokens: &mut Tokens, depth: usize) -> Result<Vec<TypeExpr>, ReadFault>
    ensures { Gives (λ x. (map type_view x.items, tokens.new.list.now)) result
        (simples_with (factor_at depth) tokens.old.list.now) }
{
    listed!(
        alloc,
        tokens,
        TokenKind::Comma,
        simple(alloc, tokens, depth)
    )
}

/// SET OF Simple
fn set_type(alloc: Global, tokens: &mut Tokens, depth: usize) -> Result<TypeExpr, ReadFault>
    ensures { Gives (λ x. (type_view x, tokens.new.list.now)) result
        (set_of_with (factor_at depth) tokens.old.list.now) }
{
    let set = tokens.expect(TokenKind::Set)?;
    tokens.expect(TokenKind::Of)?;
    let of = simple(alloc, tokens, depth)?;
    let form = TypeForm::Set(Box::new(alloc, of)?);
    Ok(TypeExpr { at: set.at, form })
}

/// PROCEDURE ["(" [Formal {"," Formal}] ")" [":" Qual]]
#[tactic(auto, using(std::proofs::lemmas::Grind::common_steps, m2_base::proofs::Seen::type_seen), unfolding(crate::specs::ReadTypes::proc_type_at))]
fn procedure_type(alloc: Global, tokens: &mut Tokens) -> Result<TypeExpr, ReadFault>
    ensures { Gives (λ x. (type_view x, tokens.new.list.now)) result (proc_type_at tokens.old.list.now) }
{
    let procedure = tokens.expect(TokenKind::Procedure)?;
    let form = formals(alloc, tokens)?;
    let at = procedure.at;
    Ok(TypeExpr { at, form })
}

/// [ident], the tag of a variant part
#[tactic(auto, unfolding(crate::specs::ReadTypes::tag_at))]
fn tag(tokens: &mut Tokens) -> Result<Option<Ident>, ReadFault>
    ensures { Gives (λ x. (x, tokens.new.list.now)) result (tag_at tokens.old.list.now) }
{
    if !tokens.next_is(TokenKind::Identifier) {
        return Ok(None);
    }
    let name = ident(tokens)?;
    Ok(Some(name))
}

/// A type, one level deeper.
#[cycle(types)]
#[tactic(auto, unfolding(crate::specs::ReadTypes::type_at))]
pub fn type_expr(alloc: Global, tokens: &mut Tokens, depth: usize) -> Result<TypeExpr, ReadFault>
    ensures { Gives (λ x. (type_view x, tokens.new.list.now)) result (type_at depth tokens.old.list.now) }
{
    if depth == 0 {
        return Err(too_deep(begins_type(tokens), tokens));
    }
    inner_type(alloc, tokens, depth - 1)
}

/// Type = Simple | ARRAY Simple {"," Simple} OF Type | RECORD Fields END | SET OF Simple | POINTER TO Type | PROCEDURE
/// ["(" [Formal {"," Formal}] ")" [":" Qual]]
#[cycle(types)]
#[tactic(auto, unfolding(crate::specs::ReadTypes::inner_type))]
fn inner_type(alloc: Global, tokens: &mut Tokens, depth: usize) -> Result<TypeExpr, ReadFault>
    ensures { Gives (λ x. (type_view x, tokens.new.list.now)) result
        (spec_inner_type (factor_at depth) (type_at depth) (field_at depth) tokens.old.list.now) }
{
    if begins_simple(tokens) {
        return simple(alloc, tokens, depth);
    }
    if tokens.next_is(TokenKind::Array) {
        return array(alloc, tokens, depth);
    }
    if tokens.next_is(TokenKind::Record) {
        return record_type(alloc, tokens, depth);
    }
    if tokens.next_is(TokenKind::Set) {
        return set_type(alloc, tokens, depth);
    }
    if tokens.next_is(TokenKind::Pointer) {
        return pointer(alloc, tokens, depth);
    }
    procedure_type(alloc, tokens)
}

/// ARRAY Simple {"," Simple} OF Type
#[cycle(types)]
fn array(alloc: Global, tokens: &mut Tokens, depth: usize) -> Result<TypeExpr, ReadFault>
    ensures { Gives (λ x. (type_view x, tokens.new.list.now)) result
        (array_with (factor_at depth) (type_at depth) (field_at depth) tokens.old.list.now) }
{
    let array = tokens.expect(TokenKind::Array)?;
    let index = simples(alloc, tokens, depth)?;
    tokens.expect(TokenKind::Of)?;
    let of = type_expr(alloc, tokens, depth)?;
    let of = Box::new(alloc, of)?;
    let form = TypeForm::Array { index, of };
    Ok(TypeExpr { at: array.at, form })
}

/// RECORD Fields END
#[cycle(types)]
fn record_type(alloc: Global, tokens: &mut Tokens, depth: usize) -> Result<TypeExpr, ReadFault>
    ensures { Gives (λ x. (type_view x, tokens.new.list.now)) result
        (record_with (factor_at depth) (type_at depth) (field_at depth) tokens.old.list.now) }
{
    let record = tokens.expect(TokenKind::Record)?;
    let list = fields(alloc, tokens, depth)?;
    tokens.expect(TokenKind::End)?;
    let form = TypeForm::Rec(list);
    let at = record.at;
    Ok(TypeExpr { at, form })
}

/// POINTER TO Type
#[cycle(types)]
fn pointer(alloc: Global, tokens: &mut Tokens, depth: usize) -> Result<TypeExpr, ReadFault>
    ensures { Gives (λ x. (type_view x, tokens.new.list.now)) result
        (pointer_with (factor_at depth) (type_at depth) (field_at depth) tokens.old.list.now) }
{
    let pointer = tokens.expect(TokenKind::Pointer)?;
    tokens.expect(TokenKind::To)?;
    let of = type_expr(alloc, tokens, depth)?;
    let form = TypeForm::Pointer(Box::new(alloc, of)?);
    let at = pointer.at;
    Ok(TypeExpr { at, form })
}

/// Fields = FieldList {";" FieldList}
#[cycle(types)]
fn fields(alloc: Global, tokens: &mut Tokens, depth: usize) -> Result<Vec<FieldList>, ReadFault>
    ensures { Gives (λ x. (map field_list_view x.items, tokens.new.list.now)) result
        (fields_with (factor_at depth) (type_at depth) (field_at depth) tokens.old.list.now) }
{
    all_listed!(
        tokens,
        TokenKind::Semicolon,
        optional_field(alloc, tokens, depth)
    )
}

/// [FieldList]
#[cycle(types)]
fn optional_field(
    alloc: Global,
    tokens: &mut Tokens,
    depth: usize,
) -> Result<Vec<FieldList>, ReadFault>
    ensures { Gives (λ x. (map field_list_view x.items, tokens.new.list.now)) result
        (optional_field_with (factor_at depth) (type_at depth) (field_at depth) tokens.old.list.now) }
{
    if !begins_field(tokens) {
        return Ok(Vec::new(alloc));
    }
    let item = field(alloc, tokens, depth)?;
    Ok(list_of(alloc, item)?)
}

/// A field list, one level deeper.
#[cycle(types)]
#[tactic(auto, unfolding(crate::specs::ReadTypes::field_at))]
fn field(alloc: Global, tokens: &mut Tokens, depth: usize) -> Result<FieldList, ReadFault>
    ensures { Gives (λ x. (field_list_view x, tokens.new.list.now)) result (field_at depth tokens.old.list.now) }
{
    if depth == 0 {
        return Err(too_deep(begins_field(tokens), tokens));
    }
    inner_field(alloc, tokens, depth - 1)
}

/// FieldList = [Idents ":" Type | CASE [ident] ":" Qual OF Variant {"|" Variant} [ELSE Fields] END]
#[cycle(types)]
#[tactic(auto, unfolding(crate::specs::ReadTypes::inner_field))]
fn inner_field(alloc: Global, tokens: &mut Tokens, depth: usize) -> Result<FieldList, ReadFault>
    ensures { Gives (λ x. (field_list_view x, tokens.new.list.now)) result
        (spec_inner_field (factor_at depth) (type_at depth) (field_at depth) tokens.old.list.now) }
{
    if tokens.next_is(TokenKind::Identifier) {
        return plain_fields(alloc, tokens, depth);
    }
    case_fields(alloc, tokens, depth)
}

/// Idents ":" Type
#[cycle(types)]
fn plain_fields(alloc: Global, tokens: &mut Tokens, depth: usize) -> Result<FieldList, ReadFault>
    ensures { Gives (λ x. (field_list_view x, tokens.new.list.now)) result
        (plain_fields_with (factor_at depth) (type_at depth) (field_at depth) tokens.old.list.now) }
{
    let names = idents(alloc, tokens)?;
    tokens.expect(TokenKind::Colon)?;
    let typ = type_expr(alloc, tokens, depth)?;
    Ok(FieldList::Plain { names, typ })
}

/// CASE [ident] ":" Qual OF Variant {"|" Variant} [ELSE Fields] END
#[cycle(types)]
fn case_fields(alloc: Global, tokens: &mut Tokens, depth: usize) -> Result<FieldList, ReadFault>
    ensures { Gives (λ x. (field_list_view x, tokens.new.list.now)) result
        (case_fields_with (factor_at depth) (type_at depth) (field_at depth) tokens.old.list.now) }
{
    tokens.expect(TokenKind::Case)?;
    let tag = tag(tokens)?;
    tokens.expect(TokenKind::Colon)?;
    let of = qual(tokens)?;
    tokens.expect(TokenKind::Of)?;
    let arms = variants(alloc, tokens, depth)?;
    let other = other_fields(alloc, tokens, depth)?;
    tokens.expect(TokenKind::End)?;
    let found = FieldList::Cases {
        tag,
        of,
        arms,
        other,
    };
    Ok(found)
}

/// Variant {"|" Variant}
#[cycle(types)]
fn variants(alloc: Global, tokens: &mut Tokens, depth: usize) -> Result<Vec<VariantArm>, ReadFault>
    ensures { Gives (λ x. (map variant_arm_view x.items, tokens.new.list.now)) result
        (variants_with (factor_at depth) (type_at depth) (field_at depth) tokens.old.list.now) }
{
    all_listed!(tokens, TokenKind::Bar, variant(alloc, tokens, depth))
}

/// Variant = [Labels ":" Fields]
#[cycle(types)]
fn variant(alloc: Global, tokens: &mut Tokens, depth: usize) -> Result<Vec<VariantArm>, ReadFault>
    ensures { Gives (λ x. (map variant_arm_view x.items, tokens.new.list.now)) result
        (variant_with (factor_at depth) (type_at depth) (field_at depth) tokens.old.list.now) }
{
    if !begins_expr(tokens) {
        return Ok(Vec::new(alloc));
    }
    let labels = labels(alloc, tokens, depth)?;
    tokens.expect(TokenKind::Colon)?;
    let fields = fields(alloc, tokens, depth)?;
    Ok(list_of(alloc, VariantArm { labels, fields })?)
}

/// [ELSE Fields]
#[cycle(types)]
fn other_fields(
    alloc: Global,
    tokens: &mut Tokens,
    depth: usize,
) -> Result<Vec<FieldList>, ReadFault>
    ensures { Gives (λ x. (map field_list_view x.items, tokens.new.list.now)) result
        (other_fields_with (factor_at depth) (type_at depth) (field_at depth) tokens.old.list.now) }
{
    let Some(_) = tokens.next_if(TokenKind::Else) else {
        return Ok(Vec::new(alloc));
    };
    fields(alloc, tokens, depth)
}
