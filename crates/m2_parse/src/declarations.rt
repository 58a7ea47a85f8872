//! Reading declarations. `depth` is the number of levels that are left.
ghost use Rattle.std.specs.Prelude.{◌≡◌, map, length};
ghost use Rattle.m2_base.specs.StreamsOf.{Block as SpecBlock};
ghost use Rattle.m2_base.specs.Views.{section_view, heading_view, decl_view, statement_view, type_view};
ghost use Rattle.m2_parse.specs.BlockViews.{block_view};
ghost use Rattle.m2_base.specs.declared.kind.TokenKind.TheVariants.{Semicolon};
ghost use Rattle.m2_parse.specs.Reading.{Gives, until};
ghost use Rattle.m2_parse.specs.ReadStreams.{begins_section as spec_begins_section};
ghost use Rattle.m2_parse.specs.ReadStreams.{begins_declaration as spec_begins_declaration, section_at};
ghost use Rattle.m2_parse.specs.ReadStreams.{some_sections_at, parameters_at, heading_at, constant_at, constants_at};
ghost use Rattle.m2_parse.specs.ReadStreams.{type_declaration_at, type_declarations_at, defined_type_at};
ghost use Rattle.m2_parse.specs.ReadStreams.{defined_types_at, variables_at, all_variables_at, procedure_at};
ghost use Rattle.m2_parse.specs.ReadStreams.{declaration_at, declarations_at, body_at, block_at};
ghost use Rattle.m2_parse.specs.ReadStreams.{definition_declaration_at, definition_declarations_at};
ghost use Rattle.m2_parse.specs.ReadTypes.{type_at};

use crate::blocks::Block;
use crate::expressions::expr_until;
use crate::faults::ReadFault;
use crate::lists::{all_repeated, list_of, listed, repeated};
use crate::names::{ident, idents, qual};
use crate::statements::statements;
use crate::tokens::Tokens;
use crate::types::{by_reference, open_array, result_type, type_expr};
use m2_base::{Decl, Heading, Qual, Section, Statement, TokenKind, TypeExpr};
use std::alloc::Global;

fn begins_section(tokens: &Tokens) -> bool
    ensures { result ≡ spec_begins_section tokens.now.list.now }
{
    tokens.next_in(&[TokenKind::Var, TokenKind::Identifier])
}

fn begins_declaration(tokens: &Tokens) -> bool
    ensures { result ≡ spec_begins_declaration tokens.now.list.now }
{
    tokens.next_in(&[
        TokenKind::Const,
        TokenKind::Type,
        TokenKind::Var,
        TokenKind::Procedure,
    ])
}

/// Section = [VAR] Idents ":" [ARRAY OF] Qual
#[tactic(auto, using(std::proofs::lemmas::Grind::common_steps), unfolding(crate::specs::ReadStreams::section_at))]
fn section(alloc: Global, tokens: &mut Tokens) -> Result<Section, ReadFault>
    ensures { Gives (λ x. (section_view x, tokens.new.list.now)) result (section_at tokens.old.list.now) }
{
    let by_ref = by_reference(tokens)?;
    let names = idents(alloc, tokens)?;
    tokens.expect(TokenKind::Colon)?;
    let is_open = open_array(tokens)?;
    let of = qual(tokens)?;
    let found = Section {
        by_ref,
        names,
        is_open,
        of,
    };
    Ok(found)
}

/// Section {";" Section}
fn some_sections(alloc: Global, tokens: &mut Tokens) -> Result<Vec<Section>, ReadFault>
    ensures { Gives (λ x. (map section_view x.items, tokens.new.list.now)) result
        (some_sections_at tokens.old.list.now) }
{
    listed!(alloc, tokens, TokenKind::Semicolon, section(alloc, tokens))
}

/// ["(" [Section {";" Section}] ")" [":" Qual]]
#[tactic(auto, using(std::proofs::lemmas::Grind::common_steps), unfolding(crate::specs::ReadStreams::parameters_at, crate::specs::ReadStreams::sections_at))]
fn parameters(alloc: Global, tokens: &mut Tokens) -> Result<(Vec<Section>, Option<Qual>), ReadFault>
    ensures { Gives (λ x. ((map section_view x.0.items, x.1), tokens.new.list.now)) result
        (parameters_at tokens.old.list.now) }
{
    let Some(_) = tokens.next_if(TokenKind::LeftParenthesis) else {
        return Ok((Vec::new(alloc), None));
    };
    if !begins_section(tokens) {
        tokens.expect(TokenKind::RightParenthesis)?;
        let result = result_type(tokens)?;
        return Ok((Vec::new(alloc), result));
    }
    let sections = some_sections(alloc, tokens)?;
    tokens.expect(TokenKind::RightParenthesis)?;
    let result = result_type(tokens)?;
    Ok((sections, result))
}

/// Heading = PROCEDURE ident ["(" [Section {";" Section}] ")" [":" Qual]]
#[tactic(auto, using(std::proofs::lemmas::Grind::common_steps), unfolding(crate::specs::ReadStreams::heading_at))]
pub fn heading(alloc: Global, tokens: &mut Tokens) -> Result<Heading, ReadFault>
    ensures { Gives (λ x. (heading_view x, tokens.new.list.now)) result (heading_at tokens.old.list.now) }
{
    tokens.expect(TokenKind::Procedure)?;
    let name = ident(tokens)?;
    let (sections, result) = parameters(alloc, tokens)?;
    let found = Heading {
        name,
        sections,
        result,
    };
    Ok(found)
}

/// ident "=" Expr ";"
#[tactic(auto, using(std::proofs::lemmas::Grind::common_steps), unfolding(crate::specs::ReadStreams::constant_at))]
fn constant(alloc: Global, tokens: &mut Tokens, depth: usize) -> Result<Decl, ReadFault>
    ensures { Gives (λ x. (decl_view x, tokens.new.list.now)) result (constant_at depth tokens.old.list.now) }
{
    let name = ident(tokens)?;
    tokens.expect(TokenKind::Equal)?;
    let value = expr_until(alloc, tokens, depth, TokenKind::Semicolon)?;
    Ok(Decl::Const { name, value })
}

/// Type ";"
fn ended_type(alloc: Global, tokens: &mut Tokens, depth: usize) -> Result<TypeExpr, ReadFault>
    ensures { Gives (λ x. (type_view x, tokens.new.list.now)) result
        (until Semicolon (type_at depth tokens.old.list.now)) }
{
    let found = type_expr(alloc, tokens, depth)?;
    tokens.expect(TokenKind::Semicolon)?;
    Ok(found)
}

/// ident "=" Type ";"
#[tactic(auto, using(std::proofs::lemmas::Grind::common_steps), unfolding(crate::specs::ReadStreams::type_declaration_at))]
fn type_declaration(alloc: Global, tokens: &mut Tokens, depth: usize) -> Result<Decl, ReadFault>
    ensures { Gives (λ x. (decl_view x, tokens.new.list.now)) result (type_declaration_at depth tokens.old.list.now) }
{
    let name = ident(tokens)?;
    tokens.expect(TokenKind::Equal)?;
    let typ = ended_type(alloc, tokens, depth)?;
    let typ = Some(typ);
    Ok(Decl::Types { name, typ })
}

/// ident ["=" Type] ";"
#[tactic(auto, using(std::proofs::lemmas::Grind::common_steps), unfolding(crate::specs::ReadStreams::defined_type_at, crate::specs::ReadStreams::defined_at))]
fn defined_type(alloc: Global, tokens: &mut Tokens, depth: usize) -> Result<Decl, ReadFault>
    ensures { Gives (λ x. (decl_view x, tokens.new.list.now)) result (defined_type_at depth tokens.old.list.now) }
{
    let name = ident(tokens)?;
    let Some(_) = tokens.next_if(TokenKind::Equal) else {
        tokens.expect(TokenKind::Semicolon)?;
        return Ok(Decl::Types { name, typ: None });
    };
    let typ = ended_type(alloc, tokens, depth)?;
    let typ = Some(typ);
    Ok(Decl::Types { name, typ })
}

/// Idents ":" Type ";"
#[tactic(auto, using(std::proofs::lemmas::Grind::common_steps), unfolding(crate::specs::ReadStreams::variables_at))]
fn variables(alloc: Global, tokens: &mut Tokens, depth: usize) -> Result<Decl, ReadFault>
    ensures { Gives (λ x. (decl_view x, tokens.new.list.now)) result (variables_at depth tokens.old.list.now) }
{
    let names = idents(alloc, tokens)?;
    tokens.expect(TokenKind::Colon)?;
    let typ = ended_type(alloc, tokens, depth)?;
    Ok(Decl::Vars { names, typ })
}

/// {ident "=" Expr ";"}
#[tactic(auto, using(ll_grammar::proofs::Loops::repeat_starts))]
fn constants(alloc: Global, tokens: &mut Tokens, depth: usize) -> Result<Vec<Decl>, ReadFault>
    ensures { Gives (λ x. (map decl_view x.items, tokens.new.list.now)) result
        (constants_at depth tokens.old.list.now) }
{
    repeated!(
        alloc,
        tokens,
        tokens.next_is(TokenKind::Identifier),
        constant(alloc, tokens, depth)
    )
}

/// {ident "=" Type ";"}
#[tactic(auto, using(ll_grammar::proofs::Loops::repeat_starts))]
fn type_declarations(
    alloc: Global,
    tokens: &mut Tokens,
    depth: usize,
) -> Result<Vec<Decl>, ReadFault>
    ensures { Gives (λ x. (map decl_view x.items, tokens.new.list.now)) result
        (type_declarations_at depth tokens.old.list.now) }
{
    repeated!(
        alloc,
        tokens,
        tokens.next_is(TokenKind::Identifier),
        type_declaration(alloc, tokens, depth)
    )
}

/// {ident ["=" Type] ";"}
#[tactic(auto, using(ll_grammar::proofs::Loops::repeat_starts))]
fn defined_types(alloc: Global, tokens: &mut Tokens, depth: usize) -> Result<Vec<Decl>, ReadFault>
    ensures { Gives (λ x. (map decl_view x.items, tokens.new.list.now)) result
        (defined_types_at depth tokens.old.list.now) }
{
    repeated!(
        alloc,
        tokens,
        tokens.next_is(TokenKind::Identifier),
        defined_type(alloc, tokens, depth)
    )
}

/// {Idents ":" Type ";"}
#[tactic(auto, using(ll_grammar::proofs::Loops::repeat_starts))]
fn all_variables(alloc: Global, tokens: &mut Tokens, depth: usize) -> Result<Vec<Decl>, ReadFault>
    ensures { Gives (λ x. (map decl_view x.items, tokens.new.list.now)) result
        (all_variables_at depth tokens.old.list.now) }
{
    repeated!(
        alloc,
        tokens,
        tokens.next_is(TokenKind::Identifier),
        variables(alloc, tokens, depth)
    )
}

/// Heading ";" Cut
#[tactic(auto, using(std::proofs::lemmas::Grind::common_steps), unfolding(crate::specs::ReadStreams::procedure_at))]
fn procedure(alloc: Global, tokens: &mut Tokens) -> Result<Decl, ReadFault>
    ensures { Gives (λ x. (decl_view x, tokens.new.list.now)) result (procedure_at tokens.old.list.now) }
{
    let heading = heading(alloc, tokens)?;
    tokens.expect(TokenKind::Semicolon)?;
    let cut = tokens.expect(TokenKind::Cut)?;
    let stream = cut.value as u32;
    Ok(Decl::Proc { heading, stream })
}

/// Decl = CONST {ident "=" Expr ";"} | TYPE {ident "=" Type ";"} | VAR {Idents ":" Type ";"} | Heading ";" Cut
fn declaration(alloc: Global, tokens: &mut Tokens, depth: usize) -> Result<Vec<Decl>, ReadFault>
    ensures { Gives (λ x. (map decl_view x.items, tokens.new.list.now)) result
        (declaration_at depth tokens.old.list.now) }
{
    if let Some(_) = tokens.next_if(TokenKind::Const) {
        let items = constants(alloc, tokens, depth)?;
        return Ok(items);
    }
    if let Some(_) = tokens.next_if(TokenKind::Type) {
        let items = type_declarations(alloc, tokens, depth)?;
        return Ok(items);
    }
    if let Some(_) = tokens.next_if(TokenKind::Var) {
        let items = all_variables(alloc, tokens, depth)?;
        return Ok(items);
    }
    let item = procedure(alloc, tokens)?;
    Ok(list_of(alloc, item)?)
}

/// {Decl}
#[tactic(auto, using(ll_grammar::proofs::Loops::repeat_starts))]
fn declarations(alloc: Global, tokens: &mut Tokens, depth: usize) -> Result<Vec<Decl>, ReadFault>
    ensures { Gives (λ x. (map decl_view x.items, tokens.new.list.now)) result
        (declarations_at depth tokens.old.list.now) }
{
    all_repeated!(
        alloc,
        tokens,
        begins_declaration(tokens),
        declaration(alloc, tokens, depth)
    )
}

/// DefDecl = CONST {ident "=" Expr ";"} | TYPE {ident ["=" Type] ";"} | VAR {Idents ":" Type ";"} | Heading ";"
#[tactic(auto, using(std::proofs::lemmas::Grind::common_steps), unfolding(crate::specs::ReadStreams::definition_declaration_at))]
fn definition_declaration(
    alloc: Global,
    tokens: &mut Tokens,
    depth: usize,
) -> Result<Vec<Decl>, ReadFault>
    ensures { Gives (λ x. (map decl_view x.items, tokens.new.list.now)) result
        (definition_declaration_at depth tokens.old.list.now) }
{
    if let Some(_) = tokens.next_if(TokenKind::Const) {
        let items = constants(alloc, tokens, depth)?;
        return Ok(items);
    }
    if let Some(_) = tokens.next_if(TokenKind::Type) {
        let items = defined_types(alloc, tokens, depth)?;
        return Ok(items);
    }
    if let Some(_) = tokens.next_if(TokenKind::Var) {
        let items = all_variables(alloc, tokens, depth)?;
        return Ok(items);
    }
    let heading = heading(alloc, tokens)?;
    tokens.expect(TokenKind::Semicolon)?;
    let item = Decl::Proc { heading, stream: 0 };
    Ok(list_of(alloc, item)?)
}

/// {DefDecl}
#[tactic(auto, using(ll_grammar::proofs::Loops::repeat_starts))]
pub fn definition_declarations(
    alloc: Global,
    tokens: &mut Tokens,
    depth: usize,
) -> Result<Vec<Decl>, ReadFault>
    ensures { Gives (λ x. (map decl_view x.items, tokens.new.list.now)) result
        (definition_declarations_at depth tokens.old.list.now) }
{
    all_repeated!(
        alloc,
        tokens,
        begins_declaration(tokens),
        definition_declaration(alloc, tokens, depth)
    )
}

/// [BEGIN Stmts]
#[tactic(auto, using(std::proofs::lemmas::Grind::common_steps), unfolding(crate::specs::ReadStreams::body_at))]
fn body(alloc: Global, tokens: &mut Tokens, depth: usize) -> Result<Vec<Statement>, ReadFault>
    ensures { Gives (λ x. (map statement_view x.items, tokens.new.list.now)) result
        (body_at depth tokens.old.list.now) }
{
    let Some(_) = tokens.next_if(TokenKind::Begin) else {
        return Ok(Vec::new(alloc));
    };
    statements(alloc, tokens, depth)
}

/// Block ident
#[tactic(auto, using(std::proofs::lemmas::Grind::common_steps), unfolding(crate::specs::ReadStreams::block_at))]
pub fn block(alloc: Global, tokens: &mut Tokens, depth: usize) -> Result<Block, ReadFault>
    ensures { Gives (λ x. (block_view x, tokens.new.list.now)) result (block_at depth tokens.old.list.now) }
{
    let decls = declarations(alloc, tokens, depth)?;
    let body = body(alloc, tokens, depth)?;
    tokens.expect(TokenKind::End)?;
    let close = ident(tokens)?;
    Ok(Block { decls, body, close })
}
