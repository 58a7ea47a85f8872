//! Reading statements. `depth` is the number of levels that are left.
ghost use Rattle.std.specs.Prelude.{◌≡◌, ◌∷◌, map, length, option_map, IfOk};
ghost use Rattle.m2_base.specs.StatementsOf.{other_statements as spec_other_statements};
ghost use Rattle.m2_base.specs.Views.{expr_view, designator_view, statement_view, if_arm_view, case_arm_view};
ghost use Rattle.m2_parse.specs.Reading.{Gives};
ghost use Rattle.m2_parse.specs.ReadStatements.{begins_statement as spec_begins_statement, exit_at, return_at};
ghost use Rattle.m2_parse.specs.ReadStatements.{step_at, designated_at, optional_statement_with, statements_with};
ghost use Rattle.m2_parse.specs.ReadStatements.{otherwise_with, if_arm_with, elsif_with, elsifs_with, if_with};
ghost use Rattle.m2_parse.specs.ReadStatements.{arm_with, arms_with, case_with, while_with, repeat_with, loop_with};
ghost use Rattle.m2_parse.specs.ReadStatements.{if_arms_with, limit_at, body_with, for_with, with_with};
ghost use Rattle.m2_parse.specs.ReadStatements.{inner_statement as spec_inner_statement, statement_at};

use crate::expressions::{actuals, begins_expr, designator, expr, expr_until, labels, too_deep};
use crate::faults::ReadFault;
use crate::lists::{all_listed, list_of, listed, repeated};
use crate::names::ident;
use crate::tokens::Tokens;
use m2_base::{CaseArm, Expr, IfArm, Statement, StmtForm, TokenKind};
use std::alloc::{AllocError, Global};

fn begins_statement(tokens: &Tokens) -> bool
    ensures { result ≡ spec_begins_statement tokens.now.list.now }
{
    tokens.next_in(&[
        TokenKind::Identifier,
        TokenKind::If,
        TokenKind::Case,
        TokenKind::While,
        TokenKind::Repeat,
        TokenKind::Loop,
        TokenKind::Exit,
        TokenKind::Return,
        TokenKind::For,
        TokenKind::With,
    ])
}

/// EXIT
#[tactic(auto, using(std::proofs::lemmas::Grind::common_steps, m2_base::proofs::Seen::statement_seen, m2_base::proofs::Seen::exit_seen), unfolding(crate::specs::ReadStatements::exit_at))]
fn exit(tokens: &mut Tokens) -> Result<Statement, ReadFault>
    ensures { Gives (λ x. (statement_view x, tokens.new.list.now)) result (exit_at tokens.old.list.now) }
{
    let exit = tokens.expect(TokenKind::Exit)?;
    let form = StmtForm::Exit;
    Ok(Statement { at: exit.at, form })
}

/// RETURN [Expr]
fn return_statement(
    alloc: Global,
    tokens: &mut Tokens,
    depth: usize,
) -> Result<Statement, ReadFault>
    ensures { Gives (λ x. (statement_view x, tokens.new.list.now)) result (return_at depth tokens.old.list.now) }
{
    let word = tokens.expect(TokenKind::Return)?;
    let at = word.at;
    if !begins_expr(tokens) {
        let form = StmtForm::Return(None);
        return Ok(Statement { at, form });
    }
    let value = expr(alloc, tokens, depth)?;
    let form = StmtForm::Return(Some(value));
    Ok(Statement { at, form })
}

/// Designator (":=" Expr | [Actuals])
fn designated(alloc: Global, tokens: &mut Tokens, depth: usize) -> Result<Statement, ReadFault>
    ensures { Gives (λ x. (statement_view x, tokens.new.list.now)) result (designated_at depth tokens.old.list.now) }
{
    let to = designator(alloc, tokens, depth)?;
    let at = to.first.at;
    if let Some(_) = tokens.next_if(TokenKind::Becomes) {
        let value = expr(alloc, tokens, depth)?;
        let form = StmtForm::Assign { to, value };
        return Ok(Statement { at, form });
    }
    if tokens.next_is(TokenKind::LeftParenthesis) {
        let args = actuals(alloc, tokens, depth)?;
        let form = StmtForm::Call { to, args };
        return Ok(Statement { at, form });
    }
    let args = Vec::new(alloc);
    let form = StmtForm::Call { to, args };
    Ok(Statement { at, form })
}

/// [BY Expr]
#[tactic(auto, using(std::proofs::lemmas::Grind::common_steps), unfolding(crate::specs::ReadStatements::step_at))]
fn step(alloc: Global, tokens: &mut Tokens, depth: usize) -> Result<Option<Expr>, ReadFault>
    ensures { Gives (λ x. (option_map expr_view x, tokens.new.list.now)) result (step_at depth tokens.old.list.now) }
{
    let Some(_) = tokens.next_if(TokenKind::By) else {
        return Ok(None);
    };
    let by = expr(alloc, tokens, depth)?;
    Ok(Some(by))
}

/// TO Expr [BY Expr]
fn limit(
    alloc: Global,
    tokens: &mut Tokens,
    depth: usize,
) -> Result<(Expr, Option<Expr>), ReadFault>
    ensures { Gives (λ x. ((expr_view x.0, option_map expr_view x.1), tokens.new.list.now)) result
        (limit_at depth tokens.old.list.now) }
{
    tokens.expect(TokenKind::To)?;
    let last = expr(alloc, tokens, depth)?;
    let by = step(alloc, tokens, depth)?;
    Ok((last, by))
}

/// The statements after ELSE of an IF: none where there is no ELSE.
fn other_statements(alloc: Global, other: Option<Vec<Statement>>) -> Vec<Statement>
    ensures { map statement_view result.items
        ≡ spec_other_statements (option_map (λ v. map statement_view v.items) other) }
{
    match other {
        Some(found) => found,
        None => Vec::new(alloc),
    }
}

/// An arm before others.
fn with_first(alloc: Global, first: IfArm, mut others: Vec<IfArm>) -> Result<Vec<IfArm>, AllocError>
    ensures { IfOk result (λ v. v.items ≡ first ∷ others.items) }
{
    let mut arms = list_of(alloc, first)?;
    arms.append(&mut others)?;
    Ok(arms)
}

/// A statement, one level deeper.
#[cycle(statements)]
#[tactic(auto, unfolding(crate::specs::ReadStatements::statement_at))]
fn statement(alloc: Global, tokens: &mut Tokens, depth: usize) -> Result<Statement, ReadFault>
    ensures { Gives (λ x. (statement_view x, tokens.new.list.now)) result (statement_at depth tokens.old.list.now) }
{
    if depth == 0 {
        return Err(too_deep(begins_statement(tokens), tokens));
    }
    inner_statement(alloc, tokens, depth - 1)
}

/// A statement, by its first token.
#[cycle(statements)]
#[tactic(auto, unfolding(crate::specs::ReadStatements::inner_statement))]
fn inner_statement(alloc: Global, tokens: &mut Tokens, depth: usize) -> Result<Statement, ReadFault>
    ensures { Gives (λ x. (statement_view x, tokens.new.list.now)) result
        (spec_inner_statement depth (statement_at depth) tokens.old.list.now) }
{
    if tokens.next_is(TokenKind::Identifier) {
        return designated(alloc, tokens, depth);
    }
    if tokens.next_is(TokenKind::If) {
        return if_statement(alloc, tokens, depth);
    }
    if tokens.next_is(TokenKind::Case) {
        return case_statement(alloc, tokens, depth);
    }
    if tokens.next_is(TokenKind::While) {
        return while_statement(alloc, tokens, depth);
    }
    if tokens.next_is(TokenKind::Repeat) {
        return repeat_statement(alloc, tokens, depth);
    }
    if tokens.next_is(TokenKind::Loop) {
        return loop_statement(alloc, tokens, depth);
    }
    if tokens.next_is(TokenKind::Exit) {
        return exit(tokens);
    }
    if tokens.next_is(TokenKind::Return) {
        return return_statement(alloc, tokens, depth);
    }
    if tokens.next_is(TokenKind::For) {
        return for_statement(alloc, tokens, depth);
    }
    with_statement(alloc, tokens, depth)
}

/// Stmts = Stmt {";" Stmt}
#[cycle(statements)]
pub fn statements(
    alloc: Global,
    tokens: &mut Tokens,
    depth: usize,
) -> Result<Vec<Statement>, ReadFault>
    ensures { Gives (λ x. (map statement_view x.items, tokens.new.list.now)) result
        (statements_with depth (statement_at depth) tokens.old.list.now) }
{
    listed!(
        alloc,
        tokens,
        TokenKind::Semicolon,
        optional_statement(alloc, tokens, depth)
    )
}

/// [Stmt]; an empty one is at the token after it
#[cycle(statements)]
fn optional_statement(
    alloc: Global,
    tokens: &mut Tokens,
    depth: usize,
) -> Result<Statement, ReadFault>
    ensures { Gives (λ x. (statement_view x, tokens.new.list.now)) result
        (optional_statement_with depth (statement_at depth) tokens.old.list.now) }
{
    if begins_statement(tokens) {
        return statement(alloc, tokens, depth);
    }
    let at = tokens.place();
    let form = StmtForm::Empty;
    Ok(Statement { at, form })
}

/// [ELSE Stmts]
#[cycle(statements)]
fn otherwise(
    alloc: Global,
    tokens: &mut Tokens,
    depth: usize,
) -> Result<Option<Vec<Statement>>, ReadFault>
    ensures { Gives (λ x. (option_map (λ v. map statement_view v.items) x, tokens.new.list.now)) result
        (otherwise_with depth (statement_at depth) tokens.old.list.now) }
{
    let Some(_) = tokens.next_if(TokenKind::Else) else {
        return Ok(None);
    };
    let found = statements(alloc, tokens, depth)?;
    Ok(Some(found))
}

/// Expr THEN Stmts
#[cycle(statements)]
fn if_arm(alloc: Global, tokens: &mut Tokens, depth: usize) -> Result<IfArm, ReadFault>
    ensures { Gives (λ x. (if_arm_view x, tokens.new.list.now)) result
        (if_arm_with depth (statement_at depth) tokens.old.list.now) }
{
    let test = expr_until(alloc, tokens, depth, TokenKind::Then)?;
    let body = statements(alloc, tokens, depth)?;
    Ok(IfArm { test, body })
}

/// ELSIF Expr THEN Stmts
#[cycle(statements)]
fn elsif(alloc: Global, tokens: &mut Tokens, depth: usize) -> Result<IfArm, ReadFault>
    ensures { Gives (λ x. (if_arm_view x, tokens.new.list.now)) result
        (elsif_with depth (statement_at depth) tokens.old.list.now) }
{
    tokens.expect(TokenKind::Elsif)?;
    if_arm(alloc, tokens, depth)
}

/// {ELSIF Expr THEN Stmts}
#[cycle(statements)]
#[tactic(auto, using(ll_grammar::proofs::Loops::repeat_starts))]
fn elsifs(alloc: Global, tokens: &mut Tokens, depth: usize) -> Result<Vec<IfArm>, ReadFault>
    ensures { Gives (λ x. (map if_arm_view x.items, tokens.new.list.now)) result
        (elsifs_with depth (statement_at depth) tokens.old.list.now) }
{
    repeated!(
        alloc,
        tokens,
        tokens.next_is(TokenKind::Elsif),
        elsif(alloc, tokens, depth)
    )
}

/// Expr THEN Stmts {ELSIF Expr THEN Stmts}
#[cycle(statements)]
fn if_arms(alloc: Global, tokens: &mut Tokens, depth: usize) -> Result<Vec<IfArm>, ReadFault>
    ensures { Gives (λ x. (map if_arm_view x.items, tokens.new.list.now)) result
        (if_arms_with depth (statement_at depth) tokens.old.list.now) }
{
    let first = if_arm(alloc, tokens, depth)?;
    let others = elsifs(alloc, tokens, depth)?;
    let arms = with_first(alloc, first, others)?;
    Ok(arms)
}

/// IF Expr THEN Stmts {ELSIF Expr THEN Stmts} [ELSE Stmts] END
#[cycle(statements)]
fn if_statement(alloc: Global, tokens: &mut Tokens, depth: usize) -> Result<Statement, ReadFault>
    ensures { Gives (λ x. (statement_view x, tokens.new.list.now)) result
        (if_with depth (statement_at depth) tokens.old.list.now) }
{
    let word = tokens.expect(TokenKind::If)?;
    let arms = if_arms(alloc, tokens, depth)?;
    let other = otherwise(alloc, tokens, depth)?;
    tokens.expect(TokenKind::End)?;
    let other = other_statements(alloc, other);
    let form = StmtForm::If { arms, other };
    Ok(Statement { at: word.at, form })
}

/// Arm = [Labels ":" Stmts]
#[cycle(statements)]
fn arm(alloc: Global, tokens: &mut Tokens, depth: usize) -> Result<Vec<CaseArm>, ReadFault>
    ensures { Gives (λ x. (map case_arm_view x.items, tokens.new.list.now)) result
        (arm_with depth (statement_at depth) tokens.old.list.now) }
{
    if !begins_expr(tokens) {
        return Ok(Vec::new(alloc));
    }
    let labels = labels(alloc, tokens, depth)?;
    tokens.expect(TokenKind::Colon)?;
    let body = statements(alloc, tokens, depth)?;
    Ok(list_of(alloc, CaseArm { labels, body })?)
}

/// Arm {"|" Arm}
#[cycle(statements)]
fn arms(alloc: Global, tokens: &mut Tokens, depth: usize) -> Result<Vec<CaseArm>, ReadFault>
    ensures { Gives (λ x. (map case_arm_view x.items, tokens.new.list.now)) result
        (arms_with depth (statement_at depth) tokens.old.list.now) }
{
    all_listed!(tokens, TokenKind::Bar, arm(alloc, tokens, depth))
}

/// CASE Expr OF Arm {"|" Arm} [ELSE Stmts] END
#[cycle(statements)]
fn case_statement(alloc: Global, tokens: &mut Tokens, depth: usize) -> Result<Statement, ReadFault>
    ensures { Gives (λ x. (statement_view x, tokens.new.list.now)) result
        (case_with depth (statement_at depth) tokens.old.list.now) }
{
    let word = tokens.expect(TokenKind::Case)?;
    let value = expr_until(alloc, tokens, depth, TokenKind::Of)?;
    let arms = arms(alloc, tokens, depth)?;
    let other = otherwise(alloc, tokens, depth)?;
    tokens.expect(TokenKind::End)?;
    let form = StmtForm::Case { value, arms, other };
    Ok(Statement { at: word.at, form })
}

/// DO Stmts END
#[cycle(statements)]
fn body(alloc: Global, tokens: &mut Tokens, depth: usize) -> Result<Vec<Statement>, ReadFault>
    ensures { Gives (λ x. (map statement_view x.items, tokens.new.list.now)) result
        (body_with depth (statement_at depth) tokens.old.list.now) }
{
    tokens.expect(TokenKind::Do)?;
    let found = statements(alloc, tokens, depth)?;
    tokens.expect(TokenKind::End)?;
    Ok(found)
}

/// WHILE Expr DO Stmts END
#[cycle(statements)]
fn while_statement(alloc: Global, tokens: &mut Tokens, depth: usize) -> Result<Statement, ReadFault>
    ensures { Gives (λ x. (statement_view x, tokens.new.list.now)) result
        (while_with depth (statement_at depth) tokens.old.list.now) }
{
    let word = tokens.expect(TokenKind::While)?;
    let test = expr(alloc, tokens, depth)?;
    let body = body(alloc, tokens, depth)?;
    let form = StmtForm::While { test, body };
    Ok(Statement { at: word.at, form })
}

/// REPEAT Stmts UNTIL Expr
#[cycle(statements)]
fn repeat_statement(
    alloc: Global,
    tokens: &mut Tokens,
    depth: usize,
) -> Result<Statement, ReadFault>
    ensures { Gives (λ x. (statement_view x, tokens.new.list.now)) result
        (repeat_with depth (statement_at depth) tokens.old.list.now) }
{
    let word = tokens.expect(TokenKind::Repeat)?;
    let body = statements(alloc, tokens, depth)?;
    tokens.expect(TokenKind::Until)?;
    let test = expr(alloc, tokens, depth)?;
    let form = StmtForm::Repeat { body, test };
    Ok(Statement { at: word.at, form })
}

/// LOOP Stmts END
#[cycle(statements)]
fn loop_statement(alloc: Global, tokens: &mut Tokens, depth: usize) -> Result<Statement, ReadFault>
    ensures { Gives (λ x. (statement_view x, tokens.new.list.now)) result
        (loop_with depth (statement_at depth) tokens.old.list.now) }
{
    let word = tokens.expect(TokenKind::Loop)?;
    let body = statements(alloc, tokens, depth)?;
    tokens.expect(TokenKind::End)?;
    let form = StmtForm::Loop(body);
    Ok(Statement { at: word.at, form })
}

/// FOR ident ":=" Expr TO Expr [BY Expr] DO Stmts END
#[cycle(statements)]
fn for_statement(alloc: Global, tokens: &mut Tokens, depth: usize) -> Result<Statement, ReadFault>
    ensures { Gives (λ x. (statement_view x, tokens.new.list.now)) result
        (for_with depth (statement_at depth) tokens.old.list.now) }
{
    let word = tokens.expect(TokenKind::For)?;
    let name = ident(tokens)?;
    tokens.expect(TokenKind::Becomes)?;
    let first = expr(alloc, tokens, depth)?;
    let (last, by) = limit(alloc, tokens, depth)?;
    let body = body(alloc, tokens, depth)?;
    let form = StmtForm::For {
        name,
        first,
        last,
        by,
        body,
    };
    Ok(Statement { at: word.at, form })
}

/// WITH Designator DO Stmts END
#[cycle(statements)]
fn with_statement(alloc: Global, tokens: &mut Tokens, depth: usize) -> Result<Statement, ReadFault>
    ensures { Gives (λ x. (statement_view x, tokens.new.list.now)) result
        (with_with depth (statement_at depth) tokens.old.list.now) }
{
    let word = tokens.expect(TokenKind::With)?;
    let of = designator(alloc, tokens, depth)?;
    let body = body(alloc, tokens, depth)?;
    let form = StmtForm::With { of, body };
    Ok(Statement { at: word.at, form })
}
