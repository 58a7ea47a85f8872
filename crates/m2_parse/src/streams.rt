//! Reading a whole stream.
ghost use Rattle.std.specs.Prelude.{◌≡◌, [], map, length, IfOk, IfErr, IsTrue, Ok};
ghost use Rattle.ll_grammar.specs.Readers as readers;
ghost use Rattle.m2_base.specs.Trees.{Stream as StreamTree};
ghost use Rattle.m2_base.specs.Views.{import_view, stream_view};
ghost use Rattle.m2_parse.specs.Fitting.{all_fit};
ghost use Rattle.m2_parse.specs.Reading.{Gives};
ghost use Rattle.m2_parse.specs.ReadStreams.{begins_import as spec_begins_import, from_at, import_at, imports_at};
ghost use Rattle.m2_parse.specs.ReadStreams.{implementation_at, export_at, main_at, definition_at};
ghost use Rattle.m2_parse.specs.ReadStreams.{procedure_stream_at, stream_at};
ghost use Rattle.m2_parse.specs.Streams.{parse_fault as spec_parse_fault, cause_of, SpellsStream, IsFirstFault};
ghost use Rattle.m2_parse.specs.Streams.{stream_text};

use crate::declarations::{block, definition_declarations, heading};
use crate::faults::{ParseFault, ReadFault, Refusal};
use crate::lists::repeated;
use crate::names::{ident, idents};
use crate::tokens::Tokens;
use m2_base::{
    Diag, Ident, Import, MOST_NESTED, Stream, StreamFault, StreamKind, Token, TokenKind,
};
use std::alloc::Global;

fn begins_import(tokens: &Tokens) -> bool
    ensures { result ≡ spec_begins_import tokens.now.list.now }
{
    tokens.next_in(&[TokenKind::From, TokenKind::Import])
}

/// [FROM ident]
#[tactic(auto, unfolding(crate::specs::ReadStreams::from_at))]
fn from(tokens: &mut Tokens) -> Result<Option<Ident>, ReadFault>
    ensures { Gives (λ x. (x, tokens.new.list.now)) result (from_at tokens.old.list.now) }
{
    let Some(_) = tokens.next_if(TokenKind::From) else {
        return Ok(None);
    };
    let name = ident(tokens)?;
    Ok(Some(name))
}

/// Import = [FROM ident] IMPORT Idents ";"
#[tactic(auto, unfolding(crate::specs::ReadStreams::import_at))]
pub fn import(alloc: Global, tokens: &mut Tokens) -> Result<Import, ReadFault>
    ensures { Gives (λ x. (import_view x, tokens.new.list.now)) result (import_at tokens.old.list.now) }
{
    let from = from(tokens)?;
    tokens.expect(TokenKind::Import)?;
    let names = idents(alloc, tokens)?;
    tokens.expect(TokenKind::Semicolon)?;
    Ok(Import { from, names })
}

/// {Import}
#[tactic(auto, using(ll_grammar::proofs::Loops::repeat_starts))]
fn imports(alloc: Global, tokens: &mut Tokens) -> Result<Vec<Import>, ReadFault>
    ensures { Gives (λ x. (map import_view x.items, tokens.new.list.now)) result (imports_at tokens.old.list.now) }
{
    repeated!(alloc, tokens, begins_import(tokens), import(alloc, tokens))
}

/// [IMPLEMENTATION]
#[tactic(auto, unfolding(crate::specs::ReadStreams::implementation_at))]
pub fn implementation(tokens: &mut Tokens) -> Result<bool, ReadFault>
    ensures { Gives (λ x. (x, tokens.new.list.now)) result (implementation_at tokens.old.list.now) }
{
    let Some(_) = tokens.next_if(TokenKind::Implementation) else {
        return Ok(false);
    };
    Ok(true)
}

/// Export = EXPORT QUALIFIED Idents ";", which leaves no entry
#[tactic(auto, unfolding(crate::specs::ReadStreams::export_at))]
fn export(alloc: Global, tokens: &mut Tokens) -> Result<(), ReadFault>
    ensures { Gives (λ x. ([], tokens.new.list.now)) result (export_at tokens.old.list.now) }
{
    let Some(_) = tokens.next_if(TokenKind::Export) else {
        return Ok(());
    };
    tokens.expect(TokenKind::Qualified)?;
    idents(alloc, tokens)?;
    tokens.expect(TokenKind::Semicolon)?;
    Ok(())
}

/// Main = [IMPLEMENTATION] MODULE ident ";" {Import} Block ident "." End
#[tactic(auto, using(std::proofs::lemmas::Grind::common_steps), unfolding(crate::specs::ReadStreams::main_at))]
fn main_stream(alloc: Global, tokens: &mut Tokens, depth: usize) -> Result<Stream, ReadFault>
    ensures { Gives (λ x. (stream_view x, tokens.new.list.now)) result (main_at depth tokens.old.list.now) }
{
    let implementation = implementation(tokens)?;
    tokens.expect(TokenKind::Module)?;
    let name = ident(tokens)?;
    tokens.expect(TokenKind::Semicolon)?;
    let imports = imports(alloc, tokens)?;
    let block = block(alloc, tokens, depth)?;
    tokens.expect(TokenKind::Period)?;
    tokens.expect(TokenKind::EndOfText)?;
    let found = Stream {
        kind: StreamKind::Main,
        implementation,
        name: Some(name),
        imports,
        heading: None,
        decls: block.decls,
        body: block.body,
        close: block.close,
    };
    Ok(found)
}

/// Definition = DEFINITION MODULE ident ";" {Import} [Export] {DefDecl} END ident "." End
#[tactic(auto, using(std::proofs::lemmas::Grind::common_steps), unfolding(crate::specs::ReadStreams::definition_at))]
fn definition_stream(alloc: Global, tokens: &mut Tokens, depth: usize) -> Result<Stream, ReadFault>
    ensures { Gives (λ x. (stream_view x, tokens.new.list.now)) result (definition_at depth tokens.old.list.now) }
{
    tokens.expect(TokenKind::Definition)?;
    tokens.expect(TokenKind::Module)?;
    let name = ident(tokens)?;
    tokens.expect(TokenKind::Semicolon)?;
    let imports = imports(alloc, tokens)?;
    export(alloc, tokens)?;
    let decls = definition_declarations(alloc, tokens, depth)?;
    tokens.expect(TokenKind::End)?;
    let close = ident(tokens)?;
    tokens.expect(TokenKind::Period)?;
    tokens.expect(TokenKind::EndOfText)?;
    let found = Stream {
        kind: StreamKind::Definition,
        implementation: false,
        name: Some(name),
        imports,
        heading: None,
        decls,
        body: Vec::new(alloc),
        close,
    };
    Ok(found)
}

/// Procedure = Heading ";" Block ident ";" StreamEnd
#[tactic(auto, using(std::proofs::lemmas::Grind::common_steps), unfolding(crate::specs::ReadStreams::procedure_stream_at))]
fn procedure_stream(alloc: Global, tokens: &mut Tokens, depth: usize) -> Result<Stream, ReadFault>
    ensures { Gives (λ x. (stream_view x, tokens.new.list.now)) result
        (procedure_stream_at depth tokens.old.list.now) }
{
    let heading = heading(alloc, tokens)?;
    tokens.expect(TokenKind::Semicolon)?;
    let block = block(alloc, tokens, depth)?;
    tokens.expect(TokenKind::Semicolon)?;
    tokens.expect(TokenKind::StreamEnd)?;
    let found = Stream {
        kind: StreamKind::Procedure,
        implementation: false,
        name: None,
        imports: Vec::new(alloc),
        heading: Some(heading),
        decls: block.decls,
        body: block.body,
        close: block.close,
    };
    Ok(found)
}

/// A stream of this kind, with what stands behind it.
#[tactic(auto, unfolding(crate::specs::ReadStreams::stream_at))]
fn stream(
    alloc: Global,
    tokens: &mut Tokens,
    kind: StreamKind,
    depth: usize,
) -> Result<Stream, ReadFault>
    ensures { Gives (λ x. (stream_view x, tokens.new.list.now)) result (stream_at depth kind tokens.old.list.now) }
{
    match kind {
        StreamKind::Main => main_stream(alloc, tokens, depth),
        StreamKind::Definition => definition_stream(alloc, tokens, depth),
        StreamKind::Procedure => procedure_stream(alloc, tokens, depth),
    }
}

/// The fault, in the text of this number.
fn parse_fault(text: u32, fault: ReadFault) -> ParseFault
    ensures { result ≡ spec_parse_fault text fault }
{
    match fault {
        ReadFault::Memory => ParseFault::Memory,
        ReadFault::Refused(Refusal::Syntax { at, code }) => ParseFault::Fault(StreamFault::Syntax(
            Diag { text, at, code },
        )),
        ReadFault::Refused(Refusal::TooDeep { at }) => ParseFault::Fault(StreamFault::TooDeep {
            text,
            at,
        }),
    }
}

/// A whole stream: nothing stands behind it.
#[tactic(auto, unfolding(crate::specs::Streams::stream_text))]
fn whole(
    alloc: Global,
    mut tokens: Tokens,
    text: u32,
    kind: StreamKind,
) -> Result<Stream, ParseFault>
    ensures { readers.Gives cause_of stream_view result (stream_text text kind tokens.entry.list.now) }
{
    match stream(alloc, &mut tokens, kind, MOST_NESTED) {
        Err(fault) => Err(parse_fault(text, fault)),
        Ok(found) => match tokens.list {
            [] => Ok(found),
            [_, ..] => Err(parse_fault(text, tokens.refused())),
        },
    }
}

/// The tree of a stream of this kind, or its first fault. At a fault of syntax no sentence begins with the tokens up
/// to it; a token is too deep where it lies in more than a hundred types, field lists, statements and factors.
pub fn parse_stream(
    alloc: Global,
    tokens: &[Token],
    text: u32,
    kind: StreamKind,
) -> Result<Stream, ParseFault>
    requires { IsTrue (all_fit tokens.now) }
    ensures tree { IfOk result (λ s. SpellsStream kind (stream_view s) tokens.now) }
    ensures only { (s : StreamTree) → SpellsStream kind s tokens.now
        → readers.Gives cause_of stream_view result (Ok s) }
    ensures fault { IfErr result (λ e. IsFirstFault text kind tokens.now e) }
{
    whole(alloc, Tokens { list: tokens }, text, kind)
}
