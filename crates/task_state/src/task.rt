//! The task of a stream.
ghost use Rattle.std.specs.Prelude.{◌≡◌, ◌≤◌, [], IfErr, IfOk, Ok, OnOk, true, false};
ghost use Rattle.ll_grammar.specs.Readers.{Gives};
ghost use Rattle.m2_base.specs.States.{State, Turns, texts_of};
ghost use Rattle.m2_base.specs.Trees.{Stream as StreamTree};
ghost use Rattle.m2_base.specs.Views.{stream_view as tree_view};
ghost use Rattle.m2_parse.specs.Streams.{IsFirstFault, SpellsStream, cause_of};
ghost use Rattle.stream_split.specs.Views.{stream_view};
ghost use Rattle.task_state.specs.Progress.{Ends, IsAsFar, IsLeft, IsSameTask, is_over, steps_of};
ghost use Rattle.task_state.specs.Steps.{IsRead, Stops};
ghost use Rattle.task_state.specs.Units.{IsOfUnit};
ghost use Rattle.task_state.specs.declared.stages.Stage.TheVariants.{Ended};

use crate::outputs::refused;
use crate::stages::{Begun, Stage};
use crate::stops::Stop;
use crate::working::{begun, work};
use decl_sem::layout;
use m2_base::{Around, Head, Output, Scopes, Stream, StreamKind, Texts, Token};
use m2_parse::{ParseFault, parse_stream, values_fit};
use std::alloc::Global;
use stream_split::StreamTokens;

/// How a turn ends.
#[derive(Clone, Copy, Debug, PartialEq, Eq)]
pub enum Turn {
    Done,
    /// The scope of this head isn't complete, and lacks what was asked for.
    Parked(Head),
    Memory,
}

/// The tree of these tokens, or their first fault. Those of a unit's streams have values that fit.
fn tree_of(
    alloc: Global,
    tokens: &[Token],
    text: u32,
    kind: StreamKind,
) -> Result<Stream, ParseFault>
    ensures tree { IfOk result (λ tree. SpellsStream kind (tree_view tree) tokens.now) }
    ensures only { (tree : StreamTree) → SpellsStream kind tree tokens.now
        → Gives cause_of tree_view result (Ok tree) }
    ensures fault { IfErr result (λ fault. IsFirstFault text kind tokens.now fault) }
{
    if !values_fit(tokens) {
        return Err(ParseFault::Memory);
    }
    parse_stream(alloc, tokens, text, kind)
}

/// The work on one stream.
#[derive(Drop)]
pub struct Task {
    stream: u32,
    text: u32,
    kind: StreamKind,
    around: Around,
    stage: Stage,
    /// How many items and statements are finished.
    steps: u64,
}

/// How many items of a block and so many of its statements are finished.
fn made(begun: &Begun, statements: usize) -> u64 {
    (begun.collected.count as u64).saturating_add(statements as u64)
}

/// How many statements of a block are finished.
fn stated(begun: &Begun) -> usize {
    match &begun.stating {
        Some(stating) => stating.body.count(),
        None => 0,
    }
}

impl Task {
    /// The task of a stream, whose block is surrounded so. Nothing is done yet.
    pub fn new(stream: StreamTokens, around: Around) -> Task
        ensures { (st : State) → IsOfUnit st.frame.setting (stream_view stream) around → st.frame.entered ≡ []
            → st.frame.closed ≡ false → IsAsFar st result }
    {
        let StreamTokens {
            stream,
            text,
            kind,
            tokens,
            ..
        } = stream;
        Task {
            stream,
            text,
            kind,
            around,
            stage: Stage::Unread(tokens),
            steps: 0,
        }
    }

    /// How many items and statements of its stream are finished. It never falls.
    pub fn steps(&self) -> u64
        ensures { result ≡ steps_of self.now }
    {
        self.steps
    }

    /// Whether its stream is worked through.
    pub fn is_done(&self) -> bool
        ensures { result ≡ is_over self.now }
    {
        matches!(self.stage, Stage::Ended(_))
    }

    /// Reads the stream, if that isn't done yet. One that has a fault is done with that: its scope has no more rows.
    fn read<S: Scopes>(&mut self, alloc: Global, scopes: &mut S) -> Result<(), Stop>
        requires far { IsAsFar (S.state scopes.old) self.old }
        ensures turns { Turns (S.state scopes.old) (S.state scopes.new) }
        ensures far { IsAsFar (S.state scopes.new) self.new }
        ensures stops { Stops (S.state scopes.old) (S.state scopes.new) result }
        ensures read { OnOk result (IsRead self.new.stage) }
        ensures same { IsSameTask self.old self.new }
        ensures steps { steps_of self.old ≤ steps_of self.new }
    {
        let Stage::Unread(tokens) = &self.stage else {
            return Ok(());
        };
        let tree = match tree_of(alloc, tokens, self.text, self.kind) {
            Ok(tree) => tree,
            Err(ParseFault::Fault(fault)) => {
                scopes.complete();
                self.stage = Stage::Ended(refused(alloc, self.stream, fault));
                return Ok(());
            }
            Err(ParseFault::Memory) => return Err(Stop::NoMemory),
        };
        let layout = taken!(layout(alloc, &tree));
        self.stage = Stage::Working(begun(alloc, tree, layout));
        Ok(())
    }

    /// Goes on with the work on the tree of the stream, if it has one.
    fn go_on<S: Scopes>(&mut self, alloc: Global, texts: &Texts, scopes: &mut S) -> Result<(), Stop>
        requires texts { texts.now ≡ texts_of (S.state scopes.old) }
        requires far { IsAsFar (S.state scopes.old) self.old }
        requires read { IsRead self.old.stage }
        ensures turns { Turns (S.state scopes.old) (S.state scopes.new) }
        ensures far { IsAsFar (S.state scopes.new) self.new }
        ensures stops { Stops (S.state scopes.old) (S.state scopes.new) result }
        ensures done { OnOk result (is_over self.new ≡ true) }
        ensures same { IsSameTask self.old self.new }
        ensures steps { steps_of self.old ≤ steps_of self.new }
    {
        match &mut self.stage {
            Stage::Unread(_) => unreachable!(),
            Stage::Working(begun) => {
                match work(alloc, texts, &self.around, scopes, begun) {
                    Ok(output) => {
                        self.steps = self.steps.max(made(begun, begun.tree.body.len()));
                        self.stage = Stage::Ended(output);
                        Ok(())
                    }
                    Err(stop) => {
                        self.steps = self.steps.max(made(begun, stated(begun)));
                        Err(stop)
                    }
                }
            }
            Stage::Ended(_) => Ok(()),
        }
    }

    /// Reads the stream and goes on with its tree.
    fn advance<S: Scopes>(
        &mut self,
        alloc: Global,
        texts: &Texts,
        scopes: &mut S,
    ) -> Result<(), Stop>
        requires texts { texts.now ≡ texts_of (S.state scopes.old) }
        requires far { IsAsFar (S.state scopes.old) self.old }
        ensures turns { Turns (S.state scopes.old) (S.state scopes.new) }
        ensures far { IsAsFar (S.state scopes.new) self.new }
        ensures stops { Stops (S.state scopes.old) (S.state scopes.new) result }
        ensures done { OnOk result (is_over self.new ≡ true) }
        ensures same { IsSameTask self.old self.new }
        ensures steps { steps_of self.old ≤ steps_of self.new }
    {
        gone!(self.read(alloc, scopes));
        self.go_on(alloc, texts, scopes)
    }

    /// Goes on with the work until it is done, or has to wait for a scope, or memory is wanted. Nothing of an item or
    /// a statement that isn't done is kept.
    pub fn turn<S: Scopes>(&mut self, alloc: Global, texts: &Texts, scopes: &mut S) -> Turn
        requires undone { is_over self.old ≡ false }
        requires texts { texts.now ≡ texts_of (S.state scopes.old) }
        requires far { IsAsFar (S.state scopes.old) self.old }
        ensures turns { Turns (S.state scopes.old) (S.state scopes.new) }
        ensures far { IsAsFar (S.state scopes.new) self.new }
        ensures ends { Ends (S.state scopes.old) (S.state scopes.new) self.new result }
        ensures same { IsSameTask self.old self.new }
        ensures steps { steps_of self.old ≤ steps_of self.new }
    {
        match self.advance(alloc, texts, scopes) {
            Ok(()) => Turn::Done,
            Err(Stop::Parked(head)) => Turn::Parked(head),
            Err(Stop::NoMemory) => Turn::Memory,
        }
    }

    /// What the work on its stream leaves.
    #[tactic(auto, using(crate::proofs::Finished::is_left))]
    pub fn finished(self) -> Output
        requires { is_over self ≡ true }
        ensures stage { self.stage ≡ Ended result }
        ensures left { (st : State) → IsAsFar st self → IsLeft st self result }
    {
        let Task { stage, .. } = self;
        match stage {
            Stage::Ended(output) => output,
            Stage::Unread(_) | Stage::Working(_) => unreachable!(),
        }
    }
}
