//! The cut, one token at a time.
ghost use Rattle.std.specs.Prelude.{◌≡◌, ◌<◌, ◌+◌, ◌-◌, OnOk, IfOk, IfSome, length, [], ◌∷◌, ◌++◌, suc, map, List};
ghost use Rattle.std.specs.List.{All};
ghost use Rattle.stream_split.specs.Cut.{State, deeper, all_end, unless_stop, state, amid_next, amid, Enclosed};
ghost use Rattle.stream_split.specs.Cut.{opens_by, heading_opens, enclosed, seen, to, cut_at, heading_next};
ghost use Rattle.stream_split.specs.Cut.{heading_goes, seen_next, next_by, goes_by, ended, heading, one_left, out_of};
ghost use Rattle.stream_split.specs.Cut.{end_at, start};
ghost use Rattle.stream_split.specs.Limits.{Within, heading_limit, seen_limit, limit_at, passed};
ghost use Rattle.stream_split.specs.Streams.{procedure_streams, main_streams as spec_main_streams};
ghost use Rattle.m2_base.specs.declared.trees.declarations.StreamKind.TheVariants.{Procedure};
ghost use Rattle.stream_split.specs.declared.cutter.Mode.TheVariants.{Body};
ghost use Rattle.stream_split.specs.Views.{stream_view, label, Sent, frames_view, state_view, phase_view, sends_all};
ghost use Rattle.stream_split.specs.Views.{Ready};

use crate::sorts::{Sort, sort_of};
use crate::streams::{SplitFault, StreamTokens};
use m2_base::{DEEPEST_LEVEL, MOST_PROCEDURES, StreamKind, Token, TokenKind};
use std::alloc::{AllocError, Global};

/// What encloses a token in its own stream.
#[derive(Clone, Copy)]
pub enum Mode {
    /// The module's block, in which nothing is counted.
    Free,
    /// A procedure's block, in which so many constructs are open.
    Body(u32),
}

/// A stream round the current one, by its index, and what encloses its next token.
#[derive(Clone, Copy)]
pub struct Frame {
    pub stream: usize,
    pub mode: Mode,
}

/// How far the current stream is.
#[derive(Clone, Copy)]
pub enum Phase {
    Amid,
    /// Behind this PROCEDURE.
    Seen(Token),
    /// In a heading, where so many brackets are open.
    Heading(u32),
    /// Behind the END that closes a procedure.
    TwoLeft,
    OneLeft,
    Ended,
}

/// The cut so far. Streams are meant by their index; the first has the number `first`.
#[derive(Drop)]
pub struct Cutter {
    first: u32,
    current: usize,
    mode: Mode,
    phase: Phase,
    /// The streams round the current one, from the outside in.
    around: Vec<Frame>,
    /// The tokens of the heading that is read.
    held: Vec<Token>,
    streams: Vec<StreamTokens>,
}

/// Puts a token at the end of a stream.
fn send(
    streams: &mut Vec<StreamTokens>,
    first: u32,
    stream: usize,
    t: Token,
) -> Result<(), AllocError>
    requires { stream < length streams.old.items }
    ensures sent { OnOk result (Sent first streams.old.items ((first + stream, t) ∷ []) streams.new.items) }
    ensures labels { OnOk result (map label streams.new.items ≡ map label streams.old.items) }
    ensures count { OnOk result (length streams.new.items ≡ length streams.old.items) }
{
    streams[stream].tokens.push(t)?;
    Ok(())
}

/// Puts the last token of the text at the end of each stream round the current one.
fn end_each(
    streams: &mut Vec<StreamTokens>,
    first: u32,
    around: &[Frame],
    t: Token,
) -> Result<(), AllocError>
    requires { All (λ f. f.stream < length streams.old.items) around.now }
    ensures sent { OnOk result (Sent first streams.old.items (sends_all first around.now t) streams.new.items) }
    ensures labels { OnOk result (map label streams.new.items ≡ map label streams.old.items) }
    ensures count { OnOk result (length streams.new.items ≡ length streams.old.items) }
{
    for f in around {
        send(streams, first, f.stream, t)?;
    }
    Ok(())
}

/// The same, told from the inside out.
fn end_around(
    streams: &mut Vec<StreamTokens>,
    first: u32,
    around: &[Frame],
    t: Token,
) -> Result<(), AllocError>
    requires { All (λ f. f.stream < length streams.old.items) around.now }
    ensures sent { OnOk result
        (Sent first streams.old.items (all_end (frames_view first around.now) t) streams.new.items) }
    ensures labels { OnOk result (map label streams.new.items ≡ map label streams.old.items) }
    ensures count { OnOk result (length streams.new.items ≡ length streams.old.items) }
{
    end_each(streams, first, around, t)?;
    Ok(())
}

/// One more construct is open. None where they can't be counted.
fn deeper_mode(m: Mode) -> Option<Mode>
    ensures { IfSome result (λ d. d ≡ deeper m) }
{
    match m {
        Mode::Free => Some(Mode::Free),
        Mode::Body(d) => Some(Mode::Body(d.checked_add(1)?)),
    }
}

/// What a token amid a block makes of its mode and phase.
fn next_amid(m: Mode, t: Token, s: Sort) -> Option<(Mode, Phase)>
    ensures { IfSome result (λ r. (hs : List Token) → phase_view r.1 r.0 hs ≡ amid_next m t s) }
{
    match s {
        Sort::Stop => Some((m, Phase::Ended)),
        Sort::Procedure => Some((m, Phase::Seen(t))),
        Sort::Opener => Some((deeper_mode(m)?, Phase::Amid)),
        Sort::Closer => match m {
            Mode::Free => Some((m, Phase::Amid)),
            Mode::Body(0) => Some((m, Phase::TwoLeft)),
            Mode::Body(d) => Some((Mode::Body(d - 1), Phase::Amid)),
        },
        _ => Some((m, Phase::Amid)),
    }
}

/// The number of the stream at an index. None where it has none.
pub fn number_of(first: u32, index: usize) -> Option<u32>
    ensures { IfSome result (λ n. n ≡ first + index) }
{
    first.checked_add(u32::try_from(index).ok()?)
}

/// A Cut, at the token before it.
fn cut_token(stream: u32, t: Token) -> Token
    ensures { result ≡ cut_at stream t }
{
    Token {
        kind: TokenKind::Cut,
        value: u64::from(stream),
        ..t
    }
}

/// The end of a stream, at the token before it.
fn end_token(t: Token) -> Token
    ensures { result ≡ end_at t }
{
    Token {
        kind: TokenKind::StreamEnd,
        value: 0,
        ..t
    }
}

impl Cutter {
    /// A token amid the current stream's block.
    fn amid_token(&mut self, t: Token, s: Sort) -> Result<(), AllocError>
        requires { Ready self.old }
        ensures state { OnOk result (state_view self.new
            ≡ state (self.old.first + self.old.current) (self.old.first + length self.old.streams.items)
            (frames_view self.old.first self.old.around.items) (amid_next self.old.mode t s)) }
        ensures sent { OnOk result (Sent self.old.first self.old.streams.items ((self.old.first + self.old.current, t)
            ∷ unless_stop s (all_end (frames_view self.old.first self.old.around.items) t) [])
            self.new.streams.items) }
        ensures labels { OnOk result (map label self.new.streams.items ≡ map label self.old.streams.items) }
        ensures first { OnOk result (self.new.first ≡ self.old.first) }
    {
        let Some((mode, phase)) = next_amid(self.mode, t, s) else {
            return Err(AllocError);
        };
        send(&mut self.streams, self.first, self.current, t)?;
        if s == Sort::Stop {
            end_around(&mut self.streams, self.first, &self.around, t)?;
        }
        self.mode = mode;
        self.phase = phase;
        Ok(())
    }

    /// The stream of a procedure that is declared in the current one, with these tokens.
    fn new_stream(&self, tokens: Vec<Token>) -> Option<StreamTokens>
        ensures { IfSome result (λ s. stream_view s
            ≡ record {
              stream = self.now.first + length self.now.streams.items;
              text = 0;
              outer = self.now.first
                  + self.now.current;
              level = length self.now.around.items + 1;
              kind = Procedure;
              tokens = tokens.items;
            }) }
    {
        let stream = number_of(self.first, self.streams.len())?;
        let outer = number_of(self.first, self.current)?;
        let level = number_of(1, self.around.len())?;
        Some(StreamTokens {
            stream,
            text: 0,
            outer,
            level,
            kind: StreamKind::Procedure,
            tokens,
        })
    }

    /// The heading goes on, with so many brackets open.
    fn heading_on(&mut self, t: Token, brackets: u32) -> Result<(), AllocError>
        requires { Ready self.old }
        ensures state { OnOk result (state_view self.new ≡ state (self.old.first + self.old.current)
            (self.old.first + length self.old.streams.items) (frames_view self.old.first self.old.around.items)
            (heading self.old.mode brackets (self.old.held.items ++ (t ∷ [])))) }
        ensures sent { OnOk result (Sent self.old.first self.old.streams.items
            ((self.old.first + self.old.current, t) ∷ []) self.new.streams.items) }
        ensures labels { OnOk result (map label self.new.streams.items ≡ map label self.old.streams.items) }
        ensures first { OnOk result (self.new.first ≡ self.old.first) }
    {
        send(&mut self.streams, self.first, self.current, t)?;
        self.held.push(t)?;
        self.phase = Phase::Heading(brackets);
        Ok(())
    }

    /// A stream of its own for the heading, whose last token is this one.
    fn open(&mut self, alloc: Global, t: Token) -> Result<(), AllocError>
        ensures sent { OnOk result (Sent self.old.first self.old.streams.items (to (self.old.first
            + length self.old.streams.items) (self.old.held.items ++ (t ∷ []))) self.new.streams.items) }
        ensures labels { OnOk result (map label self.new.streams.items ≡ map label self.old.streams.items
            ++ procedure_streams (self.old.first + length self.old.streams.items) (enclosed
            (self.old.first + self.old.current) (frames_view self.old.first self.old.around.items) ∷ []) []) }
        ensures count { OnOk result (length self.new.streams.items ≡ length self.old.streams.items + 1) }
        ensures rest { OnOk result (self.new ≡ record self.old { streams = self.new.streams; held = self.new.held }) }
    {
        let mut tokens = std::mem::replace(&mut self.held, Vec::new(alloc));
        tokens.push(t)?;
        let Some(opened) = self.new_stream(tokens) else {
            return Err(AllocError);
        };
        self.streams.push(opened)?;
        Ok(())
    }

    /// The semicolon of a heading: a Cut in the stream round the new one, whose block begins.
    fn begin_block(&mut self, alloc: Global, t: Token) -> Result<(), AllocError>
        requires { Ready self.old }
        ensures state { OnOk result (state_view self.new ≡ state (self.old.first + length self.old.streams.items) (suc
            (self.old.first + length self.old.streams.items)) (((self.old.first + self.old.current), self.old.mode)
            ∷ (frames_view self.old.first self.old.around.items)) (amid (Body 0))) }
        ensures sent { OnOk result (Sent self.old.first self.old.streams.items ((
          (self.old.first + self.old.current),
          t,
        ) ∷ ((self.old.first + self.old.current), cut_at (self.old.first + length self.old.streams.items) t)
            ∷ to (self.old.first + length self.old.streams.items) (self.old.held.items ++ (t ∷ [])))
            self.new.streams.items) }
        ensures labels { OnOk result (map label self.new.streams.items ≡ map label self.old.streams.items
            ++ procedure_streams (self.old.first + length self.old.streams.items) (enclosed
            (self.old.first + self.old.current) (frames_view self.old.first self.old.around.items) ∷ []) []) }
        ensures first { OnOk result (self.new.first ≡ self.old.first) }
    {
        let index = self.streams.len();
        let Some(number) = number_of(self.first, index) else {
            return Err(AllocError);
        };
        send(&mut self.streams, self.first, self.current, t)?;
        send(
            &mut self.streams,
            self.first,
            self.current,
            cut_token(number, t),
        )?;
        self.open(alloc, t)?;
        self.around.push(Frame {
            stream: self.current,
            mode: self.mode,
        })?;
        self.current = index;
        self.mode = Mode::Body(0);
        self.phase = Phase::Amid;
        Ok(())
    }

    /// The text ends within a heading.
    fn end_heading(&mut self, alloc: Global, t: Token) -> Result<(), AllocError>
        requires { Ready self.old }
        ensures state { OnOk result (state_view self.new
            ≡ state (self.old.first + self.old.current) (suc (self.old.first + length self.old.streams.items))
            (frames_view self.old.first self.old.around.items) ended) }
        ensures sent { OnOk result (Sent self.old.first self.old.streams.items
            (((self.old.first + self.old.current), t) ∷ (all_end (frames_view self.old.first self.old.around.items) t
            ++ to (self.old.first + length self.old.streams.items) (self.old.held.items ++ (t ∷ []))))
            self.new.streams.items) }
        ensures labels { OnOk result (map label self.new.streams.items ≡ map label self.old.streams.items
            ++ procedure_streams (self.old.first + length self.old.streams.items) (enclosed
            (self.old.first + self.old.current) (frames_view self.old.first self.old.around.items) ∷ []) []) }
        ensures first { OnOk result (self.new.first ≡ self.old.first) }
    {
        send(&mut self.streams, self.first, self.current, t)?;
        end_around(&mut self.streams, self.first, &self.around, t)?;
        self.open(alloc, t)?;
        self.phase = Phase::Ended;
        Ok(())
    }

    /// A token of a heading, where so many brackets are open.
    fn heading_token(
        &mut self,
        alloc: Global,
        t: Token,
        s: Sort,
        brackets: u32,
    ) -> Result<(), AllocError>
        requires { Ready self.old }
        ensures state { OnOk result (state_view self.new
            ≡ heading_next (self.old.first + self.old.current) (self.old.first + length self.old.streams.items)
            (frames_view self.old.first self.old.around.items) self.old.mode brackets self.old.held.items t s) }
        ensures sent { OnOk result (Sent self.old.first self.old.streams.items
            (heading_goes (self.old.first + self.old.current) (self.old.first + length self.old.streams.items)
            (frames_view self.old.first self.old.around.items) brackets self.old.held.items t s)
            self.new.streams.items) }
        ensures labels { OnOk result (map label self.new.streams.items ≡ map label self.old.streams.items
            ++ procedure_streams (self.old.first + length self.old.streams.items) (heading_opens
            (self.old.first + self.old.current) (frames_view self.old.first self.old.around.items) brackets s) []) }
        ensures first { OnOk result (self.new.first ≡ self.old.first) }
    {
        match s {
            Sort::Stop => self.end_heading(alloc, t),
            Sort::Left => match brackets.checked_add(1) {
                Some(more) => self.heading_on(t, more),
                None => Err(AllocError),
            },
            Sort::Right => self.heading_on(t, brackets.saturating_sub(1)),
            Sort::Semicolon if brackets == 0 => self.begin_block(alloc, t),
            _ => self.heading_on(t, brackets),
        }
    }

    /// The first of the two tokens behind the END that closes a procedure.
    fn two_left(&mut self, t: Token, s: Sort) -> Result<(), AllocError>
        requires { Ready self.old }
        ensures state { OnOk result (state_view self.new
            ≡ state (self.old.first + self.old.current) (self.old.first + length self.old.streams.items)
            (frames_view self.old.first self.old.around.items) (unless_stop s ended one_left)) }
        ensures sent { OnOk result
            (Sent self.old.first self.old.streams.items (((self.old.first + self.old.current), t) ∷ unless_stop s
            (all_end (frames_view self.old.first self.old.around.items) t) []) self.new.streams.items) }
        ensures labels { OnOk result (map label self.new.streams.items ≡ map label self.old.streams.items) }
        ensures first { OnOk result (self.new.first ≡ self.old.first) }
    {
        send(&mut self.streams, self.first, self.current, t)?;
        if s == Sort::Stop {
            end_around(&mut self.streams, self.first, &self.around, t)?;
            self.phase = Phase::Ended;
        } else {
            self.phase = Phase::OneLeft;
        }
        Ok(())
    }

    /// The second: the stream ends, and the one round it goes on.
    #[tactic(auto, using(std::proofs::lemmas::Grind::common_steps, crate::proofs::Items::leave_some, crate::proofs::Items::leave_none))]
    fn leave(&mut self, t: Token) -> Result<(), AllocError>
        requires { Ready self.old }
        ensures state { OnOk result (state_view self.new ≡ out_of (self.old.first + self.old.current)
            (self.old.first + length self.old.streams.items) (frames_view self.old.first self.old.around.items)) }
        ensures sent { OnOk result (Sent self.old.first self.old.streams.items ((
          (self.old.first + self.old.current),
          t,
        ) ∷ ((self.old.first + self.old.current), end_at t) ∷ []) self.new.streams.items) }
        ensures labels { OnOk result (map label self.new.streams.items ≡ map label self.old.streams.items) }
        ensures first { OnOk result (self.new.first ≡ self.old.first) }
    {
        send(&mut self.streams, self.first, self.current, t)?;
        send(&mut self.streams, self.first, self.current, end_token(t))?;
        match self.around.pop() {
            Some(f) => {
                self.current = f.stream;
                self.mode = f.mode;
                self.phase = Phase::Amid;
                Ok(())
            }
            None => {
                self.mode = Mode::Free;
                self.phase = Phase::Amid;
                Ok(())
            }
        }
    }

    /// The same, unless the text ends here.
    fn one_left(&mut self, t: Token, s: Sort) -> Result<(), AllocError>
        requires { Ready self.old }
        ensures state { OnOk result (state_view self.new
            ≡ unless_stop s (state (self.old.first + self.old.current) (self.old.first + length self.old.streams.items)
            (frames_view self.old.first self.old.around.items) ended) (out_of (self.old.first + self.old.current)
            (self.old.first + length self.old.streams.items) (frames_view self.old.first self.old.around.items))) }
        ensures sent { OnOk result (Sent self.old.first self.old.streams.items ((
          (self.old.first + self.old.current),
          t,
        ) ∷ unless_stop s (all_end (frames_view self.old.first self.old.around.items) t)
            (((self.old.first + self.old.current), end_at t) ∷ [])) self.new.streams.items) }
        ensures labels { OnOk result (map label self.new.streams.items ≡ map label self.old.streams.items) }
        ensures first { OnOk result (self.new.first ≡ self.old.first) }
    {
        if s == Sort::Stop {
            send(&mut self.streams, self.first, self.current, t)?;
            end_around(&mut self.streams, self.first, &self.around, t)?;
            self.phase = Phase::Ended;
            Ok(())
        } else {
            self.leave(t)
        }
    }

    /// An identifier behind a PROCEDURE begins a heading.
    fn begin_heading(&mut self, p: Token, t: Token) -> Result<(), SplitFault>
        requires { Ready self.old }
        ensures state { OnOk result (state_view self.new
            ≡ state (self.old.first + self.old.current) (self.old.first + length self.old.streams.items)
            (frames_view self.old.first self.old.around.items) (heading self.old.mode 0 (p ∷ t ∷ []))) }
        ensures sent { OnOk result (Sent self.old.first self.old.streams.items
            (((self.old.first + self.old.current), t) ∷ []) self.new.streams.items) }
        ensures labels { OnOk result (map label self.new.streams.items ≡ map label self.old.streams.items) }
        ensures first { OnOk result (self.new.first ≡ self.old.first) }
        ensures limits { Within (heading_limit (length self.old.streams.items - 1)
            (length (frames_view self.old.first self.old.around.items)) p.at) result }
    {
        if self.streams.len() - 1 == MOST_PROCEDURES {
            return Err(SplitFault::TooManyStreams);
        }
        if self.around.len() + 1 > DEEPEST_LEVEL {
            return Err(SplitFault::TooNested);
        }
        send(&mut self.streams, self.first, self.current, t)?;
        self.held.clear();
        self.held.push(p)?;
        self.held.push(t)?;
        self.phase = Phase::Heading(0);
        Ok(())
    }

    /// A token behind a PROCEDURE.
    fn seen_token(&mut self, p: Token, t: Token, s: Sort) -> Result<(), SplitFault>
        requires { Ready self.old }
        ensures state { OnOk result (state_view self.new
            ≡ state (self.old.first + self.old.current) (self.old.first + length self.old.streams.items)
            (frames_view self.old.first self.old.around.items) (seen_next self.old.mode p t s)) }
        ensures sent { OnOk result
            (Sent self.old.first self.old.streams.items (((self.old.first + self.old.current), t) ∷ unless_stop s
            (all_end (frames_view self.old.first self.old.around.items) t) []) self.new.streams.items) }
        ensures labels { OnOk result (map label self.new.streams.items ≡ map label self.old.streams.items) }
        ensures first { OnOk result (self.new.first ≡ self.old.first) }
        ensures limits { Within (seen_limit (length self.old.streams.items - 1)
            (frames_view self.old.first self.old.around.items) p s) result }
    {
        match s {
            Sort::Word => self.begin_heading(p, t),
            _ => {
                self.amid_token(t, s)?;
                Ok(())
            }
        }
    }

    /// One token.
    pub fn step(&mut self, alloc: Global, t: Token, s: Sort) -> Result<(), SplitFault>
        requires { Ready self.old }
        ensures state { OnOk result (state_view self.new ≡ next_by (state_view self.old) t s) }
        ensures sent { OnOk result
            (Sent self.old.first self.old.streams.items (goes_by (state_view self.old) t s) self.new.streams.items) }
        ensures labels { OnOk result (map label self.new.streams.items
            ≡ map label self.old.streams.items ++ procedure_streams (self.old.first + length self.old.streams.items)
            (opens_by (state_view self.old) s) []) }
        ensures first { OnOk result (self.new.first ≡ self.old.first) }
        ensures limits { Within (limit_at (length self.old.streams.items - 1) (state_view self.old) s) result }
    {
        match self.phase {
            Phase::Amid => self.amid_token(t, s)?,
            Phase::Seen(p) => return self.seen_token(p, t, s),
            Phase::Heading(brackets) => self.heading_token(alloc, t, s, brackets)?,
            Phase::TwoLeft => self.two_left(t, s)?,
            Phase::OneLeft => self.one_left(t, s)?,
            Phase::Ended => {}
        }
        Ok(())
    }
}

/// The streams of a main text, the first of which has this number: the module's, and those of its procedures in the
/// order of their PROCEDURE tokens.
pub fn main_streams(
    alloc: Global,
    first: u32,
    tokens: &[Token],
) -> Result<Vec<StreamTokens>, SplitFault>
    ensures streams { IfOk result (λ out. map stream_view out.items ≡ spec_main_streams first tokens.now) }
    ensures limits { Within (passed 0 (start first) tokens.now) result }
{
    let mut streams = Vec::new(alloc);
    streams.push(StreamTokens {
        stream: first,
        text: 0,
        outer: 0,
        level: 0,
        kind: StreamKind::Main,
        tokens: Vec::new(alloc),
    })?;
    let mut cutter = Cutter {
        first,
        current: 0,
        mode: Mode::Free,
        phase: Phase::Amid,
        around: Vec::new(alloc),
        held: Vec::new(alloc),
        streams,
    };
    for t in tokens {
        let s = sort_of(t.kind);
        match cutter.step(alloc, *t, s) {
            Ok(()) => {}
            Err(fault) => return Err(fault),
        }
    }
    Ok(cutter.streams)
}
