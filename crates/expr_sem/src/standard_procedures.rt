//! The standard procedures that give no value, and how many arguments each standard procedure takes.
ghost use Rattle.std.specs.Prelude.{◌≡◌};
ghost use Rattle.m2_base.specs.Gives.{and_then, gives};
ghost use Rattle.m2_base.specs.States.{State};
ghost use Rattle.m2_base.specs.declared.notes.Notes.{Notes as NotesOf};
ghost use Rattle.m2_base.specs.declared.sites.Site.{Site as SiteOf};
ghost use Rattle.expr_sem.specs.Coders.{Codes, Keeps, SuitsPlace, frame_of, nodes_of};
ghost use Rattle.block_code.specs.Coded.{coded};
ghost use Rattle.expr_sem.specs.Codings.{Coding, IsCoded, coded_in};
ghost use Rattle.block_code.specs.StandardProcedures.{first_of_two as spec_first};
ghost use Rattle.block_code.specs.StandardProcedures.{is_function as spec_function, of_no_argument as spec_none};
ghost use Rattle.block_code.specs.StandardProcedures.{of_one_argument as spec_one, of_two_arguments as spec_two, one};
ghost use Rattle.block_code.specs.StandardProcedures.{ordinal_variable};
ghost use Rattle.block_code.specs.StandardProcedures.{step_number as spec_number, stepped as spec_stepped};
ghost use Rattle.block_code.specs.StandardProcedures.{takes_count as spec_count};
ghost use Rattle.type_rules.specs.Sites.{SuitsSite};

use crate::answers::answered_as;
use crate::coded::{Coded, Placed};
use crate::coder::Coder;
use crate::fragments::Fragments;
use crate::rooms::{disposed, new_room};
use crate::step_numbers::step_number;
use crate::updates::NO_VALUE;
use crate::value_functions::Rule;
use crate::variable_arguments::{Wanted, variable_argument};
use code_form::Instr;
use const_eval::Argument;
use m2_base::{Ask, Builtin, Memory, Operand, Scopes};
use type_rules::WHOLE;

/// The standard procedure takes so many arguments.
pub fn takes_count(f: Builtin, count: usize) -> bool
    ensures { result ≡ spec_count f count }
{
    match f {
        Builtin::Halt => count == 0,
        Builtin::Inc | Builtin::Dec => count == 1 || count == 2,
        Builtin::Incl | Builtin::Excl | Builtin::Val => count == 2,
        _ => count == 1,
    }
}

/// A function gives a value; the others are proper procedures.
pub fn is_function(f: Builtin) -> bool
    ensures { result ≡ spec_function f }
{
    !matches!(
        f,
        Builtin::Inc
            | Builtin::Dec
            | Builtin::Incl
            | Builtin::Excl
            | Builtin::New
            | Builtin::Dispose
            | Builtin::Halt
    )
}

/// A standard procedure without arguments; of others than HALT nobody asks.
pub fn of_no_argument(f: Builtin, fragments: &mut Fragments) -> Result<Ask<Coded>, Memory>
    ensures { (state : State) (notes : NotesOf) (site : SiteOf) → SuitsSite state.frame site
        → Coding state state notes notes fragments.old.nodes.items fragments.new.nodes.items site result IsCoded
        coded_in (λ c. gives (spec_none f)) }
{
    match f {
        Builtin::Halt => answered_as(NO_VALUE, fragments.one(Instr::Halt)),
        _ => Ok(Ask::Known(Coded::in_error())),
    }
}

impl<S: Scopes> Coder<'_, '_, S> {
    /// A standard procedure of one argument.
    pub(crate) fn of_one_argument(
        &mut self,
        f: Builtin,
        at: u32,
        x: Coded,
    ) -> Result<Ask<Coded>, Memory>
        requires suits { SuitsPlace S.state self.old }
        requires x { IsCoded (frame_of S.state self.old) (nodes_of self.old) x }
        ensures keeps { Keeps self.old self.new }
        ensures codes { Codes S.state self.old self.new result IsCoded coded_in
            (λ c. spec_one c f at (coded_in (nodes_of self.old) x)) }
    {
        match f {
            Builtin::Inc | Builtin::Dec => {
                let argument = Placed { at, coded: x };
                let v = analysed!(variable_argument(
                    self.scopes,
                    self.site,
                    Wanted::Ordinal,
                    argument,
                    self.notes
                ));
                let one = Coded::bare(Operand::Constant(WHOLE, 1));
                self.stepped(f, v, one)
            }
            Builtin::New | Builtin::Dispose => {
                let argument = Placed { at, coded: x };
                let v = analysed!(variable_argument(
                    self.scopes,
                    self.site,
                    Wanted::Pointer,
                    argument,
                    self.notes
                ));
                match f {
                    Builtin::New => new_room(self.scopes, self.site, v, self.fragments),
                    _ => disposed(v, self.fragments),
                }
            }
            _ => self.function_of_one(f, at, x),
        }
    }

    /// The first of two arguments, before the second is looked at.
    pub(crate) fn first_of_two(
        &mut self,
        f: Builtin,
        at: u32,
        x: Coded,
    ) -> Result<Ask<Coded>, Memory>
        requires suits { SuitsPlace S.state self.old }
        requires x { IsCoded (frame_of S.state self.old) (nodes_of self.old) x }
        ensures keeps { Keeps self.old self.new }
        ensures codes { Codes S.state self.old self.new result IsCoded coded_in
            (λ c. spec_first c f at (coded_in (nodes_of self.old) x)) }
    {
        match f {
            Builtin::Inc | Builtin::Dec => variable_argument(
                self.scopes,
                self.site,
                Wanted::Ordinal,
                Placed { at, coded: x },
                self.notes,
            ),
            Builtin::Incl | Builtin::Excl => variable_argument(
                self.scopes,
                self.site,
                Wanted::Set,
                Placed { at, coded: x },
                self.notes,
            ),
            _ => Ok(Ask::Known(x)),
        }
    }

    /// A standard procedure of two arguments, of which the first is as `first_of_two` gives it; of others nobody asks.
    pub(crate) fn of_two_arguments(
        &mut self,
        f: Builtin,
        x: Placed,
        y: Placed,
    ) -> Result<Ask<Coded>, Memory>
        requires suits { SuitsPlace S.state self.old }
        requires x { IsCoded (frame_of S.state self.old) (nodes_of self.old) x.coded }
        requires y { IsCoded (frame_of S.state self.old) (nodes_of self.old) y.coded }
        ensures keeps { Keeps self.old self.new }
        ensures codes { Codes S.state self.old self.new result IsCoded coded_in (λ c.
            spec_two c f x.at (coded_in (nodes_of self.old) x.coded) y.at (coded_in (nodes_of self.old) y.coded)) }
    {
        match f {
            Builtin::Inc | Builtin::Dec => {
                let number = analysed!(step_number(self.scopes, self.site, x.coded, y, self.notes));
                self.stepped(f, x.coded, number)
            }
            Builtin::Incl | Builtin::Excl => self.included(f, x.coded, y),
            Builtin::Val => {
                let rule = Rule::Val(Argument {
                    at: x.at,
                    operand: x.coded.operand,
                });
                self.on_value(rule, y.at, y.coded)
            }
            _ => Ok(Ask::Known(Coded::in_error())),
        }
    }
}
