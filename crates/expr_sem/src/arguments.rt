//! The code of arguments beside their parameters.
ghost use Rattle.std.specs.Prelude.{◌≡◌, ◌-◌, ◌&&◌, List, None, not, pos};
ghost use Rattle.m2_base.specs.States.{State};
ghost use Rattle.m2_base.specs.Statics.Contexts.{refuse as spec_refuse};
ghost use Rattle.m2_base.specs.Statics.Types.{kind_of};
ghost use Rattle.code_form.specs.declared.instr.Instr.TheVariants.{Push};
ghost use Rattle.const_eval.specs.Sites.{IsOperand};
ghost use Rattle.expr_sem.specs.ArgumentCodes.{IsArgument, argument_in, parameter_view};
ghost use Rattle.block_code.specs.Arguments.{alike as spec_alike, argument as spec_argument};
ghost use Rattle.block_code.specs.Arguments.{array_argument as spec_array_argument, by_address as spec_address};
ghost use Rattle.block_code.specs.Arguments.{by_value as spec_value, checked_mode as spec_checked};
ghost use Rattle.block_code.specs.Arguments.{is_variable as spec_variable, open_argument as spec_open};
ghost use Rattle.expr_sem.specs.Coders.{Codes, Keeps, SuitsPlace, frame_of, nodes_of};
ghost use Rattle.expr_sem.specs.Codings.{Coding, IsCoded, coded_in};
ghost use Rattle.expr_sem.specs.Kinds.{IsKindHere};
ghost use Rattle.m2_base.specs.Diagnostics.{code_of};
ghost use Rattle.expr_sem.specs.declared.fragments.Node.{Node};
ghost use Rattle.type_rules.specs.Scenes.{IsThere};
ghost use Rattle.type_rules.specs.Sites.{SuitsSite};

use crate::answers::passed_as;
use crate::chains::instr_behind;
use crate::coded::{Coded, Placed};
use crate::coder::Coder;
use crate::fitting::fitted_code;
use crate::fragments::Fragment;
use crate::refusals::refused;
use crate::standard_functions::{has_small_ordinal, high_code};
use crate::values::{as_value, characters, string_value};
use code_form::Instr;
use const_eval::{is_bad, is_broken, is_in_error};
use m2_base::{Ask, Diagnostic, Memory, Notes, Operand, Place, RowMeaning, Scopes, Site};
use type_rules::{CHARACTER, same, size_of, stand};

/// A parameter: its type, and whether it is a VAR parameter.
#[derive(Clone, Copy)]
pub struct Parameter {
    pub of: Place,
    pub by_ref: bool,
}

impl Parameter {
    /// Whether it is a VAR parameter, and an operand no variable.
    fn refuses(self, operand: Operand) -> bool
        ensures { result ≡ (self.by_ref && not (spec_variable operand)) }
    {
        self.by_ref && !matches!(operand, Operand::Variable(_))
    }
}

/// The length of a string less 1, pushed.
fn push_length(length: u32) -> Instr
    ensures { result ≡ Push (pos (length - 1)) }
{
    Instr::Push(length.saturating_sub(1) as i64)
}

/// Refuses an argument: it has no code.
fn refuse_argument(
    site: &Site,
    at: u32,
    refusal: Diagnostic,
    notes: &mut Notes,
) -> Result<Ask<Option<Fragment>>, Memory>
    ensures { (state : State) (nodes : List Node) → Coding state state notes.old notes.new nodes nodes site.now result
        IsArgument argument_in (λ c. spec_refuse c at (code_of refusal) None) }
{
    let _refused = analysed!(refused(site, at, refusal, notes));
    Ok(Ask::Known(None))
}

impl<S: Scopes> Coder<'_, '_, S> {
    /// An argument of a value parameter that is no open array; of a string the address of a copy.
    fn by_value(&mut self, of: Place, x: Placed) -> Result<Ask<Option<Fragment>>, Memory>
        requires suits { SuitsPlace S.state self.old }
        requires of { IsThere (frame_of S.state self.old) of }
        requires x { IsCoded (frame_of S.state self.old) (nodes_of self.old) x.coded }
        ensures keeps { Keeps self.old self.new }
        ensures codes { Codes S.state self.old self.new result IsArgument argument_in
            (λ c. spec_value c of x.at (coded_in (nodes_of self.old) x.coded)) }
    {
        let taken = analysed!(self.assigned_to(of, Diagnostic::NotAssignable, x));
        match taken.operand {
            Operand::InError => Ok(Ask::Known(None)),
            Operand::StringConstant(name, _) => {
                let size = asked!(size_of(self.scopes, self.site.around, of));
                let bytes = characters(self.site, name)?;
                passed_as(self.fragments.string_copy(size as u32, bytes))
            }
            _ => {
                let code = analysed!(fitted_code(
                    self.scopes,
                    self.site,
                    of,
                    taken,
                    self.fragments
                ));
                Ok(Ask::Known(Some(code)))
            }
        }
    }
}

/// An argument of a VAR parameter that is no open array.
fn by_address<S: Scopes>(
    scopes: &mut S,
    site: &Site,
    of: Place,
    x: Placed,
    notes: &mut Notes,
) -> Result<Ask<Option<Fragment>>, Memory>
    requires suits { SuitsSite (S.state scopes.old).frame site.now }
    requires of { IsThere (S.state scopes.old).frame of }
    requires x { IsOperand (S.state scopes.old).frame x.coded.operand }
    ensures { (nodes : List Node) → IsCoded (S.state scopes.old).frame nodes x.coded
        → Coding (S.state scopes.old) (S.state scopes.new) notes.old notes.new nodes nodes site.now result IsArgument
        argument_in (λ c. spec_address c of x.at (coded_in nodes x.coded)) }
{
    let Operand::Variable(variable) = x.coded.operand else {
        return Ok(Ask::Known(None));
    };
    match same(scopes, site.around, of, variable) {
        Ask::Known(true) => Ok(Ask::Known(Some(x.coded.code))),
        Ask::Known(false) => refuse_argument(site, x.at, Diagnostic::WrongArgument, notes),
        Ask::DontKnowYet(head) => Ok(Ask::DontKnowYet(head)),
    }
}

impl<S: Scopes> Coder<'_, '_, S> {
    /// An array whose elements are of a type, as the argument of an open array: its address, and the number of its
    /// elements less 1. `kind` is what its type's row says.
    fn alike(
        &mut self,
        want: Place,
        x: Placed,
        kind: RowMeaning,
        element: Place,
    ) -> Result<Ask<Option<Fragment>>, Memory>
        requires suits { SuitsPlace S.state self.old }
        requires want { IsThere (frame_of S.state self.old) want }
        requires x { IsCoded (frame_of S.state self.old) (nodes_of self.old) x.coded }
        requires kind { IsKindHere (frame_of S.state self.old) kind }
        requires element { IsThere (frame_of S.state self.old) element }
        ensures keeps { Keeps self.old self.new }
        ensures codes { Codes S.state self.old self.new result IsArgument argument_in
            (λ c. spec_alike c want x.at (coded_in (nodes_of self.old) x.coded) kind element) }
    {
        if asked!(is_broken(self.scopes, self.site.around, element)) {
            return Ok(Ask::Known(None));
        }
        if asked!(same(self.scopes, self.site.around, element, want)) {
            let high = analysed!(high_code(self.scopes, self.site, x.coded, kind, self.fragments));
            return passed_as(self.fragments.then(x.coded.code, high));
        }
        refuse_argument(self.site, x.at, Diagnostic::WrongArgument, self.notes)
    }

    /// A variable of a type as the argument of an open array.
    fn array_argument(
        &mut self,
        want: Place,
        x: Placed,
        of: Place,
    ) -> Result<Ask<Option<Fragment>>, Memory>
        requires suits { SuitsPlace S.state self.old }
        requires want { IsThere (frame_of S.state self.old) want }
        requires x { IsCoded (frame_of S.state self.old) (nodes_of self.old) x.coded }
        requires of { IsThere (frame_of S.state self.old) of }
        ensures keeps { Keeps self.old self.new }
        ensures codes { Codes S.state self.old self.new result IsArgument argument_in
            (λ c. spec_array_argument c want x.at (coded_in (nodes_of self.old) x.coded) (kind_of c.scene of)) }
    {
        let (place, kind) = asked!(stand(self.scopes, self.site.around, of));
        has_small_ordinal(place);
        match kind {
            RowMeaning::Array(index, element, _) => {
                if asked!(is_broken(self.scopes, self.site.around, index)) {
                    return Ok(Ask::Known(None));
                }
                self.alike(want, x, kind, element)
            }
            RowMeaning::OpenArray(element) => self.alike(want, x, kind, element),
            _ => refuse_argument(self.site, x.at, Diagnostic::WrongArgument, self.notes),
        }
    }

    /// An argument of an open array with elements of a type; of a string its address, and its length less 1.
    fn open_argument(&mut self, want: Place, x: Placed) -> Result<Ask<Option<Fragment>>, Memory>
        requires suits { SuitsPlace S.state self.old }
        requires want { IsThere (frame_of S.state self.old) want }
        requires x { IsCoded (frame_of S.state self.old) (nodes_of self.old) x.coded }
        ensures keeps { Keeps self.old self.new }
        ensures codes { Codes S.state self.old self.new result IsArgument argument_in
            (λ c. spec_open c want x.at (coded_in (nodes_of self.old) x.coded) x.coded.operand) }
    {
        match x.coded.operand {
            Operand::StringConstant(name, length) => {
                if asked!(same(self.scopes, self.site.around, want, CHARACTER)) {
                    let address = string_value(self.site, name, self.fragments)?;
                    let last = push_length(length);
                    return passed_as(instr_behind(address, last, self.fragments));
                }
                refuse_argument(self.site, x.at, Diagnostic::WrongArgument, self.notes)
            }
            Operand::Variable(of) => self.array_argument(want, x, of),
            _ => refuse_argument(self.site, x.at, Diagnostic::WrongArgument, self.notes),
        }
    }

    /// An argument by its parameter, where neither is in error. A VAR parameter takes a variable alone.
    fn pass_argument(&mut self, p: Parameter, x: Placed) -> Result<Ask<Option<Fragment>>, Memory>
        requires suits { SuitsPlace S.state self.old }
        requires p { IsThere (frame_of S.state self.old) p.of }
        requires x { IsCoded (frame_of S.state self.old) (nodes_of self.old) x.coded }
        ensures keeps { Keeps self.old self.new }
        ensures codes { Codes S.state self.old self.new result IsArgument argument_in
            (λ c. spec_checked c (parameter_view p) x.at (coded_in (nodes_of self.old) x.coded)) }
    {
        if is_bad(x.coded.operand) {
            return Ok(Ask::Known(None));
        }
        if asked!(is_in_error(self.scopes, self.site.around, p.of)) {
            return Ok(Ask::Known(None));
        }
        if p.refuses(x.coded.operand) {
            return refuse_argument(self.site, x.at, Diagnostic::NotAVariable, self.notes);
        }
        let (place, kind) = asked!(stand(self.scopes, self.site.around, p.of));
        has_small_ordinal(place);
        match kind {
            RowMeaning::OpenArray(element) => self.open_argument(element, x),
            _ => {
                if p.by_ref {
                    by_address(self.scopes, self.site, p.of, x, self.notes)
                } else {
                    self.by_value(p.of, x)
                }
            }
        }
    }

    /// The code of an argument beside its parameter, where neither is in error.
    pub(crate) fn argument(
        &mut self,
        p: Parameter,
        at: u32,
        x: Coded,
    ) -> Result<Ask<Option<Fragment>>, Memory>
        requires suits { SuitsPlace S.state self.old }
        requires p { IsThere (frame_of S.state self.old) p.of }
        requires x { IsCoded (frame_of S.state self.old) (nodes_of self.old) x }
        ensures keeps { Keeps self.old self.new }
        ensures codes { Codes S.state self.old self.new result IsArgument argument_in
            (λ c. spec_argument c (parameter_view p) at (coded_in (nodes_of self.old) x)) }
    {
        if p.by_ref {
            let variable = Placed { at, coded: x };
            return self.pass_argument(p, variable);
        }
        let coded = analysed!(as_value(self.site, at, x, self.notes));
        let value = Placed { at, coded };
        self.pass_argument(p, value)
    }
}
