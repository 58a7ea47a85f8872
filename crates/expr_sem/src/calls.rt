//! What a call calls, and its code.
ghost use Rattle.std.specs.Prelude.{◌≡◌, List, Some, map, option_map};
ghost use Rattle.m2_base.specs.Gives.{gives};
ghost use Rattle.m2_base.specs.States.{Frame, State};
ghost use Rattle.m2_base.specs.Statics.Contexts.{refuse as spec_refuse};
ghost use Rattle.m2_base.specs.declared.notes.Notes.{Notes as NotesOf};
ghost use Rattle.m2_base.specs.declared.operands.Operand.TheVariants as operands;
ghost use Rattle.m2_base.specs.declared.rows.Row.{Row as RowOf};
ghost use Rattle.const_eval.specs.Sites.{IsOperand};
ghost use Rattle.expr_sem.specs.Coders.{Codes, Keeps, SuitsPlace, frame_of, nodes_of};
ghost use Rattle.expr_sem.specs.ArgumentCodes.{IsArgument, argument_in, parameter_view};
ghost use Rattle.block_code.specs.Calls.{allowed as spec_allowed, allowed_by_type, call_code as spec_call_code};
ghost use Rattle.block_code.specs.Calls.{call_coded as spec_call_coded, call_instr as spec_call_instr};
ghost use Rattle.block_code.specs.Calls.{called as spec_called, called_by};
ghost use Rattle.block_code.specs.Calls.{no_call, of_target};
ghost use Rattle.expr_sem.specs.Callees.{IsCallee, IsCallable, called_in, target_called};
ghost use Rattle.expr_sem.specs.Callees.{variable_called};
ghost use Rattle.block_code.specs.Coded.{coded, in_error};
ghost use Rattle.expr_sem.specs.Codings.{Coding, IsCoded, coded_in};
ghost use Rattle.expr_sem.specs.Fragments.{IsIn, part};
ghost use Rattle.block_code.specs.ProcedureNames.{target_of_procedure as spec_target};
ghost use Rattle.m2_base.specs.Diagnostics.{code_of};
ghost use Rattle.expr_sem.specs.Signatures.{IsSignature};
ghost use Rattle.expr_sem.specs.Targets.{target_view};
ghost use Rattle.expr_sem.specs.declared.fragments.Node.{Node};
ghost use Rattle.type_rules.specs.Scenes.{IsThere, block_of};
ghost use Rattle.type_rules.specs.Sites.{SuitsSite};

use crate::answers::answered_as;
use crate::arguments::Parameter;
use crate::chains::{after_both, instr_behind};
use crate::coded::Coded;
use crate::coder::Coder;
use crate::fragments::{Fragment, Fragments};
use crate::levels::level_of;
use crate::procedure_names::{Target, import_of_target, is_foreign, target_of_procedure};
use crate::refusals::refused;
use crate::signatures::{
    Signature, Suiting, cells_of_all, result_cells, signature_by, signature_of,
};
use crate::standard_procedures::{is_function, takes_count};
use crate::steps::Step;
use crate::updates::NO_VALUE;
use crate::variables::links_out;
use code_form::Instr;
use const_eval::is_broken;
use m2_base::{
    Around, Ask, Builtin, Diagnostic, Memory, Notes, Operand, Place, Scopes, Site,
    standard_procedure,
};
use type_rules::form_of;

/// A procedure or a procedure value that is called: its parameters, the code before the arguments, the instruction,
/// the result, and how many operands the call takes beside the arguments.
#[derive(Drop)]
pub struct Callee {
    pub params: Vec<Parameter>,
    pub before: Fragment,
    pub instr: Instr,
    pub result: Option<Place>,
    pub more: u64,
}

/// What a call calls; a procedure that the module lacks, with its parameters; nothing, where a diagnostic or a part in
/// error came before.
#[derive(Drop)]
pub enum Callable {
    Standard(Builtin),
    Procedure(Callee),
    Lacking(Vec<Parameter>),
    Nothing,
}

/// How a call is written: whether it stands where a value is wanted, its designator's first token, and the number of
/// its arguments.
#[derive(Clone, Copy)]
struct Wording {
    is_wanted: bool,
    at: u32,
    count: usize,
}

/// What is refused as a call: it calls nothing.
fn refused_call(
    site: &Site,
    at: u32,
    refusal: Diagnostic,
    notes: &mut Notes,
) -> Result<Ask<Callable>, Memory>
    ensures { (state : State) (nodes : List Node) → Coding state state notes.old notes.new nodes nodes site.now result
        IsCallable called_in (λ c. spec_refuse c at (code_of refusal) no_call) }
{
    let _refused = analysed!(refused(site, at, refusal, notes));
    Ok(Ask::Known(Callable::Nothing))
}

/// What a call calls, unless it gives no value where one is wanted, or the other way round, or its arguments aren't as
/// many as are taken.
fn allowed(
    site: &Site,
    call: Wording,
    suiting: Suiting,
    what: Callable,
    notes: &mut Notes,
) -> Result<Ask<Callable>, Memory>
    ensures { (state : State) (nodes : List Node) → IsCallable state.frame nodes what
        → Coding state state notes.old notes.new nodes nodes site.now result IsCallable called_in
        (λ c. spec_allowed c call.at call.is_wanted suiting.gives_value suiting.is_count (called_in nodes what)) }
{
    let suits = if call.is_wanted {
        suiting.gives_value
    } else {
        !suiting.gives_value
    };
    if suits {
        if suiting.is_count {
            Ok(Ask::Known(what))
        } else {
            refused_call(site, call.at, Diagnostic::WrongCount, notes)
        }
    } else {
        refused_call(site, call.at, Diagnostic::NotAProcedure, notes)
    }
}

/// The instruction that calls a procedure: from the frame that encloses it, unless that is its module.
fn call_instr(around: &Around, target: Target) -> Instr
    ensures { (tables : List (List RowOf))
        → result ≡ spec_call_instr (record { block = block_of around.now; tables = tables }) (target_view target) }
{
    if is_foreign(around, target) {
        Instr::CallX(import_of_target(around, target), target.number)
    } else if level_of(around, target.of.scope) == 0 {
        Instr::Call(target.number, 0)
    } else {
        Instr::Call(target.number, links_out(around, target.of.scope))
    }
}

/// A call of a procedure, which the module may lack.
fn procedure_callable(around: &Around, signature: Signature, target: Option<Target>) -> Callable
    ensures told { (tables : List (List RowOf)) (nodes : List Node)
        → called_in nodes result ≡ target_called (record { block = block_of around.now; tables = tables })
        (map parameter_view signature.params.items) signature.result (option_map target_view target) }
    ensures there { (f : Frame) (nodes : List Node) → IsSignature f signature → IsCallable f nodes result }
{
    match target {
        Some(target) => Callable::Procedure(Callee {
            params: signature.params,
            before: Fragment::Nothing,
            instr: call_instr(around, target),
            result: signature.result,
            more: 0,
        }),
        None => Callable::Lacking(signature.params),
    }
}

impl<S: Scopes> Coder<'_, '_, S> {
    /// A call of a procedure of this name.
    fn called_procedure(
        &mut self,
        call: Wording,
        name: u32,
        named: Target,
    ) -> Result<Ask<Callable>, Memory>
        requires suits { SuitsPlace S.state self.old }
        requires named { IsThere (frame_of S.state self.old) named.of }
        ensures keeps { Keeps self.old self.new }
        ensures codes { Codes S.state self.old self.new result IsCallable called_in
            (λ c. allowed_by_type c call.at call.is_wanted call.count named.of
            (of_target c.scene named.of (spec_target c.scene name named.of named.number))) }
    {
        let signature = analysed!(signature_of(self.scopes, self.site, named.of));
        let target = analysed!(target_of_procedure(self.scopes, self.site, name, named));
        let suiting = signature.suiting(call.count);
        let what = procedure_callable(self.site.around, signature, target);
        allowed(self.site, call, suiting, what, self.notes)
    }
}

/// A call of a procedure variable, by the code of its address. Where the cells of its arguments are too many for an
/// instruction, memory is wanted.
fn variable_callable<S: Scopes>(
    scopes: &mut S,
    site: &Site,
    signature: Signature,
    code: Fragment,
    fragments: &mut Fragments,
) -> Result<Ask<Callable>, Memory>
    requires suits { SuitsSite (S.state scopes.old).frame site.now }
    requires signature { IsSignature (S.state scopes.old).frame signature }
    requires code { IsIn fragments.old.nodes.items code }
    ensures { (notes : NotesOf)
        → Coding (S.state scopes.old) (S.state scopes.new) notes notes fragments.old.nodes.items
        fragments.new.nodes.items site.now result IsCallable called_in (λ c. gives (variable_called c.scene
        (map parameter_view signature.params.items) signature.result (part fragments.old.nodes.items code))) }
{
    let cells = analysed!(cells_of_all(scopes, site.around, &signature.params));
    let Ok(cells) = u32::try_from(cells) else {
        return Err(Memory);
    };
    let before = instr_behind(code, Instr::Load, fragments)?;
    Ok(Ask::Known(Callable::Procedure(Callee {
        params: signature.params,
        before,
        instr: Instr::CallVar(cells, result_cells(signature.result)),
        result: signature.result,
        more: 1,
    })))
}

impl<S: Scopes> Coder<'_, '_, S> {
    /// A call of a variable of a type.
    fn called_variable(
        &mut self,
        call: Wording,
        of: Place,
        code: Fragment,
    ) -> Result<Ask<Callable>, Memory>
        requires suits { SuitsPlace S.state self.old }
        requires of { IsThere (frame_of S.state self.old) of }
        requires code { IsIn (nodes_of self.old) code }
        ensures keeps { Keeps self.old self.new }
        ensures codes { Codes S.state self.old self.new result IsCallable called_in (λ c.
            called_by c call.is_wanted call.at call.count (part (nodes_of self.old) code) (operands.Variable of)) }
    {
        match form_of(self.scopes, self.site.around, of) {
            Ask::Known(Some(form)) => {
                let signature = analysed!(signature_by(self.scopes, self.site, form));
                let suiting = signature.suiting(call.count);
                let what = analysed!(variable_callable(
                    self.scopes,
                    self.site,
                    signature,
                    code,
                    self.fragments
                ));
                allowed(self.site, call, suiting, what, self.notes)
            }
            Ask::Known(None) => refused_call(
                self.site,
                call.at,
                Diagnostic::NotAProcedure,
                self.notes,
            ),
            Ask::DontKnowYet(head) => Ok(Ask::DontKnowYet(head)),
        }
    }

    /// What a call with so many arguments calls. `is_wanted` tells whether it stands where a value is wanted; `at` is
    /// the designator's first token.
    pub(crate) fn called(
        &mut self,
        is_wanted: bool,
        at: u32,
        count: usize,
        x: Coded,
    ) -> Result<Ask<Callable>, Memory>
        requires suits { SuitsPlace S.state self.old }
        requires x { IsCoded (frame_of S.state self.old) (nodes_of self.old) x }
        ensures keeps { Keeps self.old self.new }
        ensures codes { Codes S.state self.old self.new result IsCallable called_in
            (λ c. spec_called c is_wanted at count (coded_in (nodes_of self.old) x)) }
    {
        let call = Wording {
            is_wanted,
            at,
            count,
        };
        match x.operand {
            Operand::StandardProcedure(name) => {
                let f = standard_procedure(name);
                let suiting = Suiting {
                    gives_value: is_function(f),
                    is_count: takes_count(f, call.count),
                };
                allowed(self.site, call, suiting, Callable::Standard(f), self.notes)
            }
            Operand::Procedure(name, of, number, _) => {
                self.called_procedure(call, name, Target { of, number })
            }
            Operand::Variable(of) => self.called_variable(call, of, x.code),
            Operand::ModuleName(_) => refused_call(
                self.site,
                call.at,
                Diagnostic::NotAVariable,
                self.notes,
            ),
            Operand::InError => Ok(Ask::Known(Callable::Nothing)),
            _ => refused_call(self.site, call.at, Diagnostic::NotAProcedure, self.notes),
        }
    }
}

impl<S: Scopes> Coder<'_, '_, S> {
    /// A call that stands for an operand: what comes before the arguments, these, and the instruction. Where it takes
    /// more than there are numbers, memory is wanted.
    fn call_as(
        &mut self,
        callee: &Callee,
        operand: Operand,
        args: Fragment,
    ) -> Result<Ask<Coded>, Memory>
        requires suits { SuitsPlace S.state self.old }
        requires callee { IsCallee (frame_of S.state self.old) (nodes_of self.old) callee.now }
        requires operand { IsOperand (frame_of S.state self.old) operand }
        requires args { IsIn (nodes_of self.old) args }
        ensures keeps { Keeps self.old self.new }
        ensures codes { Codes S.state self.old self.new result IsCoded coded_in (λ c. gives (coded operand
            (spec_call_code c.scene (map parameter_view callee.now.params.items) (part (nodes_of self.old)
            callee.now.before) callee.now.instr callee.now.result callee.now.more (part (nodes_of self.old) args)))) }
    {
        let cells = analysed!(cells_of_all(self.scopes, self.site.around, &callee.params));
        let Some(takes) = cells.checked_add(callee.more) else {
            return Err(Memory);
        };
        let call = self.fragments.step(Step {
            instr: callee.instr,
            takes,
            leaves: result_cells(callee.result) as u64,
        })?;
        answered_as(
            operand,
            after_both(self.fragments, callee.before, args, call),
        )
    }

    /// The call, once its arguments are there. Without one of them it is in error,
    /// and so it is where the result's type is.
    pub(crate) fn call_coded(
        &mut self,
        callee: &Callee,
        args: Option<Fragment>,
    ) -> Result<Ask<Coded>, Memory>
        requires suits { SuitsPlace S.state self.old }
        requires callee { IsCallee (frame_of S.state self.old) (nodes_of self.old) callee.now }
        requires args { IsArgument (frame_of S.state self.old) (nodes_of self.old) args }
        ensures keeps { Keeps self.old self.new }
        ensures codes { Codes S.state self.old self.new result IsCoded coded_in (λ c. gives (spec_call_coded c.scene
            (map parameter_view callee.now.params.items) (part (nodes_of self.old) callee.now.before) callee.now.instr
            callee.now.result callee.now.more (argument_in (nodes_of self.old) args))) }
    {
        match args {
            None => Ok(Ask::Known(Coded::in_error())),
            Some(args) => match callee.result {
                None => self.call_as(callee, NO_VALUE, args),
                Some(of) => match is_broken(self.scopes, self.site.around, of) {
                    Ask::Known(true) => Ok(Ask::Known(Coded::in_error())),
                    Ask::Known(false) => self.call_as(callee, Operand::Computed(of), args),
                    Ask::DontKnowYet(head) => Ok(Ask::DontKnowYet(head)),
                },
            },
        }
    }
}
