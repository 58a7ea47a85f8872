//! What expressions and designators stand for, with their code, by recursion on the trees.
ghost use Rattle.std.specs.Prelude.{map};
ghost use Rattle.m2_base.specs.Lists.{Each};
ghost use Rattle.m2_base.specs.Statics.ReadTrees.{AreReadExprs, AreReadLabels, AreReadNexts};
ghost use Rattle.m2_base.specs.Statics.ReadTrees.{IsReadDesignator, IsReadExpr, IsReadLabel};
ghost use Rattle.m2_base.specs.Statics.ReadTrees.{IsReadSelector};
ghost use Rattle.m2_base.specs.Trees.{exprs, labels, nexts};
ghost use Rattle.m2_base.specs.Views.{designator_view, expr_view, label_view, next_view, selector_view};
ghost use Rattle.expr_sem.specs.Coders.{Codes, Keeps, SeesWiths, SuitsPlace, frame_of, names_of, nodes_of};
ghost use Rattle.expr_sem.specs.ArgumentCodes.{IsArgument, argument_in, parameter_view};
ghost use Rattle.expr_sem.specs.Codings.{IsCoded, coded_in, with_types};
ghost use Rattle.expr_sem.specs.ExpressionParts.{IsPlace, called_with as spec_called_with, member as spec_member};
ghost use Rattle.expr_sem.specs.ExpressionParts.{next_passed as spec_next, place_in, range_to as spec_range};
ghost use Rattle.expr_sem.specs.ExpressionParts.{set_of as spec_set, type_before as spec_type};
ghost use Rattle.block_code.specs.Expressions.{call_alone as spec_alone, continued as spec_continued};
ghost use Rattle.block_code.specs.Expressions.{designated as spec_designated, element as spec_element};
ghost use Rattle.block_code.specs.Expressions.{elements as spec_elements, expression as spec_expression};
ghost use Rattle.block_code.specs.Expressions.{indexed as spec_indexed};
ghost use Rattle.block_code.specs.Expressions.{looked_at as spec_looked, passed as spec_passed};
ghost use Rattle.block_code.specs.Expressions.{selector as spec_selector};
ghost use Rattle.block_code.specs.Expressions.{standard as spec_standard, value as spec_value};
ghost use Rattle.expr_sem.specs.SetCodings.{AreElements, elements_in};
ghost use Rattle.type_rules.specs.Scenes.{IsThere};

use crate::argument_codes::{all_passed, behind_first, joined};
use crate::arguments::Parameter;
use crate::calls::Callable;
use crate::coded::{Coded, Placed};
use crate::coder::Coder;
use crate::fragments::Fragment;
use crate::set_elements::{Elements, set_coded, set_start};
use crate::standard_procedures::of_no_argument;
use crate::values::as_value;
use const_eval::{Argument, note_type, set_type_of, string_constant, taken};
use m2_base::{
    Ask, Builtin, Designator, Expr, ExprForm, Label, Memory, Next, Operand, Place, Scopes, Selector,
};
use type_rules::{BITSET, CHARACTER, WHOLE};

impl<S: Scopes> Coder<'_, '_, S> {
    /// What an expression stands for.
    #[cycle(expressions)]
    fn expression(&mut self, e: &Expr) -> Result<Ask<Coded>, Memory>
        requires suits { SuitsPlace S.state self.old }
        requires withs { SeesWiths S.state self.old }
        requires read { IsReadExpr (names_of self.old) (expr_view e.now) }
        ensures keeps { Keeps self.old self.new }
        ensures codes { Codes S.state self.old self.new result IsCoded coded_in
            (λ c. spec_expression c (with_types self.old.withs.now) (expr_view e.now)) }
    {
        match &e.form {
            ExprForm::Number(value) => {
                Ok(Ask::Known(Coded::bare(Operand::Constant(WHOLE, *value as i64))))
            }
            ExprForm::Char(value) => {
                Ok(Ask::Known(Coded::bare(Operand::Constant(CHARACTER, *value as i64))))
            }
            ExprForm::Str(name) => Ok(Ask::Known(Coded::bare(string_constant(self.site, *name)))),
            ExprForm::Set { of, items } => match of {
                None => self.set_of(BITSET, items),
                Some(name) => {
                    let place = analysed!(self.set_type(name));
                    self.set_of(place, items)
                }
            },
            ExprForm::Name(name) => self.designated(name),
            ExprForm::Call { to, args } => {
                let coded = analysed!(self.designated(to));
                let target = Placed {
                    at: to.first.at,
                    coded,
                };
                self.called_with(true, target, args)
            }
            ExprForm::One { op, op_at, of } => {
                let x = analysed!(self.value_of(of));
                self.one_coded(*op, *op_at, x)
            }
            ExprForm::Many { first, rest } => {
                let coded = analysed!(self.value_of(first));
                let left = Placed {
                    at: first.at,
                    coded,
                };
                self.continued(left, rest)
            }
        }
    }

    /// What an expression stands for where a value is wanted; a type alone, say, is refused at its first token. The
    /// code is the operand's own, of a variable its address: `value_code` goes on from there.
    /// It waits for names and types.
    #[cycle(expressions)]
    pub fn value_of(&mut self, e: &Expr) -> Result<Ask<Coded>, Memory>
        requires suits { SuitsPlace S.state self.old }
        requires withs { SeesWiths S.state self.old }
        requires read { IsReadExpr (names_of self.old) (expr_view e.now) }
        ensures keeps { Keeps self.old self.new }
        ensures codes { Codes S.state self.old self.new result IsCoded coded_in
            (λ c. spec_value c (with_types self.old.withs.now) (expr_view e.now)) }
    {
        let x = analysed!(self.expression(e));
        as_value(self.site, e.at, x, self.notes)
    }

    /// The operators that follow an operand, from the left.
    #[cycle(expressions)]
    fn continued(&mut self, left: Placed, rest: &[Next]) -> Result<Ask<Coded>, Memory>
        requires suits { SuitsPlace S.state self.old }
        requires withs { SeesWiths S.state self.old }
        requires left { IsCoded (frame_of S.state self.old) (nodes_of self.old) left.coded }
        requires read { AreReadNexts (names_of self.old) (nexts (map next_view rest.now)) }
        ensures keeps { Keeps self.old self.new }
        ensures codes { Codes S.state self.old self.new result IsCoded coded_in
            (λ c. spec_continued c (with_types self.old.withs.now) left.at (coded_in (nodes_of self.old) left.coded)
            (nexts (map next_view rest.now))) }
    {
        let mut x = left.coded;
        for next in rest.iter() {
            let coded = analysed!(self.value_of(&next.right));
            let right = Placed {
                at: next.right.at,
                coded,
            };
            let before = Placed {
                at: left.at,
                coded: x,
            };
            x = analysed!(self.two_coded(next.op, next.op_at, before, right));
        }
        Ok(Ask::Known(x))
    }

    /// The type before the brackets of a set.
    #[cycle(expressions)]
    fn set_type(&mut self, of: &Designator) -> Result<Ask<Place>, Memory>
        requires suits { SuitsPlace S.state self.old }
        requires withs { SeesWiths S.state self.old }
        requires read { IsReadDesignator (names_of self.old) (designator_view of.now) }
        ensures keeps { Keeps self.old self.new }
        ensures codes { Codes S.state self.old self.new result IsPlace place_in
            (λ c. spec_type c (with_types self.old.withs.now) (designator_view of.now)) }
    {
        let x = analysed!(self.designated(of));
        let given = set_type_of(self.scopes, self.site, of.first.at, x.operand);
        note_type(self.site.around.text, given, self.notes)
    }

    /// A set of this type with these elements.
    #[cycle(expressions)]
    fn set_of(&mut self, of: Place, items: &[Label]) -> Result<Ask<Coded>, Memory>
        requires suits { SuitsPlace S.state self.old }
        requires withs { SeesWiths S.state self.old }
        requires of { IsThere (frame_of S.state self.old) of }
        requires read { AreReadLabels (names_of self.old) (labels (map label_view items.now)) }
        ensures keeps { Keeps self.old self.new }
        ensures codes { Codes S.state self.old self.new result IsCoded coded_in
            (λ c. spec_set c (with_types self.old.withs.now) of (labels (map label_view items.now))) }
    {
        let (base, none) = match set_start(self.scopes, self.site, of) {
            Ask::Known(start) => start,
            Ask::DontKnowYet(head) => return Ok(Ask::DontKnowYet(head)),
        };
        let es = analysed!(self.elements(base, none, items));
        set_coded(of, es, self.fragments)
    }

    /// The elements of a set, after those that came before.
    #[cycle(expressions)]
    fn elements(
        &mut self,
        base: Place,
        es: Elements,
        items: &[Label],
    ) -> Result<Ask<Elements>, Memory>
        requires suits { SuitsPlace S.state self.old }
        requires withs { SeesWiths S.state self.old }
        requires base { IsThere (frame_of S.state self.old) base }
        requires es { AreElements (frame_of S.state self.old) (nodes_of self.old) es }
        requires read { AreReadLabels (names_of self.old) (labels (map label_view items.now)) }
        ensures keeps { Keeps self.old self.new }
        ensures codes { Codes S.state self.old self.new result AreElements elements_in
            (λ c. spec_elements c (with_types self.old.withs.now) base (elements_in (nodes_of self.old) es)
            (labels (map label_view items.now))) }
    {
        let mut made = es;
        for label in items.iter() {
            made = analysed!(self.element(base, made, label));
        }
        Ok(Ask::Known(made))
    }

    /// One further element, or those of a range.
    #[cycle(expressions)]
    fn element(&mut self, base: Place, es: Elements, label: &Label) -> Result<Ask<Elements>, Memory>
        requires suits { SuitsPlace S.state self.old }
        requires withs { SeesWiths S.state self.old }
        requires base { IsThere (frame_of S.state self.old) base }
        requires es { AreElements (frame_of S.state self.old) (nodes_of self.old) es }
        requires read { IsReadLabel (names_of self.old) (label_view label.now) }
        ensures keeps { Keeps self.old self.new }
        ensures codes { Codes S.state self.old self.new result AreElements elements_in (λ c. spec_element c
            (with_types self.old.withs.now) base (elements_in (nodes_of self.old) es) (label_view label.now)) }
    {
        let low = analysed!(self.member(base, &label.low));
        match &label.high {
            None => self.add_element(es, low),
            Some(high) => self.range_to(base, es, low, high),
        }
    }

    /// The elements from a low one to this.
    #[cycle(expressions)]
    fn range_to(
        &mut self,
        base: Place,
        es: Elements,
        low: Coded,
        high: &Expr,
    ) -> Result<Ask<Elements>, Memory>
        requires suits { SuitsPlace S.state self.old }
        requires withs { SeesWiths S.state self.old }
        requires base { IsThere (frame_of S.state self.old) base }
        requires es { AreElements (frame_of S.state self.old) (nodes_of self.old) es }
        requires low { IsCoded (frame_of S.state self.old) (nodes_of self.old) low }
        requires read { IsReadExpr (names_of self.old) (expr_view high.now) }
        ensures keeps { Keeps self.old self.new }
        ensures codes { Codes S.state self.old self.new result AreElements elements_in
            (λ c. spec_range c (with_types self.old.withs.now) base (elements_in (nodes_of self.old) es)
            (coded_in (nodes_of self.old) low) (expr_view high.now)) }
    {
        let high = analysed!(self.member(base, high));
        self.add_range(es, low, high)
    }

    /// An expression as it is taken into a set with this base, as an element or an end of a range: what const_eval's
    /// `taken` gives of its operand, with the operand's own code still.
    #[cycle(expressions)]
    fn member(&mut self, base: Place, e: &Expr) -> Result<Ask<Coded>, Memory>
        requires suits { SuitsPlace S.state self.old }
        requires withs { SeesWiths S.state self.old }
        requires base { IsThere (frame_of S.state self.old) base }
        requires read { IsReadExpr (names_of self.old) (expr_view e.now) }
        ensures keeps { Keeps self.old self.new }
        ensures codes { Codes S.state self.old self.new result IsCoded coded_in
            (λ c. spec_member c (with_types self.old.withs.now) base (expr_view e.now)) }
    {
        let x = analysed!(self.value_of(e));
        let element = Argument {
            at: e.at,
            operand: x.operand,
        };
        match analysed!(taken(self.scopes, self.site, base, element, self.notes)) {
            Operand::InError => Ok(Ask::Known(Coded::in_error())),
            operand => Ok(Ask::Known(x.taken(operand))),
        }
    }

    /// Arguments of what isn't called, for their own diagnostics.
    #[cycle(expressions)]
    fn looked_at(&mut self, args: &[Expr]) -> Result<Ask<Coded>, Memory>
        requires suits { SuitsPlace S.state self.old }
        requires withs { SeesWiths S.state self.old }
        requires read { AreReadExprs (names_of self.old) (exprs (map expr_view args.now)) }
        ensures keeps { Keeps self.old self.new }
        ensures codes { Codes S.state self.old self.new result IsCoded coded_in
            (λ c. spec_looked c (with_types self.old.withs.now) (exprs (map expr_view args.now))) }
    {
        for e in args.iter() {
            let _looked = analysed!(self.expression(e));
        }
        Ok(Ask::Known(Coded::in_error()))
    }

    /// A standard procedure with as many arguments as it takes.
    #[cycle(expressions)]
    fn standard(&mut self, f: Builtin, args: &[Expr]) -> Result<Ask<Coded>, Memory>
        requires suits { SuitsPlace S.state self.old }
        requires withs { SeesWiths S.state self.old }
        requires read { AreReadExprs (names_of self.old) (exprs (map expr_view args.now)) }
        ensures keeps { Keeps self.old self.new }
        ensures codes { Codes S.state self.old self.new result IsCoded coded_in
            (λ c. spec_standard c (with_types self.old.withs.now) f (exprs (map expr_view args.now))) }
    {
        match args {
            [] => of_no_argument(f, self.fragments),
            [e] => {
                let x = analysed!(self.expression(e));
                self.of_one_argument(f, e.at, x)
            }
            [e, other, ..] => {
                let x = analysed!(self.expression(e));
                let coded = analysed!(self.first_of_two(f, e.at, x));
                let first = Placed { at: e.at, coded };
                let coded = analysed!(self.expression(other));
                let second = Placed {
                    at: other.at,
                    coded,
                };
                self.of_two_arguments(f, first, second)
            }
        }
    }

    /// Arguments beside their parameters.
    #[cycle(expressions)]
    fn passed(
        &mut self,
        params: &[Parameter],
        args: &[Expr],
    ) -> Result<Ask<Option<Fragment>>, Memory>
        requires suits { SuitsPlace S.state self.old }
        requires withs { SeesWiths S.state self.old }
        requires params { Each (λ p. IsThere (frame_of S.state self.old) p.of) params.now }
        requires read { AreReadExprs (names_of self.old) (exprs (map expr_view args.now)) }
        ensures keeps { Keeps self.old self.new }
        ensures codes { Codes S.state self.old self.new result IsArgument argument_in (λ c. spec_passed c
            (with_types self.old.withs.now) (map parameter_view params.now) (exprs (map expr_view args.now))) }
    {
        let mut left = params;
        let mut code = Some(Fragment::Nothing);
        for e in args.iter() {
            code = analysed!(self.next_passed(left, code, e));
            left = behind_first(left);
        }
        Ok(Ask::Known(all_passed(left, code)))
    }

    /// The code of the arguments so far and of a further one, beside the first of these parameters.
    #[cycle(expressions)]
    fn next_passed(
        &mut self,
        params: &[Parameter],
        code: Option<Fragment>,
        e: &Expr,
    ) -> Result<Ask<Option<Fragment>>, Memory>
        requires suits { SuitsPlace S.state self.old }
        requires withs { SeesWiths S.state self.old }
        requires params { Each (λ p. IsThere (frame_of S.state self.old) p.of) params.now }
        requires code { IsArgument (frame_of S.state self.old) (nodes_of self.old) code }
        requires read { IsReadExpr (names_of self.old) (expr_view e.now) }
        ensures keeps { Keeps self.old self.new }
        ensures codes { Codes S.state self.old self.new result IsArgument argument_in
            (λ c. spec_next c (with_types self.old.withs.now) (map parameter_view params.now)
            (argument_in (nodes_of self.old) code) (expr_view e.now)) }
    {
        match params.first() {
            None => Ok(Ask::Known(None)),
            Some(p) => {
                let x = analysed!(self.expression(e));
                let more = analysed!(self.argument(*p, e.at, x));
                joined(code, more, self.fragments)
            }
        }
    }

    /// Something with these arguments; a procedure that the module lacks is in error. `is_wanted` tells whether the
    /// call stands where a value is wanted; `at` is the first token.
    #[cycle(expressions)]
    fn called_with(
        &mut self,
        is_wanted: bool,
        to: Placed,
        args: &[Expr],
    ) -> Result<Ask<Coded>, Memory>
        requires suits { SuitsPlace S.state self.old }
        requires withs { SeesWiths S.state self.old }
        requires to { IsCoded (frame_of S.state self.old) (nodes_of self.old) to.coded }
        requires read { AreReadExprs (names_of self.old) (exprs (map expr_view args.now)) }
        ensures keeps { Keeps self.old self.new }
        ensures codes { Codes S.state self.old self.new result IsCoded coded_in
            (λ c. spec_called_with c (with_types self.old.withs.now) is_wanted to.at
            (coded_in (nodes_of self.old) to.coded) (exprs (map expr_view args.now))) }
    {
        let count = args.len();
        let what = analysed!(self.called(is_wanted, to.at, count, to.coded));
        match &what {
            Callable::Standard(f) => self.standard(*f, args),
            Callable::Procedure(callee) => {
                let codes = analysed!(self.passed(&callee.params, args));
                self.call_coded(callee, codes)
            }
            Callable::Lacking(params) => {
                let _codes = analysed!(self.passed(params, args));
                Ok(Ask::Known(Coded::in_error()))
            }
            Callable::Nothing => self.looked_at(args),
        }
    }

    /// What a designator stands for within the open WITHs: its name, and then what each selector selects of that. The
    /// code of a variable leaves its address, all else has none. It waits for names and types.
    #[cycle(expressions)]
    pub fn designated(&mut self, of: &Designator) -> Result<Ask<Coded>, Memory>
        requires suits { SuitsPlace S.state self.old }
        requires withs { SeesWiths S.state self.old }
        requires read { IsReadDesignator (names_of self.old) (designator_view of.now) }
        ensures keeps { Keeps self.old self.new }
        ensures codes { Codes S.state self.old self.new result IsCoded coded_in
            (λ c. spec_designated c (with_types self.old.withs.now) (designator_view of.now)) }
    {
        let mut x = analysed!(self.name_coded(of.first));
        let rest: &[Selector] = &of.rest;
        for selector in rest.iter() {
            x = analysed!(self.select(of.first.at, x, selector));
        }
        Ok(Ask::Known(x))
    }

    /// What a selector selects.
    #[cycle(expressions)]
    fn select(&mut self, first: u32, x: Coded, selector: &Selector) -> Result<Ask<Coded>, Memory>
        requires suits { SuitsPlace S.state self.old }
        requires withs { SeesWiths S.state self.old }
        requires x { IsCoded (frame_of S.state self.old) (nodes_of self.old) x }
        requires read { IsReadSelector (names_of self.old) (selector_view selector.now) }
        ensures keeps { Keeps self.old self.new }
        ensures codes { Codes S.state self.old self.new result IsCoded coded_in (λ c. spec_selector c
            (with_types self.old.withs.now) first (coded_in (nodes_of self.old) x) (selector_view selector.now)) }
    {
        match selector {
            Selector::Field(ident, at) => self.select_field(first, *at, *ident, x),
            Selector::Index(es, at) => self.indexed(first, *at, x, es),
            Selector::Deref(at) => self.select_target(first, *at, x),
        }
    }

    /// The indices between one pair of brackets, that of the outermost array first.
    #[cycle(expressions)]
    fn indexed(&mut self, first: u32, at: u32, x: Coded, es: &[Expr]) -> Result<Ask<Coded>, Memory>
        requires suits { SuitsPlace S.state self.old }
        requires withs { SeesWiths S.state self.old }
        requires x { IsCoded (frame_of S.state self.old) (nodes_of self.old) x }
        requires read { AreReadExprs (names_of self.old) (exprs (map expr_view es.now)) }
        ensures keeps { Keeps self.old self.new }
        ensures codes { Codes S.state self.old self.new result IsCoded coded_in (λ c. spec_indexed c
            (with_types self.old.withs.now) first at (coded_in (nodes_of self.old) x) (exprs (map expr_view es.now))) }
    {
        let mut y = x;
        for e in es.iter() {
            let coded = analysed!(self.value_of(e));
            let index = Placed { at: e.at, coded };
            y = analysed!(self.select_element(first, at, index, y));
        }
        Ok(Ask::Known(y))
    }

    /// A call that stands as a statement: its code computes the arguments, calls, and leaves the stack as it was. What
    /// gives a value, or takes another number of arguments, is refused at its first token.
    /// It waits for names and types.
    pub fn call_alone(&mut self, to: &Designator, args: &[Expr]) -> Result<Ask<Coded>, Memory>
        requires suits { SuitsPlace S.state self.old }
        requires withs { SeesWiths S.state self.old }
        requires to { IsReadDesignator (names_of self.old) (designator_view to.now) }
        requires args { AreReadExprs (names_of self.old) (exprs (map expr_view args.now)) }
        ensures keeps { Keeps self.old self.new }
        ensures codes { Codes S.state self.old self.new result IsCoded coded_in (λ c.
            spec_alone c (with_types self.old.withs.now) (designator_view to.now) (exprs (map expr_view args.now))) }
    {
        let coded = analysed!(self.designated(to));
        let target = Placed {
            at: to.first.at,
            coded,
        };
        self.called_with(false, target, args)
    }
}
