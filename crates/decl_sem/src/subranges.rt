//! The rows of subranges.
ghost use Rattle.std.specs.Prelude.{◌≡◌, ◌∷◌, [], ℕ, None, Some, if◌then◌else◌, option_map};
ghost use Rattle.std.specs.Option.{IfSome};
ghost use Rattle.m2_base.specs.Gives.{gives};
ghost use Rattle.m2_base.specs.Rows.{subrange_kind};
ghost use Rattle.m2_base.specs.States.{Waits};
ghost use Rattle.m2_base.specs.Statics.Operands.{char_or_same};
ghost use Rattle.m2_base.specs.Statics.Shapes.{form_shapes, nameless};
ghost use Rattle.m2_base.specs.Statics.Subranges.{is_broken_base, named_base as spec_named, of_bounds as spec_of};
ghost use Rattle.m2_base.specs.Statics.Subranges.{of_ordinals, subrange_of as spec_subrange, subrange_row};
ghost use Rattle.m2_base.specs.Statics.TypeRows.{form_rows};
ghost use Rattle.m2_base.specs.Statics.Types.{stands_for};
ghost use Rattle.m2_base.specs.Statics.ReadTrees.{IsReadExpr, IsReadQualOption};
ghost use Rattle.m2_base.specs.Trees.{sub_type};
ghost use Rattle.m2_base.specs.Views.{expr_view};
ghost use Rattle.const_eval.specs.Analyses.{Analysed};
ghost use Rattle.const_eval.specs.Sites.{IsOperand};
ghost use Rattle.type_rules.specs.Asks.{Reads, WhereKnown, WhereWaiting};
ghost use Rattle.type_rules.specs.Scenes.{IsThere, WhereTold};
ghost use Rattle.type_rules.specs.Sites.{SuitsSite, context_of};
ghost use Rattle.decl_sem.specs.Bounds.{AreBounds, IsChoice, IsEnd, IsEndOf, IsVerdict, bounds_view, chosen, given_by};
ghost use Rattle.decl_sem.specs.Bounds.{kept};
ghost use Rattle.decl_sem.specs.Pieces.{Declares, IsBehind, IsMaking, known_of};

use crate::bounds::{Bounds, Choice, End, Verdict, are_within, choose, judge, note_verdict};
use crate::making::Made;
use crate::names::{small_place, type_of_qual};
use crate::putting::plain_row;
use const_eval::{char_of_string, constant, constant_value, is_ordinal};
use m2_base::{Ask, Expr, Memory, Notes, Operand, Place, Qual, RowMeaning, Scopes, Site};
use type_rules::{BROKEN, base_of, operand_type, range_of, stand};

/// What the named base stands for, if one is named.
#[tactic(auto, using(type_rules::proofs::Reading::reading))]
fn base_in<S: Scopes>(scopes: &mut S, site: &Site, base: Option<Place>) -> Ask<Option<Place>>
    requires suits { SuitsSite (S.state scopes.old).frame site.now }
    requires base { IfSome base (λ of. IsThere (S.state scopes.old).frame of) }
    ensures reads { Reads (S.state scopes.old) (S.state scopes.new) }
    ensures waits { WhereWaiting result (λ head. Waits (S.state scopes.old) (S.state scopes.new) head) }
    ensures told { WhereTold (S.state scopes.old).frame (λ made.
        WhereKnown result (λ named. let c = context_of (S.state scopes.old).frame made site.now in
        named ≡ option_map (stands_for c.scene) base)) }
    ensures there { WhereKnown result (λ named. IfSome named (λ of. IsThere (S.state scopes.old).frame of)) }
{
    match base {
        Some(of) => {
            let stood = known!(stand(scopes, site.around, of));
            Ask::Known(Some(stood.0))
        }
        None => Ask::Known(None),
    }
}

/// What an operand is as a bound.
#[tactic(auto, using(type_rules::proofs::Reading::reading, const_eval::proofs::TypesThere::there))]
fn end_of<S: Scopes>(scopes: &mut S, site: &Site, x: Operand) -> Ask<End>
    requires suits { SuitsSite (S.state scopes.old).frame site.now }
    requires x { IsOperand (S.state scopes.old).frame x }
    ensures reads { Reads (S.state scopes.old) (S.state scopes.new) }
    ensures waits { WhereWaiting result (λ head. Waits (S.state scopes.old) (S.state scopes.new) head) }
    ensures told { WhereTold (S.state scopes.old).frame (λ made.
        WhereKnown result (λ end. let c = context_of (S.state scopes.old).frame made site.now in IsEndOf c x end)) }
    ensures there { WhereKnown result (λ end. IsEnd (S.state scopes.old).frame end) }
{
    let ordinal = known!(is_ordinal(scopes, site, x));
    let base = known!(base_of(scopes, site.around, operand_type(&x)));
    let value = constant_value(x);
    Ask::Known(End {
        ordinal,
        base,
        value,
    })
}

/// What two operands are as bounds; a string of one character is a CHAR.
#[tactic(auto, using(type_rules::proofs::Reading::reading, const_eval::proofs::TypesThere::there))]
fn ends_of<S: Scopes>(scopes: &mut S, site: &Site, low: Operand, high: Operand) -> Ask<(End, End)>
    requires suits { SuitsSite (S.state scopes.old).frame site.now }
    requires low { IsOperand (S.state scopes.old).frame low }
    requires high { IsOperand (S.state scopes.old).frame high }
    ensures reads { Reads (S.state scopes.old) (S.state scopes.new) }
    ensures waits { WhereWaiting result (λ head. Waits (S.state scopes.old) (S.state scopes.new) head) }
    ensures low { WhereTold (S.state scopes.old).frame (λ made.
        WhereKnown result (λ ends. let c = context_of (S.state scopes.old).frame made site.now in
        IsEndOf c (char_or_same c.source low) ends.0)) }
    ensures high { WhereTold (S.state scopes.old).frame (λ made.
        WhereKnown result (λ ends. let c = context_of (S.state scopes.old).frame made site.now in
        IsEndOf c (char_or_same c.source high) ends.1)) }
    ensures there { WhereKnown result
        (λ ends. IsEnd (S.state scopes.old).frame ends.0 × IsEnd (S.state scopes.old).frame ends.1) }
{
    let first = known!(end_of(scopes, site, char_of_string(site, low)));
    let last = known!(end_of(scopes, site, char_of_string(site, high)));
    Ask::Known((first, last))
}

/// The bounds that two operands choose.
#[tactic(auto, using(type_rules::proofs::Reading::reading, const_eval::proofs::TypesThere::there))]
fn choice_of<S: Scopes>(
    scopes: &mut S,
    site: &Site,
    base: Option<Place>,
    low: Operand,
    high: Operand,
) -> Ask<Choice>
    requires suits { SuitsSite (S.state scopes.old).frame site.now }
    requires base { IfSome base (λ of. IsThere (S.state scopes.old).frame of) }
    requires low { IsOperand (S.state scopes.old).frame low }
    requires high { IsOperand (S.state scopes.old).frame high }
    ensures reads { Reads (S.state scopes.old) (S.state scopes.new) }
    ensures waits { WhereWaiting result (λ head. Waits (S.state scopes.old) (S.state scopes.new) head) }
    ensures told { WhereTold (S.state scopes.old).frame (λ made.
        WhereKnown result
        (λ choice. (low_at high_at : ℕ) → let c = context_of (S.state scopes.old).frame made site.now in
        chosen c low_at high_at choice ≡ (if is_broken_base c base then gives None
        else of_ordinals c base low_at high_at (char_or_same c.source low) (char_or_same c.source high)))) }
    ensures there { WhereKnown result (λ choice. IsChoice (S.state scopes.old).frame choice) }
{
    let named = known!(base_in(scopes, site, base));
    let ends = known!(ends_of(scopes, site, low, high));
    Ask::Known(choose(named, ends.0, ends.1))
}

/// What chosen bounds are in the range of their base.
#[tactic(auto, using(type_rules::proofs::Reading::reading))]
fn verdict_on<S: Scopes>(scopes: &mut S, site: &Site, choice: Choice) -> Ask<Verdict>
    requires suits { SuitsSite (S.state scopes.old).frame site.now }
    requires choice { IsChoice (S.state scopes.old).frame choice }
    ensures reads { Reads (S.state scopes.old) (S.state scopes.new) }
    ensures waits { WhereWaiting result (λ head. Waits (S.state scopes.old) (S.state scopes.new) head) }
    ensures told { WhereTold (S.state scopes.old).frame (λ made.
        WhereKnown result
        (λ verdict. (low_at high_at : ℕ) → let c = context_of (S.state scopes.old).frame made site.now in
        given_by c low_at high_at verdict ≡ kept (chosen c low_at high_at choice))) }
    ensures there { WhereKnown result (λ verdict. IsVerdict (S.state scopes.old).frame verdict) }
{
    match choice {
        Choice::Chosen(bounds) => {
            let ends = known!(range_of(scopes, site.around, bounds.base));
            let within = are_within(bounds, ends);
            Ask::Known(judge(bounds, within))
        }
        Choice::Wrong => Ask::Known(Verdict::Wrong),
        Choice::Nothing => Ask::Known(Verdict::Nothing),
    }
}

/// What two operands are as bounds of a subrange with this base.
#[tactic(auto, using(type_rules::proofs::Reading::reading))]
fn verdict_of<S: Scopes>(
    scopes: &mut S,
    site: &Site,
    base: Option<Place>,
    low: Operand,
    high: Operand,
) -> Ask<Verdict>
    requires suits { SuitsSite (S.state scopes.old).frame site.now }
    requires base { IfSome base (λ of. IsThere (S.state scopes.old).frame of) }
    requires low { IsOperand (S.state scopes.old).frame low }
    requires high { IsOperand (S.state scopes.old).frame high }
    ensures reads { Reads (S.state scopes.old) (S.state scopes.new) }
    ensures waits { WhereWaiting result (λ head. Waits (S.state scopes.old) (S.state scopes.new) head) }
    ensures told { WhereTold (S.state scopes.old).frame (λ made.
        WhereKnown result
        (λ verdict. (low_at high_at : ℕ) → let c = context_of (S.state scopes.old).frame made site.now in
        given_by c low_at high_at verdict ≡ kept (spec_of c base low_at high_at (Some low) (Some high)))) }
    ensures there { WhereKnown result (λ verdict. IsVerdict (S.state scopes.old).frame verdict) }
{
    let choice = known!(choice_of(scopes, site, base, low, high));
    verdict_on(scopes, site, choice)
}

/// The bounds of two constants, where they are right; what is wrong is noted.
fn of_constants<S: Scopes>(
    scopes: &mut S,
    site: &Site,
    base: Option<Place>,
    low_at: u32,
    low: Operand,
    high_at: u32,
    high: Operand,
    notes: &mut Notes,
) -> Result<Ask<Option<Bounds>>, Memory>
    requires suits { SuitsSite (S.state scopes.old).frame site.now }
    requires base { IfSome base (λ of. IsThere (S.state scopes.old).frame of) }
    requires low { IsOperand (S.state scopes.old).frame low }
    requires high { IsOperand (S.state scopes.old).frame high }
    ensures { Analysed (S.state scopes.old) (S.state scopes.new) notes.old notes.new site.now result
        (λ f given. IfSome given (λ bounds. AreBounds f bounds))
        (λ c. kept (spec_of c base low_at high_at (Some low) (Some high))) }
{
    let verdict = asked!(verdict_of(scopes, site, base, low, high));
    let bounds = put!(note_verdict(site, low_at, high_at, verdict, notes));
    Ok(Ask::Known(bounds))
}

/// The bounds of a subrange, by its base and the constants of its bounds.
fn of_bounds<S: Scopes>(
    scopes: &mut S,
    site: &Site,
    base: Option<Place>,
    low_at: u32,
    low: Option<Operand>,
    high_at: u32,
    high: Option<Operand>,
    notes: &mut Notes,
) -> Result<Ask<Option<Bounds>>, Memory>
    requires suits { SuitsSite (S.state scopes.old).frame site.now }
    requires base { IfSome base (λ of. IsThere (S.state scopes.old).frame of) }
    requires low { IfSome low (λ x. IsOperand (S.state scopes.old).frame x) }
    requires high { IfSome high (λ x. IsOperand (S.state scopes.old).frame x) }
    ensures { Analysed (S.state scopes.old) (S.state scopes.new) notes.old notes.new site.now result
        (λ f given. IfSome given (λ bounds. AreBounds f bounds)) (λ c. kept (spec_of c base low_at high_at low high)) }
{
    match (low, high) {
        (Some(low), Some(high)) => {
            of_constants(scopes, site, base, low_at, low, high_at, high, notes)
        }
        _ => Ok(Ask::Known(None)),
    }
}

/// The base that is named, if one is.
fn named_base<S: Scopes>(
    scopes: &mut S,
    site: &Site,
    base: Option<Qual>,
    notes: &mut Notes,
) -> Result<Ask<Option<Place>>, Memory>
    requires suits { SuitsSite (S.state scopes.old).frame site.now }
    requires read { IsReadQualOption site.now.texts.now.names base }
    ensures { Analysed (S.state scopes.old) (S.state scopes.new) notes.old notes.new site.now result
        (λ f named. IfSome named (λ of. IsThere f of)) (λ c. spec_named c base) }
{
    let Some(qual) = base else {
        return Ok(Ask::Known(None));
    };
    let of = analysed!(type_of_qual(scopes, site, qual, notes));
    Ok(Ask::Known(Some(of)))
}

/// The bounds of a subrange.
fn bounds_in<S: Scopes>(
    scopes: &mut S,
    site: &Site,
    base: Option<Qual>,
    low: &Expr,
    high: &Expr,
    notes: &mut Notes,
) -> Result<Ask<Option<Bounds>>, Memory>
    requires suits { SuitsSite (S.state scopes.old).frame site.now }
    requires base { IsReadQualOption site.now.texts.now.names base }
    requires low { IsReadExpr site.now.texts.now.names (expr_view low.now) }
    requires high { IsReadExpr site.now.texts.now.names (expr_view high.now) }
    ensures { Analysed (S.state scopes.old) (S.state scopes.new) notes.old notes.new site.now result
        (λ f given. IfSome given (λ bounds. AreBounds f bounds))
        (λ c. kept (spec_subrange c base (expr_view low.now) (expr_view high.now))) }
{
    let named = analysed!(named_base(scopes, site, base, notes));
    let first = analysed!(constant(scopes, site, low, notes));
    let last = analysed!(constant(scopes, site, high, notes));
    of_bounds(scopes, site, named, low.at, first, high.at, last, notes)
}

/// The row of right bounds.
fn put_bounds<S: Scopes>(
    scopes: &S,
    site: &Site,
    at: u32,
    bounds: Bounds,
    made: &mut Made,
) -> Result<Place, Memory>
    requires making { IsMaking (S.state scopes.now).frame site.now made.old (nameless subrange_kind at ∷ []) }
    requires bounds { AreBounds (S.state scopes.now).frame bounds }
    ensures { Declares (S.state scopes.now) (S.state scopes.now) made.old made.new site.now (known_of result)
        (nameless subrange_kind at ∷ []) IsBehind (λ c. subrange_row c at (Some (bounds_view bounds))) }
{
    let base = small_place(bounds.base);
    let meaning = RowMeaning::Subrange(base, bounds.low, bounds.high);
    plain_row(scopes, site, made, at, meaning)
}

/// The row of a wrong subrange, which is in error.
fn put_wrong<S: Scopes>(scopes: &S, site: &Site, at: u32, made: &mut Made) -> Result<Place, Memory>
    requires making { IsMaking (S.state scopes.now).frame site.now made.old (nameless subrange_kind at ∷ []) }
    ensures { Declares (S.state scopes.now) (S.state scopes.now) made.old made.new site.now (known_of result)
        (nameless subrange_kind at ∷ []) IsBehind (λ c. subrange_row c at None) }
{
    let meaning = RowMeaning::Subrange(BROKEN, 0, 0);
    put!(plain_row(scopes, site, made, at, meaning));
    Ok(BROKEN)
}

/// The row of a subrange, by its bounds; a wrong one has a row all the same.
fn put_subrange<S: Scopes>(
    scopes: &S,
    site: &Site,
    at: u32,
    bounds: Option<Bounds>,
    made: &mut Made,
) -> Result<Place, Memory>
    requires making { IsMaking (S.state scopes.now).frame site.now made.old (nameless subrange_kind at ∷ []) }
    requires bounds { IfSome bounds (λ b. AreBounds (S.state scopes.now).frame b) }
    ensures { Declares (S.state scopes.now) (S.state scopes.now) made.old made.new site.now (known_of result)
        (nameless subrange_kind at ∷ []) IsBehind (λ c. subrange_row c at (option_map bounds_view bounds)) }
{
    match bounds {
        Some(bounds) => put_bounds(scopes, site, at, bounds, made),
        None => put_wrong(scopes, site, at, made),
    }
}

/// Makes the row of a subrange.
pub(crate) fn subrange_in<S: Scopes>(
    scopes: &mut S,
    site: &Site,
    at: u32,
    base: Option<Qual>,
    low: &Expr,
    high: &Expr,
    made: &mut Made,
) -> Result<Ask<Place>, Memory>
    requires making { IsMaking (S.state scopes.old).frame site.now made.old (nameless subrange_kind at ∷ []) }
    requires base { IsReadQualOption site.now.texts.now.names base }
    requires low { IsReadExpr site.now.texts.now.names (expr_view low.now) }
    requires high { IsReadExpr site.now.texts.now.names (expr_view high.now) }
    ensures { Declares (S.state scopes.old) (S.state scopes.new) made.old made.new site.now result
        (form_shapes at (sub_type base (expr_view low.now) (expr_view high.now))) IsBehind
        (λ c. form_rows c at (sub_type base (expr_view low.now) (expr_view high.now))) }
{
    let bounds = analysed!(bounds_in(scopes, site, base, low, high, &mut made.notes));
    let of = put!(put_subrange(scopes, site, at, bounds, made));
    Ok(Ask::Known(of))
}
