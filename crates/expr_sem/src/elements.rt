//! Elements of arrays, and what pointers point to.
ghost use Rattle.std.specs.Prelude.{◌≡◌, ◌∷◌, [], ◌<◌, ◌||◌, IfOk, if◌then◌else◌, option_map};
ghost use Rattle.std.specs.Option.{IfSome};
ghost use Rattle.m2_base.specs.Gives.{and_then, gives};
ghost use Rattle.m2_base.specs.Rows.{IsValue};
ghost use Rattle.m2_base.specs.Standard.{cardinal};
ghost use Rattle.m2_base.specs.States.{Waits};
ghost use Rattle.m2_base.specs.Statics.Diagnostics.{not_assignable};
ghost use Rattle.m2_base.specs.Statics.Operands.{is_bad as spec_bad};
ghost use Rattle.m2_base.specs.Statics.Ranges.{count_of, range};
ghost use Rattle.m2_base.specs.Statics.TypeParts.{named_target};
ghost use Rattle.m2_base.specs.Statics.Types.{is_broken as spec_broken, kind_of, meaning_at, size_of as spec_size};
ghost use Rattle.m2_base.specs.Statics.Types.{range_of as spec_range};
ghost use Rattle.m2_base.specs.declared.notes.Notes.{Notes as NotesOf};
ghost use Rattle.m2_base.specs.declared.operands.Operand.TheVariants.{Variable};
ghost use Rattle.code_form.specs.declared.instr.Instr.TheVariants.{IndexOpen, Load, Nil};
ghost use Rattle.type_rules.specs.Asks.{Reads, WhereKnown, WhereWaiting};
ghost use Rattle.type_rules.specs.Scenes.{IsThere, Suits, WhereTold, scene_of};
ghost use Rattle.type_rules.specs.Sites.{SuitsSite};
ghost use Rattle.expr_sem.specs.Coders.{Codes, Keeps, SuitsPlace, frame_of, nodes_of};
ghost use Rattle.block_code.specs.Coded.{coded, value_code as spec_value};
ghost use Rattle.expr_sem.specs.Codings.{Coding, IsCoded, coded_in, high_in};
ghost use Rattle.block_code.specs.Elements.{element_of_array as spec_of_array, element_of_open as spec_of_open};
ghost use Rattle.block_code.specs.Elements.{index_instr as spec_index, of_array as spec_array};
ghost use Rattle.block_code.specs.Elements.{of_pointer as spec_pointer, select_element as spec_element};
ghost use Rattle.block_code.specs.Elements.{select_target as spec_target};
ghost use Rattle.expr_sem.specs.Fragments.{IsIn, IsMade, part};
ghost use Rattle.block_code.specs.Parts.{plain, ◌⨟◌};
ghost use Rattle.expr_sem.specs.Selections.{pointed as spec_pointed};
ghost use Rattle.block_code.specs.Values.{assigned_to as spec_assigned};

use crate::answers::answered_as;
use crate::chains::{applied, pair};
use crate::coded::{Coded, Placed};
use crate::coder::Coder;
use crate::fragments::{Fragment, Fragments};
use crate::refusals::refused;
use crate::values::value_code;
use code_form::Instr;
use const_eval::{is_bad, is_broken};
use m2_base::{
    Around, Ask, Diagnostic, Memory, Notes, Operand, Place, RowMeaning, Scopes, Site, read_row,
};
use type_rules::{CARDINAL, range_of, row_at, size_of, stand};

/// The type that a pointer's row leads to: where that names a row of a type's name, the type of this.
#[tactic(auto, using(type_rules::proofs::Reading::reading))]
pub fn target_named<S: Scopes>(scopes: &mut S, around: &Around, to: Place) -> Ask<Place>
    requires suits { Suits (S.state scopes.old).frame around.now }
    requires to { IsThere (S.state scopes.old).frame to }
    ensures reads { Reads (S.state scopes.old) (S.state scopes.new) }
    ensures waits { WhereWaiting result (λ head. Waits (S.state scopes.old) (S.state scopes.new) head) }
    ensures told { WhereTold (S.state scopes.old).frame (λ made.
        WhereKnown result
        (λ target. target ≡ named_target to (meaning_at (scene_of (S.state scopes.old).frame made around.now) to))) }
    ensures there { WhereKnown result (λ target. IsThere (S.state scopes.old).frame target) }
{
    let row = known!(row_at(scopes, around, to));
    match read_row(&row) {
        RowMeaning::TypeName(of) => Ask::Known(of),
        _ => Ask::Known(to),
    }
}

/// The address that a pointer has, by the code of the pointer's own address: it must not be NIL.
fn target_code(code: Fragment, fragments: &mut Fragments) -> Result<Fragment, Memory>
    requires there { IsIn fragments.old.nodes.items code }
    ensures { IsMade fragments.old.nodes.items fragments.new.nodes.items result
        (part fragments.old.nodes.items code ⨟ plain (Load ∷ Nil ∷ [])) }
{
    let loaded = pair(Instr::Load, Instr::Nil, fragments)?;
    fragments.then(code, loaded)
}

/// What a pointer points to whose row leads to this place, unless its type is in error.
fn pointed<S: Scopes>(
    scopes: &mut S,
    site: &Site,
    to: Place,
    code: Fragment,
    fragments: &mut Fragments,
) -> Result<Ask<Coded>, Memory>
    requires suits { SuitsSite (S.state scopes.old).frame site.now }
    requires to { IsThere (S.state scopes.old).frame to }
    requires code { IsIn fragments.old.nodes.items code }
    ensures { (notes : NotesOf) → Coding (S.state scopes.old) (S.state scopes.new) notes notes
        fragments.old.nodes.items fragments.new.nodes.items site.now result IsCoded coded_in
        (λ c. spec_pointed c.scene (part fragments.old.nodes.items code) (named_target to (meaning_at c.scene to))) }
{
    let of = asked!(target_named(scopes, site.around, to));
    if asked!(is_broken(scopes, site.around, of)) {
        return Ok(Ask::Known(Coded::in_error()));
    }
    answered_as(Operand::Variable(of), target_code(code, fragments))
}

impl<S: Scopes> Coder<'_, '_, S> {
    /// What a pointer points to. `first` is the designator's first token, `at` the arrow. A pointer may lead to a type
    /// that is declared later: only statements ask for what it points to, and elsewhere the error is that memory is
    /// wanted, which comes about in no module.
    pub(crate) fn select_target(
        &mut self,
        first: u32,
        at: u32,
        x: Coded,
    ) -> Result<Ask<Coded>, Memory>
        requires suits { SuitsPlace S.state self.old }
        requires x { IsCoded (frame_of S.state self.old) (nodes_of self.old) x }
        ensures keeps { Keeps self.old self.new }
        ensures codes { Codes S.state self.old self.new result IsCoded coded_in
            (λ c. spec_target c first at (coded_in (nodes_of self.old) x)) }
    {
        match x.operand {
            Operand::Variable(of) => {
                if self.site.item.is_some() {
                    return Err(Memory);
                }
                let (_, meaning) = asked!(stand(self.scopes, self.site.around, of));
                let RowMeaning::Pointer(to) = meaning else {
                    return refused(self.site, at, Diagnostic::NotAPointer, self.notes);
                };
                pointed(self.scopes, self.site, to, x.code, self.fragments)
            }
            Operand::InError => Ok(Ask::Known(Coded::in_error())),
            Operand::NotConstant => Ok(Ask::Known(Coded::in_error())),
            _ => refused(self.site, first, Diagnostic::NotAVariable, self.notes),
        }
    }
}

/// How many numbers there are from the first of these to the second; none where the number has no 32 bits.
fn count_between(low: i64, high: i64) -> Option<u32>
    requires low { IsValue low }
    requires high { IsValue high }
    ensures { IfSome result (λ count. count ≡ count_of (range low high)) }
{
    if high < low {
        return Some(0);
    }
    u32::try_from(high - low + 1).ok()
}

/// The instruction that finds an element of this size by an index of a type with these ends. A type with more than 32
/// bits of values comes about in no module: there the error is that memory is wanted.
fn index_instr(ends: Option<(i64, i64)>, size: u32) -> Result<Instr, Memory>
    requires { IfSome ends (λ ends. IsValue ends.0 × IsValue ends.1) }
    ensures { IfOk result (λ instr. instr ≡ spec_index (option_map (λ ends. range ends.0 ends.1) ends) size) }
{
    match ends {
        None => Ok(Instr::Index(0, 0, size)),
        Some(ends) => match count_between(ends.0, ends.1) {
            Some(count) => Ok(Instr::Index(ends.0, count, size)),
            None => Err(Memory),
        },
    }
}

/// Whether an index or the type of the elements is in error.
#[tactic(auto, using(type_rules::proofs::Reading::reading))]
fn is_spoilt<S: Scopes>(scopes: &mut S, around: &Around, index: Operand, of: Place) -> Ask<bool>
    requires suits { Suits (S.state scopes.old).frame around.now }
    requires of { IsThere (S.state scopes.old).frame of }
    ensures reads { Reads (S.state scopes.old) (S.state scopes.new) }
    ensures waits { WhereWaiting result (λ head. Waits (S.state scopes.old) (S.state scopes.new) head) }
    ensures told { WhereTold (S.state scopes.old).frame (λ made.
        WhereKnown result
        (λ holds. holds ≡ (spec_bad index || spec_broken (scene_of (S.state scopes.old).frame made around.now) of))) }
{
    if is_bad(index) {
        return Ask::Known(true);
    }
    is_broken(scopes, around, of)
}

/// The ends of an index type, and the size of the elements.
#[tactic(auto, using(type_rules::proofs::Reading::reading))]
fn extent<S: Scopes>(
    scopes: &mut S,
    around: &Around,
    index: Place,
    of: Place,
) -> Ask<(Option<(i64, i64)>, u32)>
    requires suits { Suits (S.state scopes.old).frame around.now }
    requires index { IsThere (S.state scopes.old).frame index }
    requires of { IsThere (S.state scopes.old).frame of }
    ensures reads { Reads (S.state scopes.old) (S.state scopes.new) }
    ensures waits { WhereWaiting result (λ head. Waits (S.state scopes.old) (S.state scopes.new) head) }
    ensures ends { WhereTold (S.state scopes.old).frame (λ made.
        WhereKnown result (λ given. option_map (λ ends. range ends.0 ends.1) given.0
        ≡ spec_range (scene_of (S.state scopes.old).frame made around.now) index)) }
    ensures size { WhereTold (S.state scopes.old).frame (λ made.
        WhereKnown result (λ given. given.1 ≡ spec_size (scene_of (S.state scopes.old).frame made around.now) of)) }
    ensures values { WhereKnown result (λ given. IfSome given.0 (λ ends. IsValue ends.0 × IsValue ends.1)) }
{
    let ends = known!(range_of(scopes, around, index));
    let size = known!(cells_of(scopes, around, of));
    Ask::Known((ends, size))
}

impl<S: Scopes> Coder<'_, '_, S> {
    /// The element of an array, by its index, unless one of them is in error.
    fn element_of_array(
        &mut self,
        indices: Place,
        of: Place,
        index: Coded,
        x: Coded,
    ) -> Result<Ask<Coded>, Memory>
        requires suits { SuitsPlace S.state self.old }
        requires indices { IsThere (frame_of S.state self.old) indices }
        requires of { IsThere (frame_of S.state self.old) of }
        requires index { IsCoded (frame_of S.state self.old) (nodes_of self.old) index }
        requires x { IsCoded (frame_of S.state self.old) (nodes_of self.old) x }
        ensures keeps { Keeps self.old self.new }
        ensures codes { Codes S.state self.old self.new result IsCoded coded_in
            (λ c. spec_of_array c (coded_in (nodes_of self.old) x) indices of (coded_in (nodes_of self.old) index)) }
    {
        if asked!(is_spoilt(self.scopes, self.site.around, index.operand, of)) {
            return Ok(Ask::Known(Coded::in_error()));
        }
        let (ends, size) = asked!(extent(self.scopes, self.site.around, indices, of));
        let find = index_instr(ends, size)?;
        let value = analysed!(value_code(self.scopes, self.site, index, self.fragments));
        answered_as(
            Operand::Variable(of),
            applied(self.fragments, x.code, value, find),
        )
    }
}

/// The code of the number of an open array's elements less 1.
pub fn high_or_none(high: Option<Fragment>, fragments: &mut Fragments) -> Result<Fragment, Memory>
    requires there { IfSome high (λ h. IsIn fragments.old.nodes.items h) }
    ensures { IsMade fragments.old.nodes.items fragments.new.nodes.items result
        (high_in fragments.old.nodes.items high) }
{
    match high {
        Some(high) => Ok(high),
        None => fragments.one(Instr::Push(0)),
    }
}

/// The address of an element of an open array: that of the array, the number of its elements less 1, the index, and
/// the instruction that finds it.
fn open_code(
    x: Coded,
    value: Fragment,
    size: u32,
    fragments: &mut Fragments,
) -> Result<Fragment, Memory>
    requires code { IsIn fragments.old.nodes.items x.code }
    requires high { IfSome x.high (λ h. IsIn fragments.old.nodes.items h) }
    requires value { IsIn fragments.old.nodes.items value }
    ensures { IsMade fragments.old.nodes.items fragments.new.nodes.items result
        (part fragments.old.nodes.items x.code ⨟ high_in fragments.old.nodes.items x.high
        ⨟ part fragments.old.nodes.items value ⨟ plain (IndexOpen size ∷ [])) }
{
    let high = high_or_none(x.high, fragments)?;
    let found = applied(fragments, high, value, Instr::IndexOpen(size))?;
    fragments.then(x.code, found)
}

/// How many cells a variable of a type takes, as `Move` and `New` have it: an array or a record as many as its row
/// says, anything else one. It waits for the row of what the type stands for.
#[tactic(auto, using(type_rules::proofs::Reading::reading))]
pub fn cells_of<S: Scopes>(scopes: &mut S, around: &Around, of: Place) -> Ask<u32>
    requires suits { Suits (S.state scopes.old).frame around.now }
    requires of { IsThere (S.state scopes.old).frame of }
    ensures reads { Reads (S.state scopes.old) (S.state scopes.new) }
    ensures waits { WhereWaiting result (λ head. Waits (S.state scopes.old) (S.state scopes.new) head) }
    ensures told { WhereTold (S.state scopes.old).frame (λ made.
        WhereKnown result (λ size. size ≡ spec_size (scene_of (S.state scopes.old).frame made around.now) of)) }
{
    let size = known!(size_of(scopes, around, of));
    Ask::Known(size as u32)
}

impl<S: Scopes> Coder<'_, '_, S> {
    /// The element of an open array, by its index, unless one of them is in error.
    fn element_of_open(&mut self, of: Place, index: Coded, x: Coded) -> Result<Ask<Coded>, Memory>
        requires suits { SuitsPlace S.state self.old }
        requires of { IsThere (frame_of S.state self.old) of }
        requires index { IsCoded (frame_of S.state self.old) (nodes_of self.old) index }
        requires x { IsCoded (frame_of S.state self.old) (nodes_of self.old) x }
        ensures keeps { Keeps self.old self.new }
        ensures codes { Codes S.state self.old self.new result IsCoded coded_in
            (λ c. spec_of_open c (coded_in (nodes_of self.old) x) of (coded_in (nodes_of self.old) index)) }
    {
        if asked!(is_spoilt(self.scopes, self.site.around, index.operand, of)) {
            return Ok(Ask::Known(Coded::in_error()));
        }
        let size = asked!(cells_of(self.scopes, self.site.around, of));
        let value = analysed!(value_code(self.scopes, self.site, index, self.fragments));
        answered_as(
            Operand::Variable(of),
            open_code(x, value, size, self.fragments),
        )
    }

    /// The element of an array by one index: the index type takes it, of an open array a CARDINAL. `first` is the
    /// designator's first token, `at` the bracket.
    #[tactic(auto, using(const_eval::proofs::TypesThere::there))]
    pub(crate) fn select_element(
        &mut self,
        first: u32,
        at: u32,
        index: Placed,
        x: Coded,
    ) -> Result<Ask<Coded>, Memory>
        requires suits { SuitsPlace S.state self.old }
        requires index { IsCoded (frame_of S.state self.old) (nodes_of self.old) index.coded }
        requires x { IsCoded (frame_of S.state self.old) (nodes_of self.old) x }
        ensures keeps { Keeps self.old self.new }
        ensures codes { Codes S.state self.old self.new result IsCoded coded_in (λ c. spec_element c first at index.at
            (coded_in (nodes_of self.old) index.coded) (coded_in (nodes_of self.old) x)) }
    {
        match x.operand {
            Operand::Variable(of) => {
                let (_, meaning) = asked!(stand(self.scopes, self.site.around, of));
                match meaning {
                    RowMeaning::Array(indices, elements, _) => {
                        let taken = analysed!(self.assigned_to(
                            indices,
                            Diagnostic::NotAssignable,
                            index
                        ));
                        self.element_of_array(indices, elements, taken, x)
                    }
                    RowMeaning::OpenArray(elements) => {
                        let taken = analysed!(self.assigned_to(
                            CARDINAL,
                            Diagnostic::NotAssignable,
                            index
                        ));
                        self.element_of_open(elements, taken, x)
                    }
                    _ => refused(self.site, at, Diagnostic::NotAnArray, self.notes),
                }
            }
            Operand::InError => Ok(Ask::Known(Coded::in_error())),
            Operand::NotConstant => Ok(Ask::Known(Coded::in_error())),
            _ => refused(self.site, first, Diagnostic::NotAVariable, self.notes),
        }
    }
}
