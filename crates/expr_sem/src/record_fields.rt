//! Names where a designator begins, and names behind a point.
ghost use Rattle.std.specs.Prelude.{◌≡◌, ◌≢◌, ◌<◌};
ghost use Rattle.std.specs.Option.{IfSome};
ghost use Rattle.m2_base.specs.Gives.{and_then, gives};
ghost use Rattle.m2_base.specs.Lists.{Each};
ghost use Rattle.m2_base.specs.Rows.{row_meaning};
ghost use Rattle.m2_base.specs.States.{Waits, fills_of};
ghost use Rattle.m2_base.specs.Statics.Uses.{use_of};
ghost use Rattle.type_rules.specs.Asks.{Reads, WhereKnown, WhereWaiting};
ghost use Rattle.type_rules.specs.Scenes.{IsThere, Suits, WhereTold, scene_of};
ghost use Rattle.expr_sem.specs.Coders.{Codes, Keeps, SeesWiths, SuitsPlace, frame_of, nodes_of};
ghost use Rattle.expr_sem.specs.Codings.{IsCoded, coded_in, with_types};
ghost use Rattle.expr_sem.specs.Fragments.{IsIn, IsMade, part};
ghost use Rattle.block_code.specs.Parts.{◌⨟◌};
ghost use Rattle.block_code.specs.RecordFields.{field_coded as spec_field_coded, name_coded as spec_name};
ghost use Rattle.block_code.specs.RecordFields.{offset_code as spec_offset};
ghost use Rattle.block_code.specs.RecordFields.{select_field as spec_field};
ghost use Rattle.expr_sem.specs.Selections.{IsField, with_number as spec_number};
ghost use Rattle.block_code.specs.Variables.{entry_coded as spec_entry};

use crate::answers::answered_as;
use crate::coded::Coded;
use crate::coder::Coder;
use crate::fragments::{Fragment, Fragments};
use crate::pieces::With;
use crate::refusals::refused;
use crate::variables::entry_coded;
use code_form::Instr;
use const_eval::is_broken;
use m2_base::{Around, Ask, Diagnostic, Ident, Memory, Operand, Row, RowMeaning, Scopes, read_row};
use type_rules::{field_of, stand, use_name};

/// The address of so many cells behind the one that this code gives; an offset of 0 is left out.
fn code_behind(code: Fragment, offset: u32, fragments: &mut Fragments) -> Result<Fragment, Memory>
    requires there { IsIn fragments.old.nodes.items code }
    ensures { IsMade fragments.old.nodes.items fragments.new.nodes.items result
        (part fragments.old.nodes.items code ⨟ spec_offset offset) }
{
    if offset == 0 {
        return fragments.then(code, Fragment::Nothing);
    }
    let behind = fragments.one(Instr::Offset(offset))?;
    fragments.then(code, behind)
}

impl<S: Scopes> Coder<'_, '_, S> {
    /// The field of this row, in the record whose address this code gives.
    fn field_coded(&mut self, field: Row, code: Fragment) -> Result<Ask<Coded>, Memory>
        requires suits { SuitsPlace S.state self.old }
        requires field { IsField (frame_of S.state self.old) (row_meaning field) }
        requires code { IsIn (nodes_of self.old) code }
        ensures keeps { Keeps self.old self.new }
        ensures codes { Codes S.state self.old self.new result IsCoded coded_in
            (λ c. gives (spec_field_coded c.scene (part (nodes_of self.old) code) field)) }
    {
        let RowMeaning::Field(of, offset, _, _) = read_row(&field) else {
            return Ok(Ask::Known(Coded::in_error()));
        };
        if asked!(is_broken(self.scopes, self.site.around, of)) {
            return Ok(Ask::Known(Coded::in_error()));
        }
        answered_as(
            Operand::Variable(of),
            code_behind(code, offset, self.fragments),
        )
    }
}

/// The first open WITH whose record has a field of this name, by its number, 0 for the innermost, and the field's row;
/// None sends the caller to the scopes. It waits for the rows of the records.
#[tactic(auto, using(type_rules::proofs::Reading::reading))]
pub fn field_of_withs<S: Scopes>(
    scopes: &mut S,
    around: &Around,
    withs: &[With],
    name: u32,
) -> Ask<Option<(usize, Row)>>
    requires suits { Suits (S.state scopes.old).frame around.now }
    requires withs { Each (λ w. IsThere (S.state scopes.old).frame w.of) withs.now }
    ensures reads { Reads (S.state scopes.old) (S.state scopes.new) }
    ensures waits { WhereWaiting result (λ head. Waits (S.state scopes.old) (S.state scopes.new) head) }
    ensures told { WhereTold (S.state scopes.old).frame (λ made.
        WhereKnown result (λ found.
        found ≡ spec_number (scene_of (S.state scopes.old).frame made around.now) 0 (with_types withs.now) name)) }
    ensures field { WhereKnown result
        (λ found. IfSome found (λ found. IsField (S.state scopes.old).frame (row_meaning found.1))) }
{
    for number in 0..withs.len() {
        if let Some(field) = known!(field_of(scopes, around, withs[number].of, name)) {
            return Ask::Known(Some((number, field)));
        }
    }
    Ask::Known(None)
}

impl<S: Scopes> Coder<'_, '_, S> {
    /// What a name is bound to where it is used.
    fn name_used(&mut self, within: Option<u32>, ident: Ident) -> Result<Ask<Coded>, Memory>
        requires suits { SuitsPlace S.state self.old }
        requires within { IfSome within (λ scope. scope < fills_of (S.state self.old.scopes.now)) }
        requires named { ident.name ≢ 0 }
        ensures keeps { Keeps self.old self.new }
        ensures codes { Codes S.state self.old self.new result IsCoded coded_in
            (λ c. and_then (use_of c within ident.name ident.at) (λ e. gives (spec_entry c e))) }
    {
        let entry = analysed!(use_name(
            self.scopes,
            self.site,
            within,
            ident.name,
            ident.at,
            self.notes
        ));
        entry_coded(self.scopes, self.site, entry, self.fragments)
    }

    /// A name where a designator begins: a field of an open WITH's record, the innermost first,
    /// or what the name is bound to.
    pub(crate) fn name_coded(&mut self, ident: Ident) -> Result<Ask<Coded>, Memory>
        requires suits { SuitsPlace S.state self.old }
        requires withs { SeesWiths S.state self.old }
        requires named { ident.name ≢ 0 }
        ensures keeps { Keeps self.old self.new }
        ensures codes { Codes S.state self.old self.new result IsCoded coded_in
            (λ c. spec_name c (with_types self.old.withs.now) ident) }
    {
        match asked!(field_of_withs(self.scopes, self.site.around, self.withs, ident.name)) {
            Some((number, field)) => {
                let Ok(number) = u32::try_from(number) else {
                    return Err(Memory);
                };
                match self.fragments.with_record(number) {
                    Ok(record) => self.field_coded(field, record),
                    Err(memory) => Err(memory),
                }
            }
            None => self.name_used(None, ident),
        }
    }

    /// What a name behind a point selects. `first` is the designator's first token, `at` the point.
    pub(crate) fn select_field(
        &mut self,
        first: u32,
        at: u32,
        ident: Ident,
        x: Coded,
    ) -> Result<Ask<Coded>, Memory>
        requires suits { SuitsPlace S.state self.old }
        requires x { IsCoded (frame_of S.state self.old) (nodes_of self.old) x }
        requires named { ident.name ≢ 0 }
        ensures keeps { Keeps self.old self.new }
        ensures codes { Codes S.state self.old self.new result IsCoded coded_in
            (λ c. spec_field c first at ident (coded_in (nodes_of self.old) x)) }
    {
        match x.operand {
            Operand::ModuleName(scope) => self.name_used(Some(scope), ident),
            Operand::Variable(of) => {
                let (_, meaning) = asked!(stand(self.scopes, self.site.around, of));
                let RowMeaning::Record(..) = meaning else {
                    return refused(self.site, at, Diagnostic::NotARecord, self.notes);
                };
                match asked!(field_of(self.scopes, self.site.around, of, ident.name)) {
                    Some(field) => self.field_coded(field, x.code),
                    None => refused(self.site, ident.at, Diagnostic::NoSuchField, self.notes),
                }
            }
            Operand::InError => Ok(Ask::Known(Coded::in_error())),
            Operand::NotConstant => Ok(Ask::Known(Coded::in_error())),
            _ => refused(self.site, first, Diagnostic::NotAVariable, self.notes),
        }
    }
}
