//! The parameters and the result of a procedure type, and the cells of arguments.
ghost use Rattle.std.specs.Prelude.{◌≡◌, ◌==◌, is_some, length, map};
ghost use Rattle.m2_base.specs.Asks.{IfKnown, IfWaits};
ghost use Rattle.m2_base.specs.Lists.{Each};
ghost use Rattle.m2_base.specs.States.{Waits};
ghost use Rattle.expr_sem.specs.ArgumentCodes.{parameter_view};
ghost use Rattle.block_code.specs.Calls.{cells_of_all as spec_cells, result_cells as spec_result};
ghost use Rattle.expr_sem.specs.Signatures.{IsSignature, IsSignatureBy, IsSignatureOf};
ghost use Rattle.type_rules.specs.Asks.{Reads};
ghost use Rattle.type_rules.specs.Forms.{IsFormHere, parameters_from};
ghost use Rattle.type_rules.specs.Scenes.{IsThere, Suits, WhereTold, scene_of};
ghost use Rattle.type_rules.specs.Sites.{SuitsSite};

use crate::arguments::Parameter;
use m2_base::{Around, Ask, Memory, Place, Scopes, Site};
use type_rules::{Form, form_of, is_open_array, next_parameter};

/// The parameters and the result of a procedure type.
#[derive(Drop)]
pub struct Signature {
    pub params: Vec<Parameter>,
    pub result: Option<Place>,
}

/// How what is called suits a call: whether it gives a value, and whether it takes so many arguments.
#[derive(Clone, Copy)]
pub struct Suiting {
    pub gives_value: bool,
    pub is_count: bool,
}

impl Signature {
    /// How what has it suits a call with so many arguments.
    pub fn suiting(&self, count: usize) -> Suiting
        ensures gives_value { result.gives_value ≡ is_some self.now.result }
        ensures is_count { result.is_count ≡ (count == length (map parameter_view self.now.params.items)) }
    {
        Suiting {
            gives_value: self.result.is_some(),
            is_count: count == self.params.len(),
        }
    }
}

/// The parameters and the result of a procedure type of this form.
#[tactic(auto, using(type_rules::proofs::Reading::reading))]
pub fn signature_by<S: Scopes>(
    scopes: &mut S,
    site: &Site,
    form: Form,
) -> Result<Ask<Signature>, Memory>
    requires suits { SuitsSite (S.state scopes.old).frame site.now }
    requires form { IsFormHere (S.state scopes.old).frame form }
    ensures reads { Reads (S.state scopes.old) (S.state scopes.new) }
    ensures waits { IfWaits result (λ head. Waits (S.state scopes.old) (S.state scopes.new) head) }
    ensures told { WhereTold (S.state scopes.old).frame (λ made.
        IfKnown result
        (λ signature. IsSignatureBy (scene_of (S.state scopes.old).frame made site.now.around.now) form signature)) }
    ensures there { IfKnown result (λ signature. IsSignature (S.state scopes.old).frame signature) }
{
    let texts = site.texts;
    let mut params = Vec::new(*texts.order.allocator());
    let mut start = form.first;
    'parameters: loop {
        match asked!(next_parameter(scopes, site.around, form.of, start)) {
            Some(formal) => {
                let (of, by_ref) = (formal.typ, formal.by_ref);
                params.push(Parameter { of, by_ref })?;
                start = formal.next;
            }
            None => {
                let result = form.result;
                return Ok(Ask::Known(Signature { params, result }));
            }
        }
    }
}

/// The parameters and the result of a procedure type. What is none has none.
#[tactic(auto, using(type_rules::proofs::Reading::reading))]
pub fn signature_of<S: Scopes>(
    scopes: &mut S,
    site: &Site,
    of: Place,
) -> Result<Ask<Signature>, Memory>
    requires suits { SuitsSite (S.state scopes.old).frame site.now }
    requires of { IsThere (S.state scopes.old).frame of }
    ensures reads { Reads (S.state scopes.old) (S.state scopes.new) }
    ensures waits { IfWaits result (λ head. Waits (S.state scopes.old) (S.state scopes.new) head) }
    ensures told { WhereTold (S.state scopes.old).frame (λ made.
        IfKnown result
        (λ signature. IsSignatureOf (scene_of (S.state scopes.old).frame made site.now.around.now) of signature)) }
    ensures there { IfKnown result (λ signature. IsSignature (S.state scopes.old).frame signature) }
{
    let texts = site.texts;
    match form_of(scopes, site.around, of) {
        Ask::Known(Some(form)) => signature_by(scopes, site, form),
        Ask::Known(None) => Ok(Ask::Known(Signature {
            params: Vec::new(*texts.order.allocator()),
            result: None,
        })),
        Ask::DontKnowYet(head) => Ok(Ask::DontKnowYet(head)),
    }
}

/// The cells of the arguments of these parameters; an open array has two. Where that is no number any more, memory is
/// wanted.
#[tactic(auto, using(type_rules::proofs::Reading::reading))]
pub fn cells_of_all<S: Scopes>(
    scopes: &mut S,
    around: &Around,
    params: &[Parameter],
) -> Result<Ask<u64>, Memory>
    requires suits { Suits (S.state scopes.old).frame around.now }
    requires params { Each (λ p. IsThere (S.state scopes.old).frame p.of) params.now }
    ensures reads { Reads (S.state scopes.old) (S.state scopes.new) }
    ensures waits { IfWaits result (λ head. Waits (S.state scopes.old) (S.state scopes.new) head) }
    ensures told { WhereTold (S.state scopes.old).frame (λ made.
        IfKnown result (λ cells.
        cells ≡ spec_cells (scene_of (S.state scopes.old).frame made around.now) (map parameter_view params.now))) }
{
    let mut cells: u64 = 0;
    for number in 0..params.len() {
        let is_open = asked!(is_open_array(scopes, around, params[number].of));
        let own = if is_open { 2 } else { 1 };
        let Some(all) = cells.checked_add(own) else {
            return Err(Memory);
        };
        cells = all;
    }
    Ok(Ask::Known(cells))
}

/// The cells of a result.
pub fn result_cells(of: Option<Place>) -> u32
    ensures { result ≡ spec_result of }
{
    match of {
        Some(_) => 1,
        None => 0,
    }
}
