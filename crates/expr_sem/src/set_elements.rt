//! The code of a set between brackets.
ghost use Rattle.std.specs.Prelude.{◌≡◌, ◌∷◌, [], List};
ghost use Rattle.m2_base.specs.Gives.{gives};
ghost use Rattle.m2_base.specs.States.{State, Waits};
ghost use Rattle.m2_base.specs.Statics.Sets.{set_base as spec_base};
ghost use Rattle.m2_base.specs.declared.notes.Notes.{Notes as NotesOf};
ghost use Rattle.m2_base.specs.declared.sites.Site.{Site as SiteOf};
ghost use Rattle.expr_sem.specs.Coders.{Codes, Keeps, SuitsPlace, frame_of, nodes_of};
ghost use Rattle.expr_sem.specs.Codings.{Coding, IsCoded, coded_in};
ghost use Rattle.expr_sem.specs.Fragments.{IsIn, IsMade, part};
ghost use Rattle.block_code.specs.Parts.{plain, ◌⨟◌};
ghost use Rattle.expr_sem.specs.SetCodings.{AreElements, elements_in};
ghost use Rattle.block_code.specs.SetElements.{add_element as spec_element, add_range as spec_range};
ghost use Rattle.block_code.specs.SetElements.{no_elements_yet, set_coded as spec_set};
ghost use Rattle.expr_sem.specs.declared.fragments.Node.{Node};
ghost use Rattle.type_rules.specs.Asks.{Reads, WhereKnown, WhereWaiting};
ghost use Rattle.type_rules.specs.Scenes.{IsThere, WhereTold};
ghost use Rattle.type_rules.specs.Sites.{SuitsSite, context_of};

use crate::answers::answered_as;
use crate::chains::{after_both, pair};
use crate::coded::Coded;
use crate::coder::Coder;
use crate::fragments::{Fragment, Fragments};
use crate::values::value_code;
use code_form::Instr;
use const_eval::{no_elements, set_base, with_elements};
use m2_base::{Ask, Memory, Operand, Place, Scopes, Site};

/// What the elements make so far: the set by the static rule, and the code that adds each
/// of them to the set on the stack.
#[derive(Clone, Copy)]
pub struct Elements {
    pub set: Operand,
    pub code: Fragment,
}

/// What a set of the type `of` begins with: the type's base, with which each element must be compatible, and no
/// element yet. Of a type that is no set, or whose base is in error, the set is in error.
/// It waits for the type and its base.
#[tactic(auto, using(type_rules::proofs::Reading::reading, const_eval::proofs::TypesThere::there))]
pub fn set_start<S: Scopes>(scopes: &mut S, site: &Site, of: Place) -> Ask<(Place, Elements)>
    requires suits { SuitsSite (S.state scopes.old).frame site.now }
    requires of { IsThere (S.state scopes.old).frame of }
    ensures reads { Reads (S.state scopes.old) (S.state scopes.new) }
    ensures waits { WhereWaiting result (λ head. Waits (S.state scopes.old) (S.state scopes.new) head) }
    ensures based { WhereTold (S.state scopes.old).frame (λ made.
        WhereKnown result (λ given. let c = context_of (S.state scopes.old).frame made site.now in
        given.0 ≡ spec_base c of)) }
    ensures told { WhereTold (S.state scopes.old).frame (λ made.
        WhereKnown result (λ given. let c = context_of (S.state scopes.old).frame made site.now in
        (nodes : List Node) → elements_in nodes given.1 ≡ no_elements_yet c of)) }
    ensures base { WhereKnown result (λ given. IsThere (S.state scopes.old).frame given.0) }
    ensures elements { WhereKnown result
        (λ given. (nodes : List Node) → AreElements (S.state scopes.old).frame nodes given.1) }
{
    let base = known!(set_base(scopes, site, of));
    let set = known!(no_elements(scopes, site, of));
    let elements = Elements {
        set,
        code: Fragment::Nothing,
    };
    Ask::Known((base, elements))
}

/// Two codes, and then an instruction that makes a set of what they leave, which is added.
fn joined(
    fragments: &mut Fragments,
    x: Fragment,
    y: Fragment,
    instr: Instr,
) -> Result<Fragment, Memory>
    requires x { IsIn fragments.old.nodes.items x }
    requires y { IsIn fragments.old.nodes.items y }
    ensures { IsMade fragments.old.nodes.items fragments.new.nodes.items result
        (part fragments.old.nodes.items x ⨟ part fragments.old.nodes.items y ⨟ plain (instr ∷ Instr.Union ∷ [])) }
{
    let last = pair(instr, Instr::Union, fragments)?;
    after_both(fragments, x, y, last)
}

impl<S: Scopes> Coder<'_, '_, S> {
    /// The elements so far, and one more that `member` took. Behind their code, which leaves the set on the
    /// stack, come the element's value, `Bit` and `Union`, which leave it there too. It waits as the element's
    /// `value_code` does.
    #[tactic(auto, using(const_eval::proofs::TypesThere::there))]
    pub(crate) fn add_element(&mut self, es: Elements, x: Coded) -> Result<Ask<Elements>, Memory>
        requires suits { SuitsPlace S.state self.old }
        requires es { AreElements (frame_of S.state self.old) (nodes_of self.old) es }
        requires x { IsCoded (frame_of S.state self.old) (nodes_of self.old) x }
        ensures keeps { Keeps self.old self.new }
        ensures notes { self.new.notes.now ≡ self.old.notes.now }
        ensures codes { Codes S.state self.old self.new result AreElements elements_in
            (λ c. gives (spec_element c (elements_in (nodes_of self.old) es) (coded_in (nodes_of self.old) x))) }
    {
        let set = with_elements(es.set, x.operand, x.operand);
        let value = analysed!(value_code(self.scopes, self.site, x, self.fragments));
        let code = joined(self.fragments, es.code, value, Instr::Bit)?;
        Ok(Ask::Known(Elements { set, code }))
    }

    /// The elements so far, and those from `x` to `y`, which `member` took; none where `x` is above `y`.
    /// Behind the code come both values, `Span` and `Union`, which leave the set on the stack. It waits as
    /// `value_code` does.
    #[tactic(auto, using(const_eval::proofs::TypesThere::there))]
    pub(crate) fn add_range(
        &mut self,
        es: Elements,
        x: Coded,
        y: Coded,
    ) -> Result<Ask<Elements>, Memory>
        requires suits { SuitsPlace S.state self.old }
        requires es { AreElements (frame_of S.state self.old) (nodes_of self.old) es }
        requires x { IsCoded (frame_of S.state self.old) (nodes_of self.old) x }
        requires y { IsCoded (frame_of S.state self.old) (nodes_of self.old) y }
        ensures keeps { Keeps self.old self.new }
        ensures notes { self.new.notes.now ≡ self.old.notes.now }
        ensures codes { Codes S.state self.old self.new result AreElements elements_in
            (λ c. gives (spec_range c (elements_in (nodes_of self.old) es)
            (coded_in (nodes_of self.old) x) (coded_in (nodes_of self.old) y))) }
    {
        let set = with_elements(es.set, x.operand, y.operand);
        let low = analysed!(value_code(self.scopes, self.site, x, self.fragments));
        let high = analysed!(value_code(self.scopes, self.site, y, self.fragments));
        let span = joined(self.fragments, low, high, Instr::Span)?;
        let code = self.fragments.then(es.code, span)?;
        Ok(Ask::Known(Elements { set, code }))
    }
}

/// What comes of a set of the type `of` behind its last element: a constant without code where all elements are, else
/// `Push 0`, the empty set, and the code that adds each; in error where one of them or the base is. It never waits.
pub fn set_coded(of: Place, es: Elements, fragments: &mut Fragments) -> Result<Ask<Coded>, Memory>
    requires code { IsIn fragments.old.nodes.items es.code }
    ensures { (state : State) (notes : NotesOf) (site : SiteOf)
        → IsThere state.frame of → AreElements state.frame fragments.old.nodes.items es
        → Coding state state notes notes fragments.old.nodes.items fragments.new.nodes.items site result IsCoded
        coded_in (λ c. gives (spec_set of (elements_in fragments.old.nodes.items es))) }
{
    match es.set {
        Operand::Constant(_, bits) => { Ok(Ask::Known(Coded::bare(Operand::Constant(of, bits)))) }
        Operand::InError => Ok(Ask::Known(Coded::in_error())),
        _ => {
            let empty = fragments.one(Instr::Push(0))?;
            answered_as(Operand::Computed(of), fragments.then(empty, es.code))
        }
    }
}
