//! What can one token of look-ahead tell?
//!
//! The terms are the field's. A grammar is data: EBNF right sides that go back to numbered rules, of which
//! nesting counts some (`specs/Grammar`). A right side derives trees, a tree spells tokens, and each token lies
//! in some number of counted rules (`Derivations`). A text is a sentence within a depth, or it has a first token
//! at fault: no sentence begins with the tokens up to it, or each that does is nested too deep there
//! (`Sentences`). Whether one token of look-ahead tells what to read is a check that computes (`LookAhead`), and
//! reading by it accepts a beginning of the text or refuses a token (`Reading`).
//!
//! The functions below are laws: they do nothing, and their contracts hold of every grammar over every type of
//! token. `proofs/Decided` has them as lemmas.
//!
//! A parser plugs in its grammar so. It writes the rules as a `Grammar` over its tokens, and shows `IsLL1` of it
//! and `IsRoot` of each right side that texts are read by: both compute, `refl` for each numbered rule. Beside each
//! rule it writes a reader in the words of `specs/Readers`, which its code mirrors, and links the two by the
//! combinators of `proofs/Link` and `proofs/Repetitions`, a line for each part of the rule. The lemmas of
//! `proofs/Answering` then say of the reader's answer what its text is (`specs/Texts`), and `proofs/Loops` has the
//! invariants of its code's loops. `proofs/Example` and `proofs/ExampleReaders` do all of this for a small language.
#![tactic(auto)]

ghost use Rattle.std.specs.Prelude.{List};
ghost use Rattle.ll_grammar.specs.Derivations.{Tree};
ghost use Rattle.ll_grammar.specs.Grammar.{Grammar, Rule};
ghost use Rattle.ll_grammar.specs.Laws.{HasAnswer, HasOneAnswer, HasOneFault, IsDecided, IsSound, IsTotal};
ghost use Rattle.ll_grammar.specs.Laws.{IsUnambiguous, RefusesFirstFault};
ghost use Rattle.ll_grammar.specs.LookAhead.{IsLL1, IsRoot};
ghost use Rattle.ll_grammar.specs.Sentences.{Fault};

/// What is accepted is a derivation, and nothing in it is nested too deep.
pub fn reading_is_sound<T>()
    ensures { (g : Grammar T) (r : Rule) → IsSound g r }
{}

/// Each list of tokens is accepted up to a rest, or refused.
pub fn reading_is_total<T>()
    ensures { (g : Grammar T) (r : Rule) → IsLL1 g → IsRoot g r → IsTotal g r }
{}

/// A text has one derivation at most.
pub fn derivation_is_unique<T>()
    ensures { (g : Grammar T) (r : Rule) → IsLL1 g → IsRoot g r → IsUnambiguous g r }
{}

/// The token at which reading is refused is the first at fault.
pub fn reading_refuses_first_fault<T>()
    ensures { (g : Grammar T) (r : Rule) → IsLL1 g → IsRoot g r → RefusesFirstFault g r }
{}

/// A text is a sentence within the depth, or has a first token at fault.
pub fn text_is_decided<T>()
    ensures { (g : Grammar T) (r : Rule) → IsLL1 g → IsRoot g r → IsDecided g r }
{}

/// A text is never both, and has one fault.
pub fn fault_is_unique<T>()
    ensures { (g : Grammar T) (r : Rule) → HasOneFault g r }
{}

/// Where a parser answers with a value of the derivation, or with what it tells of the first fault, each text has
/// one answer.
pub fn answer_is_unique<T, X, F>()
    ensures exists { (g : Grammar T) (r : Rule) (value : Tree T → List T → X) (tell : Fault → List T → F)
        → IsLL1 g → IsRoot g r → HasAnswer g r value tell }
    ensures one { (g : Grammar T) (r : Rule) (value : Tree T → List T → X) (tell : Fault → List T → F)
        → IsLL1 g → IsRoot g r → HasOneAnswer g r value tell }
{}
