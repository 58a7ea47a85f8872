//! Laws on the definitions, each the contract of a function that does nothing.
ghost use Rattle.std.specs.Prelude.{◌≡◌, ℕ, List, length};
ghost use Rattle.code_form.specs.Instructions.{Instr as InstrOf};
ghost use Rattle.code_form.specs.Bytes.{BeginsWith, spelling, size};

/// Bytes begin with one instruction at most.
pub fn one_spelling()
    ensures instr { (bytes rest rest' : List ℕ) (i j : InstrOf) → BeginsWith bytes i rest → BeginsWith bytes j rest'
        → i ≡ j }
    ensures rest { (bytes rest rest' : List ℕ) (i j : InstrOf) → BeginsWith bytes i rest → BeginsWith bytes j rest'
        → rest ≡ rest' }
{}

/// An instruction has as many bytes as the table says.
pub fn spelling_size()
    ensures { (i : InstrOf) → length (spelling i) ≡ size i }
{}
