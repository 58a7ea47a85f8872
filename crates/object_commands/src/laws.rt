//! A law on the definitions, the contract of a function that does nothing.
ghost use Rattle.std.specs.Prelude.{◌≡◌, ℕ, List, Some};
ghost use Rattle.m2_io.specs.Files.{Files};
ghost use Rattle.object_commands.specs.Dumps.{Dumps};
ghost use Rattle.object_commands.specs.Outcomes.{Outcome};
ghost use Rattle.object_commands.specs.Runs.{Runs};
ghost use Rattle.object_commands.specs.declared.answer.Answer.{Answer as AnswerOf};

/// A command over given files has one outcome.
pub fn one_outcome()
    ensures dump_prints { (files : Files) (name printed other : List ℕ) (answer another : AnswerOf)
        → Dumps (Some files) name printed answer → Dumps (Some files) name other another → printed ≡ other }
    ensures dump_answers { (files : Files) (name printed other : List ℕ) (answer another : AnswerOf)
        → Dumps (Some files) name printed answer → Dumps (Some files) name other another → answer ≡ another }
    ensures run { (files : Files) (name input : List ℕ) (steps cells : ℕ) (these those : Outcome)
        → Runs (Some files) name steps cells input these → Runs (Some files) name steps cells input those
        → these ≡ those }
{}
