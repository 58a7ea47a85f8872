//! Laws on the definitions, each the contract of a function that does nothing.
ghost use Rattle.std.specs.Prelude.{◌<◌, ◌^◌, List, length};
ghost use Rattle.object_file.specs.Contents.{Contents};
ghost use Rattle.object_file.specs.Programs.{IsProgram};
ghost use Rattle.stack_machine.specs.InOut.{Got};
ghost use Rattle.stack_machine.specs.Loading.{IsLoaded};
ghost use Rattle.stack_machine.specs.Ready.{Shapes, IsValid, Fits, GoesOn};
ghost use Rattle.stack_machine.specs.State.{State, Program};
ghost use Rattle.stack_machine.specs.Step.{step};

/// In code whose heights agree no step meets a missing operand, frame or operation, and each leads to a state of which
/// the same can be said.
#[tactic(auto, using(crate::proofs::Steps::going))]
pub fn no_step_is_stuck()
    ensures { (p : Program) (shapes : Shapes) (s : State) (got : Got) → IsValid p shapes → Fits p shapes s
        → GoesOn p shapes (step p got s) }
{}

/// The code that is loaded from a program is such code.
pub fn loaded_code_is_valid()
    ensures { (os : List Contents) (p : Program) → IsProgram os → IsLoaded os p → length p.ops < 2 ^ 62
        → (shapes : Shapes) × IsValid p shapes }
{}
