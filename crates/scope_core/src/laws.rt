//! Laws on what is entered, each the contract of a function that does nothing.
ghost use Rattle.std.specs.Prelude.{◌≡◌, ◌≤◌, ◌-◌, false, List, [], ℕ, length};
ghost use Rattle.m2_base.specs.Scopes.{CanEnter, Entered, CanComplete, Completed};
ghost use Rattle.m2_base.specs.States.{State, Look, Keeps};
ghost use Rattle.m2_base.specs.Units.{UnitTexts};
ghost use Rattle.m2_base.specs.declared.rows.Row.{Row};
ghost use Rattle.scope_core.specs.Fronts.{ShowsFront};
ghost use Rattle.scope_core.specs.PlainScopes.{started, state_of};

/// When the scopes of one thread start, nothing is entered and the own scope isn't complete.
pub fn nothing_is_entered()
    ensures entered { (texts : UnitTexts) (sizes : List ℕ) → (state_of (started texts sizes)).frame.entered ≡ [] }
    ensures closed { (texts : UnitTexts) (sizes : List ℕ) → (state_of (started texts sizes)).frame.closed ≡ false }
    ensures front { (texts : UnitTexts) (sizes : List ℕ) → ShowsFront (state_of (started texts sizes)) }
{}

/// What is entered is the front of the finished rows: a search leaves it so, and rows that may be entered and a scope
/// that may be completed make it so.
pub fn fronts_are_kept()
    ensures searched { (old new : State) (looks : List Look) → Keeps old new looks → ShowsFront old → ShowsFront new }
    ensures entered { (old new : State) (rows : List Row) → CanEnter old rows → Entered old new rows → ShowsFront new }
    ensures completed { (old new : State) → CanComplete old → Completed old new → ShowsFront new }
{}
