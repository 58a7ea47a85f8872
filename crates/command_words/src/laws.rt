//! A law on the definitions, the contract of a function that does nothing.
ghost use Rattle.std.specs.Prelude.{◌≡◌, ℕ, List};
ghost use Rattle.command_words.specs.Command.{Asks, Command};

/// Words ask for at most one command.
pub fn one_command()
    ensures { (words : List (List ℕ)) (this other : Command) → Asks words this → Asks words other → this ≡ other }
{}
