//! What the kit's `clap` is asked of the words behind a verb.
ghost use Rattle.std.specs.Prelude.{◌≡◌, false, IfOk};
ghost use Rattle.clap.specs.Simple.{app_of};
ghost use Rattle.clap.specs.Walk.{rule_of};
ghost use Rattle.command_words.specs.Asking.{app_for, bare_app, option_named};
ghost use Rattle.command_words.specs.Verbs.{settings_of};

use crate::verb::Verb;
use clap::Arg;
use std::alloc::{AllocError, Global};

/// A command that takes nothing yet: no program's name stands in front, and there is no option for help.
fn bare<'a>(alloc: Global) -> clap::Command<'a>
    ensures { app_of result ≡ bare_app }
{
    clap::Command::new(alloc, "m2c")
        .no_binary_name(true)
        .disable_help_flag(true)
}

/// An option of that name, with one value.
fn option<'a>(alloc: Global, name: &'a str) -> Arg<'a>
    ensures rule { rule_of result ≡ option_named name.now }
    ensures own { result.global ≡ false }
{
    Arg::new(alloc, name).long(name)
}

/// The command of a verb: its options, and one word that is none.
pub fn command_for<'a>(alloc: Global, verb: Verb) -> Result<clap::Command<'a>, AllocError>
    ensures { IfOk result (λ command. app_of command ≡ app_for (settings_of verb)) }
{
    let operand = Arg::new(alloc, "NAME");
    match verb {
        Verb::Compile | Verb::Big => {
            let workers = option(alloc, "workers");
            bare(alloc).arg(workers)?.arg(operand)
        }
        Verb::Run => {
            let steps = option(alloc, "steps");
            let cells = option(alloc, "cells");
            bare(alloc).arg(steps)?.arg(cells)?.arg(operand)
        }
        Verb::Dump => bare(alloc).arg(operand),
    }
}
