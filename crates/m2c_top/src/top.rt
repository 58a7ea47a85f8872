//! The top call.
ghost use Rattle.std.specs.Prelude.{◌≡◌, ◌≤◌, ◌⊎◌, IfErr, List, Option, map, string_bytes, IfOk, OnOk, OnErr, IsErrOf};
ghost use Rattle.std.specs.Prelude.{IfSome};
ghost use Rattle.command_words.specs.Command.{IsNoCommand, IsSound, command_of};
ghost use Rattle.module_outcome.specs.Answers.{Comes};
ghost use Rattle.module_outcome.specs.declared.answer.Answer.TheVariants.{Diagnosed, Done, NoText, OverLimit};
ghost use Rattle.module_outcome.specs.Outcome.{HasObject, KeepsButObject};
ghost use Rattle.m2_io.specs.Causes.{Rose};
ghost use Rattle.m2_io.specs.Written.{with_bytes, WritesPart};
ghost use Rattle.object_commands.specs.Outcomes.{ReadsPart};
ghost use Rattle.m2c_top.specs.Ending.{IsWellEnded};
ghost use Rattle.m2c_top.specs.Effects.{AsksToCompile, AsksToRun, Does, Gives, HasInput, IsToCompile, IsToRun, IsTold};
ghost use Rattle.m2c_top.specs.Effects.{Leaves, OfCompiled, PrintsPart, ToCompile, usage};
ghost use Rattle.m2c_top.specs.Statuses.{Answers, Exactly, IsCompiledAs, IsFault, IsStatus, status_number};

use crate::ending::{Stop, ended, ended_compiling, status_of};
use crate::laws::one_outcome;
use crate::status::Status;
use command_words::{Command, read_command};
use compile_command::{Crew, compile, compile_big};
use m2_io::{Gate, Shelf, Sink, Source, write_all};
use object_commands::{Settings, dump, run};
use std::alloc::Global;
use std::sync::Wait;
use std::thread::Threads;

/// How the program is called.
const USAGE: &[u8] =
    b"usage: m2c compile NAME [--workers N] | run NAME [--steps N] [--cells N] | dump NAME | big N [--workers N]\n";

/// Says how the program is called.
fn print_usage<P: Sink>(print: &mut P) -> Result<Status, Stop>
    ensures ok { IfOk result (λ status. status ≡ Status.NoCommand) }
    ensures printed { OnOk result (P.written print.new ≡ with_bytes (P.written print.old) usage) }
    ensures stop { IfErr result (λ stop. stop ≡ Stop.Write) }
    ensures part { OnErr result (WritesPart (P.written print.old) usage (P.written print.new)) }
    ensures write { OnErr result (Rose (P.faults print.old) (P.faults print.new)) }
    ensures later { P.faults print.old ≤ P.faults print.new }
{
    match write_all(print, USAGE) {
        Ok(()) => Ok(Status::NoCommand),
        Err(_) => Err(Stop::Write),
    }
}

/// What the work is done with: memory, the runtime that starts workers, and the gate that each turn of theirs passes.
#[derive(Drop)]
struct Means<'a, R, G> {
    alloc: Global,
    rt: &'a R,
    gate: &'a G,
}

impl<'a, R, G> Means<'a, R, G> {
    /// A crew of so many workers.
    fn crew(&self, workers: u32) -> Crew<'a, R, G>
        ensures { result.workers ≡ workers }
    {
        Crew {
            rt: self.rt,
            workers,
            gate: self.gate,
        }
    }
}

/// Does what a command asks.
#[tactic(auto, using(object_commands::proofs::Rears::nothing_read))]
fn carry_out<R: Threads + Wait + Sync, G: Gate, H: Shelf, P: Sink, K: Source>(
    means: &Means<R, G>,
    command: &Command,
    shelf: &mut H,
    print: &mut P,
    keys: &mut K,
) -> Result<Status, Stop>
    requires sound { IsSound (command_of command.now) }
    ensures leaves { IfOk result (λ status. IfSome (H.holds shelf.old) (λ files. IsTold (K.left keys.old)
        (command_of command.now) → Leaves (Does files (K.left keys.old) (command_of command.now))
        (status_number status) (H.holds shelf.new) (P.written print.old) (P.written print.new) (K.left keys.new))) }
    ensures prints { OnErr result
        (IfSome (H.holds shelf.old) (λ files. IsTold (K.left keys.old) (command_of command.now) → PrintsPart
        (Does files (K.left keys.old) (command_of command.now)) (P.written print.old) (P.written print.new))) }
    ensures answer { IfOk result (Answers (command_of command.now)) }
    ensures comes { IfOk result (λ status. IfSome (H.holds shelf.old)
        (λ files. OfCompiled (command_of command.now) (λ name. IsCompiledAs files name status))) }
    ensures object { IfOk result (λ status. status ≡ Status.Done
        → OfCompiled (command_of command.now) (λ name. IfSome (H.holds shelf.new) (HasObject name))) }

    // The files stay, but where a module is compiled: there its object is put, or a part of it where putting failed.
    ensures kept { IfOk result (λ status. (status ≡ Status.Done → ⊥) → H.holds shelf.new ≡ H.holds shelf.old) }
    ensures unread { IsErrOf result Stop.Read → H.holds shelf.new ≡ H.holds shelf.old }
    ensures memory { IsErrOf result Stop.Memory → H.holds shelf.new ≡ H.holds shelf.old }
    ensures part { (H.holds shelf.new ≡ H.holds shelf.old)
        ⊎ IsToCompile (command_of command.now) (λ name. KeepsButObject name (H.holds shelf.old) (H.holds shelf.new)) }
    ensures others { (H.holds shelf.new ≡ H.holds shelf.old)
        ⊎ IsToCompile (command_of command.now) (λ name. Unit {0}) }
    // The source stays, but where a program is run.
    ensures keys { (keys.new ≡ keys.old) ⊎ IsToRun (command_of command.now) }
    ensures left { IfSome (K.left keys.old) (λ input. ReadsPart input (K.left keys.new)) }

    ensures read { IsErrOf result Stop.Read → Rose (H.faults shelf.old) (H.faults shelf.new)
        ⊎ IsToRun (command_of command.now) × Rose (K.faults keys.old) (K.faults keys.new) }
    ensures write { IsErrOf result Stop.Write → Rose (P.faults print.old) (P.faults print.new)
        ⊎ IsToCompile (command_of command.now) (λ name. Rose (H.put_faults shelf.old) (H.put_faults shelf.new)) }
    ensures later { P.faults print.old ≤ P.faults print.new }
{
    match *command {
        Command::Compile { name, workers } => {
            let crew = means.crew(workers);
            ended_compiling(compile(&crew, means.alloc, name, shelf, print))
        }
        Command::Run { name, steps, cells } => {
            let settings = Settings {
                name,
                steps: steps as u64,
                cells,
            };
            ended(run(means.alloc, &settings, shelf, print, keys))
        }
        Command::Dump { name } => ended(dump(means.alloc, name, shelf, print)),
        Command::Big {
            procedures,
            workers,
        } => {
            let crew = means.crew(workers);
            ended_compiling(compile_big(&crew, means.alloc, procedures, shelf, print))
        }
    }
}

/// Does what the words ask.
#[tactic(auto, using(object_commands::proofs::Rears::nothing_read))]
fn obey<R: Threads + Wait + Sync, G: Gate, H: Shelf, P: Sink, K: Source>(
    means: &Means<R, G>,
    words: &[String],
    shelf: &mut H,
    print: &mut P,
    keys: &mut K,
) -> Result<Status, Stop>
    ensures leaves { IfOk result (λ status. IfSome (H.holds shelf.old) (λ files. HasInput (map string_bytes words.now)
        (K.left keys.old) → Leaves (Gives (map string_bytes words.now) files (K.left keys.old)) (status_number status)
        (H.holds shelf.new) (P.written print.old) (P.written print.new) (K.left keys.new))) }
    ensures prints { OnErr result
        (IfSome (H.holds shelf.old) (λ files. HasInput (map string_bytes words.now) (K.left keys.old) → PrintsPart
        (Gives (map string_bytes words.now) files (K.left keys.old)) (P.written print.old) (P.written print.new))) }
    ensures status { IfOk result (IsWellEnded (map string_bytes words.now)) }
    ensures comes { IfOk result (λ status. IfSome (H.holds shelf.old)
        (λ files. ToCompile (map string_bytes words.now) (λ name. IsCompiledAs files name status))) }
    ensures object { IfOk result (λ status. status ≡ Status.Done
        → ToCompile (map string_bytes words.now) (λ name. IfSome (H.holds shelf.new) (HasObject name))) }
    ensures kept { IfOk result (λ status. (status ≡ Status.Done → ⊥) → H.holds shelf.new ≡ H.holds shelf.old) }
    ensures unread { IsErrOf result Stop.Read → H.holds shelf.new ≡ H.holds shelf.old }
    ensures memory { IsErrOf result Stop.Memory → H.holds shelf.new ≡ H.holds shelf.old }
    ensures part { (H.holds shelf.new ≡ H.holds shelf.old) ⊎ AsksToCompile (map string_bytes words.now)
        (λ name. KeepsButObject name (H.holds shelf.old) (H.holds shelf.new)) }
    ensures others { (H.holds shelf.new ≡ H.holds shelf.old)
        ⊎ AsksToCompile (map string_bytes words.now) (λ name. Unit {0}) }
    ensures keys { (keys.new ≡ keys.old) ⊎ AsksToRun (map string_bytes words.now) }
    ensures left { IfSome (K.left keys.old) (λ input. ReadsPart input (K.left keys.new)) }
    ensures read { IsErrOf result Stop.Read → Rose (H.faults shelf.old) (H.faults shelf.new)
        ⊎ AsksToRun (map string_bytes words.now) × Rose (K.faults keys.old) (K.faults keys.new) }
    ensures write { IsErrOf result Stop.Write → Rose (P.faults print.old) (P.faults print.new)
        ⊎ AsksToCompile (map string_bytes words.now) (λ name. Rose (H.put_faults shelf.old) (H.put_faults shelf.new)) }
    ensures later { P.faults print.old ≤ P.faults print.new }
{
    match read_command(means.alloc, words) {
        Ok(Some(command)) => carry_out(means, &command, shelf, print, keys),
        Ok(None) => print_usage(print),
        Err(_) => Err(Stop::Memory),
    }
}

/// How the work ended, once the sink keeps nothing back, unless writing had failed before.
fn hand_on<P: Sink>(ended: Result<Status, Stop>, print: &mut P) -> Result<Status, Stop>
    ensures same { (result ≡ ended) ⊎ IsErrOf result Stop.Write }
    ensures write { IsErrOf result Stop.Write
        → IsErrOf ended Stop.Write ⊎ Rose (P.faults print.old) (P.faults print.new) }
    ensures kept { IsErrOf result Stop.Write ⊎ (P.kept print.new ≡ 0) }
    ensures written { P.written print.new ≡ P.written print.old }
    ensures later { P.faults print.old ≤ P.faults print.new }
{
    if let Err(Stop::Write) = ended {
        return ended;
    }
    match print.flush() {
        Ok(()) => ended,
        Err(_) => Err(Stop::Write),
    }
}

/// Does what the words ask, and hands on what the sink keeps back then.
fn carry_through<R: Threads + Wait + Sync, G: Gate, H: Shelf, P: Sink, K: Source>(
    means: &Means<R, G>,
    words: &[String],
    shelf: &mut H,
    print: &mut P,
    keys: &mut K,
) -> Result<Status, Stop>
    ensures leaves { IfOk result (λ status. IfSome (H.holds shelf.old) (λ files. HasInput (map string_bytes words.now)
        (K.left keys.old) → Leaves (Gives (map string_bytes words.now) files (K.left keys.old)) (status_number status)
        (H.holds shelf.new) (P.written print.old) (P.written print.new) (K.left keys.new))) }
    ensures prints { OnErr result
        (IfSome (H.holds shelf.old) (λ files. HasInput (map string_bytes words.now) (K.left keys.old) → PrintsPart
        (Gives (map string_bytes words.now) files (K.left keys.old)) (P.written print.old) (P.written print.new))) }
    ensures status { IfOk result (IsWellEnded (map string_bytes words.now)) }
    ensures comes { IfOk result (λ status. IfSome (H.holds shelf.old)
        (λ files. ToCompile (map string_bytes words.now) (λ name. IsCompiledAs files name status))) }
    ensures object { IfOk result (λ status. status ≡ Status.Done
        → ToCompile (map string_bytes words.now) (λ name. IfSome (H.holds shelf.new) (HasObject name))) }
    ensures kept { IfOk result (λ status. (status ≡ Status.Done → ⊥) → H.holds shelf.new ≡ H.holds shelf.old) }
    ensures unread { IsErrOf result Stop.Read → H.holds shelf.new ≡ H.holds shelf.old }
    ensures memory { IsErrOf result Stop.Memory → H.holds shelf.new ≡ H.holds shelf.old }
    ensures part { (H.holds shelf.new ≡ H.holds shelf.old) ⊎ AsksToCompile (map string_bytes words.now)
        (λ name. KeepsButObject name (H.holds shelf.old) (H.holds shelf.new)) }
    ensures others { (H.holds shelf.new ≡ H.holds shelf.old)
        ⊎ AsksToCompile (map string_bytes words.now) (λ name. Unit {0}) }
    ensures keys { (keys.new ≡ keys.old) ⊎ AsksToRun (map string_bytes words.now) }
    ensures left { IfSome (K.left keys.old) (λ input. ReadsPart input (K.left keys.new)) }
    ensures read { IsErrOf result Stop.Read → Rose (H.faults shelf.old) (H.faults shelf.new)
        ⊎ AsksToRun (map string_bytes words.now) × Rose (K.faults keys.old) (K.faults keys.new) }
    ensures write { IsErrOf result Stop.Write → Rose (P.faults print.old) (P.faults print.new)
        ⊎ AsksToCompile (map string_bytes words.now) (λ name. Rose (H.put_faults shelf.old) (H.put_faults shelf.new)) }
    ensures handed { IsErrOf result Stop.Write ⊎ (P.kept print.new ≡ 0) }
{
    one_outcome();
    let ended = obey(means, words, shelf, print, keys);
    hand_on(ended, print)
}

/// Does what the words ask, and answers the status: with 0 it is done, 1 says that the module has diagnostics, 2 that
/// the words are no command, 3 that the module's text or object isn't there, 4 and 5 that reading and writing failed,
/// 6 that memory ran out, 7 that a limit is passed, 8 that an object is broken or the objects don't fit together, 9
/// that the program trapped, and 10 that its steps are spent.
pub fn m2c<R: Threads + Wait + Sync, H: Shelf, P: Sink, K: Source, G: Gate>(
    rt: &R,
    alloc: Global,
    words: &[String],
    shelf: &mut H,
    print: &mut P,
    keys: &mut K,
    gate: &G,
) -> u8
    // Without a fault the status, the files, what is printed and what is left of the input are the definition's.
    ensures leaves { IsFault result ⊎ IfSome (H.holds shelf.old) (λ files.
        HasInput (map string_bytes words.now) (K.left keys.old) → Leaves (Gives (map string_bytes words.now) files
        (K.left keys.old)) result (H.holds shelf.new) (P.written print.old) (P.written print.new) (K.left keys.new)) }

    // With 0 the shelf has a valid object of the module that is compiled.
    ensures object { result ≡ 0
        → ToCompile (map string_bytes words.now) (λ name. IfSome (H.holds shelf.new) (HasObject name)) }

    // When each status comes.
    ensures no_command { Exactly result 2 (IsNoCommand (map string_bytes words.now)) }
    ensures no_text { IfSome (H.holds shelf.old)
        (λ files. ToCompile (map string_bytes words.now) (λ name. Exactly result 3 (Comes files name NoText))) }
    ensures done { IfSome (H.holds shelf.old)
        (λ files. ToCompile (map string_bytes words.now) (λ name. Exactly result 0 (Comes files name Done))) }
    ensures refused { IfSome (H.holds shelf.old)
        (λ files. ToCompile (map string_bytes words.now) (λ name. Exactly result 1 (Comes files name Diagnosed))) }
    ensures limits { IfSome (H.holds shelf.old)
        (λ files. ToCompile (map string_bytes words.now) (λ name. Exactly result 7 (Comes files name OverLimit))) }
    ensures read { result ≡ 4 → Rose (H.faults shelf.old) (H.faults shelf.new)
        ⊎ AsksToRun (map string_bytes words.now) × Rose (K.faults keys.old) (K.faults keys.new) }
    ensures write { result ≡ 5 → Rose (P.faults print.old) (P.faults print.new)
        ⊎ AsksToCompile (map string_bytes words.now) (λ name. Rose (H.put_faults shelf.old) (H.put_faults shelf.new)) }
    ensures status { IsStatus result }

    // With a fault, what is printed is a front of what the definition prints, and a front of the object may be put.
    ensures prints { IsFault result
        → IfSome (H.holds shelf.old) (λ files. HasInput (map string_bytes words.now) (K.left keys.old) → PrintsPart
        (Gives (map string_bytes words.now) files (K.left keys.old)) (P.written print.old) (P.written print.new)) }
    ensures kept { (result ≡ 0 → ⊥) → (result ≡ 5 → ⊥) → H.holds shelf.new ≡ H.holds shelf.old }
    ensures part { result ≡ 5 → (H.holds shelf.new ≡ H.holds shelf.old) ⊎ AsksToCompile (map string_bytes words.now)
        (λ name. KeepsButObject name (H.holds shelf.old) (H.holds shelf.new)) }

    // Unless writing failed the sink keeps nothing back.
    ensures handed_on { (result ≡ 5) ⊎ (P.kept print.new ≡ 0) }

    // Nothing but compiling changes the shelf, and nothing but running reads the input, a front of it however it ends.
    ensures others { (H.holds shelf.new ≡ H.holds shelf.old)
        ⊎ AsksToCompile (map string_bytes words.now) (λ name. Unit {0}) }
    ensures keys { (keys.new ≡ keys.old) ⊎ AsksToRun (map string_bytes words.now) }
    ensures left { IfSome (K.left keys.old) (λ input. ReadsPart input (K.left keys.new)) }
{
    let means = Means { alloc, rt, gate };
    status_of(carry_through(&means, words, shelf, print, keys)).number()
}
