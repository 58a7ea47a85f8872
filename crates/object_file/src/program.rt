//! Programs.
ghost use Rattle.std.specs.Prelude.{◌≡◌, [], ◌∷◌, ℕ, List, length, map, MatchResult, IfOk, IsErrOf};
ghost use Rattle.std.specs.Bool.{Decides};
ghost use Rattle.std.specs.List.{AllByRecursion};
ghost use Rattle.object_file.specs.Picking.{AreNumbers, AllDifferent};
ghost use Rattle.object_file.specs.Programs.{in_out, IsApart, IsAlone, AreLinked};
ghost use Rattle.object_file.specs.Running.{IsRunningOrder, picked};
ghost use Rattle.object_file.specs.Views.{heading_of, import_of};

use crate::directory::{Directory, DirectoryFault};
use crate::fault::ProgramFault;
use crate::object::Object;
use crate::parts::ImportNote;
use crate::picking::pick;
use crate::running::running_order;
use m2_base::Memory;
use std::alloc::Global;
use std::marker::Model;

/// The headings of InOut: the cells of the parameters, and the result.
const IN_OUT_HEADINGS: [(u32, u32); 8] = [
    (1, 0), // Read
    (1, 0), // ReadInt
    (1, 0), // ReadCard
    (1, 0), // Write
    (2, 0), // WriteString
    (0, 0), // WriteLn
    (2, 0), // WriteInt
    (2, 0), // WriteCard
];

fn are_in_out(headings: &[(u32, u32)]) -> bool
    ensures { Decides result (map heading_of headings.now ≡ in_out.headings) }
{
    headings == IN_OUT_HEADINGS.as_slice()
}

/// No other object need meet the import.
fn is_apart(note: &ImportNote) -> bool
    ensures { Decides result (IsApart (import_of note.now)) }
{
    if note.name.as_slice() == b"InOut".as_slice() {
        note.cells == 1 && are_in_out(&note.headings)
    } else {
        note.cells == 0 && note.headings.is_empty()
    }
}

fn are_apart(notes: &[ImportNote]) -> bool
    ensures { Decides result (AllByRecursion IsApart (map import_of notes.now)) }
{
    for note in notes {
        if !is_apart(note) {
            return false;
        }
    }
    true
}

/// The running order of objects.
fn order_of(alloc: Global, objects: &[Object]) -> Result<Vec<usize>, Memory>
    requires { AreLinked objects.now }
    ensures order { IfOk result (λ order. IsRunningOrder objects.now order.items) }
    ensures numbers { IfOk result (λ order. AreNumbers (length objects.now) order.items) }
    ensures differ { IfOk result (λ order. AllDifferent order.items) }
{
    match Directory::of(alloc, objects) {
        Ok(directory) => Ok(running_order(alloc, objects, &directory)?),
        Err(DirectoryFault::Memory) => Err(Memory),
        Err(DirectoryFault::Twice(_)) => unreachable!(),
    }
}

/// Objects among which all imports are met, in the order in which their bodies run, the main module's last.
#[derive(Drop)]
pub struct Program {
    objects: Vec<Object>,
}

impl Model for Program {
    ghost use Rattle.std.specs.Prelude.{List};
    ghost use Rattle.object_file.specs.Contents.{Contents};
    ghost use Rattle.object_file.specs.Programs.{IsProgram};

    ghost Value = { List Contents };

    ghost view = { λ p. p.objects.items };

    ghost invariant = { λ p. IsProgram p.objects.items };
}

impl Program {
    /// The program of an object that needs no other.
    pub fn single(alloc: Global, object: Object) -> Result<Program, ProgramFault>
        ensures alone { IsAlone object → MatchResult result (λ p. p ≡ object ∷ []) (λ e. e ≡ ProgramFault.Memory) }
        // One that needs another is handed back.
        ensures needs_link { ¬ IsAlone object → IsErrOf result (ProgramFault.NeedsLink object) }
    {
        if !are_apart(object.imports()) {
            return Err(ProgramFault::NeedsLink(object));
        }
        let mut objects = Vec::new(alloc);
        objects.push(object)?;
        Ok(Program { objects })
    }

    /// The program of objects, the first of which is the main module's. Those to which no import leads from it aren't
    /// of the program.
    pub fn join(alloc: Global, objects: Vec<Object>) -> Result<Program, Memory>
        requires { AreLinked objects.items }
        ensures { IfOk result
            (λ p. (order : List ℕ) × IsRunningOrder objects.items order × (p ≡ picked objects.items order)) }
    {
        let order = order_of(alloc, &objects)?;
        let objects = pick(alloc, objects, &order)?;
        Ok(Program { objects })
    }

    /// The objects in the order in which their bodies run.
    pub fn objects(&self) -> &[Object]
        ensures { result.now ≡ self.now }
    {
        &self.objects
    }
}
