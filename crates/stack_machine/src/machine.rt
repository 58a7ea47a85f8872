//! Machines.
ghost use Rattle.std.specs.Prelude.{◌≡◌, ◌<◌, ◌≤◌, Some, length, map, slice_get, IfOk, IfErr, IfSome, IsErrOf};
ghost use Rattle.m2_io.specs.Causes.{Rose};
ghost use Rattle.stack_machine.specs.Loading.{IsLoaded, frames_of, begun};
ghost use Rattle.stack_machine.specs.Machines.{EndsFrom, IsPlaced, Stands, TrapsWithin, now_of};
ghost use Rattle.stack_machine.specs.State.{program_of};
ghost use Rattle.stack_machine.specs.declared.machine.StartFault.TheVariants.{Memory as StartMemory};

use crate::code::Code;
use crate::core_state::Core;
use crate::layout::laid_out;
use crate::loading::load;
use crate::next::Next;
use crate::run::{End, steps, trapped};
use crate::start::{begin, blank};
use crate::trap::Trap;
use m2_io::{Sink, Source};
use object_file::Program;
use std::alloc::{AllocError, Global};
use std::marker::Model;
use thiserror::Error;

/// Why there is no machine.
#[derive(Clone, Copy, Debug, Error)]
pub enum StartFault {
    /// The program's variables and data need more cells.
    #[error("too few cells")]
    NoRoom,
    #[error("out of memory")]
    Memory,
}

impl From<AllocError> for StartFault {
    ghost from_gives = { λ _ e. e ≡ StartMemory };

    fn from(_: AllocError) -> StartFault {
        StartFault::Memory
    }
}

/// A program and where it stands.
#[derive(Drop)]
pub struct Machine {
    program: Program,
    code: Code,
    core: Core,
    /// The place of the first body, where it finds no room.
    full: Option<usize>,
}

impl Model for Machine {
    ghost use Rattle.stack_machine.specs.Loading.{IsLoaded};
    ghost use Rattle.stack_machine.specs.Machines.{Machinery, Stands, now_of};
    ghost use Rattle.stack_machine.specs.State.{program_of};

    ghost Value = { Machinery };

    ghost view = { λ m. record { objects = m.program; code = program_of m.code; now = now_of m.full m.core } };

    ghost invariant = { λ m. IsLoaded m.program (program_of m.code) × Stands m.full m.code m.core };
}

/// Goes on from where a machine stands.
fn go_on<P: Sink, K: Source>(
    code: &Code,
    core: &mut Core,
    full: Option<usize>,
    most: u64,
    print: &mut P,
    keys: &mut K,
) -> End
    requires stands { Stands full code.now core.old }
    ensures stands { Stands full code.now core.new }
    ensures ends { IfSome (K.left keys.old) (λ input. EndsFrom result (program_of code.now) most (now_of full core.old)
        (now_of full core.new) input (P.written print.old) (P.written print.new) (K.left keys.new)) }
    ensures placed { IsPlaced result (program_of code.now) }
    ensures write_failed { result ≡ End.WriteFailed → Rose (P.faults print.old) (P.faults print.new) }
    ensures read_failed { result ≡ End.ReadFailed → Rose (K.faults keys.old) (K.faults keys.new) }
    ensures handed { result ≡ End.ReadFailed → P.kept print.new ≡ 0 }
    ensures prints_later { P.faults print.old ≤ P.faults print.new }
    ensures reads_later { K.faults keys.old ≤ K.faults keys.new }
{
    match full {
        None => steps(code, core, most, print, keys),
        Some(at) => trapped(code, Trap::Memory, at),
    }
}

impl Machine {
    /// A machine with so many cells, before the first step of the program.
    pub fn new(alloc: Global, program: Program, cells: u32) -> Result<Machine, StartFault>
        requires { 0 < cells }
        ensures program { IfOk result (λ m. m.objects ≡ program) }
        ensures code { IfOk result (λ m. IsLoaded program m.code) }
        ensures stands { IfOk result (λ m. m.now ≡ begun program m.code cells) }
        ensures no_room { cells < frames_of program → IsErrOf result StartFault.NoRoom }
        ensures memory { frames_of program ≤ cells → IfErr result (λ e. e ≡ StartFault.Memory) }
    {
        let size = cells as usize;
        let Some(layout) = laid_out(program.objects(), size) else {
            return Err(StartFault::NoRoom);
        };
        let code = load(alloc, program.objects(), &layout)?;
        let mut core = blank(alloc, program.objects(), &layout, size)?;
        let full = begin(&code, &mut core);
        Ok(Machine {
            program,
            code,
            core,
            full,
        })
    }

    /// Makes at most so many steps, and says how they ended.
    pub fn run<P: Sink, K: Source>(&mut self, most: u64, print: &mut P, keys: &mut K) -> End
        ensures ends { IfSome (K.left keys.old) (λ input. EndsFrom result self.old.code most self.old.now self.new.now
            input (P.written print.old) (P.written print.new) (K.left keys.new)) }
        ensures trap_within { TrapsWithin result (length self.old.objects) }
        // It fails only where a count of faults rose.
        ensures write_failed { result ≡ End.WriteFailed → Rose (P.faults print.old) (P.faults print.new) }
        ensures read_failed { result ≡ End.ReadFailed → Rose (K.faults keys.old) (K.faults keys.new) }
        // What was written is handed on before each read, also before one that fails.
        ensures handed { result ≡ End.ReadFailed → P.kept print.new ≡ 0 }
        ensures prints_later { P.faults print.old ≤ P.faults print.new }
        ensures reads_later { K.faults keys.old ≤ K.faults keys.new }
        ensures objects { self.new.objects ≡ self.old.objects }
        ensures code { self.new.code ≡ self.old.code }
    {
        go_on(&self.code, &mut self.core, self.full, most, print, keys)
    }

    /// The name of the object with this number in running order.
    pub fn module_name(&self, module: u32) -> &[u8]
        requires { «module» < length self.now.objects }
        ensures { slice_get (map (λ o. o.name) self.now.objects) «module» ≡ Some result.now }
    {
        self.program.objects()[module as usize].name()
    }
}
