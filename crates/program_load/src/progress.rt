//! How far the objects of a program are read.
ghost use Rattle.std.specs.Prelude.{◌≡◌, ◌≤◌, ◌<◌, ◌^◌, IfErr, IfOk, IfSome, IsErrOf, IsSome, Some, option_map};
ghost use Rattle.m2_io.specs.Causes.{Rose};
ghost use Rattle.program_load.specs.Answers.{told};
ghost use Rattle.program_load.specs.Closure.{next_module as spec_next_module, passed, start};
ghost use Rattle.program_load.specs.Loads.{Asks, Blocks, Reads, Stops};

use crate::fault::LoadFault;
use crate::files::{object_bytes, object_in};
use crate::limits::MOST_OBJECTS;
use crate::naming::name_imports;
use m2_base::Memory;
use m2_io::Shelf;
use object_file::Object;
use std::alloc::Global;
use std::collections::BTreeSet;
use std::marker::Model;

/// How far the objects of a program are read.
#[derive(Drop)]
pub struct Progress {
    /// The modules that are named so far, each once, in the order in which they are named first.
    names: Vec<String>,
    /// The same, to be found.
    known: BTreeSet<String>,
    /// The objects in the order in which they were found.
    objects: Vec<Object>,
    /// How many of the modules were asked for.
    asked: usize,
}

impl Model for Progress {
    ghost use Rattle.program_load.specs.Closure as closure;
    ghost use Rattle.program_load.specs.Closure.{AreKnown, texts_of};

    ghost Value = { closure.Progress };

    ghost view = { λ p. record { names = texts_of p.names.items; objects = p.objects.items; asked = p.asked } };

    ghost invariant = { λ p. AreKnown p.known (texts_of p.names.items) };
}

impl Progress {
    /// Nothing is read yet, and the main module is named.
    pub fn begin(alloc: Global, main: &str) -> Result<Progress, Memory>
        ensures { IfOk result (λ p. p ≡ start main.now) }
    {
        let mut known = BTreeSet::new(alloc);
        known.insert(main.to_string(alloc)?)?;
        let mut names = Vec::new(alloc);
        names.push(main.to_string(alloc)?)?;
        Ok(Progress {
            names,
            known,
            objects: Vec::new(alloc),
            asked: 0,
        })
    }

    /// The module that is asked for next.
    pub fn next_module(&self) -> Option<&str>
        ensures next { option_map (λ name. name.now) result ≡ spec_next_module self.now }
        ensures small { self.now.asked < 2 ^ 64 }
    {
        match self.names.get(self.asked) {
            Some(name) => Some(name.as_str()),
            None => None,
        }
    }

    /// The objects in the order in which they were found.
    pub fn into_objects(self) -> Vec<Object>
        ensures { result.items ≡ self.objects }
    {
        self.objects
    }

    /// Goes on behind a module that has no object.
    fn pass(mut self) -> Progress
        requires { IsSome (spec_next_module self) }
        ensures { result ≡ passed self }
    {
        self.asked += 1;
        self
    }

    /// Reads the object of the module that is asked for.
    fn read(mut self, alloc: Global, name: &str, bytes: &[u8]) -> Result<Progress, LoadFault>
        requires { IsSome (spec_next_module self) }
        ensures read { IfOk result (Reads self bytes.now) }
        ensures fault { IfErr result (λ e. IfSome (told e) (Blocks self name.now bytes.now)) }
        ensures no_read { IsErrOf result LoadFault.Read → ⊥ }
    {
        if self.objects.len() >= MOST_OBJECTS {
            return Err(LoadFault::TooMany);
        }
        let object = object_in(alloc, name, bytes)?;
        object.validity();
        name_imports(alloc, &mut self.names, &mut self.known, object.imports())?;
        self.objects.push(object)?;
        self.asked += 1;
        Ok(self)
    }

    /// Asks for the next module, and reads its object, if there is one.
    pub fn ask<H: Shelf>(
        self,
        alloc: Global,
        shelf: &mut H,
        name: &str,
    ) -> Result<Progress, LoadFault>
        requires { spec_next_module self ≡ Some name.now }
        ensures asked { IfOk result (Asks (H.holds shelf.old) self name.now) }
        ensures fault { IfErr result (λ e. IfSome (told e) (Stops (H.holds shelf.old) self name.now)) }
        ensures holds { H.holds shelf.new ≡ H.holds shelf.old }
        ensures put_faults { H.put_faults shelf.new ≡ H.put_faults shelf.old }
        ensures later { H.faults shelf.old ≤ H.faults shelf.new }
        ensures failed { IsErrOf result LoadFault.Read → Rose (H.faults shelf.old) (H.faults shelf.new) }
    {
        match object_bytes(alloc, shelf, name)? {
            Some(bytes) => self.read(alloc, name, &bytes),
            None if self.objects.is_empty() => Err(LoadFault::NoObject),
            None => Ok(self.pass()),
        }
    }
}
