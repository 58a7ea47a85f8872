//! Reading the texts, one after another.
ghost use Rattle.std.specs.Prelude.{◌≡◌, ◌≤◌, ◌<◌, IfErr, IfOk, IsErrOf, List, OnOk, Some, length};
ghost use Rattle.m2_io.specs.Causes.{Rose};
ghost use Rattle.def_import.specs.Closure.{Found as FoundText, listed, modules_of, names_of, with_module};
ghost use Rattle.def_import.specs.Closure.{with_modules};
ghost use Rattle.def_import.specs.Closure.{next_module as spec_next_module, own_name as spec_own_name};
ghost use Rattle.def_import.specs.Outcomes.{AskPasses, Asks, IsRead, Limit, Passes, Reads};
ghost use Rattle.def_import.specs.Views.{IsAskFault, IsNamingFault, IsTextFault, fault_of};

use crate::faults::GatherFault;
use crate::files::definition_text;
use crate::found::Found;
use crate::progress::Progress;
use indexmap::IndexSet;
use m2_base::{Ident, MOST_TEXT_BYTES, MOST_TEXTS, MOST_UNIT_TOKENS, Names, Text};
use m2_io::Shelf;
use m2_lex::lex;
use m2_parse::front;
use std::alloc::Global;

/// Names one more module, unless the texts are too many then.
fn name_module(modules: &mut IndexSet<u32>, named: Ident) -> Result<(), GatherFault>
    ensures named { OnOk result (modules.new.keys ≡ with_module modules.old.keys named.name) }
    ensures few { OnOk result (length modules.new.keys < MOST_TEXTS) }
    ensures too_many { IsErrOf result GatherFault.TooManyTexts
        → MOST_TEXTS ≤ length (with_module modules.old.keys named.name) }
    ensures fault { IfErr result IsNamingFault }
{
    modules.insert(named.name)?;
    if modules.len() >= MOST_TEXTS {
        return Err(GatherFault::TooManyTexts);
    }
    Ok(())
}

/// Names these modules.
fn name_all(modules: &mut IndexSet<u32>, named: &[Ident]) -> Result<(), GatherFault>
    requires { length modules.old.keys < MOST_TEXTS }
    ensures named { OnOk result (modules.new.keys ≡ with_modules modules.old.keys (names_of named.now)) }
    ensures few { OnOk result (length modules.new.keys < MOST_TEXTS) }
    ensures too_many { IsErrOf result GatherFault.TooManyTexts
        → MOST_TEXTS ≤ length (with_modules modules.old.keys (names_of named.now)) }
    ensures fault { IfErr result IsNamingFault }
{
    for one in named {
        name_module(modules, *one)?;
    }
    Ok(())
}

/// Names the own definition of an implementation.
fn name_own(modules: &mut IndexSet<u32>, found: &Found) -> Result<(), GatherFault>
    requires { length modules.old.keys < MOST_TEXTS }
    ensures named { OnOk result
        (modules.new.keys ≡ with_modules modules.old.keys (names_of (listed (spec_own_name found.now.front)))) }
    ensures few { OnOk result (length modules.new.keys < MOST_TEXTS) }
    ensures too_many { IsErrOf result GatherFault.TooManyTexts
        → MOST_TEXTS ≤ length (with_modules modules.old.keys (names_of (listed (spec_own_name found.now.front)))) }
    ensures fault { IfErr result IsNamingFault }
{
    match found.own_name() {
        Some(own) => name_module(modules, own),
        None => Ok(()),
    }
}

/// Names the modules of a text: its own definition, then its imports.
fn name_modules(modules: &mut IndexSet<u32>, found: &Found) -> Result<(), GatherFault>
    requires { length modules.old.keys < MOST_TEXTS }
    ensures named { OnOk result
        (modules.new.keys ≡ with_modules modules.old.keys (names_of (modules_of found.now.front))) }
    ensures few { OnOk result (length modules.new.keys < MOST_TEXTS) }
    ensures too_many { IsErrOf result GatherFault.TooManyTexts
        → MOST_TEXTS ≤ length (with_modules modules.old.keys (names_of (modules_of found.now.front))) }
    ensures fault { IfErr result IsNamingFault }
{
    name_own(modules, found)?;
    name_all(modules, found.imports())
}

/// Reads a text: its tokens, and its front.
fn read_text(
    alloc: Global,
    names: &mut Names,
    definition: bool,
    name: u32,
    bytes: &[u8],
) -> Result<Found, GatherFault>
    requires { length names.old ≤ 4000000000 }
    ensures read { IfOk result (λ f. IsRead names.old definition name bytes.now names.new f) }
    ensures limits { (found : List FoundText) (limit : Limit) → IsErrOf result (fault_of limit)
        → Passes names.old found definition name bytes.now limit }
    ensures fault { IfErr result IsTextFault }
{
    if bytes.len() > MOST_TEXT_BYTES {
        return Err(GatherFault::TooLong);
    }
    let tokens = lex(alloc, bytes, names)?;
    let _countable = names.count();
    let front = front(alloc, &tokens, definition)?;
    let text = Text {
        name,
        definition,
        tokens,
    };
    Ok(Found { text, front })
}

impl Progress {
    /// Reads one more text.
    pub fn read(
        mut self,
        alloc: Global,
        definition: bool,
        name: u32,
        bytes: &[u8],
    ) -> Result<Progress, GatherFault>
        requires { length self.found ≤ length self.asked }
        ensures read { IfOk result (λ p. Reads self definition name bytes.now p) }
        ensures limits { (limit : Limit) → IsErrOf result (fault_of limit)
            → Passes self.names self.found definition name bytes.now limit }
        ensures fault { IfErr result IsTextFault }
    {
        let found = read_text(alloc, &mut self.parts.names, definition, name, bytes)?;
        self.parts.tokens += found.count();
        if self.parts.tokens > MOST_UNIT_TOKENS {
            return Err(GatherFault::TooManyUnitTokens);
        }
        name_modules(&mut self.parts.modules, &found)?;
        self.parts.found.push(found)?;
        Ok(self)
    }

    /// Asks for the next module, and reads its text, if there is one.
    pub fn ask<H: Shelf>(
        mut self,
        alloc: Global,
        shelf: &mut H,
        name: u32,
    ) -> Result<Progress, GatherFault>
        requires { spec_next_module self ≡ Some name }
        ensures asked { IfOk result (λ p. Asks (H.holds shelf.old) self name p) }
        ensures limits { (limit : Limit) → IsErrOf result (fault_of limit)
            → AskPasses (H.holds shelf.old) self name limit }
        ensures holds { H.holds shelf.new ≡ H.holds shelf.old }
        ensures put_faults { H.put_faults shelf.new ≡ H.put_faults shelf.old }
        ensures later { H.faults shelf.old ≤ H.faults shelf.new }
        ensures failed { IsErrOf result GatherFault.ReadFault → Rose (H.faults shelf.old) (H.faults shelf.new) }
        ensures fault { IfErr result IsAskFault }
    {
        match definition_text(alloc, shelf, &self.parts.names, name)? {
            None => {
                self.parts.asked.push(None)?;
                Ok(self)
            }
            Some(bytes) => {
                let number = self.parts.found.len() as u32;
                self.parts.asked.push(Some(number))?;
                self.read(alloc, true, name, &bytes)
            }
        }
    }
}
