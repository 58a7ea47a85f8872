//! The dependency order of the definition texts.
ghost use Rattle.std.specs.Prelude.{◌≡◌, ◌<◌, ◌^◌, ◌++◌, ◌&&◌, not, IfOk, OnOk, drop, length, map};
ghost use Rattle.def_import.specs.Dependencies.{AreStruck, IsStruck, all_in, is_in, items_of, one_number};
ghost use Rattle.def_import.specs.Dependencies.{all_needs as spec_all_needs, dependency_order as spec_order};
ghost use Rattle.def_import.specs.Dependencies.{first_free as spec_first_free, needs_of as spec_needs_of};

use crate::found::Found;
use crate::progress::Progress;
use m2_base::Memory;
use std::alloc::Global;

/// Adds a text, if there is one.
fn add_need(needs: &mut Vec<u32>, text: Option<u32>) -> Result<(), Memory>
    ensures { OnOk result (needs.new.items ≡ needs.old.items ++ one_number text) }
{
    if let Some(text) = text {
        needs.push(text)?;
    }
    Ok(())
}

/// The imports of a text that are found.
fn needs_of(alloc: Global, progress: &Progress, found: &Found) -> Result<Vec<u32>, Memory>
    ensures { IfOk result (λ needs. needs.items ≡ spec_needs_of progress.now found.now) }
{
    let mut needs = Vec::new(alloc);
    for import in found.imports() {
        add_need(&mut needs, progress.text_of_module(import.name))?;
    }
    Ok(needs)
}

/// What each text needs before it can be taken.
fn all_needs(alloc: Global, progress: &Progress) -> Result<Vec<Vec<u32>>, Memory>
    ensures needs { IfOk result (λ all. items_of all.items ≡ spec_all_needs progress.now progress.now.found) }
    ensures few { OnOk result (length progress.now.found < 258) }
{
    let mut all = Vec::new(alloc);
    for found in progress.texts() {
        let needs = needs_of(alloc, progress, found)?;
        all.push(needs)?;
    }
    Ok(all)
}

/// Whether a text is taken.
fn is_taken(taken: &[u32], text: u32) -> bool
    ensures { result ≡ is_in taken.now text }
{
    taken.contains(&text)
}

/// Strikes off texts that are taken, from the back; whether none is left. So no text is struck off twice.
fn strike_off(needs: &mut Vec<u32>, taken: &[u32]) -> bool
    ensures struck { IsStruck taken.now needs.old.items needs.new.items }
    ensures free { result ≡ all_in taken.now needs.old.items }
{
    while let Some(text) = needs.last().copied() {
        if !is_taken(taken, text) {
            return false;
        }
        needs.pop();
    }
    true
}

/// Whether a text isn't taken and needs no other that isn't.
fn is_free(needs: &mut Vec<u32>, taken: &[u32], text: u32) -> bool
    ensures struck { IsStruck taken.now needs.old.items needs.new.items }
    ensures free { result ≡ (not (is_in taken.now text) && all_in taken.now needs.old.items) }
{
    !is_taken(taken, text) && strike_off(needs, taken)
}

/// The first text behind the main text that isn't taken and needs no other that isn't.
fn first_free(all: &mut [Vec<u32>], taken: &[u32]) -> Option<u32>
    requires { length all.old < 2 ^ 32 }
    ensures free { result ≡ spec_first_free taken.now 1 (drop 1 (items_of all.old)) }
    ensures struck { AreStruck taken.now (items_of all.old) (items_of all.new) }
{
    for text in 1..all.len() {
        if is_free(&mut all[text], taken, text as u32) {
            return Some(text as u32);
        }
    }
    None
}

/// Takes, again and again, the first definition text that isn't taken yet and whose imports that are found are all
/// taken.
pub fn dependency_order(alloc: Global, progress: &Progress) -> Result<Vec<u32>, Memory>
    ensures { IfOk result (λ order. order.items ≡ spec_order progress.now) }
{
    let mut all = all_needs(alloc, progress)?;
    let mut taken = Vec::new(alloc);
    for _ in 0..all.len() {
        let Some(text) = first_free(&mut all, &taken) else {
            return Ok(taken);
        };
        taken.push(text)?;
    }
    Ok(taken)
}
