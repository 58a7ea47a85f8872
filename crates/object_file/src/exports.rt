//! The exports that were read, with what they ask of each procedure.
ghost use Rattle.std.specs.Prelude.{◌≡◌, [], ◌∷◌, ◌++◌, ◌==◌, IfOk};
ghost use Rattle.object_file.specs.Exported.{merged as spec_merged, both as spec_both, agrees as spec_agrees};
ghost use Rattle.object_file.specs.Exported.{found_in, admits_outer, admits_params, admits_result};
ghost use Rattle.object_file.specs.ObjectFormat.{as_exported};

use crate::wanted::Wanted;
use std::alloc::{AllocError, Global};
use std::collections::BTreeMap;
use std::marker::Model;

fn both(known: Option<u32>, n: u32) -> Option<u32>
    ensures { result ≡ spec_both known n }
{
    match known {
        None => None,
        Some(m) => { if m == n { Some(m) } else { None } }
    }
}

/// What is asked of a procedure by this export and those before.
fn merged(known: Option<Wanted>, export: (u32, u32, u32)) -> Wanted
    ensures { result ≡ spec_merged known export }
{
    match known {
        None => Wanted {
            params: Some(export.1),
            result: Some(export.2),
        },
        Some(wanted) => Wanted {
            params: both(wanted.params, export.1),
            result: both(wanted.result, export.2),
        },
    }
}

fn lookup(wanted: &BTreeMap<u32, Wanted>, k: u32) -> Option<Wanted>
    ensures { result ≡ found_in wanted.now k }
{
    wanted.get(&k).copied()
}

fn admitted_outer(found: Option<Wanted>, outer: u32) -> bool
    ensures { result ≡ admits_outer found outer }
{
    match found {
        None => true,
        Some(_) => outer == 0,
    }
}

fn agrees(known: Option<u32>, n: u32) -> bool
    ensures { result ≡ spec_agrees known n }
{
    match known {
        None => false,
        Some(m) => n == m,
    }
}

fn admitted_params(found: Option<Wanted>, params: u32) -> bool
    ensures { result ≡ admits_params found params }
{
    match found {
        None => true,
        Some(wanted) => agrees(wanted.params, params),
    }
}

fn admitted_result(found: Option<Wanted>, cells: u32) -> bool
    ensures { result ≡ admits_result found cells }
{
    match found {
        None => true,
        Some(wanted) => agrees(wanted.result, cells),
    }
}

/// Exports in their order. They are seen as their list.
#[derive(Drop)]
pub(crate) struct Exports {
    all: Vec<(u32, u32, u32)>,
    wanted: BTreeMap<u32, Wanted>,
}

impl Model for Exports {
    ghost use Rattle.std.specs.Prelude.{List};
    ghost use Rattle.object_file.specs.Contents.{Export};
    ghost use Rattle.object_file.specs.Exported.{IsIndex, found_in};

    ghost Value = { List Export };

    ghost view = { λ e. e.all.items };

    ghost invariant = { λ e. IsIndex e.all.items (found_in e.wanted) };
}

impl Exports {
    pub(crate) fn new(alloc: Global) -> Exports
        ensures { result ≡ [] }
    {
        Exports {
            all: Vec::new(alloc),
            wanted: BTreeMap::new(alloc),
        }
    }

    /// These, and one more.
    pub(crate) fn with(self, export: (u32, u32, u32)) -> Result<Exports, AllocError>
        ensures { IfOk result (λ exports. exports ≡ self ++ export ∷ []) }
    {
        let Exports {
            mut all,
            mut wanted,
        } = self;
        let known = lookup(&wanted, export.0);
        wanted.insert(export.0, merged(known, export))?;
        all.push(export)?;
        Ok(Exports { all, wanted })
    }

    /// Exports are of module level.
    pub(crate) fn admits_outer(&self, k: u32, outer: u32) -> bool
        ensures { result ≡ as_exported self.now k (λ e. outer == 0) }
    {
        admitted_outer(lookup(&self.wanted, k), outer)
    }

    /// Each export of the procedure has so many cells of parameters.
    pub(crate) fn admits_params(&self, k: u32, params: u32) -> bool
        ensures { result ≡ as_exported self.now k (λ e. params == e.1) }
    {
        admitted_params(lookup(&self.wanted, k), params)
    }

    /// Each export of the procedure has this result.
    pub(crate) fn admits_result(&self, k: u32, cells: u32) -> bool
        ensures { result ≡ as_exported self.now k (λ e. cells == e.2) }
    {
        admitted_result(lookup(&self.wanted, k), cells)
    }

    pub(crate) fn as_slice(&self) -> &[(u32, u32, u32)]
        ensures { result.now ≡ self.now }
    {
        &self.all
    }

    pub(crate) fn into_vec(self) -> Vec<(u32, u32, u32)>
        ensures { result.items ≡ self }
    {
        self.all
    }
}
