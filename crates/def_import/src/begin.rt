//! Before the first text is read.
ghost use Rattle.std.specs.Prelude.{◌≡◌, IfOk, Some};
ghost use Rattle.m2_base.specs.Names.{number_in, standard_names, with_name};
ghost use Rattle.def_import.specs.Outcomes.{begun};

use crate::progress::{Parts, Progress};
use indexmap::IndexSet;
use m2_base::{Memory, Names};
use std::alloc::Global;

/// No text yet, with the number of the file's name.
pub fn begin(alloc: Global, file: &[u8]) -> Result<(Progress, u32), Memory>
    ensures begun { IfOk result (λ x. x.0 ≡ begun file.now) }
    ensures number { IfOk result (λ x. number_in (with_name standard_names file.now) file.now ≡ Some x.1) }
{
    let mut names = Names::new(alloc)?;
    let number = names.intern(alloc, file)?;
    let parts = Parts {
        names,
        found: Vec::new(alloc),
        modules: IndexSet::new(alloc),
        asked: Vec::new(alloc),
        tokens: 0,
    };
    let progress = Progress { parts };
    Ok((progress, number))
}
