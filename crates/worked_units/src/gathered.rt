//! What comes behind gathering: the laws on units hold of each unit that is whole.
//!
//! That this function is proved is the test: what `gather` ensures meets the premises of each law, and no caller adds
//! one. What else comes behind gathering, from the cut to merging, `compile_command` calls.
ghost use Rattle.std.specs.Prelude.{◌≤◌, [], IfSome, length};
ghost use Rattle.def_import.specs.Answers.{IsWhole};
ghost use Rattle.def_import.specs.Outcomes.{IsGatheredFrom};
ghost use Rattle.worked_units.specs.Laws.{AreLawful};
ghost use Rattle.m2_base.specs.Units.{IsIdentifier};

use def_import::{Gathered, gather};
use m2_base::Texts;
use m2_io::Shelf;
use std::alloc::Global;
use unit_laws::{
    blocks_are_short, imports_come_before, trees_are_read, unit_code_is_valid, units_are_sound,
};

/// The texts of a module's unit, if nothing is left out of it.
pub fn whole_unit<H: Shelf>(alloc: Global, shelf: &mut H, name: &str) -> Option<Texts>
    requires named { IsIdentifier name.now }
    requires short { length name.now ≤ 1048576 }
    ensures laws { IfSome result (λ texts. AreLawful texts) }
    ensures gathered { IfSome result (λ texts. IsGatheredFrom (H.holds shelf.old) name.now texts []) }
    ensures whole { IfSome result (λ texts. IsWhole texts) }
{
    let Ok(Gathered::Whole(texts)) = gather(alloc, shelf, name) else {
        return None;
    };
    imports_come_before();
    units_are_sound();
    trees_are_read();
    blocks_are_short();
    unit_code_is_valid();
    let _main = texts.main();
    Some(texts)
}
