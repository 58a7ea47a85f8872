//! A label that is wrong is noted.
ghost use Rattle.std.specs.Prelude.{◌≡◌, [], ◌∷◌, ◌++◌, if◌then◌else◌, IfOk};
ghost use Rattle.m2_base.specs.Noting.{IsRefused};
ghost use Rattle.m2_base.specs.Lists.{IsPrefixOf};
ghost use Rattle.m2_base.specs.Statics.Diagnostics.{wrong_label};
ghost use Rattle.case_labels.specs.Labels.{label_fault};

use m2_base::{Diagnostic, Memory, Notes, Site};

/// Notes a label that is wrong, in the site's text.
pub(crate) fn refuse(site: &Site, at: u32, notes: &mut Notes) -> Result<(), Memory>
    ensures noted { IfOk result (λ _. IsRefused notes.old notes.new site.now.around.now.text at wrong_label) }
    ensures diags { IsPrefixOf notes.old.diags.items notes.new.diags.items }
    ensures answers { notes.new.answers.items ≡ notes.old.answers.items }
{
    notes.refuse(site.around.text, at, Diagnostic::WrongLabel)
}

/// Notes a label, if it is wrong.
pub(crate) fn refuse_if(site: &Site, at: u32, wrong: bool, notes: &mut Notes) -> Result<(), Memory>
    ensures noted { IfOk result (λ _. notes.new.diags.items
        ≡ notes.old.diags.items ++ (if wrong then label_fault site.now.around.now.text at ∷ [] else [])) }
    ensures diags { IsPrefixOf notes.old.diags.items notes.new.diags.items }
    ensures answers { notes.new.answers.items ≡ notes.old.answers.items }
{
    if wrong {
        put!(refuse(site, at, notes));
    }
    Ok(())
}
