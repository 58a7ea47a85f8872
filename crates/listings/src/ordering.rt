//! Diagnostics in the order in which they are listed.
ghost use Rattle.std.specs.Prelude.{◌≡◌};
ghost use Rattle.listings.specs.Ordering.{in_order};

use m2_base::Diag;

/// Puts diagnostics in order, each once.
pub fn put_in_order(diags: &mut Vec<Diag>)
    ensures { diags.new.items ≡ in_order diags.old.items }
{
    diags.sort_unstable();
    diags.dedup();
}
