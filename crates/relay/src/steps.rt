//! The kinds of step.

use crate::job::Job;
use crate::rule::Knows;
use crossbeam_queue::protocol::{Join, Lesson, Outcome, Split};

/// A job comes.
pub(crate) struct Comes;

impl<J: Job> Outcome<J, Knows<J>> for Comes {
    ghost use Rattle.std.specs.Prelude.{◌≡◌, ◌∷◌, ◌++◌, []};
    ghost use Rattle.relay.specs.Places.{knows};

    ghost then = { λ v x w. w ≡ knows v.parts (v.jobs ++ x ∷ []) v.out };
}

impl<J: Job> Lesson<J, Knows<J>> for Comes {
    ghost use Rattle.std.specs.Prelude.{◌≤◌, length};

    ghost fact = { λ v items. length items ≤ length v.jobs };
}

/// A job goes out.
pub(crate) struct Takes;

impl<J: Job> Outcome<J, Knows<J>> for Takes {
    ghost use Rattle.relay.specs.Places.{Taken};

    ghost then = { Taken J.number J.done J.stays };
}

impl<J: Job> Lesson<J, Knows<J>> for Takes {
    ghost use Rattle.relay.specs.Places.{Told};

    ghost fact = { Told J.number };
}

/// A job comes back.
pub(crate) struct Puts;

impl<J: Job> Outcome<J, Knows<J>> for Puts {
    ghost use Rattle.std.specs.Prelude.{◌≡◌};
    ghost use Rattle.relay.specs.Places.{knows, without_last};

    ghost then = { λ v x w. w ≡ knows v.parts v.jobs (without_last v.out) };
}

impl<J: Job> Lesson<J, Knows<J>> for Puts {
    ghost use Rattle.std.specs.Prelude.{◌≤◌, ◌+◌, length};

    ghost fact = { λ v items. length items + length v.out ≤ length v.jobs };
}

/// A pass is cut off or taken in.
pub(crate) struct Cut;

impl<J> Split<Knows<J>> for Cut {
    ghost use Rattle.std.specs.Prelude.{◌-◌, []};
    ghost use Rattle.relay.specs.Places.{knows};

    ghost left = { λ v. knows (v.parts - 1) v.jobs v.out };

    ghost right = { λ v. knows 1 v.jobs [] };
}

impl<J> Join<Knows<J>> for Cut {
    ghost use Rattle.std.specs.Prelude.{◌+◌, ◌++◌, []};
    ghost use Rattle.relay.specs.Places.{knows};

    ghost both = { λ v w. knows (v.parts + w.parts) v.jobs (v.out ++ w.out) };

    ghost spent = { knows 0 [] [] };
}
