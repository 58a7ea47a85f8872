//! Which procedures enclose a procedure.
//!
//! Static links lead from a procedure to the one around it, and so on. Code that names a variable far out isn't to
//! cost a step for each link, so each procedure has its level and a jump: one of the procedures around it, chosen so
//! that a few jumps and links lead to any level, in steps about twice the logarithm of the level.
ghost use Rattle.std.specs.Prelude.{◌≡◌, ◌≢◌, ◌++◌, ◌∷◌, [], ◌<◌, ◌≤◌, ◌+◌, ◌-◌, ◌^◌, length, slice_index, Some, IfOk};
ghost use Rattle.std.specs.Prelude.{OnOk};
ghost use Rattle.code_form.specs.Valid.{outer_of as spec_outer, linked as spec_linked};
ghost use Rattle.object_file.specs.Links.{OutersBelow, AreLinks, AreLinksOf, IsNearer, IsJump};
ghost use Rattle.object_file.specs.Views.{world_in};

use crate::naming::outer_of;
use crate::parts::Parts;
use std::alloc::{AllocError, Global};

/// For each procedure how many enclose it, and one of those, or itself where none does.
#[derive(Drop)]
pub(crate) struct Links {
    levels: Vec<u32>,
    jumps: Vec<u32>,
}

fn number_at(numbers: &[u32], k: u32) -> u32
    ensures { result ≡ slice_index numbers.now k }
{
    match numbers.get(k as usize) {
        Some(n) => *n,
        None => 0,
    }
}

impl Links {
    /// Those of all procedures.
    pub(crate) fn new(alloc: Global, parts: &Parts) -> Result<Links, AllocError>
        requires outers { OutersBelow (world_in parts.now) }
        requires few { length parts.now.procedures.items < 2 ^ 32 }
        ensures { IfOk result (λ links. AreLinksOf (world_in parts.now) links) }
    {
        let mut links = Links {
            levels: Vec::new(alloc),
            jumps: Vec::new(alloc),
        };
        for k in 0..parts.procedures.len() {
            links.add(parts, k as u32)?;
        }
        Ok(links)
    }

    fn level(&self, k: u32) -> u32
        ensures { result ≡ slice_index self.now.levels.items k }
    {
        number_at(&self.levels, k)
    }

    fn jump(&self, k: u32) -> u32
        ensures { result ≡ slice_index self.now.jumps.items k }
    {
        number_at(&self.jumps, k)
    }

    /// Adds those of the next procedure.
    fn add(&mut self, parts: &Parts, k: u32) -> Result<(), AllocError>
        requires outers { OutersBelow (world_in parts.now) }
        requires next { k ≡ length self.old.levels.items }
        requires links { AreLinks (world_in parts.now) self.old.levels.items self.old.jumps.items }
        ensures more { OnOk result (length self.new.levels.items ≡ length self.old.levels.items + 1) }
        ensures links { OnOk result (AreLinks (world_in parts.now) self.new.levels.items self.new.jumps.items) }
    {
        let outer = outer_of(parts, k);
        if outer == 0 {
            self.push(0, k)
        } else {
            let jump = self.jump_from(parts, k, outer);
            self.push(self.level(outer) + 1, jump)
        }
    }

    fn push(&mut self, level: u32, jump: u32) -> Result<(), AllocError>
        ensures levels { OnOk result (self.new.levels.items ≡ self.old.levels.items ++ level ∷ []) }
        ensures jumps { OnOk result (self.new.jumps.items ≡ self.old.jumps.items ++ jump ∷ []) }
    {
        self.levels.push(level)?;
        self.jumps.push(jump)?;
        Ok(())
    }

    /// The jump of a procedure with this outer one: two jumps of the outer one, if they are as long as each other.
    fn jump_from(&self, parts: &Parts, k: u32, outer: u32) -> u32
        requires links { AreLinks (world_in parts.now) self.now.levels.items self.now.jumps.items }
        requires outer { outer ≡ spec_outer (world_in parts.now) k }
        requires enclosed { outer ≢ 0 }
        requires known { outer < length self.now.levels.items }
        ensures { IsJump (world_in parts.now) self.now.levels.items k outer result }
    {
        let jump = self.jump(outer);
        let next = self.jump(jump);
        let first = self.level(outer) - self.level(jump);
        let second = self.level(jump) - self.level(next);
        if first == second { next } else { outer }
    }

    /// A procedure around this one, as far out as is known at once.
    fn nearer(&self, parts: &Parts, from: u32, level: u32) -> u32
        requires links { AreLinksOf (world_in parts.now) self.now }
        requires further { level < slice_index self.now.levels.items from }
        ensures { IsNearer (world_in parts.now) self.now.levels.items from level result }
    {
        let jump = self.jump(from);
        if level <= self.level(jump) {
            jump
        } else {
            outer_of(parts, from)
        }
    }

    /// The procedure at this level that encloses another one, or that one itself.
    fn at_level(&self, parts: &Parts, k: u32, level: u32) -> u32
        requires links { AreLinksOf (world_in parts.now) self.now }
        requires within { level ≤ slice_index self.now.levels.items k }
        ensures { spec_linked (world_in parts.now) (slice_index self.now.levels.items k - level) k ≡ Some result }
    {
        let mut from = k;
        while level < self.level(from) {
            from = self.nearer(parts, from, level);
        }
        from
    }

    /// The procedure that h static links lead to.
    pub(crate) fn linked(&self, parts: &Parts, h: u32, k: u32) -> Option<u32>
        requires { AreLinksOf (world_in parts.now) self.now }
        ensures { result ≡ spec_linked (world_in parts.now) h k }
    {
        let level = self.level(k);
        if level < h {
            return None;
        }
        Some(self.at_level(parts, k, level - h))
    }
}
