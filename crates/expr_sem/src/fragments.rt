//! Fragments of code: each is made of earlier ones, so that no code is copied while a statement is put together.
ghost use Rattle.std.specs.Prelude.{◌≡◌, ◌∷◌, [], length};
ghost use Rattle.block_code.specs.Arguments.{string_copy as spec_copy};
ghost use Rattle.expr_sem.specs.Fragments.{AreSound, IsIn, IsMade, IsMadeOf, jump_of, part, part_by, parts_after};
ghost use Rattle.expr_sem.specs.Fragments.{step_view};
ghost use Rattle.block_code.specs.Parts.{Spot, plain, skip as spec_skip, steps, steps_size, text as spec_text};
ghost use Rattle.block_code.specs.Parts.{with_record as spec_record, ◌⨟◌};

use crate::steps::Step;
use code_form::Instr;
use m2_base::Memory;
use std::alloc::Global;

/// The operators whose right side is skipped where the left one decides.
#[derive(Clone, Copy)]
pub enum Connective {
    And,
    Or,
}

impl Connective {
    /// The jump by this distance, over a right side that isn't evaluated.
    pub(crate) fn jump(self, distance: i32) -> Instr
        ensures { result ≡ jump_of self distance }
    {
        match self {
            Connective::And => Instr::AndJump(distance),
            Connective::Or => Instr::OrJump(distance),
        }
    }
}

/// A fragment among those made so far, by the number of its node; or no code at all.
#[derive(Clone, Copy)]
pub enum Fragment {
    Nothing,
    Node(u32),
}

/// What a node's code is.
#[derive(Drop)]
pub enum Form {
    /// One step.
    One(Step),
    /// The address of these characters in the block's data, with a 0 behind them.
    Text(Vec<u8>),
    /// The address of so many temporary cells with a copy of these characters.
    StringCopy(u32, Vec<u8>),
    /// The address of the record of an open WITH, of which 0 is the innermost.
    WithRecord(u32),
    /// One after another.
    Then(Fragment, Fragment),
    /// What is skipped where the operand before it decides.
    Skip(Connective, Fragment),
}

/// A node: its form, and the length of its code in bytes.
#[derive(Drop)]
pub struct Node {
    pub form: Form,
    pub size: u64,
}

/// The fragments made so far.
#[derive(Drop)]
pub struct Fragments {
    pub nodes: Vec<Node>,
}

impl Fragments {
    /// None yet.
    pub fn new(alloc: Global) -> Fragments
        ensures none { result.nodes.items ≡ [] }
        ensures sound { AreSound result.nodes.items }
    {
        Fragments {
            nodes: Vec::new(alloc),
        }
    }

    /// The fragment, where it is one of these. Any other stands for no code.
    fn own(&self, fragment: Fragment) -> Fragment
        ensures there { IsIn self.now.nodes.items result }
        ensures same { part self.now.nodes.items result ≡ part self.now.nodes.items fragment }
    {
        match fragment {
            Fragment::Nothing => Fragment::Nothing,
            Fragment::Node(number) => {
                if (number as usize) < self.nodes.len() {
                    fragment
                } else {
                    Fragment::Nothing
                }
            }
        }
    }

    /// The length of its code in bytes.
    pub fn size(&self, fragment: Fragment) -> u64
        requires there { IsIn self.now.nodes.items fragment }
        ensures { AreSound self.now.nodes.items → (at : Spot)
            → steps_size (part self.now.nodes.items fragment at).code ≡ result }
    {
        match fragment {
            Fragment::Nothing => 0,
            Fragment::Node(number) => self.nodes[number as usize].size,
        }
    }

    /// A further node, with the length of its code.
    fn push(&mut self, form: Form, size: u64) -> Result<Fragment, Memory>
        requires earlier { IsMadeOf (length self.now.nodes.items) form }
        requires size { AreSound self.now.nodes.items → (at : Spot)
            → steps_size (part_by (parts_after [] self.now.nodes.items) form at).code ≡ size }
        ensures made { IsMade self.old.nodes.items self.new.nodes.items result
            (part_by (parts_after [] self.old.nodes.items) form) }
    {
        let Ok(number) = u32::try_from(self.nodes.len()) else {
            return Err(Memory);
        };
        self.nodes.push(Node { form, size })?;
        Ok(Fragment::Node(number))
    }

    /// One step.
    pub fn step(&mut self, step: Step) -> Result<Fragment, Memory>
        ensures made { IsMade self.old.nodes.items self.new.nodes.items result (steps (step_view step ∷ [])) }
    {
        self.push(Form::One(step), step.size())
    }

    /// One instruction that is no call and no return.
    pub fn one(&mut self, instr: Instr) -> Result<Fragment, Memory>
        ensures made { IsMade self.old.nodes.items self.new.nodes.items result (plain (instr ∷ [])) }
    {
        self.step(Step::plain(instr))
    }

    /// One fragment after another.
    pub fn then(&mut self, first: Fragment, second: Fragment) -> Result<Fragment, Memory>
        ensures made { IsMade self.old.nodes.items self.new.nodes.items result
            (part self.old.nodes.items first ⨟ part self.old.nodes.items second) }
    {
        let (first, second) = (self.own(first), self.own(second));
        let Some(size) = self.size(first).checked_add(self.size(second)) else {
            return Err(Memory);
        };
        self.push(Form::Then(first, second), size)
    }

    /// A fragment that is skipped where the operand before it decides.
    pub fn skip(&mut self, connective: Connective, skipped: Fragment) -> Result<Fragment, Memory>
        ensures made { IsMade self.old.nodes.items self.new.nodes.items result
            (spec_skip (jump_of connective) (part self.old.nodes.items skipped)) }
    {
        let skipped = self.own(skipped);
        let jump = connective.jump(0).size();
        let Some(size) = self.size(skipped).checked_add(jump) else {
            return Err(Memory);
        };
        self.push(Form::Skip(connective, skipped), size)
    }

    /// The address of these characters in the block's data.
    pub fn text(&mut self, characters: Vec<u8>) -> Result<Fragment, Memory>
        ensures made { IsMade self.old.nodes.items self.new.nodes.items result (spec_text characters.items) }
    {
        self.push(Form::Text(characters), Instr::Str(0).size())
    }

    /// The address of so many temporary cells with a copy of these characters.
    pub fn string_copy(&mut self, size: u32, characters: Vec<u8>) -> Result<Fragment, Memory>
        ensures made { IsMade self.old.nodes.items self.new.nodes.items result (spec_copy size characters.items) }
    {
        let address = Instr::Local(0, 0).size();
        let moved = Instr::Str(0).size() + Instr::Move(size).size();
        self.push(
            Form::StringCopy(size, characters),
            address + moved + address,
        )
    }

    /// The address of the record of an open WITH, of which 0 is the innermost.
    pub fn with_record(&mut self, number: u32) -> Result<Fragment, Memory>
        ensures made { IsMade self.old.nodes.items self.new.nodes.items result (spec_record number) }
    {
        let size = Instr::Local(0, 0).size() + Instr::Load.size();
        self.push(Form::WithRecord(number), size)
    }
}
