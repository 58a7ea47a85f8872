//! Flows: the code of statements in the making. As a fragment stands for a part of code, a flow stands for the code of
//! statements, which is known once it is also told its statement's own cell, and how far away the end of the innermost
//! LOOP is. A flow owns the flows that it is made of, and names the fragments that it is made of among those made so
//! far. Since the length of each is known, no jump is patched.
use case_labels::LabelTest;
use code_form::Instr;
use expr_sem::Fragment;

/// Code without EXIT that a statement has of its own. It may use the temporary cell of its statement.
#[derive(Drop)]
pub enum Code {
    /// A fragment, which doesn't use the cell.
    Fixed(Fragment),
    /// The value goes to the cell.
    Stored(Fragment),
    /// The value of the variable whose address the fragment gives, then that of the cell, then this instruction.
    Compared(Fragment, Instr),
    /// Whether the value in the cell is one of these.
    Labels(Vec<LabelTest>),
}

/// The code of statements: what it is, and its length in bytes.
#[derive(Drop)]
#[cycle(flow)]
pub struct Flow {
    pub form: FlowForm,
    pub size: u64,
}

/// A test, and what is done where it holds.
#[derive(Drop)]
#[cycle(flow)]
pub struct Arm {
    pub test: Code,
    pub body: Flow,
}

/// A loop that counts: where the first test holds the body, and after each body, where the second test holds, the step
/// and the body again.
#[derive(Drop)]
#[cycle(flow)]
pub struct Turns {
    pub first: Code,
    pub body: Flow,
    pub again: Code,
    pub step: Fragment,
}

/// What a flow is made of.
#[derive(Drop)]
#[cycle(flow)]
pub enum FlowForm {
    /// No code.
    Nothing,
    Straight(Code),
    /// One after another.
    Block(Vec<Flow>),
    /// A jump to the end of the innermost LOOP.
    Exit,
    /// The body of the first arm whose test holds, else the other one, if there is one.
    Choice(Vec<Arm>, Option<Box<Flow>>),
    WhileTrue(Fragment, Box<Flow>),
    UntilTrue(Box<Flow>, Fragment),
    ForEver(Box<Flow>),
    Counted(Box<Turns>),
    /// A statement that has a temporary cell of its own, the next one.
    WithCell(Box<Flow>),
    /// Statements in a WITH, whose record's address is in the cell.
    InWith(Box<Flow>),
}
