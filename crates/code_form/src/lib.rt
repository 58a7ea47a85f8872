//! What is an instruction, and which bytes spell it?
//!
//! One table (`specs/Instructions`, `src/table.rt`) gives each instruction's opcode, name, operands and effect on the
//! stack's height. From it come the bytes that spell an instruction, the instruction that bytes begin with, its size,
//! its effect, and whether its operands are in their ranges. No spelling begins another, so code is one list of
//! instructions at most. The layers above use `encode`, `decode`, the methods of `Instr`, and the definition of valid
//! code (`specs/Valid`).
#![tactic(auto)]

mod effect;
mod instr;
mod laws;
mod line;
mod operand;
mod read;
mod table;
mod write;

pub use effect::Effect;
pub use instr::Instr;
pub use laws::{one_spelling, spelling_size};
pub use read::decode;
pub use write::encode;
