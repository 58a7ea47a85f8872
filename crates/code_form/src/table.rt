//! The one table: opcode, name, operands with their kinds, and effect of each instruction.

/// Calls a macro with the table.
macro_rules! instructions {
    ($use:ident $args:tt) => {
        $use! { $args
            0x01 Push(v: value) => Effect::Changes(0, 1);
            0x02 Local(h: number, o: number) => Effect::Changes(0, 1);
            0x03 Global(m: number, o: number) => Effect::Changes(0, 1);
            0x04 Str(o: number) => Effect::Changes(0, 1);
            0x05 Load => Effect::Changes(1, 1);
            0x06 Store => Effect::Changes(2, 0);
            0x07 Move(n: number) => Effect::Changes(2, 0);
            0x08 Dup => Effect::Changes(1, 2);
            0x09 Offset(n: number) => Effect::Changes(1, 1);
            0x0a Index(low: value, n: number, s: number) => Effect::Changes(2, 1);
            0x0b IndexOpen(s: number) => Effect::Changes(3, 1);
            0x0c Check(low: value, high: value) => Effect::Changes(1, 1);
            0x0d Nil => Effect::Changes(1, 1);
            0x0e Add(b: flag) => Effect::Changes(2, 1);
            0x0f Sub(b: flag) => Effect::Changes(2, 1);
            0x10 Mul(b: flag) => Effect::Changes(2, 1);
            0x11 Div(b: flag) => Effect::Changes(2, 1);
            0x12 Mod(b: flag) => Effect::Changes(2, 1);
            0x13 Neg => Effect::Changes(1, 1);
            0x14 Abs => Effect::Changes(1, 1);
            0x15 Not => Effect::Changes(1, 1);
            0x16 Eq => Effect::Changes(2, 1);
            0x17 Ne => Effect::Changes(2, 1);
            0x18 Lt => Effect::Changes(2, 1);
            0x19 Le => Effect::Changes(2, 1);
            0x1a Gt => Effect::Changes(2, 1);
            0x1b Ge => Effect::Changes(2, 1);
            0x1c Union => Effect::Changes(2, 1);
            0x1d Diff => Effect::Changes(2, 1);
            0x1e Inter => Effect::Changes(2, 1);
            0x1f SymDiff => Effect::Changes(2, 1);
            0x20 Subset => Effect::Changes(2, 1);
            0x21 Superset => Effect::Changes(2, 1);
            0x22 In => Effect::Changes(2, 1);
            0x23 Bit => Effect::Changes(1, 1);
            0x24 Span => Effect::Changes(2, 1);
            0x25 Jump(j: distance) => Effect::Changes(0, 0);
            0x26 JumpFalse(j: distance) => Effect::Changes(1, 0);
            0x27 AndJump(j: distance) => Effect::Changes(1, 0);
            0x28 OrJump(j: distance) => Effect::Changes(1, 0);
            0x29 More(c: value) => Effect::Changes(2, 1);
            0x2a Call(p: number, h: number) => Effect::CallsOwn(*p);
            0x2b CallX(m: number, k: number) => Effect::CallsImport(*m, *k);
            0x2c CallVar(n: number, r: number) => Effect::Changes(*n as u64 + 1, *r as u64);
            0x2d Proc(m: number, k: number) => Effect::Changes(0, 1);
            0x2e Return => Effect::GivesResult;
            0x2f Trap(c: trap) => Effect::Changes(0, 0);
            0x30 New(n: count) => Effect::Changes(1, 0);
            0x31 OpenCopy(o: number, s: number) => Effect::Changes(0, 0);
            0x32 Halt => Effect::Changes(0, 0);
            0x33 Cap => Effect::Changes(1, 1);
        }
    };
}

pub(crate) use instructions;
