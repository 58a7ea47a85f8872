//! Laws on the code of statements and blocks, each the contract of a function that does nothing.
ghost use Rattle.code_form.specs.Modules.{Procedure, World};
ghost use Rattle.code_form.specs.Valid.{IsValidCode, callees_of};
ghost use Rattle.code_form.specs.Heights.{Callees};
ghost use Rattle.std.specs.Prelude.{◌≡◌, ℕ, List, [], length, ◌*◌, ◌^◌, ◌<◌, ◌≤◌};
ghost use Rattle.m2_base.specs.declared.rows.Row.{Row};
ghost use Rattle.m2_base.specs.Statics.BlockRows.{declare_block};
ghost use Rattle.m2_base.specs.Statics.Blocks.{BlockTree};
ghost use Rattle.m2_base.specs.Statics.Contexts.{Source};
ghost use Rattle.m2_base.specs.Statics.UnitNotes.{complete_context};
ghost use Rattle.m2_base.specs.Trees.{Statements};
ghost use Rattle.block_code.specs.Lengths.{bytes_for_token};
ghost use Rattle.block_code.specs.BlockCode.{block_code, body_of, run_of};
ghost use Rattle.block_code.specs.FlowHeights.{KeepsHeight, Stands};
ghost use Rattle.block_code.specs.FlowLengths.{IsShortFor, most_tokens};
ghost use Rattle.block_code.specs.Places.{CallsAgree, NameThere, OthersInRange, ProceduresAgree, block_steps};
ghost use Rattle.block_code.specs.Statements.{Stand, flow_of};
ghost use Rattle.block_code.specs.StatementTokens.{block_tokens, statements_tokens};

/// Wherever they stand, statements find what they take and leave the height as it was, and each of their jumps goes to
/// an instruction at the height that the jump leaves. So does the code of every block,
/// from its first instruction to its last.
pub fn heights_are_right()
    ensures statements { (s : Stand) (body : Statements) → KeepsHeight (flow_of s body).value }
    ensures blocks { (source : Source) (before all : List (List Row)) (b : BlockTree) → Stands [] 0 0 ((run_of b
        (declare_block source before b).value (body_of (complete_context source all b.block) b).value).code 0) 0 }
{}

/// Wherever they stand, the code of statements has at most 64 bytes for each of their tokens, and so has a block's
/// code; that of a block of a text that isn't too long has fewer than 2 ^ 31 bytes.
pub fn code_is_short()
    ensures statements { (s : Stand) (body : Statements) → IsShortFor (statements_tokens body) (flow_of s body).value }
    ensures blocks { (source : Source) (before all : List (List Row)) (b : BlockTree)
        → length (block_code source before all b).code ≤ bytes_for_token * block_tokens b.tree }
    ensures in_range { (source : Source) (before all : List (List Row)) (b : BlockTree)
        → block_tokens b.tree ≤ most_tokens → length (block_code source before all b).code < 2 ^ 31 }
{}

/// The code of a block of a text that isn't too long is valid where each instruction but the jumps has its operands in
/// their ranges and names what is there, and where calls and returns take and leave what is told of the callees. What
/// else valid code asks for holds of itself: jumps are in range and go to instructions, heights agree, a return finds
/// the result alone, the last instruction ends, and the greatest height is the one that is told.
pub fn code_is_valid()
    ensures blocks { (source : Source) (before all : List (List Row)) (b : BlockTree)
        (w : World) (k : ℕ) (p : Procedure) → let steps = block_steps source before all b in
        p.code ≡ (block_code source before all b).code → p.high ≡ (block_code source before all b).high
        → block_tokens b.tree ≤ most_tokens → OthersInRange steps → CallsAgree (callees_of w p) steps
        → NameThere w k p steps → IsValidCode w k p }
{}

/// Each return of a block's code takes what the block's procedure gives, one operand in a function and else none:
/// where the calls of procedures take and leave what is told of the callees, so do the returns.
pub fn returns_agree()
    ensures blocks { (source : Source) (before all : List (List Row)) (b : BlockTree) (c : Callees)
        → c.result ≡ (block_code source before all b).result → ProceduresAgree c (block_steps source before all b)
        → CallsAgree c (block_steps source before all b) }
{}
