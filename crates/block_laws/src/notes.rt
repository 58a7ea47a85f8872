//! Where do the diagnostics of a block stand?
//!
//! In the text of the block, at the tokens that its tree names. What statements note is the definition's (`stmt_sem`'s
//! `specs/Statements`, over `expr_sem`'s `specs/Expressions`), and so is what a whole block notes (its
//! `specs/BlockCode`); which tokens a tree names, `m2_base`'s `specs/Statics/StandingTrees` tells. There is no code
//! here: the functions do nothing, and their contracts are the laws, beside that of declarations in `m2_base`. Their
//! lemmas go over operands, standard procedures, calls, expressions, labels and statements, a file each in `proofs/`,
//! and say of the text and of any places at once that what is noted stands there.
ghost use Rattle.std.specs.Prelude.{◌≡◌, ℕ, ◌<◌, List};
ghost use Rattle.m2_base.specs.Lists.{Each};
ghost use Rattle.m2_base.specs.Statics.BlockRows.{declare_block};
ghost use Rattle.m2_base.specs.Statics.Blocks.{BlockTree};
ghost use Rattle.m2_base.specs.Statics.Contexts.{Source};
ghost use Rattle.m2_base.specs.Statics.StandingTrees.{AreStandingStatements, IsStandingStream};
ghost use Rattle.m2_base.specs.Tables.{rows_at};
ghost use Rattle.m2_base.specs.Trees.{Statements};
ghost use Rattle.m2_base.specs.declared.notes.Diag.{Diag};
ghost use Rattle.m2_base.specs.declared.rows.Row.{Row};
ghost use Rattle.block_code.specs.BlockCode.{block_diags};
ghost use Rattle.block_code.specs.Statements.{Stand, flow_of};

/// Each diagnostic of statements stands at a token of the text, whatever is declared and wherever the statements
/// stand, where their trees name no others: so it is with the trees that the tokens spell.
pub fn diagnostics_stand_at_tokens()
    ensures { (n : ℕ) (s : Stand) (ss : Statements) → AreStandingStatements n ss
        → Each (λ (d : Diag). d.at < n) (flow_of s ss).diags }
{}

/// Each diagnostic of a block, of its declarations, its closing check, its statements and its size, stands in the
/// block's text, whatever its tree is; and at a token of the text, where the tree names no others. The last is of a
/// block over the finished scopes, among which are its own rows, and a block of a module is the home of its own.
pub fn blocks_stand_in_their_texts()
    ensures texts { (source : Source) (before all : List (List Row)) (b : BlockTree)
        → Each (λ (d : Diag). d.text ≡ b.block.text) (block_diags source before all b) }
    ensures tokens { (n : ℕ) (source : Source) (before all : List (List Row)) (b : BlockTree)
        → IsStandingStream n b.tree → (b.block.level ≡ 0 → b.block.home ≡ b.block.scope) → rows_at all b.block.scope
        ≡ (declare_block source before b).rows → Each (λ (d : Diag). d.at < n) (block_diags source before all b) }
{}
