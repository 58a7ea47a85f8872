//! Laws on the definitions, each the contract of a function that does nothing.
ghost use Rattle.std.specs.Prelude.{◌≡◌, ℕ, ◌-◌, ◌≤◌, List, [], ◌∷◌};
ghost use Rattle.ll_grammar.specs.Texts.{Spells};
ghost use Rattle.code_form.specs.Modules.{World};
ghost use Rattle.code_form.specs.Valid.{IsValidCode};
ghost use Rattle.block_code.specs.Whole.{AreWhole};
ghost use Rattle.m2_base.specs.declared.rows.Row.{Row};
ghost use Rattle.m2_base.specs.Grammar.{grammar, levels, stream};
ghost use Rattle.m2_base.specs.Finished.{AreRead};
ghost use Rattle.m2_base.specs.Lists.{Each};
ghost use Rattle.m2_base.specs.Standard.{standard_rows};
ghost use Rattle.m2_base.specs.Statics.Blocks.{BlockTree, UnitTrees, blocks_of, home_of, main_block};
ghost use Rattle.m2_base.specs.Statics.UnitNotes.{complete_context};
ghost use Rattle.m2_base.specs.Statics.UnitRows.{unit_rows};
ghost use Rattle.m2_base.specs.Statics.ReadTrees.{IsReadItem, IsReadToken};
ghost use Rattle.m2_base.specs.Statics.Items.{items_of};
ghost use Rattle.m2_base.specs.StreamsOf.{stream_of};
ghost use Rattle.m2_base.specs.Trees.{Stream};
ghost use Rattle.m2_base.specs.Units.{UnitTexts};
ghost use Rattle.m2_base.specs.declared.token.Token.{Token};
ghost use Rattle.m2_base.specs.declared.trees.declarations.StreamKind.{StreamKind as KindOfStream};
ghost use Rattle.m2_base.specs.Statics.Contexts.{Source};
ghost use Rattle.m2_base.specs.Statics.BlockRows.{declare_block};
ghost use Rattle.block_code.specs.BlockCode.{block_code, block_diags};
ghost use Rattle.block_code.specs.FlowLengths.{most_tokens};
ghost use Rattle.block_code.specs.StatementTokens.{block_tokens};
ghost use Rattle.block_code.specs.Places.{OthersInRange, block_steps};
ghost use Rattle.block_laws.specs.Lone.{IsLone, IsLoneTree, lone_unit, lone_world};
ghost use Rattle.block_laws.specs.Named.{BlockNamesThere, procedure_of};
ghost use Rattle.m2_base.specs.Statics.ReadStatements.{AreReadStatements};
ghost use Rattle.row_laws.specs.RowRanges.{BlockInRange, EachBlock, IsSoundUnit};
ghost use Rattle.block_laws.specs.Results.{ReturnsItsResult};
ghost use Rattle.block_laws.specs.Sight.{IsInSight, Sees};
ghost use Rattle.block_laws.specs.Worlds.{unit_world};
ghost use Rattle.block_laws.specs.MainBlocks.{IsMainBlock};
ghost use Rattle.row_laws.specs.TextTrees.{AreOfTexts};

/// The statements of a stream are as read, where the tokens are that spell its tree.
pub fn statements_are_read()
    ensures { (names : List (List ℕ)) (kind : KindOfStream) (tree : Stream) (tokens : List Token)
        → Spells grammar levels (stream kind) (stream_of kind) tree tokens → Each (IsReadToken names) tokens
        → AreReadStatements names tree.body }
{}

/// Each instruction of a block's code that doesn't jump has its operands in their ranges, where the rows and the
/// numbers of the statements are in theirs.
pub fn operands_in_range()
    ensures blocks { (names : List (List ℕ)) (source : Source) (before all : List (List Row)) (b : BlockTree)
        → BlockInRange source before all b → AreReadStatements names b.tree.body
        → OthersInRange (block_steps source before all b) }
    ensures units { (names : List (List ℕ)) (u : UnitTrees) → IsSoundUnit names u
        → Each (λ b. AreReadStatements names b.tree.body) (blocks_of u)
        → EachBlock (λ before b. OthersInRange (block_steps u.source before (unit_rows u) b)) u.source
        (standard_rows ∷ []) (blocks_of u) }
{}

/// The code of a block is valid where the block has no diagnostics, the numbers of its rows and statements are in
/// their ranges, and the rows in sight name what is there.
pub fn block_code_is_valid()
    ensures blocks { (names : List (List ℕ)) (source : Source) (before all : List (List Row))
        (b : BlockTree) (w : World) (k : ℕ) → BlockNamesThere (IsInSight b.block) w k source before all b
        → BlockInRange source before all b → AreReadStatements names b.tree.body → block_tokens b.tree ≤ most_tokens
        → block_diags source before all b ≡ [] → IsValidCode w k (procedure_of (block_code source before all b)) }
{}

/// The code of the only block of a unit of one text, without procedures, is valid where the block has no diagnostics:
/// beside what is asked above, its rows declare no procedure, and its variables have the cells that are told. Of the
/// rows nothing is asked where the unit has this text alone.
pub fn lone_code_is_valid()
    ensures blocks { (names : List (List ℕ)) (source : Source) (before all : List (List Row)) (b : BlockTree)
        → let p = procedure_of (block_code source before all b) in
        IsLone source before all b → BlockInRange source before all b → AreReadStatements names b.tree.body
        → block_tokens b.tree ≤ most_tokens → block_diags source before all b ≡ []
        → IsValidCode (lone_world (declare_block source before b).value.cell p) 0 p }
    ensures units { (names : List (List ℕ)) (source : Source) (tree : Stream) → let u = lone_unit source tree in
        let b = main_block u tree in let p = procedure_of (block_code source (standard_rows ∷ []) (unit_rows u) b) in
        IsSoundUnit names u → IsLoneTree tree → AreReadStatements names tree.body
        → block_tokens tree ≤ most_tokens → block_diags source (standard_rows ∷ []) (unit_rows u) b ≡ []
        → IsValidCode (lone_world (declare_block source (standard_rows ∷ []) b).value.cell p) 0 p }
{}

/// The code of each block of a unit's main text is valid in the unit's world where no block has a diagnostic: the
/// unit's texts are read, its trees are sound, and what they hold was read from tokens of a text within its limit.
pub fn code_is_valid()
    ensures { (names : List (List ℕ)) (texts : UnitTexts) (u : UnitTrees) → IsSoundUnit names u
        → AreRead texts u → Each (λ b. AreReadStatements names b.tree.body) (blocks_of u)
        → Each (λ b. Each (IsReadItem names) (items_of b.tree)) (blocks_of u)
        → Each (λ b. block_tokens b.tree ≤ most_tokens) (blocks_of u) → EachBlock
        (λ before b. block_diags u.source before (unit_rows u) b ≡ []) u.source (standard_rows ∷ []) (blocks_of u)
        → EachBlock (λ before b. home_of u ≤ b.block.scope → IsValidCode (unit_world u) (b.block.scope - home_of u)
        (procedure_of (block_code u.source before (unit_rows u) b))) u.source (standard_rows ∷ []) (blocks_of u) }
{}

/// Each block of a unit's main text has code and a name, and what its code copies first stands below its temporary
/// cells. What any block sees leads to what it sees.
pub fn main_blocks_are_coded()
    ensures coded { (names : List (List ℕ)) (u : UnitTrees) → IsSoundUnit names u → AreOfTexts u
        → EachBlock (λ before b. home_of u ≤ b.block.scope → IsMainBlock u.source before b) u.source
        (standard_rows ∷ []) (blocks_of u) }
    ensures sight { (names : List (List ℕ)) (u : UnitTrees) → IsSoundUnit names u → AreOfTexts u
        → EachBlock (λ before b. Sees (IsInSight b.block) (complete_context u.source (unit_rows u) b.block).scene)
        u.source (standard_rows ∷ []) (blocks_of u) }
{}

/// In a unit in which no block has a diagnostic no row in sight of a block has a part in error: so what is in error in
/// its statements was refused there (`expr_sem`'s law on causes), and no code is lost without a word.
pub fn rows_are_whole()
    ensures { (names : List (List ℕ)) (texts : UnitTexts) (u : UnitTrees) → IsSoundUnit names u
        → AreRead texts u → Each (λ b. Each (IsReadItem names) (items_of b.tree)) (blocks_of u) → EachBlock
        (λ before b. block_diags u.source before (unit_rows u) b ≡ []) u.source (standard_rows ∷ []) (blocks_of u)
        → EachBlock (λ before b. AreWhole (complete_context u.source (unit_rows u) b.block).scene) u.source
        (standard_rows ∷ []) (blocks_of u) }
{}

/// What the heading of a procedure gives as its result, where nothing of its block is declared yet, is what its
/// statements return.
pub fn results_are_returned()
    ensures { (names : List (List ℕ)) (u : UnitTrees) → IsSoundUnit names u
        → EachBlock (ReturnsItsResult u) u.source (standard_rows ∷ []) (blocks_of u) }
{}
