//! Laws on the trees of a unit's texts, each the contract of a function that does nothing.
ghost use Rattle.std.specs.Prelude.{◌≡◌, ◌-◌, ◌≤◌, [], ◌∷◌};
ghost use Rattle.block_laws.specs.Named.{procedure_of};
ghost use Rattle.block_laws.specs.Worlds.{unit_world};
ghost use Rattle.code_form.specs.Valid.{IsValidCode};
ghost use Rattle.m2_base.specs.Finished.{AreRead};
ghost use Rattle.m2_base.specs.Lists.{Each};
ghost use Rattle.m2_base.specs.Standard.{standard_rows};
ghost use Rattle.m2_base.specs.Statics.Blocks.{UnitTrees, blocks_of, home_of};
ghost use Rattle.m2_base.specs.Statics.FormedRows.{IsImportedBefore};
ghost use Rattle.m2_base.specs.Statics.Items.{items_of};
ghost use Rattle.m2_base.specs.Statics.ReadStatements.{AreReadStatements};
ghost use Rattle.m2_base.specs.Statics.ReadTrees.{IsReadItem};
ghost use Rattle.m2_base.specs.Statics.UnitRows.{unit_rows};
ghost use Rattle.m2_base.specs.Units.{Front, IsUnit, IsWholeBy, TextOf, UnitTexts};
ghost use Rattle.row_laws.specs.RowRanges.{EachBlock, IsSoundUnit};
ghost use Rattle.block_code.specs.BlockCode.{block_code, block_diags};
ghost use Rattle.block_code.specs.FlowLengths.{most_tokens};
ghost use Rattle.stream_split.specs.Fronts.{AreFronts};
ghost use Rattle.block_code.specs.StatementTokens.{block_tokens};

/// Each module that a block imports, and each from which it imports names, has a scope before the block's: where
/// nothing is left out of the unit by the fronts of its texts, and these are what the grammar tells.
pub fn imports_come_before()
    ensures { (texts : UnitTexts) (u : UnitTrees) (front : TextOf → Front)
        → IsUnit texts → AreRead texts u → AreFronts front texts → IsWholeBy front texts
        → Each (λ b. Each (IsImportedBefore u.source b.block.scope) (items_of b.tree)) (blocks_of u) }
{}

/// The trees of a unit's texts are sound, where each module that is imported has a scope before the block's.
pub fn units_are_sound()
    ensures { (texts : UnitTexts) (u : UnitTrees) → IsUnit texts → AreRead texts u
        → Each (λ b. Each (IsImportedBefore u.source b.block.scope) (items_of b.tree)) (blocks_of u)
        → IsSoundUnit texts.names u }
{}

/// The items and the statements of each block of a unit's texts are as read.
pub fn trees_are_read()
    ensures items { (texts : UnitTexts) (u : UnitTrees) → IsUnit texts → AreRead texts u
        → Each (λ b. Each (IsReadItem texts.names) (items_of b.tree)) (blocks_of u) }
    ensures statements { (texts : UnitTexts) (u : UnitTrees) → IsUnit texts → AreRead texts u
        → Each (λ b. AreReadStatements texts.names b.tree.body) (blocks_of u) }
{}

/// Each block of a unit's texts is made of no more tokens than one text has.
pub fn blocks_are_short()
    ensures { (texts : UnitTexts) (u : UnitTrees) → IsUnit texts → AreRead texts u
        → Each (λ b. block_tokens b.tree ≤ most_tokens) (blocks_of u) }
{}

/// The code of each block of a unit's main text, the module's and each procedure's, is valid among the unit's cells,
/// imports and procedures, where no block of the unit has a diagnostic,
/// and each module that is imported has a scope before the block's.
pub fn unit_code_is_valid()
    ensures { (texts : UnitTexts) (u : UnitTrees) → IsUnit texts → AreRead texts u
        → Each (λ b. Each (IsImportedBefore u.source b.block.scope) (items_of b.tree)) (blocks_of u) → EachBlock
        (λ before b. block_diags u.source before (unit_rows u) b ≡ []) u.source (standard_rows ∷ []) (blocks_of u)
        → EachBlock (λ before b. home_of u ≤ b.block.scope → IsValidCode (unit_world u) (b.block.scope - home_of u)
        (procedure_of (block_code u.source before (unit_rows u) b))) u.source (standard_rows ∷ []) (blocks_of u) }
{}
