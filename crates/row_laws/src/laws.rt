//! Laws on the numbers of finished rows, each the contract of a function that does nothing.
ghost use Rattle.std.specs.Prelude.{◌≡◌, ℕ, ◌<◌, List, [], ◌∷◌};
ghost use Rattle.ll_grammar.specs.Texts.{Spells};
ghost use Rattle.m2_base.specs.Finished.{AreRead};
ghost use Rattle.m2_base.specs.Grammar.{grammar, levels, stream};
ghost use Rattle.m2_base.specs.Standard.{standard_rows};
ghost use Rattle.m2_base.specs.Statics.BlockRows.{declare_block};
ghost use Rattle.m2_base.specs.Statics.Blocks.{UnitTrees, blocks_of, home_of};
ghost use Rattle.m2_base.specs.Lists.{Each};
ghost use Rattle.m2_base.specs.Rows.{row_meaning};
ghost use Rattle.row_laws.specs.Definitions.{IsAsNoted};
ghost use Rattle.m2_base.specs.Statics.Items.{items_of};
ghost use Rattle.m2_base.specs.Statics.ReadTrees.{IsReadItem};
ghost use Rattle.m2_base.specs.Statics.UnitNotes.{complete_context};
ghost use Rattle.m2_base.specs.Statics.UnitRows.{unit_rows};
ghost use Rattle.m2_base.specs.StreamsOf.{stream_of};
ghost use Rattle.m2_base.specs.Trees.{Stream};
ghost use Rattle.m2_base.specs.Units.{UnitTexts};
ghost use Rattle.m2_base.specs.declared.token.Token.{Token};
ghost use Rattle.m2_base.specs.declared.trees.declarations.StreamKind.{StreamKind as KindOfStream};
ghost use Rattle.row_laws.specs.Clear.{AreClear};
ghost use Rattle.row_laws.specs.Headings.{HasSoundHeadings};
ghost use Rattle.row_laws.specs.Procedures.{ProceduresAreDeclared};
ghost use Rattle.row_laws.specs.Results.{BindsItsResult};
ghost use Rattle.row_laws.specs.RowRanges.{BlockInRange, CellsAreThere, EachBlock, IsSoundUnit, OwnCellsAreThere};
ghost use Rattle.row_laws.specs.Sight.{LeadsInSight};
ghost use Rattle.row_laws.specs.TextTrees.{AreOfTexts, IsTreeOf};
ghost use Rattle.row_laws.specs.UnitBlocks.{HasItsBlocks};

/// The finished rows of a unit keep to the ranges of operands, and its blocks declare what does. The cells of a
/// block's variables, of an implementation module's own definition too, and of what a procedure's body copies first
/// are the block's, unless those are too many.
pub fn rows_are_in_range()
    ensures ranges { (names : List (List ℕ)) (u : UnitTrees) → IsSoundUnit names u → EachBlock
        (λ before b. BlockInRange u.source before (unit_rows u) b) u.source (standard_rows ∷ []) (blocks_of u) }
    ensures cells { (names : List (List ℕ)) (u : UnitTrees) → IsSoundUnit names u → EachBlock
        (λ before b. CellsAreThere (declare_block u.source before b).rows (declare_block u.source before b).value)
        u.source (standard_rows ∷ []) (blocks_of u) }
    ensures own_cells { (names : List (List ℕ)) (u : UnitTrees) → IsSoundUnit names u
        → EachBlock (λ before b. OwnCellsAreThere (unit_rows u) b (declare_block u.source before b).value) u.source
        (standard_rows ∷ []) (blocks_of u) }
{}

/// Each row of a procedure in a block is that of a procedure which the block declares. In a definition its number is
/// that of its heading's note; elsewhere it is the number of its scope less the module's.
pub fn procedures_are_declared()
    ensures { (names : List (List ℕ)) (u : UnitTrees) → IsSoundUnit names u
        → EachBlock (λ before b. ProceduresAreDeclared u b (declare_block u.source before b)) u.source
        (standard_rows ∷ []) (blocks_of u) }
{}

/// What a block sees leads to what it sees: in its statements every module and every alias leads to a scope of its
/// chain or to one before its module's.
pub fn sight_is_closed()
    ensures { (names : List (List ℕ)) (u : UnitTrees) → IsSoundUnit names u → AreOfTexts u
        → EachBlock (λ before b. LeadsInSight (complete_context u.source (unit_rows u) b.block).scene) u.source
        (standard_rows ∷ []) (blocks_of u) }
{}

/// The tree of a stream is of its kind: a module's has a name and no heading,
/// a procedure's has a heading and imports nothing.
pub fn trees_are_of_their_kinds()
    ensures { (kind : KindOfStream) (tree : Stream) (tokens : List Token)
        → Spells grammar levels (stream kind) (stream_of kind) tree tokens → IsTreeOf kind tree }
{}

/// Each row of a procedure in a definition module is that of a heading, whose note has the cells and the result that
/// the procedure's type has in each block that sees it; the cells of its variables are there.
pub fn definitions_are_as_noted()
    ensures { (names : List (List ℕ)) (u : UnitTrees) → IsSoundUnit names u → AreOfTexts u → EachBlock (λ before d.
        d.block.scope < home_of u → Each (λ r. IsAsNoted u d (declare_block u.source before d).value (row_meaning r))
        (declare_block u.source before d).rows) u.source (standard_rows ∷ []) (blocks_of u) }
{}

/// The blocks of a unit of read texts have the forms of their kinds, and each procedure that is declared in a main
/// block is a block of the unit. Its trees are of the kinds of their texts.
pub fn blocks_have_their_forms()
    ensures blocks { (texts : UnitTexts) (u : UnitTrees) → AreRead texts u → HasItsBlocks u }
    ensures trees { (texts : UnitTexts) (u : UnitTrees) → AreRead texts u → AreOfTexts u }
{}

/// In a unit whose declarations have no diagnostic no parameter of the headings of an implementation module and of its
/// own definition is in error, seen from the module's block. The names in the trees aren't empty:
/// rows without a name are found by the empty one.
pub fn headings_are_sound()
    ensures { (names : List (List ℕ)) (u : UnitTrees) → IsSoundUnit names u
        → Each (λ b. Each (IsReadItem names) (items_of b.tree)) (blocks_of u)
        → EachBlock (λ before b. (declare_block u.source before b).diags ≡ []) u.source
        (standard_rows ∷ []) (blocks_of u) → HasSoundHeadings u }
{}

/// In a unit whose declarations have no diagnostic all rows in sight of a block are clear: no part of them is in
/// error, and each name leads to something.
pub fn rows_are_clear()
    ensures { (names : List (List ℕ)) (u : UnitTrees) → IsSoundUnit names u
        → Each (λ b. Each (IsReadItem names) (items_of b.tree)) (blocks_of u) → EachBlock
        (λ before b. (declare_block u.source before b).diags ≡ []) u.source (standard_rows ∷ []) (blocks_of u)
        → EachBlock (λ before b. AreClear (complete_context u.source (unit_rows u) b.block).scene.tables) u.source
        (standard_rows ∷ []) (blocks_of u) }
{}

/// What the heading of a procedure gives as its result, where nothing of its block is declared yet, is what it binds
/// where all rows of the block count, as they do in its statements:
/// a name of the block itself stands for nothing in it.
pub fn results_are_bound()
    ensures { (names : List (List ℕ)) (u : UnitTrees) → IsSoundUnit names u
        → EachBlock (BindsItsResult u) u.source (standard_rows ∷ []) (blocks_of u) }
{}
