//! Laws on the static rules, each the contract of a function that does nothing.
ghost use Rattle.std.specs.Prelude.{◌≡◌, ◌+◌, ◌<◌, ◌≤◌, ◌^◌, ℕ, List, [], ◌∷◌, Option, Some, None, true, length};
ghost use Rattle.std.specs.Prelude.{flat_map, slice_get};
ghost use Rattle.ll_grammar.specs.Texts.{Spells};
ghost use Rattle.m2_base.specs.Finished.{AreRead, HasNoProcedure, IsFinished, lone_trees, main_tokens};
ghost use Rattle.m2_base.specs.Grammar.{grammar, levels, stream};
ghost use Rattle.m2_base.specs.Lists.{Each, HasNoRepeats, IsPrefixOf, WhereKept};
ghost use Rattle.m2_base.specs.Names.{standard_names};
ghost use Rattle.m2_base.specs.Rows.{Row, Place, at_place, IsWellFormed, IsValue};
ghost use Rattle.m2_base.specs.Statics.BlockRows.{declare_block};
ghost use Rattle.m2_base.specs.Statics.Blocks.{BlockTree, UnitTrees, GoesDown, blocks_of, home_of};
ghost use Rattle.m2_base.specs.Statics.Contexts.{Context, Scene, Source, row_at};
ghost use Rattle.m2_base.specs.Statics.Declarations.{declare};
ghost use Rattle.m2_base.specs.Statics.FormedRows.{AreConsecutive, AreRight, IsReady, IsRight, IsSoundBlock};
ghost use Rattle.m2_base.specs.Statics.FormedRows.{IsSoundText};
ghost use Rattle.m2_base.specs.Statics.Items.{Item, items_of};
ghost use Rattle.m2_base.specs.Statics.Layouts.{all_brought, laid_shapes, with_brought};
ghost use Rattle.m2_base.specs.Statics.NewRows.{AreNew};
ghost use Rattle.m2_base.specs.Statics.Ranges.{Range};
ghost use Rattle.m2_base.specs.Statics.ShapedRows.{AreShaped};
ghost use Rattle.m2_base.specs.Statics.SoundTrees.{IsSoundItem};
ghost use Rattle.m2_base.specs.Statics.Shapes.{item_shapes};
ghost use Rattle.m2_base.specs.Statics.StandingTrees.{IsStandingStream, StandsIn};
ghost use Rattle.m2_base.specs.Statics.Types.{is_same, stands_for, range_of};
ghost use Rattle.m2_base.specs.Statics.UnitNotes.{declaration_diags};
ghost use Rattle.m2_base.specs.Statics.UnitRows.{unit_rows};
ghost use Rattle.m2_base.specs.Statics.ReadTrees.{IsReadItem, IsReadToken};
ghost use Rattle.m2_base.specs.StreamsOf.{stream_of};
ghost use Rattle.m2_base.specs.Trees.{Stream as StreamTree, StreamKind as KindOfStream, Main};
ghost use Rattle.m2_base.specs.Units.{UnitTexts};
ghost use Rattle.m2_base.specs.declared.limits.TheConstants.{MOST_BROUGHT};
ghost use Rattle.m2_base.specs.declared.notes.Diag.{Diag};
ghost use Rattle.m2_base.specs.declared.token.Token.{Token};

/// That two types are the same is an equivalence.
pub fn same_is_an_equivalence()
    ensures reflexive { (scene : Scene) (t : Place) → is_same scene t t ≡ true }
    ensures symmetric { (scene : Scene) (t u : Place) → is_same scene t u ≡ true → is_same scene u t ≡ true }
    ensures transitive { (scene : Scene) (t u v : Place) → is_same scene t u ≡ true → is_same scene u v ≡ true
        → is_same scene t v ≡ true }
{}

/// The range of a type lies within the values of whole constants.
pub fn ranges_are_whole()
    ensures { (scene : Scene) (t : Place) (r : Range) (names : ℕ)
        → IsWellFormed names (stands_for scene t) (row_at scene.tables (stands_for scene t))
        → range_of scene t ≡ Some r → IsValue r.low × IsValue r.high }
{}

/// The rows of an item, and those of a block, are those of its syntax with those of the names that imports bring: as
/// many, and each has its name or none, its kind and its token. Not too many are brought.
pub fn rows_have_their_shapes()
    ensures items { (c : Context) (kind : KindOfStream) (x : Item) (cell : ℕ)
        → AreShaped (with_brought (item_shapes x) (declare c kind x cell).value.brought) (declare c kind x cell).rows }
    ensures blocks { (source : Source) (tables : List (List Row)) (b : BlockTree)
        → AreShaped (laid_shapes (items_of b.tree) (declare_block source tables b).value.brought)
        (declare_block source tables b).rows }
    ensures count { (source : Source) (tables : List (List Row)) (b : BlockTree)
        → length (declare_block source tables b).rows ≡ length (flat_map item_shapes (items_of b.tree))
        + length (all_brought (declare_block source tables b).value.brought) }
    ensures few { (source : Source) (tables : List (List Row)) (b : BlockTree)
        → length (all_brought (declare_block source tables b).value.brought) ≤ MOST_BROUGHT }
{}

/// Every chain goes down, where the own definition comes before the module: all its scopes but the first have smaller
/// numbers than the block's.
pub fn chains_go_down()
    ensures { (u : UnitTrees) → WhereKept u.own (λ s. s < home_of u) → Each GoesDown (blocks_of u) }
{}

/// The second row of a name in a scope has no name: each row that an item makes is new in its scope, or nameless.
pub fn second_rows_are_nameless()
    ensures items { (c : Context) (kind : KindOfStream) (x : Item) (cell : ℕ)
        → AreNew c.scene (declare c kind x cell).rows }
    ensures blocks { (source : Source) (tables : List (List Row)) (b : BlockTree) → b.block.scope ≤ length tables
        → HasNoRepeats (λ r. r.name) (declare_block source tables b).rows }
{}

/// The items of a stream are as read, where the tokens are that spell its tree; and then they are sound.
pub fn items_are_read()
    ensures read { (names : List (List ℕ)) (kind : KindOfStream) (tree : StreamTree) (tokens : List Token)
        → Spells grammar levels (stream kind) (stream_of kind) tree tokens → Each (IsReadToken names) tokens
        → Each (IsReadItem names) (items_of tree) }
    ensures sound { (names : List (List ℕ)) (x : Item) → IsReadItem names x → IsSoundItem (length names) x }
{}

/// The rows of a block are right, each at its place: well formed, and each array and record has a cell. The block
/// stands over scopes of which this holds, and its tree has the numbers and names that tokens have.
/// So are the rows of a unit.
pub fn rows_are_right()
    ensures blocks { (names : ℕ) (source : Source) (tables : List (List Row)) (b : BlockTree)
        → IsReady names source tables b → (k : ℕ) (r : Row) → slice_get (declare_block source tables b).rows k ≡ Some r
        → IsRight names (at_place b.block.scope k) r }
    ensures units { (names : List (List ℕ)) (u : UnitTrees) → IsPrefixOf standard_names names
        → 0 < length names → length names ≤ 2 ^ 32 → IsSoundText u.source → AreConsecutive 1 (blocks_of u)
        → Each (IsSoundBlock (length names) u.source) (blocks_of u) → AreRight (length names) (unit_rows u) }
{}

/// The texts of a unit have one list of trees at most, and so it has one list of finished rows at most.
pub fn one_table()
    ensures trees { (u : UnitTexts) (these those : UnitTrees) → AreRead u these → AreRead u those → these ≡ those }
    ensures rows { (u : UnitTexts) (these those : List (List Row)) → IsFinished u these → IsFinished u those
        → these ≡ those }
    ensures read { (u : UnitTexts) (trees : UnitTrees) (tables : List (List Row)) → AreRead u trees
        → IsFinished u tables → tables ≡ unit_rows trees }
{}

/// A unit of one text in which no procedure begins has the tree of its stream.
pub fn lone_modules_are_read()
    ensures { (u : UnitTexts) (tree : StreamTree) → u.order ≡ [] → u.own ≡ None → HasNoProcedure (main_tokens u)
        → Spells grammar levels (stream Main) (stream_of Main) tree (main_tokens u) → AreRead u (lone_trees u tree) }
{}

/// Each diagnostic of the declarations stands at a token of the text, where the blocks' trees name no others: so it is
/// with the trees that the tokens spell. A unit is meant here that has no definition of its own.
pub fn diagnostics_stand_at_tokens()
    ensures read { (n : ℕ) (kind : KindOfStream) (tree : StreamTree) (tokens : List Token)
        → Spells grammar levels (stream kind) (stream_of kind) tree tokens → Each (λ (t : Token). t.at < n) tokens
        → IsStandingStream n tree }
    ensures noted { (n : ℕ) (c : Context) (kind : KindOfStream) (x : Item) (cell : ℕ) → StandsIn n x
        → Each (λ (d : Diag). d.at < n) (declare c kind x cell).diags }
    ensures units { (n : ℕ) (u : UnitTrees) → u.own ≡ None
        → Each (λ (b : BlockTree). IsStandingStream n b.tree) (blocks_of u)
        → Each (λ (d : Diag). d.at < n) (declaration_diags u) }
    ensures lone { (n : ℕ) (u : UnitTrees) (tree : StreamTree) → u.own ≡ None → u.definitions ≡ [] → u.main ≡ tree ∷ []
        → IsStandingStream n tree → Each (λ (d : Diag). d.at < n) (declaration_diags u) }
{}
