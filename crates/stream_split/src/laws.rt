//! What the streams of a main text say of it.
ghost use Rattle.std.specs.Prelude.{◌≡◌, ◌+◌, ◌<◌, ◌≤◌, ◌^◌, ◌++◌, ◌∷◌, [], ℕ, List, None, Some, flat_map, length};
ghost use Rattle.std.specs.Prelude.{map, slice_get, slice_index, take};
ghost use Rattle.std.specs.List.{AllZip};
ghost use Rattle.m2_base.specs.declared.outputs.StreamFault.{StreamFault};
ghost use Rattle.m2_base.specs.declared.token.Token.{Token};
ghost use Rattle.m2_base.specs.declared.rows.Row.{Row};
ghost use Rattle.m2_base.specs.declared.sites.Named.{Named};
ghost use Rattle.m2_base.specs.Finished.{AreRead, IsFinished, source_of, tokens_of};
ghost use Rattle.m2_base.specs.Statics.BlockLimits.{Begun, deepest_level, limit_of, procedures_of};
ghost use Rattle.m2_base.specs.Statics.BlockRows.{declare_block};
ghost use Rattle.m2_base.specs.Statics.Blocks.{BlockTree, UnitTrees, blocks_of};
ghost use Rattle.m2_base.specs.Statics.Bringing.{HaveBrought};
ghost use Rattle.m2_base.specs.Statics.Contexts.{Source};
ghost use Rattle.m2_base.specs.Lists.{Each};
ghost use Rattle.m2_base.specs.Statics.FormedRows.{IsImportedBefore};
ghost use Rattle.m2_base.specs.Statics.Items.{items_of};
ghost use Rattle.m2_base.specs.Statics.Layouts.{laid_shapes};
ghost use Rattle.m2_base.specs.Statics.ReadStatements.{AreReadStatements};
ghost use Rattle.m2_base.specs.Statics.ReadTrees.{IsReadItem};
ghost use Rattle.m2_base.specs.Statics.Shapes.{item_shapes};
ghost use Rattle.m2_base.specs.Tables.{rows_at};
ghost use Rattle.m2_base.specs.Trees.{Stream};
ghost use Rattle.m2_base.specs.Units.{AreNumbered, Front, IsUnit, IsWholeBy, TextOf, UnitTexts};
ghost use Rattle.m2_base.specs.WholeTexts.{SpellsDefinition, SpellsMain, IsFirstInDefinition, IsFirstInMain};
ghost use Rattle.stream_split.specs.Agreement.{SpellsStream, SpellsStreams, IsFaultOf, IsFirstOfStreams};
ghost use Rattle.stream_split.specs.Chains.{block_of, own_scope};
ghost use Rattle.stream_split.specs.Fronts.{AreFronts};
ghost use Rattle.stream_split.specs.Procedures.{HasProcedure, HasStream};
ghost use Rattle.stream_split.specs.Rooms.{most_rows, most_rows_of_scopes, rows_of};
ghost use Rattle.stream_split.specs.Sizes.{room_of, sizes_of};
ghost use Rattle.stream_split.specs.Streams.{StreamOf, definition_stream, main_number, main_streams, main_tokens};
ghost use Rattle.stream_split.specs.Streams.{module_stream, streams_of};
ghost use Rattle.stream_split.specs.Surroundings.{AreTreesOf, IsSurrounded, surroundings_of};

/// A main text has the trees that its streams have, stream by stream, and has them where each stream has one. Where it
/// has a first fault, that is the first of its streams' faults, and so the other way round.
pub fn streams_agree_with_the_text()
    ensures trees { (m : ℕ) (ts : List Token) (trees : List Stream) → SpellsMain m trees ts
        → SpellsStreams trees (main_streams m ts) }
    ensures whole { (m : ℕ) (ts : List Token) (trees : List Stream) → AreNumbered 0 ts
        → SpellsStreams trees (main_streams m ts) → SpellsMain m trees ts }
    ensures fault { (m text : ℕ) (ts : List Token) (fault : StreamFault) → AreNumbered 0 ts
        → IsFirstInMain text fault ts → IsFirstOfStreams text fault (main_streams m ts) }
    ensures refused { (m text : ℕ) (ts : List Token) (fault : StreamFault) → AreNumbered 0 ts
        → IsFirstOfStreams text fault (main_streams m ts) → IsFirstInMain text fault ts }
{}

/// A definition text has the tree that its one stream has, and its first fault is the stream's.
pub fn definition_streams_agree_with_the_text()
    ensures trees { (j k : ℕ) (ts : List Token) (trees : List Stream) → SpellsDefinition trees ts
        → SpellsStreams trees (definition_stream j k ts ∷ []) }
    ensures whole { (j k : ℕ) (ts : List Token) (trees : List Stream)
        → SpellsStreams trees (definition_stream j k ts ∷ []) → SpellsDefinition trees ts }
    ensures fault { (j k text : ℕ) (ts : List Token) (fault : StreamFault) → IsFirstInDefinition text fault ts
        → IsFaultOf text fault (definition_stream j k ts) }
    ensures refused { (j k text : ℕ) (ts : List Token) (fault : StreamFault)
        → IsFaultOf text fault (definition_stream j k ts) → IsFirstInDefinition text fault ts }
{}

/// The streams of a unit stand in the order of their numbers, from 1 on: also where a text has a syntax error. Behind
/// those of the definition modules and of the main module there is one for each procedure that begins in the main
/// text, with its level and its first token. What surrounds the block of a stream comes before it, and where the main
/// text passes no limit, no stream lies in more than sixteen procedures.
pub fn streams_have_their_places()
    ensures numbers { (u : UnitTexts) (k : ℕ) (s : StreamOf) → slice_get (streams_of u) k ≡ Some s → s.stream ≡ k + 1 }
    ensures definitions { (u : UnitTexts) (k n : ℕ) → slice_get u.order k ≡ Some n
        → slice_get (streams_of u) k ≡ Some (definition_stream (k + 1) n (tokens_of u n)) }
    ensures main { (u : UnitTexts) (s : StreamOf) → slice_get (streams_of u) (length u.order) ≡ Some s
        → s ≡ module_stream (main_number u) s.tokens }
    ensures count { (u : UnitTexts) → IsUnit u
        → length (streams_of u) ≡ main_number u + length (procedures_of (main_tokens u)) }
    ensures procedures { (u : UnitTexts) (k : ℕ) (p : Begun) → IsUnit u → slice_get (procedures_of (main_tokens u)) k
        ≡ Some p → HasStream (streams_of u) (main_number u + k) (main_number u + k + 1) p }
    ensures streams { (u : UnitTexts) (k : ℕ) (s : StreamOf) → IsUnit u → slice_get (streams_of u) (main_number u + k)
        ≡ Some s → HasProcedure (procedures_of (main_tokens u)) k (main_number u + k + 1) s }
    ensures surrounded { (u : UnitTexts) (k : ℕ) (s : StreamOf) → IsUnit u → slice_get (streams_of u) k ≡ Some s
        → IsSurrounded s (block_of (main_number u) (own_scope u) (streams_of u) s) }
    ensures levels { (u : UnitTexts) (k : ℕ) (s : StreamOf) → IsUnit u → limit_of (main_tokens u) ≡ None
        → slice_get (streams_of u) k ≡ Some s → s.level ≤ deepest_level }
{}

/// No scope has more rows than `sizes` says: a block declares at most a row for each token of its stream, by its
/// layout, and beside these it has only those that its imports bring. Only names of modules behind FROM bring rows,
/// 16,384 of them at most, whatever is known of the other blocks. So a unit's finished rows are those of as many
/// scopes, each of which has fewer than numbers of 32 bits.
pub fn rows_have_room()
    ensures stream { (tree : Stream) (s : StreamOf) → SpellsStream tree s → rows_of tree ≤ length s.tokens }
    ensures room { (tree : Stream) (s : StreamOf) → SpellsStream tree s → most_rows tree ≤ room_of s }
    ensures shapes { (tree : Stream) → rows_of tree ≡ length (flat_map item_shapes (items_of tree)) }
    ensures laid { (tree : Stream) (count : ℕ) (brought : List (List Named))
        → HaveBrought (take count (items_of tree)) brought
        → length (laid_shapes (take count (items_of tree)) brought) ≤ most_rows tree }
    ensures scopes { (trees : List Stream) (streams : List StreamOf) → SpellsStreams trees streams
        → AllZip (λ rows room. rows ≤ room) (most_rows_of_scopes trees) (sizes_of streams) }
    ensures brought { (source : Source) (tables : List (List Row)) (b : BlockTree)
        → HaveBrought (items_of b.tree) (declare_block source tables b).value.brought }
    ensures made { (source : Source) (tables : List (List Row)) (b : BlockTree)
        → length (declare_block source tables b).rows ≤ most_rows b.tree }
    ensures finished { (texts : UnitTexts) (tables : List (List Row)) → IsFinished texts tables
        → AllZip (λ rows room. length rows ≤ room) tables (sizes_of (streams_of texts)) }
    ensures count { (texts : UnitTexts) (tables : List (List Row)) → IsFinished texts tables
        → length tables ≡ length (streams_of texts) + 1 }
    ensures few { (texts : UnitTexts) (tables : List (List Row)) → IsUnit texts → IsFinished texts tables → (s : ℕ)
        → length (rows_at tables s) < 2 ^ 32 }
{}

/// The blocks of a unit are surrounded as its streams say, each by the stream at its place, and have the trees of its
/// texts. So it is in a unit that can be read.
pub fn blocks_are_those_of_the_streams()
    ensures blocks { (texts : UnitTexts) (trees : UnitTrees) → AreTreesOf texts trees
        → map (λ b. b.block) (blocks_of trees) ≡ surroundings_of texts }
    ensures trees { (texts : UnitTexts) (trees : UnitTrees) → AreTreesOf texts trees
        → map (λ b. b.tree) (blocks_of trees) ≡ trees.definitions ++ trees.main }
    ensures read { (texts : UnitTexts) (trees : UnitTrees) → AreRead texts trees → AreTreesOf texts trees }
{}

/// What every tree has that a stream of a unit spells, whatever the other texts and streams are: its items and
/// statements are as read, there is room for its rows and those that its imports bring, and each module that it
/// imports, or from which it imports names, has a scope before the stream's. The last is so where nothing is left out
/// of the unit by the fronts of its texts, and these are what the grammar tells.
pub fn trees_of_streams_are_read()
    ensures items { (texts : UnitTexts) (k : ℕ) (s : StreamOf) (tree : Stream)
        → IsUnit texts → slice_get (streams_of texts) k ≡ Some s → SpellsStream tree s
        → Each (IsReadItem texts.names) (items_of tree) }
    ensures statements { (texts : UnitTexts) (k : ℕ) (s : StreamOf) (tree : Stream) → IsUnit texts
        → slice_get (streams_of texts) k ≡ Some s → SpellsStream tree s → AreReadStatements texts.names tree.body }
    ensures imports { (texts : UnitTexts) (front : TextOf → Front) (k : ℕ) (s : StreamOf) (tree : Stream)
        → IsUnit texts → AreFronts front texts → IsWholeBy front texts → slice_get (streams_of texts) k ≡ Some s
        → SpellsStream tree s → Each (IsImportedBefore (source_of texts) s.stream) (items_of tree) }
    ensures room { (texts : UnitTexts) (k : ℕ) (s : StreamOf) (tree : Stream) → slice_get (streams_of texts) k ≡ Some s
        → SpellsStream tree s → most_rows tree ≤ slice_index (sizes_of (streams_of texts)) s.stream }
    ensures few { (texts : UnitTexts) (k : ℕ) (s : StreamOf) (tree : Stream)
        → IsUnit texts → slice_get (streams_of texts) k ≡ Some s → SpellsStream tree s
        → length (flat_map item_shapes (items_of tree)) < 2 ^ 30 }
{}
