//! The laws of written tiles and stretches. Nothing here runs: each function has an empty body, and its contract is a law.

ghost use Rattle.tiles.specs.LoadedParts.{StretchesAreLoaded, TilesAreLoaded};
ghost use Rattle.tiles.specs.LoadedRows.{CheckedIsLoaded, LoadedAreOnGrid};
ghost use Rattle.tiles.specs.LoadedTexts.{SchemaNamesBeginWords, TextsAreLoaded};
ghost use Rattle.tiles.specs.MadeTiles.{MadeTilesAreMarked};
ghost use Rattle.tiles.specs.ReadBack.{WrittenTablesAreRead};
ghost use Rattle.tiles.specs.StretchTexts.{StretchTextsAreLoaded};
ghost use Rattle.tiles.specs.Stretches.{StretchesAreWhole};
ghost use Rattle.tiles.specs.TileRows.{TilesAreRead};
ghost use Rattle.tiles.specs.TiledAnswers.{TiledAnswersAreMeant, TiledCountsAreMeant};
ghost use Rattle.tiles.specs.WholeTables.{CheckedIsWhole, LoadedIsWhole, WholeTablesAreKeyed};

/// The text of a tile or of a stretch is read as its header and its records, with the fields that were written (RFC 4180).
pub fn written_tables_are_read()
    ensures { WrittenTablesAreRead }
{}

/// The stretches of a table together have its records, in their order, each once.
pub fn stretches_are_whole()
    ensures { StretchesAreWhole }
{}

/// A check of up to 100,000 records returns the number of rows that load, or the fault of loading (06-104r4, feature tables).
pub fn checked_is_loaded()
    ensures { CheckedIsLoaded }
{}

/// The geometries of a table that loads are on the grid.
pub fn loaded_are_on_grid()
    ensures { LoadedAreOnGrid }
{}

/// The records of a tile are read as the table's typed rows whose geometry is copied to the cell, with the copied
/// fields and the row's marks (06-104r4, feature tables).
pub fn tiles_are_read()
    ensures { TilesAreRead }
{}

/// A check returns the number of rows of a whole table, however many, or its fault (06-104r4, feature tables).
pub fn checked_is_whole()
    ensures { CheckedIsWhole }
{}

/// Up to 100,000 records load as the rows of their whole table, or have its fault (06-104r4, feature tables).
pub fn loaded_is_whole()
    ensures { LoadedIsWhole }
{}

/// The rows of a whole table are rows of its definition by ascending key, and their geometries are on the grid.
pub fn whole_tables_are_keyed()
    ensures { WholeTablesAreKeyed }
{}

/// The records of each stretch of a whole table load as its stretch with the copied columns (06-104r4, feature tables).
pub fn stretches_are_loaded()
    ensures { StretchesAreLoaded }
{}

/// The records of a tile of a whole table load as its tile with the copied columns (06-104r4, feature tables).
pub fn tiles_are_loaded()
    ensures { TilesAreLoaded }
{}

/// The first name of a column of each table in a schema's text begins like a word (SQL, identifiers).
pub fn schema_names_begin_words()
    ensures { SchemaNamesBeginWords }
{}

/// The text of a part loads as its header and its records do (06-104r4, feature tables).
pub fn texts_are_loaded()
    ensures { TextsAreLoaded }
{}

/// The texts of the stretches of a whole table load as its stretches with the copied columns (06-104r4, feature tables).
pub fn stretch_texts_are_loaded()
    ensures { StretchTextsAreLoaded }
{}

/// A definition with the copied columns of a table, one by one, and then two columns of whole numbers is that of its tiles.
pub fn made_tiles_are_marked()
    ensures { MadeTilesAreMarked }
{}

/// The rows of a query over two split tables in the cells of a cut, merged by their keys and cut at the limit, are
/// copies of the rows that the query means over the whole tables (SQL, the query).
pub fn tiled_answers_are_meant()
    ensures { TiledAnswersAreMeant }
{}

/// Under COUNT(*) the numbers of rows of a query over two split tables in the cells of a cut add up to the number over
/// the whole tables (SQL, COUNT).
pub fn tiled_counts_are_meant()
    ensures { TiledCountsAreMeant }
{}
