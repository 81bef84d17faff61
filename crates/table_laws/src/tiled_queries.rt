//! The laws of a query over two tables, or over one table twice, that are cut into tiles.

ghost use Rattle.table_laws.specs.TileLaws.{DatabaseIsWhole, TilesGiveRows, MergedTilesAreMeant, CountsOfTilesAddUp, SortedTileIsTile, TileIsKeyed};

/// A database whose geometries are on the grid is a whole, as the laws of tiles and stretches assume (06-104r4).
pub fn database_is_whole()
    ensures { DatabaseIsWhole }
{}

/// The rows at which ON and WHERE are true are, in some order, those of the tiles under the owner conjunct, each once (SQL, WHERE).
pub fn tiles_give_rows()
    ensures { TilesGiveRows }
{}

/// The meanings over the tiles, merged by the keys and cut at the limit, are the meaning over the whole (SQL, the query).
pub fn merged_tiles_are_meant()
    ensures { MergedTilesAreMeant }
{}

/// Under COUNT(*) the answer is the sum of the numbers of rows of the tiles. Under LIMIT 0 it has no record (SQL, COUNT).
pub fn counts_of_tiles_add_up()
    ensures { CountsOfTilesAddUp }
{}

/// Whatever the order of the records of a tile, its rows, sorted by ascending key, are the tile.
pub fn sorted_tile_is_tile()
    ensures { SortedTileIsTile }
{}

/// A tile's rows are those of a whole table with marks, so it may itself be cut into stretches (06-104r4, feature tables).
pub fn tile_is_keyed()
    ensures { TileIsKeyed }
{}
