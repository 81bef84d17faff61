//! The laws of a query over tables that are cut into stretches. With one table, a block is one stretch. With two, it is
//! a stretch of one and a stretch of the other, and each combination is a block.

ghost use Rattle.table_laws.specs.StretchLaws.{BlocksGiveRows, MergedBlocksAreMeant, CountsOfBlocksAddUp};

/// The rows at which ON and WHERE are true are, in some order, those of the blocks, each once (SQL, WHERE).
pub fn blocks_give_rows()
    ensures { BlocksGiveRows }
{}

/// The meanings over the blocks, merged by the keys and cut at the limit, are the meaning over the whole (SQL, the query).
pub fn merged_blocks_are_meant()
    ensures { MergedBlocksAreMeant }
{}

/// Under COUNT(*) the answer is the sum of the numbers of rows of the blocks. Under LIMIT 0 it has no record (SQL, COUNT).
pub fn counts_of_blocks_add_up()
    ensures { CountsOfBlocksAddUp }
{}
