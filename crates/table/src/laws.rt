ghost use Rattle.table.specs.Laws.{BareReadsAlike, SizesAlike, BareLoadsAlike, LoadByRows, TableMirrors};

// By these a store speaks of its chip's records from its table. Each function states its laws by its contract, and has
// nothing else to do.

// With the data left out, the rules say the same of records, of sizes and of the loads of blocks.
pub fn bare_reads_alike()
    ensures reads { BareReadsAlike }
    ensures sizes { SizesAlike }
    ensures loads { BareLoadsAlike }
{}

// A table with a look at each chunk tells of the chip's blocks with the data left out, and the rows that make the load
// of a block are its load list.
pub fn table_mirrors()
    ensures blocks { TableMirrors }
    ensures rows { LoadByRows }
{}
