// An index beside the table.
ghost use Rattle.seek.specs.Fill.{Fills};

use seek::fill::fill;

// "128 bytes of index, filled once from it": the number of a filling. "a refused one (1 to 6, then 18) writes nothing"
pub fn jihfasul_index(table: &[u8], index: &mut [u8]) -> u8
    ensures { Fills table.now index.old index.new result }
{
    fill(table, index)
}
