// The members of an enum, past its type byte in the table.
ghost use Rattle.std.specs.Prelude.{◌≤◌, length, drop};
ghost use Rattle.datainfo.specs.Layout.{enum_at};
ghost use Rattle.fit.specs.Clauses.Walk.{NumberOf};

use ascii::names::same;
use ascii::numbers::{signed, unsigned};
use datainfo::layout::counted_end;
use datainfo::rules::name_at;

// The number of the member of a name, with the position after it, or that none has the name.
pub fn number_of(s: &[u8], i: usize, name: &[u8]) -> Option<(i64, usize)>
    requires { i ≤ length s.now }
    ensures { NumberOf (enum_at (drop i s.now)) name.now result }
{
    let (count, from) = unsigned(s, i, 1)?;
    let mut member = from;
    for _ in 0..count {
        let n = counted_end(s, member)?;
        let (number, e) = signed(s, n, 4)?;
        if same(name_at(s, member), name) {
            return Some((number, e));
        }
        member = e;
    }
    None
}
