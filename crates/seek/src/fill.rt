// An index filled from a table.
ghost use Rattle.std.specs.Prelude.{◌≡◌, length};
ghost use Rattle.hash.specs.Hash.{start_place};
ghost use Rattle.table.specs.Layout.{table_of};
ghost use Rattle.table.specs.Clauses.At.{bytes_of, Inside};
ghost use Rattle.report.specs.Judge.{table_number};
ghost use Rattle.index.specs.Accessibles.{index_of};
ghost use Rattle.seek.specs.Fill.{Fills};

use crate::walk::{advance, begin};
use describe::judge::table_number;
use hash::start_place;
use index::fill::{clear, enter};
use limits::INDEX;
use search::cursor::name_of;
use table::layout::Part;

// Where the place of an accessible starts, of which module's name and name are parts of the table.
fn start_of(s: &[u8], p: Part, q: Part) -> usize
    requires { Inside s.now p × Inside s.now q }
    ensures { result ≡ start_place (bytes_of s.now p) (bytes_of s.now q) }
{
    let from = p.from;
    let to = p.to;
    let start = q.from;
    let end = q.to;
    start_place(&s[from..to], &s[start..end])
}

// In table order.
fn fill_all(s: &[u8], index: &mut [u8])
    requires { (table_number s.now ≡ 0) × (length index.old ≡ 128) }
    ensures { index.new ≡ index_of (table_of s.now) }
{
    clear(index);
    let mut w = begin(s);
    loop {
        let Some((a, v)) = advance(s, w) else {
            return;
        };
        let c = v.cursor;
        let home = c.name;
        let k = w.accessibles;
        enter(index, start_of(s, home, name_of(a)), k as u8);
        w = v;
    }
}

// The number that a filling is answered with: a refused one writes nothing.
pub fn fill(table: &[u8], index: &mut [u8]) -> u8
    ensures { Fills table.now index.old index.new result }
{
    let n = table_number(table);
    if n != 0 {
        return n;
    }
    if index.len() < INDEX {
        return 18;
    }
    fill_all(table, &mut index[..128]);
    0
}
