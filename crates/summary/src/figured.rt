// The figures of a replay, written into a lent buffer (M-111).
ghost use Rattle.std.specs.Prelude.{◌≤◌};
ghost use Rattle.ascii.specs.Clauses.Writer.{Puts};
ghost use Rattle.summary.specs.Clauses.Figured.{Placing, Tells, Tellable, figures_of};

use figures::{Figures, emit_line, is_summed, tally_at};
use limits::ACCESSIBLES;
use search::cursor::{Cursor, first_cursor, next_parameter};
use table::layout::ParameterAt;
use update::bytes_of;

// The line of parameter k.
fn emit_figure(
    table: &[u8],
    out: &mut [u8],
    at: usize,
    figures: Figures,
    k: usize,
    p: ParameterAt,
    next: Cursor,
) -> usize
    requires { Placing table.now k p next }
    ensures { Tells table.now figures k p next out.old at out.new result }
{
    let home_name = next.name;
    let module = bytes_of(table, home_name);
    let own_name = p.name;
    let name = bytes_of(table, own_name);
    let info = p.info;
    let summed = is_summed(table, info);
    let tally = tally_at(figures, k);
    emit_line(out, at, module, name, summed, tally)
}

// "Table order, one line each", from the front of the buffer on.
pub fn put_figures(table: &[u8], out: &mut [u8], figures: Figures) -> usize
    requires { Tellable table.now figures out.old }
    ensures { Puts out.old 0 (figures_of table.now figures) out.new result × (result ≤ 32768) }
{
    let mut end = 0;
    let mut cursor = first_cursor(table);
    for k in 0..ACCESSIBLES {
        let Some((p, next)) = next_parameter(table, cursor) else {
            return end;
        };
        end = emit_figure(table, out, end, figures, k, p, next);
        cursor = next;
    }
    end
}
