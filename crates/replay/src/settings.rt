// What a call set, read off the outbox and the values area that it left, and the figures of it (M-111).
ghost use Rattle.std.specs.Prelude.{◌≡◌};
ghost use Rattle.figures.specs.Clauses.Tally.{Bounded, Marks};
ghost use Rattle.state.specs.View.{shown_bytes};
ghost use Rattle.replay.specs.Clauses.Figured.{order_in, chosen_by, Shown, Markable, Notes};
ghost use Rattle.replay.specs.Clauses.Inner.{Made, Counts};

use ascii::byte;
use figures::{Figures, mark_of, observe};
use limits::PLACE;
use promise::Done;
use search::find::parameter_by_number;
use state::Settings;
use table::layout::ParameterAt;
use trace::{Head, Kind};

// The parameter of a driver's order to change, which is the first record of an accepted change.
fn order_in(s: &[u8]) -> Option<usize>
    ensures { result ≡ order_in s.now }
{
    if byte(s, 0) != b'D' || byte(s, 1) != b'R' {
        return None;
    }
    Some(byte(s, 5) as usize)
}

// The parameter that an accepted call of a record set, of which `number` is a client's or a parameter's, and which wrote so many bytes.
fn chosen_by(kind: Kind, number: u8, written: usize, outbox: &[u8]) -> Option<usize>
    ensures { result ≡ chosen_by kind number written outbox.now }
{
    match kind {
        Kind::Piece => { if written == 0 { None } else { order_in(outbox) } }
        Kind::Reading => Some(number as usize),
        Kind::Opening | Kind::Closing | Kind::Unreadable => None,
    }
}

// What is kept of what parameter k shows: its initial value where none is stored.
fn mark_shown(table: &[u8], values: &[u8], settings: Settings, k: usize, p: ParameterAt) -> u64
    requires { Markable table.now settings values.now k p }
    ensures { Marks table.now p.info (shown_bytes table.now settings values.now k p.initial) result }
{
    let lengths = settings.length;
    let size = lengths[k] as usize;
    if size == 0 {
        return mark_of(table, p.info, &table[p.initial.from..p.initial.to]);
    }
    let first = PLACE * k;
    mark_of(table, p.info, &values[first..first + size])
}

// Parameter k was set to what it shows now.
fn note(table: &[u8], values: &[u8], settings: Settings, figures: Figures, k: usize) -> Figures
    requires { Shown table.now settings values.now k × Bounded figures }
    ensures { Notes table.now settings values.now k figures result }
{
    let Some((p, _)) = parameter_by_number(table, k) else {
        return figures;
    };
    let mark = mark_shown(table, values, settings, k, p);
    observe(figures, k, mark)
}

// The figures are those after a call of a record, which was answered so and left these values and this outbox.
pub(crate) fn figured(
    table: &[u8],
    values: &[u8],
    outbox: &[u8],
    figures: &mut Figures,
    head: Head,
    done: &Done,
)
    requires { Made table.now head values.now outbox.now done.now × Bounded figures.old }
    ensures { Counts table.now head values.now outbox.now done.now figures.old figures.new }
{
    if done.number != 0 {
        return;
    }
    if let Some(k) = chosen_by(head.kind, head.number, done.written, outbox) {
        *figures = note(table, values, done.state.settings, *figures, k);
    }
}
