// A reading that fits its parameter.
ghost use Rattle.plain.specs.Calls.{Reading};
ghost use Rattle.std.specs.Prelude.{ℕ, List};
ghost use Rattle.state.specs.Clauses.Bare.{lined, unlined};
ghost use Rattle.promise.specs.Clauses.Answer.{done_by};
ghost use Rattle.accepted.specs.Clauses.Fitting.{Standing, Fitting, Taken};

use form::put_form;
use limits::PLACE;
use message::say::Sensor;
use promise::BareDone;
use search::cursor::Cursor;
use state::Bare;
use state::count::sent_counted;
use state::setting::stored;
use table::layout::ParameterAt;
use update::{bytes_of, put_updates_to};

// "An accepted reading stores the value ..": of parameter k, of which p has the positions; `home` is the cursor after it, in its module. The
// updates are written to the front of the outbox, or of the part of one, that it is lent. What the state's lines have doesn't matter.
pub fn take_reading(
    table: &[u8],
    values: &mut [u8],
    outbox: &mut [u8],
    state: Bare,
    k: usize,
    time: u64,
    bytes: &[u8],
    p: ParameterAt,
    home: Cursor,
) -> BareDone
    requires { Fitting table.now (unlined state) values.old outbox.old k time bytes.now p home }
    ensures { (lines : List ℕ) → Standing table.now (lined state lines) values.old
        → Taken table.now (lined state lines) values.old outbox.old (Reading k bytes.now time)
        (done_by result lines) values.new outbox.new }
{
    let at = PLACE * k;
    let end = put_form(table, p.info, values, at, bytes);
    let module = bytes_of(table, home.name);
    let name = bytes_of(table, p.name);
    let written = put_updates_to(
        outbox,
        0,
        state.clients,
        home.modules - 1,
        module,
        name,
        Sensor::Works,
        &values[at..end],
        time,
    );
    let settings = stored(state.settings, k, end - at, time);
    let told = Bare { settings, ..state };
    BareDone {
        number: 0,
        used: 0,
        written,
        steps: 0,
        state: sent_counted(told, outbox, written),
    }
}
