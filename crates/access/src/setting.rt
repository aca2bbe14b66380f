// A parameter is set by a client, and before it the status of its module, if it is to be.
ghost use Rattle.std.specs.Prelude.{◌≤◌, [], length, drop};
ghost use Rattle.ascii.specs.Clauses.Writer.{Puts};
ghost use Rattle.datainfo.specs.Layout.{datainfo_in};
ghost use Rattle.outbox.specs.Outbox.{encode_all};
ghost use Rattle.state.specs.Clauses.Bare.{with_lines};
ghost use Rattle.access.specs.Clauses.Set.{Settable, Accepts, Staged, IsSetBy, set_records};

use crate::busy::{put_status, status_of, store_status};
use form::put_form;
use limits::PLACE;
use message::say::Sensor;
use outbox::write::{Told, put_final_report, put_order_change};
use outcome::Outcome;
use state::Brief;
use update::put_updates_to;

// The records of a change: "the driver's order ..", the updates of the status, those of the parameter, and `changed`.
fn put_set(
    out: &mut [u8],
    clients: Brief,
    status: Option<(usize, usize)>,
    busy: &[u8],
    client: u8,
    time: u64,
    k: usize,
    home: usize,
    module: &[u8],
    name: &[u8],
    value: &[u8],
) -> usize
    requires { Settable out.old k home «module».now name.now time × (Staged status busy.now × (length value.now ≤ 256)) }
    ensures { Puts out.old 0 (encode_all (set_records (with_lines clients []) status busy.now client k home «module».now
        name.now value.now time)) out.new result }
{
    let order = put_order_change(out, 0, client, k as u8, value);
    let first = put_status(out, order, clients, status, module, busy, time);
    let told = put_updates_to(
        out,
        first,
        clients,
        home,
        module,
        name,
        Sensor::Works,
        value,
        time,
    );
    put_final_report(out, told, client, Told::Changed, module, name, value, time)
}

// "An accepted setting writes its stored form ..": to the front of the parameter's place in the values area, and then the records.
pub(crate) fn set(
    table: &[u8],
    info: usize,
    values: &mut [u8],
    out: &mut [u8],
    clients: Brief,
    client: u8,
    time: u64,
    k: usize,
    home: usize,
    module: &[u8],
    name: &[u8],
    text: &[u8],
) -> Outcome
    requires { Settable out.old k home «module».now name.now time × Accepts table.now info values.old text.now }
    ensures { IsSetBy table.now (datainfo_in 4 (drop info table.now)) (with_lines clients []) client k home «module».now
        name.now text.now time values.old out.old result values.new out.new }
{
    let busy = b"[300,\"target changed\"]";
    let status = status_of(table, module, name, busy);
    store_status(values, status, busy);
    let at = PLACE * k;
    let end = put_form(table, info, values, at, text);
    let value = &values[at..end];
    let written = put_set(
        out, clients, status, busy, client, time, k, home, module, name, value,
    );
    Outcome::Stored(status, k, end - at, written)
}
