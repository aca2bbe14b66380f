// Updates, written as outbox records: of one parameter to all clients that have its module active, and of all parameters of some modules to
// one client.
#![tactic(auto)]

ghost use Rattle.std.specs.Prelude.{◌+◌, ◌-◌, ◌≤◌, ◌<◌, cond, [], ◌∷◌, ◌≡◌, length};
ghost use Rattle.ascii.specs.Clauses.Writer.{Puts};
ghost use Rattle.message.specs.Clauses.Said.{held_by, report_of};
ghost use Rattle.outbox.specs.Outbox.{encode_all, update};
ghost use Rattle.table.specs.Clauses.At.{bytes_of, Inside};
ghost use Rattle.table.specs.Layout.{table_of};
ghost use Rattle.table.specs.Search.{parameters};
ghost use Rattle.plain.specs.Node.{client_numbers, updates_to, updates_of};
ghost use Rattle.state.specs.View.{client_at, view};
ghost use Rattle.state.specs.Clauses.Bare.{unlined, with_lines};
ghost use Rattle.outcome.specs.Clauses.Ready.{Ready};
ghost use Rattle.update.specs.Clauses.Scope.{wanted};
ghost use Rattle.update.specs.Clauses.Updatable.{shown_report, Updatable};

use limits::{ACCESSIBLES, CLIENTS};
use message::say::Sensor;
use outbox::write::put_update;
use search::cursor::{Cursor, first_cursor, next_parameter};
use state::client::is_active;
use state::setting::{sensor_at, shown};
use state::{Bare, Brief, Settings};
use table::layout::{ParameterAt, Part};

// All modules, or the one of a number.
#[derive(Clone, Copy)]
pub enum Scope {
    All,
    Module(usize),
}

// The update to one client, if it is open and has the module active.
fn put_update_to(
    out: &mut [u8],
    at: usize,
    clients: Brief,
    c: usize,
    home: usize,
    module: &[u8],
    accessible: &[u8],
    sensor: Sensor,
    value: &[u8],
    time: u64,
) -> usize
    requires { (c < 8) × ((home < 16) × ((at + length (encode_all (updates_to (client_at (with_lines clients [])) home
        (report_of «module».now accessible.now (held_by sensor value.now) time) (c ∷ []))) ≤ length out.old)
        × (length «module».now + length accessible.now + length value.now ≤ 1024))) }
    ensures { Puts out.old at (encode_all (updates_to (client_at (with_lines clients [])) home
        (report_of «module».now accessible.now (held_by sensor value.now) time) (c ∷ []))) out.new result }
{
    if is_active(clients, c, home) {
        put_update(out, at, c as u8, module, accessible, sensor, value, time)
    } else {
        at
    }
}

// "an update to each open client with M active ..": of a parameter of the module of number `home`, with a value unless its sensor fails
pub fn put_updates_to(
    out: &mut [u8],
    at: usize,
    clients: Brief,
    home: usize,
    module: &[u8],
    accessible: &[u8],
    sensor: Sensor,
    value: &[u8],
    time: u64,
) -> usize
    requires { (home < 16) × ((at + length (encode_all (updates_to (client_at (with_lines clients [])) home
        (report_of «module».now accessible.now (held_by sensor value.now) time) client_numbers)) ≤ length out.old)
        × (length «module».now + length accessible.now + length value.now ≤ 1024)) }
    ensures { Puts out.old at (encode_all (updates_to (client_at (with_lines clients [])) home
        (report_of «module».now accessible.now (held_by sensor value.now) time) client_numbers)) out.new result }
{
    let mut end = at;
    for c in 0..CLIENTS {
        end = put_update_to(
            out, end, clients, c, home, module, accessible, sensor, value, time,
        );
    }
    end
}

fn wants(scope: Scope, i: usize) -> bool
    ensures { result ≡ wanted scope i }
{
    match scope {
        Scope::All => true,
        Scope::Module(n) => i == n,
    }
}

// The update of one parameter to a client, with the value shown or the error in its place, if the scope has its module.
fn put_shown<'a>(
    table: &'a [u8],
    values: &'a [u8],
    out: &mut [u8],
    at: usize,
    settings: Settings,
    client: u8,
    scope: Scope,
    k: usize,
    p: ParameterAt,
    next: Cursor,
) -> usize
    requires { Updatable table.now settings values.now out.old at client scope k p next }
    ensures { Puts out.old at (encode_all (cond (wanted scope (next.modules - 1))
        (update client (shown_report table.now settings values.now k p next) ∷ []) [])) out.new result }
{
    if !wants(scope, next.modules - 1) {
        return at;
    }
    let module = bytes_of(table, next.name);
    let name = bytes_of(table, p.name);
    let value = shown(table, values, settings, k, p.initial);
    let sensor = sensor_at(settings, k);
    let times = settings.time;
    put_update(out, at, client, module, name, sensor, value, times[k])
}

// "an update for each parameter of those modules, table order", to one client, from the front of the outbox on
pub fn put_updates_of<'a>(
    table: &'a [u8],
    values: &'a [u8],
    out: &mut [u8],
    state: Bare,
    client: u8,
    scope: Scope,
) -> usize
    requires { Ready table.now (unlined state) values.now out.old client }
    ensures { Puts out.old 0 (encode_all (updates_of client (wanted scope)
        (view table.now (unlined state) values.now).values 0 (parameters (table_of table.now)))) out.new result }
{
    let mut end = 0;
    let mut cursor = first_cursor(table);
    for k in 0..ACCESSIBLES {
        let Some((p, next)) = next_parameter(table, cursor) else {
            return end;
        };
        end = put_shown(
            table,
            values,
            out,
            end,
            state.settings,
            client,
            scope,
            k,
            p,
            next,
        );
        cursor = next;
    }
    end
}

// The bytes of a part of a table.
pub fn bytes_of(table: &[u8], p: Part) -> &[u8]
    requires { Inside table.now p }
    ensures { result.now ≡ bytes_of table.now p }
{
    &table[p.from..p.to]
}
