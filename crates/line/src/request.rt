// A request carried out, by what it asks for.
ghost use Rattle.std.specs.Prelude.{ℕ, ◌≤◌, ◌<◌, ◌≡◌, List, length};
ghost use Rattle.ascii.specs.Numbers.{latest};
ghost use Rattle.ascii.specs.Text.{bytes};
ghost use Rattle.message.specs.Request as R;
ghost use Rattle.message.specs.Request.{or_null};
ghost use Rattle.message.specs.Clauses.Parsed.{part, Within, meaning};
ghost use Rattle.outcome.specs.Clauses.Ready.{Lent, Ready};
ghost use Rattle.outcome.specs.Clauses.Outcome.{Comes, ComesAtAny};
ghost use Rattle.line.specs.Clauses.Asked.{Carriable};
ghost use Rattle.line.specs.Clauses.Names.{names_of, LocatedAt};
ghost use Rattle.state.specs.Clauses.Bare.{unlined};

use crate::conclude::bytes_of;
use crate::describing::describe;
use crate::named::named;
use crate::scoped::{switch_all, switch_module};
use message::line::{Part, Request, is_null};
use message::say::Class;
use outbox::write::{
    put_final_counted, put_final_edition, put_final_identification, put_final_pong,
};
use outcome::Outcome;
use search::locate::Located;
use state::Bare;
use state::bits::bit_count;
use state::count::counts_of;
use table::edition::edition_of;

// The identification of the first edition, or the one that the table gives.
fn identify(table: &[u8], out: &mut [u8], client: u8) -> Outcome
    requires { Lent table.now out.old client }
    ensures { (t : ℕ) → ComesAtAny table.now out.old client t result out.new R.identify }
{
    match edition_of(table) {
        None => Outcome::Sent(put_final_identification(out, 0, client)),
        Some(text) => {
            let from = text.from;
            let to = text.to;
            Outcome::Sent(put_final_edition(out, 0, client, &table[from..to]))
        }
    }
}

// "`pong T [null,{"t":now}]`; no token leaves two spaces.": the token is the specifier
fn ping(out: &mut [u8], client: u8, time: u64, token: &[u8]) -> Outcome
    requires { (32768 ≤ length out.old) × ((time ≤ latest) × (length token.now ≤ 1024)) }
    ensures { (table : List ℕ) → ComesAtAny table out.old client time result out.new (R.ping token.now) }
{
    Outcome::Sent(put_final_pong(out, 0, client, token, time))
}

// "replies `_counted . [[lines,errors,updates,active],{"t":now}]`, specifier and data ignored"
fn count(out: &mut [u8], state: Bare, client: u8, time: u64) -> Outcome
    requires { (32768 ≤ length out.old) × ((client < 8) × (time ≤ latest)) }
    ensures { (table values : List ℕ) → Ready table (unlined state) values out.old client
        → Comes table (unlined state) values out.old client time result values out.new R.count }
{
    let clients = state.clients;
    let active = clients.active;
    let modules = bit_count(active[client as usize]);
    let counts = counts_of(state, client as usize);
    Outcome::Sent(put_final_counted(out, 0, client, counts, modules, time))
}

// The data of a line. "Missing or all-space data is `null`"
fn data_of<'a>(line: &'a [u8], payload: Part, null: &'a [u8]) -> &'a [u8]
    requires { (Within line.now payload) × (null.now ≡ bytes "null") }
    ensures { result.now ≡ or_null (part line.now payload) }
{
    if is_null(line, payload) {
        return null;
    }
    bytes_of(line, payload)
}

// What a request comes to.
pub(crate) fn outcome(
    table: &[u8],
    values: &mut [u8],
    out: &mut [u8],
    state: Bare,
    client: u8,
    time: u64,
    line: &[u8],
    specifier: Part,
    payload: Part,
    asked: Request,
    located: Located,
) -> Outcome
    requires { Ready table.now (unlined state) values.old out.old client × ((time ≤ latest) × ((Carriable line.now specifier payload asked)
        × LocatedAt table.now line.now (names_of asked) located)) }
    ensures { Comes table.now (unlined state) values.old out.old client time result values.new out.new
        (meaning line.now (part line.now specifier) (part line.now payload) asked) }
{
    match asked {
        Request::Identify => identify(table, out, client),
        Request::Describe => describe(table, out, client),
        Request::Ping => ping(out, client, time, bytes_of(line, specifier)),
        Request::All(switch) => switch_all(table, values, out, state, client, switch),
        Request::Scoped(switch, m) => {
            switch_module(table, values, out, state, client, switch, bytes_of(line, m))
        }
        Request::Named(verb, m, a) => {
            let module = bytes_of(line, m);
            let name = bytes_of(line, a);
            let text = data_of(line, payload, b"null");
            named(
                table, values, out, state, client, time, verb, located, module, name, text,
            )
        }
        Request::Count => count(out, state, client, time),
        Request::Malformed => Outcome::Denied(Class::ProtocolError),
    }
}
