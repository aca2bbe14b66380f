// `read`, `change`, `check` and `do`: what is asked of one accessible of a module.
#![tactic(auto)]

mod busy;
mod command;
mod judge;
mod setting;
mod telling;
mod whole;

ghost use Rattle.std.specs.Prelude.{ℕ, ◌≤◌, length};
ghost use Rattle.ascii.specs.Numbers.{latest};
ghost use Rattle.search.specs.Clauses.Found.{ParameterFound, CommandFound};
ghost use Rattle.plain.specs.Answer.{reads, changes, checks, does};
ghost use Rattle.state.specs.Clauses.Bare.{unlined};
ghost use Rattle.outcome.specs.Clauses.Ready.{Lent, Ready};
ghost use Rattle.outcome.specs.Clauses.Outcome.{OfParameter, OfCommand};

use crate::command::{argument_verdict, order};
use crate::judge::let_in;
use crate::whole::{WHOLE, change_whole, check_whole, fill};
use message::say::Sensor;
use outbox::write::{Told, put_final_report};
use outcome::Outcome;
use state::Bare;
use state::setting::{sensor_at, shown};
use table::layout::{CommandAt, ParameterAt};

// "`reply M:P [value,{"t":time}]`, the stored time", with the value that the parameter shows, at the front of the outbox: of the parameter that
// these names find, with its number, its module's, and its positions; or an error where it can't be read, and the outbox is as it was.
pub fn read<'a>(
    table: &'a [u8],
    values: &'a [u8],
    out: &mut [u8],
    state: Bare,
    client: u8,
    k: usize,
    home: usize,
    q: ParameterAt,
    module: &[u8],
    name: &[u8],
) -> Outcome
    requires { Ready table.now (unlined state) values.now out.old client × ParameterFound table.now «module».now name.now k home q }
    ensures { (t : ℕ) → OfParameter table.now (unlined state) values.now out.old client t result values.now
        out.new «module».now name.now reads }
{
    let times = state.settings.time;
    let time = times[k];
    match sensor_at(state.settings, k) {
        Sensor::Fails(fault) => Outcome::Unreadable(fault, time),
        Sensor::Works => {
            let value = shown(table, values, state.settings, k, q.initial);
            Outcome::Sent(put_final_report(out, 0, client, Told::Reply, module, name, value, time))
        }
    }
}

// A parameter's value is set, to a text with what it leaves out filled in; or an error, and outbox and values area are as they were.
pub fn change(
    table: &[u8],
    values: &mut [u8],
    out: &mut [u8],
    state: Bare,
    client: u8,
    time: u64,
    k: usize,
    home: usize,
    q: ParameterAt,
    module: &[u8],
    name: &[u8],
    text: &[u8],
) -> Outcome
    requires { Ready table.now (unlined state) values.old out.old client × ((time ≤ latest)
        × (ParameterFound table.now «module».now name.now k home q × (length text.now ≤ 1024))) }
    ensures { OfParameter table.now (unlined state) values.old out.old client time result values.new
        out.new «module».now name.now (λ w n c t. changes w n c t text.now) }
{
    let mut whole = [0u8; WHOLE];
    let size = fill(
        table, values, state, k, home, q, module, name, text, &mut whole,
    );
    change_whole(
        table,
        values,
        out,
        state,
        client,
        time,
        k,
        home,
        q,
        module,
        name,
        &whole[..size],
    )
}

// What a change would store is told, and nothing is stored; or the error that a change would be denied with, and the outbox is as it was.
pub fn check<'a>(
    table: &'a [u8],
    values: &'a [u8],
    out: &mut [u8],
    state: Bare,
    client: u8,
    time: u64,
    k: usize,
    home: usize,
    q: ParameterAt,
    module: &[u8],
    name: &[u8],
    text: &[u8],
) -> Outcome
    requires { Ready table.now (unlined state) values.now out.old client × ((time ≤ latest)
        × (ParameterFound table.now «module».now name.now k home q × (length text.now ≤ 1024))) }
    ensures { OfParameter table.now (unlined state) values.now out.old client time result values.now
        out.new «module».now name.now (λ w n c t. checks w n c t text.now) }
{
    let mut whole = [0u8; WHOLE];
    let size = fill(
        table, values, state, k, home, q, module, name, text, &mut whole,
    );
    check_whole(
        table,
        out,
        client,
        time,
        k,
        home,
        q,
        module,
        name,
        &whole[..size],
    )
}

// A command is carried out: the driver's order and the reply are at the front of the outbox; or an error, and the outbox is as it was.
pub fn execute(
    table: &[u8],
    out: &mut [u8],
    client: u8,
    time: u64,
    k: usize,
    home: usize,
    q: CommandAt,
    module: &[u8],
    name: &[u8],
    text: &[u8],
) -> Outcome
    requires { Lent table.now out.old client × ((time ≤ latest) × CommandFound table.now «module».now name.now k home q) }
    ensures { OfCommand table.now out.old client time result out.new «module».now name.now
        (λ w n c t. does w n c t text.now) }
{
    if let Err(class) = let_in(argument_verdict(table, q.argument, q.info, text)) {
        return Outcome::Denied(class);
    }
    Outcome::Sent(order(
        table, q.info, out, client, time, k, q.argument, module, name, text,
    ))
}
