// A change, and a check, of a text that leaves nothing out; and the text that one comes to which does (M-113).
ghost use Rattle.std.specs.Prelude.{ℕ, ◌≤◌, List};
ghost use Rattle.ascii.specs.Numbers.{latest};
ghost use Rattle.search.specs.Clauses.Found.{ParameterFound};
ghost use Rattle.state.specs.declared.State.{State};
ghost use Rattle.state.specs.Clauses.Bare.{unlined};
ghost use Rattle.outcome.specs.Clauses.Ready.{Lent, Ready};
ghost use Rattle.outcome.specs.Clauses.Outcome.{OfParameter};
ghost use Rattle.access.specs.Clauses.Whole.{changes_whole, checks_whole, Fillable, Fills};

use crate::judge::judge_change;
use crate::setting::set;
use crate::telling::put_checked;
use form::complete::complete;
use limits::{LINE, PLACE};
use message::say::Sensor;
use outcome::Outcome;
use state::Bare;
use state::setting::{sensor_at, shown};
use table::layout::ParameterAt;

// Room for a text with what it leaves out filled in: a line, a stored form, and two bytes.
pub(crate) const WHOLE: usize = LINE + PLACE + 2;

// "they keep what is shown now, or, where the parameter is in error, such a change is WrongType": the text that comes of it is written to bytes of its
// own, since what is shown may lie where the new value is stored. In error nothing is shown.
pub(crate) fn fill<'a>(
    table: &'a [u8],
    values: &'a [u8],
    state: Bare,
    k: usize,
    home: usize,
    q: ParameterAt,
    module: &[u8],
    name: &[u8],
    text: &[u8],
    whole: &mut [u8],
) -> usize
    requires { Fillable table.now (unlined state) values.now «module».now name.now k home q text.now whole.old }
    ensures { Fills table.now (unlined state) values.now «module».now name.now text.now
        whole.old whole.new result }
{
    match sensor_at(state.settings, k) {
        Sensor::Fails(_) => complete(table, q.info, b"", text, whole),
        Sensor::Works => {
            let value = shown(table, values, state.settings, k, q.initial);
            complete(table, q.info, value, text, whole)
        }
    }
}

// A parameter's value is set; or an error, and outbox and values area are as they were.
pub(crate) fn change_whole(
    table: &[u8],
    values: &mut [u8],
    out: &mut [u8],
    state: Bare,
    client: u8,
    time: u64,
    k: usize,
    home: usize,
    q: ParameterAt,
    module: &[u8],
    name: &[u8],
    text: &[u8],
) -> Outcome
    requires { Ready table.now (unlined state) values.old out.old client × ((time ≤ latest)
        × ParameterFound table.now «module».now name.now k home q) }
    ensures { OfParameter table.now (unlined state) values.old out.old client time result values.new
        out.new «module».now name.now (λ w n c t. changes_whole w n c t text.now) }
{
    if let Err(refused) = judge_change(table, q, text) {
        return Outcome::Denied(refused);
    }
    set(
        table,
        q.info,
        values,
        out,
        state.clients,
        client,
        time,
        k,
        home,
        module,
        name,
        text,
    )
}

// What a change would store is told, and nothing is stored; or the error that a change would be denied with, and the outbox is as it was. Neither
// state nor values area is looked at.
pub(crate) fn check_whole(
    table: &[u8],
    out: &mut [u8],
    client: u8,
    time: u64,
    k: usize,
    home: usize,
    q: ParameterAt,
    module: &[u8],
    name: &[u8],
    text: &[u8],
) -> Outcome
    requires { Lent table.now out.old client × ((time ≤ latest) × ParameterFound table.now «module».now name.now k home q) }
    ensures { (s : State) (values : List ℕ) → OfParameter table.now s values out.old client time result values out.new
        «module».now name.now (λ w n c t. checks_whole w n c t text.now) }
{
    if let Err(class) = judge_change(table, q, text) {
        return Outcome::Denied(class);
    }
    Outcome::Sent(put_checked(table, q.info, out, client, time, module, name, text))
}
