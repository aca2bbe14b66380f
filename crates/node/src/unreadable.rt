// A driver's report that a parameter can't be read.
ghost use Rattle.std.specs.Prelude.{length};
ghost use Rattle.plain.specs.Calls.{Unreadable, with_outbox, beside};
ghost use Rattle.promise.specs.Promise.{Kept};

use accepted::unreadable::take_unreadable;
use limits::{LAST_PARAMETER, OUTBOX};
use message::say::{Sensor, sensor_of};
use promise::Done;
use rack::judge::{done_by, lent_number, quiet};
use search::find::parameter_by_number;
use state::State;
use state::client::bare_of;

// "A driver must be able to report that a parameter can't be read, with one of ..": the values area isn't written. Number 14: "no such parameter
// number"; 16: "unknown class".
pub fn jihfasul_unreadable(
    table: &[u8],
    values: &[u8],
    outbox: &mut [u8],
    state: State,
    parameter: u64,
    time: u64,
    class: u64,
    index: &[u8],
) -> Done
    ensures { Kept table.now
        (beside index.now (with_outbox (Unreadable parameter class time) (length values.now) (length outbox.old)))
        state values.now outbox.old result values.now outbox.new }
{
    let number = lent_number(table, values, outbox.len() < OUTBOX, index, state, time);
    if number != 0 {
        return quiet(number, state);
    }
    if parameter > LAST_PARAMETER {
        return quiet(14, state);
    }
    let k = parameter as usize;
    let Some((p, home)) = parameter_by_number(table, k) else {
        return quiet(14, state);
    };
    let Sensor::Fails(fault) = sensor_of(class) else {
        return quiet(16, state);
    };
    let done = take_unreadable(table, outbox, bare_of(state), k, time, fault, p, home);
    done_by(done, state.clients.lines)
}
