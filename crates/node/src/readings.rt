// A driver's reading.
ghost use Rattle.std.specs.Prelude.{length};
ghost use Rattle.plain.specs.Calls.{Reading, with_outbox, beside};
ghost use Rattle.promise.specs.Promise.{Kept};

use limits::OUTBOX;
use promise::Done;
use rack::judge::{done_by, lent_number, quiet};
use rack::reading::read_one;
use state::State;
use state::client::bare_of;

// "a driver's value for a parameter, numbered from 0 ..".
pub fn jihfasul_reading(
    table: &[u8],
    values: &mut [u8],
    outbox: &mut [u8],
    state: State,
    parameter: u64,
    time: u64,
    bytes: &[u8],
    index: &[u8],
) -> Done
    ensures { Kept table.now
        (beside index.now (with_outbox (Reading parameter bytes.now time) (length values.old) (length outbox.old)))
        state values.old outbox.old result values.new outbox.new }
{
    let number = lent_number(table, values, outbox.len() < OUTBOX, index, state, time);
    if number != 0 {
        return quiet(number, state);
    }
    let done = read_one(
        table,
        values,
        outbox,
        bare_of(state),
        parameter,
        time,
        bytes,
    );
    done_by(done, state.clients.lines)
}
