// Open and close of a client.
ghost use Rattle.std.specs.Prelude.{[], length};
ghost use Rattle.plain.specs.Calls.{Open, Close, with_area, beside};
ghost use Rattle.promise.specs.Promise.{Kept};

use limits::LAST_CLIENT;
use promise::Done;
use rack::judge::{lent_number, quiet};
use state::State;
use state::client::{closed, is_open, opened};
use state::count::cleared;

// "Open begins with an empty line and nothing active".
pub fn jihfasul_open(
    table: &[u8],
    values: &[u8],
    state: State,
    client: u64,
    time: u64,
    index: &[u8],
) -> Done
    ensures { Kept table.now (beside index.now (with_area (Open client time) (length values.now)))
        state values.now [] result values.now [] }
{
    let number = lent_number(table, values, false, index, state, time);
    if number != 0 {
        return quiet(number, state);
    }
    if client > LAST_CLIENT {
        return quiet(11, state);
    }
    let c = client as usize;
    if is_open(state.clients, c) {
        return quiet(13, state);
    }
    let next = State {
        clients: opened(state.clients, c),
        ..state
    };
    quiet(0, cleared(next, c))
}

// "close forgets both": the line and what is active.
pub fn jihfasul_close(
    table: &[u8],
    values: &[u8],
    state: State,
    client: u64,
    time: u64,
    index: &[u8],
) -> Done
    ensures { Kept table.now (beside index.now (with_area (Close client time) (length values.now)))
        state values.now [] result values.now [] }
{
    let number = lent_number(table, values, false, index, state, time);
    if number != 0 {
        return quiet(number, state);
    }
    if client > LAST_CLIENT {
        return quiet(11, state);
    }
    let c = client as usize;
    if !is_open(state.clients, c) {
        return quiet(12, state);
    }
    // of the counts: "close keeps them"
    let next = State {
        clients: closed(state.clients, c),
        ..state
    };
    quiet(0, next)
}
