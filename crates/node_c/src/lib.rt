// The library's calls for programs in C, which `include/jihfasul.h` declares: each is `node`'s of the same name, and promises what that one does.
#![tactic(auto)]

ghost use Rattle.std.specs.Prelude.{[], ◌≡◌, length};
ghost use Rattle.node.specs.Version.{version, state_layout};
ghost use Rattle.plain.specs.Calls.{Open, Close, Piece, Reading, Unreadable, with_area, with_outbox, beside};
ghost use Rattle.promise.specs.Listed.{listing, KeptList};
ghost use Rattle.promise.specs.Promise.{Begins, Kept};
ghost use Rattle.promise.specs.Shown.{Shows};
ghost use Rattle.seek.specs.Fill.{Fills};

use lists::Row;
use promise::{Done, Listed, Shown};
use state::State;

#[unsafe(no_mangle)]
pub extern "C" fn jihfasul_start(table: &[u8], values: &[u8], time: u64) -> Done
    ensures { Begins table.now values.now time result }
{
    node::start::jihfasul_start(table, values, time)
}

#[unsafe(no_mangle)]
pub extern "C" fn jihfasul_open(
    table: &[u8],
    values: &[u8],
    state: State,
    client: u64,
    time: u64,
    index: &[u8],
) -> Done
    ensures { Kept table.now (beside index.now (with_area (Open client time) (length values.now)))
        state values.now [] result values.now [] }
{
    node::clients::jihfasul_open(table, values, state, client, time, index)
}

#[unsafe(no_mangle)]
pub extern "C" fn jihfasul_close(
    table: &[u8],
    values: &[u8],
    state: State,
    client: u64,
    time: u64,
    index: &[u8],
) -> Done
    ensures { Kept table.now (beside index.now (with_area (Close client time) (length values.now)))
        state values.now [] result values.now [] }
{
    node::clients::jihfasul_close(table, values, state, client, time, index)
}

#[unsafe(no_mangle)]
pub extern "C" fn jihfasul_piece(
    table: &[u8],
    values: &mut [u8],
    outbox: &mut [u8],
    state: State,
    client: u64,
    time: u64,
    bytes: &[u8],
    index: &[u8],
) -> Done
    ensures { Kept table.now
        (beside index.now (with_outbox (Piece client bytes.now time) (length values.old) (length outbox.old)))
        state values.old outbox.old result values.new outbox.new }
{
    node::pieces::jihfasul_piece(table, values, outbox, state, client, time, bytes, index)
}

#[unsafe(no_mangle)]
pub extern "C" fn jihfasul_reading(
    table: &[u8],
    values: &mut [u8],
    outbox: &mut [u8],
    state: State,
    parameter: u64,
    time: u64,
    bytes: &[u8],
    index: &[u8],
) -> Done
    ensures { Kept table.now
        (beside index.now (with_outbox (Reading parameter bytes.now time) (length values.old) (length outbox.old)))
        state values.old outbox.old result values.new outbox.new }
{
    node::readings::jihfasul_reading(table, values, outbox, state, parameter, time, bytes, index)
}

#[unsafe(no_mangle)]
pub extern "C" fn jihfasul_readings(
    table: &[u8],
    values: &mut [u8],
    outbox: &mut [u8],
    state: State,
    rows: &[Row],
    texts: &[u8],
    index: &[u8],
) -> Listed
    ensures { KeptList table.now
        (listing rows.now texts.now values.old outbox.old index.now)
        state values.old outbox.old result values.new outbox.new }
{
    node::list::jihfasul_readings(table, values, outbox, state, rows, texts, index)
}

#[unsafe(no_mangle)]
pub extern "C" fn jihfasul_unreadable(
    table: &[u8],
    values: &[u8],
    outbox: &mut [u8],
    state: State,
    parameter: u64,
    time: u64,
    class: u64,
    index: &[u8],
) -> Done
    ensures { Kept table.now
        (beside index.now (with_outbox (Unreadable parameter class time) (length values.now) (length outbox.old)))
        state values.now outbox.old result values.now outbox.new }
{
    node::unreadable::jihfasul_unreadable(
        table, values, outbox, state, parameter, time, class, index,
    )
}

#[unsafe(no_mangle)]
pub extern "C" fn jihfasul_value(table: &[u8], values: &[u8], state: State, parameter: u64) -> Shown
    ensures { Shows table.now values.now state parameter result }
{
    node::value::jihfasul_value(table, values, state, parameter)
}

#[unsafe(no_mangle)]
pub extern "C" fn jihfasul_index(table: &[u8], index: &mut [u8]) -> u8
    ensures { Fills table.now index.old index.new result }
{
    node::filling::jihfasul_index(table, index)
}

#[unsafe(no_mangle)]
pub extern "C" fn jihfasul_version() -> u32
    ensures { result ≡ version }
{
    node::version::jihfasul_version()
}

#[unsafe(no_mangle)]
pub extern "C" fn jihfasul_state_layout() -> u32
    ensures { result ≡ state_layout }
{
    node::version::jihfasul_state_layout()
}
