// A piece of a client's bytes.
ghost use Rattle.std.specs.Prelude.{length};
ghost use Rattle.plain.specs.Calls.{Piece, with_outbox, beside};
ghost use Rattle.promise.specs.Promise.{Kept};

use accepted::pieces::take_piece;
use limits::{LAST_CLIENT, OUTBOX};
use promise::Done;
use rack::judge::{bare_number, done_by, quiet};
use state::State;
use state::client::{bare_of, is_open, with_lines};

// "Piece: bytes from one client." The caller offers what is not used again.
pub fn jihfasul_piece(
    table: &[u8],
    values: &mut [u8],
    outbox: &mut [u8],
    state: State,
    client: u64,
    time: u64,
    bytes: &[u8],
    index: &[u8],
) -> Done
    ensures { Kept table.now
        (beside index.now (with_outbox (Piece client bytes.now time) (length values.old) (length outbox.old)))
        state values.old outbox.old result values.new outbox.new }
{
    let mut lines = state.clients.lines;
    let bare = bare_of(state);
    let number = bare_number(
        table,
        values,
        outbox.len() < OUTBOX,
        index,
        bare,
        &lines,
        time,
    );
    // put together again for a refusal, so that no second copy is kept
    if number != 0 {
        return quiet(number, with_lines(bare, lines));
    }
    if client > LAST_CLIENT {
        return quiet(11, with_lines(bare, lines));
    }
    if !is_open(state.clients, client as usize) {
        return quiet(12, with_lines(bare, lines));
    }
    let done = take_piece(
        table,
        values,
        outbox,
        bare,
        &mut lines,
        client as u8,
        time,
        bytes,
        index,
    );
    done_by(done, lines)
}
