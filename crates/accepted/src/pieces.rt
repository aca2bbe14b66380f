// A piece of an open client's bytes.
ghost use Rattle.std.specs.Prelude.{◌<◌, ◌≤◌, ◌≡◌, length, get_or, take};
ghost use Rattle.ascii.specs.Numbers.{latest};
ghost use Rattle.plain.specs.Calls.{Piece};
ghost use Rattle.state.specs.View.{next_clients};
ghost use Rattle.state.specs.Clauses.Bare.{lined, with_lines};
ghost use Rattle.state.specs.Changed.{with_joined};
ghost use Rattle.outcome.specs.Clauses.Ready.{Ready};
ghost use Rattle.promise.specs.Clauses.Answer.{done_with, done_by};
ghost use Rattle.table.specs.Layout.{table_of};
ghost use Rattle.plain.specs.Answer.{answer};
ghost use Rattle.promise.specs.Clauses.Leaves.{held_node, LeavesIn};
ghost use Rattle.accepted.specs.Clauses.Held.{Unfed, line_with, held_answer, AnswersHeld};

use crate::feed::feed_at;
use ascii::write::put;
use limits::LINE;
use line::answer_line;
use outcome::{Answered, Replied};
use promise::BareDone;
use state::client::{ended, joined};
use state::count::{line_counted, sent_counted};
use state::{Bare, Brief};

// The line that a piece ends, written to a lent buffer: the bytes that its client has, and then these. Its length is answered; an overlong one has none.
fn whole_line(clients: Brief, lines: &[u8], c: usize, bytes: &[u8], line: &mut [u8]) -> usize
    requires { (c < 8) × ((get_or clients.length c 0 ≤ 1024) × ((length lines.now ≡ 8192) × (1024 ≤ length line.old))) }
    ensures { (result ≤ 1024) × (take result line.new ≡ line_with (with_lines clients lines.now) c bytes.now) }
{
    let overlong = clients.overlong;
    if overlong[c] != 0 {
        return 0;
    }
    let lengths = clients.length;
    let size = lengths[c] as usize;
    if LINE - size < bytes.len() {
        return 0;
    }
    let from = LINE * c;
    let to = from + size;
    let end = put(line, 0, &lines[from..to]);
    put(line, end, bytes)
}

// "a line feed ends a line ..": it is counted and answered, and its client's line is empty again. The bytes are those before the line feed; they don't
// go into the state, where they would not stay.
fn answer_held(
    table: &[u8],
    values: &mut [u8],
    outbox: &mut [u8],
    state: Bare,
    lines: &[u8],
    client: u8,
    time: u64,
    bytes: &[u8],
    index: &[u8],
) -> Replied
    requires { Ready table.now (lined state lines.now) values.old outbox.old client × ((time ≤ latest) × (length lines.now ≡ 8192)) }
    ensures { AnswersHeld table.now index.now (lined state lines.now) values.old outbox.old
        (held_node table.now (lined state lines.now) values.old client bytes.now) client time result
        values.new outbox.new
        (held_answer (table_of table.now)
        (held_node table.now (lined state lines.now) values.old client bytes.now) client time) }
{
    let c = client as usize;
    let mut line = [0u8; LINE];
    let size = whole_line(state.clients, lines, c, bytes, &mut line);
    let emptied = Bare {
        clients: ended(state.clients, c),
        ..state
    };
    let counted = line_counted(emptied, c);
    answer_line(
        table,
        values,
        outbox,
        counted,
        client,
        time,
        index,
        &line[..size],
    )
}

// What is sent then is counted too.
fn answer_counted(
    table: &[u8],
    values: &mut [u8],
    outbox: &mut [u8],
    state: Bare,
    lines: &[u8],
    client: u8,
    time: u64,
    bytes: &[u8],
    index: &[u8],
) -> Replied
    requires { Ready table.now (lined state lines.now) values.old outbox.old client
        × ((time ≤ latest) × ((length lines.now ≡ 8192) × Unfed bytes.now)) }
    ensures { AnswersHeld table.now index.now (lined state lines.now) values.old outbox.old
        (held_node table.now (lined state lines.now) values.old client bytes.now) client time result
        values.new outbox.new
        (answer (table_of table.now)
        (held_node table.now (lined state lines.now) values.old client bytes.now) client time) }
{
    let replied = answer_held(
        table, values, outbox, state, lines, client, time, bytes, index,
    );
    let answered = replied.answered;
    let next = sent_counted(answered.state, outbox, answered.written);
    Replied {
        answered: Answered {
            state: next,
            ..answered
        },
        ..replied
    }
}

// A piece without a line feed: its bytes join the client's.
fn join(state: Bare, lines: &mut [u8], client: u8, bytes: &[u8]) -> BareDone
    requires { (client < 8) × ((get_or state.clients.length client 0 ≤ 1024) × (length lines.old ≡ 8192)) }
    ensures { done_by result lines.new ≡ done_with (length bytes.now) 0 0 (next_clients (lined state lines.old)
        (with_joined (with_lines state.clients lines.old) client bytes.now)) }
{
    let clients = joined(state.clients, lines, client as usize, bytes);
    BareDone {
        number: 0,
        used: bytes.len(),
        written: 0,
        steps: 0,
        state: Bare { clients, ..state },
    }
}

// "A call uses bytes up to and including ..": of an open client, where all that is lent is good. The state's lines are lent beside it.
pub fn take_piece(
    table: &[u8],
    values: &mut [u8],
    outbox: &mut [u8],
    state: Bare,
    lines: &mut [u8],
    client: u8,
    time: u64,
    bytes: &[u8],
    index: &[u8],
) -> BareDone
    requires { Ready table.now (lined state lines.old) values.old outbox.old client × ((time ≤ latest) × (length lines.old ≡ 8192)) }
    ensures { LeavesIn table.now (lined state lines.old) values.old
        (Piece client bytes.now time) index.now outbox.old (done_by result lines.new) values.new
        outbox.new }
{
    let Some(n) = feed_at(bytes) else {
        return join(state, lines, client, bytes);
    };
    let before = &bytes[..n];
    let replied = answer_counted(
        table, values, outbox, state, lines, client, time, before, index,
    );
    let answered = replied.answered;
    BareDone {
        number: 0,
        used: n + 1,
        written: answered.written,
        steps: replied.steps,
        state: answered.state,
    }
}
