// A replay of a trace on a fresh node, step by step: at most one call of the node in a step, so that each outbox is handed on before the next call.
#![tactic(auto)]

mod settings;

ghost use Rattle.std.specs.Prelude.{true, not, ◌≡◌, ◌+◌, ◌≤◌, ◌<◌, eqb, length};
ghost use Rattle.ascii.specs.Bytes.{head};
ghost use Rattle.figures.specs.Clauses.Tally.{Bounded};
ghost use Rattle.replay.specs.Replay.{is_piece};
ghost use Rattle.replay.specs.Clauses.View.{counted, to_do, Sound};
ghost use Rattle.replay.specs.Promise.{Steps, Starts};
ghost use Rattle.replay.specs.Theorems.{Fed, PlayedAsCalls, ReplayIsTheCalls, CutElsewhere};
ghost use Rattle.replay.specs.Clauses.Inner.{left_after, Calls, Offers};

use ascii::byte;
use figures::{Figures, no_figures};
use node::clients::{jihfasul_close, jihfasul_open};
use node::pieces::jihfasul_piece;
use node::readings::jihfasul_reading;
use node::start::jihfasul_start;
use node::unreadable::jihfasul_unreadable;
use promise::Done;
use settings::figured;
use state::State;
use trace::{Found, Head, Kind, Reader, plus, take, unread};

// What is kept between steps: the node's state; the trace's reader; what is left to be offered of the record that the reader holds, `left.size` bytes
// from `at` on; how many events were refused by each number; and the figures of what was set.
#[derive(Clone, Copy)]
pub struct Replay {
    pub state: State,
    pub reader: Reader,
    pub left: Head,
    pub at: usize,
    pub refused: [u64; 19],
    pub figures: Figures,
}

// How many bytes of the trace were used, how many of the outbox were written, and the next replay.
#[derive(Clone, Copy)]
pub struct Stepped {
    pub used: usize,
    pub written: usize,
    pub replay: Replay,
}

// How many bytes of the trace a step used and how many of the outbox it wrote, where the replay is changed in place.
#[derive(Clone, Copy)]
struct Moved {
    used: usize,
    written: usize,
}

// The number of a start (0: accepted), and the replay after it.
#[derive(Clone, Copy)]
pub struct Started {
    pub number: u8,
    pub replay: Replay,
}

// "(for `EF` its class)": the one byte of such a record.
fn class_in(bytes: &[u8]) -> u64
    ensures { result ≡ head bytes.now }
{
    byte(bytes, 0) as u64
}

// The single call of a record of this head with these bytes.
fn call(
    table: &[u8],
    values: &mut [u8],
    outbox: &mut [u8],
    state: State,
    head: Head,
    bytes: &[u8],
) -> Done
    ensures { Calls table.now state values.old outbox.old head bytes.now result
        values.new outbox.new }
{
    let number = head.number as u64;
    let time = head.time;
    match head.kind {
        Kind::Opening => jihfasul_open(table, values, state, number, time, b""),
        Kind::Closing => jihfasul_close(table, values, state, number, time, b""),
        Kind::Piece => jihfasul_piece(table, values, outbox, state, number, time, bytes, b""),
        Kind::Reading => jihfasul_reading(table, values, outbox, state, number, time, bytes, b""),
        Kind::Unreadable => {
            let class = class_in(bytes);
            jihfasul_unreadable(table, values, outbox, state, number, time, class, b"")
        }
    }
}

// One more event was refused by a number; 0 is no refusal. "these counts each stop at 18,446,744,073,709,551,615"
fn counted(refused: [u64; 19], number: u8) -> [u64; 19]
    requires { number < 19 }
    ensures { result ≡ counted refused number }
{
    if number == 0 {
        return refused;
    }
    let k = number as usize;
    let mut next = refused;
    next[k] = plus(refused[k], 1);
    next
}

fn is_piece(kind: Kind) -> bool
    ensures { result ≡ is_piece kind }
{
    matches!(kind, Kind::Piece)
}

// What is left of a record after a call that answered this number and used so many bytes: of an accepted piece, the bytes that it did not use.
fn left_after(left: Head, number: u8, used: usize) -> Head
    requires { used ≤ left.size }
    ensures { result ≡ left_after left number used }
{
    if is_piece(left.kind) && number == 0 {
        Head {
            size: left.size - used,
            ..left
        }
    } else {
        Head { size: 0, ..left }
    }
}

// What is left is offered, and the replay is the one after it: how many bytes of the outbox were written.
fn offered(table: &[u8], values: &mut [u8], outbox: &mut [u8], replay: &mut Replay) -> usize
    requires { (replay.old.at + replay.old.left.size ≤ 4109) × Bounded replay.old.figures }
    ensures { Offers table.now replay.old values.old outbox.old result replay.new
        values.new outbox.new }
{
    let left = replay.left;
    let end = replay.at + left.size;
    let done = call(
        table,
        values,
        outbox,
        replay.state,
        left,
        &replay.reader.held[replay.at..end],
    );
    figured(table, values, outbox, &mut replay.figures, left, &done);
    replay.state = done.state;
    replay.left = left_after(left, done.number, done.used);
    replay.at += done.used;
    replay.refused = counted(replay.refused, done.number);
    done.written
}

// A step that changes the replay in place.
fn advance(
    table: &[u8],
    values: &mut [u8],
    outbox: &mut [u8],
    replay: &mut Replay,
    trace: &[u8],
) -> Moved
    requires { Sound replay.old }
    ensures { Steps table.now replay.old values.old outbox.old trace.now
        (record { used = result.used; written = result.written; replay = replay.new })
        values.new outbox.new }
{
    if replay.left.size != 0 {
        let written = offered(table, values, outbox, replay);
        return Moved { used: 0, written };
    }
    let taken = take(replay.reader, trace);
    replay.reader = taken.reader;
    match taken.found {
        Found::More | Found::Wrong => Moved {
            used: taken.used,
            written: 0,
        },
        Found::Whole(head) => {
            replay.left = head;
            replay.at = 13;
            let written = offered(table, values, outbox, replay);
            Moved {
                used: taken.used,
                written,
            }
        }
    }
}

// Plays what is left of a record; or else takes bytes of the trace up to the end of a record, and plays that. One call
// at most. Where nothing is left and all bytes are used, the trace's next bytes are wanted.
pub fn step(
    table: &[u8],
    values: &mut [u8],
    outbox: &mut [u8],
    replay: Replay,
    trace: &[u8],
) -> Stepped
    requires { Sound replay }
    ensures { Steps table.now replay values.old outbox.old trace.now result
        values.new outbox.new }
{
    let mut next = replay;
    let moved = advance(table, values, outbox, &mut next, trace);
    Stepped {
        used: moved.used,
        written: moved.written,
        replay: next,
    }
}

// Whether there is something to do, with so many bytes of the trace.
fn is_unfinished(replay: &Replay, bytes: usize) -> bool
    ensures { result ≡ not (eqb (to_do replay.now bytes) 0) }
{
    bytes != 0 || replay.left.size != 0
}

// Steps over all these bytes, until nothing is left to be offered. What they write to the outbox is not handed on.
pub fn feed(
    table: &[u8],
    values: &mut [u8],
    outbox: &mut [u8],
    replay: Replay,
    bytes: &[u8],
) -> Replay
    requires { Sound replay }
    ensures { Fed table.now (length outbox.old) replay values.old bytes.now result values.new }
{
    let mut next = replay;
    let mut at = 0;
    while is_unfinished(&next, bytes.len() - at) {
        at += advance(table, values, outbox, &mut next, &bytes[at..]).used;
    }
    next
}

// A start on this table, and a replay of which nothing is read.
pub fn begin(table: &[u8], values: &[u8], time: u64) -> Started
    ensures { Starts table.now values.now time result }
{
    let done = jihfasul_start(table, values, time);
    Started {
        number: done.number,
        replay: Replay {
            state: done.state,
            reader: unread(),
            left: Head {
                kind: Kind::Opening,
                number: 0,
                time: 0,
                size: 0,
            },
            at: 0,
            refused: [0; 19],
            figures: no_figures(),
        },
    }
}

// What is played of a trace is a history of single calls.
pub fn played_as_calls() -> bool
    ensures { (result ≡ true) × PlayedAsCalls }
{
    true
}

// What steps one after another leave, send and count is what the single calls give, however the trace arrives.
pub fn replay_is_the_calls() -> bool
    ensures { (result ≡ true) × ReplayIsTheCalls }
{
    true
}

// Cut in other pieces, the same trace leads to the same.
pub fn cut_elsewhere() -> bool
    ensures { (result ≡ true) × CutElsewhere }
{
    true
}
