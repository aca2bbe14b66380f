// Changes of a kept state from outside, as a host makes that stores it and brings it back, rightly or wrongly.
ghost use Rattle.std.specs.Prelude.{◌≡◌};
ghost use Rattle.promise.specs.Promise as Promise;
ghost use Rattle.script.specs.Clauses.Within.{within};
ghost use Rattle.script.specs.Clauses.Poke.{with_number, with_lines, with_length, with_time, with_error, with_counts, poked_by};

use crate::operation::Operation;
use ascii::write::put;
use counter::Counts;
use limits::{ACCESSIBLES, CLIENTS, LAST_CLIENT, LAST_PARAMETER, LINE};
use state::{Clients, Settings, State};

// The state of a refused start: no client open and every number 0.
pub fn blank() -> State
    ensures { result ≡ Promise.blank 0 }
{
    State {
        clients: Clients {
            open: [0; CLIENTS],
            overlong: [0; CLIENTS],
            active: [0; CLIENTS],
            length: [0; CLIENTS],
            lines: [0; CLIENTS * LINE],
        },
        settings: Settings {
            length: [0; ACCESSIBLES],
            error: [0; ACCESSIBLES],
            time: [0; ACCESSIBLES],
        },
        counts: [Counts {
            lines: 0,
            errors: 0,
            updates: 0,
        }; CLIENTS],
    }
}

// Bytes at a place of a lent area; nothing where they would go past its end.
pub fn put_within(area: &mut [u8], place: u64, bytes: &[u8])
    ensures { area.new ≡ within area.old place bytes.now }
{
    let size = area.len();
    if place <= size as u64 && bytes.len() <= size - place as usize {
        put(area, place as usize, bytes);
    }
}

fn with_number(s: Clients, code: u8, client: u64, value: u64) -> Clients
    ensures { result ≡ with_number s code client value }
{
    if client > LAST_CLIENT {
        return s;
    }
    let c = client as usize;
    let mut next = s;
    match code {
        b'o' => next.open[c] = (value % 256) as u8,
        b'v' => next.overlong[c] = (value % 256) as u8,
        b'a' => next.active[c] = (value % 65536) as u16,
        b'n' => next.length[c] = (value % 65536) as u16,
        _ => {}
    }
    next
}

fn with_lines(s: Clients, place: u64, bytes: &[u8]) -> Clients
    ensures { result ≡ with_lines s place bytes.now }
{
    let mut next = s;
    put_within(&mut next.lines, place, bytes);
    next
}

fn with_length(s: Settings, parameter: u64, value: u64) -> Settings
    ensures { result ≡ with_length s parameter value }
{
    if parameter > LAST_PARAMETER {
        return s;
    }
    let k = parameter as usize;
    let mut next = s;
    next.length[k] = (value % 65536) as u16;
    next
}

fn with_time(s: Settings, parameter: u64, value: u64) -> Settings
    ensures { result ≡ with_time s parameter value }
{
    if parameter > LAST_PARAMETER {
        return s;
    }
    let k = parameter as usize;
    let mut next = s;
    next.time[k] = value;
    next
}

fn with_error(s: Settings, parameter: u64, value: u64) -> Settings
    ensures { result ≡ with_error s parameter value }
{
    if parameter > LAST_PARAMETER {
        return s;
    }
    let k = parameter as usize;
    let mut next = s;
    next.error[k] = (value % 256) as u8;
    next
}

// All three counts of a client become a number.
fn with_counts(s: State, client: u64, value: u64) -> State
    ensures { result ≡ with_counts s client value }
{
    if client > LAST_CLIENT {
        return s;
    }
    let n = (value % 4294967296) as u32;
    let mut next = s;
    next.counts[client as usize] = Counts {
        lines: n,
        errors: n,
        updates: n,
    };
    next
}

// The state with the change that an operation names.
pub fn poked(state: State, o: Operation, bytes: &[u8]) -> State
    ensures { result ≡ poked_by state o bytes.now }
{
    match o.code {
        b'k' => with_counts(state, o.number, o.time),
        b'z' => State {
            settings: with_length(state.settings, o.number, o.time),
            ..state
        },
        b't' => State {
            settings: with_time(state.settings, o.number, o.time),
            ..state
        },
        b'e' => State {
            settings: with_error(state.settings, o.number, o.time),
            ..state
        },
        b'l' => State {
            clients: with_lines(state.clients, o.number, bytes),
            ..state
        },
        code => State {
            clients: with_number(state.clients, code, o.number, o.time),
            ..state
        },
    }
}
