// Changes of one client, and the judging of all. A client's line has 1,024 bytes of the lines, from 1,024 times its number on.
ghost use Rattle.std.specs.Prelude.{◌≡◌, not, ◌&&◌, ◌||◌, ◌<◌, ◌≤◌, eqb, [], length, get_or};
ghost use Rattle.ascii.specs.Bytes.{any};
ghost use Rattle.plain.specs.Node.{is_active, client_numbers};
ghost use Rattle.state.specs.View.{is_set, client_at};
ghost use Rattle.state.specs.Fit.{client_unfit};
ghost use Rattle.state.specs.Changed.{with_opened, with_closed, with_joined};
ghost use Rattle.state.specs.Clauses.Bare.{with_lines, lined, bare_of, brief_ended, brief_active};

use crate::bits::{has_bit, is_past};
use crate::{Bare, Brief, Clients, State};
use ascii::write::put;
use limits::{CLIENTS, LINE};

// "Open begins with an empty line and nothing active".
pub fn opened(s: Clients, c: usize) -> Clients
    requires { c < 8 }
    ensures { result ≡ with_opened s c }
{
    let mut open = s.open;
    open[c] = 1;
    let mut overlong = s.overlong;
    overlong[c] = 0;
    let mut active = s.active;
    active[c] = 0;
    let mut length = s.length;
    length[c] = 0;
    Clients {
        open,
        overlong,
        active,
        length,
        ..s
    }
}

// "close forgets both".
pub fn closed(s: Clients, c: usize) -> Clients
    requires { c < 8 }
    ensures { result ≡ with_closed s c }
{
    let mut open = s.open;
    open[c] = 0;
    let mut overlong = s.overlong;
    overlong[c] = 0;
    let mut active = s.active;
    active[c] = 0; // so no update goes to it
    let mut length = s.length;
    length[c] = 0;
    Clients {
        open,
        overlong,
        active,
        length,
        ..s
    }
}

// A state without its lines.
pub fn bare_of(s: State) -> Bare
    ensures { result ≡ bare_of s }
{
    let State {
        clients,
        settings,
        counts,
    } = s;
    let Clients {
        open,
        overlong,
        active,
        length,
        ..
    } = clients;
    Bare {
        clients: Brief {
            open,
            overlong,
            active,
            length,
        },
        settings,
        counts,
    }
}

// A state of these lines.
pub fn with_lines(s: Bare, lines: [u8; CLIENTS * LINE]) -> State
    ensures { result ≡ lined s lines }
{
    let Bare {
        clients,
        settings,
        counts,
    } = s;
    let Brief {
        open,
        overlong,
        active,
        length,
    } = clients;
    State {
        clients: Clients {
            open,
            overlong,
            active,
            length,
            lines,
        },
        settings,
        counts,
    }
}

// "a line feed ends a line, which is carried out .., and no bytes stay".
pub fn ended(s: Brief, c: usize) -> Brief
    requires { c < 8 }
    ensures { result ≡ brief_ended s c }
{
    let mut overlong = s.overlong;
    overlong[c] = 0;
    let mut length = s.length;
    length[c] = 0;
    Brief {
        overlong,
        length,
        ..s
    }
}

// "Activation held as .. eight module masks .., one entry changed per activate": client c's active modules become those of a mask.
pub fn with_active(s: Brief, c: usize, mask: u16) -> Brief
    requires { c < 8 }
    ensures { result ≡ brief_active s c mask }
{
    let mut active = s.active;
    active[c] = mask;
    Brief { active, ..s }
}

// "The bytes a piece uses join its client's"; "once over 1,024, only that" is kept. The bytes are written to the lines.
pub fn joined(s: Brief, lines: &mut [u8], c: usize, bytes: &[u8]) -> Brief
    requires { (c < 8) × ((get_or s.length c 0 ≤ 1024) × (length lines.old ≡ 8192)) }
    ensures { with_lines result lines.new ≡ with_joined (with_lines s lines.old) c bytes.now }
{
    let mut overlong = s.overlong;
    if overlong[c] != 0 {
        return s;
    }
    let mut length = s.length;
    let size = length[c] as usize;
    if LINE - size < bytes.len() {
        overlong[c] = 1;
        length[c] = 0;
        return Brief {
            overlong,
            length,
            ..s
        };
    }
    put(lines, LINE * c + size, bytes);
    length[c] = (size + bytes.len()) as u16;
    Brief { length, ..s }
}

pub fn is_open(s: Clients, c: usize) -> bool
    requires { c < 8 }
    ensures { result ≡ is_set s.open c }
{
    let open = s.open;
    open[c] != 0
}

// Whether client c is open and has the module of number i active.
pub fn is_active(s: Brief, c: usize, i: usize) -> bool
    requires { (c < 8) × (i < 16) }
    ensures { result ≡ is_active (client_at (with_lines s []) c) i }
{
    let open = s.open;
    let active = s.active;
    open[c] != 0 && has_bit(active[c], i)
}

fn has_feed(bytes: &[u8]) -> bool
    ensures { result ≡ any (λ b. eqb b 10) bytes.now }
{
    bytes.contains(&b'\n')
}

// Whether a client inside an overlong line keeps bytes of it.
fn keeps_dropped(s: Brief, c: usize) -> bool
    requires { c < 8 }
    ensures { result ≡ is_set s.overlong c && is_set s.length c }
{
    let overlong = s.overlong;
    let length = s.length;
    overlong[c] != 0 && length[c] != 0
}

// Whether a closed client has bytes, an overlong line or active modules.
fn keeps_closed(s: Brief, c: usize) -> bool
    requires { c < 8 }
    ensures { result ≡ not (is_set s.open c) && (is_set s.length c || is_set s.overlong c || is_set s.active c) }
{
    let open = s.open;
    let length = s.length;
    let overlong = s.overlong;
    let active = s.active;
    open[c] == 0 && (length[c] != 0 || overlong[c] != 0 || active[c] != 0)
}

// The faults of one client in the order of document 01. A line over 1,024 bytes is not looked at: it may reach past the lines.
fn client_unfit(s: Brief, lines: &[u8], modules: usize, c: usize) -> bool
    requires { (c < 8) × ((modules ≤ 16) × (length lines.now ≡ 8192)) }
    ensures { result ≡ client_unfit modules (with_lines s lines.now) c }
{
    let lengths = s.length;
    let length = lengths[c] as usize;
    if LINE < length {
        return true;
    }
    let from = LINE * c;
    if has_feed(&lines[from..from + length]) {
        return true;
    }
    if keeps_dropped(s, c) {
        return true;
    }
    let active = s.active;
    if is_past(active[c], modules) {
        return true;
    }
    keeps_closed(s, c)
}

// "State is unfit if, for this table: ..", as far as it speaks of clients: whether one of the eight is at fault.
pub fn clients_unfit(s: Brief, lines: &[u8], modules: usize) -> bool
    requires { (modules ≤ 16) × (length lines.now ≡ 8192) }
    ensures { result ≡ any (client_unfit modules (with_lines s lines.now)) client_numbers }
{
    for c in 0..CLIENTS {
        if client_unfit(s, lines, modules, c) {
            return true;
        }
    }
    false
}
