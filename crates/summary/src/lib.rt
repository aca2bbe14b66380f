// The summary of a replay, written into a lent buffer.
#![tactic(auto)]

pub mod figured;

ghost use Rattle.std.specs.Prelude.{◌+◌, ◌-◌, ◌≤◌, ◌<◌, true, ◌≡◌, length, get_or};
ghost use Rattle.ascii.specs.Clauses.Writer.{Puts};
ghost use Rattle.message.specs.Error.{fault_name};
ghost use Rattle.message.specs.Clauses.Said.{fault_as, held_by};
ghost use Rattle.trace.specs.Reader.{end_of};
ghost use Rattle.trace.specs.Clauses.Takes.{progress_of};
ghost use Rattle.summary.specs.Summary.{held_text, refused_line, refused_lines, end_line, start_line};
ghost use Rattle.summary.specs.Clauses.Lines.{held_line, line_at, Writable, offset_text};
ghost use Rattle.summary.specs.Theorems.{TextIsTheReplays};
ghost use Rattle.summary.specs.Clauses.Tells.{Told, count_at, lines_of, told_of};

use ascii::write::{put, put_byte, put_decimal};
use limits::ACCESSIBLES;
use message::say::{Fault, Sensor};
use replay::Replay;
use search::cursor::{Cursor, first_cursor, next_parameter};
use state::setting::{sensor_at, shown};
use state::{Settings, State};
use table::layout::ParameterAt;
use trace::Reader;
use update::bytes_of;

fn put_fault_name(out: &mut [u8], at: usize, fault: Fault) -> usize
    requires { at + length (fault_name (fault_as fault)) ≤ length out.old }
    ensures { Puts out.old at (fault_name (fault_as fault)) out.new result }
{
    match fault {
        Fault::HardwareError => put(out, at, b"HardwareError"),
        Fault::CommunicationFailed => put(out, at, b"CommunicationFailed"),
        Fault::ReadFailed => put(out, at, b"ReadFailed"),
        Fault::OutOfRange => put(out, at, b"OutOfRange"),
    }
}

// "value, or its error class's name"
fn put_held(out: &mut [u8], at: usize, sensor: Sensor, value: &[u8]) -> usize
    requires { at + length (held_text (held_by sensor value.now)) ≤ length out.old }
    ensures { Puts out.old at (held_text (held_by sensor value.now)) out.new result }
{
    match sensor {
        Sensor::Works => put(out, at, value),
        Sensor::Fails(fault) => put_fault_name(out, at, fault),
    }
}

// "one line each, as `t1:target 12`"
fn put_line(
    out: &mut [u8],
    at: usize,
    module: &[u8],
    name: &[u8],
    sensor: Sensor,
    value: &[u8],
) -> usize
    requires { at + length (held_line «module».now name.now sensor value.now) ≤ length out.old }
    ensures { Puts out.old at (held_line «module».now name.now sensor value.now) out.new result }
{
    let colon = put(out, at, module);
    let second = put_byte(out, colon, b':');
    let space = put(out, second, name);
    let third = put_byte(out, space, b' ');
    let feed = put_held(out, third, sensor, value);
    put_byte(out, feed, b'\n')
}

// The line of one parameter, with the value that it shows or the class of the error in its place.
fn put_shown<'a>(
    table: &'a [u8],
    values: &'a [u8],
    out: &mut [u8],
    at: usize,
    settings: Settings,
    k: usize,
    p: ParameterAt,
    next: Cursor,
) -> usize
    requires { Writable table.now settings values.now out.old at k p next }
    ensures { Puts out.old at (line_at table.now settings values.now k p next) out.new result }
{
    let home_name = next.name;
    let module = bytes_of(table, home_name);
    let own_name = p.name;
    let name = bytes_of(table, own_name);
    let initial = p.initial;
    let value = shown(table, values, settings, k, initial);
    let sensor = sensor_at(settings, k);
    put_line(out, at, module, name, sensor, value)
}

// "every parameter's last shown value, or its error class's name, in table order"
fn put_values<'a>(table: &'a [u8], values: &'a [u8], out: &mut [u8], state: State) -> usize
    requires { Told table.now state values.now out.old }
    ensures { Puts out.old 0 (lines_of table.now state values.now) out.new result }
{
    let settings = state.settings;
    let mut end = 0;
    let mut cursor = first_cursor(table);
    for k in 0..ACCESSIBLES {
        let Some((p, next)) = next_parameter(table, cursor) else {
            return end;
        };
        end = put_shown(table, values, out, end, settings, k, p, next);
        cursor = next;
    }
    end
}

// "`refused 12 3` (number, count)", if the number was met.
fn put_refused(out: &mut [u8], at: usize, number: u64, count: u64) -> usize
    requires { (number < 100) × (at + 32 ≤ length out.old) }
    ensures { Puts out.old at (refused_line number count) out.new result × (length (refused_line number count) ≤ 32) }
{
    if count == 0 {
        return at;
    }
    let first = put(out, at, b"refused ");
    let space = put_decimal(out, first, number);
    let second = put_byte(out, space, b' ');
    let feed = put_decimal(out, second, count);
    put_byte(out, feed, b'\n')
}

// "for each number met, lowest first"
fn put_refusals(out: &mut [u8], at: usize, refused: [u64; 19]) -> usize
    requires { at + 576 ≤ length out.old }
    ensures { Puts out.old at (refused_lines 18 1 (count_at refused)) out.new result × (result ≤ at + 576) }
{
    let mut end = at;
    for k in 1..19 {
        end = put_refused(out, end, k as u64, refused[k]);
    }
    end
}

fn put_offset(out: &mut [u8], at: usize, offset: u64) -> usize
    requires { at + 21 ≤ length out.old }
    ensures { Puts out.old at (offset_text offset) out.new result × (result ≤ at + 21) }
{
    let feed = put_decimal(out, at, offset);
    put_byte(out, feed, b'\n')
}

// "then `wrong` or `half`, a space and the offset, if so"
fn put_end(out: &mut [u8], at: usize, reader: Reader) -> usize
    requires { at + 27 ≤ length out.old }
    ensures { Puts out.old at (end_line (end_of (progress_of reader)) reader.offset) out.new result × (result ≤ at + 27) }
{
    if reader.stopped {
        let first = put(out, at, b"wrong ");
        return put_offset(out, first, reader.offset);
    }
    if reader.size == 0 {
        return at;
    }
    let first = put(out, at, b"half ");
    put_offset(out, first, reader.offset)
}

// All that is told of a replay but its figures, from the front of the buffer on.
pub fn put_summary<'a>(table: &'a [u8], values: &'a [u8], out: &mut [u8], replay: Replay) -> usize
    requires { Told table.now replay.state values.now out.old }
    ensures { Puts out.old 0 (told_of table.now replay values.now) out.new result × (result ≤ 32768) }
{
    let state = replay.state;
    let refused = replay.refused;
    let reader = replay.reader;
    let first = put_values(table, values, out, state);
    let second = put_refusals(out, first, refused);
    put_end(out, second, reader)
}

// "A refused start writes only `start 5`, its number."
pub fn put_start(out: &mut [u8], number: u64) -> usize
    requires { 27 ≤ length out.old }
    ensures { Puts out.old 0 (start_line number) out.new result × (result ≤ 27) }
{
    let first = put(out, 0, b"start ");
    put_offset(out, first, number)
}

// The summary and the figures of a replay that was driven over a trace are the whole text of that trace.
pub fn text_is_the_replays() -> bool
    ensures { (result ≡ true) × TextIsTheReplays }
{
    true
}
