// Outbox records, written at a position of a lent buffer: mark, client byte, length in two bytes, body.
ghost use Rattle.std.specs.Prelude.{◌≡◌, ◌∷◌, ◌++◌, ◌+◌, ◌≤◌, ℕ, List, Option, length, Some, None};
ghost use Rattle.ascii.specs.Text.{bytes};
ghost use Rattle.ascii.specs.Numbers.{two_bytes};
ghost use Rattle.ascii.specs.Clauses.Writer.{Puts};
ghost use Rattle.message.specs.Reply.{valued, report_text, optionally, identification, pong, counted, error, DataReport, reply_line, update_word};
ghost use Rattle.message.specs.Clauses.Said.{denial_of, held_by, report_of, counted_text};
ghost use Rattle.outbox.specs.Outbox.{encode, final, update, order_change, order_command};
ghost use Rattle.outbox.specs.Clauses.Written.{sealed, Room, LineRoom, RoomFor, describing_start, told_reply, switched_reply};

use ascii::write::{put, put_byte};
use counter::Counts;
use message::say::{
    Denial, Sensor, counted_length, error_length, named_length, pong_length, put_counted,
    put_counts, put_error, put_identification, put_named, put_pong, put_word, put_word_name,
    word_name_length,
};

// The final replies with a report.
#[derive(Clone, Copy)]
pub enum Told {
    Reply,
    Changed,
    Done,
    Checked,
}

// The final replies to `activate` and `deactivate`.
#[derive(Clone, Copy)]
pub enum Switched {
    Active,
    Inactive,
}

// The mark, the client byte and the length of the body.
fn put_header(out: &mut [u8], at: usize, mark: &[u8], client: u8, size: usize) -> usize
    requires { (at + length (mark.now ++ (client ∷ two_bytes size)) ≤ length out.old) × (size ≤ 65535) }
    ensures { Puts out.old at (mark.now ++ (client ∷ two_bytes size)) out.new result }
{
    let second = put(out, at, mark);
    let third = put_byte(out, second, client);
    put(out, third, &(size as u16).to_be_bytes())
}

// The identification of the first edition. The line has 36 bytes, and its line feed is the 37th.
pub fn put_final_identification(out: &mut [u8], at: usize, client: u8) -> usize
    requires { RoomFor out.old at (final client (identification None)) }
    ensures { Puts out.old at (encode (final client (identification None))) out.new result }
{
    let line = put_header(out, at, b"RP", client, 37);
    let end = put_identification(out, line);
    put_byte(out, end, 10)
}

// The identification that a table gives. "a text that is the whole identification reply"
pub fn put_final_edition(out: &mut [u8], at: usize, client: u8, text: &[u8]) -> usize
    requires { RoomFor out.old at (final client (identification (Some text.now))) }
    ensures { Puts out.old at (encode (final client (identification (Some text.now)))) out.new result }
{
    let size = text.len();
    let line = put_header(out, at, b"RP", client, size + 1);
    let end = put(out, line, text);
    put_byte(out, end, 10)
}

pub fn put_final_pong(out: &mut [u8], at: usize, client: u8, token: &[u8], time: u64) -> usize
    requires { RoomFor out.old at (final client (pong token.now time)) }
    ensures { Puts out.old at (encode (final client (pong token.now time))) out.new result }
{
    let size = pong_length(token, time);
    let line = put_header(out, at, b"RP", client, size + 1);
    let end = put_pong(out, line, token, time);
    put_byte(out, end, 10)
}

// `_counted`, by the text of the counts.
fn put_counted_record(out: &mut [u8], at: usize, client: u8, text: &[u8], time: u64) -> usize
    requires { LineRoom out.old at (bytes "RP") client (counted_text text.now time) }
    ensures { Puts out.old at (sealed (bytes "RP") client (counted_text text.now time ++ bytes "\n")) out.new result }
{
    let size = counted_length(text, time);
    let line = put_header(out, at, b"RP", client, size + 1);
    let end = put_counted(out, line, text, time);
    put_byte(out, end, 10)
}

// Four numbers of at most ten digits have room in 64 bytes.
pub fn put_final_counted(
    out: &mut [u8],
    at: usize,
    client: u8,
    counts: Counts,
    modules: u32,
    time: u64,
) -> usize
    requires { RoomFor out.old at (final client (counted counts modules time)) }
    ensures { Puts out.old at (encode (final client (counted counts modules time))) out.new result }
{
    let mut text = [0; 64];
    let end = put_counts(&mut text, counts, modules);
    put_counted_record(out, at, client, &text[..end], time)
}

pub fn put_final_error(
    out: &mut [u8],
    at: usize,
    client: u8,
    action: &[u8],
    specifier: &[u8],
    denial: Denial,
) -> usize
    requires { RoomFor out.old at (final client (error action.now specifier.now (denial_of denial))) }
    ensures { Puts out.old at (encode (final client (error action.now specifier.now (denial_of denial))))
        out.new result }
{
    let size = error_length(action, specifier, denial);
    let line = put_header(out, at, b"RP", client, size + 1);
    let end = put_error(out, line, action, specifier, denial);
    put_byte(out, end, 10)
}

// What stands before the report in the record of a `describing`; `size` is the report's length.
pub fn put_describing_start(out: &mut [u8], at: usize, client: u8, size: usize) -> usize
    requires { (at + length (describing_start client size) ≤ length out.old) × (size + 14 ≤ 65535) }
    ensures { Puts out.old at (describing_start client size) out.new result }
{
    let line = put_header(out, at, b"RP", client, size + 14);
    put(out, line, b"describing . ")
}

fn switched_word(switched: Switched) -> &'static [u8]
    ensures { (m : Option (List ℕ)) → optionally result.now m ≡ reply_line (switched_reply switched m) }
{
    match switched {
        Switched::Active => b"active",
        Switched::Inactive => b"inactive",
    }
}

// A word alone, `active` or `inactive`.
pub fn put_final_switched(out: &mut [u8], at: usize, client: u8, switched: Switched) -> usize
    requires { RoomFor out.old at (final client (switched_reply switched None)) }
    ensures { Puts out.old at (encode (final client (switched_reply switched None))) out.new result }
{
    let word = switched_word(switched);
    let line = put_header(out, at, b"RP", client, word.len() + 1);
    let end = put_word(out, line, word);
    put_byte(out, end, 10)
}

// A word with a module's name.
pub fn put_final_switched_name(
    out: &mut [u8],
    at: usize,
    client: u8,
    switched: Switched,
    name: &[u8],
) -> usize
    requires { RoomFor out.old at (final client (switched_reply switched (Some name.now))) }
    ensures { Puts out.old at (encode (final client (switched_reply switched (Some name.now)))) out.new result }
{
    let word = switched_word(switched);
    let size = word_name_length(word, name);
    let line = put_header(out, at, b"RP", client, size + 1);
    let end = put_word_name(out, line, word, name);
    put_byte(out, end, 10)
}

// A word that ends with a space, and a report.
fn put_named_record(
    out: &mut [u8],
    at: usize,
    mark: &[u8],
    client: u8,
    word: &[u8],
    module: &[u8],
    accessible: &[u8],
    sensor: Sensor,
    value: &[u8],
    time: u64,
) -> usize
    requires { LineRoom out.old at mark.now client
        (word.now ++ report_text (report_of «module».now accessible.now (held_by sensor value.now) time)) }
    ensures { Puts out.old at (sealed mark.now client
        (word.now ++ report_text (report_of «module».now accessible.now (held_by sensor value.now) time)
        ++ bytes "\n")) out.new result }
{
    let size = named_length(word, module, accessible, sensor, value, time);
    let line = put_header(out, at, mark, client, size + 1);
    let end = put_named(out, line, word, module, accessible, sensor, value, time);
    put_byte(out, end, 10)
}

fn told_word(told: Told) -> &'static [u8]
    ensures { (r : DataReport) → result.now ++ report_text r ≡ reply_line (told_reply told r) }
{
    match told {
        Told::Reply => b"reply ",
        Told::Changed => b"changed ",
        Told::Done => b"done ",
        Told::Checked => b"checked ",
    }
}

// The reply with a word and a value.
pub fn put_final_report(
    out: &mut [u8],
    at: usize,
    client: u8,
    told: Told,
    module: &[u8],
    accessible: &[u8],
    value: &[u8],
    time: u64,
) -> usize
    requires { RoomFor out.old at (final client (told_reply told (report_of «module».now accessible.now (valued value.now) time))) }
    ensures { Puts out.old at (encode (final client (told_reply told
        (report_of «module».now accessible.now (valued value.now) time)))) out.new result }
{
    put_named_record(
        out,
        at,
        b"RP",
        client,
        told_word(told),
        module,
        accessible,
        Sensor::Works,
        value,
        time,
    )
}

// `update`, or `error_update` where the parameter can't be read.
fn update_word(sensor: Sensor) -> &'static [u8]
    ensures { (v : List ℕ) → result.now ≡ update_word (held_by sensor v) }
{
    match sensor {
        Sensor::Works => b"update ",
        Sensor::Fails(_) => b"error_update ",
    }
}

pub fn put_update(
    out: &mut [u8],
    at: usize,
    client: u8,
    module: &[u8],
    accessible: &[u8],
    sensor: Sensor,
    value: &[u8],
    time: u64,
) -> usize
    requires { RoomFor out.old at (update client (report_of «module».now accessible.now (held_by sensor value.now) time)) }
    ensures { Puts out.old at (encode (update client
        (report_of «module».now accessible.now (held_by sensor value.now) time))) out.new result }
{
    put_named_record(
        out,
        at,
        b"UP",
        client,
        update_word(sensor),
        module,
        accessible,
        sensor,
        value,
        time,
    )
}

// An order to the driver: a number and a value or an argument.
fn put_order(out: &mut [u8], at: usize, mark: &[u8], client: u8, number: u8, value: &[u8]) -> usize
    requires { Room out.old at mark.now client (number ∷ value.now) }
    ensures { Puts out.old at (sealed mark.now client (number ∷ value.now)) out.new result }
{
    let size = value.len();
    let body = put_header(out, at, mark, client, size + 1);
    let rest = put_byte(out, body, number);
    put(out, rest, value)
}

pub fn put_order_change(out: &mut [u8], at: usize, client: u8, parameter: u8, value: &[u8]) -> usize
    requires { RoomFor out.old at (order_change client parameter value.now) }
    ensures { Puts out.old at (encode (order_change client parameter value.now)) out.new result }
{
    put_order(out, at, b"DR", client, parameter, value)
}

pub fn put_order_command(
    out: &mut [u8],
    at: usize,
    client: u8,
    command: u8,
    argument: &[u8],
) -> usize
    requires { RoomFor out.old at (order_command client command argument.now) }
    ensures { Puts out.old at (encode (order_command client command argument.now)) out.new result }
{
    put_order(out, at, b"DC", client, command, argument)
}
