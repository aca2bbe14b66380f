// What the node says: reports and lines, written at a position of a lent buffer, and their lengths.
ghost use Rattle.std.specs.Prelude.{◌≡◌, ◌∷◌, ◌++◌, ◌+◌, ◌≤◌, length, Some, None};
ghost use Rattle.ascii.specs.Numbers.{decimal};
ghost use Rattle.ascii.specs.Clauses.Writer.{Puts};
ghost use Rattle.message.specs.Error.{fault_number, fault_of};
ghost use Rattle.message.specs.Reply.{data_report, fault_report, held_report, report_text, class_report, error_report, optionally, counts_text, reply_line};
ghost use Rattle.message.specs.Reply.{identification, pong, error};
ghost use Rattle.message.specs.Clauses.Said.{class_of, fault_as, denial_of, sensor_fault, held_by, report_of, fault_front, counted_text};

use ascii::write::{put, put_byte, put_decimal, put_seconds, seconds_length};
use counter::Counts;

// The error classes.
#[derive(Clone, Copy)]
pub enum Class {
    ProtocolError,
    NoSuchModule,
    NoSuchParameter,
    NoSuchCommand,
    ReadOnly,
    BadJSON,
    WrongType,
    RangeError,
}

// Why a parameter can't be read.
#[derive(Clone, Copy)]
pub enum Fault {
    HardwareError = 1,
    CommunicationFailed,
    ReadFailed,
    OutOfRange,
}

// What an error reply tells: a class, or why a parameter can't be read and since when.
#[derive(Clone, Copy)]
pub enum Denial {
    Class(Class),
    Fault(Fault, u64),
}

// Whether a parameter can be read.
#[derive(Clone, Copy)]
pub enum Sensor {
    Works,
    Fails(Fault),
}

// "HardwareError 1, CommunicationFailed 2, ReadFailed 3, OutOfRange 4"; any other number is no class.
pub fn sensor_of(number: u64) -> Sensor
    ensures { sensor_fault result ≡ fault_of number }
{
    match number {
        1 => Sensor::Fails(Fault::HardwareError),
        2 => Sensor::Fails(Fault::CommunicationFailed),
        3 => Sensor::Fails(Fault::ReadFailed),
        4 => Sensor::Fails(Fault::OutOfRange),
        _ => Sensor::Works,
    }
}

pub fn fault_number(fault: Fault) -> u8
    ensures { result ≡ fault_number (fault_as fault) }
{
    fault as u8
}

// Three texts, one after another.
fn put3(out: &mut [u8], at: usize, a: &[u8], b: &[u8], c: &[u8]) -> usize
    requires { at + length (a.now ++ b.now ++ c.now) ≤ length out.old }
    ensures { Puts out.old at (a.now ++ b.now ++ c.now) out.new result }
{
    let second = put(out, at, a);
    let third = put(out, second, b);
    put(out, third, c)
}

fn data_report_length(value: &[u8], time: u64) -> usize
    ensures { result ≡ length (data_report value.now time) }
{
    value.len() + seconds_length(time) + 9
}

fn put_data_report(out: &mut [u8], at: usize, value: &[u8], time: u64) -> usize
    requires { at + length (data_report value.now time) ≤ length out.old }
    ensures { Puts out.old at (data_report value.now time) out.new result }
{
    let stamp = put3(out, at, b"[", value, b",{\"t\":");
    let close = put_seconds(out, stamp, time);
    put(out, close, b"}]")
}

// What stands before the time in a report of why a parameter can't be read. Each text is written where it stands:
// a `match` that answers one of several texts becomes a table of their addresses, and the library has no data.
fn fault_front_length(fault: Fault) -> usize
    ensures { result ≡ length (fault_front (fault_as fault)) }
{
    match fault {
        Fault::HardwareError => 38,
        Fault::CommunicationFailed => 50,
        Fault::ReadFailed => 32,
        Fault::OutOfRange => 32,
    }
}

fn put_fault_front(out: &mut [u8], at: usize, fault: Fault) -> usize
    requires { at + length (fault_front (fault_as fault)) ≤ length out.old }
    ensures { Puts out.old at (fault_front (fault_as fault)) out.new result }
{
    match fault {
        Fault::HardwareError => put(out, at, b"[\"HardwareError\",\"HardwareError\",{\"t\":"),
        Fault::CommunicationFailed => put(
            out,
            at,
            b"[\"CommunicationFailed\",\"CommunicationFailed\",{\"t\":",
        ),
        Fault::ReadFailed => put(out, at, b"[\"ReadFailed\",\"ReadFailed\",{\"t\":"),
        Fault::OutOfRange => put(out, at, b"[\"OutOfRange\",\"OutOfRange\",{\"t\":"),
    }
}

fn fault_report_length(fault: Fault, time: u64) -> usize
    ensures { (result ≡ length (fault_report (fault_as fault) time)) × (result ≤ 73) }
{
    fault_front_length(fault) + seconds_length(time) + 2
}

fn put_fault_report(out: &mut [u8], at: usize, fault: Fault, time: u64) -> usize
    requires { at + length (fault_report (fault_as fault) time) ≤ length out.old }
    ensures { Puts out.old at (fault_report (fault_as fault) time) out.new result }
{
    let stamp = put_fault_front(out, at, fault);
    let close = put_seconds(out, stamp, time);
    put(out, close, b"}]")
}

fn held_report_length(sensor: Sensor, value: &[u8], time: u64) -> usize
    ensures { result ≡ length (held_report (held_by sensor value.now) time) }
{
    match sensor {
        Sensor::Works => data_report_length(value, time),
        Sensor::Fails(fault) => fault_report_length(fault, time),
    }
}

fn put_held_report(out: &mut [u8], at: usize, sensor: Sensor, value: &[u8], time: u64) -> usize
    requires { at + length (held_report (held_by sensor value.now) time) ≤ length out.old }
    ensures { Puts out.old at (held_report (held_by sensor value.now) time) out.new result }
{
    match sensor {
        Sensor::Works => put_data_report(out, at, value, time),
        Sensor::Fails(fault) => put_fault_report(out, at, fault, time),
    }
}

// The names are short enough for the sum to fit.
fn report_length(module: &[u8], accessible: &[u8], sensor: Sensor, value: &[u8], time: u64) -> usize
    requires { length «module».now + length accessible.now ≤ 65536 }
    ensures { result ≡ length (report_text (report_of «module».now accessible.now (held_by sensor value.now) time)) }
{
    module.len() + accessible.len() + 2 + held_report_length(sensor, value, time)
}

fn put_report(
    out: &mut [u8],
    at: usize,
    module: &[u8],
    accessible: &[u8],
    sensor: Sensor,
    value: &[u8],
    time: u64,
) -> usize
    requires { at + length (report_text (report_of «module».now accessible.now (held_by sensor value.now) time)) ≤ length out.old }
    ensures { Puts out.old at
        (report_text (report_of «module».now accessible.now (held_by sensor value.now) time)) out.new result }
{
    let space = put3(out, at, module, b":", accessible);
    let data = put_byte(out, space, b' ');
    put_held_report(out, data, sensor, value, time)
}

// The report of a class; the texts stand apart as those above do.
fn class_report_length(class: Class) -> usize
    ensures { result ≡ length (class_report (class_of class)) }
{
    match class {
        Class::ProtocolError => 51,
        Class::NoSuchModule => 36,
        Class::NoSuchParameter => 42,
        Class::NoSuchCommand => 38,
        Class::ReadOnly => 40,
        Class::BadJSON => 33,
        Class::WrongType => 43,
        Class::RangeError => 41,
    }
}

fn put_class_report(out: &mut [u8], at: usize, class: Class) -> usize
    requires { at + length (class_report (class_of class)) ≤ length out.old }
    ensures { Puts out.old at (class_report (class_of class)) out.new result }
{
    match class {
        Class::ProtocolError => put(
            out,
            at,
            b"[\"ProtocolError\",\"malformed or unknown request\",{}]",
        ),
        Class::NoSuchModule => put(out, at, b"[\"NoSuchModule\",\"no such module\",{}]"),
        Class::NoSuchParameter => put(out, at, b"[\"NoSuchParameter\",\"no such parameter\",{}]"),
        Class::NoSuchCommand => put(out, at, b"[\"NoSuchCommand\",\"no such command\",{}]"),
        Class::ReadOnly => put(out, at, b"[\"ReadOnly\",\"parameter is read only\",{}]"),
        Class::BadJSON => put(out, at, b"[\"BadJSON\",\"data is not JSON\",{}]"),
        Class::WrongType => put(out, at, b"[\"WrongType\",\"value has the wrong type\",{}]"),
        Class::RangeError => put(out, at, b"[\"RangeError\",\"value is out of range\",{}]"),
    }
}

fn error_report_length(denial: Denial) -> usize
    ensures { (result ≡ length (error_report (denial_of denial))) × (result ≤ 73) }
{
    match denial {
        Denial::Class(class) => class_report_length(class),
        Denial::Fault(fault, time) => fault_report_length(fault, time),
    }
}

fn put_error_report(out: &mut [u8], at: usize, denial: Denial) -> usize
    requires { at + length (error_report (denial_of denial)) ≤ length out.old }
    ensures { Puts out.old at (error_report (denial_of denial)) out.new result }
{
    match denial {
        Denial::Class(class) => put_class_report(out, at, class),
        Denial::Fault(fault, time) => put_fault_report(out, at, fault, time),
    }
}

// The identification of the first edition.
pub fn put_identification(out: &mut [u8], at: usize) -> usize
    requires { at + length (reply_line (identification None)) ≤ length out.old }
    ensures { Puts out.old at (reply_line (identification None)) out.new result }
{
    put(out, at, b"ISSE&SINE2020,SECoP,V2019-09-16,v1.0")
}

pub fn pong_length(token: &[u8], time: u64) -> usize
    ensures { result ≡ length (reply_line (pong token.now time)) }
{
    token.len() + 6 + data_report_length(b"null", time)
}

pub fn put_pong(out: &mut [u8], at: usize, token: &[u8], time: u64) -> usize
    requires { at + length (reply_line (pong token.now time)) ≤ length out.old }
    ensures { Puts out.old at (reply_line (pong token.now time)) out.new result }
{
    let data = put3(out, at, b"pong ", token, b" ");
    put_data_report(out, data, b"null", time)
}

// A word alone, `active` or `inactive`.
pub fn put_word(out: &mut [u8], at: usize, word: &[u8]) -> usize
    requires { at + length word.now ≤ length out.old }
    ensures { Puts out.old at (optionally word.now None) out.new result }
{
    put(out, at, word)
}

pub fn word_name_length(word: &[u8], name: &[u8]) -> usize
    requires { length word.now + length name.now ≤ 65536 }
    ensures { result ≡ length (optionally word.now (Some name.now)) }
{
    word.len() + 1 + name.len()
}

// A word with a module's name.
pub fn put_word_name(out: &mut [u8], at: usize, word: &[u8], name: &[u8]) -> usize
    requires { at + length (optionally word.now (Some name.now)) ≤ length out.old }
    ensures { Puts out.old at (optionally word.now (Some name.now)) out.new result }
{
    put3(out, at, word, b" ", name)
}

pub fn named_length(
    word: &[u8],
    module: &[u8],
    accessible: &[u8],
    sensor: Sensor,
    value: &[u8],
    time: u64,
) -> usize
    requires { length word.now + length «module».now + length accessible.now ≤ 65536 }
    ensures { result ≡ length (word.now ++ report_text (report_of «module».now accessible.now
        (held_by sensor value.now) time)) }
{
    word.len() + report_length(module, accessible, sensor, value, time)
}

// A word that ends with a space, as `reply `, and a report.
pub fn put_named(
    out: &mut [u8],
    at: usize,
    word: &[u8],
    module: &[u8],
    accessible: &[u8],
    sensor: Sensor,
    value: &[u8],
    time: u64,
) -> usize
    requires { at + length (word.now ++ report_text (report_of «module».now accessible.now (held_by sensor value.now) time)) ≤ length out.old }
    ensures { Puts out.old at (word.now
        ++ report_text (report_of «module».now accessible.now (held_by sensor value.now) time)) out.new result }
{
    let report = put(out, at, word);
    put_report(out, report, module, accessible, sensor, value, time)
}

pub fn error_length(action: &[u8], specifier: &[u8], denial: Denial) -> usize
    requires { length action.now + length specifier.now ≤ 65536 }
    ensures { result ≡ length (reply_line (error action.now specifier.now (denial_of denial))) }
{
    action.len() + specifier.len() + 8 + error_report_length(denial)
}

pub fn put_error(
    out: &mut [u8],
    at: usize,
    action: &[u8],
    specifier: &[u8],
    denial: Denial,
) -> usize
    requires { at + length (reply_line (error action.now specifier.now (denial_of denial))) ≤ length out.old }
    ensures { Puts out.old at (reply_line (error action.now specifier.now (denial_of denial))) out.new result }
{
    let second = put3(out, at, b"error_", action, b" ");
    let space = put(out, second, specifier);
    let report = put_byte(out, space, b' ');
    put_error_report(out, report, denial)
}

// A byte and a number of at most ten digits.
fn put_count(out: &mut [u8], at: usize, mark: u8, n: u32) -> usize
    requires { at + 11 ≤ length out.old }
    ensures { (Puts out.old at (mark ∷ decimal n) out.new result) × (result ≤ at + 11) }
{
    let digits = put_byte(out, at, mark);
    put_decimal(out, digits, n as u64)
}

// "`[lines,errors,updates,active]`", at the front of a buffer of its own.
pub fn put_counts(out: &mut [u8], counts: Counts, active: u32) -> usize
    requires { 64 ≤ length out.old }
    ensures { (Puts out.old 0 (counts_text counts active) out.new result) × (result ≤ length out.old) }
{
    let second = put_count(out, 0, b'[', counts.lines);
    let third = put_count(out, second, b',', counts.errors);
    let fourth = put_count(out, third, b',', counts.updates);
    let close = put_count(out, fourth, b',', active);
    put_byte(out, close, b']')
}

pub fn counted_length(text: &[u8], time: u64) -> usize
    ensures { result ≡ length (counted_text text.now time) }
{
    data_report_length(text, time) + 11
}

// `_counted`, with the text of the counts.
pub fn put_counted(out: &mut [u8], at: usize, text: &[u8], time: u64) -> usize
    requires { at + length (counted_text text.now time) ≤ length out.old }
    ensures { Puts out.old at (counted_text text.now time) out.new result }
{
    let data = put(out, at, b"_counted . ");
    put_data_report(out, data, text, time)
}
