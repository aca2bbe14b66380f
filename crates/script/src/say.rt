// What is written to standard output. A call has a line: its name, the number, how many bytes it used and wrote, the steps of its search, the
// digests of the whole outbox and of the whole values area after it, then what it wrote or, if it was refused, whether the state is what it was
// (for a start: the state with every number 0). A state has a line for each client (number, open, overlong, active modules, length of its line
// and the line) and for each parameter (number, length of its stored value, class of its error, time), and then one for each client's counts
// (number, lines, errors, updates). Bytes outside 32 to 126 and the backslash are written as a backslash and two hexadecimal digits.
ghost use Rattle.std.specs.Prelude.{◌<◌};
ghost use Rattle.script.specs.Clauses.Pattern.{Filled};

use crate::operation::Operation;
use crate::poke::blank;
use counter::Counts;
use limits::{ACCESSIBLES, CLIENTS, LINE};
use promise::Done;
use state::{Clients, Settings, State};
use std::io;
use std::io::Write;

// The pattern that stands in an outbox before a call.
pub fn fill(outbox: &mut [u8])
    ensures { Filled outbox.old outbox.new }
{
    for (i, b) in outbox.iter_mut().enumerate() {
        *b = (i % 251) as u8;
    }
}

// Digests are remainders by 2 to the 40th.
const DIGEST: u64 = 1099511627776;

// A number's remainder with one more digit in base 257.
fn with_digit(sum: u64, b: u8) -> u64 {
    sum % DIGEST * 257 + u64::from(b)
}

// The bytes as digits of a number in base 257, its remainder.
fn digest(s: &[u8]) -> u64 {
    s.iter().fold(0, |sum, b| with_digit(sum, *b)) % DIGEST
}

fn write_byte<W: Write>(output: &mut W, b: u8) -> io::Result<()> {
    if matches!(b, b' '..=b'~') && b != b'\\' {
        output.write_all(&[b])
    } else {
        write!(output, "\\{b:02x}")
    }
}

fn write_bytes<W: Write>(output: &mut W, s: &[u8]) -> io::Result<()> {
    for b in s {
        write_byte(output, *b)?;
    }
    Ok(())
}

fn write_kept<W: Write>(output: &mut W, before: &State, after: &State) -> io::Result<()> {
    if before == after {
        output.write_all(b" kept\n")
    } else {
        output.write_all(b" altered\n")
    }
}

// The end of an accepted call's line.
fn write_written<W: Write>(output: &mut W, outbox: &[u8], written: usize) -> io::Result<()> {
    let Some(text) = outbox.get(..written) else {
        return output.write_all(b" beyond\n");
    };
    if !text.is_empty() {
        output.write_all(b" ")?;
    }
    write_bytes(output, text)?;
    output.write_all(b"\n")
}

fn name(code: u8) -> &'static str {
    match code {
        b'S' => "start",
        b'O' => "open",
        b'C' => "close",
        b'P' => "piece",
        b'R' => "reading",
        _ => "unreadable",
    }
}

pub fn write_answer<W: Write>(
    output: &mut W,
    values: &[u8],
    outbox: &[u8],
    before: State,
    o: Operation,
    done: Done,
) -> io::Result<()> {
    let call = name(o.code);
    let outbox_digest = digest(outbox);
    let values_digest = digest(values);
    write!(
        output,
        "{call} {} {} {} {}",
        done.number, done.used, done.written, done.steps
    )?;
    write!(output, " {outbox_digest} {values_digest}")?;
    if done.number == 0 {
        write_written(output, outbox, done.written)
    } else if o.code == b'S' {
        write_kept(output, &blank(), &done.state)
    } else {
        write_kept(output, &before, &done.state)
    }
}

pub fn write_note<W: Write>(output: &mut W, bytes: &[u8]) -> io::Result<()> {
    output.write_all(b"# ")?;
    write_bytes(output, bytes)?;
    output.write_all(b"\n")
}

// The unfinished line of a client, if it has one that is within bounds.
fn write_line<W: Write>(output: &mut W, s: &Clients, c: usize) -> io::Result<()>
    requires { c < 8 }
{
    let size = usize::from(s.length[c]);
    if size == 0 || LINE < size {
        return Ok(());
    }
    output.write_all(b" ")?;
    write_bytes(output, &s.lines[LINE * c..LINE * c + size])
}

fn write_clients<W: Write>(output: &mut W, s: &Clients) -> io::Result<()> {
    for c in 0..CLIENTS {
        let (open, overlong) = (u8::from(s.open[c] != 0), u8::from(s.overlong[c] != 0));
        write!(
            output,
            "client {c} {open} {overlong} {} {}",
            s.active[c], s.length[c]
        )?;
        write_line(output, s, c)?;
        output.write_all(b"\n")?;
    }
    Ok(())
}

fn write_parameters<W: Write>(output: &mut W, s: &Settings, count: u64) -> io::Result<()> {
    for k in 0..ACCESSIBLES {
        if k as u64 >= count {
            break;
        }
        writeln!(
            output,
            "parameter {k} {} {} {}",
            s.length[k], s.error[k], s.time[k]
        )?;
    }
    Ok(())
}

fn write_counts<W: Write>(output: &mut W, counts: &[Counts; CLIENTS]) -> io::Result<()> {
    for (c, one) in counts.iter().enumerate() {
        writeln!(
            output,
            "counts {c} {} {} {}",
            one.lines, one.errors, one.updates
        )?;
    }
    Ok(())
}

// The state, with the first so many parameters.
pub fn write_state<W: Write>(output: &mut W, state: State, count: u64) -> io::Result<()> {
    write_clients(output, &state.clients)?;
    write_parameters(output, &state.settings, count)?;
    write_counts(output, &state.counts)
}
