// Reads tables from standard input and writes of each its number, the structure report of an accepted one, and what is found in it. A
// table is three bytes with its length, its bytes, and the searches in it.
#![tactic(auto)]

mod searches;

ghost use Rattle.std.specs.Prelude.{◌≡◌, ◌≤◌, length};
ghost use Rattle.report.specs.Judge.{table_number};

use describe::judge::table_number;
use describe::structure::{put_report, report_length};
use input::read_full;
use std::io;
use std::io::{BufReader, BufWriter, Read, Write};

fn number(high: u8, middle: u8, low: u8) -> usize {
    high as usize * 65536 + middle as usize * 256 + low as usize
}

// Whether a part of the buffer for reports is as it was made.
fn is_untouched(part: &[u8]) -> bool {
    part.iter().all(|b| *b == 165)
}

// No byte of a report is 165, so that one that was written before or after it would show.
fn write_stray<W: Write>(output: &mut W, out: &[u8], from: usize, to: usize) -> io::Result<()>
    requires { (from ≤ length out.now) × (to ≤ length out.now) }
{
    if !is_untouched(&out[..from]) {
        output.write_all(b" written before")?;
    }
    if !is_untouched(&out[to..]) {
        output.write_all(b" written after")?;
    }
    Ok(())
}

// The report of an accepted table, put into the middle of a lent buffer: where it ends.
fn report_in(s: &[u8], out: &mut [u8]) -> usize
    requires { (table_number s.now ≡ 0) × (33000 ≤ length out.old) }
    ensures { (500 ≤ result) × (result ≤ length out.new) }
{
    put_report(out, 500, s)
}

fn write_length<W: Write>(output: &mut W, s: &[u8]) -> io::Result<()>
    requires { table_number s.now ≡ 0 }
{
    write!(output, " {}", report_length(s))
}

fn write_report<W: Write>(output: &mut W, s: &[u8], out: &mut [u8]) -> io::Result<()>
    requires { (table_number s.now ≡ 0) × (33000 ≤ length out.old) }
{
    let from = 500;
    let to = report_in(s, out);
    write_length(output, s)?;
    output.write_all(b" ")?;
    output.write_all(&out[from..to])?;
    write_stray(output, out, from, to)?;
    output.write_all(b"\n")
}

fn write_judgement<W: Write>(output: &mut W, s: &[u8], out: &mut [u8]) -> io::Result<()> {
    if out.len() < 33000 {
        return Ok(());
    }
    let n = table_number(s);
    write!(output, "{n}")?;
    if n != 0 {
        return output.write_all(b"\n");
    }
    write_report(output, s, out)
}

// A table, read into a lent buffer; whether there was one.
fn table_in<R: Read, W: Write>(
    input: &mut R,
    output: &mut W,
    head: &mut [u8],
    space: &mut [u8],
    out: &mut [u8],
) -> io::Result<bool> {
    if head.len() < 3 {
        return Ok(false);
    }
    if read_full(input, head)? < 3 {
        return Ok(false);
    }
    let n = number(head[0], head[1], head[2]);
    if space.len() < n {
        return Ok(false);
    }
    read_full(input, &mut space[..n])?;
    write_judgement(output, &space[..n], out)?;
    searches::write_all_found(input, output, &space[..n])?;
    Ok(true)
}

fn one_table<R: Read, W: Write>(input: &mut R, output: &mut W) -> io::Result<bool> {
    let mut head = [0u8; 3];
    let mut space = [0u8; 65536];
    let mut out = [165u8; 33000];
    table_in(input, output, &mut head, &mut space, &mut out)
}

// A proved loop has to end: there are far fewer tables.
fn main(rt: HostRuntime) -> io::Result<()> {
    let mut input = BufReader::new(rt.alloc(), rt.reader())?;
    let mut output = BufWriter::new(rt.alloc(), io::writer(&rt))?;
    for _ in 0..1000000u32 {
        if !one_table(&mut input, &mut output)? {
            break;
        }
    }
    output.flush()
}
