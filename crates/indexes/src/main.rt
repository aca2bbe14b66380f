// Reads tables from standard input and, beside each, fills an index that it keeps, writes bytes into it, and seeks accessibles with it or without one.
// A table is three bytes with its length, its bytes, and the operations on the index, each begun by a letter that says which it is; a byte 0 ends them.
// A length is a byte, and so many of the kept bytes are lent; a name is a length byte and its bytes. Each filling and each search writes a line.
#![tactic(auto)]

ghost use Rattle.std.specs.Prelude.{◌≡◌, ◌≤◌, IfOk, length};
ghost use Rattle.report.specs.Judge.{table_number};

use describe::judge::table_number;
use input::{read_byte, read_full};
use search::locate::Located;
use seek::fill::fill;
use seek::locate::locate;
use std::io;
use std::io::{BufReader, BufWriter, Read, Write};

fn number(high: u8, middle: u8, low: u8) -> usize {
    high as usize * 65536 + middle as usize * 256 + low as usize
}

// A name, read to the front of a lent buffer; its length.
fn name_in<R: Read>(input: &mut R, space: &mut [u8]) -> io::Result<usize>
    ensures { IfOk result (λ n. n ≤ length space.new) }
{
    let n = read_byte(input)? as usize;
    if space.len() < n {
        return Ok(0);
    }
    read_full(input, &mut space[..n])?;
    Ok(n)
}

// A length of kept bytes; all of them where there are fewer.
fn length_in<R: Read>(input: &mut R, kept: &[u8]) -> io::Result<usize>
    ensures { IfOk result (λ n. n ≤ length kept.now) }
{
    let n = read_byte(input)? as usize;
    Ok(n.min(kept.len()))
}

fn write_bytes<W: Write>(output: &mut W, s: &[u8]) -> io::Result<()> {
    for b in s {
        write!(output, "{b:02x}")?;
    }
    Ok(())
}

// A filling's number, and all bytes that are kept after it.
fn fill_in<R: Read, W: Write>(
    input: &mut R,
    output: &mut W,
    s: &[u8],
    kept: &mut [u8],
) -> io::Result<()> {
    let n = length_in(input, kept)?;
    write!(output, "fill {} ", fill(s, &mut kept[..n]))?;
    write_bytes(output, kept)?;
    writeln!(output)
}

// A place, and the byte there.
fn write_in<R: Read>(input: &mut R, kept: &mut [u8]) -> io::Result<()> {
    let at = read_byte(input)? as usize;
    let b = read_byte(input)?;
    if at < kept.len() {
        kept[at] = b;
    }
    Ok(())
}

// What is located: its number among its kind, and its module's.
fn write_located<W: Write>(output: &mut W, located: Located) -> io::Result<()> {
    match located {
        Located::NoModule => write!(output, "no module"),
        Located::Nothing => write!(output, "none"),
        Located::Parameter(k, home, _) => write!(output, "parameter {k} of {home}"),
        Located::Command(k, home, _) => write!(output, "command {k} of {home}"),
    }
}

// An accessible sought in an accepted table, and the steps.
fn seek_in<R: Read, W: Write>(
    input: &mut R,
    output: &mut W,
    s: &[u8],
    kept: &[u8],
) -> io::Result<()>
    requires { table_number s.now ≡ 0 }
{
    let mut module = [0u8; 4096];
    let mut name = [0u8; 4096];
    let lent = length_in(input, kept)?;
    let m = name_in(input, &mut module)?;
    let n = name_in(input, &mut name)?;
    let r = locate(s, &kept[..lent], &module[..m], &name[..n]);
    write_located(output, r.located)?;
    writeln!(output, " steps {}", r.steps)
}

// One operation; whether there was one. In a table that is refused nothing is sought.
fn operation_in<R: Read, W: Write>(
    input: &mut R,
    output: &mut W,
    s: &[u8],
    kept: &mut [u8],
) -> io::Result<bool> {
    match read_byte(input)? {
        b'f' => fill_in(input, output, s, kept)?,
        b'b' => write_in(input, kept)?,
        b's' => {
            if table_number(s) != 0 {
                return Ok(false);
            }
            seek_in(input, output, s, kept)?;
        }
        _ => return Ok(false),
    }
    Ok(true)
}

// Each operation that follows a table; there are far fewer than a million.
fn operations_in<R: Read, W: Write>(
    input: &mut R,
    output: &mut W,
    s: &[u8],
    kept: &mut [u8],
) -> io::Result<()> {
    for _ in 0..1000000u32 {
        if !operation_in(input, output, s, kept)? {
            break;
        }
    }
    Ok(())
}

// A table, read into a lent buffer; whether there was one.
fn table_in<R: Read, W: Write>(
    input: &mut R,
    output: &mut W,
    head: &mut [u8],
    space: &mut [u8],
    kept: &mut [u8],
) -> io::Result<bool> {
    if head.len() < 3 {
        return Ok(false);
    }
    if read_full(input, head)? < 3 {
        return Ok(false);
    }
    let n = number(head[0], head[1], head[2]);
    if space.len() < n {
        return Ok(false);
    }
    read_full(input, &mut space[..n])?;
    operations_in(input, output, &space[..n], kept)?;
    Ok(true)
}

fn one_table<R: Read, W: Write>(
    input: &mut R,
    output: &mut W,
    kept: &mut [u8],
) -> io::Result<bool> {
    let mut head = [0u8; 3];
    let mut space = [0u8; 65536];
    table_in(input, output, &mut head, &mut space, kept)
}

// A proved loop has to end: there are far fewer tables.
fn main(rt: HostRuntime) -> io::Result<()> {
    let mut input = BufReader::new(rt.alloc(), rt.reader())?;
    let mut output = BufWriter::new(rt.alloc(), io::writer(&rt))?;
    let mut kept = [0u8; 160];
    for _ in 0..1000000u32 {
        if !one_table(&mut input, &mut output, &mut kept)? {
            break;
        }
    }
    output.flush()
}
