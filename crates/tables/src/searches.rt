// What is found in a table. The searches in it follow it in the input, each begun by a letter that says which it is, and a byte 0 ends
// them. A name is a length byte and its bytes. What is found is written one to a line.
ghost use Rattle.std.specs.Prelude.{◌≤◌, IfOk, length};
ghost use Rattle.table.specs.Layout.{Readable};

use describe::judge::table_number;
use input::{read_byte, read_full};
use search::find::{find_command, find_module, find_parameter, module_count, parameter_by_number};
use std::io;
use std::io::{Read, Write};
use table::layout::{CommandAt, ParameterAt, Part, is_readable};

fn write_nothing<W: Write>(output: &mut W) -> io::Result<()> {
    output.write_all(b"none\n")
}

fn write_module<W: Write>(output: &mut W, number: usize, at: usize) -> io::Result<()> {
    writeln!(output, "module {number} at {at}")
}

// A parameter's number, its module's, and where its datainfo and its initial value lie.
fn write_parameter<W: Write>(
    output: &mut W,
    number: usize,
    home: usize,
    q: ParameterAt,
) -> io::Result<()> {
    write!(output, "parameter {number} of {home}")?;
    if q.readonly {
        output.write_all(b" readonly")?;
    }
    let Part { from, to } = q.initial;
    writeln!(output, " datainfo {} initial {from} to {to}", q.info)
}

// A command's number, its module's, and where its argument's datainfo lies, if it has one.
fn write_command<W: Write>(
    output: &mut W,
    number: usize,
    home: usize,
    q: CommandAt,
) -> io::Result<()> {
    write!(output, "command {number} of {home}")?;
    if q.argument {
        write!(output, " argument {}", q.info)?;
    }
    output.write_all(b"\n")
}

// A name, read to the front of a lent buffer; its length.
fn name_in<R: Read>(input: &mut R, space: &mut [u8]) -> io::Result<usize>
    ensures { IfOk result (λ n. n ≤ length space.new) }
{
    let n = read_byte(input)? as usize;
    if space.len() < n {
        return Ok(0);
    }
    read_full(input, &mut space[..n])?;
    Ok(n)
}

fn find_module_in<R: Read, W: Write>(input: &mut R, output: &mut W, s: &[u8]) -> io::Result<()>
    requires { Readable s.now }
{
    let mut name = [0u8; 4096];
    let n = name_in(input, &mut name)?;
    match find_module(s, &name[..n]) {
        Some((number, at)) => write_module(output, number, at),
        None => write_nothing(output),
    }
}

fn find_parameter_in<R: Read, W: Write>(input: &mut R, output: &mut W, s: &[u8]) -> io::Result<()>
    requires { Readable s.now }
{
    let mut module = [0u8; 4096];
    let mut name = [0u8; 4096];
    let m = name_in(input, &mut module)?;
    let n = name_in(input, &mut name)?;
    match find_parameter(s, &module[..m], &name[..n]) {
        Some((number, home, q)) => write_parameter(output, number, home, q),
        None => write_nothing(output),
    }
}

fn find_command_in<R: Read, W: Write>(input: &mut R, output: &mut W, s: &[u8]) -> io::Result<()>
    requires { Readable s.now }
{
    let mut module = [0u8; 4096];
    let mut name = [0u8; 4096];
    let m = name_in(input, &mut module)?;
    let n = name_in(input, &mut name)?;
    match find_command(s, &module[..m], &name[..n]) {
        Some((number, home, q)) => write_command(output, number, home, q),
        None => write_nothing(output),
    }
}

// The parameter of a number, which is a byte.
fn find_number_in<R: Read, W: Write>(input: &mut R, output: &mut W, s: &[u8]) -> io::Result<()>
    requires { Readable s.now }
{
    let k = read_byte(input)? as usize;
    match parameter_by_number(s, k) {
        Some((q, e)) => {
            let home = e.modules - 1;
            write_parameter(output, k, home, q)
        }
        None => write_nothing(output),
    }
}

fn count_modules<W: Write>(output: &mut W, s: &[u8]) -> io::Result<()>
    requires { Readable s.now }
{
    writeln!(output, "modules {}", module_count(s))
}

// The table's number, judged 1,000 times, to measure how long that takes.
fn judged_again(s: &[u8]) -> u8 {
    let mut n = 0;
    for _ in 0..1000u32 {
        n = table_number(s);
    }
    n
}

fn judge_again<W: Write>(output: &mut W, s: &[u8]) -> io::Result<()> {
    writeln!(output, "again {}", judged_again(s))
}

// One search of a kind in a table that can be read; whether there is such a kind.
fn write_search<R: Read, W: Write>(
    input: &mut R,
    output: &mut W,
    s: &[u8],
    kind: u8,
) -> io::Result<bool>
    requires { Readable s.now }
{
    match kind {
        b'm' => find_module_in(input, output, s)?,
        b'p' => find_parameter_in(input, output, s)?,
        b'c' => find_command_in(input, output, s)?,
        b'n' => find_number_in(input, output, s)?,
        b'k' => count_modules(output, s)?,
        _ => {
            return Ok(false);
        }
    }
    Ok(true)
}

// One search, or the table judged again; whether there was one. In a table that can't be read nothing is sought.
fn write_found<R: Read, W: Write>(input: &mut R, output: &mut W, s: &[u8]) -> io::Result<bool> {
    let kind = read_byte(input)?;
    if kind == b'j' {
        judge_again(output, s)?;
        return Ok(true);
    }
    if is_readable(s) {
        return write_search(input, output, s, kind);
    }
    Ok(false)
}

// Each search that follows a table; there are far fewer than a million.
pub(crate) fn write_all_found<R: Read, W: Write>(
    input: &mut R,
    output: &mut W,
    s: &[u8],
) -> io::Result<()> {
    for _ in 0..1000000u32 {
        if !write_found(input, output, s)? {
            break;
        }
    }
    Ok(())
}
