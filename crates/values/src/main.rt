// Reads cases from standard input, each a datainfo and a text, and writes what the text comes to, one to a line: `fits` and its stored
// form, or the error class; `no datainfo` where there is none. A case is two bytes with the datainfo's length, two with the text's, and the
// bytes of both.
#![tactic(auto)]

ghost use Rattle.datainfo.specs.Layout.{ReadableAt};
ghost use Rattle.form.specs.Clauses.Formed.{FitsAt};

use fit::Misfit;
use input::read_full;
use limits::{DATAINFO_LEVELS, PLACE};
use std::io;
use std::io::{BufReader, BufWriter, Read, Write};

fn write_fit<W: Write>(output: &mut W, info: &[u8], text: &[u8]) -> io::Result<()>
    requires { FitsAt info.now 0 text.now }
{
    let mut stored = [0; PLACE];
    let n = form::put_form(info, 0, &mut stored, 0, text);
    output.write_all(b"fits ")?;
    output.write_all(&stored[..n])?;
    output.write_all(b"\n")
}

fn write_verdict<W: Write>(output: &mut W, info: &[u8], text: &[u8]) -> io::Result<()>
    requires { ReadableAt info.now 0 4 }
{
    match form::verdict(info, 0, text) {
        Ok(()) => write_fit(output, info, text),
        Err(Misfit::RangeError) => output.write_all(b"RangeError\n"),
        Err(Misfit::WrongType) => output.write_all(b"WrongType\n"),
        Err(Misfit::BadJson) => output.write_all(b"BadJSON\n"),
    }
}

fn judge_case<W: Write>(output: &mut W, info: &[u8], text: &[u8]) -> io::Result<()> {
    match datainfo::layout::datainfo_end(info, 0, DATAINFO_LEVELS) {
        Some(_) => write_verdict(output, info, text),
        None => output.write_all(b"no datainfo\n"),
    }
}

// The bytes of a case whose lengths were read.
fn read_case<R: Read, W: Write>(
    input: &mut R,
    output: &mut W,
    info: &mut [u8],
    text: &mut [u8],
) -> io::Result<()> {
    read_full(input, info)?;
    read_full(input, text)?;
    judge_case(output, info, text)
}

// A case; whether there was one for which the buffers have room.
fn one_case<R: Read, W: Write>(input: &mut R, output: &mut W) -> io::Result<bool> {
    let mut head = [0; 4];
    let mut info = [0; 4096];
    let mut text = [0; 4096];
    if read_full(input, &mut head)? < head.len() {
        return Ok(false);
    }
    let [a, b, c, d] = head;
    let n = usize::from(u16::from_be_bytes([a, b]));
    let m = usize::from(u16::from_be_bytes([c, d]));
    if info.len() < n || text.len() < m {
        return Ok(false);
    }
    read_case(input, output, &mut info[..n], &mut text[..m])?;
    Ok(true)
}

// A proved loop has to end: there are far fewer cases.
fn main(rt: HostRuntime) -> io::Result<()> {
    let mut input = BufReader::new(rt.alloc(), rt.reader())?;
    let mut output = BufWriter::new(rt.alloc(), io::writer(&rt))?;
    for _ in 0..1000000u32 {
        if !one_case(&mut input, &mut output)? {
            break;
        }
    }
    output.flush()
}
