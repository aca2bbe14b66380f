// Replays a trace on a fresh node and writes what is told of it. Its arguments: the file of a table, the start's time in milliseconds, and the file
// of a trace. What it can't do it says on standard error, and then writes nothing else; all that it writes on standard output is made by `summary`.
#![tactic(auto)]

mod feeding;
mod files;
mod time;

ghost use Rattle.summary.specs.Clauses.Figured.{Tellable};

use feeding::feed_all;
use figures::Figures;
use files::{open_argument, read_table};
use limits::{OUTBOX, VALUES};
use replay::begin;
use std::io::Read;
use std::rt::Files;
use std::{env, io};
use summary::figured::put_figures;
use summary::{put_start, put_summary};
use time::time_argument;

// A table that is too long is refused (1), so one byte more than the longest is enough.
const TABLE: usize = 16385;

fn values_area() -> [u8; VALUES] {
    [0; VALUES]
}

fn outbox() -> [u8; OUTBOX] {
    [0; OUTBOX]
}

// M-111's lines, "after all of M-110's lines".
fn tell_figures(
    rt: &impl Print,
    table: &[u8],
    outbox: &mut [u8],
    figures: Figures,
) -> io::Result<()>
    requires { Tellable table.now figures outbox.old }
{
    let size = put_figures(table, outbox, figures);
    rt.write_all(&outbox[..size])
}

// The replay of an open trace.
fn night<F: Read>(
    rt: &(impl Print + Eprint),
    table: &[u8],
    time: u64,
    trace: &mut F,
) -> io::Result<()> {
    let mut values = values_area();
    let mut outbox = outbox();
    let started = begin(table, &values, time);
    let number = started.number as u64;
    if number != 0 {
        let size = put_start(&mut outbox, number);
        return rt.write_all(&outbox[..size]);
    }
    let first = started.replay;
    let fed = feed_all(rt, table, &mut values, &mut outbox, first, trace);
    if fed.failed {
        return Ok(());
    }
    let last = fed.replay;
    let size = put_summary(table, &values, &mut outbox, last);
    rt.write_all(&outbox[..size])?;
    let figures = last.figures;
    tell_figures(rt, table, &mut outbox, figures)
}

// Both files are opened and the table is read before anything is written.
fn run<R: Files + Print + Eprint>(rt: &R, table: &str, time: u64, trace: &str) -> io::Result<()> {
    let Some(mut from) = open_argument(rt, table) else {
        return Ok(());
    };
    let mut space = [0u8; TABLE];
    let Some(size) = read_table(rt, &mut from, &mut space) else {
        return Ok(());
    };
    let Some(mut trace) = open_argument(rt, trace) else {
        return Ok(());
    };
    night(rt, &space[..size], time, &mut trace)
}

fn main(rt: HostRuntime) -> io::Result<()> {
    let mut args = env::args(&rt)?;
    args.next();
    let (Some(table), Some(time), Some(trace), None) = (
        args.next(),
        args.next(),
        args.next(),
        args.next(),
    ) else {
        return eprintln!(rt; "usage: night TABLE TIME TRACE");
    };
    let Some(time) = time_argument(time.as_str()) else {
        return eprintln!(rt; "night: TIME is not in decimal digits, 64 at most");
    };
    run(&rt, table.as_str(), time, trace.as_str())
}
