// Runs the calls of a node, but lists of readings, over a script from standard input and writes what each answers. `script::operation` says what a script is
// made of, `script::say` what is written.
#![tactic(auto)]

use input::read_full;
use node::clients::{jihfasul_close, jihfasul_open};
use node::pieces::jihfasul_piece;
use node::readings::jihfasul_reading;
use node::start::jihfasul_start;
use node::unreadable::jihfasul_unreadable;
use promise::Done;
use script::operation::{Operation, class_of, read_operation};
use script::poke::{blank, poked, put_within};
use script::say::{fill, write_answer, write_note, write_state};
use state::State;
use std::io;
use std::io::{BufReader, BufWriter, Read, Write};

// What is handed on from operation to operation: the lengths of the table and of the index that calls are lent, and the state. Nothing is handed on at the
// script's end, and after an operation that the buffers have no room for.
#[derive(Clone, Copy)]
struct HandedOn {
    table: usize,
    index: usize,
    state: State,
}

// The call that an operation names.
fn call(
    table: &[u8],
    values: &mut [u8],
    outbox: &mut [u8],
    state: State,
    o: Operation,
    bytes: &[u8],
    index: &[u8],
) -> Done {
    match o.code {
        b'S' => jihfasul_start(table, values, o.time),
        b'O' => jihfasul_open(table, values, state, o.number, o.time, index),
        b'C' => jihfasul_close(table, values, state, o.number, o.time, index),
        b'P' => jihfasul_piece(table, values, outbox, state, o.number, o.time, bytes, index),
        b'R' => jihfasul_reading(table, values, outbox, state, o.number, o.time, bytes, index),
        _ => jihfasul_unreadable(
            table,
            values,
            outbox,
            state,
            o.number,
            o.time,
            class_of(bytes),
            index,
        ),
    }
}

// A call that is lent the fronts of both areas, and the line about its answer; the outbox then has its pattern again.
fn answered<W: Write>(
    output: &mut W,
    table: &[u8],
    values: &mut [u8],
    outbox: &mut [u8],
    state: State,
    o: Operation,
    bytes: &[u8],
    index: &[u8],
) -> io::Result<State> {
    if values.len() < o.values || outbox.len() < o.outbox {
        return Ok(state);
    }
    let done = call(
        table,
        &mut values[..o.values],
        &mut outbox[..o.outbox],
        state,
        o,
        bytes,
        index,
    );
    write_answer(output, values, outbox, state, o, done)?;
    fill(outbox);
    Ok(done.state)
}

// An operation that is not a table.
fn carried_out<W: Write>(
    output: &mut W,
    table: &[u8],
    values: &mut [u8],
    outbox: &mut [u8],
    state: State,
    o: Operation,
    bytes: &[u8],
    index: &[u8],
) -> io::Result<State> {
    match o.code {
        b'S' | b'O' | b'C' | b'P' | b'R' | b'U' => {
            return answered(output, table, values, outbox, state, o, bytes, index);
        }
        b'N' => write_note(output, bytes)?,
        b'E' => write_state(output, state, o.number)?,
        b'w' => put_within(values, o.number, bytes),
        _ => return Ok(poked(state, o, bytes)),
    }
    Ok(state)
}

// A table, read into a lent buffer.
fn with_table<R: Read>(
    input: &mut R,
    table: &mut [u8],
    handed: HandedOn,
    size: usize,
) -> io::Result<Option<HandedOn>> {
    if table.len() < size {
        return Ok(None);
    }
    let table = read_full(input, &mut table[..size])?;
    Ok(Some(HandedOn { table, ..handed }))
}

// The index that calls are lent from here on, put into a lent buffer.
fn with_index(index: &mut [u8], handed: HandedOn, bytes: &[u8]) -> Option<HandedOn> {
    if index.len() < bytes.len() {
        return None;
    }
    put_within(index, 0, bytes);
    Some(HandedOn {
        index: bytes.len(),
        ..handed
    })
}

// Another operation, its bytes read into a lent buffer.
fn operate<R: Read, W: Write>(
    input: &mut R,
    output: &mut W,
    table: &[u8],
    values: &mut [u8],
    outbox: &mut [u8],
    index: &mut [u8],
    bytes: &mut [u8],
    handed: HandedOn,
    o: Operation,
) -> io::Result<Option<HandedOn>> {
    if bytes.len() < o.size || table.len() < handed.table || index.len() < handed.index {
        return Ok(None);
    }
    read_full(input, &mut bytes[..o.size])?;
    if o.code == b'I' {
        return Ok(with_index(index, handed, &bytes[..o.size]));
    }
    let state = carried_out(
        output,
        &table[..handed.table],
        values,
        outbox,
        handed.state,
        o,
        &bytes[..o.size],
        &index[..handed.index],
    )?;
    Ok(Some(HandedOn { state, ..handed }))
}

// The next operation. It is lent arrays, since a loop that lends slices has to keep account of their lengths.
fn step<R: Read, W: Write>(
    input: &mut R,
    output: &mut W,
    head: &mut [u8; 23],
    table: &mut [u8; 65536],
    values: &mut [u8; 20000],
    outbox: &mut [u8; 40000],
    index: &mut [u8; 256],
    bytes: &mut [u8; 65536],
    handed: HandedOn,
) -> io::Result<Option<HandedOn>> {
    let o = read_operation(input, head)?;
    match o.code {
        0 => Ok(None),
        b'T' => with_table(input, table, handed, o.size),
        _ => operate(
            input, output, table, values, outbox, index, bytes, handed, o,
        ),
    }
}

// A proved loop has to end: there are far fewer operations.
fn main(rt: HostRuntime) -> io::Result<()> {
    let mut input = BufReader::new(rt.alloc(), rt.reader())?;
    let mut output = BufWriter::new(rt.alloc(), io::writer(&rt))?;
    let mut head = [0u8; 23];
    let mut table = [0u8; 65536];
    let mut values = [0u8; 20000];
    let mut outbox = [0u8; 40000];
    let mut index = [0u8; 256];
    let mut bytes = [0u8; 65536];
    fill(&mut outbox);
    let mut handed = HandedOn {
        table: 0,
        index: 0,
        state: blank(),
    };
    for _ in 0..1000000u32 {
        let Some(next) = step(
            &mut input,
            &mut output,
            &mut head,
            &mut table,
            &mut values,
            &mut outbox,
            &mut index,
            &mut bytes,
            handed,
        )?
        else {
            break;
        };
        handed = next;
    }
    output.flush()
}
