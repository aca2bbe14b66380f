// A script is operations one after the other, each a head of 23 bytes and the bytes that it announces. The head is a code, a number (u64), a
// time (u64), and three u16: the lengths of the values area and of the outbox that are lent, and how many bytes follow. Numbers are
// big-endian. The codes:
//
//   T        the bytes are the table from here on; the state stays
//   I        the bytes are the index that calls are lent from here on; none where there are no bytes
//   S O C    start, open, close; the number is the client's
//   P R      a piece of a client, a reading of a parameter; the bytes are what is offered
//   U        a parameter can't be read; the bytes are its class, eight of them
//   o v a n  of client number: the open flag, the overlong flag, the active modules, the length of its line becomes the time
//   l        the lines have the bytes from the place number on
//   z t e    of parameter number: the length of its stored value, its time, its error's class becomes the time
//   w        the values area has the bytes from the place number on
//   E        write the state, with so many parameters
//   N        write the bytes as a line
ghost use Rattle.std.specs.Prelude.{◌≡◌, ◌⊎◌, ◌≤◌, IfOk, length, get_or};
ghost use Rattle.script.specs.Clauses.Head.{number_at, FromHead};

use ascii::numbers::unsigned;
use input::read_full;
use std::io;
use std::io::Read;

// What a head says. Code 0 is the end of the script.
#[derive(Clone, Copy)]
pub struct Operation {
    pub code: u8,
    pub number: u64,
    pub time: u64,
    pub values: usize,
    pub outbox: usize,
    pub size: usize,
}

// The number of k bytes at a place, 0 where they are not all there.
fn number_at(bytes: &[u8], at: usize, k: usize) -> u64
    requires { (at ≤ length bytes.now) × (k ≤ 8) }
    ensures { result ≡ number_at bytes.now at k }
{
    match unsigned(bytes, at, k) {
        Some((n, _)) => n,
        None => 0,
    }
}

// The class of an error, by an operation's bytes.
pub fn class_of(bytes: &[u8]) -> u64
    ensures { result ≡ number_at bytes.now 0 8 }
{
    number_at(bytes, 0, 8)
}

// The code of a head of which so many bytes were read.
fn code_of(head: &[u8; 23], count: usize) -> u8
    ensures { (result ≡ 0) ⊎ (result ≡ get_or head.now 0 0) }
{
    if count == head.len() { head[0] } else { 0 }
}

// The next head, read into a lent buffer. Which bytes come from standard input no promise can say.
pub fn read_operation<R: Read>(input: &mut R, head: &mut [u8; 23]) -> io::Result<Operation>
    ensures { IfOk result (FromHead head.new) }
{
    let count = read_full(input, head)?;
    Ok(Operation {
        code: code_of(head, count),
        number: number_at(head, 1, 8),
        time: number_at(head, 9, 8),
        values: number_at(head, 17, 2) as usize,
        outbox: number_at(head, 19, 2) as usize,
        size: number_at(head, 21, 2) as usize,
    })
}
