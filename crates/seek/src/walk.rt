// A walk over all accessibles of a table that can be read, in table order. It counts those that it has passed, all and of each kind: the counts are
// the numbers of the next one.
ghost use Rattle.table.specs.Layout.{Readable};
ghost use Rattle.seek.specs.Clauses.Walk.{Passed, Begins, StepIs, NumberedIs};

use search::cursor::{Cursor, first_cursor, next_accessible};
use table::layout::Accessible;

#[derive(Clone, Copy)]
pub struct Walk {
    pub cursor: Cursor,
    pub accessibles: usize,
    pub parameters: usize,
    pub commands: usize,
}

pub fn begin(s: &[u8]) -> Walk
    requires { Readable s.now }
    ensures { Begins s.now result }
{
    Walk {
        cursor: first_cursor(s),
        accessibles: 0,
        parameters: 0,
        commands: 0,
    }
}

pub fn advance(s: &[u8], w: Walk) -> Option<(Accessible, Walk)>
    requires { Passed s.now w }
    ensures { StepIs s.now w result }
{
    let (a, cursor) = next_accessible(s, w.cursor)?;
    let accessibles = w.accessibles + 1;
    match a {
        Accessible::Parameter(_) => Some((
            a,
            Walk {
                cursor,
                accessibles,
                parameters: w.parameters + 1,
                ..w
            },
        )),
        Accessible::Command(_) => Some((
            a,
            Walk {
                cursor,
                accessibles,
                commands: w.commands + 1,
                ..w
            },
        )),
    }
}

// The accessible of a number, with the walk after it.
pub fn numbered(s: &[u8], k: usize) -> Option<(Accessible, Walk)>
    requires { Readable s.now }
    ensures { NumberedIs s.now k result }
{
    let mut w = begin(s);
    while let Some((a, v)) = advance(s, w) {
        if w.accessibles == k {
            return Some((a, v));
        }
        w = v;
    }
    None
}
