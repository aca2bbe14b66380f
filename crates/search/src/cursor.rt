// A walk over the parameters and commands of a table that can be read, in table order. A cursor of the walk comes from `first_cursor` or from the
// step before.
ghost use Rattle.std.specs.Prelude.{◌≡◌, false, ◌≤◌, length};
ghost use Rattle.table.specs.Layout.{Readable};
ghost use Rattle.search.specs.Clauses.Left.{follows, OnWay, FirstCursor, RecordIs, name_of, NextAccessibleIs, NextParameterIs, NextCommandIs};

use table::layout::{
    Accessible, CommandAt, ParameterAt, Part, accessible_at, head_at, heading_at, is_accessible,
};

// Where the next record begins, how many modules have begun, and the name of the latest.
#[derive(Clone, Copy)]
pub struct Cursor {
    pub at: usize,
    pub modules: usize,
    pub name: Part,
}

// The record at a cursor, with the cursor after it. `End` stands for the end of the table.
#[derive(Clone, Copy)]
pub(crate) enum Record {
    Parameter(ParameterAt, Cursor),
    Command(CommandAt, Cursor),
    Module(Cursor),
    End,
}

// The cursor before the first module, with no name yet.
pub fn first_cursor(s: &[u8]) -> Cursor
    requires { Readable s.now }
    ensures { FirstCursor s.now result }
{
    let Some(h) = head_at(s) else {
        return Cursor {
            at: 0,
            modules: 0,
            name: Part { from: 0, to: 0 },
        };
    };
    Cursor {
        at: h.first,
        modules: 0,
        name: Part {
            from: h.first,
            to: h.first,
        },
    }
}

// Whether a parameter or a command of the latest module is next.
fn is_next(s: &[u8], c: Cursor) -> bool
    requires { c.at ≤ length s.now }
    ensures { result ≡ follows s.now c }
{
    c.modules != 0 && is_accessible(s, c.at)
}

// Into the next module.
fn enter(s: &[u8], c: Cursor) -> Record
    requires { OnWay s.now c × (follows s.now c ≡ false) }
    ensures { RecordIs s.now c result }
{
    let Some(m) = heading_at(s, c.at) else {
        return Record::End;
    };
    Record::Module(Cursor {
        at: m.next,
        modules: c.modules + 1,
        name: m.name,
    })
}

// The record at a cursor: a parameter or a command of the latest module, or else the next module.
fn next_record(s: &[u8], c: Cursor) -> Record
    requires { OnWay s.now c }
    ensures { RecordIs s.now c result }
{
    if !is_next(s, c) {
        return enter(s, c);
    }
    match accessible_at(s, c.at) {
        Some(Accessible::Parameter(q)) => Record::Parameter(q, Cursor { at: q.next, ..c }),
        Some(Accessible::Command(q)) => Record::Command(q, Cursor { at: q.next, ..c }),
        None => Record::End,
    }
}

// Where the name of an accessible lies.
pub fn name_of(a: Accessible) -> Part
    ensures { result ≡ name_of a }
{
    match a {
        Accessible::Parameter(q) => q.name,
        Accessible::Command(q) => q.name,
    }
}

// Into the modules that follow.
pub fn next_accessible(s: &[u8], c: Cursor) -> Option<(Accessible, Cursor)>
    requires { OnWay s.now c }
    ensures { NextAccessibleIs s.now c result }
{
    let mut i = c;
    loop {
        match next_record(s, i) {
            Record::Parameter(q, e) => return Some((Accessible::Parameter(q), e)),
            Record::Command(q, e) => return Some((Accessible::Command(q), e)),
            Record::Module(e) => i = e,
            Record::End => return None,
        }
    }
}

// Past commands, and into the modules that follow.
pub fn next_parameter(s: &[u8], c: Cursor) -> Option<(ParameterAt, Cursor)>
    requires { OnWay s.now c }
    ensures { NextParameterIs s.now c result }
{
    let mut i = c;
    loop {
        match next_record(s, i) {
            Record::Parameter(q, e) => return Some((q, e)),
            Record::Command(_, e) | Record::Module(e) => i = e,
            Record::End => return None,
        }
    }
}

// Past parameters, and into the modules that follow.
pub(crate) fn next_command(s: &[u8], c: Cursor) -> Option<(CommandAt, Cursor)>
    requires { OnWay s.now c }
    ensures { NextCommandIs s.now c result }
{
    let mut i = c;
    loop {
        match next_record(s, i) {
            Record::Command(q, e) => return Some((q, e)),
            Record::Parameter(_, e) | Record::Module(e) => i = e,
            Record::End => return None,
        }
    }
}
