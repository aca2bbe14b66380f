// The records of a table's bytes: where the parts of each lie, or that the layout can't be read (number 1). Each function has the
// position of the first byte that it reads.
ghost use Rattle.std.specs.Prelude.{◌≡◌, ◌||◌, ◌∷◌, [], ◌≤◌, length, drop};
ghost use Rattle.ascii.specs.Bytes.{after, is_some};
ghost use Rattle.ascii.specs.Text.{bytes};
ghost use Rattle.ascii.specs.Clauses.Reader.{Ends, rest};
ghost use Rattle.table.specs.Layout.{begins, flag, argument_at, parameter_at, command_at, module_at, read_table};
ghost use Rattle.table.specs.Clauses.At.{accessible_begins, accessible_at, accessibles_from, heading_at, modules_from, texts_at, Sized, TextsAt, FlagIs};
ghost use Rattle.table.specs.Clauses.At.{AccessibleIs, MarkedIs, HeadingIs, HeadRead};

use ascii::numbers::unsigned;
use datainfo::layout::datainfo_end;
use limits::{DATAINFO_LEVELS, TABLE};

// The bytes from one position up to another.
#[derive(Clone, Copy)]
pub struct Part {
    pub from: usize,
    pub to: usize,
}

// A `PA` record. `info` is where its datainfo begins, `next` where the next record does.
#[derive(Clone, Copy)]
pub struct ParameterAt {
    pub name: Part,
    pub description: Part,
    pub readonly: bool,
    pub info: usize,
    pub initial: Part,
    pub next: usize,
}

// A `CM` record. `argument` says whether it has an argument, and `info` is where the argument's datainfo then begins.
#[derive(Clone, Copy)]
pub struct CommandAt {
    pub name: Part,
    pub description: Part,
    pub argument: bool,
    pub info: usize,
    pub next: usize,
}

#[derive(Clone, Copy)]
pub enum Accessible {
    Parameter(ParameterAt),
    Command(CommandAt),
}

// An `MO` record with the text of its `NO` record, if it has one. `next` is where its accessibles begin.
#[derive(Clone, Copy)]
pub struct ModuleAt {
    pub name: Part,
    pub description: Part,
    pub note: Option<Part>,
    pub next: usize,
}

// What stands before the modules, with the text of the `ED` record, if there is one. `first` is where the first module's record begins.
#[derive(Clone, Copy)]
pub struct HeadAt {
    pub id: Part,
    pub description: Part,
    pub edition: Option<Part>,
    pub first: usize,
}

// Whether the two bytes a and b stand there, which are a mark.
fn is_mark(s: &[u8], at: usize, a: u8, b: u8) -> bool
    requires { at ≤ length s.now }
    ensures { result ≡ begins (a ∷ b ∷ []) (drop at s.now) }
{
    s[at..].starts_with(&[a, b])
}

// Past a mark of the two bytes a and b.
fn mark_end(s: &[u8], at: usize, a: u8, b: u8) -> Option<usize>
    requires { at ≤ length s.now }
    ensures { Ends s.now result (after (a ∷ b ∷ []) (drop at s.now)) }
{
    if is_mark(s, at, a, b) {
        return Some(at + 2);
    }
    None
}

// A length of k bytes and as many bytes.
fn sized_at(s: &[u8], at: usize, k: usize) -> Option<Part>
    requires { (at ≤ length s.now) × (k ≤ 8) }
    ensures { Sized s.now at k result }
{
    let (n, from) = unsigned(s, at, k)?;
    let size = n as usize;
    if s.len() - from < size {
        return None;
    }
    Some(Part {
        from,
        to: from + size,
    })
}

// A record's mark a and b, and two texts: a name or an equipment id, and a description. So begin the `ND` record and each other
// record that has a name.
fn texts_at(s: &[u8], at: usize, a: u8, b: u8) -> Option<(Part, Part)>
    requires { at ≤ length s.now }
    ensures { TextsAt s.now result (texts_at (a ∷ b ∷ []) (drop at s.now)) }
{
    let first = mark_end(s, at, a, b)?;
    let name = sized_at(s, first, 1)?;
    let description = sized_at(s, name.to, 1)?;
    Some((name, description))
}

// A flag, which is one byte.
fn flag_at(s: &[u8], at: usize) -> Option<(bool, usize)>
    requires { at ≤ length s.now }
    ensures { FlagIs s.now result (flag (drop at s.now)) }
{
    match s.get(at)? {
        0 => Some((false, at + 1)),
        1 => Some((true, at + 1)),
        _ => None,
    }
}

fn parameter_at(s: &[u8], at: usize) -> Option<Accessible>
    requires { at ≤ length s.now }
    ensures { AccessibleIs s.now result (parameter_at (length s.now) (drop at s.now)) }
{
    let (name, description) = texts_at(s, at, b'P', b'A')?;
    let (readonly, info) = flag_at(s, description.to)?;
    let end = datainfo_end(s, info, DATAINFO_LEVELS)?;
    let initial = sized_at(s, end, 2)?;
    Some(Accessible::Parameter(ParameterAt {
        name,
        description,
        readonly,
        info,
        initial,
        next: initial.to,
    }))
}

// Past the datainfo of an argument, if there is one.
fn argument_end(s: &[u8], at: usize, has: bool) -> Option<usize>
    requires { at ≤ length s.now }
    ensures { Ends s.now result (rest (argument_at has (drop at s.now))) }
{
    if has {
        return datainfo_end(s, at, DATAINFO_LEVELS);
    }
    Some(at)
}

fn command_at(s: &[u8], at: usize) -> Option<Accessible>
    requires { at ≤ length s.now }
    ensures { AccessibleIs s.now result (command_at (drop at s.now)) }
{
    let (name, description) = texts_at(s, at, b'C', b'M')?;
    let (argument, info) = flag_at(s, description.to)?;
    let next = argument_end(s, info, argument)?;
    Some(Accessible::Command(CommandAt {
        name,
        description,
        argument,
        info,
        next,
    }))
}

// Whether a parameter or a command follows.
pub fn is_accessible(s: &[u8], at: usize) -> bool
    requires { at ≤ length s.now }
    ensures { result ≡ accessible_begins (drop at s.now) }
{
    is_mark(s, at, b'P', b'A') || is_mark(s, at, b'C', b'M')
}

// One copy of this code serves every walk over a table, so that the library stays small (docs/LIMITS.md).
#[inline(never)]
pub fn accessible_at(s: &[u8], at: usize) -> Option<Accessible>
    requires { at ≤ length s.now }
    ensures { AccessibleIs s.now result (accessible_at (length s.now) (drop at s.now)) }
{
    if is_mark(s, at, b'P', b'A') {
        return parameter_at(s, at);
    }
    command_at(s, at)
}

pub fn accessible_end(s: &[u8], at: usize) -> Option<usize>
    requires { at ≤ length s.now }
    ensures { Ends s.now result (rest (accessible_at (length s.now) (drop at s.now))) }
{
    match accessible_at(s, at)? {
        Accessible::Parameter(p) => Some(p.next),
        Accessible::Command(c) => Some(c.next),
    }
}

// Past the accessibles that follow.
pub(crate) fn accessibles_end(s: &[u8], at: usize) -> Option<usize>
    requires { at ≤ length s.now }
    ensures { Ends s.now result (rest (accessibles_from s.now at)) }
{
    let mut i = at;
    while is_accessible(s, i) {
        i = accessible_end(s, i)?;
    }
    Some(i)
}

// A text after a mark of the two bytes a and b, if the mark is there, and the position after it: a note, or an edition.
fn marked_at(s: &[u8], at: usize, a: u8, b: u8) -> Option<(Option<Part>, usize)>
    requires { at ≤ length s.now }
    ensures { MarkedIs s.now (a ∷ b ∷ []) at result }
{
    let Some(from) = mark_end(s, at, a, b) else {
        return Some((None, at));
    };
    let text = sized_at(s, from, 1)?;
    Some((Some(text), text.to))
}

// Whether a module follows.
pub fn is_module(s: &[u8], at: usize) -> bool
    requires { at ≤ length s.now }
    ensures { result ≡ begins (bytes "MO") (drop at s.now) }
{
    is_mark(s, at, b'M', b'O')
}

// What a module has before its accessibles.
pub fn heading_at(s: &[u8], at: usize) -> Option<ModuleAt>
    requires { at ≤ length s.now }
    ensures { HeadingIs s.now result (heading_at (drop at s.now)) }
{
    let (name, description) = texts_at(s, at, b'M', b'O')?;
    let (note, next) = marked_at(s, description.to, b'N', b'O')?;
    Some(ModuleAt {
        name,
        description,
        note,
        next,
    })
}

pub fn module_end(s: &[u8], at: usize) -> Option<usize>
    requires { at ≤ length s.now }
    ensures { Ends s.now result (rest (module_at (length s.now) (drop at s.now))) }
{
    let m = heading_at(s, at)?;
    accessibles_end(s, m.next)
}

// Past the modules that follow.
fn modules_end(s: &[u8], at: usize) -> Option<usize>
    requires { at ≤ length s.now }
    ensures { Ends s.now result (rest (modules_from s.now at)) }
{
    let mut i = at;
    while is_module(s, i) {
        i = module_end(s, i)?;
    }
    Some(i)
}

// The table's head, which alone says where the modules begin.
pub fn head_at(s: &[u8]) -> Option<HeadAt>
    ensures { HeadRead s.now result }
{
    let (id, description) = texts_at(s, 0, b'N', b'D')?;
    let (edition, first) = marked_at(s, description.to, b'E', b'D')?;
    Some(HeadAt {
        id,
        description,
        edition,
        first,
    })
}

// Whether the table's layout can be read.
pub fn is_readable(s: &[u8]) -> bool
    ensures { result ≡ is_some (read_table s.now) }
{
    if TABLE < s.len() {
        return false;
    }
    let Some(h) = head_at(s) else {
        return false;
    };
    let Some(last) = modules_end(s, h.first) else {
        return false;
    };
    let Some(end) = mark_end(s, last, b'E', b'N') else {
        return false;
    };
    end == s.len()
}
