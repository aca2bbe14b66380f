// Modules and commands by name, parameters by name and by number, in a table that can be read. Names are compared as they stand.
ghost use Rattle.std.specs.Prelude.{◌≡◌, ◌&&◌, List, ℕ, ◌≤◌, length, Option, Some, None};
ghost use Rattle.ascii.specs.Bytes.{same};
ghost use Rattle.table.specs.Table.{Module};
ghost use Rattle.table.specs.Layout.{Readable, table_of};
ghost use Rattle.table.specs.Clauses.At.{bytes_of, Inside, modules_from};
ghost use Rattle.search.specs.Clauses.Found.{FindsFirst, FindsModule, FindsParameter, FindsCommand, NumberedParameter};

use crate::cursor::{Cursor, first_cursor, next_command, next_parameter};
use ascii::names::compare;
use table::judge::{Kind, count, is_next, name_at};
use table::layout::{CommandAt, ParameterAt, Part, head_at};

// Whether a part of s is a name. Every search of a module or an accessible compares names here, by the one comparison.
fn part_is(s: &[u8], p: Part, name: &[u8]) -> bool
    requires { Inside s.now p }
    ensures { result ≡ same name.now (bytes_of s.now p) }
{
    compare(name, &s[p.from..p.to]).same
}

// The first module of a name among those that follow.
fn module_from(s: &[u8], at: usize, name: &[u8]) -> Option<(usize, usize)>
    requires { at ≤ length s.now }
    ensures { (ms : List Module) (x : List ℕ) → modules_from s.now at ≡ Some (ms, x)
        → FindsFirst s.now name.now result ms x }
{
    let mut n = 0;
    let mut i = at;
    while is_next(s, i, Kind::Modules) {
        let (p, e) = name_at(s, i, Kind::Modules)?;
        if part_is(s, p, name) {
            return Some((n, i));
        }
        n += 1;
        i = e;
    }
    None
}

pub fn find_module(s: &[u8], name: &[u8]) -> Option<(usize, usize)>
    requires { Readable s.now }
    ensures { FindsModule s.now name.now result }
{
    let h = head_at(s)?;
    module_from(s, h.first, name)
}

// Whether a module's name and an accessible's name are those that are sought.
pub fn are_named(s: &[u8], p: Part, q: Part, module: &[u8], name: &[u8]) -> bool
    requires { Inside s.now p × Inside s.now q }
    ensures { result ≡ (same «module».now (bytes_of s.now p) && same name.now (bytes_of s.now q)) }
{
    part_is(s, p, module) && part_is(s, q, name)
}

pub fn find_parameter(s: &[u8], module: &[u8], name: &[u8]) -> Option<(usize, usize, ParameterAt)>
    requires { Readable s.now }
    ensures { FindsParameter s.now «module».now name.now result }
{
    let mut k = 0;
    let mut c = first_cursor(s);
    while let Some((q, e)) = next_parameter(s, c) {
        if are_named(s, e.name, q.name, module, name) {
            return Some((k, e.modules - 1, q));
        }
        k += 1;
        c = e;
    }
    None
}

pub fn find_command(s: &[u8], module: &[u8], name: &[u8]) -> Option<(usize, usize, CommandAt)>
    requires { Readable s.now }
    ensures { FindsCommand s.now «module».now name.now result }
{
    let mut k = 0;
    let mut c = first_cursor(s);
    while let Some((q, e)) = next_command(s, c) {
        if are_named(s, e.name, q.name, module, name) {
            return Some((k, e.modules - 1, q));
        }
        k += 1;
        c = e;
    }
    None
}

// The parameter of a number, with the cursor after it.
pub fn parameter_by_number(s: &[u8], k: usize) -> Option<(ParameterAt, Cursor)>
    requires { Readable s.now }
    ensures { NumberedParameter s.now k result }
{
    let mut i = 0;
    let mut c = first_cursor(s);
    while let Some((q, e)) = next_parameter(s, c) {
        if i == k {
            return Some((q, e));
        }
        i += 1;
        c = e;
    }
    None
}

// How many modules the table has.
pub fn module_count(s: &[u8]) -> usize
    requires { Readable s.now }
    ensures { result ≡ length (table_of s.now).modules }
{
    let Some(h) = head_at(s) else {
        return 0;
    };
    count(s, h.first, Kind::Modules)
}
