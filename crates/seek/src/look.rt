// An accessible sought by its names, with an index or without one, and the steps that it took.
ghost use Rattle.std.specs.Prelude.{◌<◌, ◌≡◌, length};
ghost use Rattle.hash.specs.Hash.{start_place};
ghost use Rattle.table.specs.Layout.{table_of};
ghost use Rattle.report.specs.Judge.{table_number};
ghost use Rattle.index.specs.Index.{around};
ghost use Rattle.index.specs.Search.{offered, looked, walked, searched};
ghost use Rattle.index.specs.Accessibles.{accessibles, is_named, sought};
ghost use Rattle.seek.specs.Clauses.Seek.{Finds, Answers};

use crate::walk::{Walk, advance, begin, numbered};
use hash::start_place;
use limits::{FREE, INDEX};
use search::cursor::name_of;
use search::find::are_named;
use table::layout::Accessible;

// What was found, with the walk after it, and how many index bytes and accessibles were looked at.
#[derive(Clone, Copy)]
pub struct Sought {
    pub found: Option<(Accessible, Walk)>,
    pub steps: usize,
}

// The accessible of the number k, which an index offers, if it has both names.
fn offered(s: &[u8], k: usize, module: &[u8], name: &[u8]) -> Option<(Accessible, Walk)>
    requires { table_number s.now ≡ 0 }
    ensures { Finds s.now result (offered (is_named «module».now name.now) (accessibles (table_of s.now)) k) }
{
    let (a, v) = numbered(s, k)?;
    if !are_named(s, v.cursor.name, name_of(a), module, name) {
        return None;
    }
    Some((a, v))
}

// Byte by byte from the place start on, round the end.
fn look(s: &[u8], index: &[u8], start: usize, module: &[u8], name: &[u8]) -> Sought
    requires { (table_number s.now ≡ 0) × ((length index.now ≡ 128) × (start < 128)) }
    ensures { Answers s.now result
        (looked (is_named «module».now name.now) (accessibles (table_of s.now)) (around start index.now)) }
{
    let mut at = start;
    for n in 0..INDEX {
        let b = index[at];
        if b == FREE {
            return Sought {
                found: None,
                steps: n + 1,
            };
        }
        if let Some((a, v)) = offered(s, b as usize, module, name) {
            return Sought {
                found: Some((a, v)),
                steps: n + 1,
            };
        }
        at = (at + 1) % INDEX;
    }
    Sought {
        found: None,
        steps: INDEX,
    }
}

// The accessibles in order.
fn walk(s: &[u8], module: &[u8], name: &[u8]) -> Sought
    requires { table_number s.now ≡ 0 }
    ensures { Answers s.now result
        (walked (is_named «module».now name.now) (accessibles (table_of s.now))) }
{
    let mut w = begin(s);
    while let Some((a, v)) = advance(s, w) {
        if are_named(s, v.cursor.name, name_of(a), module, name) {
            return Sought {
                found: Some((a, v)),
                steps: v.accessibles,
            };
        }
        w = v;
    }
    Sought {
        found: None,
        steps: w.accessibles,
    }
}

// By an index of 128 bytes, and where that offers no match by a walk.
fn search(s: &[u8], index: &[u8], module: &[u8], name: &[u8]) -> Sought
    requires { (table_number s.now ≡ 0) × (length index.now ≡ 128) }
    ensures { Answers s.now result
        (searched (is_named «module».now name.now) (start_place «module».now name.now) index.now
        (accessibles (table_of s.now))) }
{
    let start = start_place(module, name);
    let looked = look(s, index, start, module, name);
    if let Some((_, _)) = looked.found {
        return looked;
    }
    let walked = walk(s, module, name);
    Sought {
        found: walked.found,
        steps: looked.steps + walked.steps,
    }
}

// The accessible of two names, whatever the index holds. Of what is lent the first 128 bytes count, and where there are fewer it is no index.
pub fn seek(s: &[u8], index: &[u8], module: &[u8], name: &[u8]) -> Sought
    requires { table_number s.now ≡ 0 }
    ensures { Answers s.now result (sought (table_of s.now) index.now «module».now name.now) }
{
    if index.len() < INDEX {
        return walk(s, module, name);
    }
    search(s, &index[..128], module, name)
}
