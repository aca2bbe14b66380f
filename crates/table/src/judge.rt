// What is asked of a table: its number, 1 to 5. Number 1, a table that can't be read, comes before the others, so those are asked of a table
// that can be read.
ghost use Rattle.std.specs.Prelude.{◌≡◌, List, ℕ, ◌≤◌, length, drop, Option, Some, IfSome};
ghost use Rattle.ascii.specs.Bytes.{all};
ghost use Rattle.ascii.specs.Names.{is_name, is_text};
ghost use Rattle.datainfo.specs.Datainfo.{Datainfo};
ghost use Rattle.datainfo.specs.Layout.{datainfo_in, ReadableAt};
ghost use Rattle.datainfo.specs.Rules.{good_names};
ghost use Rattle.fit.specs.Fit.{is_stored};
ghost use Rattle.table.specs.Table.{Table, parameter, command};
ghost use Rattle.table.specs.Layout.{argument_at, module_at, whole_table, read_table};
ghost use Rattle.table.specs.Rules.{note_good, counts_good, names_good, datainfos_good, initials_good};
ghost use Rattle.table.specs.Clauses.At.{bytes_of, Inside, text_if, ArgumentReadable, accessible_at, accessibles_from, parameter_of, command_of, module_of};
ghost use Rattle.table.specs.Clauses.At.{modules_from};
ghost use Rattle.table.specs.declared.judge.Kind.TheVariants as Kind;
ghost use Rattle.table.specs.declared.judge.Test.TheVariants as Test;
ghost use Rattle.table.specs.Clauses.Judged.{passed, text_passes, info_passes, value_passes, passes, module_passes, head_passes, kind_begins, named_at};
ghost use Rattle.table.specs.Clauses.Judged.{names_from};
ghost use Rattle.table.specs.Clauses.Judged.{differs, NamedIs, how_many, MembersAre, few, number_below6};

use crate::edition::edition_is_good;
use crate::layout::{
    Accessible, CommandAt, ModuleAt, ParameterAt, Part, accessible_at, accessible_end,
    accessibles_end, head_at, heading_at, is_accessible, is_module, is_readable, module_end,
};
use ascii::names::{is_name, is_text, same_lowercase};
use form::is_stored;
use limits::{ACCESSIBLES, DATAINFO_LEVELS, MODULES};

// What is asked of each accessible: its texts and the names in its datainfo, or the rules of its datainfo, or its initial value.
#[derive(Clone, Copy)]
pub enum Test {
    Names,
    Rules,
    Initials,
}

// The records that have names: all modules of the table, or the accessibles of one module.
#[derive(Clone, Copy)]
pub enum Kind {
    Modules,
    Accessibles,
}

fn part_is_text(s: &[u8], p: Part) -> bool
    requires { Inside s.now p }
    ensures { result ≡ is_text (bytes_of s.now p) }
{
    is_text(&s[p.from..p.to])
}

// Whether a datainfo passes.
fn info_passes(s: &[u8], at: usize, test: Test) -> bool
    requires { ReadableAt s.now at 4 }
    ensures { (d : Datainfo) (x : List ℕ) → datainfo_in 4 (drop at s.now) ≡ Some (d, x) → result ≡ info_passes test d }
{
    match test {
        Test::Names => datainfo::rules::names_good(s, at, DATAINFO_LEVELS),
        Test::Rules => datainfo::rules::rules_kept(s, at, DATAINFO_LEVELS),
        Test::Initials => true,
    }
}

// Whether a description passes, of which only the names' test asks anything.
fn text_passes(s: &[u8], p: Part, test: Test) -> bool
    requires { Inside s.now p }
    ensures { result ≡ text_passes test (bytes_of s.now p) }
{
    match test {
        Test::Names => part_is_text(s, p),
        Test::Rules => true,
        Test::Initials => true,
    }
}

fn part_is_stored(s: &[u8], info: usize, p: Part) -> bool
    requires { ReadableAt s.now info 4 × Inside s.now p }
    ensures { (d : Datainfo) (x : List ℕ) → datainfo_in 4 (drop info s.now) ≡ Some (d, x) → result ≡ is_stored d (bytes_of s.now p) }
{
    is_stored(s, info, &s[p.from..p.to])
}

// Whether an initial value passes.
fn value_passes(s: &[u8], info: usize, p: Part, test: Test) -> bool
    requires { ReadableAt s.now info 4 × Inside s.now p }
    ensures { (d : Datainfo) (x : List ℕ) → datainfo_in 4 (drop info s.now) ≡ Some (d, x)
        → result ≡ value_passes test d (bytes_of s.now p) }
{
    match test {
        Test::Names => true,
        Test::Rules => true,
        Test::Initials => part_is_stored(s, info, p),
    }
}

fn parameter_passes(s: &[u8], q: ParameterAt, test: Test) -> bool
    requires { (Inside s.now q.description × Inside s.now q.initial) × ReadableAt s.now q.info 4 }
    ensures { (d : Datainfo) (x : List ℕ) → datainfo_in 4 (drop q.info s.now) ≡ Some (d, x)
        → result ≡ passes test (parameter (parameter_of s.now q d)) }
{
    text_passes(s, q.description, test)
        && info_passes(s, q.info, test)
        && value_passes(s, q.info, q.initial, test)
}

fn command_passes(s: &[u8], q: CommandAt, test: Test) -> bool
    requires { Inside s.now q.description × ArgumentReadable s.now q.argument q.info }
    ensures { (a : Option Datainfo) (x : List ℕ) → argument_at q.argument (drop q.info s.now) ≡ Some (a, x)
        → result ≡ passes test (command (command_of s.now q a)) }
{
    text_passes(s, q.description, test) && (!q.argument || info_passes(s, q.info, test))
}

fn accessible_passes(s: &[u8], at: usize, test: Test) -> bool
    requires { at ≤ length s.now }
    ensures { result ≡ passed (passes test) (accessible_at (length s.now) (drop at s.now)) }
{
    match accessible_at(s, at) {
        Some(Accessible::Parameter(q)) => parameter_passes(s, q, test),
        Some(Accessible::Command(q)) => command_passes(s, q, test),
        None => false,
    }
}

// Whether all accessibles that follow pass.
fn accessibles_pass(s: &[u8], at: usize, test: Test) -> bool
    requires { at ≤ length s.now }
    ensures { result ≡ passed (all (passes test)) (accessibles_from s.now at) }
{
    let mut i = at;
    while is_accessible(s, i) {
        if !accessible_passes(s, i, test) {
            return false;
        }
        let Some(e) = accessible_end(s, i) else {
            return false;
        };
        i = e;
    }
    true
}

fn accessible_name_at(s: &[u8], at: usize) -> Option<(Part, usize)>
    requires { at ≤ length s.now }
    ensures { NamedIs s.now result (named_at Kind.Accessibles (length s.now) (drop at s.now)) }
{
    match accessible_at(s, at)? {
        Accessible::Parameter(q) => Some((q.name, q.next)),
        Accessible::Command(q) => Some((q.name, q.next)),
    }
}

fn module_name_at(s: &[u8], at: usize) -> Option<(Part, usize)>
    requires { at ≤ length s.now }
    ensures { NamedIs s.now result (named_at Kind.Modules (length s.now) (drop at s.now)) }
{
    let m = heading_at(s, at)?;
    let e = accessibles_end(s, m.next)?;
    Some((m.name, e))
}

// The name of a record of a kind.
pub fn name_at(s: &[u8], at: usize, kind: Kind) -> Option<(Part, usize)>
    requires { at ≤ length s.now }
    ensures { NamedIs s.now result (named_at kind (length s.now) (drop at s.now)) }
{
    match kind {
        Kind::Modules => module_name_at(s, at),
        Kind::Accessibles => accessible_name_at(s, at),
    }
}

// Whether a record of a kind follows.
pub fn is_next(s: &[u8], at: usize, kind: Kind) -> bool
    requires { at ≤ length s.now }
    ensures { result ≡ kind_begins kind (drop at s.now) }
{
    match kind {
        Kind::Modules => is_module(s, at),
        Kind::Accessibles => is_accessible(s, at),
    }
}

// Whether two names are not the same when lowercased.
fn parts_differ(s: &[u8], p: Part, q: Part) -> bool
    requires { Inside s.now p × Inside s.now q }
    ensures { result ≡ differs (bytes_of s.now p) (bytes_of s.now q) }
{
    !same_lowercase(&s[p.from..p.to], &s[q.from..q.to])
}

// Whether a name differs from all names of the records that follow.
fn is_new(s: &[u8], at: usize, kind: Kind, name: Part) -> bool
    requires { (at ≤ length s.now) × Inside s.now name }
    ensures { result ≡ passed (all (differs (bytes_of s.now name))) (names_from kind s.now at) }
{
    let mut i = at;
    while is_next(s, i, kind) {
        let Some((other, e)) = name_at(s, i, kind) else {
            return false;
        };
        if !parts_differ(s, name, other) {
            return false;
        }
        i = e;
    }
    true
}

fn part_is_name(s: &[u8], p: Part) -> bool
    requires { Inside s.now p }
    ensures { result ≡ is_name (bytes_of s.now p) }
{
    is_name(&s[p.from..p.to])
}

// Whether the names of the records that follow are good, and unique when lowercased.
fn all_named_well(s: &[u8], at: usize, kind: Kind) -> bool
    requires { at ≤ length s.now }
    ensures { result ≡ passed good_names (names_from kind s.now at) }
{
    let mut i = at;
    while is_next(s, i, kind) {
        let Some((name, e)) = name_at(s, i, kind) else {
            return false;
        };
        if !part_is_name(s, name) || !is_new(s, e, kind, name) {
            return false;
        }
        i = e;
    }
    true
}

// How many records follow; 0 if they can't be read.
pub fn count(s: &[u8], at: usize, kind: Kind) -> usize
    requires { at ≤ length s.now }
    ensures { result ≡ how_many 0 (names_from kind s.now at) }
{
    let mut n = 0;
    let mut i = at;
    while is_next(s, i, kind) {
        let Some((_, e)) = name_at(s, i, kind) else {
            return 0;
        };
        n += 1;
        i = e;
    }
    n
}

fn note_is_good(s: &[u8], note: Option<Part>) -> bool
    requires { IfSome note (Inside s.now) }
    ensures { result ≡ note_good (text_if s.now note) }
{
    match note {
        Some(p) => part_is_text(s, p),
        None => true,
    }
}

// Whether a module's texts and its accessibles' names are good.
fn heading_is_good(s: &[u8], m: ModuleAt) -> bool
    requires { (Inside s.now m.description × IfSome m.note (Inside s.now)) × (m.next ≤ length s.now) }
    ensures { result ≡ head_passes Test.Names s.now m }
{
    part_is_text(s, m.description)
        && note_is_good(s, m.note)
        && all_named_well(s, m.next, Kind::Accessibles)
}

fn heading_passes(s: &[u8], m: ModuleAt, test: Test) -> bool
    requires { (Inside s.now m.description × IfSome m.note (Inside s.now)) × (m.next ≤ length s.now) }
    ensures { result ≡ head_passes test s.now m }
{
    match test {
        Test::Names => heading_is_good(s, m),
        Test::Rules => true,
        Test::Initials => true,
    }
}

fn module_passes(s: &[u8], at: usize, test: Test) -> bool
    requires { at ≤ length s.now }
    ensures { result ≡ passed (module_passes test) (module_at (length s.now) (drop at s.now)) }
{
    let Some(m) = heading_at(s, at) else {
        return false;
    };
    heading_passes(s, m, test) && accessibles_pass(s, m.next, test)
}

// Whether all modules that follow pass.
fn modules_pass(s: &[u8], at: usize, test: Test) -> bool
    requires { at ≤ length s.now }
    ensures { result ≡ passed (all (module_passes test)) (modules_from s.now at) }
{
    let mut i = at;
    while is_module(s, i) {
        if !module_passes(s, i, test) {
            return false;
        }
        let Some(e) = module_end(s, i) else {
            return false;
        };
        i = e;
    }
    true
}

fn members_at(s: &[u8], at: usize) -> Option<(usize, usize)>
    requires { at ≤ length s.now }
    ensures { MembersAre s.now result (module_at (length s.now) (drop at s.now)) }
{
    let m = heading_at(s, at)?;
    let e = accessibles_end(s, m.next)?;
    Some((count(s, m.next, Kind::Accessibles), e))
}

// Whether the modules that follow have at most so many accessibles in all.
fn accessibles_are_few(s: &[u8], at: usize, most: usize) -> bool
    requires { at ≤ length s.now }
    ensures { result ≡ passed (few most) (modules_from s.now at) }
{
    let mut i = at;
    let mut left = most;
    while is_module(s, i) {
        let Some((n, e)) = members_at(s, i) else {
            return false;
        };
        if left < n {
            return false;
        }
        left -= n;
        i = e;
    }
    true
}

// Number 2: whether there are 1 to 16 modules and at most 64 accessibles in all.
fn counts_good(s: &[u8]) -> bool
    ensures { (t : Table) → whole_table s.now ≡ Some t → result ≡ counts_good t }
{
    let Some(h) = head_at(s) else {
        return false;
    };
    let n = count(s, h.first, Kind::Modules);
    (1..=MODULES).contains(&n) && accessibles_are_few(s, h.first, ACCESSIBLES)
}

// Number 3: whether names and texts are good, and names unique where they have to be.
fn names_good(s: &[u8]) -> bool
    ensures { (t : Table) → whole_table s.now ≡ Some t → result ≡ names_good t }
{
    let Some(h) = head_at(s) else {
        return false;
    };
    part_is_text(s, h.id)
        && part_is_text(s, h.description)
        && edition_is_good(s, h.edition)
        && all_named_well(s, h.first, Kind::Modules)
        && modules_pass(s, h.first, Test::Names)
}

// Number 4: whether all datainfos keep their own rules.
fn datainfos_good(s: &[u8]) -> bool
    ensures { (t : Table) → whole_table s.now ≡ Some t → result ≡ datainfos_good t }
{
    let Some(h) = head_at(s) else {
        return false;
    };
    modules_pass(s, h.first, Test::Rules)
}

// Number 5: whether all initial values are in stored form and fit.
fn initials_good(s: &[u8]) -> bool
    ensures { (t : Table) → whole_table s.now ≡ Some t → result ≡ initials_good t }
{
    let Some(h) = head_at(s) else {
        return false;
    };
    modules_pass(s, h.first, Test::Initials)
}

// The lowest of the numbers 1 to 5 that are the table's, or 0. Number 6 is the structure report's.
pub fn number_below_6(s: &[u8]) -> u8
    ensures { result ≡ number_below6 (read_table s.now) }
{
    if !is_readable(s) {
        return 1;
    }
    if !counts_good(s) {
        return 2;
    }
    if !names_good(s) {
        return 3;
    }
    if !datainfos_good(s) {
        return 4;
    }
    if !initials_good(s) {
        return 5;
    }
    0
}
