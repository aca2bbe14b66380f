// The datainfos of the structure report. The writer calls itself on datainfos inside a datainfo, with the remaining levels as the falling
// number. Where a datainfo can't be read, what is written does not matter: a table that can't be read has no report. Each function has
// the position in the buffer, and the position in the table of the first byte that it reads.
#![tactic(auto)]

ghost use Rattle.std.specs.Prelude.{◌++◌, ◌≤◌, length, drop};
ghost use Rattle.ascii.specs.Text.{bytes};
ghost use Rattle.ascii.specs.Numbers.{integer, signed};
ghost use Rattle.json_text.specs.Json.{quoted};
ghost use Rattle.decimal.specs.Clauses.Exact.{decimal};
ghost use Rattle.datainfo.specs.Datainfo as Datainfo;
ghost use Rattle.datainfo.specs.Clauses.Obeyed.{name_in};
ghost use Rattle.datainfo.specs.Clauses.Members.{members_at};
ghost use Rattle.datainfo.specs.Layout.{double_at, int_at, string_at, array_at, partial_at, scaled_at, blob_at, typed, datainfo_in};
ghost use Rattle.report.specs.Report.{decimal_text};
ghost use Rattle.emit.specs.Clauses.Emitted.{Emits, told, Says};
ghost use Rattle.infos.specs.Clauses.Texts.{NameEnds, datainfo_text, own_text, names_text, array_limits, opening, closing};
ghost use Rattle.infos.specs.Clauses.Texts.{member_text};
ghost use Rattle.infos.specs.Clauses.Texts.{count_text, list_text};

use ascii::byte;
use ascii::numbers::{signed, unsigned};
use datainfo::layout::{field_end, member_end, named_end};
use datainfo::rules::{limit_at, named_at};
use emit::{
    emit, emit_comma, emit_integer, emit_key, emit_labelled_decimal, emit_labelled_integer,
    emit_string,
};
use limits::DATAINFO_LEVELS;

// A decimal, "mantissa, then `e` and the power unless 0", with what stands before it.
fn emit_limit(out: &mut [u8], at: usize, label: &[u8], m: i64, p: i8) -> usize
    ensures { Emits out.old at (label.now ++ decimal_text m p) out.new result }
{
    let a = emit_labelled_integer(out, at, label, m);
    if p == 0 {
        return a;
    }
    emit_labelled_integer(out, a, b"e", p as i64)
}

fn emit_double(out: &mut [u8], at: usize, s: &[u8], i: usize) -> usize
    requires { i ≤ length s.now }
    ensures { Says (told datainfo_text (double_at (drop i s.now))) out.old at out.new result }
{
    let Some((lo, p, e)) = limit_at(s, i) else {
        return at;
    };
    let Some((hi, q, _)) = limit_at(s, e) else {
        return at;
    };
    let a = emit_limit(out, at, b"{\"type\":\"double\",\"min\":", lo, p);
    let b = emit_limit(out, a, b",\"max\":", hi, q);
    emit(out, b, b"}")
}

fn emit_int(out: &mut [u8], at: usize, s: &[u8], i: usize) -> usize
    requires { i ≤ length s.now }
    ensures { Says (told datainfo_text (int_at (drop i s.now))) out.old at out.new result }
{
    let Some((lo, e)) = signed(s, i, 8) else {
        return at;
    };
    let Some((hi, _)) = signed(s, e, 8) else {
        return at;
    };
    let a = emit_labelled_integer(out, at, b"{\"type\":\"int\",\"min\":", lo);
    let b = emit_labelled_integer(out, a, b",\"max\":", hi);
    emit(out, b, b"}")
}

fn emit_chars(out: &mut [u8], at: usize, s: &[u8], i: usize) -> usize
    requires { i ≤ length s.now }
    ensures { Says (told datainfo_text (string_at (drop i s.now))) out.old at out.new result }
{
    let Some((lo, e)) = unsigned(s, i, 2) else {
        return at;
    };
    let Some((hi, _)) = unsigned(s, e, 2) else {
        return at;
    };
    let a = emit_labelled_decimal(out, at, b"{\"type\":\"string\",\"minchars\":", lo);
    let b = emit_labelled_decimal(out, a, b",\"maxchars\":", hi);
    emit(out, b, b"}")
}

// A scaled by its scale, a decimal, and its limits.
fn emit_scale(out: &mut [u8], at: usize, m: i64, p: i8, lo: i64, hi: i64) -> usize
    ensures { Emits out.old at (datainfo_text (Datainfo.scaled (decimal m p) lo hi)) out.new result }
{
    let a = emit_limit(out, at, b"{\"type\":\"scaled\",\"scale\":", m, p);
    let b = emit_labelled_integer(out, a, b",\"min\":", lo);
    let c = emit_labelled_integer(out, b, b",\"max\":", hi);
    emit(out, c, b"}")
}

fn emit_scaled(out: &mut [u8], at: usize, s: &[u8], i: usize) -> usize
    requires { i ≤ length s.now }
    ensures { Says (told datainfo_text (scaled_at (drop i s.now))) out.old at out.new result }
{
    let Some((m, p, e)) = limit_at(s, i) else {
        return at;
    };
    let Some((lo, f)) = signed(s, e, 8) else {
        return at;
    };
    let Some((hi, _)) = signed(s, f, 8) else {
        return at;
    };
    emit_scale(out, at, m, p, lo, hi)
}

fn emit_blob(out: &mut [u8], at: usize, s: &[u8], i: usize) -> usize
    requires { i ≤ length s.now }
    ensures { Says (told datainfo_text (blob_at (drop i s.now))) out.old at out.new result }
{
    let Some((lo, e)) = unsigned(s, i, 2) else {
        return at;
    };
    let Some((hi, _)) = unsigned(s, e, 2) else {
        return at;
    };
    let a = emit_labelled_decimal(out, at, b"{\"type\":\"blob\",\"minbytes\":", lo);
    let b = emit_labelled_decimal(out, a, b",\"maxbytes\":", hi);
    emit(out, b, b"}")
}

// An array up to the datainfo of its elements.
fn emit_array_limits(out: &mut [u8], at: usize, lo: u64, hi: u64) -> usize
    ensures { Emits out.old at (array_limits lo hi) out.new result }
{
    let a = emit_labelled_decimal(out, at, b"{\"type\":\"array\",\"minlen\":", lo);
    let b = emit_labelled_decimal(out, a, b",\"maxlen\":", hi);
    emit(out, b, b",\"members\":")
}

#[cycle(emit_array_emit_datainfo_emit_list_emit_member_emit_members_emit_typed)]
fn emit_array(out: &mut [u8], at: usize, s: &[u8], i: usize, levels: usize) -> usize
    requires { i ≤ length s.now }
    ensures { Says (told datainfo_text (array_at (datainfo_in levels) (drop i s.now))) out.old at out.new result }
{
    let Some((lo, e)) = unsigned(s, i, 2) else {
        return at;
    };
    let Some((hi, f)) = unsigned(s, e, 2) else {
        return at;
    };
    let a = emit_array_limits(out, at, lo, hi);
    let b = emit_datainfo(out, a, s, f, levels);
    emit(out, b, b"}")
}

// What stands before the members of an enum (4), a tuple (7) or a struct (8 or 11).
fn emit_opening(out: &mut [u8], at: usize, k: u8) -> usize
    ensures { Emits out.old at (opening k) out.new result }
{
    match k {
        4 => emit(out, at, b"{\"type\":\"enum\",\"members\":{"),
        7 => emit(out, at, b"{\"type\":\"tuple\",\"members\":["),
        _ => emit(out, at, b"{\"type\":\"struct\",\"members\":{"),
    }
}

// What stands after them.
fn emit_closing(out: &mut [u8], at: usize, k: u8) -> usize
    ensures { Emits out.old at (closing k) out.new result }
{
    match k {
        7 => emit(out, at, b"]}"),
        11 => emit(out, at, b"},\"optional\":[]}"),
        _ => emit(out, at, b"}}"),
    }
}

// The number of an enum's member.
fn emit_number(out: &mut [u8], at: usize, s: &[u8], i: usize) -> usize
    requires { i ≤ length s.now }
    ensures { Says (told integer (signed 4 (drop i s.now))) out.old at out.new result }
{
    let Some((v, _)) = signed(s, i, 4) else {
        return at;
    };
    emit_integer(out, at, v)
}

// The name of a member of the kind k, as its key.
fn emit_name(out: &mut [u8], at: usize, s: &[u8], i: usize, k: u8) -> usize
    requires { i ≤ length s.now }
    ensures { Emits out.old at (quoted (name_in k (drop i s.now)) ++ bytes ":") out.new result }
{
    emit_key(out, at, named_at(s, i, k))
}

// Past it.
fn name_end(s: &[u8], i: usize, k: u8) -> usize
    requires { i ≤ length s.now }
    ensures { NameEnds s.now i k result }
{
    named_end(s, i, k).unwrap_or(i)
}

// A member of the kind k: in an enum (4) a name and an i32, in a tuple (7) a datainfo, in a struct (8 or 11) a name and a datainfo.
#[cycle(emit_array_emit_datainfo_emit_list_emit_member_emit_members_emit_typed)]
fn emit_member(out: &mut [u8], at: usize, s: &[u8], i: usize, levels: usize, k: u8) -> usize
    requires { i ≤ length s.now }
    ensures { Says (member_text (datainfo_in levels) k (drop i s.now)) out.old at out.new result }
{
    if k == 7 {
        return emit_datainfo(out, at, s, i, levels);
    }
    let a = emit_name(out, at, s, i, k);
    let e = name_end(s, i, k);
    if k == 4 {
        return emit_number(out, a, s, e);
    }
    emit_datainfo(out, a, s, e, levels)
}

// A count byte and as many members of the kind k, with commas between them.
#[cycle(emit_array_emit_datainfo_emit_list_emit_member_emit_members_emit_typed)]
fn emit_members(out: &mut [u8], at: usize, s: &[u8], i: usize, levels: usize, k: u8) -> usize
    requires { i ≤ length s.now }
    ensures { Says (count_text (datainfo_in levels) k (drop i s.now)) out.old at out.new result }
{
    if s.len() <= i {
        return at;
    }
    let mut p = at;
    let mut j = i + 1;
    let count = s[i];
    for m in 0..count {
        let Some(e) = member_end(s, j, levels, k) else {
            return p;
        };
        let c = emit_comma(out, p, m == 0);
        p = emit_member(out, c, s, j, levels, k);
        j = e;
    }
    p
}

// An enum, a tuple or a struct.
#[cycle(emit_array_emit_datainfo_emit_list_emit_member_emit_members_emit_typed)]
fn emit_list(out: &mut [u8], at: usize, s: &[u8], i: usize, levels: usize, k: u8) -> usize
    requires { i ≤ length s.now }
    ensures { Says (list_text (datainfo_in levels) k (drop i s.now)) out.old at out.new result }
{
    let a = emit_opening(out, at, k);
    let b = emit_members(out, a, s, i, levels, k);
    emit_closing(out, b, k)
}

// What the type byte k says; datainfos inside have at most `levels` levels.
#[cycle(emit_array_emit_datainfo_emit_list_emit_member_emit_members_emit_typed)]
fn emit_typed(out: &mut [u8], at: usize, s: &[u8], i: usize, levels: usize, k: u8) -> usize
    requires { i ≤ length s.now }
    ensures { Says (told datainfo_text (typed (datainfo_in levels) k (drop i s.now))) out.old at out.new result }
{
    match k {
        1 => emit_double(out, at, s, i),
        2 => emit_int(out, at, s, i),
        3 => emit(out, at, b"{\"type\":\"bool\"}"),
        4 => emit_list(out, at, s, i, levels, 4),
        5 => emit_chars(out, at, s, i),
        6 => emit_array(out, at, s, i, levels),
        7 => emit_list(out, at, s, i, levels, 7),
        8 => emit_list(out, at, s, i, levels, 8),
        9 => emit_scaled(out, at, s, i),
        10 => emit_blob(out, at, s, i),
        11 => emit_list(out, at, s, i, levels, 11),
        _ => at,
    }
}

// A datainfo of at most `levels` levels.
#[cycle(emit_array_emit_datainfo_emit_list_emit_member_emit_members_emit_typed)]
pub fn emit_datainfo(out: &mut [u8], at: usize, s: &[u8], i: usize, levels: usize) -> usize
    requires { i ≤ length s.now }
    ensures { Says (told datainfo_text (datainfo_in levels (drop i s.now))) out.old at out.new result }
{
    if levels == 0 {
        return at;
    }
    if s.len() <= i {
        return at;
    }
    emit_typed(out, at, s, i + 1, levels - 1, s[i])
}

// The names of the optional members of type 11, past its type byte, with commas between them.
fn emit_names(out: &mut [u8], at: usize, s: &[u8], i: usize) -> usize
    requires { i ≤ length s.now }
    ensures { Says (told names_text (members_at (datainfo_in 3) 11 (drop i s.now))) out.old at out.new result }
{
    let Some((count, from)) = unsigned(s, i, 1) else {
        return at;
    };
    let mut p = at;
    let mut field = from;
    let mut first = true;
    for _ in 0..count {
        let Some(e) = field_end(s, field, 3, 11) else {
            return p;
        };
        if byte(s, field) == 1 {
            let c = emit_comma(out, p, first);
            p = emit_string(out, c, named_at(s, field, 11));
            first = false;
        }
        field = e;
    }
    p
}

// Type 11 as a parameter's own, past its type byte: its optional members are told.
fn emit_partial(out: &mut [u8], at: usize, s: &[u8], i: usize) -> usize
    requires { i ≤ length s.now }
    ensures { Says (told own_text (partial_at (datainfo_in 3) (drop i s.now))) out.old at out.new result }
{
    let a = emit_opening(out, at, 11);
    let b = emit_members(out, a, s, i, 3, 11);
    let c = emit(out, b, b"},\"optional\":[");
    let d = emit_names(out, c, s, i);
    emit(out, d, b"]}")
}

// A parameter's own datainfo.
pub fn emit_own(out: &mut [u8], at: usize, s: &[u8], i: usize) -> usize
    requires { i ≤ length s.now }
    ensures { Says (told own_text (datainfo_in 4 (drop i s.now))) out.old at out.new result }
{
    let Some((k, inner)) = unsigned(s, i, 1) else {
        return at;
    };
    if k == 11 {
        return emit_partial(out, at, s, inner);
    }
    emit_datainfo(out, at, s, i, DATAINFO_LEVELS)
}
