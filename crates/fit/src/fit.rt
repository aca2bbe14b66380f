// Which values fit a datainfo: the table's bytes and the value's text are walked over together. `at` is a position in the table: of a
// datainfo, or past its type byte where the function is of one type; `p` is the position of the value. Nothing is promised of bytes that
// can't be read, as a datainfo or as a value.
ghost use Rattle.std.specs.Prelude.{◌≡◌, ℕ, ◌≤◌, [], true, length, drop, Some};
ghost use Rattle.decimal.specs.Token.{is_whole};
ghost use Rattle.json_text.specs.Json as Json;
ghost use Rattle.json_text.specs.Json.{bare, value, object_end};
ghost use Rattle.datainfo.specs.Datainfo as Datainfo;
ghost use Rattle.datainfo.specs.Layout.{double_at, int_at, enum_at, string_at, array_at, tuple_at, scaled_at, blob_at, datainfo_in};
ghost use Rattle.datainfo.specs.Clauses.Members.{members_at};
ghost use Rattle.datainfo.specs.Rules.{is_between};
ghost use Rattle.fit.specs.Fit as Fit;
ghost use Rattle.fit.specs.Fit.{is_fit, in_range, whole_fit, between_integers};
ghost use Rattle.fit.specs.Clauses.Verdict.{meaning, Judges, JudgesStruct, JudgesFields, Limits, numeric, plain};

use super::Misfit;
use super::member::number_of;
use super::object::{each_once, find_key};
use super::walk::{first, next, quoted};
use ascii::byte;
use ascii::numbers::{signed, unsigned};
use base64_text::blob_size;
use datainfo::layout::{counted_end, datainfo_end, named_end, part_end};
use datainfo::rules::{limit_at, named_at};
use decimal::compare::{is_between, is_whole, lies_between, value_of};
use decimal::token::number_end;
use json_text::characters::{all_low, count};
use json_text::read::spaces_end;

// A type fault anywhere wins over a range fault anywhere.
fn worse(a: Result<(), Misfit>, b: Result<(), Misfit>) -> Result<(), Misfit>
    ensures { meaning result ≡ Fit.worse (meaning a) (meaning b) }
{
    a.max(b)
}

fn count_fit(lo: u64, hi: u64, n: usize) -> Result<(), Misfit>
    ensures { meaning result ≡ in_range (is_between lo hi n) }
{
    range_fit((lo..=hi).contains(&(n as u64)))
}

// RangeError for a count n outside the two limits at a position.
fn limits_fit(s: &[u8], at: usize, n: usize) -> Result<(), Misfit>
    requires { at ≤ length s.now }
    ensures { Limits (drop at s.now) n result }
{
    let (lo, a) = unsigned(s, at, 2).ok_or(Misfit::WrongType)?;
    let (hi, _) = unsigned(s, a, 2).ok_or(Misfit::WrongType)?;
    count_fit(lo, hi, n)
}

// RangeError unless a test passes.
pub fn range_fit(passes: bool) -> Result<(), Misfit>
    ensures { meaning result ≡ in_range passes }
{
    if passes {
        return Ok(());
    }
    Err(Misfit::RangeError)
}

// A number token, of which any is of the kind. `is_between` is the exact comparison, here and for int and scaled; an enum's is the one that it does.
fn double_fit(s: &[u8], at: usize, t: &[u8]) -> Result<(), Misfit>
    requires { at ≤ length s.now }
    ensures { Judges (double_at (drop at s.now)) (Some (Json.number t.now, [])) result }
{
    let (lo, lo_power, a) = limit_at(s, at).ok_or(Misfit::WrongType)?;
    let (hi, hi_power, _) = limit_at(s, a).ok_or(Misfit::WrongType)?;
    range_fit(is_between(lo, lo_power, hi, hi_power, t))
}

// A number token, which has to have no dot and no 'e', from lo to hi.
fn whole_fit(lo: i64, hi: i64, t: &[u8]) -> Result<(), Misfit>
    ensures { meaning result ≡ whole_fit (between_integers lo hi) t.now }
{
    if is_whole(t) {
        return range_fit(is_between(lo, 0, hi, 0, t));
    }
    Err(Misfit::WrongType)
}

fn int_fit(s: &[u8], at: usize, t: &[u8]) -> Result<(), Misfit>
    requires { at ≤ length s.now }
    ensures { Judges (int_at (drop at s.now)) (Some (Json.number t.now, [])) result }
{
    let (lo, a) = signed(s, at, 8).ok_or(Misfit::WrongType)?;
    let (hi, _) = signed(s, a, 8).ok_or(Misfit::WrongType)?;
    whole_fit(lo, hi, t)
}

// The limits of a scaled, behind its scale, are those of an int.
fn scaled_fit(s: &[u8], at: usize, t: &[u8]) -> Result<(), Misfit>
    requires { at ≤ length s.now }
    ensures { Judges (scaled_at (drop at s.now)) (Some (Json.number t.now, [])) result }
{
    let (_, _, limits) = limit_at(s, at).ok_or(Misfit::WrongType)?;
    int_fit(s, limits, t)
}

// Whether the token t, which is read once, is the value of a member of an enum; of tokens with a dot or an 'e' nothing is said.
fn member_fit(s: &[u8], at: usize, t: &[u8]) -> Result<(), Misfit>
    requires { at ≤ length s.now }
    ensures { is_whole t.now ≡ true → Judges (enum_at (drop at s.now)) (Some (Json.number t.now, [])) result }
{
    let (members, from) = unsigned(s, at, 1).ok_or(Misfit::WrongType)?;
    let sent = value_of(t);
    let mut i = from;
    for _ in 0..members {
        let n = counted_end(s, i).ok_or(Misfit::WrongType)?;
        let (value, e) = signed(s, n, 4).ok_or(Misfit::WrongType)?;
        if lies_between(value, 0, value, 0, sent) {
            return Ok(());
        }
        i = e;
    }
    Err(Misfit::RangeError)
}

fn enum_fit(s: &[u8], at: usize, t: &[u8]) -> Result<(), Misfit>
    requires { at ≤ length s.now }
    ensures { Judges (enum_at (drop at s.now)) (Some (Json.number t.now, [])) result }
{
    if is_whole(t) {
        return member_fit(s, at, t);
    }
    Err(Misfit::WrongType)
}

// A number token for the type k, one of double (1), int (2) and scaled (9).
fn token_fit(s: &[u8], at: usize, k: u64, t: &[u8]) -> Result<(), Misfit>
    requires { at ≤ length s.now }
    ensures { Judges (numeric k (drop at s.now)) (Some (Json.number t.now, [])) result }
{
    if k == 1 {
        return double_fit(s, at, t);
    }
    if k == 2 {
        return int_fit(s, at, t);
    }
    scaled_fit(s, at, t)
}

fn number_fit(s: &[u8], at: usize, k: u64, v: &[u8], p: usize) -> Result<(), Misfit>
    requires { (at ≤ length s.now) × (p ≤ length v.now) }
    ensures { (depth : ℕ) → Judges (numeric k (drop at s.now)) (bare depth (drop p v.now)) result }
{
    let e = number_end(v, p).ok_or(Misfit::WrongType)?;
    token_fit(s, at, k, &v[p..e])
}

// A string names a member of an enum by its bytes, as they are sent.
fn named_fit(s: &[u8], at: usize, name: &[u8]) -> Result<(), Misfit>
    requires { at ≤ length s.now }
    ensures { Judges (enum_at (drop at s.now)) (Some (Json.string name.now, [])) result }
{
    range_fit(number_of(s, at, name).is_some())
}

// A member of an enum, by its name or by its number.
fn choice_fit(s: &[u8], at: usize, v: &[u8], p: usize) -> Result<(), Misfit>
    requires { (at ≤ length s.now) × (p ≤ length v.now) }
    ensures { (depth : ℕ) → Judges (enum_at (drop at s.now)) (bare depth (drop p v.now)) result }
{
    if byte(v, p) == b'"' {
        return named_fit(s, at, quoted(v, p));
    }
    let e = number_end(v, p).ok_or(Misfit::WrongType)?;
    enum_fit(s, at, &v[p..e])
}

// Of the values only `true` and `false` begin with a 't' or an 'f'.
fn bool_fit(v: &[u8], p: usize) -> Result<(), Misfit>
    ensures { (depth : ℕ) → Judges (Some (Datainfo.bool, [])) (bare depth (drop p v.now)) result }
{
    let b = byte(v, p);
    if b == b't' {
        return Ok(());
    }
    if b == b'f' {
        return Ok(());
    }
    Err(Misfit::WrongType)
}

// A string with the bytes t between its quotes.
fn characters_fit(s: &[u8], at: usize, t: &[u8]) -> Result<(), Misfit>
    requires { at ≤ length s.now }
    ensures { Judges (string_at (drop at s.now)) (Some (Json.string t.now, [])) result }
{
    if all_low(t) {
        return limits_fit(s, at, count(t));
    }
    Err(Misfit::RangeError)
}

fn string_fit(s: &[u8], at: usize, v: &[u8], p: usize) -> Result<(), Misfit>
    requires { (at ≤ length s.now) × (p ≤ length v.now) }
    ensures { (depth : ℕ) → Judges (string_at (drop at s.now)) (bare depth (drop p v.now)) result }
{
    if byte(v, p) != b'"' {
        return Err(Misfit::WrongType);
    }
    characters_fit(s, at, quoted(v, p))
}

// A string with the bytes t between its quotes, among which an escape is never base64.
fn base64_fit(s: &[u8], at: usize, t: &[u8]) -> Result<(), Misfit>
    requires { at ≤ length s.now }
    ensures { Judges (blob_at (drop at s.now)) (Some (Json.string t.now, [])) result }
{
    let n = blob_size(t).ok_or(Misfit::WrongType)?;
    limits_fit(s, at, n)
}

fn blob_fit(s: &[u8], at: usize, v: &[u8], p: usize) -> Result<(), Misfit>
    requires { (at ≤ length s.now) × (p ≤ length v.now) }
    ensures { (depth : ℕ) → Judges (blob_at (drop at s.now)) (bare depth (drop p v.now)) result }
{
    if byte(v, p) != b'"' {
        return Err(Misfit::WrongType);
    }
    base64_fit(s, at, quoted(v, p))
}

// What follows the type byte k of a type that holds no datainfos.
fn plain_fit(s: &[u8], at: usize, k: u64, v: &[u8], p: usize) -> Result<(), Misfit>
    requires { (at ≤ length s.now) × (p ≤ length v.now) }
    ensures { (depth : ℕ) → Judges (plain k (drop at s.now)) (bare depth (drop p v.now)) result }
{
    if k == 3 {
        return bool_fit(v, p);
    }
    if k == 4 {
        return choice_fit(s, at, v, p);
    }
    if k == 5 {
        return string_fit(s, at, v, p);
    }
    if k == 10 {
        return blob_fit(s, at, v, p);
    }
    number_fit(s, at, k, v, p)
}

// The items of an array are judged by one datainfo, behind the two limits of their count. An item takes a byte at least, so of a JSON text
// none is left when the bytes are.
#[cycle(array_fit_fields_fit_fit_struct_fit_tuple_fit)]
fn array_fit(
    s: &[u8],
    at: usize,
    levels: usize,
    v: &[u8],
    p: usize,
    depth: usize,
) -> Result<(), Misfit>
    requires { (at ≤ length s.now) × (p ≤ length v.now) }
    ensures { Judges (array_at (datainfo_in levels) (drop at s.now)) (bare depth (drop p v.now)) result }
{
    if depth == 0 {
        return Err(Misfit::WrongType);
    }
    if byte(v, p) != b'[' {
        return Err(Misfit::WrongType);
    }
    let inner = part_end(s, at, 4).ok_or(Misfit::WrongType)?;
    let mut worst = Ok(());
    let mut n = 0;
    let mut item = first(v, p + 1, b']');
    for _ in p..v.len() {
        let Some(i) = item else {
            return worse(limits_fit(s, at, n), worst);
        };
        worst = worse(worst, fit(s, inner, levels, v, spaces_end(v, i), depth - 1));
        n += 1;
        item = next(v, i, depth - 1);
    }
    Err(Misfit::WrongType)
}

// The items of a tuple are judged by its datainfos in turn.
#[cycle(array_fit_fields_fit_fit_struct_fit_tuple_fit)]
fn tuple_fit(
    s: &[u8],
    at: usize,
    levels: usize,
    v: &[u8],
    p: usize,
    depth: usize,
) -> Result<(), Misfit>
    requires { (at ≤ length s.now) × (p ≤ length v.now) }
    ensures { Judges (tuple_at (datainfo_in levels) (drop at s.now)) (bare depth (drop p v.now)) result }
{
    if depth == 0 {
        return Err(Misfit::WrongType);
    }
    if byte(v, p) != b'[' {
        return Err(Misfit::WrongType);
    }
    let (count, from) = unsigned(s, at, 1).ok_or(Misfit::WrongType)?;
    let mut worst = Ok(());
    let mut element = from;
    let mut item = first(v, p + 1, b']');
    for _ in 0..count {
        let Some(i) = item else {
            return worse(worst, Err(Misfit::WrongType));
        };
        let e = datainfo_end(s, element, levels).ok_or(Misfit::WrongType)?;
        worst = worse(
            worst,
            fit(s, element, levels, v, spaces_end(v, i), depth - 1),
        );
        item = next(v, i, depth - 1);
        element = e;
    }
    if item.is_some() {
        return worse(worst, Err(Misfit::WrongType));
    }
    worst
}

// The values of an object, past its '{', at the names of a struct, past its type byte k; each name is exactly once among the keys.
#[cycle(array_fit_fields_fit_fit_struct_fit_tuple_fit)]
fn fields_fit(
    s: &[u8],
    at: usize,
    levels: usize,
    k: u8,
    v: &[u8],
    p: usize,
    depth: usize,
) -> Result<(), Misfit>
    requires { (at ≤ length s.now) × (p ≤ length v.now) }
    ensures { JudgesFields (members_at (datainfo_in levels) k (drop at s.now)) (object_end (value depth) (drop p v.now)) result }
{
    let (count, from) = unsigned(s, at, 1).ok_or(Misfit::WrongType)?;
    let mut worst = Ok(());
    let mut field = from;
    for _ in 0..count {
        let inner = named_end(s, field, k).ok_or(Misfit::WrongType)?;
        let q = find_key(v, p, depth, named_at(s, field, k)).ok_or(Misfit::WrongType)?;
        let e = datainfo_end(s, inner, levels).ok_or(Misfit::WrongType)?;
        worst = worse(worst, fit(s, inner, levels, v, q, depth));
        field = e;
    }
    worst
}

#[cycle(array_fit_fields_fit_fit_struct_fit_tuple_fit)]
fn struct_fit(
    s: &[u8],
    at: usize,
    levels: usize,
    k: u8,
    v: &[u8],
    p: usize,
    depth: usize,
) -> Result<(), Misfit>
    requires { (at ≤ length s.now) × (p ≤ length v.now) }
    ensures { JudgesStruct (members_at (datainfo_in levels) k (drop at s.now)) (bare depth (drop p v.now)) result }
{
    if depth == 0 {
        return Err(Misfit::WrongType);
    }
    if byte(v, p) != b'{' {
        return Err(Misfit::WrongType);
    }
    if each_once(s, at, levels, k, v, p + 1, depth - 1) {
        return fields_fit(s, at, levels, k, v, p + 1, depth - 1);
    }
    Err(Misfit::WrongType)
}

// The value at p, without spaces before it, and the datainfo at a position, of at most `levels` levels.
#[cycle(array_fit_fields_fit_fit_struct_fit_tuple_fit)]
pub fn fit(
    s: &[u8],
    at: usize,
    levels: usize,
    v: &[u8],
    p: usize,
    depth: usize,
) -> Result<(), Misfit>
    requires { (at ≤ length s.now) × (p ≤ length v.now) }
    ensures { Judges (datainfo_in levels (drop at s.now)) (bare depth (drop p v.now)) result }
{
    if levels == 0 {
        return Err(Misfit::WrongType);
    }
    let (k, inner) = unsigned(s, at, 1).ok_or(Misfit::WrongType)?;
    if k == 6 {
        return array_fit(s, inner, levels - 1, v, p, depth);
    }
    if k == 7 {
        return tuple_fit(s, inner, levels - 1, v, p, depth);
    }
    if k == 8 {
        return struct_fit(s, inner, levels - 1, 8, v, p, depth);
    }
    if k == 11 {
        return struct_fit(s, inner, levels - 1, 11, v, p, depth);
    }
    plain_fit(s, inner, k, v, p)
}

// Whether it is the verdict that lets a value in.
pub fn is_fit(a: Result<(), Misfit>) -> bool
    ensures { result ≡ is_fit (meaning a) }
{
    a.is_ok()
}
