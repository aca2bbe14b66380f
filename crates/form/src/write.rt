// The stored form of a value: the table's bytes and the value's text are walked over together, and what is to be stored is written piece by
// piece, or only counted where the buffer has no room. `i` is a position in the table: of a datainfo, or past its type byte where the function is
// of one type; `p` is the position of the value. The value fits its datainfo; of any other, and of bytes that can't be read, nothing is promised.
ghost use Rattle.std.specs.Prelude.{◌≡◌, ℕ, ◌+◌, ◌≤◌, ◌<◌, length, drop};
ghost use Rattle.json_text.specs.Json.{scalar, bare, value, array_end, object_end};
ghost use Rattle.datainfo.specs.Layout.{enum_at, array_at, tuple_at, datainfo_in};
ghost use Rattle.datainfo.specs.Clauses.Members.{members_at};
ghost use Rattle.form.specs.Clauses.Formed.{Copies, PutsNumber, Forms, FormsItem, FormsItems, FormsElements, FieldIn, FormsMember, FormsMembers};
ghost use Rattle.form.specs.Clauses.Formed.{FormsStruct, FormsField, FormsFields, FormsOrdered, FormsText, FormIsLong};

use ascii::byte;
use ascii::names::same;
use ascii::numbers::unsigned;
use datainfo::layout::{datainfo_end, field_end, named_end, part_end};
use datainfo::rules::named_at;
use emit::{emit, emit_comma, emit_integer, emit_key};
use fit::member::number_of;
use fit::object::find_key;
use fit::walk::{first, key_at, member_value, next, next_member, quoted};
use json_text::read::{scalar_end, spaces_end};
use limits::{DATAINFO_LEVELS, JSON_LEVELS};

// The type byte of a struct whose members a change may leave out.
pub(crate) const PARTIAL: u8 = 11;

// The levels below the top one: of the datainfos of a struct's members, and of the values of an object's.
pub(crate) const MEMBER_LEVELS: usize = DATAINFO_LEVELS - 1;

pub(crate) const MEMBER_DEPTH: usize = JSON_LEVELS - 1;

// A value that holds no values: its bytes as they stand.
fn put_scalar(out: &mut [u8], at: usize, v: &[u8], p: usize) -> usize
    requires { p ≤ length v.now }
    ensures { Copies (scalar (drop p v.now)) out.old at out.new result }
{
    let Some(e) = scalar_end(v, p) else {
        return at;
    };
    emit(out, at, &v[p..e])
}

// The number in place of a member's name.
fn put_named(out: &mut [u8], at: usize, s: &[u8], i: usize, name: &[u8]) -> usize
    requires { i ≤ length s.now }
    ensures { PutsNumber (enum_at (drop i s.now)) name.now out.old at out.new result }
{
    let Some((number, _)) = number_of(s, i, name) else {
        return at;
    };
    emit_integer(out, at, number)
}

// A member of an enum, by its name or by its number.
fn put_choice(out: &mut [u8], at: usize, s: &[u8], i: usize, v: &[u8], p: usize) -> usize
    requires { (i ≤ length s.now) × (p ≤ length v.now) }
    ensures { (depth : ℕ) → Forms (enum_at (drop i s.now)) (bare depth (drop p v.now))
        out.old at out.new result }
{
    if byte(v, p) == b'"' {
        return put_named(out, at, s, i, quoted(v, p));
    }
    put_scalar(out, at, v, p)
}

// Where the datainfo of the first field of a name is, of a struct past its type byte k.
fn field_at(s: &[u8], i: usize, levels: usize, k: u8, name: &[u8]) -> Option<usize>
    requires { i ≤ length s.now }
    ensures { FieldIn (members_at (datainfo_in levels) k (drop i s.now)) s.now levels name.now result }
{
    let (count, from) = unsigned(s, i, 1)?;
    let mut field = from;
    for _ in 0..count {
        let inner = named_end(s, field, k)?;
        if same(named_at(s, field, k), name) {
            return Some(inner);
        }
        field = datainfo_end(s, inner, levels)?;
    }
    None
}

// An item of an array or a tuple, at j, with a comma before it unless it is the first.
#[cycle(put_array_put_elements_put_item_put_items_put_member_put_members_put_struct_put_tuple_put_value)]
fn put_item(
    out: &mut [u8],
    at: usize,
    s: &[u8],
    i: usize,
    levels: usize,
    v: &[u8],
    j: usize,
    depth: usize,
    start: bool,
) -> usize
    requires { (i ≤ length s.now) × (j ≤ length v.now) }
    ensures { FormsItem (datainfo_in levels (drop i s.now)) (value depth (drop j v.now)) start
        out.old at out.new result }
{
    let a = emit_comma(out, at, start);
    put_value(out, a, s, i, levels, v, spaces_end(v, j), depth)
}

// The items of an array, past the '[' at p, each by the one datainfo.
#[cycle(put_array_put_elements_put_item_put_items_put_member_put_members_put_struct_put_tuple_put_value)]
fn put_items(
    out: &mut [u8],
    at: usize,
    s: &[u8],
    i: usize,
    levels: usize,
    v: &[u8],
    p: usize,
    depth: usize,
) -> usize
    requires { (i ≤ length s.now) × (p < length v.now) }
    ensures { FormsItems (datainfo_in levels (drop i s.now)) (array_end (value depth) (drop (p + 1) v.now))
        out.old at out.new result }
{
    let mut a = at;
    let mut item = first(v, p + 1, b']');
    let mut start = true;
    for _ in p..v.len() {
        let Some(j) = item else {
            return a;
        };
        a = put_item(out, a, s, i, levels, v, j, depth, start);
        start = false;
        item = next(v, j, depth);
    }
    a
}

#[cycle(put_array_put_elements_put_item_put_items_put_member_put_members_put_struct_put_tuple_put_value)]
fn put_array(
    out: &mut [u8],
    at: usize,
    s: &[u8],
    i: usize,
    levels: usize,
    v: &[u8],
    p: usize,
    depth: usize,
) -> usize
    requires { (i ≤ length s.now) × (p ≤ length v.now) }
    ensures { Forms (array_at (datainfo_in levels) (drop i s.now)) (bare depth (drop p v.now))
        out.old at out.new result }
{
    if depth == 0 || v.len() <= p {
        return at;
    }
    let Some(inner) = part_end(s, i, 4) else {
        return at;
    };
    let a = emit(out, at, b"[");
    let b = put_items(out, a, s, inner, levels, v, p, depth - 1);
    emit(out, b, b"]")
}

// The items of a tuple, past the '[' at p, by its datainfos in turn; they are as many.
#[cycle(put_array_put_elements_put_item_put_items_put_member_put_members_put_struct_put_tuple_put_value)]
fn put_elements(
    out: &mut [u8],
    at: usize,
    s: &[u8],
    i: usize,
    levels: usize,
    v: &[u8],
    p: usize,
    depth: usize,
) -> usize
    requires { (i ≤ length s.now) × (p < length v.now) }
    ensures { FormsElements (tuple_at (datainfo_in levels) (drop i s.now)) (array_end (value depth) (drop (p + 1) v.now))
        out.old at out.new result }
{
    let Some((count, from)) = unsigned(s, i, 1) else {
        return at;
    };
    let mut a = at;
    let mut element = from;
    let mut item = first(v, p + 1, b']');
    for n in 0..count {
        let Some(j) = item else {
            return a;
        };
        let Some(e) = datainfo_end(s, element, levels) else {
            return a;
        };
        a = put_item(out, a, s, element, levels, v, j, depth, n == 0);
        item = next(v, j, depth);
        element = e;
    }
    a
}

#[cycle(put_array_put_elements_put_item_put_items_put_member_put_members_put_struct_put_tuple_put_value)]
fn put_tuple(
    out: &mut [u8],
    at: usize,
    s: &[u8],
    i: usize,
    levels: usize,
    v: &[u8],
    p: usize,
    depth: usize,
) -> usize
    requires { (i ≤ length s.now) × (p ≤ length v.now) }
    ensures { Forms (tuple_at (datainfo_in levels) (drop i s.now)) (bare depth (drop p v.now))
        out.old at out.new result }
{
    if depth == 0 || v.len() <= p {
        return at;
    }
    let a = emit(out, at, b"[");
    let b = put_elements(out, a, s, i, levels, v, p, depth - 1);
    emit(out, b, b"]")
}

// The member at j of an object: its key, and its value by the datainfo of the field of that name.
#[cycle(put_array_put_elements_put_item_put_items_put_member_put_members_put_struct_put_tuple_put_value)]
fn put_member(
    out: &mut [u8],
    at: usize,
    s: &[u8],
    i: usize,
    levels: usize,
    k: u8,
    v: &[u8],
    j: usize,
    depth: usize,
) -> usize
    requires { (i ≤ length s.now) × (j ≤ length v.now) }
    ensures { FormsMember (members_at (datainfo_in levels) k (drop i s.now)) depth (drop j v.now)
        out.old at out.new result }
{
    let name = key_at(v, j);
    let Some(inner) = field_at(s, i, levels, k, name) else {
        return at;
    };
    let Some(q) = member_value(v, j) else {
        return at;
    };
    let a = emit_key(out, at, name);
    put_value(out, a, s, inner, levels, v, q, depth)
}

// The members of an object, past the '{' at p, in the order of the text.
#[cycle(put_array_put_elements_put_item_put_items_put_member_put_members_put_struct_put_tuple_put_value)]
fn put_members(
    out: &mut [u8],
    at: usize,
    s: &[u8],
    i: usize,
    levels: usize,
    k: u8,
    v: &[u8],
    p: usize,
    depth: usize,
) -> usize
    requires { (i ≤ length s.now) × (p < length v.now) }
    ensures { FormsMembers (members_at (datainfo_in levels) k (drop i s.now)) (object_end (value depth) (drop (p + 1) v.now))
        out.old at out.new result }
{
    let mut a = at;
    let mut member = first(v, p + 1, b'}');
    let mut start = true;
    for _ in p..v.len() {
        let Some(j) = member else {
            return a;
        };
        let c = emit_comma(out, a, start);
        a = put_member(out, c, s, i, levels, k, v, j, depth);
        start = false;
        member = next_member(v, j, depth);
    }
    a
}

#[cycle(put_array_put_elements_put_item_put_items_put_member_put_members_put_struct_put_tuple_put_value)]
fn put_struct(
    out: &mut [u8],
    at: usize,
    s: &[u8],
    i: usize,
    levels: usize,
    k: u8,
    v: &[u8],
    p: usize,
    depth: usize,
) -> usize
    requires { (i ≤ length s.now) × (p ≤ length v.now) }
    ensures { FormsStruct (members_at (datainfo_in levels) k (drop i s.now)) (bare depth (drop p v.now))
        out.old at out.new result }
{
    if depth == 0 || v.len() <= p {
        return at;
    }
    let a = emit(out, at, b"{");
    let b = put_members(out, a, s, i, levels, k, v, p, depth - 1);
    emit(out, b, b"}")
}

// The value at p, without spaces before it, by the datainfo at a position, of at most `levels` levels.
#[cycle(put_array_put_elements_put_item_put_items_put_member_put_members_put_struct_put_tuple_put_value)]
fn put_value(
    out: &mut [u8],
    at: usize,
    s: &[u8],
    i: usize,
    levels: usize,
    v: &[u8],
    p: usize,
    depth: usize,
) -> usize
    requires { (i ≤ length s.now) × (p ≤ length v.now) }
    ensures { Forms (datainfo_in levels (drop i s.now)) (bare depth (drop p v.now)) out.old at out.new result }
{
    if levels == 0 {
        return at;
    }
    let Some((k, inner)) = unsigned(s, i, 1) else {
        return at;
    };
    match k {
        4 => put_choice(out, at, s, inner, v, p),
        6 => put_array(out, at, s, inner, levels - 1, v, p, depth),
        7 => put_tuple(out, at, s, inner, levels - 1, v, p, depth),
        8 => put_struct(out, at, s, inner, levels - 1, 8, v, p, depth),
        11 => put_struct(out, at, s, inner, levels - 1, PARTIAL, v, p, depth),
        _ => put_scalar(out, at, v, p),
    }
}

// The member of a name of a struct of type 11, from the object past the '{' at p.
pub(crate) fn put_field(
    out: &mut [u8],
    at: usize,
    s: &[u8],
    i: usize,
    levels: usize,
    v: &[u8],
    p: usize,
    depth: usize,
    name: &[u8],
) -> usize
    requires { (i ≤ length s.now) × (p < length v.now) }
    ensures { FormsField (members_at (datainfo_in levels) 11 (drop i s.now)) (object_end (value depth) (drop (p + 1) v.now))
        name.now out.old at out.new result }
{
    let Some(inner) = field_at(s, i, levels, PARTIAL, name) else {
        return at;
    };
    let Some(q) = find_key(v, p + 1, depth, name) else {
        return at;
    };
    let a = emit_key(out, at, name);
    put_value(out, a, s, inner, levels, v, q, depth)
}

// The members of a struct of type 11 in table order, from the object past the '{' at p.
fn put_fields(
    out: &mut [u8],
    at: usize,
    s: &[u8],
    i: usize,
    levels: usize,
    v: &[u8],
    p: usize,
    depth: usize,
) -> usize
    requires { (i ≤ length s.now) × (p < length v.now) }
    ensures { FormsFields (members_at (datainfo_in levels) 11 (drop i s.now)) (object_end (value depth) (drop (p + 1) v.now))
        out.old at out.new result }
{
    let Some((count, from)) = unsigned(s, i, 1) else {
        return at;
    };
    let mut a = at;
    let mut field = from;
    for n in 0..count {
        let Some(e) = field_end(s, field, levels, PARTIAL) else {
            return a;
        };
        let name = named_at(s, field, PARTIAL);
        let c = emit_comma(out, a, n == 0);
        a = put_field(out, c, s, i, levels, v, p, depth, name);
        field = e;
    }
    a
}

// A value at the top level of type 11, past its type byte: its members in table order.
fn put_ordered(out: &mut [u8], at: usize, s: &[u8], i: usize, v: &[u8], p: usize) -> usize
    requires { (i ≤ length s.now) × (p ≤ length v.now) }
    ensures { FormsOrdered (members_at (datainfo_in 3) 11 (drop i s.now)) (bare 8 (drop p v.now))
        out.old at out.new result }
{
    if v.len() <= p {
        return at;
    }
    let a = emit(out, at, b"{");
    let b = put_fields(out, a, s, i, MEMBER_LEVELS, v, p, MEMBER_DEPTH);
    emit(out, b, b"}")
}

// The stored form of a text that fits the datainfo at a position of the table: written where there is room, counted in any case.
pub fn put_text(s: &[u8], i: usize, out: &mut [u8], at: usize, v: &[u8]) -> usize
    requires { i ≤ length s.now }
    ensures { FormsText (datainfo_in 4 (drop i s.now)) v.now out.old at out.new result }
{
    let p = spaces_end(v, 0);
    let Some((k, inner)) = unsigned(s, i, 1) else {
        return at;
    };
    if k == u64::from(PARTIAL) {
        return put_ordered(out, at, s, inner, v, p);
    }
    put_value(out, at, s, i, DATAINFO_LEVELS, v, p, JSON_LEVELS)
}

// How long the stored form is: it is written nowhere.
pub fn form_length(s: &[u8], i: usize, v: &[u8]) -> usize
    requires { i ≤ length s.now }
    ensures { FormIsLong (datainfo_in 4 (drop i s.now)) v.now result }
{
    put_text(s, i, &mut [], 0, v)
}
