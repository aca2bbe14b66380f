// A change may leave optional members out of a value of type 11: they keep what is shown. What is left out is filled in first, in a buffer of
// its own, and what comes of it is judged and stored as any text is.
ghost use Rattle.std.specs.Prelude.{◌≡◌, ◌&&◌, ◌+◌, ◌≤◌, ◌<◌, eqb, length, drop};
ghost use Rattle.ascii.specs.Bytes.{is_some, head};
ghost use Rattle.json_text.specs.Json.{value, object_end, text};
ghost use Rattle.datainfo.specs.Layout.{datainfo_in};
ghost use Rattle.datainfo.specs.Clauses.Members.{members_at};
ghost use Rattle.form.specs.Clauses.Merged.{TellsLeftOut, KeepsAll, Merges, ShownAt, Completes};

use crate::write::{MEMBER_DEPTH, MEMBER_LEVELS, PARTIAL, put_field};
use ascii::byte;
use ascii::numbers::unsigned;
use datainfo::layout::field_end;
use datainfo::rules::named_at;
use emit::{emit, emit_comma};
use fit::object::{count_key, is_optional};
use fit::walk::first;
use json_text::read::{is_text, spaces_end};

// Whether a member of a name is optional and left out of the object past the '{' at p.
fn is_left_out(s: &[u8], i: usize, v: &[u8], p: usize, name: &[u8]) -> bool
    requires { (i ≤ length s.now) × (p < length v.now) }
    ensures { TellsLeftOut (members_at (datainfo_in 3) 11 (drop i s.now)) (object_end (value 7) (drop (p + 1) v.now))
        name.now result }
{
    is_optional(s, i, MEMBER_LEVELS, name) && count_key(v, p + 1, MEMBER_DEPTH, name) == 0
}

// The members that the object past the '{' at p leaves out, from what is shown, in table order.
fn put_left_out(
    out: &mut [u8],
    at: usize,
    s: &[u8],
    i: usize,
    shown: &[u8],
    v: &[u8],
    p: usize,
) -> usize
    requires { (i ≤ length s.now) × ((0 < length shown.now) × (p < length v.now)) }
    ensures { KeepsAll (members_at (datainfo_in 3) 11 (drop i s.now)) (object_end (value 7) (drop (p + 1) v.now))
        (object_end (value 7) (drop 1 shown.now)) out.old at out.new result }
{
    let Some((count, from)) = unsigned(s, i, 1) else {
        return at;
    };
    let mut a = at;
    let mut field = from;
    let mut start = true;
    for _ in 0..count {
        let Some(e) = field_end(s, field, MEMBER_LEVELS, PARTIAL) else {
            return a;
        };
        let name = named_at(s, field, PARTIAL);
        if is_left_out(s, i, v, p, name) {
            let c = emit_comma(out, a, start);
            a = put_field(out, c, s, i, MEMBER_LEVELS, shown, 0, MEMBER_DEPTH, name);
            start = false;
        }
        field = e;
    }
    a
}

// The object at p of v, with what it leaves out in front of its own members.
fn put_merged(out: &mut [u8], s: &[u8], i: usize, shown: &[u8], v: &[u8], p: usize) -> usize
    requires { (i ≤ length s.now) × ((0 < length shown.now) × (p < length v.now)) }
    ensures { Merges (members_at (datainfo_in 3) 11 (drop i s.now)) (drop (p + 1) v.now)
        (object_end (value 7) (drop 1 shown.now)) out.old out.new result }
{
    let a = emit(out, 0, b"{");
    let b = put_left_out(out, a, s, i, shown, v, p);
    let from = p + 1;
    if first(v, from, b'}').is_none() {
        return emit(out, b, b"}");
    }
    let c = emit_comma(out, b, b == a);
    emit(out, c, &v[from..])
}

// Whether members may be left out: an object is shown, and the change is one.
fn is_part(shown: &[u8], v: &[u8], p: usize) -> bool
    requires { p ≤ length v.now }
    ensures { result ≡ (eqb (head shown.now) 123 && (eqb (head (drop p v.now)) 123 && is_some (text v.now))) }
{
    byte(shown, 0) == b'{' && byte(v, p) == b'{' && is_text(v)
}

// Writes what the change v of a parameter with the datainfo at a position comes to, where `shown` is what it shows: a text at the front of
// out, which has room for both and two bytes; its end is answered.
pub fn complete(s: &[u8], i: usize, shown: &[u8], v: &[u8], out: &mut [u8]) -> usize
    requires { ShownAt s.now i shown.now × (length v.now + length shown.now + 2 ≤ length out.old) }
    ensures { Completes (datainfo_in 4 (drop i s.now)) shown.now v.now out.old out.new result }
{
    let p = spaces_end(v, 0);
    match unsigned(s, i, 1) {
        Some((k, inner)) if k == u64::from(PARTIAL) && is_part(shown, v, p) => {
            put_merged(out, s, inner, shown, v, p)
        }
        _ => emit(out, 0, v),
    }
}
