// A reader of JSON (RFC 8259) by recursive descent: each function finds where a part of the grammar ends.
ghost use Rattle.std.specs.Prelude.{◌≡◌, ◌≤◌, length, drop};
ghost use Rattle.ascii.specs.Bytes.{after, is_some};
ghost use Rattle.ascii.specs.Clauses.Reader.{Left, Ends, rest};
ghost use Rattle.json_text.specs.Json.{is_escape, hex, hex4, escape, char, string_end, skip, scalar, array_end, key, object_end, bare, value, text};

use ascii::{byte, is_printable};
use decimal::token::number_end;
use limits::JSON_LEVELS;

fn is_escape(b: u8) -> bool
    ensures { result ≡ is_escape b }
{
    matches!(b, b'"' | b'/' | b'\\' | b'b' | b'f' | b'n' | b'r' | b't')
}

// Past the spaces at a position.
pub fn spaces_end(s: &[u8], at: usize) -> usize
    requires { at ≤ length s.now }
    ensures { Left s.now result (skip (drop at s.now)) }
{
    let mut i = at;
    while byte(s, i) == b' ' {
        i += 1;
    }
    i
}

fn hex_end(s: &[u8], at: usize) -> Option<usize>
    requires { at ≤ length s.now }
    ensures { Ends s.now result (hex (drop at s.now)) }
{
    if byte(s, at).is_ascii_hexdigit() {
        Some(at + 1)
    } else {
        None
    }
}

fn hex4_end(s: &[u8], at: usize) -> Option<usize>
    requires { at ≤ length s.now }
    ensures { Ends s.now result (hex4 (drop at s.now)) }
{
    let i = hex_end(s, at)?;
    let j = hex_end(s, i)?;
    let k = hex_end(s, j)?;
    hex_end(s, k)
}

// Past an escape, at the byte after its backslash.
fn escape_end(s: &[u8], at: usize) -> Option<usize>
    requires { at ≤ length s.now }
    ensures { Ends s.now result (escape (drop at s.now)) }
{
    match byte(s, at) {
        b'u' => hex4_end(s, at + 1),
        b if is_escape(b) => Some(at + 1),
        _ => None,
    }
}

// Past one character of a string.
fn char_end(s: &[u8], at: usize) -> Option<usize>
    requires { at ≤ length s.now }
    ensures { Ends s.now result (char (drop at s.now)) }
{
    match byte(s, at) {
        b'\\' => escape_end(s, at + 1),
        b if is_printable(b) => Some(at + 1),
        _ => None,
    }
}

// Past a string, at the byte after its opening quote.
pub fn string_end(s: &[u8], at: usize) -> Option<usize>
    requires { at ≤ length s.now }
    ensures { Ends s.now result (string_end (drop at s.now)) }
{
    let mut i = at;
    for _ in at..s.len() {
        if byte(s, i) == b'"' {
            return Some(i + 1);
        }
        i = char_end(s, i)?;
    }
    None
}

// Past the bytes of `w`, if they stand at a position.
fn word_end(s: &[u8], at: usize, w: &[u8]) -> Option<usize>
    requires { at ≤ length s.now }
    ensures { Ends s.now result (after w.now (drop at s.now)) }
{
    if s[at..].starts_with(w) {
        Some(at + w.len())
    } else {
        None
    }
}

// Past a value that is neither an array nor an object.
pub fn scalar_end(s: &[u8], at: usize) -> Option<usize>
    requires { at ≤ length s.now }
    ensures { Ends s.now result (rest (scalar (drop at s.now))) }
{
    match byte(s, at) {
        b'"' => string_end(s, at + 1),
        b'n' => word_end(s, at, b"null"),
        b't' => word_end(s, at, b"true"),
        b'f' => word_end(s, at, b"false"),
        _ => number_end(s, at),
    }
}

// Past the values of an array, at the byte after its '['.
#[cycle(array_end_bare_end_object_end_value_end)]
fn array_end(s: &[u8], at: usize, depth: usize) -> Option<usize>
    requires { at ≤ length s.now }
    ensures { Ends s.now result (rest (array_end (value depth) (drop at s.now))) }
{
    let first = spaces_end(s, at);
    if byte(s, first) == b']' {
        return Some(first + 1);
    }
    let mut i = at;
    for _ in at..s.len() {
        let e = value_end(s, i, depth)?;
        let b = byte(s, e);
        if b == b']' {
            return Some(e + 1);
        }
        if b != b',' {
            return None;
        }
        i = e + 1;
    }
    None
}

// Past a key and its colon.
pub fn key_end(s: &[u8], at: usize) -> Option<usize>
    requires { at ≤ length s.now }
    ensures { Ends s.now result (rest (key (drop at s.now))) }
{
    let i = spaces_end(s, at);
    if byte(s, i) != b'"' {
        return None;
    }
    let e = string_end(s, i + 1)?;
    let c = spaces_end(s, e);
    if byte(s, c) == b':' {
        Some(c + 1)
    } else {
        None
    }
}

// Past the members of an object, at the byte after its '{'.
#[cycle(array_end_bare_end_object_end_value_end)]
fn object_end(s: &[u8], at: usize, depth: usize) -> Option<usize>
    requires { at ≤ length s.now }
    ensures { Ends s.now result (rest (object_end (value depth) (drop at s.now))) }
{
    let first = spaces_end(s, at);
    if byte(s, first) == b'}' {
        return Some(first + 1);
    }
    let mut i = at;
    for _ in at..s.len() {
        let v = key_end(s, i)?;
        let e = value_end(s, v, depth)?;
        let b = byte(s, e);
        if b == b'}' {
            return Some(e + 1);
        }
        if b != b',' {
            return None;
        }
        i = e + 1;
    }
    None
}

// Past a value that starts at a position, of at most `depth` levels of arrays and objects.
#[cycle(array_end_bare_end_object_end_value_end)]
fn bare_end(s: &[u8], at: usize, depth: usize) -> Option<usize>
    requires { at ≤ length s.now }
    ensures { Ends s.now result (rest (bare depth (drop at s.now))) }
{
    if depth == 0 {
        return scalar_end(s, at);
    }
    match byte(s, at) {
        b'[' => array_end(s, at + 1, depth - 1),
        b'{' => object_end(s, at + 1, depth - 1),
        _ => scalar_end(s, at),
    }
}

// Past a value and the spaces around it.
#[cycle(array_end_bare_end_object_end_value_end)]
pub fn value_end(s: &[u8], at: usize, depth: usize) -> Option<usize>
    requires { at ≤ length s.now }
    ensures { Ends s.now result (rest (value depth (drop at s.now))) }
{
    let e = bare_end(s, spaces_end(s, at), depth)?;
    Some(spaces_end(s, e))
}

// Whether a whole text is JSON.
pub fn is_text(s: &[u8]) -> bool
    ensures { result ≡ is_some (text s.now) }
{
    value_end(s, 0, JSON_LEVELS) == Some(s.len())
}
