// The size of what a text is the base64 of: padded, and unused bits zero.
#![tactic(auto)]

ghost use Rattle.std.specs.Prelude.{◌≡◌, true, ◌≤◌, length, drop};
ghost use Rattle.base64_text.specs.Base64 as Base64;
ghost use Rattle.base64_text.specs.Base64.{is_sextet, blob_size};
ghost use Rattle.base64_text.specs.Clauses.Answer.{six_bits, whole_at, last_size};
ghost use Rattle.base64_text.specs.Theorems.{SizesAreOfEncodings, SizedHasNoEscape, VectorsAreRight};

use ascii::{byte, is_digit, is_in};

// The six bits of a digit.
fn sextet(b: u8) -> Option<u8>
    ensures { result ≡ six_bits b }
{
    if is_in(b'A', b'Z', b) {
        return Some(b - b'A');
    }
    if is_in(b'a', b'z', b) {
        return Some(b - 71);
    }
    if is_digit(b) {
        return Some(b + 4);
    }
    if b == b'+' {
        return Some(62);
    }
    if b == b'/' {
        return Some(63);
    }
    None
}

fn is_sextet(b: u8) -> bool
    ensures { result ≡ is_sextet b }
{
    sextet(b).is_some()
}

// Whether four digits stand at a position. Past the end there is none.
fn is_whole(t: &[u8], i: usize) -> bool
    requires { i ≤ length t.now }
    ensures { result ≡ whole_at t.now i }
{
    if is_sextet(byte(t, i)) {
        if is_sextet(byte(t, i + 1)) {
            if is_sextet(byte(t, i + 2)) {
                return is_sextet(byte(t, i + 3));
            }
            return false;
        }
        return false;
    }
    false
}

// A last group with one or two pads.
fn padded(a: u8, b: u8, c: u8, d: u8) -> Option<usize>
    ensures { result ≡ Base64.padded a b c d }
{
    sextet(a)?;
    let second = sextet(b)?;
    if d != b'=' {
        return None;
    }
    if c == b'=' {
        if second % 16 == 0 {
            return Some(1);
        }
        return None;
    }
    let third = sextet(c)?;
    if third % 4 == 0 {
        return Some(2);
    }
    None
}

// What follows the whole groups.
fn last_size(t: &[u8], i: usize) -> Option<usize>
    requires { i ≤ length t.now }
    ensures { result ≡ last_size (drop i t.now) }
{
    let left = t.len() - i;
    if left == 0 {
        return Some(0);
    }
    if left == 4 {
        return padded(t[i], t[i + 1], t[i + 2], t[i + 3]);
    }
    None
}

pub fn blob_size(t: &[u8]) -> Option<usize>
    ensures { result ≡ blob_size t.now }
{
    let mut i = 0;
    let mut n = 0;
    while is_whole(t, i) {
        i += 4;
        n += 3;
    }
    Some(n + last_size(t, i)?)
}

// A text has a size exactly if it is RFC 4648's encoding of so many bytes: nothing is run, the promise is the theorem.
pub fn sizes_are_of_encodings() -> bool
    ensures { (result ≡ true) × SizesAreOfEncodings }
{
    true
}

// A text with an escape has no size.
pub fn sized_has_no_escape() -> bool
    ensures { (result ≡ true) × SizedHasNoEscape }
{
    true
}

// The test vectors of RFC 4648, section 10.
pub fn vectors_are_right() -> bool
    ensures { (result ≡ true) × VectorsAreRight }
{
    true
}
