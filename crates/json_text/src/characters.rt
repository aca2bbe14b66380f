// The characters of a string, over the bytes between its quotes: each escape counts as one.
ghost use Rattle.std.specs.Prelude.{◌≡◌, ◌+◌, ◌*◌, ◌≤◌, ◌<◌, length, take, drop, leb};
ghost use Rattle.ascii.specs.Bytes.{head, tail, all};
ghost use Rattle.json_text.specs.Characters.{hex_digit, hex_from, escaped, character, extra, characters};

use ascii::byte;

// The bytes of the character that begins at a position.
fn width(s: &[u8], at: usize) -> usize
    requires { at < length s.now }
    ensures { (result ≡ extra (head (drop at s.now)) (tail (drop at s.now)) + 1) × (result ≤ 6) }
{
    if byte(s, at) != b'\\' {
        1
    } else if byte(s, at + 1) == b'u' {
        6
    } else {
        2
    }
}

pub fn count(s: &[u8]) -> usize
    ensures { result ≡ length (characters s.now) }
{
    let mut i = 0;
    let mut n = 0;
    while i < s.len() {
        i += width(s, i);
        n += 1;
    }
    n
}

// A byte other than a hexadecimal digit has a value too, so that every string has its characters.
#[tactic(auto, unfolding(crate::specs::Characters::hex_digit))]
fn hex_digit(b: u8) -> usize
    ensures { (result ≡ hex_digit b) × (result ≤ 255) }
{
    let n = usize::from(b);
    match b {
        b'a'..=255 => n - 87,
        b'A'..=b'`' => n - 55,
        _ => n.saturating_sub(48),
    }
}

// The number n with one more digit, if one stands at a position.
fn with_digit(n: usize, s: &[u8], at: usize) -> usize
    requires { n ≤ 100000 }
    ensures { (result ≡ hex_from n (take 1 (drop at s.now))) × (result ≤ n * 16 + 255) }
{
    match s.get(at) {
        Some(b) => n * 16 + hex_digit(*b),
        None => n,
    }
}

fn hex_value(s: &[u8], at: usize) -> usize
    requires { at ≤ length s.now }
    ensures { result ≡ hex_from 0 (take 4 (drop at s.now)) }
{
    let a = with_digit(0, s, at);
    let b = with_digit(a, s, at + 1);
    let c = with_digit(b, s, at + 2);
    with_digit(c, s, at + 3)
}

// What an escape stands for, at the byte after its backslash.
fn escaped_at(s: &[u8], at: usize) -> usize
    requires { at ≤ length s.now }
    ensures { result ≡ escaped (drop at s.now) }
{
    match byte(s, at) {
        b'u' => hex_value(s, at + 1),
        b'b' => 8,
        b'f' => 12,
        b'n' => 10,
        b'r' => 13,
        b't' => 9,
        b => usize::from(b),
    }
}

fn character_at(s: &[u8], at: usize) -> usize
    requires { at < length s.now }
    ensures { result ≡ character (head (drop at s.now)) (tail (drop at s.now)) }
{
    match byte(s, at) {
        b'\\' => escaped_at(s, at + 1),
        b => usize::from(b),
    }
}

// Whether each character is within 0 to 127.
pub fn all_low(s: &[u8]) -> bool
    ensures { result ≡ all (λ c. leb c 127) (characters s.now) }
{
    let mut i = 0;
    while i < s.len() {
        if 127 < character_at(s, i) {
            return false;
        }
        i += width(s, i);
    }
    true
}
