// The night in numbers: what is kept of each parameter's settings, and the line that tells it. A number from -2,147,483,648 on is kept as how far it
// lies above that, so that all that is kept is no negative number.
#![tactic(auto)]

ghost use Rattle.std.specs.Prelude.{ℕ, ◌+◌, ◌-◌, ◌*◌, ◌≤◌, ◌<◌, true, false, cond, [], ◌++◌, ◌≡◌, length, drop, replicate, unwrap_or};
ghost use Rattle.std.proofs.Math.IntN.{sub_ℕ};
ghost use Rattle.ascii.specs.Text.{bytes};
ghost use Rattle.ascii.specs.Numbers.{integer};
ghost use Rattle.ascii.specs.Bytes.{is_digit};
ghost use Rattle.decimal.specs.Decimal.{numeral_from, numeral};
ghost use Rattle.emit.specs.Clauses.Emitted.{Emits};
ghost use Rattle.figures.specs.Figures.{is_narrow};
ghost use Rattle.figures.specs.Clauses.Tally.{Small, above, noted, no_settings, tally_at, Low, Bounded, Observes, SetTo, Marks};
ghost use Rattle.figures.specs.Clauses.Tally.{TellsSummed, LimitsNarrow, tally_numbers, full_text, count_text, tally_line};
ghost use Rattle.figures.specs.Theorems.{FiguresAreExact};

use ascii::byte;
use ascii::numbers::{signed, unsigned};
use datainfo::rules::limit_at;
use emit::{emit, emit_decimal, emit_labelled_decimal};
use limits::ACCESSIBLES;

// The least number that is kept is its negative, 0 in what is kept.
const LOWEST: u64 = 2147483648;

// "At 65,535 settings of one parameter the report says `full` for it".
const FULL: u16 = 65535;

// How many settings a parameter had, the least, the greatest and the sum of what is kept of each.
#[derive(Clone, Copy, Default)]
pub struct Tally {
    pub count: u16,
    pub least: u64,
    pub greatest: u64,
    pub sum: u64,
}

// Of each parameter, by its number.
#[derive(Clone, Copy)]
pub struct Figures {
    pub tallies: [Tally; ACCESSIBLES],
}

// The number n with the digit that a byte is behind it; n where it is none.
fn with_byte(n: u64, b: u8) -> u64
    requires { n ≤ 2147483648 }
    ensures { result ≡ cond (is_digit b) (n * 10 + (b - 48)) n }
{
    if b.is_ascii_digit() {
        return n * 10 + u64::from(b - b'0');
    }
    n
}

// The number that the digits among the bytes are. Those read so far make no larger one.
fn digits_of(t: &[u8]) -> u64
    requires { Small t.now }
    ensures { result ≡ numeral_from 0 t.now }
{
    let mut n = 0;
    for b in t {
        n = with_byte(n, *b);
    }
    n
}

// How far the number of a token lies above the least.
fn number_of(t: &[u8]) -> u64
    requires { Small t.now }
    ensures { (result ≡ above (numeral t.now)) × (result ≤ 4294967296) }
{
    let n = digits_of(t);
    if byte(t, 0) == b'-' {
        return LOWEST - n;
    }
    LOWEST + n
}

// "limits lie within -2,147,483,648 to 2,147,483,647"
fn is_narrow(lo: i64, hi: i64) -> bool
    ensures { result ≡ is_narrow lo hi }
{
    i64::from(i32::MIN) <= lo && hi <= i64::from(i32::MAX)
}

// Whether the limits of an int, or of a scaled behind its scale, are so; none where they can't be read.
fn limits_narrow(s: &[u8], at: usize) -> Option<bool>
    requires { at ≤ length s.now }
    ensures { LimitsNarrow (drop at s.now) (unwrap_or result false) }
{
    let (lo, a) = signed(s, at, 8)?;
    let (hi, _) = signed(s, a, 8)?;
    Some(is_narrow(lo, hi))
}

// The same by the datainfo at a position; a type with other limits or none is not so.
fn info_narrow(s: &[u8], info: usize) -> Option<bool>
    requires { info ≤ length s.now }
    ensures { TellsSummed s.now info (unwrap_or result false) }
{
    let (k, at) = unsigned(s, info, 1)?;
    match k {
        2 => limits_narrow(s, at),
        9 => {
            let (_, _, limits) = limit_at(s, at)?;
            limits_narrow(s, limits)
        }
        _ => Some(false),
    }
}

// "each int or scaled parameter whose limits lie within ..": whether the datainfo at a position is so.
pub fn is_summed(s: &[u8], info: usize) -> bool
    requires { info ≤ length s.now }
    ensures { TellsSummed s.now info result }
{
    info_narrow(s, info).unwrap_or(false)
}

// What is kept of a setting to a text, by the datainfo at a position, which lets it in.
pub fn mark_of(s: &[u8], info: usize, text: &[u8]) -> u64
    requires { SetTo s.now info text.now }
    ensures { Marks s.now info text.now result }
{
    if is_summed(s, info) {
        return number_of(text);
    }
    0
}

// One setting more; a full tally "keeps the figures of those first 65,535".
fn noted(t: Tally, x: u64) -> Tally
    requires { (x ≤ 4294967296) × Low t }
    ensures { result ≡ noted t x }
{
    if t.count >= FULL {
        return t;
    }
    if t.count == 0 {
        return Tally {
            count: 1,
            least: x,
            greatest: x,
            sum: x,
        };
    }
    Tally {
        count: t.count + 1,
        least: t.least.min(x),
        greatest: t.greatest.max(x),
        sum: t.sum + x,
    }
}

// Before any setting.
pub fn no_figures() -> Figures
    ensures { (result ≡ record { tallies = replicate 64 no_settings }) × Bounded result }
{
    Figures {
        tallies: [Tally::default(); ACCESSIBLES],
    }
}

// Parameter k was set to what is kept as x.
pub fn observe(mut f: Figures, k: usize, x: u64) -> Figures
    requires { (k < 64) × ((x ≤ 4294967296) × Bounded f) }
    ensures { Observes f k x result }
{
    f.tallies[k] = noted(f.tallies[k], x);
    f
}

pub fn tally_at(f: Figures, k: usize) -> Tally
    requires { k < 64 }
    ensures { result ≡ tally_at f k }
{
    f.tallies[k]
}

// The whole number n less base.
fn emit_difference(out: &mut [u8], at: usize, n: u64, base: u64) -> usize
    ensures { Emits out.old at (integer (sub_ℕ n base)) out.new result }
{
    if n < base {
        return emit_labelled_decimal(out, at, b"-", base - n);
    }
    emit_decimal(out, at, n - base)
}

fn emit_labelled(out: &mut [u8], at: usize, label: &[u8], n: u64, base: u64) -> usize
    ensures { Emits out.old at (label.now ++ integer (sub_ℕ n base)) out.new result }
{
    let a = emit(out, at, label);
    emit_difference(out, a, n, base)
}

// "least 3 greatest 12 sum 15", or "none".
fn emit_numbers(out: &mut [u8], at: usize, t: Tally) -> usize
    ensures { Emits out.old at (tally_numbers t) out.new result }
{
    if t.count == 0 {
        return emit(out, at, b" none");
    }
    let a = emit_labelled(out, at, b" least ", t.least, LOWEST);
    let b = emit_labelled(out, a, b" greatest ", t.greatest, LOWEST);
    emit_labelled(out, b, b" sum ", t.sum, u64::from(t.count) * LOWEST)
}

// "Other parameters: count only, never `none`."
fn emit_summed(out: &mut [u8], at: usize, summed: bool, t: Tally) -> usize
    ensures { Emits out.old at (cond summed (tally_numbers t) []) out.new result }
{
    if summed {
        return emit_numbers(out, at, t);
    }
    at
}

// "a full one ends in a space and `full`"
fn emit_full(out: &mut [u8], at: usize, count: u16) -> usize
    ensures { Emits out.old at (full_text count) out.new result }
{
    if count < FULL {
        return at;
    }
    emit(out, at, b" full")
}

fn emit_count(out: &mut [u8], at: usize, module: &[u8], name: &[u8], count: u16) -> usize
    ensures { Emits out.old at (count_text «module».now name.now count) out.new result }
{
    let a = emit(out, at, module);
    let b = emit(out, a, b":");
    let c = emit(out, b, name);
    emit_labelled_decimal(out, c, b" count ", u64::from(count))
}

// The line of one parameter, by its names, whether it has more than a count, and what is kept of its settings.
pub fn emit_line(
    out: &mut [u8],
    at: usize,
    module: &[u8],
    name: &[u8],
    summed: bool,
    t: Tally,
) -> usize
    ensures { Emits out.old at (tally_line «module».now name.now summed t) out.new result }
{
    let a = emit_count(out, at, module, name, t.count);
    let b = emit_summed(out, a, summed, t);
    let c = emit_full(out, b, t.count);
    emit(out, c, b"\n")
}

// What is kept of settings, one after another, tells the line of all of them.
pub fn figures_are_exact() -> bool
    ensures { (result ≡ true) × FiguresAreExact }
{
    true
}
