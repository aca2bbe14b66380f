// The stored form of a value by the datainfo at a position of the table, and what a text comes to by it: both by the one walk that judges
// a value and the one walk that writes what is stored of it.
#![tactic(auto)]

ghost use Rattle.std.specs.Prelude.{◌+◌, ◌≤◌, ◌≡◌, true, length, drop};
ghost use Rattle.datainfo.specs.Layout.{datainfo_in, ReadableAt};
ghost use Rattle.fit.specs.Clauses.Verdict.{JudgesText, TellsStored};
ghost use Rattle.form.specs.Clauses.Formed.{FitsAt, PutsForm, TellsOwn};
ghost use Rattle.form.specs.Theorems.{StoredForms};
ghost use Rattle.json_text.specs.Json.{text};
ghost use Rattle.ascii.specs.Bytes.{is_some};

pub mod complete;
pub mod write;

use ascii::names::same;
use fit::Misfit;
use fit::fit::{fit, range_fit};
use json_text::read::{is_text, spaces_end};
use limits::{DATAINFO_LEVELS, JSON_LEVELS, PLACE};
use write::{form_length, put_text};

// Writes the stored form of a text that fits at a position of out, which has room for the 256 bytes that it may have; the position after
// it is answered.
pub fn put_form(table: &[u8], info: usize, out: &mut [u8], at: usize, text: &[u8]) -> usize
    requires { FitsAt table.now info text.now × (at + 256 ≤ length out.old) }
    ensures { PutsForm (datainfo_in 4 (drop info table.now)) text.now out.old at out.new result }
{
    put_text(table, info, out, at, text)
}

// Of a value that fits, more than 256 bytes in stored form are a range fault; another fault is no lighter.
fn value_verdict(s: &[u8], at: usize, v: &[u8]) -> Result<(), Misfit>
    requires { ReadableAt s.now at 4 × (is_some (text v.now) ≡ true) }
    ensures { JudgesText (datainfo_in 4 (drop at s.now)) v.now result }
{
    fit(s, at, DATAINFO_LEVELS, v, spaces_end(v, 0), JSON_LEVELS)?;
    range_fit(form_length(s, at, v) <= PLACE)
}

// What a text comes to: no JSON is BadJSON.
pub fn verdict(s: &[u8], at: usize, v: &[u8]) -> Result<(), Misfit>
    requires { ReadableAt s.now at 4 }
    ensures { JudgesText (datainfo_in 4 (drop at s.now)) v.now result }
{
    if is_text(v) {
        return value_verdict(s, at, v);
    }
    Err(Misfit::BadJson)
}

// Whether a text that fits is the stored form of itself. That may be as long and another one: a name in quotes as long as its number.
fn is_own_form(s: &[u8], at: usize, v: &[u8]) -> bool
    requires { FitsAt s.now at v.now }
    ensures { TellsOwn (datainfo_in 4 (drop at s.now)) v.now result }
{
    let mut form = [0; PLACE];
    let n = put_form(s, at, &mut form, 0, v);
    same(&form[..n], v)
}

// Whether a text fits and is in stored form.
pub fn is_stored(s: &[u8], at: usize, v: &[u8]) -> bool
    requires { ReadableAt s.now at 4 }
    ensures { TellsStored (datainfo_in 4 (drop at s.now)) v.now result }
{
    verdict(s, at, v).is_ok() && is_own_form(s, at, v)
}

// What is let in is stored in stored form and fits, with numbers for names: nothing is run, the promise is the theorem.
pub fn stored_forms() -> bool
    ensures { (result ≡ true) × StoredForms }
{
    true
}
