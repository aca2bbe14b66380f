// The edition that a table declares by its `ED` record (M-107).
ghost use Rattle.std.specs.Prelude.{◌≡◌, Some, IfSome};
ghost use Rattle.ascii.specs.Text.{bytes};
ghost use Rattle.table.specs.Layout.{begins, Readable};
ghost use Rattle.table.specs.Rules.{edition_good};
ghost use Rattle.table.specs.Clauses.At.{Inside, text_if, EditionIs};

use crate::layout::{Part, head_at};
use ascii::names::is_text;

// "it must begin `ISSE,SECoP,`"
fn begins_so(text: &[u8]) -> bool
    ensures { result ≡ begins (bytes "ISSE,SECoP,") text.now }
{
    text.starts_with(b"ISSE,SECoP,")
}

fn is_good_text(text: &[u8]) -> bool
    ensures { result ≡ edition_good (Some text.now) }
{
    is_text(text) && begins_so(text)
}

// Whether a table's edition is good, if it has one.
pub(crate) fn edition_is_good(s: &[u8], edition: Option<Part>) -> bool
    requires { IfSome edition (Inside s.now) }
    ensures { result ≡ edition_good (text_if s.now edition) }
{
    match edition {
        Some(p) => is_good_text(&s[p.from..p.to]),
        None => true,
    }
}

// The edition of a table that can be read.
pub fn edition_of(s: &[u8]) -> Option<Part>
    requires { Readable s.now }
    ensures { EditionIs s.now result }
{
    head_at(s)?.edition
}
